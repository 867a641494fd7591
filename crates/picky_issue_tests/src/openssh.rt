//! Certificates that are signed outside, and that OpenSSH accepts.

use crate::issued::blob_of;
use crate::runs::{Asked, issues, shows};
use std::alloc::Global;
use std::mem::ManuallyDrop;
use std::test::Fail;

/// What is asked, the signature of its first so many bytes, and the line.
pub struct OpenSshRow {
    pub name: &'static str,
    pub words: &'static [&'static str],
    pub source: &'static str,
    pub signed_len: usize,
    pub signature: &'static [u8],
    pub line: &'static str,
}

// The nonce: bytes(range(32)).
pub const FRESH: &[u8] = &[
    0, 1, 2, 3, 4, 5, 6, 7, 8, 9, 10, 11, 12, 13, 14, 15, 16, 17, 18, 19, 20, 21, 22, 23, 24, 25,
    26, 27, 28, 29, 30, 31,
];

// By ssh-keygen and python3's cryptography. ssh-keygen checks the signature when it reads a line: it accepts each of these
// lines, and refuses it where the last bit of any byte of the signature is another. bench/issue_with_openssh does the same
// with keys of its own, over what `tbs` writes.
//
// ssh-keygen -q -t ed25519 -N '' -C user@example.org -f user; ssh-keygen -q -t ed25519 -N '' -C ca -f ca_ed
// ssh-keygen -q -t ecdsa -b 256 -N '' -C host.example.org -f host; ssh-keygen -q -t ecdsa -b 256 -N '' -C ca -f ca_p256
// ssh-keygen -q -t rsa -b 1024 -N '' -C ca -f ca_rsa
// A row's source is `cat CA.pub; echo %%; cat SUBJECT.pub`. With line, s and signed as in crate::zero_lines:
//
// key = lambda name: load_ssh_private_key(open(name, "rb").read(), None)
// blob = lambda name: base64.b64decode(open(name + ".pub").read().split()[1])
// fields = lambda blob: blob[4 + int.from_bytes(blob[:4], "big"):]
// mpint = lambda n: s(n.to_bytes(n.bit_length() // 8 + 1, "big"))
// U = dict(nonce=bytes(range(32)), key=fields(blob("user")), serial=7, key_id=b"user", principals=s(b"root"),
//          after=1577836800, before=1893456000)
// m = signed(1, options=s(b"source-address") + s(s(b"127.0.0.1/32")), extensions=s(b"permit-pty") + s(b""),
//            issuer=blob("ca_ed"), **U)
// signature = key("ca_ed").sign(m); line(m, signature, comment=b"user@example.org"); ssh-keygen -L -f LINE
static BY_ED25519: OpenSshRow = OpenSshRow {
    name: "Ed25519",
    words: &[
        "--type",
        "ssh-ed25519-cert-v01@openssh.com",
        "--kind",
        "client",
        "--serial",
        "7",
        "--id",
        "user",
        "--principal",
        "root",
        "--after",
        "1577836800",
        "--before",
        "1893456000",
        "--critical",
        "source-address=127.0.0.1/32",
        "--extension",
        "permit-pty",
    ],
    source: "ssh-ed25519 AAAAC3NzaC1lZDI1NTE5AAAAIKsDjkdhTy5V0mV10mmGdvSfLJXy3xbrrf52aDoeNvZa ca\n%%\nssh-ed25519 AAAAC3NzaC1lZDI1NTE5AAAAIOMKWxH6IHd6sdT/sgCWaDf8wWgFdZa/1g8Rc6oTQjkW user@example.org\n",
    signed_len: 279,
    signature: b"\xb7\x17\x46\x75\x99\x01\x4f\xd0\xb7\x77\x3d\xf5\xc4\xcd\x1a\x20\
        \x05\x50\xfb\x8a\x5f\x83\x02\xfd\x52\x37\x51\xce\x01\xa5\x7f\x32\
        \x31\xe6\x1f\xef\x57\xbc\x2b\xde\xac\x90\x6b\xc2\xa8\x99\xd4\x60\
        \xd6\xe4\xcd\xd7\xf5\x29\x18\x39\x17\x6d\xf5\x2b\x3a\x6a\x26\x0e",
    line: "ssh-ed25519-cert-v01@openssh.com AAAAIHNzaC1lZDI1NTE5LWNlcnQtdjAxQG9wZW5zc2guY29tAAAAIAABAgMEBQYHCAkKCwwNDg8QERITFBUWFxgZGhscHR4fAAAAIOMKWxH6IHd6sdT/sgCWaDf8wWgFdZa/1g8Rc6oTQjkWAAAAAAAAAAcAAAABAAAABHVzZXIAAAAIAAAABHJvb3QAAAAAXgvhAAAAAABw29iAAAAAJgAAAA5zb3VyY2UtYWRkcmVzcwAAABAAAAAMMTI3LjAuMC4xLzMyAAAAEgAAAApwZXJtaXQtcHR5AAAAAAAAAAAAAAAzAAAAC3NzaC1lZDI1NTE5AAAAIKsDjkdhTy5V0mV10mmGdvSfLJXy3xbrrf52aDoeNvZaAAAAUwAAAAtzc2gtZWQyNTUxOQAAAEC3F0Z1mQFP0Ld3PfXEzRogBVD7il+DAv1SN1HOAaV/MjHmH+9XvCverJBrwqiZ1GDW5M3X9SkYORdt9Ss6aiYO user@example.org\r\n",
};

// m = signed(1, extensions=PERMITS, issuer=blob("ca_rsa"), **U), with PERMITS as in crate::issued
// signature = key("ca_rsa").sign(m, PKCS1v15(), SHA512()); line(m, signature, b"rsa-sha2-512", comment=b"user@example.org")
static BY_RSA: OpenSshRow = OpenSshRow {
    name: "RSA",
    words: &[
        "--type",
        "ssh-ed25519-cert-v01@openssh.com",
        "--kind",
        "client",
        "--serial",
        "7",
        "--id",
        "user",
        "--principal",
        "root",
        "--after",
        "1577836800",
        "--before",
        "1893456000",
        "--algorithm",
        "rsa-sha2-512",
    ],
    source: "ssh-rsa AAAAB3NzaC1yc2EAAAADAQABAAAAgQDQT3nMwguH9KEkbYoJh7UBe8887DUwzoMKlqxlJlmEQTig5s7kFlXulk9ZISLZADbwsSEIVkQ1TEaB7eeqg2Wuem51P7r5+QHdm988idoTgiDDWTEmSg445ouIXG1uqEg4y8zVFjGbuC6f+Xw8oVrChafOmvPZm4Bt044S7Xd17w== ca\n%%\nssh-ed25519 AAAAC3NzaC1lZDI1NTE5AAAAIOMKWxH6IHd6sdT/sgCWaDf8wWgFdZa/1g8Rc6oTQjkW user@example.org\n",
    signed_len: 453,
    signature: b"\x2e\x04\x18\xad\x68\xdf\x73\x06\x9d\x6f\x3b\x10\x19\x6b\x42\xa7\
        \x21\x15\x79\xbc\x4f\xa0\xee\x5f\x83\x98\xd3\x89\x75\x84\xc0\x20\
        \x76\x7f\x06\xb2\x94\x45\x53\x13\x01\x92\x1d\xa3\x0f\x1d\xd2\xe8\
        \x42\x81\x84\x33\x1d\x50\x24\x7e\x3d\x30\x26\x85\xf9\xfc\x60\x4f\
        \xaa\x1a\xc0\x57\x0a\x58\x6d\xf8\x72\x03\x30\x31\x03\xeb\x59\x00\
        \xc1\x83\xaa\x8e\x1b\x12\xb0\x5b\x2f\xab\xf7\x79\xf4\x23\x69\x22\
        \xbb\x4d\x9c\xe3\xa2\x0f\x5f\x92\x8c\x3a\x8e\x4b\x4e\xca\xa2\x5d\
        \x61\xbb\xa9\x02\x23\x18\x59\xe9\xbb\x06\xa2\x7d\x17\xac\x17\xb9",
    line: "ssh-ed25519-cert-v01@openssh.com AAAAIHNzaC1lZDI1NTE5LWNlcnQtdjAxQG9wZW5zc2guY29tAAAAIAABAgMEBQYHCAkKCwwNDg8QERITFBUWFxgZGhscHR4fAAAAIOMKWxH6IHd6sdT/sgCWaDf8wWgFdZa/1g8Rc6oTQjkWAAAAAAAAAAcAAAABAAAABHVzZXIAAAAIAAAABHJvb3QAAAAAXgvhAAAAAABw29iAAAAAAAAAAIIAAAAVcGVybWl0LVgxMS1mb3J3YXJkaW5nAAAAAAAAABdwZXJtaXQtYWdlbnQtZm9yd2FyZGluZwAAAAAAAAAWcGVybWl0LXBvcnQtZm9yd2FyZGluZwAAAAAAAAAKcGVybWl0LXB0eQAAAAAAAAAOcGVybWl0LXVzZXItcmMAAAAAAAAAAAAAAJcAAAAHc3NoLXJzYQAAAAMBAAEAAACBANBPeczCC4f0oSRtigmHtQF7zzzsNTDOgwqWrGUmWYRBOKDmzuQWVe6WT1khItkANvCxIQhWRDVMRoHt56qDZa56bnU/uvn5Ad2b3zyJ2hOCIMNZMSZKDjjmi4hcbW6oSDjLzNUWMZu4Lp/5fDyhWsKFp86a89mbgG3TjhLtd3XvAAAAlAAAAAxyc2Etc2hhMi01MTIAAACALgQYrWjfcwadbzsQGWtCpyEVebxPoO5fg5jTiXWEwCB2fwaylEVTEwGSHaMPHdLoQoGEMx1QJH49MCaF+fxgT6oawFcKWG34cgMwMQPrWQDBg6qOGxKwWy+r93n0I2kiu02c46IPX5KMOo5LTsqiXWG7qQIjGFnpuwaifResF7k= user@example.org\r\n",
};

// P256 = b"ecdsa-sha2-nistp256-cert-v01@openssh.com"
// m = signed(2, type=P256, nonce=bytes(range(32)), key=fields(blob("host")), principals=s(b"host.example.org"),
//            before=2**64 - 1, issuer=blob("ca_p256"))
// r, t = decode_dss_signature(key("ca_p256").sign(m, ECDSA(SHA256()))); signature = mpint(r) + mpint(t)
// line(m, signature, b"ecdsa-sha2-nistp256", P256, b"host.example.org")
static BY_P256: OpenSshRow = OpenSshRow {
    name: "NIST P-256",
    words: &[
        "--type",
        "ecdsa-sha2-nistp256-cert-v01@openssh.com",
        "--kind",
        "host",
        "--principal",
        "host.example.org",
        "--after",
        "0",
        "--before",
        "18446744073709551615",
    ],
    source: "ecdsa-sha2-nistp256 AAAAE2VjZHNhLXNoYTItbmlzdHAyNTYAAAAIbmlzdHAyNTYAAABBBCqSNzBTwaxALhT/EJH/kHM+wofG9jBgx7eEaKaUeTXEc/uF0tyAz2jLwYiUVL/bkLFCLMFlSrv9PdLJMqyu1EI= ca\n%%\necdsa-sha2-nistp256 AAAAE2VjZHNhLXNoYTItbmlzdHAyNTYAAAAIbmlzdHAyNTYAAABBBF7079ieXa0iDCHGU2U3UTtqkHqhAD/9v/MiI1qmDc2OUiDZsZmtdNGhzF1TnOQEk568QeCAa6vMJJa3A7yv7PM= host.example.org\n",
    signed_len: 337,
    signature: b"\x00\x00\x00\x21\x00\xe8\xda\x2f\xf8\xb2\xb5\xcc\xeb\xb2\xf9\x70\
        \xfb\x36\xaf\xd8\x5f\x1b\xcc\x02\xd6\x99\xdc\x25\x4a\x3f\x81\xf5\
        \xd7\x63\xff\x60\xb4\x00\x00\x00\x21\x00\xe1\x41\xd3\x70\xa6\x24\
        \xa0\xc9\xab\xa7\x77\xf3\xb4\x72\x64\x46\x50\x05\x0e\xb5\x45\xa3\
        \x60\xc9\xeb\xe0\x30\x8a\xc4\x18\x57\x6c",
    line: "ecdsa-sha2-nistp256-cert-v01@openssh.com AAAAKGVjZHNhLXNoYTItbmlzdHAyNTYtY2VydC12MDFAb3BlbnNzaC5jb20AAAAgAAECAwQFBgcICQoLDA0ODxAREhMUFRYXGBkaGxwdHh8AAAAIbmlzdHAyNTYAAABBBF7079ieXa0iDCHGU2U3UTtqkHqhAD/9v/MiI1qmDc2OUiDZsZmtdNGhzF1TnOQEk568QeCAa6vMJJa3A7yv7PMAAAAAAAAAAAAAAAIAAAAAAAAAFAAAABBob3N0LmV4YW1wbGUub3JnAAAAAAAAAAD//////////wAAAAAAAAAAAAAAAAAAAGgAAAATZWNkc2Etc2hhMi1uaXN0cDI1NgAAAAhuaXN0cDI1NgAAAEEEKpI3MFPBrEAuFP8Qkf+Qcz7Ch8b2MGDHt4RoppR5NcRz+4XS3IDPaMvBiJRUv9uQsUIswWVKu/090skyrK7UQgAAAGUAAAATZWNkc2Etc2hhMi1uaXN0cDI1NgAAAEoAAAAhAOjaL/iytczrsvlw+zav2F8bzALWmdwlSj+B9ddj/2C0AAAAIQDhQdNwpiSgyaund/O0cmRGUAUOtUWjYMnr4DCKxBhXbA== host.example.org\r\n",
};

pub fn openssh_row(number: usize) -> &'static OpenSshRow {
    match number {
        0 => ed25519_row(),
        1 => rsa_row(),
        _ => p256_row(),
    }
}

fn ed25519_row() -> &'static OpenSshRow {
    &BY_ED25519
}

fn rsa_row() -> &'static OpenSshRow {
    &BY_RSA
}

fn p256_row() -> &'static OpenSshRow {
    &BY_P256
}

/// The first so many bytes of the line's second word in lower-case hex, and LF.
fn signed_text(alloc: Global, row: &OpenSshRow) -> Option<String> {
    let blob = ManuallyDrop::new(blob_of(alloc, row.line)?);
    let signed = blob.as_slice().get(..row.signed_len)?;
    let mut text = ManuallyDrop::new(hex::encode(alloc, signed).ok()?);
    text.push_str("\n").ok()?;
    Some(ManuallyDrop::into_inner(text))
}

/// `tbs` shows what is signed, and `cert` writes the line with the signature.
fn is_issued(alloc: Global, row: &OpenSshRow) -> Result<bool, Fail> {
    let asked = Asked {
        words: row.words,
        more: &[],
        source: row.source,
        fresh: FRESH,
    };
    match &*ManuallyDrop::new(signed_text(alloc, row)) {
        Some(text) => Ok(
            shows(alloc, &asked, text.as_str())? && issues(alloc, &asked, row.signature, row.line)?,
        ),
        None => Ok(false),
    }
}

#[test]
fn issues_what_openssh_accepts(rt: HostRuntime) -> Result<(), Fail> {
    for number in 0..3 {
        let row = openssh_row(number);
        assert!(rt; is_issued(rt.alloc(), row)?, "{}", row.name);
    }
    Ok(())
}
