//! Why the key in a PuTTY private key file is refused, where the file itself isn't: of two faults the one that is tried
//! first.

use crate::answers::kept;
use crate::ppk_and_openssh::{made_of, ppk_of};
use crate::reading::is_named;
use picky_key_rows::{PRIVATE_ROWS, unsealed};
use picky_ppk::Ppk;
use std::alloc::{AllocError, Global};
use std::mem::ManuallyDrop;
use std::test::Fail;

/// The fields of a file of version 3 with an empty comment, in base64 and hex, and why its key is refused.
struct KeyRow {
    name: &'static str,
    algorithm: &'static str,
    blob: &'static str,
    private: &'static str,
    mac: &'static str,
    wanted: &'static str,
}

// s(b"ssh-ed25519") + s(bytes(32)), with s as below
const ED: &str = "AAAAC3NzaC1lZDI1NTE5AAAAIAAAAAAAAAAAAAAAAAAAAAAAAAAAAAAAAAAAAAAAAAAA";

// s(b"ecdsa-sha2-nistp384") + s(b"nistp384") + s(b"\4")
const EC: &str = "AAAAE2VjZHNhLXNoYTItbmlzdHAzODQAAAAIbmlzdHAzODQAAAABBA==";

// import hmac
// from base64 import b64encode
// n32 = lambda n: n.to_bytes(4, "big")
// s = lambda b: n32(len(b)) + b
// def row(algorithm, blob, private):
//     covered = b"".join(map(s, (algorithm, b"none", b"", blob, private)))
//     print(b64encode(blob), b64encode(private), hmac.new(b"", covered, "sha256").hexdigest())
// Cut: ED without its last byte; s(b"\1" * 33) without its last byte; s(b"\1") * 3 + n32(1); n32(1).
// Others: s(b"ssh-none"); s(b"ssh-rsa") + s(b"\3") + s(b"#"); s(b"sk-ssh-ed25519@openssh.com") + s(bytes(32)) + s(b"ssh:").
static KEY_ROWS: [KeyRow; 13] = [
    KeyRow {
        name: "a blob that is cut, and DSS",
        algorithm: "ssh-dss",
        blob: "AAAAC3NzaC1lZDI1NTE5AAAAIAAAAAAAAAAAAAAAAAAAAAAAAAAAAAAAAAAAAAAAAAA=",
        private: "",
        mac: "77f6d3bf911c978deb2b36e79cdc39d7b67fe2db9609b07be99a7d73b3b5d7bc",
        wanted: "SshPublicKey(IoError(UnexpectedEnd))",
    },
    KeyRow {
        name: "a blob that names no key, and DSS",
        algorithm: "ssh-dss",
        blob: "AAAACHNzaC1ub25l",
        private: "",
        mac: "dee6f14f0a70923b387454797a477c608c197ab01065971f635e080ceb7c4183",
        wanted: "SshPublicKey(UnknownKeyType)",
    },
    KeyRow {
        name: "DSS, and a blob of another kind",
        algorithm: "ssh-dss",
        blob: ED,
        private: "",
        mac: "4bdd66d4115f13bdac0770edf6d9e2c5428cc40e59846887c755cb459359c396",
        wanted: "NotSupported: unsupported key algorithm",
    },
    KeyRow {
        name: "Ed448, and a blob of another kind",
        algorithm: "ssh-ed448",
        blob: ED,
        private: "",
        mac: "30b7114a5e3498717aa637acdaff15958a4d391f23012ade8d67e8b3ec32a262",
        wanted: "NotSupported: unsupported key algorithm",
    },
    KeyRow {
        name: "a blob of another kind, and no private bytes",
        algorithm: "ssh-rsa",
        blob: ED,
        private: "",
        mac: "9eeef5a36ea1d23e838977de048aa9331e574a16a8cf009245ef86f9a4eb49b7",
        wanted: "PublicAndPrivateKeyMismatch",
    },
    KeyRow {
        name: "a blob of another curve, and no private bytes",
        algorithm: "ecdsa-sha2-nistp256",
        blob: EC,
        private: "",
        mac: "f666a4b657cad6e676c56ba0ef4da05ad3a8c43fe74a30b2dcfd988ad9aafc52",
        wanted: "PublicAndPrivateKeyMismatch",
    },
    KeyRow {
        name: "a blob of a device's key, and a secret of 33 bytes",
        algorithm: "ssh-ed25519",
        blob: "AAAAGnNrLXNzaC1lZDI1NTE5QG9wZW5zc2guY29tAAAAIAAAAAAAAAAAAAAAAAAAAAAAAAAAAAAAAAAAAAAAAAAAAAAABHNzaDo=",
        private: "AAAAIQEBAQEBAQEBAQEBAQEBAQEBAQEBAQEBAQEBAQEBAQEBAQ==",
        mac: "4d199c9d6f4e2979a04a84336a4c186a68365f8d35fd393d12ba4bfed9bdcf87",
        wanted: "PublicAndPrivateKeyMismatch",
    },
    KeyRow {
        name: "a blob of another kind, and a secret of 33 bytes",
        algorithm: "ssh-ed25519",
        blob: EC,
        private: "AAAAIQEBAQEBAQEBAQEBAQEBAQEBAQEBAQEBAQEBAQEBAQEBAQ==",
        mac: "63a5783f969ab86667b0ad137d577eb0b20ae65fb1ebbcc7af023bfc55b9672d",
        wanted: "PublicAndPrivateKeyMismatch",
    },
    KeyRow {
        name: "no private bytes",
        algorithm: "ssh-ed25519",
        blob: ED,
        private: "",
        mac: "6ec21420ad67f1ec35538e1d5c819a9152ca67064e2c3789c86fe0a7807e046f",
        wanted: "IoError(UnexpectedEnd)",
    },
    KeyRow {
        name: "a secret of 33 bytes that is cut",
        algorithm: "ssh-ed25519",
        blob: ED,
        private: "AAAAIQEBAQEBAQEBAQEBAQEBAQEBAQEBAQEBAQEBAQEBAQEB",
        mac: "0baf13389b09ffe332459d673f9b7ed02ba9db89be5a1951fbf72fbd8e700c97",
        wanted: "IoError(UnexpectedEnd)",
    },
    KeyRow {
        name: "a secret of 33 bytes",
        algorithm: "ssh-ed25519",
        blob: ED,
        private: "AAAAIQEBAQEBAQEBAQEBAQEBAQEBAQEBAQEBAQEBAQEBAQEBAQ==",
        mac: "40b3a4df2385a1ad0cfc4ac87b4a991f3fd26d47ef6fa0c57ab8b2383ea9c083",
        wanted: "InvalidPrivateKeyData",
    },
    KeyRow {
        name: "a last number that is cut",
        algorithm: "ssh-rsa",
        blob: "AAAAB3NzaC1yc2EAAAABAwAAAAEj",
        private: "AAAAAQEAAAABAQAAAAEBAAAAAQ==",
        mac: "c876b2af0aa80bcdace222bc119c4350c1ff3252075314767068aaa0aec7209a",
        wanted: "IoError(UnexpectedEnd)",
    },
    KeyRow {
        name: "a secret number that is cut",
        algorithm: "ecdsa-sha2-nistp384",
        blob: EC,
        private: "AAAAAQ==",
        mac: "e3187d1e8bd2f4a30e70f5ae281297c31f1389561dcb60bd8fc2ca4c625a5c23",
        wanted: "IoError(UnexpectedEnd)",
    },
];

/// The row's file, each block in one line.
fn text_of(alloc: Global, row: &KeyRow) -> Result<String, AllocError> {
    let head = ManuallyDrop::new(format!(in alloc;
        "PuTTY-User-Key-File-3: {}\nEncryption: none\nComment: \n",
        row.algorithm
    )?);
    let blob = ManuallyDrop::new(format!(in alloc;
        "{}Public-Lines: 1\n{}\n",
        head.as_str(),
        row.blob
    )?);
    format!(in alloc;
        "{}Private-Lines: 1\n{}\nPrivate-MAC: {}\n",
        blob.as_str(),
        row.private,
        row.mac
    )
}

fn row_ppk(alloc: Global, row: &KeyRow) -> Result<ManuallyDrop<Ppk>, Fail> {
    let text = kept(text_of(alloc, row))?;
    kept(ppk_of(alloc, text.as_str()))
}

/// Why the private key isn't given, and why OpenSSH's isn't, is as the row says.
fn is_refused(alloc: Global, row: &KeyRow) -> Result<bool, Fail> {
    let ppk = row_ppk(alloc, row)?;
    Ok(
        is_named(alloc, ppk.private_key(alloc), row.wanted)?
            && is_named(
                alloc,
                ppk.to_openssh_private_key(alloc, None, &[0; 16]),
                row.wanted,
            )?,
    )
}

#[test]
fn refuses_keys_in_order(rt: HostRuntime) -> Result<(), Fail> {
    for row in &KEY_ROWS {
        assert!(rt; is_refused(rt.alloc(), row)?, "{}", row.name);
    }
    Ok(())
}

const SK_KEYS: &str = "NotSupported: SK keys";

/// No file is made of the OpenSSH key.
fn is_not_made(alloc: Global, text: &str) -> Result<bool, Fail> {
    let key = ManuallyDrop::new(unsealed(alloc, text)?);
    is_named(alloc, made_of(alloc, &key), SK_KEYS)
}

/// No public key is given, of the row whose blob is that of a device's key.
fn has_no_public(alloc: Global) -> Result<bool, Fail> {
    let ppk = row_ppk(alloc, &KEY_ROWS[6])?;
    is_named(alloc, ppk.public_key(alloc), SK_KEYS)
}

#[test]
fn has_no_keys_of_devices(rt: HostRuntime) -> Result<(), Fail> {
    for row in &PRIVATE_ROWS {
        if row.is_security_key_kind {
            assert!(rt; is_not_made(rt.alloc(), row.text)?, "{}", row.name);
        }
    }
    assert!(rt; has_no_public(rt.alloc())?);
    Ok(())
}
