//! The certificate whose keys, nonce and signature are zero bytes: what asks for it, and its line.

use crate::runs::Asked;

pub const TYPE: &[&str] = &["--type", "ssh-ed25519-cert-v01@openssh.com"];

/// The type, and both times.
pub const TIMES: &[&str] = &[
    "--type",
    "ssh-ed25519-cert-v01@openssh.com",
    "--after",
    "0",
    "--before",
    "0",
];

/// The same for a host.
pub const HOST: &[&str] = &[
    "--type",
    "ssh-ed25519-cert-v01@openssh.com",
    "--kind",
    "host",
    "--after",
    "0",
    "--before",
    "0",
];

/// As many fresh bytes as a nonce takes.
pub const FRESH: &[u8] = &[0; 32];

/// A signature of zeros.
pub const SIGNATURE: &[u8] = &[0; 64];

// The issuer and the subject have the key of 32 zero bytes: base64 of s(b"ssh-ed25519") + s(bytes(32)), with s as below.
pub const SOURCE: &str =
    "ssh-ed25519 AAAAC3NzaC1lZDI1NTE5AAAAIAAAAAAAAAAAAAAAAAAAAAAAAAAAAAAAAAAAAAAAAAAA ca\n\
    %%\n\
    ssh-ed25519 AAAAC3NzaC1lZDI1NTE5AAAAIAAAAAAAAAAAAAAAAAAAAAAAAAAAAAAAAAAAAAAAAAAA host\n";

// What `ssh-pub` writes for the subject.
pub const SUBJECT_LINE: &str =
    "ssh-ed25519 AAAAC3NzaC1lZDI1NTE5AAAAIAAAAAAAAAAAAAAAAAAAAAAAAAAAAAAAAAAAAAAAAAAA host\r\n";

// By python3 from the fields of OpenSSH's PROTOCOL.certkeys. Those of the other rows are made by the same functions.
//
// from base64 import b64encode
// n32 = lambda n: n.to_bytes(4, "big")
// n64 = lambda n: n.to_bytes(8, "big")
// s = lambda b: n32(len(b)) + b
// ed = s(b"ssh-ed25519")
// TYPE = b"ssh-ed25519-cert-v01@openssh.com"
// def signed(kind, type=TYPE, nonce=bytes(32), key=s(bytes(32)), serial=0, key_id=b"", principals=b"", after=0, before=0,
//            options=b"", extensions=b"", issuer=ed + s(bytes(32))):
//     return (s(type) + s(nonce) + key + n64(serial) + n32(kind) + s(key_id) + s(principals) + n64(after) + n64(before)
//             + s(options) + s(extensions) + s(b"") + s(issuer))
// def line(signed, payload=bytes(64), format=b"ssh-ed25519", type=TYPE, comment=b"host"):
//     return type + b" " + b64encode(signed + s(s(format) + s(payload))) + b" " + comment + b"\r\n"
// line(signed(2))
pub const HOST_LINE: &str =
    "ssh-ed25519-cert-v01@openssh.com AAAAIHNzaC1lZDI1NTE5LWNlcnQtdjAxQG9wZW5zc2guY29tAAAAIAAAAAAAAAAAAAAAAAAAAAAAAAAAAAAAAAAAAAAAAAAAAAAAIAAAAAAAAAAAAAAAAAAAAAAAAAAAAAAAAAAAAAAAAAAAAAAAAAAAAAAAAAACAAAAAAAAAAAAAAAAAAAAAAAAAAAAAAAAAAAAAAAAAAAAAAAAAAAAMwAAAAtzc2gtZWQyNTUxOQAAACAAAAAAAAAAAAAAAAAAAAAAAAAAAAAAAAAAAAAAAAAAAAAAAFMAAAALc3NoLWVkMjU1MTkAAABAAAAAAAAAAAAAAAAAAAAAAAAAAAAAAAAAAAAAAAAAAAAAAAAAAAAAAAAAAAAAAAAAAAAAAAAAAAAAAAAAAAAAAA== host\r\n";

// signed(2).hex()
pub const HOST_SIGNED: &str =
    "000000207373682d656432353531392d636572742d763031406f70656e7373682e636f6d000000200000000000000000000000000000000000000000000000000000000000000000000000200000000000000000000000000000000000000000000000000000000000000000000000000000000000000002000000000000000000000000000000000000000000000000000000000000000000000000000000330000000b7373682d65643235353139000000200000000000000000000000000000000000000000000000000000000000000000\n";

/// What asks for it.
pub const ZERO_HOST: Asked<'static> = Asked {
    words: HOST,
    more: &[],
    source: SOURCE,
    fresh: FRESH,
};
