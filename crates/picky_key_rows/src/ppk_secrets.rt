//! Ed25519 secrets in PuTTY's private key files, where they are numbers.

use crate::ppk_texts::text_with_macs;
use picky_ppk_parts::PpkVersion;
use std::alloc::{AllocError, Global};

/// A secret with 32 zero public bytes and the comment `hello`: its private line, and the MACs of both versions.
pub struct SecretRow {
    pub name: &'static str,
    pub secret: [u8; 32],
    pub private: &'static str,
    pub mac_v2: &'static str,
    pub mac_v3: &'static str,
}

// 32 zeros.
pub const ZEROS: [u8; 32] = [0; 32];

// 80 and 31 zeros in hex.
pub const HIGH: [u8; 32] = [
    128, 0, 0, 0, 0, 0, 0, 0, 0, 0, 0, 0, 0, 0, 0, 0, 0, 0, 0, 0, 0, 0, 0, 0, 0, 0, 0, 0, 0, 0, 0,
    0,
];

// 00 and 31 bytes 01 in hex.
pub const LOW: [u8; 32] = [
    0, 1, 1, 1, 1, 1, 1, 1, 1, 1, 1, 1, 1, 1, 1, 1, 1, 1, 1, 1, 1, 1, 1, 1, 1, 1, 1, 1, 1, 1, 1, 1,
];

// import hmac
// from base64 import b64encode
// from hashlib import sha1
// n32 = lambda n: n.to_bytes(4, "big")
// s = lambda b: n32(len(b)) + b
// def row(private):
//     fields = (b"ssh-ed25519", b"none", b"hello", s(b"ssh-ed25519") + s(bytes(32)), private)
//     covered = b"".join(map(s, fields))
//     k = sha1(b"putty-private-key-file-mac-key").digest()
//     print(b64encode(private), hmac.new(k, covered, "sha1").hexdigest(), hmac.new(b"", covered, "sha256").hexdigest())
// row(s(b"")), row(s(b"\0\x80" + bytes(31))), row(s(b"\1" * 31))
// PuTTYgen reads each file, and so its MAC is good.
pub static SECRET_ROWS: [SecretRow; 3] = [
    SecretRow {
        name: "zeros",
        secret: ZEROS,
        private: "AAAAAA==",
        mac_v2: "ab2de566fc3505617fbdb2161120568c0f86f652",
        mac_v3: "dc054639dad49fb941c7db5115752451a232059bba8b13ebc954997c7f33c93d",
    },
    SecretRow {
        name: "80 and zeros",
        secret: HIGH,
        private: "AAAAIQCAAAAAAAAAAAAAAAAAAAAAAAAAAAAAAAAAAAAAAAAAAA==",
        mac_v2: "3130ade5ac027f8fad11555cc61ed675d29ad3d9",
        mac_v3: "b52960aa072eea964319da3dd7d33cb7fcbcd42f2e352cd1d25bdc558874dbac",
    },
    SecretRow {
        name: "00 and bytes 01",
        secret: LOW,
        private: "AAAAHwEBAQEBAQEBAQEBAQEBAQEBAQEBAQEBAQEBAQEBAQE=",
        mac_v2: "f740f43f47f9f2628ad41f55c06421782607bef0",
        mac_v3: "f3caf83facf1dafd4207f1d53e305d4cc68c88743a062f587e47376fc9ef83c0",
    },
];

// Between the first line's version and the private line; of the public key as `base64 -w 64` prints it.
const HEAD: &str = ": ssh-ed25519\n\
    Encryption: none\n\
    Comment: hello\n\
    Public-Lines: 2\n\
    AAAAC3NzaC1lZDI1NTE5AAAAIAAAAAAAAAAAAAAAAAAAAAAAAAAAAAAAAAAAAAAA\n\
    AAAA\n\
    Private-Lines: 1\n";

/// The file of the row. Refuses: want of memory.
pub fn secret_text_of(
    alloc: Global,
    row: &SecretRow,
    version: PpkVersion,
) -> Result<String, AllocError> {
    let body = format!(in alloc; "{HEAD}{}\n", row.private)?;
    text_with_macs(alloc, body.as_str(), version, row.mac_v2, row.mac_v3)
}

// That of the first row, by hand; puttygen reads it.
pub const ZERO_TEXT: &str = "PuTTY-User-Key-File-3: ssh-ed25519\n\
    Encryption: none\n\
    Comment: hello\n\
    Public-Lines: 2\n\
    AAAAC3NzaC1lZDI1NTE5AAAAIAAAAAAAAAAAAAAAAAAAAAAAAAAAAAAAAAAAAAAA\n\
    AAAA\n\
    Private-Lines: 1\n\
    AAAAAA==\n\
    Private-MAC: dc054639dad49fb941c7db5115752451a232059bba8b13ebc954997c7f33c93d\n";

// The key of 32 zero secret and 32 zero public bytes, whose comment is `x` and CR: with row as above, but for the
// comment b"x\r": row(s(b""))
pub const ENDS_IN_CR: &str = "PuTTY-User-Key-File-2: ssh-ed25519\r\n\
    Encryption: none\r\n\
    Comment: x\r\r\n\
    Public-Lines: 2\r\n\
    AAAAC3NzaC1lZDI1NTE5AAAAIAAAAAAAAAAAAAAAAAAAAAAAAAAAAAAAAAAAAAAA\r\n\
    AAAA\r\n\
    Private-Lines: 1\r\n\
    AAAAAA==\r\n\
    Private-MAC: f84c0999e316de1bb81e856de9c2f20bdceeafee\r\n";
