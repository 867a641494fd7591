//! Why a sealed OpenSSH private key isn't opened: each reason, and of two in one envelope the one that is tried first.

use crate::reading_refusals::{Field, MAGIC, NOTHING, is_refused};
use picky_suite::MemorySuite;
use std::alloc::Global;
use std::mem::ManuallyDrop;
use std::test::Fail;

/// A sealed block, what its envelope says of it, a passphrase, and whether the suite fails.
struct SealedRow {
    name: &'static str,
    cipher: &'static [u8],
    kdf: &'static [u8],
    option: &'static [u8],
    block: &'static [u8],
    pass: Option<&'static str>,
    fails: bool,
    wanted: &'static str,
}

/// The salt `salt` and 16 rounds.
const OPTION: &[u8] = b"\0\0\0\x04salt\0\0\0\x10";

/// The same salt and no rounds.
const NO_ROUNDS: &[u8] = b"\0\0\0\x04salt\0\0\0\0";

// The order is: the cipher, the derivation, the passphrase, what is derived, whole blocks of cbc, the suite, the block.
//
// Of the last row, with s, n32 and sha512 as in crate::sealing:
// d = b"".join(sha512(s(b"pass") + s(b"salt") + n32(16) + bytes([i])).digest() for i in (0, 1))
// print(*(int.from_bytes(d[i:i + 4], "big") ^ int.from_bytes(d[i + 32:i + 36], "big") for i in (0, 4)))
static SEALED_ROWS: [SealedRow; 12] = [
    SealedRow {
        name: "a cipher and a derivation that are unknown",
        cipher: b"3des-cbc",
        kdf: b"scrypt",
        option: OPTION,
        block: b"1234567",
        pass: None,
        fails: true,
        wanted: "UnsupportedCipher(Text { string: \"3des-cbc\" })",
    },
    SealedRow {
        name: "no cipher, and a derivation",
        cipher: b"none",
        kdf: b"bcrypt",
        option: OPTION,
        block: b"1234567",
        pass: None,
        fails: true,
        wanted: "UnsupportedCipher(Text { string: \"none\" })",
    },
    SealedRow {
        name: "a name that goes on",
        cipher: b"aes256-ctr ",
        kdf: b"bcrypt",
        option: OPTION,
        block: b"1234567",
        pass: None,
        fails: true,
        wanted: "UnsupportedCipher(Text { string: \"aes256-ctr \" })",
    },
    SealedRow {
        name: "an unknown derivation, and no passphrase",
        cipher: b"aes256-ctr",
        kdf: b"scrypt",
        option: OPTION,
        block: b"1234567",
        pass: None,
        fails: true,
        wanted: "UnsupportedKdf(Text { string: \"scrypt\" })",
    },
    SealedRow {
        name: "no passphrase, and no rounds",
        cipher: b"aes256-cbc",
        kdf: b"bcrypt",
        option: NO_ROUNDS,
        block: b"12345678123456781",
        pass: None,
        fails: true,
        wanted: "MissingPassphrase",
    },
    SealedRow {
        name: "no rounds, and a block of 17 bytes",
        cipher: b"aes256-cbc",
        kdf: b"bcrypt",
        option: NO_ROUNDS,
        block: b"12345678123456781",
        pass: Some("pass"),
        fails: true,
        wanted: "HashingError",
    },
    SealedRow {
        name: "no salt, and a block of 17 bytes",
        cipher: b"aes128-cbc",
        kdf: b"bcrypt",
        option: b"\0\0\0\0\0\0\0\x10",
        block: b"12345678123456781",
        pass: Some("pass"),
        fails: true,
        wanted: "HashingError",
    },
    SealedRow {
        name: "an empty passphrase, and a block of 17 bytes",
        cipher: b"aes128-cbc",
        kdf: b"bcrypt",
        option: OPTION,
        block: b"12345678123456781",
        pass: Some(""),
        fails: true,
        wanted: "HashingError",
    },
    SealedRow {
        name: "a block of 17 bytes, and a suite that fails",
        cipher: b"aes256-cbc",
        kdf: b"bcrypt",
        option: OPTION,
        block: b"12345678123456781",
        pass: Some("pass"),
        fails: true,
        wanted: "DecryptionError",
    },
    SealedRow {
        name: "a suite that fails, and a block of seven bytes",
        cipher: b"aes256-ctr",
        kdf: b"bcrypt",
        option: OPTION,
        block: b"1234567",
        pass: Some("pass"),
        fails: true,
        wanted: "SuiteFault",
    },
    SealedRow {
        name: "a block of seven bytes",
        cipher: b"aes128-ctr",
        kdf: b"bcrypt",
        option: OPTION,
        block: b"1234567",
        pass: Some("pass"),
        fails: false,
        wanted: "IoError(UnexpectedEnd)",
    },
    SealedRow {
        name: "eight zeros that are sealed",
        cipher: b"aes256-ctr",
        kdf: b"bcrypt",
        option: OPTION,
        block: b"\0\0\0\0\0\0\0\0",
        pass: Some("pass"),
        fails: false,
        wanted: "InvalidCheckNumbers(3842828506, 170433610)",
    },
];

/// The row's envelope is refused so.
fn is_sealed_refused(alloc: Global, row: &SealedRow) -> Result<bool, Fail> {
    let failing: &[u64] = if row.fails { &[0] } else { &[] };
    let mut suite = ManuallyDrop::new(MemorySuite::new(alloc, failing)?);
    let envelope = [
        MAGIC,
        Field::Word(row.cipher),
        Field::Word(row.kdf),
        Field::Word(row.option),
        Field::Number(1),
        NOTHING,
        Field::Word(row.block),
    ];
    is_refused(alloc, &mut suite, &envelope, row.pass, row.wanted)
}

#[test]
fn refuses_to_open_in_order(rt: HostRuntime) -> Result<(), Fail> {
    for row in &SEALED_ROWS {
        assert!(rt; is_sealed_refused(rt.alloc(), row)?, "{}", row.name);
    }
    Ok(())
}
