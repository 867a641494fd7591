//! Why the block of an OpenSSH private key is refused: each reason, and of two in one block the one that is tried first.

use crate::reading_refusals::{Field, MAGIC, NONE, NOTHING, is_refused, put};
use picky_suite::MemorySuite;
use std::alloc::Global;
use std::mem::ManuallyDrop;
use std::test::Fail;

const SEVEN: Field<'static> = Field::Number(7);

const ED: Field<'static> = Field::Word(b"ssh-ed25519");

/// A public key.
const KEY: Field<'static> = Field::Word(b"kkkkkkkkkkkkkkkkkkkkkkkkkkkkkkkk");

/// A secret, and a copy of that public key.
const BOTH: Field<'static> = Field::Word(
    b"sssssssssssssssssssssssssssssssskkkkkkkkkkkkkkkkkkkkkkkkkkkkkkkk",
);

// OpenSSH's PROTOCOL.key, section 3. The public key of the envelope is 32 bytes of zeros, so no block here agrees.
static BLOCKS: [(&str, &[Field<'static>], &str); 14] = [
    ("no byte", &[], "IoError(UnexpectedEnd)"),
    (
        "seven bytes, and two numbers that would differ",
        &[SEVEN, Field::Raw(b"\x01\0\0")],
        "IoError(UnexpectedEnd)",
    ),
    (
        "two numbers that differ, and an unknown name",
        &[Field::Number(1), Field::Number(2), Field::Word(b"ssh-dss")],
        "InvalidCheckNumbers(1, 2)",
    ),
    (
        "a name that is cut",
        &[SEVEN, SEVEN, Field::Number(11), Field::Raw(b"ssh-ed2551")],
        "IoError(UnexpectedEnd)",
    ),
    (
        "a name that isn't UTF-8",
        &[SEVEN, SEVEN, Field::Word(b"\xc3(")],
        "FromUtf8Error",
    ),
    (
        "an unknown name, and nothing behind it",
        &[SEVEN, SEVEN, Field::Word(b"ssh-dss")],
        "UnsupportedKeyType(Text { string: \"ssh-dss\" })",
    ),
    (
        "a public key of 31 bytes, and a secret of 63 bytes",
        &[
            SEVEN,
            SEVEN,
            ED,
            Field::Word(b"kkkkkkkkkkkkkkkkkkkkkkkkkkkkkkk"),
            Field::Word(b"ssssssssssssssssssssssssssssssskkkkkkkkkkkkkkkkkkkkkkkkkkkkkkkk"),
        ],
        "KeyError",
    ),
    (
        "a secret of 63 bytes, and a comment that is cut",
        &[
            SEVEN,
            SEVEN,
            ED,
            KEY,
            Field::Word(b"ssssssssssssssssssssssssssssssskkkkkkkkkkkkkkkkkkkkkkkkkkkkkkkk"),
            Field::Number(1),
        ],
        "InvalidKeyFormat",
    ),
    (
        "a secret whose copy differs, and a comment that is cut",
        &[
            SEVEN,
            SEVEN,
            ED,
            KEY,
            Field::Word(b"sssssssssssssssssssssssssssssssskkkkkkkkkkkkkkkkkkkkkkkkkkkkkkkj"),
            Field::Number(1),
        ],
        "InvalidKeyFormat",
    ),
    (
        "a secret that is cut",
        &[SEVEN, SEVEN, ED, KEY, Field::Number(64), Field::Raw(b"s")],
        "IoError(UnexpectedEnd)",
    ),
    (
        "a comment that is cut, and another public key",
        &[SEVEN, SEVEN, ED, KEY, BOTH, Field::Number(1)],
        "IoError(UnexpectedEnd)",
    ),
    (
        "a comment that isn't UTF-8, and another public key",
        &[SEVEN, SEVEN, ED, KEY, BOTH, Field::Word(b"\xc3(")],
        "FromUtf8Error",
    ),
    (
        "another public key, and no padding",
        &[SEVEN, SEVEN, ED, KEY, BOTH, Field::Word(b"hello")],
        "PublicKeyMismatch",
    ),
    (
        "another public key, and any padding",
        &[
            SEVEN,
            SEVEN,
            ED,
            KEY,
            BOTH,
            Field::Word(b"hello"),
            Field::Raw(b"\xff"),
        ],
        "PublicKeyMismatch",
    ),
];

/// An unsealed envelope whose public key and block these fields are is refused so.
fn is_block_refused(
    alloc: Global,
    outer: &[Field<'_>],
    block: &[Field<'_>],
    wanted: &str,
) -> Result<bool, Fail> {
    let mut outer_bytes = ManuallyDrop::new(Vec::new(alloc));
    put(&mut outer_bytes, outer)?;
    let mut block_bytes = ManuallyDrop::new(Vec::new(alloc));
    put(&mut block_bytes, block)?;
    let mut suite = ManuallyDrop::new(MemorySuite::new(alloc, &[])?);
    let envelope = [
        MAGIC,
        NONE,
        NONE,
        NOTHING,
        Field::Number(1),
        Field::Word(outer_bytes.as_slice()),
        Field::Word(block_bytes.as_slice()),
    ];
    is_refused(alloc, &mut suite, &envelope, None, wanted)
}

#[test]
fn refuses_blocks_by_field(rt: HostRuntime) -> Result<(), Fail> {
    let outer = [ED, Field::Word(&[0; 32])];
    for (name, block, wanted) in &BLOCKS {
        assert!(rt;
            is_block_refused(rt.alloc(), &outer, *block, *wanted)?,
            "{name}"
        );
    }
    Ok(())
}

const RSA: Field<'static> = Field::Word(b"ssh-rsa");

// RFC 4253, section 6.6, for the public key; RFC 4251, section 5, for numbers. An RSA key has n, e, d, iqmp, p, q.
static PUBLIC_KEYS: [(&str, &[Field<'static>], &[Field<'static>], &str); 6] = [
    (
        "a byte after the public key",
        &[ED, KEY, Field::Raw(b"\0")],
        &[SEVEN, SEVEN, ED, KEY, BOTH, NOTHING],
        "",
    ),
    (
        "two zeros before n, and one before e",
        &[RSA, Field::Word(b"\0\x03"), Field::Word(b"\0\0\x81")],
        &[
            SEVEN,
            SEVEN,
            RSA,
            Field::Word(b"\0\x81"),
            Field::Word(b"\x03"),
            Field::Word(b"\x05"),
            Field::Word(b"\x02"),
            Field::Word(b"\x07"),
            Field::Word(b"\x0b"),
            NOTHING,
        ],
        "",
    ),
    (
        "a public key of another kind",
        &[RSA, Field::Word(b"\x03"), Field::Word(b"\0\x81")],
        &[SEVEN, SEVEN, ED, KEY, BOTH, NOTHING],
        "PublicKeyMismatch",
    ),
    (
        "a public key of no kind",
        &[Field::Word(b"ssh-dss")],
        &[SEVEN, SEVEN, ED, KEY, BOTH, NOTHING],
        "PublicKeyMismatch",
    ),
    (
        "a public key that is cut inside",
        &[ED, Field::Number(32)],
        &[SEVEN, SEVEN, ED, KEY, BOTH, NOTHING],
        "PublicKeyMismatch",
    ),
    (
        "no public key",
        &[],
        &[SEVEN, SEVEN, ED, KEY, BOTH, NOTHING],
        "PublicKeyMismatch",
    ),
];

#[test]
fn takes_a_public_key_in_another_spelling(rt: HostRuntime) -> Result<(), Fail> {
    for (name, outer, block, wanted) in &PUBLIC_KEYS {
        assert!(rt;
            is_block_refused(rt.alloc(), *outer, *block, *wanted)?,
            "{name}"
        );
    }
    Ok(())
}
