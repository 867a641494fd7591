//! The verifier over a table of answers: what is decided by each kind of answer, and why there is no verdict.

use crate::decisions::is_decided_by;
use crate::row_texts::row_text;
use crate::terms::offer_of;
use picky_ask::Table;
use picky_ask_verifier::{AnsweredVerifier, NoVerdict};
use std::alloc::Global;
use std::marker::Brand;
use std::mem::ManuallyDrop;
use std::test::Fail;

// s(b"\x07" + blob[-142:]) + s(blob[:-87]), where the last two strings of the plain certificate's blob, its issuer's key and the
// signature, are of 55 and of 87 bytes, by python3.
pub const QUESTION: &[u8] =
    b"\0\0\0\x8f\x07\0\0\0\x33\0\0\0\x0bssh-ed25519\0\0\0\x20\x9b\xe8K\xed\xca\x9cEE\xd5\xd1D\xef\xc4\xe0b\xed\xac\
    \x1c\xea\xc4s\x86OZ\x903a\xb2\x09\x9b\x80\x1f\0\0\0S\0\0\0\x0bssh-ed25519\0\0\0@\x92!\xf9;c-\xb5\x887\xc7\
    \xe9-?8k\x8b\xc6\x0e\x09\xe96k\xee\xc1\xae\xe7\x04\x8c\x91\xaf\xa6-\x83\xe7\x01`:\xc2\x9c\x96Z\xe3\x20D$\xc3\
    \x19z\x01\x96a\xe1T\x12\xa4\xc8\x1eE\xb3\xcd]\x19\xa2\x0b\0\0\0\xe3\0\0\0\x20ssh-ed25519-cert-v01@openssh.co\
    m\0\0\0\x20\xf8\x1fJ\xe657Y#\xc7\xf0l\xee{\x20\xae\xed\xf2\xd0\xf8\xfa\xee\xf7[\x7f\x83+\xa2\xd1\x83\x94\xf4\
    \xb7\0\0\0\x20\xa9\x92\xef>\xd0\xc7\x17\xd5\xaf\xa4\xd3\xe2SK\xeb+\xde?\xb4\x931\x97\x02$g\x86\x8b\xa5\x1e-\
    \xee\xa3\0\0\0\0\0\0\0\0\0\0\0\x01\0\0\0\x02me\0\0\0\x0e\0\0\0\x02me\0\0\0\x04root\0\0\0\0\0\0\0\x05\0\0\0\0\
    \0\0\0\x0a\0\0\0\0\0\0\0\0\0\0\0\0\0\0\0\x33\0\0\0\x0bssh-ed25519\0\0\0\x20\x9b\xe8K\xed\xca\x9cEE\xd5\xd1D\
    \xef\xc4\xe0b\xed\xac\x1c\xea\xc4s\x86OZ\x903a\xb2\x09\x9b\x80\x1f";

/// The table whose one entry has this answer, a string; or none.
fn table_of(alloc: Global, answer: Option<&[u8]>) -> Result<ManuallyDrop<Table>, Fail> {
    let mut bytes = ManuallyDrop::new(Vec::new(alloc));
    match answer {
        Some(answer) => {
            bytes.extend_from_slice(QUESTION)?;
            bytes.extend_from_slice(answer)?;
        }
        None => {}
    }
    Ok(ManuallyDrop::new(Table::read(alloc, bytes.as_slice())?))
}

/// The name of the reason, where a question is the plain certificate's.
fn name_of(alloc: Global, missing: &Option<NoVerdict>) -> Result<&'static str, Fail> {
    match missing {
        Some(NoVerdict::Asked(question)) => {
            let bytes = ManuallyDrop::new(question.to_bytes(alloc)?);
            if bytes.as_slice() == QUESTION {
                Ok("Asked")
            } else {
                Ok("another question")
            }
        }
        Some(NoVerdict::WrongLength) => Ok("WrongLength"),
        Some(NoVerdict::UnknownByte) => Ok("UnknownByte"),
        Some(NoVerdict::TooLong) => Ok("TooLong"),
        Some(NoVerdict::NoMemory) => Ok("NoMemory"),
        None => Ok("none"),
    }
}

/// By a table with this answer this is decided of the plain certificate, and this is the reason where nothing is.
fn decides(alloc: Global, answer: Option<&[u8]>, wanted: &str, reason: &str) -> Result<bool, Fail> {
    let file = ManuallyDrop::new(row_text(alloc, "cert-authority <ca>")?);
    let offer = offer_of(alloc, "<plain>")?;
    let table = table_of(alloc, answer)?;
    let verifier: AnsweredVerifier<'_, Brand> = AnsweredVerifier::new(alloc, &table);
    let mut verifier = ManuallyDrop::new(verifier);
    let decided = is_decided_by(
        alloc,
        &mut *verifier,
        file.as_str(),
        &offer,
        ("me", 5),
        wanted,
    )?;
    let missing = ManuallyDrop::new(ManuallyDrop::into_inner(verifier).into_missing());
    Ok(decided && name_of(alloc, &missing)? == reason)
}

// An answer as a string of the table, what is decided by it, and the reason.
static ANSWERS: [(Option<&[u8]>, &str, &str); 6] = [
    (Some(b"\0\0\0\x01\x01"), "grant 1", "none"),
    (Some(b"\0\0\0\x01\0"), "deny BadSignature", "none"),
    (None, "VerifierFault", "Asked"),
    (Some(b"\0\0\0\0"), "VerifierFault", "WrongLength"),
    (Some(b"\0\0\0\x02\x01\x01"), "VerifierFault", "WrongLength"),
    (Some(b"\0\0\0\x01\x02"), "VerifierFault", "UnknownByte"),
];

#[test]
fn decides_by_the_answers_of_a_table(rt: HostRuntime) -> Result<(), Fail> {
    for (answer, wanted, reason) in &ANSWERS {
        assert!(rt; decides(rt.alloc(), *answer, wanted, reason)?, "{answer:?}");
    }
    Ok(())
}
