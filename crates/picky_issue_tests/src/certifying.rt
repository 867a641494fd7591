//! Certificates by answers: what a device signs, the question for that, and the line with its answer.

use crate::issued::blob_of;
use crate::openssh::{FRESH, OpenSshRow, openssh_row};
use picky_certify::{Certified, CertifyError, certificate_draft, certify_by};
use std::alloc::Global;
use std::mem::ManuallyDrop;
use std::test::Fail;

/// The words as bytes.
fn words_of(alloc: Global, words: &[&'static str]) -> Result<Vec<&'static [u8]>, Fail> {
    let mut found = ManuallyDrop::new(Vec::new(alloc));
    for word in words {
        found.push(word.as_bytes())?;
    }
    Ok(ManuallyDrop::into_inner(found))
}

/// Appends the bytes behind their length (RFC 4251, section 5).
fn push_string(bytes: &mut Vec<u8>, content: &[u8]) -> Result<(), Fail> {
    let [_, _, _, _, a, b, c, d] = content.len().to_be_bytes();
    bytes.extend_from_slice(&[a, b, c, d])?;
    bytes.extend_from_slice(content)?;
    Ok(())
}

// The number of a signature, and those of the row's algorithm and digest: Ed25519, RSA with SHA-512, ECDSA with SHA-256.
static NUMBERS: [[u8; 3]; 3] = [[6, 3, 0], [6, 1, 6], [6, 2, 4]];

/// The question for the signature of a row: s(numbers + s(issuer)) + s(signed), with s as in crate::zero_lines.
fn question_of(
    alloc: Global,
    row: &OpenSshRow,
    numbers: &[u8],
    signed: &[u8],
) -> Result<Vec<u8>, Fail> {
    let issuer = ManuallyDrop::new(blob_of(alloc, row.source).ok_or("no issuer")?);
    let mut head = ManuallyDrop::new(Vec::from_slice(alloc, numbers)?);
    push_string(&mut *head, issuer.as_slice())?;
    let mut question = ManuallyDrop::new(Vec::new(alloc));
    push_string(&mut *question, head.as_slice())?;
    push_string(&mut *question, signed)?;
    Ok(ManuallyDrop::into_inner(question))
}

/// These are the bytes that a device signs for the row.
fn drafts(alloc: Global, row: &OpenSshRow, signed: &[u8]) -> Result<bool, Fail> {
    let words = ManuallyDrop::new(words_of(alloc, row.words)?);
    let (issuer, key) = row.source.split_once("%%\n").ok_or("no mark")?;
    let draft = ManuallyDrop::new(certificate_draft(
        alloc,
        words.as_slice(),
        issuer.as_bytes(),
        key.as_bytes(),
        FRESH,
    ));
    match &*draft {
        Ok(bytes) => Ok(bytes.as_slice() == signed),
        Err(_) => Ok(false),
    }
}

/// By these answers the row comes to this question, or to its line where there is none.
fn comes_to(
    alloc: Global,
    row: &OpenSshRow,
    answers: &[u8],
    question: Option<&[u8]>,
) -> Result<bool, Fail> {
    let words = ManuallyDrop::new(words_of(alloc, row.words)?);
    let (issuer, key) = row.source.split_once("%%\n").ok_or("no mark")?;
    let certified = ManuallyDrop::new(certify_by(
        alloc,
        words.as_slice(),
        issuer.as_bytes(),
        key.as_bytes(),
        FRESH,
        answers,
    ));
    match &*certified {
        Ok(Certified::Line(line)) => {
            Ok(question.is_none() && line.as_slice() == row.line.as_bytes())
        }
        Ok(Certified::Question(bytes)) => Ok(question == Some(bytes.as_slice())),
        Err(_) => Ok(false),
    }
}

/// The row is drafted, asked for, and written by its answer.
fn is_certified(alloc: Global, row: &OpenSshRow, numbers: &[u8]) -> Result<bool, Fail> {
    let blob = ManuallyDrop::new(blob_of(alloc, row.line).ok_or("no certificate")?);
    let signed = blob.as_slice().get(..row.signed_len).ok_or("too short")?;
    let question = ManuallyDrop::new(question_of(alloc, row, numbers, signed)?);
    let mut answers = ManuallyDrop::new(Vec::from_slice(alloc, question.as_slice())?);
    push_string(&mut *answers, row.signature)?;
    Ok(
        drafts(alloc, row, signed)?
            && comes_to(alloc, row, b"", Some(question.as_slice()))?
            && comes_to(alloc, row, answers.as_slice(), None)?,
    )
}

#[test]
fn certifies_what_openssh_accepts(rt: HostRuntime) -> Result<(), Fail> {
    for (number, numbers) in NUMBERS.iter().enumerate() {
        let row = openssh_row(number);
        assert!(rt; is_certified(rt.alloc(), row, numbers)?, "{}", row.name);
    }
    Ok(())
}

fn name_of(e: &CertifyError) -> &'static str {
    match e {
        CertifyError::WordNotUtf8 => "WordNotUtf8",
        CertifyError::IssuerNotUtf8 => "IssuerNotUtf8",
        CertifyError::KeyNotUtf8 => "KeyNotUtf8",
        CertifyError::Answers(_) => "Answers",
        CertifyError::Words => "Words",
        CertifyError::Refused(_) => "Refused",
        CertifyError::TooLong => "TooLong",
        CertifyError::NoMemory => "NoMemory",
    }
}

/// The words, both texts, the answers, the call's refusal and that of the draft.
type Refused = (
    &'static [&'static [u8]],
    &'static [u8],
    &'static [u8],
    &'static [u8],
    &'static str,
    &'static str,
);

// What is wrong counts in this order.
static REFUSED: [Refused; 6] = [
    (
        &[b"\xff"],
        b"\xff",
        b"\xff",
        b"x",
        "WordNotUtf8",
        "WordNotUtf8",
    ),
    (
        &[b"x"],
        b"\xff",
        b"\xff",
        b"x",
        "IssuerNotUtf8",
        "IssuerNotUtf8",
    ),
    (&[b"x"], b"", b"\xff", b"x", "KeyNotUtf8", "KeyNotUtf8"),
    (&[b"x"], b"", b"", b"x", "Answers", "Words"),
    (&[b"x"], b"", b"", b"", "Words", "Words"),
    (&[], b"", b"", b"", "Refused", "Refused"),
];

fn is_refused(alloc: Global, row: &Refused) -> bool {
    let (words, issuer, key, answers, wanted, drafted) = row;
    let draft = ManuallyDrop::new(certificate_draft(alloc, words, issuer, key, b""));
    let certified = ManuallyDrop::new(certify_by(alloc, words, issuer, key, b"", answers));
    match (&*draft, &*certified) {
        (Err(e), Err(other)) => name_of(e) == *drafted && name_of(other) == *wanted,
        _ => false,
    }
}

#[test]
fn refuses_what_is_no_request(rt: HostRuntime) {
    for row in &REFUSED {
        assert!(rt; is_refused(rt.alloc(), row), "{}", row.4);
    }
}
