//! Requests at a ledger by answers: what is asked for all of them at once, and what they come to.

use crate::row_texts::row_text;
use picky_ledger_by::{Applied, LedgerByError, apply_requests};
use picky_text::decode;
use std::alloc::Global;
use std::mem::ManuallyDrop;
use std::test::Fail;

/// A ledger's text, the requests, the certificates whose questions are answered, and what comes of it: the certificates that are asked
/// for, or the new ledger and the replies.
struct Row {
    name: &'static str,
    ledger: &'static str,
    requests: &'static str,
    answered: &'static [&'static str],
    asked: &'static [&'static str],
    new_ledger: &'static str,
    replies: &'static str,
}

// The nonces of two requests: bytes(32) + bytes(range(32, 64)).
const FRESH: &[u8] = &[
    0, 0, 0, 0, 0, 0, 0, 0, 0, 0, 0, 0, 0, 0, 0, 0, 0, 0, 0, 0, 0, 0, 0, 0, 0, 0, 0, 0, 0, 0, 0, 0,
    32, 33, 34, 35, 36, 37, 38, 39, 40, 41, 42, 43, 44, 45, 46, 47, 48, 49, 50, 51, 52, 53, 54, 55,
    56, 57, 58, 59, 60, 61, 62, 63,
];

const ONE: &str = "r1 host - 0 0 ssh-ed25519 B0 host\n";

const TWO: &str =
    "r2 client me,root 5 10 ssh-ed25519 B0 user two\n\nr1 host - 0 0 ssh-ed25519 B0 host\n";

// docs/FORMATS.md, "Ledgers", by hand; the certificates are those of crate::row_texts.
static ROWS: [Row; 8] = [
    Row {
        name: "one, unanswered",
        ledger: "next 1\n",
        requests: ONE,
        answered: &[],
        asked: &["<c1>"],
        new_ledger: "",
        replies: "",
    },
    Row {
        name: "one, answered",
        ledger: "next 1\n",
        requests: ONE,
        answered: &["<c1>"],
        asked: &[],
        new_ledger: "next 2\nr1 <r1> <n> <c1> host\n",
        replies: "issued r1 1\n",
    },
    Row {
        name: "one, answered for another certificate",
        ledger: "next 1\n",
        requests: ONE,
        answered: &["<c0>"],
        asked: &["<c1>"],
        new_ledger: "",
        replies: "",
    },
    Row {
        name: "two, unanswered",
        ledger: "next 7\n",
        requests: TWO,
        answered: &[],
        asked: &["<c7>", "<c8>"],
        new_ledger: "",
        replies: "",
    },
    Row {
        name: "two, of which the first is answered",
        ledger: "next 7\n",
        requests: TWO,
        answered: &["<c7>"],
        asked: &["<c8>"],
        new_ledger: "",
        replies: "",
    },
    Row {
        name: "two, answered in another order",
        ledger: "next 7\n",
        requests: TWO,
        answered: &["<c8>", "<c7>"],
        asked: &[],
        new_ledger: "next 9\nr2 <r2>bw== <n> <c7> user two\nr1 <r1> <n> <c8> host\n",
        replies: "issued r2 7\nissued r1 8\n",
    },
    Row {
        name: "no request",
        ledger: "next 2\nr1 <r1> <n> <c1> host\n",
        requests: "\r\n\n",
        answered: &[],
        asked: &[],
        new_ledger: "next 2\nr1 <r1> <n> <c1> host\n",
        replies: "",
    },
    Row {
        name: "requests of which none is to be signed",
        ledger: "next 2\nr1 <r1> <n> <c1> host\n",
        requests: "r1 host - 0 0 ssh-ed25519 B0 host\nr2 host - 5 0 ssh-ed25519 B0 host\n",
        answered: &[],
        asked: &[],
        new_ledger: "next 2\nr1 <r1> <n> <c1> host\n",
        replies: "again r1 1\nrefused r2 InvalidTime\n",
    },
];

/// Appends the bytes behind their length (RFC 4251, section 5).
fn push_string(bytes: &mut Vec<u8>, content: &[u8]) -> Result<(), Fail> {
    let [_, _, _, _, a, b, c, d] = content.len().to_be_bytes();
    bytes.extend_from_slice(&[a, b, c, d])?;
    bytes.extend_from_slice(content)?;
    Ok(())
}

/// The bytes of a word of crate::row_texts.
fn bytes_of(alloc: Global, word: &str) -> Result<Vec<u8>, Fail> {
    let text = ManuallyDrop::new(row_text(alloc, word)?);
    Ok(decode(alloc, text.as_bytes())?)
}

// How many bytes of a certificate are its signature: s(ed_signature), as in crate::row_texts.
const SIGNATURE_LEN: usize = 87;

/// The question for the signature of a certificate: s(b"\x06\x03\x00" + s(blob)) + s(signed), with s as in crate::row_texts.
fn question_of(alloc: Global, word: &str) -> Result<Vec<u8>, Fail> {
    let issuer = ManuallyDrop::new(bytes_of(alloc, "B0")?);
    let blob = ManuallyDrop::new(bytes_of(alloc, word)?);
    let len = blob.as_slice().len().saturating_sub(SIGNATURE_LEN);
    let signed = blob.as_slice().get(..len).ok_or("too short")?;
    let mut head = ManuallyDrop::new(Vec::from_slice(alloc, b"\x06\x03\0")?);
    push_string(&mut *head, issuer.as_slice())?;
    let mut question = ManuallyDrop::new(Vec::new(alloc));
    push_string(&mut *question, head.as_slice())?;
    push_string(&mut *question, signed)?;
    Ok(ManuallyDrop::into_inner(question))
}

/// The questions for certificates, each as a string.
fn questions_of(alloc: Global, words: &[&str]) -> Result<Vec<u8>, Fail> {
    let mut questions = ManuallyDrop::new(Vec::new(alloc));
    for word in words {
        let question = ManuallyDrop::new(question_of(alloc, word)?);
        push_string(&mut *questions, question.as_slice())?;
    }
    Ok(ManuallyDrop::into_inner(questions))
}

/// The table in which each of them has 64 zero bytes as its answer.
fn table_of(alloc: Global, words: &[&str]) -> Result<Vec<u8>, Fail> {
    let mut table = ManuallyDrop::new(Vec::new(alloc));
    for word in words {
        let question = ManuallyDrop::new(question_of(alloc, word)?);
        table.extend_from_slice(question.as_slice())?;
        push_string(&mut *table, &[0; 64])?;
    }
    Ok(ManuallyDrop::into_inner(table))
}

/// What requests came to is what the row has.
fn is_so(alloc: Global, row: &Row, applied: &Result<Applied, LedgerByError>) -> Result<bool, Fail> {
    let asked = ManuallyDrop::new(questions_of(alloc, row.asked)?);
    let new_ledger = ManuallyDrop::new(row_text(alloc, row.new_ledger)?);
    match applied {
        Ok(Applied::Ledger { text, replies }) => Ok(
            row.asked.is_empty()
                && text.as_slice() == new_ledger.as_bytes()
                && replies.as_slice() == row.replies.as_bytes(),
        ),
        Ok(Applied::Questions(bytes)) => Ok(
            !row.asked.is_empty() && bytes.as_slice() == asked.as_slice(),
        ),
        Err(_) => Ok(false),
    }
}

fn comes_to(alloc: Global, row: &Row) -> Result<bool, Fail> {
    let ledger = ManuallyDrop::new(row_text(alloc, row.ledger)?);
    let issuer = ManuallyDrop::new(row_text(alloc, "ssh-ed25519 B0 ca\n")?);
    let requests = ManuallyDrop::new(row_text(alloc, row.requests)?);
    let answers = ManuallyDrop::new(table_of(alloc, row.answered)?);
    let applied = ManuallyDrop::new(apply_requests(
        alloc,
        ledger.as_bytes(),
        issuer.as_bytes(),
        requests.as_bytes(),
        FRESH,
        answers.as_slice(),
    ));
    is_so(alloc, row, &applied)
}

#[test]
fn applies_requests_by_answers(rt: HostRuntime) -> Result<(), Fail> {
    for row in &ROWS {
        assert!(rt; comes_to(rt.alloc(), row)?, "{}", row.name);
    }
    Ok(())
}

fn name_of(e: &LedgerByError) -> &'static str {
    match e {
        LedgerByError::LedgerNotUtf8 => "LedgerNotUtf8",
        LedgerByError::IssuerNotUtf8 => "IssuerNotUtf8",
        LedgerByError::RequestsNotUtf8 => "RequestsNotUtf8",
        LedgerByError::Answers(_) => "Answers",
        LedgerByError::Ledger(_) => "Ledger",
        LedgerByError::Issuer(_) => "Issuer",
        LedgerByError::FreshTooShort => "FreshTooShort",
        LedgerByError::QuestionTooLong => "QuestionTooLong",
        LedgerByError::TooLong => "TooLong",
        LedgerByError::NoMemory => "NoMemory",
    }
}

/// The ledger's text, the issuer's line, the requests, the answers, and the refusal's name.
type Refused = (
    &'static [u8],
    &'static [u8],
    &'static [u8],
    &'static [u8],
    &'static str,
);

// What is wrong counts in this order.
static REFUSED: [Refused; 7] = [
    (b"\xff", b"\xff", b"\xff", b"x", "LedgerNotUtf8"),
    (b"", b"\xff", b"\xff", b"x", "IssuerNotUtf8"),
    (b"", b"", b"\xff", b"x", "RequestsNotUtf8"),
    (b"", b"", b"x", b"x", "Answers"),
    (b"", b"", b"x", b"", "Ledger"),
    (b"next 1\n", b"", b"x", b"", "Issuer"),
    (
        b"next 1\n",
        b"ssh-ed25519 AAAAC3NzaC1lZDI1NTE5AAAAIAAAAAAAAAAAAAAAAAAAAAAAAAAAAAAAAAAAAAAAAAAA",
        b"x\n\nx\nx\n",
        b"",
        "FreshTooShort",
    ),
];

fn is_refused(alloc: Global, row: &Refused) -> bool {
    let (ledger, issuer, requests, answers, wanted) = row;
    let applied = apply_requests(alloc, ledger, issuer, requests, FRESH, answers);
    match &*ManuallyDrop::new(applied) {
        Ok(_) => false,
        Err(e) => name_of(e) == *wanted,
    }
}

#[test]
fn refuses_what_is_no_ledger_or_request(rt: HostRuntime) {
    for row in &REFUSED {
        assert!(rt; is_refused(rt.alloc(), row), "{}", row.4);
    }
}
