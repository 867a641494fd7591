//! Which texts are ledgers, what they keep, and that they are written as they were read.

use crate::row_texts::row_text;
use picky_cert::SshCertificate;
use picky_cert_rows::{CertRow, ROW_COUNT, cert_row};
use picky_ledger::{Entry, Ledger};
use std::alloc::Global;
use std::mem::ManuallyDrop;
use std::test::Fail;

/// An entry: its id, its serial, its request line, and its certificate's line.
type Kept = (&'static str, u64, &'static str, &'static str);

// The lines that the certificates of crate::row_texts have.
const HOST: Kept = (
    "r1",
    1,
    "r1 host - 0 0 ssh-ed25519 B0 host",
    "<n> <c1> host\r\n",
);

const USER: Kept = (
    "r2",
    7,
    "r2 client me,root 5 10 ssh-ed25519 B0 user two",
    "<n> <c7> user two\r\n",
);

const LAST: Kept = (
    "r1",
    18_446_744_073_709_551_614,
    "r1 host - 0 0 ssh-ed25519 B0 host",
    "<n> <last> host\r\n",
);

// The certificate isn't compared with the request line.
const OTHER: Kept = (
    "r1",
    7,
    "r1 host - 0 0 ssh-ed25519 B0 host",
    "<n> <c7>  \u{e9}\r\n",
);

// The request may have bytes behind its first line: `printf 'o\r\n' | base64` has the last.
const LINES: Kept = (
    "r2",
    7,
    "r2 client me,root 5 10 ssh-ed25519 B0 user two\r\n",
    "<n> <c7> user two\r\n",
);

const UNCOMMENTED: Kept = (
    "r1",
    7,
    "r1 host - 0 0 ssh-ed25519 B0 host",
    "<n> <c7> \r\n",
);

// A text, the serial that is next, and the entries.
static LEDGERS: [(&str, u64, &[Kept]); 11] = [
    ("next 1\n", 1, &[]),
    ("next 2\n", 2, &[]),
    (
        "next 18446744073709551615\n",
        18_446_744_073_709_551_615,
        &[],
    ),
    ("next 2\nr1 <r1> <n> <c1> host\n", 2, &[HOST]),
    ("next 3\nr1 <r1> <n> <c1> host\n", 3, &[HOST]),
    ("next 8\nr2 <r2>bw== <n> <c7> user two\n", 8, &[USER]),
    (
        "next 8\nr1 <r1> <n> <c1> host\nr2 <r2>bw== <n> <c7> user two\n",
        8,
        &[HOST, USER],
    ),
    (
        "next 18446744073709551615\nr2 <r2>bw== <n> <c7> user two\nr1 <r1> <n> <last> host\n",
        18_446_744_073_709_551_615,
        &[USER, LAST],
    ),
    ("next 8\nr1 <r1> <n> <c7>  \u{e9}\n", 8, &[OTHER]),
    ("next 8\nr1 <r1> <n> <c7> \n", 8, &[UNCOMMENTED]),
    ("next 8\nr2 <r2>bw0K <n> <c7> user two\n", 8, &[LINES]),
];

fn is_line_of(alloc: Global, certificate: &SshCertificate, row: &str) -> Result<bool, Fail> {
    let found = ManuallyDrop::new(certificate.to_string(alloc)?);
    let line = ManuallyDrop::new(row_text(alloc, row)?);
    Ok(found.as_str() == line.as_str())
}

fn is_kept(alloc: Global, entry: &Entry, kept: Kept) -> Result<bool, Fail> {
    let (id, serial, request, certificate) = kept;
    let request = ManuallyDrop::new(row_text(alloc, request)?);
    Ok(
        entry.id.as_str() == id
            && entry.serial == serial
            && entry.request.as_str() == request.as_str()
            && entry.certificate.serial == serial
            && is_line_of(alloc, &entry.certificate, certificate)?,
    )
}

fn are_kept(alloc: Global, entries: &[Entry], kept: &[Kept]) -> Result<bool, Fail> {
    if entries.len() != kept.len() {
        return Ok(false);
    }
    for (entry, kept) in entries.iter().zip(kept) {
        if !is_kept(alloc, entry, *kept)? {
            return Ok(false);
        }
    }
    Ok(true)
}

/// The ledger of the row. It isn't dropped.
pub fn ledger_of(alloc: Global, row: &str) -> Result<ManuallyDrop<Ledger>, Fail> {
    let text = ManuallyDrop::new(row_text(alloc, row)?);
    Ok(ManuallyDrop::new(Ledger::from_str(alloc, text.as_str())?))
}

fn is_text_of(alloc: Global, ledger: &Ledger, text: &str) -> Result<bool, Fail> {
    let found = ManuallyDrop::new(ledger.to_string(alloc)?);
    Ok(found.as_str() == text)
}

/// The ledger's text is the row's.
pub fn is_written(alloc: Global, ledger: &Ledger, row: &str) -> Result<bool, Fail> {
    let text = ManuallyDrop::new(row_text(alloc, row)?);
    is_text_of(alloc, ledger, text.as_str())
}

fn is_ledger(alloc: Global, row: &str, next: u64, kept: &[Kept]) -> Result<bool, Fail> {
    let ledger = ledger_of(alloc, row)?;
    Ok(
        ledger.next_serial() == next
            && are_kept(alloc, ledger.entries(), kept)?
            && is_written(alloc, &ledger, row)?,
    )
}

#[test]
fn keeps_what_a_text_says(rt: HostRuntime) -> Result<(), Fail> {
    for (row, next, kept) in &LEDGERS {
        assert!(rt; is_ledger(rt.alloc(), row, *next, kept)?, "{row}");
    }
    Ok(())
}

/// The text of a ledger of one entry, which has the certificate of the row.
fn text_with(alloc: Global, row: &CertRow) -> Result<String, Fail> {
    let mut text = ManuallyDrop::new(row_text(alloc, "next 18446744073709551615\nr1 <r1> ")?);
    text.push_str(row.line)?;
    text.push_str("\n")?;
    Ok(ManuallyDrop::into_inner(text))
}

/// The text is read, and written again; but where the serial can't be an entry's.
fn keeps_certificate(alloc: Global, row: &CertRow) -> Result<bool, Fail> {
    let text = ManuallyDrop::new(text_with(alloc, row)?);
    match &*ManuallyDrop::new(Ledger::from_str(alloc, text.as_str())) {
        Ok(ledger) => Ok(is_text_of(alloc, ledger, text.as_str())?),
        Err(_) => Ok(row.serial == 0 || row.serial == u64::MAX),
    }
}

#[test]
fn keeps_certificates_of_other_programs(rt: HostRuntime) -> Result<(), Fail> {
    for number in 0..ROW_COUNT {
        let row = cert_row(number);
        assert!(rt; keeps_certificate(rt.alloc(), row)?, "{}", row.name);
    }
    Ok(())
}
