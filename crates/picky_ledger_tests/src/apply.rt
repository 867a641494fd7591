//! What a ledger replies to one request, and what it is then.

use crate::ledger::{is_written, ledger_of};
use crate::row_texts::row_text;
use crate::runs::zero_signer;
use picky_keys::SshPublicKey;
use picky_ledger::{Ledger, LedgerError, Reply};
use picky_suite::{MemorySigner, Signer};
use std::alloc::Global;
use std::mem::ManuallyDrop;
use std::test::Fail;

/// A ledger, a request line, the reply as Rust's derived Debug shows it, and the ledger after it.
type Row = (&'static str, &'static str, &'static str, &'static str);

const NEW: &str = "next 1\n";

const HOST: &str = "next 2\nr1 <r1> <n> <c1> host\n";

const FULL: &str = "next 18446744073709551615\nr1 <r1> <n> <c1> host\n";

// docs/FORMATS.md, "Ledgers", by hand.
static ROWS: [Row; 8] = [
    (
        NEW,
        "r1 host - 0 0 ssh-ed25519 B0 host",
        "Ok(Issued(1))",
        HOST,
    ),
    // All of the line is kept, what stands behind the key's line too: `printf 'o\r\n' | base64` has its last bytes.
    (
        "next 7\nr1 <r1> <n> <c1> host\n",
        "r2 client me,root 5 10 ssh-ed25519 B0 user two\r\n",
        "Ok(Issued(7))",
        "next 8\nr1 <r1> <n> <c1> host\nr2 <r2>bw0K <n> <c7> user two\n",
    ),
    (
        HOST,
        "r1 host - 0 0 ssh-ed25519 B0 host",
        "Ok(Again(1))",
        HOST,
    ),
    (
        HOST,
        "r1 host - 0 0 ssh-ed25519 B0 host\n",
        "Ok(Conflict(1))",
        HOST,
    ),
    (HOST, "r1 client - 5 0 ssh-rsa B0", "Ok(Conflict(1))", HOST),
    (FULL, "r2 host - 5 0 ssh-ed25519 B0", "Ok(Full)", FULL),
    (FULL, "r1 host - 0 ssh-ed25519 B0", "Ok(BadRequest)", FULL),
    (
        HOST,
        "r2 host - 5 0 ssh-ed25519 B0 host",
        "Ok(Refused(InvalidTime))",
        HOST,
    ),
];

fn shows(alloc: Global, answer: Result<Reply, LedgerError>, wanted: &str) -> Result<bool, Fail> {
    let answer = ManuallyDrop::new(answer);
    let answer = &*answer;
    let found = ManuallyDrop::new(format!(in alloc; "{answer:?}")?);
    Ok(found.as_str() == wanted)
}

/// The ledger replies so to the line, by the key of zeros and a nonce of zeros.
fn says<G: Signer>(
    alloc: Global,
    ledger: &mut Ledger,
    line: &str,
    signer: &mut G,
    wanted: &str,
) -> Result<bool, Fail> {
    let issuer = ManuallyDrop::new(row_text(alloc, "ssh-ed25519 B0 ca")?);
    let issuer = ManuallyDrop::new(SshPublicKey::from_str(alloc, issuer.as_str())?);
    let line = ManuallyDrop::new(row_text(alloc, line)?);
    let answer = ledger.apply(alloc, &issuer, line.as_str(), &[0; 32], signer);
    shows(alloc, answer, wanted)
}

fn replies(alloc: Global, row: &Row) -> Result<bool, Fail> {
    let (old, line, wanted, new) = row;
    let mut ledger = ledger_of(alloc, old)?;
    let mut signer = zero_signer(alloc)?;
    Ok(says(alloc, &mut ledger, line, &mut *signer, wanted)? && is_written(alloc, &ledger, new)?)
}

#[test]
fn replies_to_a_request(rt: HostRuntime) -> Result<(), Fail> {
    for row in &ROWS {
        assert!(rt; replies(rt.alloc(), row)?, "{}: {}", row.0, row.1);
    }
    Ok(())
}

const HOST_LINE: &str = "r1 host - 0 0 ssh-ed25519 B0 host";

// Lines with the same id, of which none is to be signed.
static UNSIGNED: [(&str, &str); 3] = [
    ("r1 host - 5 0 ssh-ed25519 B0", "Ok(Refused(InvalidTime))"),
    ("r1 host - 0 0 ssh-ed25519", "Ok(BadRequest)"),
    ("", "Ok(BadRequest)"),
];

/// The device's first call fails, and the ledger stays; then the same line is issued.
fn stays_where_device_fails(alloc: Global) -> Result<bool, Fail> {
    let mut ledger = ledger_of(alloc, NEW)?;
    let mut signer = ManuallyDrop::new(MemorySigner::new(alloc, &[0, 2])?);
    for (line, wanted) in &UNSIGNED {
        if !says(alloc, &mut ledger, line, &mut *signer, wanted)? {
            return Ok(false);
        }
    }
    Ok(
        says(
            alloc,
            &mut ledger,
            HOST_LINE,
            &mut *signer,
            "Err(SignerFault)",
        )? && is_written(alloc, &ledger, NEW)?
            && says(alloc, &mut ledger, HOST_LINE, &mut *signer, "Ok(Issued(1))")?
            && says(alloc, &mut ledger, HOST_LINE, &mut *signer, "Ok(Again(1))")?
            && ledger.next_serial() == 2
            && ledger.entries().len() == 1,
    )
}

#[test]
fn stays_as_it_was_where_the_device_fails(rt: HostRuntime) -> Result<(), Fail> {
    assert!(rt; stays_where_device_fails(rt.alloc())?);
    Ok(())
}
