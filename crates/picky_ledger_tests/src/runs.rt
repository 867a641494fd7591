//! Runs of a ledger over streams in memory.

use crate::row_texts::row_text;
use picky_ledger::{LedgerStatus, run_ledger};
use picky_suite::{HandedSigner, Signer};
use picky_wire::{Bytes, MemorySink, MemorySource, Source};
use std::alloc::Global;
use std::mem::ManuallyDrop;
use std::test::Fail;

/// How many bytes an output here has at most.
pub const ROOM: usize = 9999;

/// Nonces of zeros for three requests.
pub const FRESH: &[u8] = &[0; 96];

/// How a run ended, and what it wrote. Nothing of it is dropped.
#[derive(Drop)]
pub struct Ran {
    status: ManuallyDrop<LedgerStatus>,
    out: ManuallyDrop<MemorySink>,
}

/// A signer that hands out a signature of 64 zero bytes.
pub fn zero_signer(alloc: Global) -> Result<ManuallyDrop<HandedSigner>, Fail> {
    let signature = Bytes::new(alloc, &[0; 64])?;
    Ok(ManuallyDrop::new(HandedSigner::new(Some(signature))))
}

/// A run over the source, where `out` has so much room.
pub fn run_over<G: Signer, I: Source>(
    alloc: Global,
    fresh: &[u8],
    signer: &mut G,
    source: &mut I,
    room: usize,
) -> Result<Ran, Fail> {
    let mut out = ManuallyDrop::new(MemorySink::new(alloc, room, 64, &[])?);
    let status = ManuallyDrop::new(run_ledger(alloc, fresh, signer, source, &mut *out));
    Ok(Ran { status, out })
}

/// Whether the status is this, as Rust's derived Debug shows it.
fn has_status(alloc: Global, ran: &Ran, status: &str) -> Result<bool, Fail> {
    let ended = &*ran.status;
    let found = ManuallyDrop::new(format!(in alloc; "{ended:?}")?);
    Ok(found.as_str() == status)
}

/// Whether the run ended so.
pub fn ended(alloc: Global, ran: &Ran, status: &str, out: &[u8]) -> Result<bool, Fail> {
    Ok(has_status(alloc, ran, status)? && ran.out.written() == out)
}

/// The same for the end of what was written.
pub fn ended_in(alloc: Global, ran: &Ran, status: &str, end: &[u8]) -> Result<bool, Fail> {
    Ok(has_status(alloc, ran, status)? && ran.out.written().ends_with(end))
}

/// The bytes end so under the signature of zeros, where calls of the source give so many.
pub fn ends_by_steps(
    alloc: Global,
    fresh: &[u8],
    input: &[u8],
    step: usize,
    status: &str,
    out: &[u8],
) -> Result<bool, Fail> {
    if step == 0 {
        return Ok(false);
    }
    let mut source = ManuallyDrop::new(MemorySource::new(alloc, input, step, &[])?);
    let mut signer = zero_signer(alloc)?;
    let ran = run_over(alloc, fresh, &mut *signer, &mut *source, ROOM)?;
    ended(alloc, &ran, status, out)
}

/// The row ends so under the signature of zeros, whether calls of the source give one byte or all.
pub fn ends(alloc: Global, fresh: &[u8], row: &str, status: &str, out: &str) -> Result<bool, Fail> {
    let text = ManuallyDrop::new(row_text(alloc, row)?);
    let out = ManuallyDrop::new(row_text(alloc, out)?);
    let (text, out) = (text.as_str().as_bytes(), out.as_str().as_bytes());
    Ok(
        ends_by_steps(alloc, fresh, text, 1, status, out)?
            && ends_by_steps(alloc, fresh, text, ROOM, status, out)?,
    )
}
