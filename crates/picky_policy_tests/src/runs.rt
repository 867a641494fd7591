//! Runs of a policy over streams in memory.

use picky_policy::{HandedVerifier, PolicyStatus, Verifier, run_policy};
use picky_wire::{MemorySink, Source, Text};
use std::alloc::Global;
use std::mem::ManuallyDrop;
use std::test::Fail;

/// How many bytes an answer here has at most.
pub const ROOM: usize = 9999;

pub const DECIDE: &[&str] = &["decide", "me", "5"];

pub const MESSAGE: &[&str] = &["message"];

/// How a run ended, and what it wrote. The sink isn't dropped.
#[derive(Drop)]
struct Ran {
    status: PolicyStatus,
    out: ManuallyDrop<MemorySink>,
}

/// The words as texts.
fn texts_of(alloc: Global, words: &[&str]) -> Result<Vec<Text>, Fail> {
    let mut texts = ManuallyDrop::new(Vec::new(alloc));
    for word in words {
        texts.push(Text::new(alloc, word)?)?;
    }
    Ok(ManuallyDrop::into_inner(texts))
}

/// A run over the source, where the verifier is asked, and `out` has so much room.
fn run_over<V: Verifier, I: Source>(
    alloc: Global,
    words: &[&str],
    verifier: &mut V,
    source: &mut I,
    room: usize,
) -> Result<Ran, Fail> {
    let texts = ManuallyDrop::new(texts_of(alloc, words)?);
    let mut out = ManuallyDrop::new(MemorySink::new(alloc, room, 64, &[])?);
    let status = run_policy(alloc, texts.as_slice(), verifier, source, &mut *out);
    Ok(Ran { status, out })
}

/// Whether the run ended so.
fn ended(ran: &Ran, status: PolicyStatus, out: &[u8]) -> bool {
    ran.status == status && ran.out.written() == out
}

/// The words over the source, where `out` has so much room, end so. The verifier fails wherever it is asked.
pub fn ends<I: Source>(
    alloc: Global,
    words: &[&str],
    source: &mut I,
    room: usize,
    status: PolicyStatus,
    out: &[u8],
) -> Result<bool, Fail> {
    let mut verifier = ManuallyDrop::new(HandedVerifier::new(None));
    Ok(ended(
        &run_over(alloc, words, &mut *verifier, source, room)?,
        status,
        out,
    ))
}
