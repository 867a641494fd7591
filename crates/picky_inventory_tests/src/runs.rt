//! Runs of an inventory over streams in memory.

use crate::row_texts::row_text;
use picky_inventory::{InventoryStatus, run_inventory};
use picky_suite::{PlainSuite, Suite};
use picky_wire::{MemorySink, MemorySource, Source, Text};
use std::alloc::Global;
use std::mem::ManuallyDrop;
use std::test::Fail;

/// How many bytes an inventory here has at most.
pub const ROOM: usize = 9999;

pub const LIST: &[&str] = &["list"];

pub const MERGE: &[&str] = &["merge"];

/// How a run ended, and what it wrote. Nothing of it is dropped.
#[derive(Drop)]
pub struct Ran {
    pub status: ManuallyDrop<InventoryStatus>,
    pub out: ManuallyDrop<MemorySink>,
    pub err: ManuallyDrop<MemorySink>,
}

/// How a run is to end: its status, and what it writes to `out` and to `err`.
#[derive(Clone, Copy)]
pub struct End<'a> {
    pub status: &'a InventoryStatus,
    pub out: &'a [u8],
    pub err: &'a str,
}

/// The words as texts.
pub fn texts_of(alloc: Global, words: &[&str]) -> Result<Vec<Text>, Fail> {
    let mut texts = ManuallyDrop::new(Vec::new(alloc));
    for word in words {
        texts.push(Text::new(alloc, word)?)?;
    }
    Ok(ManuallyDrop::into_inner(texts))
}

/// A run over the source, where the suite opens texts, and `out` and `err` have so much room.
pub fn run_over<P: Suite, I: Source>(
    alloc: Global,
    words: &[&str],
    pass_in: Option<&str>,
    suite: &mut P,
    source: &mut I,
    rooms: (usize, usize),
) -> Result<Ran, Fail> {
    let (room, err_room) = rooms;
    let texts = ManuallyDrop::new(texts_of(alloc, words)?);
    let mut out = ManuallyDrop::new(MemorySink::new(alloc, room, 64, &[])?);
    let mut err = ManuallyDrop::new(MemorySink::new(alloc, err_room, 64, &[])?);
    let status = ManuallyDrop::new(run_inventory(
        alloc,
        texts.as_slice(),
        pass_in,
        suite,
        source,
        &mut *out,
        &mut *err,
    ));
    Ok(Ran { status, out, err })
}

/// Whether the run ended so.
pub fn ended(ran: &Ran, end: End<'_>) -> bool {
    *ran.status == *end.status
        && ran.out.written() == end.out
        && ran.err.written() == end.err.as_bytes()
}

/// The words over the source, where `out` and `err` have so much room, end so. The suite fails wherever it is asked.
pub fn ends<I: Source>(
    alloc: Global,
    words: &[&str],
    source: &mut I,
    rooms: (usize, usize),
    end: End<'_>,
) -> Result<bool, Fail> {
    let mut suite = PlainSuite::new();
    Ok(ended(
        &run_over(alloc, words, None, &mut suite, source, rooms)?,
        end,
    ))
}

/// The words over the text end so, with nothing on `err`, whether calls of the source give one byte or all.
pub fn ends_over(
    alloc: Global,
    words: &[&str],
    text: &str,
    status: &InventoryStatus,
    out: &str,
) -> Result<bool, Fail> {
    let (text, out) = (text.as_bytes(), out.as_bytes());
    let end = End {
        status,
        out,
        err: "",
    };
    let mut slow = ManuallyDrop::new(MemorySource::new(alloc, text, 1, &[])?);
    let mut fast = ManuallyDrop::new(MemorySource::new(alloc, text, ROOM, &[])?);
    Ok(
        ends(alloc, words, &mut *slow, (ROOM, 99), end)?
            && ends(alloc, words, &mut *fast, (ROOM, 99), end)?,
    )
}

/// The words over the text write this.
pub fn writes(alloc: Global, words: &[&str], text: &str, wanted: &str) -> Result<bool, Fail> {
    let status = ManuallyDrop::new(InventoryStatus::Done);
    ends_over(alloc, words, text, &status, wanted)
}

/// The words refuse the row's text so, and write nothing.
pub fn refuses_row(
    alloc: Global,
    words: &[&str],
    row: &str,
    status: &InventoryStatus,
) -> Result<bool, Fail> {
    let text = ManuallyDrop::new(row_text(alloc, row)?);
    ends_over(alloc, words, text.as_str(), status, "")
}
