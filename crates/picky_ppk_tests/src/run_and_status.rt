//! Runs of puttyppk over streams in memory, and what devices that fail make of them; check/puttyppk_cases.py has how others end.

use crate::answers::kept;
use crate::secret_and_for_putty::OTHER_SPELLINGS;
use picky_key_rows::{ZERO_TEXT, secret_text_of};
use picky_ppk::{PpkVersion, PuttyError};
use picky_puttyppk::{PuttyPpkStatus, run_puttyppk};
use picky_suite::PlainSuite;
use picky_wire::{MemorySink, MemorySource};
use std::alloc::Global;
use std::mem::ManuallyDrop;
use std::test::Fail;

/// How many bytes a file here has at most.
const ROOM: usize = 999;

// docs/FORMATS.md, "Files for PuTTY".
const CODES: [(PuttyPpkStatus, u8); 8] = [
    (PuttyPpkStatus::Done, 0),
    (PuttyPpkStatus::Refused(PuttyError::Encrypted), 1),
    (PuttyPpkStatus::CommentNotCarried, 1),
    (PuttyPpkStatus::ReadFault, 3),
    (PuttyPpkStatus::WriteFault, 4),
    (PuttyPpkStatus::NoMemory, 6),
    (PuttyPpkStatus::InputTooLong, 7),
    (PuttyPpkStatus::InputNotUtf8, 8),
];

#[test]
fn has_a_number_for_each_status(rt: HostRuntime) {
    let rows = ManuallyDrop::new(CODES);
    for (status, code) in rows.as_slice() {
        assert!(rt; status.exit_code() == *code, "{code}");
    }
}

/// A run over a source that gives a hundred bytes a call, of which this one fails, and a sink that has so much room, ends so.
fn ends(
    alloc: Global,
    input: &[u8],
    call: u64,
    room: usize,
    status: &PuttyPpkStatus,
    out: &[u8],
) -> Result<bool, Fail> {
    let mut source = ManuallyDrop::new(MemorySource::new(alloc, input, 100, &[call])?);
    let mut sink = ManuallyDrop::new(MemorySink::new(alloc, room, 64, &[])?);
    let suite = PlainSuite::new();
    let ended = ManuallyDrop::new(run_puttyppk(alloc, &suite, &mut *source, &mut *sink));
    Ok(*ended == *status && sink.written() == out)
}

/// The file of the key of zeros as puttygen writes it.
fn wanted(alloc: Global) -> Result<ManuallyDrop<String>, Fail> {
    kept(secret_text_of(alloc, &OTHER_SPELLINGS[0], PpkVersion::V3))
}

#[test]
fn writes_a_number_as_a_string(rt: HostRuntime) -> Result<(), Fail> {
    let out = wanted(rt.alloc())?;
    let done = ManuallyDrop::new(PuttyPpkStatus::Done);
    for input in [ZERO_TEXT, out.as_str()] {
        assert!(rt;
            ends(rt.alloc(), input.as_bytes(), 9, ROOM, &done, out.as_bytes())?,
            "{input}"
        );
    }
    Ok(())
}

#[test]
fn says_that_the_source_failed(rt: HostRuntime) -> Result<(), Fail> {
    let fault = ManuallyDrop::new(PuttyPpkStatus::ReadFault);
    // 258 bytes are three calls, and one more says that they end.
    for call in 0..4u64 {
        assert!(rt;
            ends(rt.alloc(), ZERO_TEXT.as_bytes(), call, ROOM, &fault, b"")?,
            "{call}"
        );
    }
    Ok(())
}

#[test]
fn says_that_the_sink_failed(rt: HostRuntime) -> Result<(), Fail> {
    let out = wanted(rt.alloc())?;
    let fault = ManuallyDrop::new(PuttyPpkStatus::WriteFault);
    for room in 0..out.len() {
        assert!(rt;
            ends(
                rt.alloc(),
                ZERO_TEXT.as_bytes(),
                9,
                room,
                &fault,
                &out.as_bytes()[..room]
            )?,
            "{room}"
        );
    }
    Ok(())
}
