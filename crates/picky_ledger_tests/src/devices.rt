//! Devices that fail: the signer, the source and the sink, each at each of its calls.

use crate::row_texts::row_text;
use crate::runs::{FRESH, ROOM, ended, ended_in, run_over, zero_signer};
use picky_suite::{HandedSigner, MemorySigner};
use picky_wire::{MemorySource, SliceSource};
use std::alloc::Global;
use std::mem::ManuallyDrop;
use std::test::Fail;

// Three requests: one that is refused, one that is issued, and the same again.
const SOURCE: &str =
    "next 1\n%%\nssh-ed25519 B0 ca\n%%\nr0 host - 5 0 ssh-ed25519 B0\nr1 host - 0 0 ssh-ed25519 B0 host\n\
    r1 host - 0 0 ssh-ed25519 B0 host\n";

// docs/FORMATS.md, "Ledgers", by hand.
const OUT: &str =
    "next 2\nr1 <r1> <n> <c1> host\n%%\nrefused r0 InvalidTime\nissued r1 1\nagain r1 1\n";

/// How many bytes the source has (`wc -c`).
const SOURCE_LEN: usize = 392;

/// Over a source that gives seven bytes a call, of which this one fails, a run ends so.
fn ends_at(alloc: Global, call: u64, status: &str, out: &str) -> Result<bool, Fail> {
    let text = ManuallyDrop::new(row_text(alloc, SOURCE)?);
    let bytes = text.as_str().as_bytes();
    let out = ManuallyDrop::new(row_text(alloc, out)?);
    let mut source = ManuallyDrop::new(MemorySource::new(alloc, bytes, 7, &[call])?);
    let mut signer = zero_signer(alloc)?;
    let ran = run_over(alloc, FRESH, &mut *signer, &mut *source, ROOM)?;
    Ok(bytes.len() == SOURCE_LEN && ended(alloc, &ran, status, out.as_str().as_bytes())?)
}

// One more call says that the bytes end.
const CALLS: u64 = 57;

#[test]
fn says_that_the_source_failed(rt: HostRuntime) -> Result<(), Fail> {
    for call in 0..CALLS {
        assert!(rt; ends_at(rt.alloc(), call, "ReadFault", "")?, "call {call}");
    }
    assert!(rt; ends_at(rt.alloc(), CALLS, "Done", OUT)?);
    Ok(())
}

/// Where `out` has so much room, as much is written; and all of it where that is enough.
fn is_written_within(alloc: Global, room: usize) -> Result<bool, Fail> {
    let text = ManuallyDrop::new(row_text(alloc, SOURCE)?);
    let out = ManuallyDrop::new(row_text(alloc, OUT)?);
    let out = out.as_str().as_bytes();
    let mut source = SliceSource::new(text.as_str().as_bytes());
    let mut signer = zero_signer(alloc)?;
    let ran = run_over(alloc, FRESH, &mut *signer, &mut source, room)?;
    if room < out.len() {
        ended(alloc, &ran, "WriteFault", &out[..room])
    } else {
        ended(alloc, &ran, "Done", out)
    }
}

/// How many bytes the output has (`wc -c`).
const OUT_LEN: usize = 631;

#[test]
fn says_that_out_failed(rt: HostRuntime) -> Result<(), Fail> {
    for room in 0..OUT_LEN + 1 {
        assert!(rt; is_written_within(rt.alloc(), room)?, "room {room}");
    }
    Ok(())
}

// Three certificates; one behind a request that is refused and a line that is none; and none.
const THREE: &str =
    "next 1\n%%\nssh-ed25519 B0\n%%\na host - 0 0 ssh-ed25519 B0\nb host - 0 0 ssh-ed25519 B0\nc host - 0 0 ssh-ed25519 B0\n";

const THIRD: &str =
    "next 1\n%%\nssh-ed25519 B0\n%%\na host - 5 0 ssh-ed25519 B0\nb host - 0 0\nc host - 0 0 ssh-ed25519 B0\n";

const KEPT: &str =
    "next 2\nr1 <r1> <n> <c1> host\n%%\nssh-ed25519 B0\n%%\nr1 host - 0 0 ssh-ed25519 B0 host\nr1 host - 0 0 ssh-ed25519 B0\n";

const FULL: &str =
    "next 18446744073709551615\n%%\nssh-ed25519 B0\n%%\nr1 host - 0 0 ssh-ed25519 B0 host\nr1 host - 0 0 ssh-ed25519\n";

/// A source, the calls of the signer that fail, the status, and the end of what is written: `None` for nothing.
type Signing = (
    &'static str,
    &'static [u64],
    &'static str,
    Option<&'static str>,
);

// A signer is asked once for each certificate, and for nothing else.
static SIGNINGS: [Signing; 8] = [
    (THREE, &[0], "OutsideFault", None),
    (THREE, &[1], "OutsideFault", None),
    (THREE, &[2], "OutsideFault", None),
    (
        THREE,
        &[3, 4, 5, 6],
        "Done",
        Some("\n%%\nissued a 1\nissued b 2\nissued c 3\n"),
    ),
    (THIRD, &[0], "OutsideFault", None),
    (
        THIRD,
        &[1, 2, 3],
        "Done",
        Some("\n%%\nrefused a InvalidTime\nbad\nissued c 1\n"),
    ),
    (
        KEPT,
        &[0, 1, 2, 3],
        "Done",
        Some(" host\n%%\nagain r1 1\nconflict r1 1\n"),
    ),
    (
        FULL,
        &[0, 1, 2, 3],
        "Done",
        Some("next 18446744073709551615\n%%\nfull r1\nbad\n"),
    ),
];

fn ends_signing(alloc: Global, signing: &Signing) -> Result<bool, Fail> {
    let (row, failing, status, end) = signing;
    let text = ManuallyDrop::new(row_text(alloc, row)?);
    let mut source = SliceSource::new(text.as_str().as_bytes());
    let mut signer = ManuallyDrop::new(MemorySigner::new(alloc, failing)?);
    let ran = run_over(alloc, FRESH, &mut *signer, &mut source, ROOM)?;
    match end {
        Some(end) => ended_in(alloc, &ran, status, end.as_bytes()),
        None => ended(alloc, &ran, status, b""),
    }
}

#[test]
fn says_that_the_signer_failed(rt: HostRuntime) -> Result<(), Fail> {
    for signing in &SIGNINGS {
        let (row, failing, _, _) = signing;
        assert!(rt; ends_signing(rt.alloc(), signing)?, "{failing:?}: {row}");
    }
    Ok(())
}

fn ends_unsigned(alloc: Global, row: &str, status: &str, out: &str) -> Result<bool, Fail> {
    let text = ManuallyDrop::new(row_text(alloc, row)?);
    let mut source = SliceSource::new(text.as_str().as_bytes());
    let mut signer = ManuallyDrop::new(HandedSigner::new(None));
    let ran = run_over(alloc, FRESH, &mut *signer, &mut source, ROOM)?;
    ended(alloc, &ran, status, out.as_bytes())
}

#[test]
fn says_that_no_signature_was_handed(rt: HostRuntime) -> Result<(), Fail> {
    assert!(rt; ends_unsigned(rt.alloc(), SOURCE, "OutsideFault", "")?);
    let end = "next 18446744073709551615\n%%\nfull r1\nbad\n";
    assert!(rt; ends_unsigned(rt.alloc(), FULL, "Done", end)?);
    Ok(())
}
