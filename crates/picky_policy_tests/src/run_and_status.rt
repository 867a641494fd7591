//! What devices that fail make of a run; check/keypolicy_cases.py has how others end.

use crate::row_texts::row_text;
use crate::runs::{DECIDE, MESSAGE, ROOM, ends};
use picky_policy::PolicyStatus;
use picky_wire::{MemorySource, SliceSource};
use std::alloc::Global;
use std::mem::ManuallyDrop;
use std::test::Fail;

/// Words, a source's text, how many calls read it by seven bytes each, how that ends and what is written.
type Device = (
    &'static [&'static str],
    &'static str,
    u64,
    PolicyStatus,
    &'static str,
);

// The texts have 164 bytes, 94 and 80, and one more call says that they end.
static DEVICES: [Device; 3] = [
    (
        DECIDE,
        "ssh-ed25519 B0\n%%\nssh-ed25519 B0",
        25,
        PolicyStatus::Granted,
        "grant 1\n",
    ),
    (
        DECIDE,
        "# no key\n%%\nssh-ed25519 B0 k",
        15,
        PolicyStatus::Denied,
        "deny NoLine\n",
    ),
    (MESSAGE, "ssh-ed25519 B0", 13, PolicyStatus::Message, "\n"),
];

/// Over a source that gives seven bytes a call, of which this one fails, they end so.
fn ends_at(
    alloc: Global,
    device: &Device,
    call: u64,
    status: PolicyStatus,
    out: &str,
) -> Result<bool, Fail> {
    let (words, row, _, _, _) = device;
    let text = ManuallyDrop::new(row_text(alloc, row)?);
    let bytes = text.as_str().as_bytes();
    let mut source = ManuallyDrop::new(MemorySource::new(alloc, bytes, 7, &[call])?);
    ends(alloc, words, &mut *source, ROOM, status, out.as_bytes())
}

#[test]
fn says_that_the_source_failed(rt: HostRuntime) -> Result<(), Fail> {
    for device in &DEVICES {
        let (_, row, calls, status, out) = device;
        for call in 0..*calls {
            assert!(rt;
                ends_at(rt.alloc(), device, call, PolicyStatus::ReadFault, "")?,
                "{row}: call {call}"
            );
        }
        assert!(rt; ends_at(rt.alloc(), device, *calls, *status, out)?, "{row}");
    }
    Ok(())
}

/// The words over the row, where `out` has so much room, end so.
fn ends_within(
    alloc: Global,
    words: &[&str],
    row: &str,
    room: usize,
    status: PolicyStatus,
    out: &[u8],
) -> Result<bool, Fail> {
    let text = ManuallyDrop::new(row_text(alloc, row)?);
    let mut source = SliceSource::new(text.as_str().as_bytes());
    ends(alloc, words, &mut source, room, status, out)
}

#[test]
fn says_that_out_failed(rt: HostRuntime) -> Result<(), Fail> {
    for (words, row, _, status, out) in &DEVICES {
        let out = out.as_bytes();
        for room in 0..out.len() {
            assert!(rt;
                ends_within(
                    rt.alloc(),
                    words,
                    row,
                    room,
                    PolicyStatus::WriteFault,
                    &out[..room]
                )?,
                "{row}: room {room}"
            );
        }
        assert!(rt;
            ends_within(rt.alloc(), words, row, out.len(), *status, out)?,
            "{row}"
        );
    }
    Ok(())
}
