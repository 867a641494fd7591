//! The numbers of the statuses, and what devices that fail make of a run; check/keyinventory_cases.py has how others end.

use crate::row_texts::{LINE, PUBLIC_K};
use crate::runs::{End, LIST, MERGE, ROOM, ends};
use picky_inventory::InventoryStatus;
use picky_key_text::ReadError;
use picky_wire::{MemorySource, SliceSource};
use std::alloc::Global;
use std::mem::ManuallyDrop;
use std::test::Fail;

// docs/FORMATS.md, "Inventories".
const CODES: [(InventoryStatus, u8); 10] = [
    (InventoryStatus::Done, 0),
    (InventoryStatus::Refused(7, ReadError::NoMemory), 1),
    (InventoryStatus::BadLine(7), 1),
    (InventoryStatus::Usage, 2),
    (InventoryStatus::ReadFault, 3),
    (InventoryStatus::WriteFault, 4),
    (InventoryStatus::OutsideFault, 5),
    (InventoryStatus::NoMemory, 6),
    (InventoryStatus::InputTooLong, 7),
    (InventoryStatus::InputNotUtf8, 8),
];

#[test]
fn has_a_number_for_each_status(rt: HostRuntime) {
    let rows = ManuallyDrop::new(CODES);
    for (status, code) in rows.as_slice() {
        assert!(rt; status.exit_code() == *code, "{code}");
    }
}

/// Words, what they are given, and what they write for that.
type Device = (&'static [&'static str], &'static str, &'static str);

static DEVICES: [Device; 2] = [(LIST, LINE, PUBLIC_K), (MERGE, PUBLIC_K, PUBLIC_K)];

/// Over a source that gives seven bytes a call, of which this one fails, they end so.
fn ends_at(
    alloc: Global,
    device: &Device,
    call: u64,
    status: &InventoryStatus,
    out: &str,
) -> Result<bool, Fail> {
    let (words, input, _) = device;
    let end = End {
        status,
        out: out.as_bytes(),
        err: "",
    };
    let mut source = ManuallyDrop::new(MemorySource::new(alloc, input.as_bytes(), 7, &[call])?);
    ends(alloc, words, &mut *source, (ROOM, 99), end)
}

#[test]
fn says_that_the_source_failed(rt: HostRuntime) -> Result<(), Fail> {
    let fault = ManuallyDrop::new(InventoryStatus::ReadFault);
    let done = ManuallyDrop::new(InventoryStatus::Done);
    for device in &DEVICES {
        let (_, input, lines) = device;
        // 83 bytes and 81 bytes are 12 calls, and one more says that they end.
        for call in 0..13u64 {
            assert!(rt;
                ends_at(rt.alloc(), device, call, &fault, "")?,
                "{input}: call {call}"
            );
        }
        assert!(rt; ends_at(rt.alloc(), device, 13, &done, lines)?, "{input}");
    }
    Ok(())
}

/// The words over the bytes, where `out` has so much room, end so, with nothing on `err`.
fn ends_within(
    alloc: Global,
    words: &[&str],
    input: &[u8],
    room: usize,
    status: &InventoryStatus,
    out: &[u8],
) -> Result<bool, Fail> {
    let end = End {
        status,
        out,
        err: "",
    };
    let mut source = SliceSource::new(input);
    ends(alloc, words, &mut source, (room, 99), end)
}

#[test]
fn says_that_out_failed(rt: HostRuntime) -> Result<(), Fail> {
    let fault = ManuallyDrop::new(InventoryStatus::WriteFault);
    for (words, input, lines) in &DEVICES {
        let (input, lines) = (input.as_bytes(), lines.as_bytes());
        for room in 0..lines.len() {
            assert!(rt;
                ends_within(rt.alloc(), words, input, room, &fault, &lines[..room])?,
                "{words:?}: room {room}"
            );
        }
    }
    Ok(())
}
