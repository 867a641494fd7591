//! Streams that fail: the source at each of its calls, and the sink at each byte and each of its calls.

use crate::talks::{ENDS, LOCKED, LOCKING, ended, ends, front_of, served};
use picky_agent::AgentStatus;
use picky_suite::HandedSigner;
use picky_wire::{MemorySource, SliceSource};
use std::alloc::Global;
use std::mem::ManuallyDrop;
use std::test::Fail;

/// The source gives so many bytes a call, of which this one fails: so many messages were answered before.
fn fails_at(alloc: Global, step: usize, call: u64, answered: usize) -> Result<bool, Fail> {
    if step == 0 {
        return Ok(false);
    }
    let mut source = ManuallyDrop::new(MemorySource::new(alloc, LOCKING, step, &[call])?);
    let replies = front_of(LOCKED, answered.saturating_mul(5));
    ends(alloc, &mut *source, AgentStatus::ReadFault, replies)
}

/// How many of the messages end within so many bytes.
fn ended_within(len: usize) -> usize {
    let mut count = 0usize;
    for end in ENDS {
        if end <= len {
            count = count.saturating_add(1);
        }
    }
    count
}

/// A call that isn't made doesn't fail.
fn is_done_by(alloc: Global, step: usize, call: u64) -> Result<bool, Fail> {
    if step == 0 {
        return Ok(false);
    }
    let mut source = ManuallyDrop::new(MemorySource::new(alloc, LOCKING, step, &[call])?);
    ends(alloc, &mut *source, AgentStatus::Done, LOCKED)
}

#[test]
fn says_that_the_source_failed(rt: HostRuntime) -> Result<(), Fail> {
    // By single bytes call n is for byte n, and one more says that they end.
    let mut call = 0u64;
    for byte in 0..36usize {
        assert!(rt;
            fails_at(rt.alloc(), 1, call, ended_within(byte))?,
            "byte {byte}"
        );
        call = call.saturating_add(1);
    }
    assert!(rt; is_done_by(rt.alloc(), 1, 36)?);
    // By many there are three calls for each message: for the first byte of its length, the others, and the message.
    let mut call = 0u64;
    for number in 0..13usize {
        assert!(rt;
            fails_at(rt.alloc(), 64, call, number / 3)?,
            "call {number}"
        );
        call = call.saturating_add(1);
    }
    assert!(rt; is_done_by(rt.alloc(), 64, 13)?);
    Ok(())
}

/// The sink has so much room: that much of the replies is written, and the agent took the message whose reply was cut off.
fn is_cut_off(alloc: Global, room: usize) -> Result<bool, Fail> {
    let mut source = SliceSource::new(LOCKING);
    let ran = served(alloc, &mut HandedSigner::new(None), &mut source, room, &[])?;
    let taken = room / 5 + 1;
    Ok(
        ended(&ran, AgentStatus::WriteFault, front_of(LOCKED, room))
            && ran.agent.is_locked() == (taken < 4)
            && ended_within(LOCKING.len().saturating_sub(source.rest().len())) == taken,
    )
}

#[test]
fn says_that_the_sink_failed(rt: HostRuntime) -> Result<(), Fail> {
    for room in 0..20usize {
        assert!(rt; is_cut_off(rt.alloc(), room)?, "room {room}");
    }
    Ok(())
}

/// The sink fails this call, of which each reply has two: for its length, and for its bytes.
fn fails_writing(alloc: Global, call: u64, written: usize) -> Result<bool, Fail> {
    let mut source = SliceSource::new(LOCKING);
    let ran = served(
        alloc,
        &mut HandedSigner::new(None),
        &mut source,
        99,
        &[call],
    )?;
    Ok(ended(&ran, AgentStatus::WriteFault, front_of(LOCKED, written)))
}

// How much is written before each call.
static WRITTEN: [usize; 8] = [0, 4, 5, 9, 10, 14, 15, 19];

#[test]
fn ends_at_the_call_that_failed(rt: HostRuntime) -> Result<(), Fail> {
    let mut call = 0u64;
    for written in &WRITTEN {
        assert!(rt; fails_writing(rt.alloc(), call, *written)?, "call {call}");
        call = call.saturating_add(1);
    }
    Ok(())
}
