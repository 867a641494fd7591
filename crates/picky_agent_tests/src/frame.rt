//! Messages in a stream, whatever a source gives a call; check/agent_cases.py has lengths and cuts.

use crate::talks::{LOCKED, LOCKING, ends, front_of, served};
use picky_agent::AgentStatus;
use picky_suite::HandedSigner;
use picky_wire::{MemorySource, SliceSource};
use std::alloc::Global;
use std::mem::ManuallyDrop;
use std::test::Fail;

/// A stream, and the replies to it.
type Served = (&'static [u8], &'static [u8]);

static STREAMS: [Served; 3] = [
    (b"\0\0\0\x01\x0b", b"\0\0\0\x05\x0c\0\0\0\0"),
    (LOCKING, LOCKED),
    (b"", b""),
];

/// The stream is served whole over a source that gives at most so many bytes a call.
fn is_served_by(alloc: Global, stream: &Served, step: usize) -> Result<bool, Fail> {
    if step == 0 {
        return Ok(false);
    }
    let (asked, answered) = stream;
    let mut source = ManuallyDrop::new(MemorySource::new(alloc, asked, step, &[])?);
    ends(alloc, &mut *source, AgentStatus::Done, answered)
}

#[test]
fn serves_whatever_a_source_gives_a_call(rt: HostRuntime) -> Result<(), Fail> {
    for stream in &STREAMS {
        for step in 1..40usize {
            assert!(rt;
                is_served_by(rt.alloc(), stream, step)?,
                "{:?}, step {step}",
                stream.0
            );
        }
    }
    Ok(())
}

/// Whether the agent is locked once serving ended, and how many bytes are left.
fn is_locked_behind(alloc: Global, len: usize, is_locked: bool) -> Result<bool, Fail> {
    let mut source = SliceSource::new(front_of(LOCKING, len));
    let ran = served(alloc, &mut HandedSigner::new(None), &mut source, 99, &[])?;
    Ok(ran.agent.is_locked() == is_locked && source.rest().is_empty())
}

#[test]
fn leaves_the_agent_as_the_last_message_did(rt: HostRuntime) -> Result<(), Fail> {
    for len in 0..36usize {
        assert!(rt;
            is_locked_behind(rt.alloc(), len, len >= 10 && len < 35)?,
            "behind {len} bytes"
        );
    }
    Ok(())
}
