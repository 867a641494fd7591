//! That a reply is written before the next message is read, and that little is asked for ahead.

ghost use Rattle.std.specs.Prelude.{None, []};
ghost use Rattle.std.proofs.Common.{lit<};
ghost use Rattle.picky_wire_base.specs.Numbers.{IsBytes};

use crate::talks::{ENDS, LOCKING};
use picky_agent::{Agent, AgentStatus, serve};
use picky_suite::HandedSigner;
use picky_wire::{Failed, Sink, SliceSource, Source};
use std::alloc::Global;
use std::cell::Cell;
use std::mem::ManuallyDrop;
use std::test::Fail;

/// A source that looks, whenever it is asked, whether the replies to all messages that it gave are written. It remembers the longest
/// buffer that it was given.
#[derive(Drop)]
struct Looking<'a> {
    bytes: SliceSource<'a>,
    len: usize,
    written: &'a Cell<usize>,
    is_late: bool,
    most: usize,
}

impl Looking<'_> {
    /// How many bytes the replies have to the messages that were given.
    fn due(&self) -> usize {
        let given = self.len.saturating_sub(self.bytes.rest().len());
        let mut due = 0usize;
        for end in ENDS {
            if end <= given {
                due = due.saturating_add(5);
            }
        }
        due
    }
}

impl Source for Looking<'_> {
    ghost left = { λ s. s.bytes };

    ghost tells = { λ s. IsBytes s.bytes };

    ghost known = { λ _. None };

    ghost faults = { λ _. 0 };

    ghost knows = { λ s n _ same. Prim.cc same };

    ghost bytes = { λ s told. told };

    ghost in_range = { λ _. lit< tt };

    fn read(&mut self, buffer: &mut [u8]) -> Result<usize, Failed> {
        if self.written.get() != self.due() {
            self.is_late = true;
        }
        self.most = self.most.max(buffer.len());
        self.bytes.read(buffer)
    }

    fn known_left(&self) -> Option<usize> {
        None
    }
}

/// A sink that takes one byte a call, and counts what was written. It tells nothing.
#[derive(Drop)]
struct Counting<'a> {
    written: &'a Cell<usize>,
}

impl Sink for Counting<'_> {
    ghost written = { λ _. [] };

    ghost tells = { λ _. ⊥ };

    ghost faults = { λ _. 0 };

    ghost in_range = { λ _. lit< tt };

    fn write(&mut self, piece: &[u8]) -> Result<usize, Failed> {
        let n = piece.len().min(1);
        self.written.set(self.written.get().saturating_add(n));
        Ok(n)
    }
}

/// How a source that looks was served: the status, whether a reply was late, what was written, and the longest buffer.
fn looked(alloc: Global, stream: &[u8]) -> (AgentStatus, bool, usize, usize) {
    let written = Cell::new(0usize);
    let mut agent = ManuallyDrop::new(Agent::new(alloc));
    let mut source = Looking {
        bytes: SliceSource::new(stream),
        len: stream.len(),
        written: &written,
        is_late: false,
        most: 0,
    };
    let mut out = Counting { written: &written };
    let status = serve(
        alloc,
        &mut *agent,
        &mut HandedSigner::new(None),
        &mut source,
        &mut out,
    );
    (status, source.is_late, written.get(), source.most)
}

#[test]
fn writes_each_reply_before_it_reads_on(rt: HostRuntime) -> Result<(), Fail> {
    let (status, is_late, written, _) = looked(rt.alloc(), LOCKING);
    assert!(rt; status == AgentStatus::Done);
    assert!(rt; !is_late);
    assert!(rt; written == 20);
    Ok(())
}

// A length of 262,144, and nine bytes of that message.
const PROMISING: &[u8] = b"\0\x04\0\0\x16\0\x03\xff\xfbpass";

#[test]
fn asks_for_4096_bytes_at_most(rt: HostRuntime) -> Result<(), Fail> {
    let (status, _, written, most) = looked(rt.alloc(), PROMISING);
    assert!(rt; status == AgentStatus::Cut);
    assert!(rt; written == 0);
    assert!(rt; most == 4096);
    Ok(())
}
