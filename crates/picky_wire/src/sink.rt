//! Where bytes go.

ghost use Rattle.std.specs.Prelude.{◌≡◌, ◌^◌, ◌<◌, ◌≤◌, ◌-◌, ◌++◌, ◌↔◌, [], ℕ, List, true, take, length, min, IfOk};
ghost use Rattle.std.specs.Prelude.{OnOk, OnErr, IsErr, vec_len, vec_capacity};
ghost use Rattle.std.proofs.Common.{arith};
ghost use Rattle.picky_wire.specs.Count.{Keeps, failed};
ghost use Rattle.picky_wire.specs.Memory.{Taken, is_refused, taken_len, after_taken};

use crate::calls::FailingCalls;
use crate::error::Failed;
use picky_wire_base::NoMemory;
use std::alloc::Global;
use std::marker::Model;

/// A taker of bytes that may fail, and that may tell proofs what was written.
pub trait Sink {
    // what was written so far; it means something where the sink tells it
    ghost written: { Self → List ℕ };

    ghost tells: { Self → Type 0 };

    // how many calls failed; it stays at 2^64 - 1
    ghost faults: { Self → ℕ };

    /// Takes the first bytes of the piece. Answers how many: at least one where the piece isn't empty.
    /// Refuses: `Failed`.
    fn write(&mut self, piece: &[u8]) -> Result<usize, Failed>
        ensures bound { IfOk result (λ n. n ≤ length piece.now) }
        ensures progress { IfOk result (λ n. 0 < length piece.now → 0 < n) }
        ensures appended { tells self.old
            → IfOk result (λ n. written self.new ≡ written self.old ++ take n piece.now) }
        ensures kept { tells self.old → OnErr result (written self.new ≡ written self.old) }
        ensures keeps { Keeps tells faults result self.old self.new };

    ghost in_range: { (s : Self) → faults s < 2 ^ 64 };
}

/// A buffer of limited room that takes a few bytes at a time, by calls of which some fail.
#[derive(Drop)]
pub struct MemorySink {
    bytes: Vec<u8>,
    room: usize,
    step: usize,
    calls: FailingCalls,
}

impl Model for MemorySink {
    ghost Value = { Taken };

    ghost view = { λ s. record { written = s.bytes.items; room = s.room; step = s.step; calls = s.calls } };

    ghost invariant = { λ s. (s.room ≤ vec_capacity s.bytes) × (1 ≤ s.step) × (vec_len s.bytes ≤ s.room) };
}

impl MemorySink {
    /// Takes at most `step` bytes per call and `room` in all. It fails the calls whose numbers, from 0,
    /// are listed, and each that brings bytes where there is no room. Refuses: `NoMemory`.
    pub fn new(
        alloc: Global,
        room: usize,
        step: usize,
        failing: &[u64],
    ) -> Result<MemorySink, NoMemory>
        requires { 1 ≤ step }
        ensures { IfOk result (λ s. s ≡ record {
          written = [];
          room = room;
          step = step;
          calls = record { failing = failing.now; made = 0; faults = 0 };
        }) }
    {
        let calls = FailingCalls::new(alloc, failing)?;
        match Vec::with_capacity(alloc, room) {
            Ok(bytes) => Ok(MemorySink {
                bytes,
                room,
                step,
                calls,
            }),
            Err(_) => Err(NoMemory),
        }
    }

    /// What was written so far.
    pub fn written(&self) -> &[u8]
        ensures { result.now ≡ self.now.written }
    {
        self.bytes.as_slice()
    }

    fn is_refused(&self, piece: &[u8]) -> bool
        ensures { result ≡ is_refused self.now piece.now }
    {
        self.calls.next_fails() || (!piece.is_empty() && self.room <= self.bytes.len())
    }
}

impl Sink for MemorySink {
    ghost written = { λ s. s.written };

    ghost tells = { λ _. Unit {0} };

    ghost faults = { λ s. min s.calls.faults (2 ^ 64 - 1) };

    ghost in_range = { λ s. Prim.omega arith };

    fn write(&mut self, piece: &[u8]) -> Result<usize, Failed>
        ensures fails { IsErr result ↔ (is_refused self.old piece.now ≡ true) }
        ensures takes { IfOk result (λ n. n ≡ taken_len self.old piece.now) }
        ensures moves { OnOk result (self.new ≡ after_taken self.old piece.now) }
        ensures counts { OnErr result
            (self.new ≡ record self.old { calls = failed self.old.calls }) }

        // What every sink promises.
        ensures bound { IfOk result (λ n. n ≤ length piece.now) }
        ensures progress { IfOk result (λ n. 0 < length piece.now → 0 < n) }
        ensures appended { Unit {0}
            → IfOk result (λ n. self.new.written ≡ self.old.written ++ take n piece.now) }
        ensures kept { Unit {0} → OnErr result (self.new.written ≡ self.old.written) }
        ensures keeps { Keeps (λ _. Unit {0}) (λ s. min s.calls.faults (2 ^ 64 - 1)) result self.old self.new }
    {
        if self.is_refused(piece) {
            self.calls.count_failed();
            return Err(Failed);
        }
        let n = piece.len().min(self.step).min(self.room - self.bytes.len());
        self.bytes.extend_from_slice(&piece[..n]).unwrap();
        self.calls.count_passed();
        Ok(n)
    }
}
