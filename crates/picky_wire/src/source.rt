//! Where bytes come from.

ghost use Rattle.std.specs.Prelude.{◌≡◌, ◌^◌, ◌<◌, ◌≤◌, ◌-◌, ◌++◌, ◌↔◌, [], ℕ, List, Option, Some, None, true, take};
ghost use Rattle.std.specs.Prelude.{drop, length, min, IfOk, OnOk, OnErr, IsOk, IsErr, IsSome, vec_len};
ghost use Rattle.std.proofs.Common.{arith, lit<};
ghost use Rattle.picky_wire_base.specs.Numbers.{IsBytes};
ghost use Rattle.picky_wire.specs.Count.{Keeps, next_fails, failed};
ghost use Rattle.picky_wire.specs.Memory.{MemorySourceState, given, after_given};

use crate::calls::FailingCalls;
use crate::error::Failed;
use picky_wire_base::NoMemory;
use std::alloc::Global;
use std::marker::Model;

/// A stream of bytes that may fail, and that may tell proofs what it has left.
pub trait Source {
    // the bytes that are still to come; they mean something where the source tells them
    ghost left: { Self → List ℕ };

    ghost tells: { Self → Type 0 };

    // how many bytes are left, where the source knows
    ghost known: { Self → Option ℕ };

    // how many calls failed; it stays at 2^64 - 1
    ghost faults: { Self → ℕ };

    /// Puts at most `buffer.len()` bytes, the first ones that are left, into the buffer's front.
    /// Answers how many: 0 for a buffer that isn't empty only at the end. Refuses: `Failed`.
    fn read(&mut self, buffer: &mut [u8]) -> Result<usize, Failed>
        ensures bound { IfOk result (λ n. n ≤ length buffer.old) }
        ensures taken { tells self.old
            → IfOk result (λ n. left self.old ≡ take n buffer.new ++ left self.new) }
        ensures end { tells self.old → result ≡ Ok 0 → 0 < length buffer.old → left self.old ≡ [] }
        ensures kept { tells self.old → OnErr result (left self.new ≡ left self.old) }
        ensures keeps { Keeps tells faults result self.old self.new }

        // A source that knows what is left goes on knowing it.
        ensures knows_on { IsSome (known self.old) → IsSome (known self.new) };

    /// How many bytes are left, where the source knows it.
    fn known_left(&self) -> Option<usize>
        ensures { result ≡ known self.now };

    ghost knows: { (s : Self) (n : ℕ) → tells s → known s ≡ Some n → length (left s) ≡ n };

    // what a source tells is bytes
    ghost bytes: { (s : Self) → tells s → IsBytes (left s) };

    ghost in_range: { (s : Self) → faults s < 2 ^ 64 };
}

/// The bytes of a slice. It never fails.
#[derive(Drop)]
pub struct SliceSource<'a> {
    rest: &'a [u8],
}

impl<'a> Model for SliceSource<'a> {
    ghost Value = { List ℕ };

    ghost view = { λ s. s.rest.now };

    ghost invariant = { λ s. IsBytes s.rest.now };
}

impl<'a> SliceSource<'a> {
    /// A source that gives these bytes.
    pub fn new(bytes: &'a [u8]) -> SliceSource<'a>
        ensures left { result ≡ bytes.now }
        ensures bytes { IsBytes result }
    {
        SliceSource { rest: bytes }
    }

    /// The bytes that are still to come.
    pub fn rest(&self) -> &'a [u8]
        ensures left { result.now ≡ self.now }
        ensures bytes { IsBytes self.now }
    {
        self.rest
    }
}

impl Source for SliceSource<'_> {
    ghost left = { λ s. s };

    // the view forgets that these numbers are bytes
    ghost tells = { IsBytes };

    ghost known = { λ s. Some (length s) };

    ghost faults = { λ _. 0 };

    ghost knows = { λ s n _ same. Prim.cc same };

    ghost bytes = { λ s told. told };

    ghost in_range = { λ _. lit< tt };

    fn read(&mut self, buffer: &mut [u8]) -> Result<usize, Failed>
        ensures gives { result ≡ Ok (min (length buffer.old) (length self.old)) }

        // What every source promises; here it tells its bytes always.
        ensures bound { IfOk result (λ n. n ≤ length buffer.old) }
        ensures taken { IfOk result (λ n. self.old ≡ take n buffer.new ++ self.new) }
        ensures end { result ≡ Ok 0 → 0 < length buffer.old → self.old ≡ [] }
        ensures kept { OnErr result (self.new ≡ self.old) }
        ensures keeps { Keeps IsBytes (λ _. 0) result self.old self.new }
    {
        let n = buffer.len().min(self.rest.len());
        let (front, rest) = self.rest.split_at(n);
        buffer[..n].copy_from_slice(front);
        self.rest = rest;
        Ok(n)
    }

    fn known_left(&self) -> Option<usize> {
        Some(self.rest.len())
    }
}

/// Bytes that are given a few at a time, by calls of which some fail.
#[derive(Drop)]
pub struct MemorySource {
    content: Vec<u8>,
    at: usize,
    step: usize,
    calls: FailingCalls,
}

impl Model for MemorySource {
    ghost Value = { MemorySourceState };

    ghost view = { λ s. record { left = drop s.at s.content.items; step = s.step; calls = s.calls } };

    ghost invariant = { λ s. (s.at ≤ vec_len s.content) × (1 ≤ s.step) × IsBytes s.content.items };
}

impl MemorySource {
    /// Gives at most `step` bytes of `content` per call, and fails the calls whose numbers, from 0, are listed.
    /// Refuses: `NoMemory`.
    pub fn new(
        alloc: Global,
        content: &[u8],
        step: usize,
        failing: &[u64],
    ) -> Result<MemorySource, NoMemory>
        requires { 1 ≤ step }
        ensures given { IfOk result (λ s. s ≡ record {
          left = content.now;
          step = step;
          calls = record { failing = failing.now; made = 0; faults = 0 };
        }) }
        ensures bytes { IfOk result (λ s. IsBytes s.left) }
    {
        let calls = FailingCalls::new(alloc, failing)?;
        match Vec::from_slice(alloc, content) {
            Ok(content) => Ok(MemorySource {
                content,
                at: 0,
                step,
                calls,
            }),
            Err(_) => Err(NoMemory),
        }
    }
}

impl Source for MemorySource {
    ghost left = { λ s. s.left };

    // the view forgets that these numbers are bytes
    ghost tells = { λ s. IsBytes s.left };

    ghost known = { λ _. None };

    ghost faults = { λ s. min s.calls.faults (2 ^ 64 - 1) };

    ghost knows = { λ s n _ same. Prim.cc same };

    ghost bytes = { λ s told. told };

    ghost in_range = { λ s. Prim.omega arith };

    fn read(&mut self, buffer: &mut [u8]) -> Result<usize, Failed>
        ensures fails { IsErr result ↔ (next_fails self.old.calls ≡ true) }
        ensures gives { IfOk result (λ n. take n buffer.new ≡ given self.old (length buffer.old)) }
        ensures moves { OnOk result (self.new ≡ after_given self.old (length buffer.old)) }
        ensures counts { OnErr result
            (self.new ≡ record self.old { calls = failed self.old.calls }) }

        // What every source promises; here it tells its bytes always.
        ensures bound { IfOk result (λ n. n ≤ length buffer.old) }
        ensures taken { IfOk result (λ n. self.old.left ≡ take n buffer.new ++ self.new.left) }
        ensures end { result ≡ Ok 0 → 0 < length buffer.old → self.old.left ≡ [] }
        ensures kept { OnErr result (self.new.left ≡ self.old.left) }
        ensures keeps { Keeps (λ s. IsBytes s.left) (λ s. min s.calls.faults (2 ^ 64 - 1)) result self.old self.new }
    {
        if self.calls.next_fails() {
            self.calls.count_failed();
            return Err(Failed);
        }
        self.calls.count_passed();
        let n = self
            .step
            .min(buffer.len())
            .min(self.content.len() - self.at);
        buffer[..n].copy_from_slice(&self.content[self.at..self.at + n]);
        self.at += n;
        Ok(n)
    }

    fn known_left(&self) -> Option<usize> {
        None
    }
}
