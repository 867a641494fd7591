//! The trusted edge: std's readers and writers as sources and sinks.

ghost use Rattle.std.specs.Prelude.{◌≡◌, ◌^◌, ◌<◌, ◌≤◌, ◌-◌, ◌++◌, ◌↔◌, [], ℕ, Ok, Some, None, IsSome, IfOk, OnOk};
ghost use Rattle.std.specs.Prelude.{OnErr, take, length, min};
ghost use Rattle.std.proofs.Common.{arith};
ghost use Rattle.picky_wire.specs.Count.{Keeps, count_one};
ghost use Rattle.picky_wire.specs.Known.{known_or_nil, TellsBytes};

use crate::error::Failed;
use crate::sink::Sink;
use crate::source::Source;
use std::io::{Read, Write};

/// A reader of std. Each error of it counts as a fault.
#[derive(Drop)]
pub struct StdSource<R: Read> {
    inner: R,
    faults: u64,
}

impl<R: Read> StdSource<R> {
    /// A source that tells what the reader tells, where that is bytes. No fault was counted yet.
    pub fn new(inner: R) -> StdSource<R>
        ensures left { ⟦<StdSource<R> as Source>⟧.left result ≡ known_or_nil (R.remaining inner) }
        ensures tells { ⟦<StdSource<R> as Source>⟧.tells result ↔ TellsBytes (R.remaining inner) }
        ensures faults { ⟦<StdSource<R> as Source>⟧.faults result ≡ 0 }
    {
        StdSource { inner, faults: 0 }
    }
}

impl<R: Read> Source for StdSource<R> {
    ghost left = { λ s. known_or_nil (R.remaining s.inner) };

    ghost tells = { λ s. TellsBytes (R.remaining s.inner) };

    ghost known = { λ _. None };

    ghost faults = { λ s. min s.faults (2 ^ 64 - 1) };

    ghost knows = { λ s n _ same. Prim.cc same };

    ghost bytes = { λ s told. told.1 };

    ghost in_range = { λ s. Prim.omega arith };

    fn read(&mut self, buffer: &mut [u8]) -> Result<usize, Failed>
        ensures counts { OnErr result (min self.new.faults (2 ^ 64 - 1) ≡ count_one (min self.old.faults (2 ^ 64 - 1))) }
        ensures counts_no_more { OnOk result (self.new.faults ≡ self.old.faults) }
        ensures still_known { IsSome (R.remaining self.old.inner) → IsSome (R.remaining self.new.inner) }

        // What every source promises.
        ensures bound { IfOk result (λ n. n ≤ length buffer.old) }
        ensures taken { IsSome (R.remaining self.old.inner) → IfOk result (λ n.
            known_or_nil (R.remaining self.old.inner) ≡ take n buffer.new ++ known_or_nil (R.remaining self.new.inner)) }
        ensures end { IsSome (R.remaining self.old.inner) → result ≡ Ok 0 → 0 < length buffer.old
            → known_or_nil (R.remaining self.old.inner) ≡ [] }
        ensures kept { IsSome (R.remaining self.old.inner)
            → OnErr result (known_or_nil (R.remaining self.new.inner) ≡ known_or_nil (R.remaining self.old.inner)) }
        ensures keeps { Keeps (λ s. TellsBytes (R.remaining s.inner)) (λ s. min s.faults (2 ^ 64 - 1)) result self.old self.new }
    {
        match self.inner.read(buffer) {
            Ok(n) => Ok(n),
            Err(_) => {
                self.faults = self.faults.saturating_add(1);
                Err(Failed)
            }
        }
    }

    fn known_left(&self) -> Option<usize> {
        None
    }
}

/// A writer of std. Each error of it counts as a fault, and so does a write that takes nothing of a piece.
#[derive(Drop)]
pub struct StdSink<W: Write> {
    inner: W,
    faults: u64,
}

impl<W: Write> StdSink<W> {
    /// A sink that tells what the writer tells. No fault was counted yet.
    pub fn new(inner: W) -> StdSink<W>
        ensures written { ⟦<StdSink<W> as Sink>⟧.written result ≡ known_or_nil (W.contents inner) }
        ensures tells { ⟦<StdSink<W> as Sink>⟧.tells result ↔ IsSome (W.contents inner) }
        ensures faults { ⟦<StdSink<W> as Sink>⟧.faults result ≡ 0 }
    {
        StdSink { inner, faults: 0 }
    }
}

impl<W: Write> Sink for StdSink<W> {
    ghost written = { λ s. known_or_nil (W.contents s.inner) };

    ghost tells = { λ s. IsSome (W.contents s.inner) };

    ghost faults = { λ s. min s.faults (2 ^ 64 - 1) };

    ghost in_range = { λ s. Prim.omega arith };

    fn write(&mut self, piece: &[u8]) -> Result<usize, Failed>
        ensures counts { OnErr result (min self.new.faults (2 ^ 64 - 1) ≡ count_one (min self.old.faults (2 ^ 64 - 1))) }
        ensures counts_no_more { OnOk result (self.new.faults ≡ self.old.faults) }

        // What every sink promises.
        ensures bound { IfOk result (λ n. n ≤ length piece.now) }
        ensures progress { IfOk result (λ n. 0 < length piece.now → 0 < n) }
        ensures appended { IsSome (W.contents self.old.inner) → IfOk result (λ n.
            known_or_nil (W.contents self.new.inner) ≡ known_or_nil (W.contents self.old.inner) ++ take n piece.now) }
        ensures kept { IsSome (W.contents self.old.inner)
            → OnErr result (known_or_nil (W.contents self.new.inner) ≡ known_or_nil (W.contents self.old.inner)) }
        ensures keeps { Keeps (λ s. IsSome (W.contents s.inner)) (λ s. min s.faults (2 ^ 64 - 1)) result self.old self.new }
    {
        match self.inner.write(piece) {
            Ok(n) if n > 0 || piece.is_empty() => Ok(n),
            Ok(_) | Err(_) => {
                self.faults = self.faults.saturating_add(1);
                Err(Failed)
            }
        }
    }
}
