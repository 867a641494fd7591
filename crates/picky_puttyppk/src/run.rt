//! The run of the program over a source and a sink.

ghost use Rattle.std.specs.Prelude.{◌≡◌, ◌≢◌, ◌⊎◌, ℕ, List, Ok, Err};
ghost use Rattle.picky_wire.specs.Count.{Rose};
ghost use Rattle.picky_wire.specs.Puts.{Puts};
ghost use Rattle.picky_input.specs.Extent.{ReadsInput, WritesLast};
ghost use Rattle.picky_puttyppk.specs.Run.{Ends, extent_of, outcome};
ghost use Rattle.picky_puttyppk.specs.inner.Comes.{Comes, extent_for};

use crate::status::{PuttyPpkStatus, source_status};
use crate::text::text_for_putty;
use picky_input::take_text;
use picky_suite::Suite;
use picky_wire::{Sink, Source, Text, write_all};
use std::alloc::Global;

/// Writes the PuTTY private key file that the source gives onto `out`, as PuTTY's own programs write it.
///
/// Refuses, in order: `ReadFault`, `InputTooLong`, `InputNotUtf8`; `Refused` and `CommentNotCarried`, as `text_for_putty`;
/// `WriteFault`.
pub fn run_puttyppk<S: Suite, I: Source, O: Sink>(
    alloc: Global,
    suite: &S,
    source: &mut I,
    out: &mut O,
) -> PuttyPpkStatus
    // What each status says of the bytes that the source tells, or of some. With Done what was written is read as the same
    // key and comment.
    ensures ends { I.tells source.old → Ends (S.meanings suite.now) (I.left source.old)
        (Rose (I.faults source.old) (I.faults source.new)) (Rose (O.faults out.old) (O.faults out.new))
        (O.tells out.old) (O.written out.old) (O.written out.new) result }
    ensures ends_for_some { (input : List ℕ) × Ends (S.meanings suite.now) input
        (Rose (I.faults source.old) (I.faults source.new)) (Rose (O.faults out.old) (O.faults out.new))
        (O.tells out.old) (O.written out.old) (O.written out.new) result }

    // Where nothing was counted, the status is the one that the bytes have, or memory ran out.
    ensures exact { I.tells source.old → (Rose (I.faults source.old) (I.faults source.new) → ⊥)
        → (status : PuttyPpkStatus) → outcome (S.meanings suite.now) (I.left source.old) ≡ Err status
        → (result ≡ status) ⊎ (result ≡ PuttyPpkStatus.NoMemory) }
    ensures complete { I.tells source.old → (Rose (I.faults source.old) (I.faults source.new) → ⊥)
        → (Rose (O.faults out.old) (O.faults out.new) → ⊥)
        → (text : List ℕ) → outcome (S.meanings suite.now) (I.left source.old) ≡ Ok text
        → (result ≡ PuttyPpkStatus.Done) ⊎ (result ≡ PuttyPpkStatus.NoMemory) }

    // What is left of the source and the sink.
    ensures source { ReadsInput I.tells I.left I.faults (extent_of result) source.old source.new }
    ensures out { WritesLast O.tells O.faults (result ≡ PuttyPpkStatus.WriteFault)
        ((result ≢ PuttyPpkStatus.Done) × (result ≢ PuttyPpkStatus.WriteFault)) out.old out.new }
{
    match take_answer(alloc, suite, source) {
        Ok(text) => match put(out, text.as_str()) {
            Ok(()) => PuttyPpkStatus::Done,
            Err(fault) => fault,
        },
        Err(status) => status,
    }
}

/// The text for PuTTY of all bytes that the source has left. Refuses as above.
fn take_answer<S: Suite, I: Source>(
    alloc: Global,
    suite: &S,
    source: &mut I,
) -> Result<Text, PuttyPpkStatus>
    ensures told { I.tells source.old → Comes (S.meanings suite.now) (I.left source.old)
        (Rose (I.faults source.old) (I.faults source.new)) result }
    ensures some { (input : List ℕ) × Comes (S.meanings suite.now) input (Rose (I.faults source.old) (I.faults source.new)) result }
    ensures source { ReadsInput I.tells I.left I.faults (extent_for result) source.old source.new }
{
    match take_text(alloc, source) {
        Ok(text) => {
            let answer = text_for_putty(alloc, suite, text.as_str());
            drop(text);
            answer
        }
        Err(e) => Err(source_status(e)),
    }
}

/// Writes the text, or a prefix of it up to a fault. Refuses: `WriteFault`.
fn put<O: Sink>(out: &mut O, text: &str) -> Result<(), PuttyPpkStatus>
    ensures { Puts O.tells O.written O.faults PuttyPpkStatus.WriteFault text.now result out.old out.new }
{
    match write_all(out, text.as_bytes()) {
        Ok(()) => Ok(()),
        Err(_) => Err(PuttyPpkStatus::WriteFault),
    }
}
