//! The run of the program over a source and a sink.

ghost use Rattle.std.specs.Prelude.{◌≡◌, ◌≢◌, ◌↔◌, ◌⊎◌, ℕ, List, Some, Ok, Err};
ghost use Rattle.picky_wire.specs.Count.{Rose};
ghost use Rattle.picky_wire.specs.Puts.{Puts};
ghost use Rattle.picky_suite.specs.Asked.{IsAskedAtMost};
ghost use Rattle.picky_input.specs.Extent.{LeavesDevice, ReadsInput, WritesLast};
ghost use Rattle.picky_policy.specs.Command.{asked_by, asked_for, Asked, Names};
ghost use Rattle.picky_policy.specs.Run.{extent_of, offered, Ends, IsDone, IsOutsideFault, IsSpared, WritesAnswer};
ghost use Rattle.picky_policy.specs.Verifies.{KeepsVerified};
ghost use Rattle.picky_policy.specs.declared.offer.Offer.{Offer as AnOffer};

use crate::answer::take_answer;
use crate::command::{Command, command_of};
use crate::status::PolicyStatus;
use crate::verifier::Verifier;
use picky_wire::{Sink, Source, Text, write_all};
use std::alloc::Global;

/// Does what the words say with the text that the source gives, onto `out`.
///
/// The source has the authorized keys, a line that is exactly `%%`, and the offer; without that line it has no authorized
/// keys. `decide USER MOMENT` writes the decision, `message` what is signed of the offer.
///
/// Refuses, in order: `Usage`; `ReadFault`, `InputTooLong`, `InputNotUtf8`; `BadOffer`; `OutsideFault`; `WriteFault`.
pub fn run_policy<V: Verifier, I: Source, O: Sink>(
    alloc: Global,
    words: &[Text],
    verifier: &mut V,
    source: &mut I,
    out: &mut O,
) -> PolicyStatus
    // What is written.
    ensures done { (a : Asked) → Names words.now a → IsDone result → I.tells source.old → O.tells out.old
        → WritesAnswer (V.verifies verifier.old) a (I.left source.old) result (O.written out.old) (O.written out.new) }

    // What each status says of the source's bytes, or of some, where it doesn't tell them.
    ensures ends { (a : Asked) → Names words.now a → I.tells source.old → Ends (V.verifies verifier.old) a (I.left source.old)
        (Rose (I.faults source.old) (I.faults source.new)) (Rose (V.faults verifier.old) (V.faults verifier.new))
        (Rose (O.faults out.old) (O.faults out.new)) (O.tells out.old) (O.written out.old) (O.written out.new) result }
    ensures ends_for_some { (a : Asked) → Names words.now a → (input : List ℕ) × Ends (V.verifies verifier.old) a input
        (Rose (I.faults source.old) (I.faults source.new)) (Rose (V.faults verifier.old) (V.faults verifier.new))
        (Rose (O.faults out.old) (O.faults out.new)) (O.tells out.old) (O.written out.old) (O.written out.new) result }
    ensures usage { (result ≡ PolicyStatus.Usage) ↔ ((a : Asked) → Names words.now a → ⊥) }

    // Where nothing was counted, the status is the one that the bytes have, or memory ran out.
    ensures exact { (a : Asked) → Names words.now a → I.tells source.old
        → (Rose (I.faults source.old) (I.faults source.new) → ⊥)
        → (status : PolicyStatus) → offered (I.left source.old) ≡ Err status
        → (result ≡ status) ⊎ (result ≡ PolicyStatus.NoMemory) }
    ensures complete { (a : Asked) → Names words.now a → I.tells source.old
        → (Rose (I.faults source.old) (I.faults source.new) → ⊥)
        → (Rose (O.faults out.old) (O.faults out.new) → ⊥)
        → (IsOutsideFault a (I.left source.old) (Rose (V.faults verifier.old) (V.faults verifier.new)) → ⊥)
        → (offer : AnOffer) → offered (I.left source.old) ≡ Ok offer
        → IsDone result ⊎ (result ≡ PolicyStatus.NoMemory) }

    // What is left of the source, of `out` and of the verifier.
    ensures source { ReadsInput I.tells I.left I.faults (extent_of result) source.old source.new }
    ensures out { WritesLast O.tells O.faults (result ≡ PolicyStatus.WriteFault)
        ((IsDone result → ⊥) × (result ≢ PolicyStatus.WriteFault)) out.old out.new }
    ensures verifier { LeavesDevice (KeepsVerified (V.verifies verifier.old) (V.verifies verifier.new)) V.faults
        (result ≡ PolicyStatus.OutsideFault) (IsSpared (asked_for words.now) (I.tells source.old) (I.left source.old))
        verifier.old verifier.new }
    ensures asked { IsAskedAtMost 1 V.calls verifier.old verifier.new }
{
    match command_of(words) {
        Some(command) => perform(alloc, command, verifier, source, out),
        None => PolicyStatus::Usage,
    }
}

/// Does what a command says, and answers how that ended.
fn perform<V: Verifier, I: Source, O: Sink>(
    alloc: Global,
    command: Command<'_>,
    verifier: &mut V,
    source: &mut I,
    out: &mut O,
) -> PolicyStatus
    ensures ends { I.tells source.old → Ends (V.verifies verifier.old) (asked_by command.entry) (I.left source.old)
        (Rose (I.faults source.old) (I.faults source.new)) (Rose (V.faults verifier.old) (V.faults verifier.new))
        (Rose (O.faults out.old) (O.faults out.new)) (O.tells out.old) (O.written out.old) (O.written out.new) result }
    ensures ends_for_some { (input : List ℕ) × Ends (V.verifies verifier.old) (asked_by command.entry) input
        (Rose (I.faults source.old) (I.faults source.new)) (Rose (V.faults verifier.old) (V.faults verifier.new))
        (Rose (O.faults out.old) (O.faults out.new)) (O.tells out.old) (O.written out.old) (O.written out.new) result }
    ensures source { ReadsInput I.tells I.left I.faults (extent_of result) source.old source.new }
    ensures out { WritesLast O.tells O.faults (result ≡ PolicyStatus.WriteFault)
        ((IsDone result → ⊥) × (result ≢ PolicyStatus.WriteFault)) out.old out.new }
    ensures verifier { LeavesDevice (KeepsVerified (V.verifies verifier.old) (V.verifies verifier.new)) V.faults
        (result ≡ PolicyStatus.OutsideFault) (IsSpared (Some (asked_by command.entry)) (I.tells source.old) (I.left source.old))
        verifier.old verifier.new }
    ensures asked { IsAskedAtMost 1 V.calls verifier.old verifier.new }
{
    match take_answer(alloc, command, verifier, source) {
        Ok(answer) => match put(out, answer.text.as_bytes()) {
            Ok(()) => answer.status,
            Err(fault) => fault,
        },
        Err(status) => status,
    }
}

/// Writes the text, or a prefix of it up to a fault. Refuses: `WriteFault`.
fn put<O: Sink>(out: &mut O, text: &[u8]) -> Result<(), PolicyStatus>
    ensures { Puts O.tells O.written O.faults PolicyStatus.WriteFault text.now result out.old out.new }
{
    match write_all(out, text) {
        Ok(()) => Ok(()),
        Err(_) => Err(PolicyStatus::WriteFault),
    }
}
