//! The run of the program over a source and a sink.

ghost use Rattle.std.specs.Prelude.{◌≡◌, ◌≢◌, ◌↔◌, ◌⊎◌, ℕ, List, Ok, Err};
ghost use Rattle.picky_keys.specs.declared.public_key.PublicKey.{PublicKey};
ghost use Rattle.picky_keys.specs.declared.algorithm.SignatureAlgorithm.{SignatureAlgorithm as Algorithm};
ghost use Rattle.picky_wire.specs.Count.{Rose};
ghost use Rattle.picky_wire.specs.Puts.{Puts};
ghost use Rattle.picky_ledger.specs.Run.{asked, extent_of, moment, LedgerAsked, AsksNothing, Ends, LeavesDevice};
ghost use Rattle.picky_ledger.specs.Run.{ReadsInput};
ghost use Rattle.picky_ledger.specs.Run.{WritesAnswer, WritesLast};

use crate::answer::take_answer;
use crate::status::LedgerStatus;
use picky_suite::Signer;
use picky_wire::{Sink, Source, write_all};
use std::alloc::Global;

/// Answers the requests that the source has at the ledger that it has, and writes the new ledger and the replies onto `out`.
///
/// The source has a ledger's text, a line that is exactly `%%`, the issuer's public key line, a line `%%`, and request lines, of
/// which empty ones are skipped. The nonce of each request is 32 of the fresh bytes, in order.
///
/// Refuses, in order: `ReadFault`, `InputTooLong`, `InputNotUtf8`; `BadInput`, where there are fewer than two such lines;
/// `BadLedger`, as `Ledger::from_str`; `BadIssuer`, as `SshPublicKey::from_str`; `FreshTooShort`; `OutsideFault`; `TooLong`;
/// `WriteFault`.
pub fn run_ledger<G: Signer, I: Source, O: Sink>(
    alloc: Global,
    fresh: &[u8],
    signer: &mut G,
    source: &mut I,
    out: &mut O,
) -> LedgerStatus
    // What Done means.
    ensures done { result ≡ LedgerStatus.Done → I.tells source.old → O.tells out.old
        → WritesAnswer (G.signs signer.old) fresh.now (I.left source.old) (O.written out.old) (O.written out.new) }

    // What each status says: of the bytes that the source tells, and of some, whether or not it tells them.
    ensures ends { I.tells source.old → Ends (G.signs signer.old) fresh.now (I.left source.old) (O.tells out.old)
        (moment (O.written out.old) (I.faults source.old) (O.faults out.old) (G.faults signer.old))
        (moment (O.written out.new) (I.faults source.new) (O.faults out.new) (G.faults signer.new)) result }
    ensures ends_for_some { (input : List ℕ) × Ends (G.signs signer.old) fresh.now input (O.tells out.old)
        (moment (O.written out.old) (I.faults source.old) (O.faults out.old) (G.faults signer.old))
        (moment (O.written out.new) (I.faults source.new) (O.faults out.new) (G.faults signer.new)) result }

    // Where nothing was counted, the status is the one that the bytes have, or memory ran out.
    ensures exact { I.tells source.old → (Rose (I.faults source.old) (I.faults source.new) → ⊥)
        → (status : LedgerStatus) → asked fresh.now (I.left source.old) ≡ Err status
        → (result ≡ status) ⊎ (result ≡ LedgerStatus.NoMemory) }
    ensures complete { I.tells source.old → (Rose (I.faults source.old) (I.faults source.new) → ⊥)
        → (Rose (O.faults out.old) (O.faults out.new) → ⊥)
        → (Rose (G.faults signer.old) (G.faults signer.new) → ⊥)
        → (given : LedgerAsked) → asked fresh.now (I.left source.old) ≡ Ok given
        → (result ≡ LedgerStatus.Done) ⊎ ((result ≡ LedgerStatus.TooLong) ⊎ (result ≡ LedgerStatus.NoMemory)) }

    // What is left of the source, the sink and the signer.
    ensures source { ReadsInput I.tells I.left I.faults (extent_of result) source.old source.new }
    ensures out { WritesLast O.tells O.faults (result ≡ LedgerStatus.WriteFault)
        ((result ≢ LedgerStatus.Done) × (result ≢ LedgerStatus.WriteFault)) out.old out.new }
    ensures signer { LeavesDevice
        ((k : PublicKey) (a : Algorithm) (m s : List ℕ) → G.signs signer.new k a m s ↔ G.signs signer.old k a m s)
        G.faults (result ≡ LedgerStatus.OutsideFault)
        (I.tells source.old × AsksNothing fresh.now (I.left source.old)) signer.old signer.new }
{
    perform(alloc, fresh, signer, source, out)
}

/// Writes what is answered, and says how that ended.
#[tactic(auto, using(crate::proofs::RunLemmas::stops_ends))]
fn perform<G: Signer, I: Source, O: Sink>(
    alloc: Global,
    fresh: &[u8],
    signer: &mut G,
    source: &mut I,
    out: &mut O,
) -> LedgerStatus
    ensures ends { I.tells source.old → Ends (G.signs signer.old) fresh.now (I.left source.old) (O.tells out.old)
        (moment (O.written out.old) (I.faults source.old) (O.faults out.old) (G.faults signer.old))
        (moment (O.written out.new) (I.faults source.new) (O.faults out.new) (G.faults signer.new)) result }
    ensures ends_for_some { (input : List ℕ) × Ends (G.signs signer.old) fresh.now input (O.tells out.old)
        (moment (O.written out.old) (I.faults source.old) (O.faults out.old) (G.faults signer.old))
        (moment (O.written out.new) (I.faults source.new) (O.faults out.new) (G.faults signer.new)) result }
    ensures source { ReadsInput I.tells I.left I.faults (extent_of result) source.old source.new }
    ensures out { WritesLast O.tells O.faults (result ≡ LedgerStatus.WriteFault)
        ((result ≢ LedgerStatus.Done) × (result ≢ LedgerStatus.WriteFault)) out.old out.new }
    ensures signer { LeavesDevice
        ((k : PublicKey) (a : Algorithm) (m s : List ℕ) → G.signs signer.new k a m s ↔ G.signs signer.old k a m s)
        G.faults (result ≡ LedgerStatus.OutsideFault)
        (I.tells source.old × AsksNothing fresh.now (I.left source.old)) signer.old signer.new }
{
    match take_answer(alloc, fresh, signer, source) {
        Ok(text) => match put(out, text.as_bytes()) {
            Ok(()) => LedgerStatus::Done,
            Err(fault) => fault,
        },
        Err(status) => status,
    }
}

/// Writes the text, or a prefix of it up to a fault. Refuses: `WriteFault`.
fn put<O: Sink>(out: &mut O, text: &[u8]) -> Result<(), LedgerStatus>
    ensures { Puts O.tells O.written O.faults LedgerStatus.WriteFault text.now result out.old out.new }
{
    match write_all(out, text) {
        Ok(()) => Ok(()),
        Err(_) => Err(LedgerStatus::WriteFault),
    }
}
