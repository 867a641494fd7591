//! What is answered for the bytes of a source.

ghost use Rattle.std.specs.Prelude.{◌≡◌, ◌↔◌, ◌≤◌, ◌*◌, ◌++◌, ℕ, List, length, string_bytes, Ok, Err};
ghost use Rattle.std.specs.Prelude.{IfErr, IfOk, OnOk};
ghost use Rattle.picky_keys.specs.declared.public_key.PublicKey.{PublicKey};
ghost use Rattle.picky_keys.specs.declared.algorithm.SignatureAlgorithm.{SignatureAlgorithm as Algorithm};
ghost use Rattle.picky_wire_base.specs.Outcome.{map_ok};
ghost use Rattle.picky_wire.specs.Count.{Rose};
ghost use Rattle.picky_input.specs.SourceText.{source_text_of};
ghost use Rattle.picky_issuing.specs.Parts.{mark_lf};
ghost use Rattle.picky_ledger.specs.Run.{asked, AsksNothing, LeavesDevice, ReadsInput};
ghost use Rattle.picky_ledger.specs.Runs.{nonce_len, NoneSigns};
ghost use Rattle.picky_ledger.specs.inner.Comes.{extent_at, Comes};
ghost use Rattle.picky_ledger.specs.inner.Shown.{given_shown};

use crate::apply::LedgerError;
use crate::asked::{LedgerInput, given_in};
use crate::requests::answer_requests;
use crate::status::{LedgerStatus, source_status};
use picky_input::take_text;
use picky_suite::Signer;
use picky_wire::{SizeError, Source, Text};
use std::alloc::{AllocError, Global};

/// The text that is written for all bytes that the source has left, or why there is none.
///
/// Refuses, in order: `ReadFault`, `InputTooLong`, `InputNotUtf8`; `BadInput`, `BadLedger`, `BadIssuer`, `FreshTooShort`,
/// `OutsideFault`, `TooLong`.
#[tactic(auto, using(crate::proofs::RunLemmas::reads_whole, crate::proofs::RunLemmas::source_stops, crate::proofs::RunLemmas::text_comes))]
pub(crate) fn take_answer<G: Signer, I: Source>(
    alloc: Global,
    fresh: &[u8],
    signer: &mut G,
    source: &mut I,
) -> Result<String, LedgerStatus>
    ensures comes { I.tells source.old → Comes (G.signs signer.old) fresh.now (I.left source.old)
        (Rose (I.faults source.old) (I.faults source.new)) (Rose (G.faults signer.old) (G.faults signer.new))
        (map_ok (λ text. string_bytes text) result) }
    ensures comes_for_some { (input : List ℕ) × Comes (G.signs signer.old) fresh.now input
        (Rose (I.faults source.old) (I.faults source.new)) (Rose (G.faults signer.old) (G.faults signer.new))
        (map_ok (λ text. string_bytes text) result) }
    ensures source { ReadsInput I.tells I.left I.faults (extent_at result) source.old source.new }
    ensures signer { LeavesDevice
        ((k : PublicKey) (a : Algorithm) (m s : List ℕ) → G.signs signer.new k a m s ↔ G.signs signer.old k a m s)
        G.faults (result ≡ Err LedgerStatus.OutsideFault)
        (I.tells source.old × AsksNothing fresh.now (I.left source.old)) signer.old signer.new }
{
    match take_text(alloc, source) {
        Ok(text) => {
            let answer = answer_to(alloc, fresh, signer, text.as_str());
            drop(text);
            answer
        }
        Err(e) => Err(source_status(e)),
    }
}

/// The same for a text.
#[tactic(auto, using(crate::proofs::RunLemmas::text_stops))]
fn answer_to<G: Signer>(
    alloc: Global,
    fresh: &[u8],
    signer: &mut G,
    text: &str,
) -> Result<String, LedgerStatus>
    ensures comes { (input : List ℕ) → source_text_of input ≡ Ok text.now → Comes (G.signs signer.old) fresh.now input
        ⊥ (Rose (G.faults signer.old) (G.faults signer.new)) (map_ok (λ text. string_bytes text) result) }
    ensures signer { LeavesDevice
        ((k : PublicKey) (a : Algorithm) (m s : List ℕ) → G.signs signer.new k a m s ↔ G.signs signer.old k a m s)
        G.faults (result ≡ Err LedgerStatus.OutsideFault)
        ((input : List ℕ) × (source_text_of input ≡ Ok text.now) × AsksNothing fresh.now input) signer.old signer.new }
{
    match given_in(alloc, fresh, text) {
        Ok(given) => answer_given(alloc, given, fresh, signer),
        Err(status) => Err(status),
    }
}

/// The new ledger's text, the mark's line and the lines of the replies. Refuses, in order: `OutsideFault`, `TooLong`.
fn answer_given<G: Signer>(
    alloc: Global,
    given: LedgerInput<'_>,
    fresh: &[u8],
    signer: &mut G,
) -> Result<String, LedgerStatus>
    requires { nonce_len * length (given_shown given).requests ≤ length fresh.now }
    ensures comes { (input : List ℕ) → asked fresh.now input ≡ Ok (given_shown given.entry) → Comes (G.signs signer.old) fresh.now input
        ⊥ (Rose (G.faults signer.old) (G.faults signer.new)) (map_ok (λ text. string_bytes text) result) }
    ensures signer { LeavesDevice
        ((k : PublicKey) (a : Algorithm) (m s : List ℕ) → G.signs signer.new k a m s ↔ G.signs signer.old k a m s)
        G.faults (result ≡ Err LedgerStatus.OutsideFault)
        (NoneSigns given.entry.issuer.inner_key given.entry.ledger fresh.now (given_shown given.entry).requests) signer.old signer.new }
{
    let LedgerInput {
        mut ledger,
        issuer,
        requests,
    } = given;
    // That it is a ledger is said by its getter.
    let _ = ledger.entries();
    let replies = match answer_requests(alloc, &mut ledger, &issuer, requests, fresh, signer) {
        Ok(replies) => replies,
        Err(LedgerError::SignerFault) => return Err(LedgerStatus::OutsideFault),
        Err(LedgerError::NoMemory) => return Err(LedgerStatus::NoMemory),
    };
    match ledger.to_string(alloc) {
        Ok(text) => ledger_and_replies(text, replies.as_str()),
        Err(SizeError::TooLong) => Err(LedgerStatus::TooLong),
        Err(SizeError::NoMemory) => Err(LedgerStatus::NoMemory),
    }
}

/// The text of a ledger, the mark's line, and the replies. Refuses: `NoMemory`.
fn ledger_and_replies(ledger: Text, replies: &str) -> Result<String, LedgerStatus>
    ensures joined { IfOk result (λ text. string_bytes text ≡ ledger ++ (mark_lf ++ replies.now)) }
    ensures want { IfErr result (λ status. status ≡ LedgerStatus.NoMemory) }
{
    let mut text = ledger.into_string();
    match push_behind(&mut text, replies) {
        Ok(()) => Ok(text),
        Err(_) => Err(LedgerStatus::NoMemory),
    }
}

/// Adds the mark's line and the replies. Refuses: want of memory.
fn push_behind(text: &mut String, replies: &str) -> Result<(), AllocError>
    ensures { OnOk result (string_bytes text.new ≡ string_bytes text.old ++ (mark_lf ++ replies.now)) }
{
    text.push_str("%%\n")?;
    text.push_str(replies)?;
    Ok(())
}
