//! What is answered for the bytes of a source.

ghost use Rattle.std.specs.Prelude.{◌≡◌, ◌≢◌, ◌⊎◌, ℕ, List, Some, Err, IfErr, IfOk, false};
ghost use Rattle.std.specs.Option.{option_copied};
ghost use Rattle.picky_wire_base.specs.Outcome.{map_err, map_ok};
ghost use Rattle.picky_wire.specs.Count.{Rose};
ghost use Rattle.picky_wire_base.specs.Gives.{Gives};
ghost use Rattle.picky_suite.specs.Asked.{IsAskedAtMost};
ghost use Rattle.picky_input.specs.Extent.{LeavesDevice, ReadsInput};
ghost use Rattle.picky_authorized.specs.Entries.{entries_in};
ghost use Rattle.picky_policy.specs.Command.{asked_by, Deciding};
ghost use Rattle.picky_policy.specs.Decided.{verifier_asks};
ghost use Rattle.picky_policy.specs.Offer.{message_of, offer_in};
ghost use Rattle.picky_policy.specs.Printed.{decision_text as decision_text_of, message_text as message_text_of};
ghost use Rattle.picky_policy.specs.Run.{asks_with, bad_offer, file_or_none, is_asked, offered_in, IsSpared};
ghost use Rattle.picky_policy.specs.Verifies.{KeepsVerified};
ghost use Rattle.picky_policy.specs.inner.Comes.{answer_shown, decision_status, extent_for, AnswersOffer};
ghost use Rattle.picky_policy.specs.inner.Comes.{AnswersText, Comes};

use crate::command::Command;
use crate::deciding::{DecideError, decide};
use crate::decision::Decision;
use crate::offer::Offer;
use crate::printed::{decision_text, message_text};
use crate::status::{PolicyStatus, source_status};
use crate::verifier::Verifier;
use picky_authorized::read_keys;
use picky_input::take_text;
use picky_issuing::parts_of;
use picky_key_text::ReadError;
use picky_wire::{Source, Timestamp};
use std::alloc::Global;

/// The text that is to be written, and the status once it is.
#[derive(Drop)]
pub struct Answer {
    pub status: PolicyStatus,
    pub text: String,
}

/// What is answered for all bytes that the source has left, or why nothing is.
///
/// Refuses, in order: `ReadFault`, `InputTooLong`, `InputNotUtf8`, `BadOffer`, `OutsideFault`.
pub(crate) fn take_answer<V: Verifier, I: Source>(
    alloc: Global,
    command: Command<'_>,
    verifier: &mut V,
    source: &mut I,
) -> Result<Answer, PolicyStatus>
    ensures comes { I.tells source.old → Comes (V.verifies verifier.old) (asked_by command.entry) (I.left source.old)
        (Rose (I.faults source.old) (I.faults source.new)) (Rose (V.faults verifier.old) (V.faults verifier.new))
        (map_ok answer_shown result) }
    ensures comes_for_some { (input : List ℕ) × Comes (V.verifies verifier.old) (asked_by command.entry) input
        (Rose (I.faults source.old) (I.faults source.new)) (Rose (V.faults verifier.old) (V.faults verifier.new))
        (map_ok answer_shown result) }
    ensures source { ReadsInput I.tells I.left I.faults (extent_for result) source.old source.new }
    ensures verifier { LeavesDevice (KeepsVerified (V.verifies verifier.old) (V.verifies verifier.new)) V.faults
        (result ≡ Err PolicyStatus.OutsideFault)
        (IsSpared (Some (asked_by command.entry)) (I.tells source.old) (I.left source.old)) verifier.old verifier.new }
    ensures asked { IsAskedAtMost 1 V.calls verifier.old verifier.new }
{
    match take_text(alloc, source) {
        Ok(text) => {
            let answer = answer_to(alloc, command, verifier, text.as_str());
            drop(text);
            answer
        }
        Err(e) => Err(source_status(e)),
    }
}

/// What is answered for a text. Refuses, in order: `BadOffer`, `OutsideFault`.
fn answer_to<V: Verifier>(
    alloc: Global,
    command: Command<'_>,
    verifier: &mut V,
    text: &str,
) -> Result<Answer, PolicyStatus>
    ensures answers { AnswersText (V.verifies verifier.old) (asked_by command.entry) text.now
        (Rose (V.faults verifier.old) (V.faults verifier.new)) (map_ok answer_shown result) }
    ensures kept { KeepsVerified (V.verifies verifier.old) (V.verifies verifier.new) }
    ensures calm { result ≢ Err PolicyStatus.OutsideFault → V.faults verifier.new ≡ V.faults verifier.old }
    ensures unasked { asks_with (asked_by command.entry) text.now (offered_in text.now) ≡ false → verifier.new ≡ verifier.old }
    ensures asked { IsAskedAtMost 1 V.calls verifier.old verifier.new }
{
    let cut = parts_of(text);
    match take_offer(alloc, cut.key) {
        Ok(offer) => {
            let answer = answer_offer(alloc, command, verifier, file_of(cut.issuer), &offer);
            drop(offer);
            answer
        }
        Err(status) => Err(status),
    }
}

/// What stands before the mark; nothing, where there is no mark.
fn file_of(issuer: Option<&str>) -> &str
    ensures { result.now ≡ file_or_none (option_copied issuer.entry) }
{
    match issuer {
        Some(file) => file,
        None => "",
    }
}

/// The offer of a text. Refuses: `BadOffer`.
fn take_offer(alloc: Global, text: &str) -> Result<Offer, PolicyStatus>
    ensures { Gives PolicyStatus.NoMemory (λ offer. offer) result (map_err bad_offer (offer_in text.now)) }
{
    match Offer::from_str(alloc, text) {
        Ok(offer) => Ok(offer),
        Err(e) => Err(unread(e)),
    }
}

/// The status of an offer that isn't read.
fn unread(e: ReadError) -> PolicyStatus
    ensures two { (result ≡ PolicyStatus.NoMemory) ⊎ (result ≡ PolicyStatus.BadOffer) }
    ensures want { e ≡ ReadError.NoMemory → result ≡ PolicyStatus.NoMemory }
    ensures bad { e ≢ ReadError.NoMemory → result ≡ PolicyStatus.BadOffer }
{
    match e {
        ReadError::NoMemory => PolicyStatus::NoMemory,
        e => {
            drop(e);
            PolicyStatus::BadOffer
        }
    }
}

/// What is answered for an offer. Refuses: `OutsideFault`.
fn answer_offer<V: Verifier>(
    alloc: Global,
    command: Command<'_>,
    verifier: &mut V,
    file: &str,
    offer: &Offer,
) -> Result<Answer, PolicyStatus>
    ensures answers { AnswersOffer (V.verifies verifier.old) (asked_by command.entry) file.now offer.now
        (Rose (V.faults verifier.old) (V.faults verifier.new)) (map_ok answer_shown result) }
    ensures kept { KeepsVerified (V.verifies verifier.old) (V.verifies verifier.new) }
    ensures calm { result ≢ Err PolicyStatus.OutsideFault → V.faults verifier.new ≡ V.faults verifier.old }
    ensures unasked { is_asked (asked_by command.entry) file.now offer.now ≡ false → verifier.new ≡ verifier.old }
    ensures asked { IsAskedAtMost 1 V.calls verifier.old verifier.new }
{
    match command {
        Command::Deciding { user, moment } => decided(alloc, verifier, file, offer, user, moment),
        Command::Printing => printed(alloc, offer),
    }
}

/// The line of what is signed of an offer. Refuses: `NoMemory`.
fn printed(alloc: Global, offer: &Offer) -> Result<Answer, PolicyStatus>
    ensures line { IfOk result (λ answer. answer_shown answer ≡ (PolicyStatus.Message, message_text_of (message_of offer.now))) }
    ensures want { IfErr result (λ status. status ≡ PolicyStatus.NoMemory) }
{
    let text = message_text(alloc, offer.message())?;
    Ok(Answer {
        status: PolicyStatus::Message,
        text,
    })
}

/// The lines of the decision on an offer. Refuses: `OutsideFault`.
fn decided<V: Verifier>(
    alloc: Global,
    verifier: &mut V,
    file: &str,
    offer: &Offer,
    user: &str,
    moment: Timestamp,
) -> Result<Answer, PolicyStatus>
    ensures answers { AnswersOffer (V.verifies verifier.old) (Deciding user.now moment) file.now offer.now
        (Rose (V.faults verifier.old) (V.faults verifier.new)) (map_ok answer_shown result) }
    ensures kept { KeepsVerified (V.verifies verifier.old) (V.verifies verifier.new) }
    ensures calm { result ≢ Err PolicyStatus.OutsideFault → V.faults verifier.new ≡ V.faults verifier.old }
    ensures unasked { verifier_asks (entries_in file.now) offer.now user.now moment ≡ false → verifier.new ≡ verifier.old }
    ensures asked { IsAskedAtMost 1 V.calls verifier.old verifier.new }
{
    match read_keys(alloc, file) {
        Ok(entries) => {
            let decision = decide(alloc, &entries, offer, user, moment, verifier);
            drop(entries);
            match decision {
                Ok(decision) => {
                    let answer = decision_answer(alloc, &decision);
                    drop(decision);
                    answer
                }
                Err(DecideError::VerifierFault) => Err(PolicyStatus::OutsideFault),
                Err(DecideError::NoMemory) => Err(PolicyStatus::NoMemory),
            }
        }
        // A source's text is never too long.
        Err(_) => Err(PolicyStatus::NoMemory),
    }
}

/// The lines of a decision. Refuses: `NoMemory`.
fn decision_answer(alloc: Global, decision: &Decision) -> Result<Answer, PolicyStatus>
    ensures lines { IfOk result (λ answer. answer_shown answer ≡ (decision_status decision.now, decision_text_of decision.now)) }
    ensures want { IfErr result (λ status. status ≡ PolicyStatus.NoMemory) }
{
    let text = decision_text(alloc, decision)?;
    Ok(Answer {
        status: status_of(decision),
        text,
    })
}

/// How a run ends that wrote a decision.
fn status_of(decision: &Decision) -> PolicyStatus
    ensures { result ≡ decision_status decision.now }
{
    match decision {
        Decision::Granted(_) => PolicyStatus::Granted,
        Decision::Denied(_) => PolicyStatus::Denied,
    }
}
