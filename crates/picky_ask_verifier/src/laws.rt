//! The laws of this crate, each as a function's contract.

ghost use Rattle.std.specs.Prelude.{◌≡◌, ◌↔◌, ◌++◌, ℕ, List, Bool, None, Some, Err, Option, IfOk};
ghost use Rattle.picky_keys.specs.declared.key.SshBasePublicKey.{SshBasePublicKey as BaseKey};
ghost use Rattle.picky_cert_parts.specs.declared.signature.SshSignature.{SshSignature as Signature};
ghost use Rattle.picky_authorized.specs.Entries.{AreFit};
ghost use Rattle.picky_policy.specs.Decided.{IsDecision};
ghost use Rattle.picky_ask.specs.declared.question.Entry.{Entry as AnEntry};
ghost use Rattle.picky_ask.specs.declared.question.Question.{Question as AQuestion};
ghost use Rattle.picky_ask.specs.Lookup.{answer_to};
ghost use Rattle.picky_ask_verifier.specs.Verdicts.{Agrees, IsGood, IsVerifierState, Passes, SaysVerdict, SignatureTest, VerifierState as AState};
ghost use Rattle.picky_ask_verifier.specs.declared.no_verdict.NoVerdict.TheVariants as reasons;

use crate::known_verdicts::KnownVerdicts;
use crate::no_verdict::NoVerdict;
use crate::verifier::AnsweredVerifier;
use picky_ask::Table;
use picky_authorized::AuthEntry;
use picky_policy::{DecideError, Decision, Offer, decide};
use picky_wire::{List, Text, Timestamp};
use std::alloc::Global;
use std::marker::Brand;

/// More answers behind a table change no verdict that it gave.
#[tactic(auto, using(picky_ask::proofs::TableLaws::answer_more))]
pub fn more_answers_change_no_verdict()
    ensures { (q : AQuestion) (entries more : List AnEntry) (good : Bool) → SaysVerdict q entries good
        → SaysVerdict q (entries ++ more) good }
{}

/// What a verifier asks isn't in its table.
pub fn what_is_asked_has_no_answer()
    ensures { (told : Option (List AnEntry)) (s : AState) (q : AQuestion) → IsVerifierState told s
        → s.missing ≡ Some (reasons.Asked q) → answer_to q s.entries ≡ None }
{}

/// Under a table whose verdicts a test says, the signatures are good that the test calls so.
#[tactic(auto, using(crate::proofs::VerdictLemmas::agrees_good))]
pub fn a_table_that_agrees_calls_the_same_good()
    ensures { (test : SignatureTest) (entries : List AnEntry) (key : BaseKey) (signature : Signature) (message : List ℕ)
        → Agrees test entries → Passes test key signature message ↔ IsGood test entries key signature message }
{}

/// Where a test says each verdict of the table, it is decided on the offer by the signatures that this test calls good. Whoever
/// hands the verifier to a longer call says the same of it so. Refuses: why there is no decision.
pub fn what_verdicts_decide_is_what_was_verified(
    alloc: Global,
    table: &Table,
    entries: &List<AuthEntry>,
    offer: &Offer,
    user: &Text,
    moment: Timestamp,
) -> Result<Decision, Option<NoVerdict>>
    ghost test: { SignatureTest }
    requires { AreFit entries.now }
    ensures decided { Agrees test table.now
        → IfOk result (λ decision. IsDecision (Passes test) entries.now offer.now user.now moment decision) }
    ensures asked { (q : AQuestion) → result ≡ Err (Some (NoVerdict.Asked q)) → answer_to q table.now ≡ None }
{
    decide_by::<Brand>(alloc, table, entries, offer, user, moment)
}

// Decides by the table's verdicts.
fn decide_by<K: KnownVerdicts>(
    alloc: Global,
    table: &Table,
    entries: &List<AuthEntry>,
    offer: &Offer,
    user: &Text,
    moment: Timestamp,
) -> Result<Decision, Option<NoVerdict>>
    requires told { K.table ≡ Some table.now }
    requires fit { AreFit entries.now }
    ensures decided { IfOk result (λ decision. IsDecision (IsGood K.test table.now) entries.now offer.now user.now moment decision) }
    ensures asked { (q : AQuestion) → result ≡ Err (Some (NoVerdict.Asked q)) → answer_to q table.now ≡ None }
{
    let mut verifier: AnsweredVerifier<'_, K> = AnsweredVerifier::new(alloc, table);
    match decide(alloc, entries, offer, user.as_str(), moment, &mut verifier) {
        Ok(decision) => Ok(decision),
        Err(DecideError::VerifierFault) => Err(verifier.into_missing()),
        Err(DecideError::NoMemory) => Err(Some(NoVerdict::NoMemory)),
    }
}
