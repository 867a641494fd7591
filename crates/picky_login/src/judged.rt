//! What a login is judged to be by a table of verdicts.

ghost use Rattle.std.specs.Prelude.{◌≡◌, MatchResult, Ok, Err};
ghost use Rattle.picky_wire_base.specs.Outcome.{and_then};
ghost use Rattle.picky_authorized.specs.Entries.{AreFit};
ghost use Rattle.picky_login.specs.Judged.{AsksUnsayable, GivesLogin, HasUnsayableQuestion, IsUnanswered, LeavesQuestion};
ghost use Rattle.picky_login.specs.Judged.{by_question, by_verdict as by_verdict_of, judged_shown, outcome, question_for};

use crate::error::LoginError;
use crate::login::Login;
use crate::printed::decided_login;
use crate::trusting::Trusting;
use crate::verdict::verdict_of;
use picky_ask::{Question, Table};
use picky_ask_verifier::NoVerdict;
use picky_authorized::AuthEntry;
use picky_policy::{DecideError, Decision, Denial, Grant, Offer, decide};
use picky_wire::{List, NoMemory, SizeError, Timestamp};
use std::alloc::Global;

/// What the offer comes to as the user at the moment. The table is asked only where no rule before the signature's fails.
///
/// Refuses, in order: `WrongLength`, `UnknownByte`; `TooLong`, where no bytes say the question.
pub fn judged_login(
    alloc: Global,
    entries: &List<AuthEntry>,
    offer: &Offer,
    user: &str,
    moment: Timestamp,
    table: &Table,
) -> Result<Login, LoginError>
    requires { AreFit entries.now }
    ensures { GivesLogin (outcome entries.now offer.now user.now moment table.now)
        (AsksUnsayable entries.now offer.now user.now moment) result }
{
    let mut verifier = Trusting;
    match decide(alloc, entries, offer, user, moment, &mut verifier) {
        Ok(Decision::Granted(grant)) => granted_login(alloc, offer, grant, table),
        Ok(Decision::Denied(why)) => said(decided_login(alloc, offer, Decision::Denied(why))),
        Err(DecideError::NoMemory) => Err(LoginError::NoMemory),
        Err(DecideError::VerifierFault) => unreachable!(),
    }
}

/// What an offer comes to that the rules let in, but for the signature's.
///
/// Refuses, in order: as `judged_login`.
fn granted_login(
    alloc: Global,
    offer: &Offer,
    grant: Grant,
    table: &Table,
) -> Result<Login, LoginError>
    ensures { GivesLogin (and_then (by_question grant (question_for offer.now) table.now) (λ j. Ok (judged_shown offer.now j)))
        (HasUnsayableQuestion offer.now) result }
{
    match offer {
        Offer::Key(_) => said(decided_login(alloc, offer, Decision::Granted(grant))),
        Offer::Certificate(certificate, message) => {
            match verdict_of(alloc, table, certificate, message.as_slice()) {
                Ok(good) => said(decided_login(alloc, offer, by_verdict(grant, good))),
                Err(reason) => {
                    drop(grant);
                    unanswered(alloc, reason)
                }
            }
        }
    }
}

/// The decision where no rule before the signature's fails.
fn by_verdict(grant: Grant, good: bool) -> Decision
    ensures { result ≡ by_verdict_of grant good }
{
    if good {
        return Decision::Granted(grant);
    }
    drop(grant);
    Decision::Denied(Denial::BadSignature)
}

/// The login, where there was memory for it. Refuses: `NoMemory`.
fn said(login: Result<Login, NoMemory>) -> Result<Login, LoginError>
    ensures { MatchResult login (λ l. result ≡ Ok l) (λ e. result ≡ Err LoginError.NoMemory) }
{
    match login {
        Ok(login) => Ok(login),
        Err(NoMemory) => Err(LoginError::NoMemory),
    }
}

/// What a login comes to, by why the table has no verdict.
fn unanswered(alloc: Global, reason: NoVerdict) -> Result<Login, LoginError>
    ensures { IsUnanswered reason result }
{
    match reason {
        NoVerdict::Asked(question) => {
            let left = question_left(alloc, &question);
            drop(question);
            left
        }
        NoVerdict::WrongLength => Err(LoginError::WrongLength),
        NoVerdict::UnknownByte => Err(LoginError::UnknownByte),
        NoVerdict::TooLong => Err(LoginError::TooLong),
        NoVerdict::NoMemory => Err(LoginError::NoMemory),
    }
}

/// The question's bytes. Refuses, in order: `TooLong`.
fn question_left(alloc: Global, question: &Question) -> Result<Login, LoginError>
    ensures { LeavesQuestion question.now result }
{
    match question.to_bytes(alloc) {
        Ok(bytes) => Ok(Login::Question(bytes)),
        Err(SizeError::TooLong) => Err(LoginError::TooLong),
        Err(SizeError::NoMemory) => Err(LoginError::NoMemory),
    }
}
