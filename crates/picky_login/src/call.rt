//! A login by answers.

ghost use Rattle.picky_authorized.specs.Entries.{AreFit};
ghost use Rattle.picky_ask_verifier.specs.Verdicts.{Agrees, SignatureTest};
ghost use Rattle.picky_login.specs.Judged.{GivesLogin};
ghost use Rattle.picky_login.specs.Login.{HasUnsayable, HasUnsayableOver, HasUnsayableIn, IfAsked, IfDecided, answers_of};
ghost use Rattle.picky_login.specs.Login.{login_by, login_given, login_in, login_over as login_over_entries};

use crate::error::{LoginError, keys_refusal, offer_refusal, table_refusal};
use crate::judged::judged_login;
use crate::login::Login;
use picky_ask::Table;
use picky_authorized::{AuthEntry, read_keys};
use picky_policy::Offer;
use picky_utf8::as_text;
use picky_wire::{List, Timestamp};
use std::alloc::Global;

/// Whether the offer gets in by the authorized keys, as the user at the moment, in seconds since 1970-01-01T00:00:00Z; or the
/// question whether its issuer's signature is good, which is asked only where no other rule fails.
///
/// The lines are those of `decision_text` of `picky_policy`, and `key SHA256:..`, the fingerprint of the key that is offered, of
/// a certificate that of its subject's key. Each text is an argument of its own: no line `%%` is looked for. Refuses, in order:
/// `AuthorizedNotUtf8`, `OfferNotUtf8`, `UserNotUtf8`; `Answers`, as `Table::read`; `AuthorizedTooLong`; `Offer`, as
/// `Offer::from_str`; `WrongLength`, `UnknownByte`; `TooLong`, where no bytes say the question.
pub fn decide_login(
    alloc: Global,
    authorized: &[u8],
    offer: &[u8],
    user: &[u8],
    moment: u64,
    answers: &[u8],
) -> Result<Login, LoginError>
    ghost test: { SignatureTest }
    ensures gives { GivesLogin (login_in (login_given authorized.now offer.now user.now moment answers.now))
        (HasUnsayable (login_given authorized.now offer.now user.now moment answers.now)) result }

    // Where the test says each verdict of the answers, the decision is that under the signatures that it calls good.
    ensures decided { Agrees test (answers_of (login_given authorized.now offer.now user.now moment answers.now))
        → IfDecided test (login_given authorized.now offer.now user.now moment answers.now) result }

    // A question is that of the issuer's signature, and no answer answers it.
    ensures asked { IfAsked (login_given authorized.now offer.now user.now moment answers.now) result }
{
    login_of_bytes(alloc, authorized, offer, user, moment, answers)
}

/// The same of bytes that may be no texts.
fn login_of_bytes(
    alloc: Global,
    authorized: &[u8],
    offer: &[u8],
    user: &[u8],
    moment: u64,
    answers: &[u8],
) -> Result<Login, LoginError>
    ensures { GivesLogin (login_in (login_given authorized.now offer.now user.now moment answers.now))
        (HasUnsayable (login_given authorized.now offer.now user.now moment answers.now)) result }
{
    let authorized = match as_text(authorized) {
        Some(text) => text,
        None => return Err(LoginError::AuthorizedNotUtf8),
    };
    let offer = match as_text(offer) {
        Some(text) => text,
        None => return Err(LoginError::OfferNotUtf8),
    };
    let user = match as_text(user) {
        Some(text) => text,
        None => return Err(LoginError::UserNotUtf8),
    };
    match Table::read(alloc, answers) {
        Ok(table) => {
            let login = login_of_texts(alloc, authorized, offer, user, moment, &table);
            drop(table);
            login
        }
        Err(e) => Err(table_refusal(e)),
    }
}

/// The same of texts, by a table.
fn login_of_texts(
    alloc: Global,
    authorized: &str,
    offer: &str,
    user: &str,
    moment: u64,
    table: &Table,
) -> Result<Login, LoginError>
    ensures { GivesLogin (login_by authorized.now offer.now user.now moment table.now)
        (HasUnsayableIn authorized.now offer.now user.now moment) result }
{
    match read_keys(alloc, authorized) {
        Ok(entries) => {
            let login = login_over(alloc, &entries, offer, user, moment, table);
            drop(entries);
            login
        }
        Err(e) => Err(keys_refusal(e)),
    }
}

/// The same over the entries of the authorized keys.
fn login_over(
    alloc: Global,
    entries: &List<AuthEntry>,
    offer: &str,
    user: &str,
    moment: u64,
    table: &Table,
) -> Result<Login, LoginError>
    requires { AreFit entries.now }
    ensures { GivesLogin (login_over_entries entries.now offer.now user.now moment table.now)
        (HasUnsayableOver entries.now offer.now user.now moment) result }
{
    match Offer::from_str(alloc, offer) {
        Ok(offer) => {
            let login = judged_login(alloc, entries, &offer, user, Timestamp(moment), table);
            drop(offer);
            login
        }
        Err(e) => Err(offer_refusal(e)),
    }
}
