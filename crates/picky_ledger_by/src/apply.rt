//! Requests applied to a ledger, by bytes.

ghost use Rattle.std.specs.Prelude.{◌≡◌};
ghost use Rattle.picky_ledger.specs.Run.{requests_in};
ghost use Rattle.picky_ledger.specs.State.{IsLedger};
ghost use Rattle.picky_ledger_by.specs.Applied.{ComesOf, GivesApplied, asked_by, if_fresh, issuer_refusal as refusal_of_issuer};
ghost use Rattle.picky_ledger_by.specs.Applied.{table_refusal as refusal_of_table, text_refusal as refusal_of_text};

use crate::line::NONCE_LEN;
use crate::requests::answer_requests;
use picky_ask::{Table, TableError};
use picky_keys::{SshPublicKey, SshPublicKeyError};
use picky_ledger::{Ledger, LedgerTextError, count_of};
use picky_utf8::as_text;
use std::alloc::Global;

/// What requests come to.
#[derive(Debug, Drop)]
pub enum Applied {
    /// The new ledger's text, and a line for each request.
    Ledger { text: Vec<u8>, replies: Vec<u8> },
    /// The questions that the answers lack, each as a string: a uint32 and so many bytes.
    Questions(Vec<u8>),
}

/// Why requests come to nothing.
#[derive(Debug, Drop)]
pub enum LedgerByError {
    /// The ledger's text isn't UTF-8.
    LedgerNotUtf8,
    /// The issuer's line isn't.
    IssuerNotUtf8,
    /// The request lines aren't.
    RequestsNotUtf8,
    /// The answers are no table.
    Answers(TableError),
    /// The ledger's text is none.
    Ledger(LedgerTextError),
    /// The issuer's public key line is refused.
    Issuer(SshPublicKeyError),
    /// There are fewer than 32 fresh bytes for each request.
    FreshTooShort,
    /// A question has 2^32 bytes or more.
    QuestionTooLong,
    /// The new ledger's text has 2^32 bytes or more.
    TooLong,
    /// Memory ran out.
    NoMemory,
}

/// Applies requests to a ledger, and hands out its new text and the replies; or, where the answers lack signatures, the questions
/// for all of them at once, with nothing issued. A caller answers them, and calls again with the same bytes and more answers.
///
/// `ledger` is a ledger's text, `issuer` a public key line, and `requests` request lines, of which empty ones are skipped; the nonce
/// of each is 32 of the fresh bytes, in order. `answers` is a table of `picky_ask`. Refuses, in order: `LedgerNotUtf8`,
/// `IssuerNotUtf8`, `RequestsNotUtf8`, `Answers`, `Ledger`, `Issuer`, `FreshTooShort`, `QuestionTooLong`, `TooLong`; `NoMemory`.
pub fn apply_requests(
    alloc: Global,
    ledger: &[u8],
    issuer: &[u8],
    requests: &[u8],
    fresh: &[u8],
    answers: &[u8],
) -> Result<Applied, LedgerByError>
    ensures gives { GivesApplied (record {
      ledger = ledger.now;
      issuer = issuer.now;
      requests = requests.now;
      fresh = fresh.now;
      answers = answers.now;
    }) result }
{
    let ledger = match as_text(ledger) {
        Some(ledger) => ledger,
        None => return Err(LedgerByError::LedgerNotUtf8),
    };
    let issuer = match as_text(issuer) {
        Some(issuer) => issuer,
        None => return Err(LedgerByError::IssuerNotUtf8),
    };
    let requests = match as_text(requests) {
        Some(requests) => requests,
        None => return Err(LedgerByError::RequestsNotUtf8),
    };
    match Table::read(alloc, answers) {
        Ok(table) => {
            let applied = apply_by(alloc, ledger, issuer, requests, fresh, &table);
            drop(table);
            applied
        }
        Err(e) => Err(table_refusal(e)),
    }
}

/// The same of texts and a table. Refuses, in order: `Ledger`, `Issuer`, and as `apply_enough`.
fn apply_by(
    alloc: Global,
    ledger: &str,
    issuer: &str,
    requests: &str,
    fresh: &[u8],
    table: &Table,
) -> Result<Applied, LedgerByError>
    ensures { ComesOf (asked_by table.now ledger.now issuer.now requests.now fresh.now) fresh.now result }
{
    match Ledger::from_str(alloc, ledger) {
        Ok(ledger) => match SshPublicKey::from_str(alloc, issuer) {
            Ok(issuer) => {
                let applied = apply_enough(alloc, ledger, &issuer, requests, fresh, table);
                drop(issuer);
                applied
            }
            Err(e) => {
                drop(ledger);
                Err(issuer_refusal(e))
            }
        },
        Err(e) => Err(text_refusal(e)),
    }
}

/// The same of a ledger and its issuer. Refuses, in order: `FreshTooShort`, and as `answer_requests`.
fn apply_enough(
    alloc: Global,
    ledger: Ledger,
    issuer: &SshPublicKey,
    requests: &str,
    fresh: &[u8],
    table: &Table,
) -> Result<Applied, LedgerByError>
    requires { IsLedger ledger }
    ensures { ComesOf (if_fresh fresh.now (record {
      entries = table.now;
      given = record { ledger = ledger; issuer = issuer.now; requests = requests_in requests.now };
    })) fresh.now result }
{
    if fresh.len() / NONCE_LEN < count_of(requests) {
        drop(ledger);
        return Err(LedgerByError::FreshTooShort);
    }
    answer_requests(alloc, ledger, issuer, requests, fresh, table)
}

/// Why answers are no table, where want of memory is the call's.
fn table_refusal(e: TableError) -> LedgerByError
    ensures { result ≡ refusal_of_table e }
{
    match e {
        TableError::NoMemory => LedgerByError::NoMemory,
        e => LedgerByError::Answers(e),
    }
}

/// The same of a ledger's text.
fn text_refusal(e: LedgerTextError) -> LedgerByError
    ensures { result ≡ refusal_of_text e }
{
    match e {
        LedgerTextError::NoMemory => LedgerByError::NoMemory,
        e => LedgerByError::Ledger(e),
    }
}

/// The same of the issuer's line.
fn issuer_refusal(e: SshPublicKeyError) -> LedgerByError
    ensures { result ≡ refusal_of_issuer e }
{
    match e {
        SshPublicKeyError::NoMemory => {
            drop(e);
            LedgerByError::NoMemory
        }
        e => LedgerByError::Issuer(e),
    }
}
