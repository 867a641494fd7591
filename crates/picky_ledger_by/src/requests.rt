//! Requests at a ledger, one after another, by a table of answers.

ghost use Rattle.std.specs.Prelude.{◌≡◌, ◌≤◌, ◌*◌, length, string_bytes};
ghost use Rattle.picky_ledger.specs.Run.{requests_in};
ghost use Rattle.picky_ledger.specs.Runs.{nonce_len};
ghost use Rattle.picky_ledger.specs.State.{IsLedger};
ghost use Rattle.picky_ledger_by.specs.Applied.{Comes};
ghost use Rattle.picky_ledger_by.specs.inner.Line.{IsWritten};

use crate::apply::{Applied, LedgerByError};
use crate::line::{NONCE_LEN, answer_line};
use picky_ask::Table;
use picky_keys::SshPublicKey;
use picky_ledger::Ledger;
use picky_text::LineReader;
use picky_wire::SizeError;
use std::alloc::Global;

/// The ledger's new text and the replies to the requests, which are the lines of a text that aren't empty; or the questions that the
/// table lacks. Refuses, in order: `QuestionTooLong`, `TooLong`.
pub fn answer_requests(
    alloc: Global,
    mut ledger: Ledger,
    issuer: &SshPublicKey,
    requests: &str,
    fresh: &[u8],
    table: &Table,
) -> Result<Applied, LedgerByError>
    requires enough { nonce_len * length (requests_in requests.now) ≤ length fresh.now }
    requires is { IsLedger ledger }
    ensures { Comes (record {
      entries = table.now;
      given = record { ledger = ledger; issuer = issuer.now; requests = requests_in requests.now };
    }) fresh.now result }
{
    let mut questions = Vec::new(alloc);
    let mut replies = String::new(alloc);
    let mut lines = LineReader::new(requests);
    let mut rest = fresh;
    'lines: while let Some(line) = lines.next_line() {
        if !line.is_empty() {
            let (front, after) = rest.split_at(NONCE_LEN);
            match answer_line(
                alloc,
                &mut ledger,
                issuer,
                line,
                front,
                table,
                &mut questions,
                &mut replies,
            ) {
                Ok(()) => rest = after,
                Err(e) => {
                    drop(ledger);
                    return Err(e);
                }
            }
        }
    }
    if questions.as_slice().is_empty() {
        return applied(alloc, ledger, replies);
    }
    drop(ledger);
    Ok(Applied::Questions(questions))
}

/// The ledger's text and the replies. Refuses: `TooLong`.
fn applied(alloc: Global, ledger: Ledger, replies: String) -> Result<Applied, LedgerByError>
    ensures { IsWritten ledger (string_bytes replies) result }
{
    match ledger.to_string(alloc) {
        Ok(text) => {
            drop(ledger);
            Ok(Applied::Ledger {
                text: text.into_string().into_bytes(),
                replies: replies.into_bytes(),
            })
        }
        Err(e) => {
            drop(ledger);
            match e {
                SizeError::TooLong => Err(LedgerByError::TooLong),
                SizeError::NoMemory => Err(LedgerByError::NoMemory),
            }
        }
    }
}
