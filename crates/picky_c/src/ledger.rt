//! Requests at a ledger, whose signatures the caller has made.

ghost use Rattle.std.specs.Prelude.{◌≡◌};
ghost use Rattle.picky_wire_base.specs.Gives.{Gives};
ghost use Rattle.picky_c.specs.Ledger.{AnswersRequests, ledger_given, ledger_told, refused_told, replies_told};
ghost use Rattle.picky_c.specs.Told.{seen};

use crate::answer::PickyAnswer;
use crate::error::{AnswersError, PickyError, table_refusal};
use crate::given::PickyBytes;
use crate::told::{Told, asked, hand_told, told_of, whole};
use picky_key_text::ReadError;
use picky_ledger::LedgerTextError;
use picky_ledger_by::{Applied, LedgerByError, apply_requests};
use picky_target::ConvertError;
use std::alloc::Global;

/// The new text of a ledger to which requests were applied; or, with `Asked`, the questions that the answers lack, for all requests
/// at once. Who answers each and calls again is asked no more (`picky_ledger_by::laws::two_calls_are_enough`).
///
/// Refuses, in order, as `picky_ledger_by::apply_requests`; with `BadLine` the number of a ledger's line comes, in decimal.
#[unsafe(no_mangle)]
pub extern "C" fn picky_ledger_apply(
    alloc: Global,
    ledger: PickyBytes<'_>,
    issuer: PickyBytes<'_>,
    requests: PickyBytes<'_>,
    fresh: PickyBytes<'_>,
    answers: PickyBytes<'_>,
    out: &mut [u8],
) -> PickyAnswer
    ensures { AnswersRequests ledger_told (ledger_given ledger.entry.bytes.now issuer.entry.bytes.now requests.entry.bytes.now
        fresh.entry.bytes.now answers.entry.bytes.now) result out.old out.new }
{
    let applied = apply_requests(
        alloc,
        ledger.bytes,
        issuer.bytes,
        requests.bytes,
        fresh.bytes,
        answers.bytes,
    );
    hand_told(tell_ledger(alloc, applied), out)
}

/// The replies to the requests, a line each, where the same call of `picky_ledger_apply` hands out the ledger's text; else the same
/// as that.
#[unsafe(no_mangle)]
pub extern "C" fn picky_ledger_replies(
    alloc: Global,
    ledger: PickyBytes<'_>,
    issuer: PickyBytes<'_>,
    requests: PickyBytes<'_>,
    fresh: PickyBytes<'_>,
    answers: PickyBytes<'_>,
    out: &mut [u8],
) -> PickyAnswer
    ensures { AnswersRequests replies_told (ledger_given ledger.entry.bytes.now issuer.entry.bytes.now requests.entry.bytes.now
        fresh.entry.bytes.now answers.entry.bytes.now) result out.old out.new }
{
    let applied = apply_requests(
        alloc,
        ledger.bytes,
        issuer.bytes,
        requests.bytes,
        fresh.bytes,
        answers.bytes,
    );
    hand_told(tell_replies(alloc, applied), out)
}

/// The new ledger's text, or the questions. Refuses as `tell_refusal`.
fn tell_ledger(alloc: Global, applied: Result<Applied, LedgerByError>) -> Result<Told, PickyError>
    ensures { Gives PickyError.NoMemory seen result (ledger_told applied) }
{
    match applied {
        Ok(Applied::Ledger { text, replies }) => {
            drop(replies);
            Ok(whole(text))
        }
        Ok(Applied::Questions(bytes)) => Ok(asked(bytes)),
        Err(e) => tell_refusal(alloc, e),
    }
}

/// The replies, or the questions. Refuses as `tell_refusal`.
fn tell_replies(alloc: Global, applied: Result<Applied, LedgerByError>) -> Result<Told, PickyError>
    ensures { Gives PickyError.NoMemory seen result (replies_told applied) }
{
    match applied {
        Ok(Applied::Ledger { text, replies }) => {
            drop(text);
            Ok(whole(replies))
        }
        Ok(Applied::Questions(bytes)) => Ok(asked(bytes)),
        Err(e) => tell_refusal(alloc, e),
    }
}

/// A refusal as a call's; of a bad line its number is told.
fn tell_refusal(alloc: Global, e: LedgerByError) -> Result<Told, PickyError>
    ensures { Gives PickyError.NoMemory seen result (refused_told e) }
{
    match e {
        LedgerByError::LedgerNotUtf8 => Err(PickyError::LedgerNotUtf8),
        LedgerByError::IssuerNotUtf8 => Err(PickyError::IssuerNotUtf8),
        LedgerByError::RequestsNotUtf8 => Err(PickyError::RequestsNotUtf8),
        LedgerByError::Answers(e) => Err(table_refusal(e)),
        LedgerByError::Ledger(LedgerTextError::BadLine(line)) => {
            told_of(alloc, PickyError::BadLine, line)
        }
        LedgerByError::Ledger(LedgerTextError::TooLong) => {
            Err(PickyError::Refused(ConvertError::TooLong))
        }
        LedgerByError::Ledger(LedgerTextError::NoMemory) => Err(PickyError::NoMemory),
        LedgerByError::Issuer(e) => {
            Err(PickyError::Refused(ConvertError::Issuer(ReadError::Public(e))))
        }
        LedgerByError::FreshTooShort => Err(PickyError::Refused(ConvertError::FreshTooShort)),
        LedgerByError::QuestionTooLong => Err(PickyError::Answers(AnswersError::TooLong)),
        LedgerByError::TooLong => Err(PickyError::Refused(ConvertError::TooLong)),
        LedgerByError::NoMemory => Err(PickyError::NoMemory),
    }
}
