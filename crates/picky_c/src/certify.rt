//! Certificates that are asked for: what is to be signed of one, and its line by answers.

ghost use Rattle.std.specs.Prelude.{◌≡◌, false};
ghost use Rattle.picky_wire_base.specs.Gives.{Gives};
ghost use Rattle.picky_ask.specs.Table.{table_of};
ghost use Rattle.picky_certify.specs.Certify.{IsCertifiedLine, certified_in, entries_in, given};
ghost use Rattle.picky_certify.specs.Certified.{GivesCertified, IfLine, SignedBy};
ghost use Rattle.picky_c.specs.Answer.{AnswersCall};
ghost use Rattle.picky_c.specs.Certify.{AnswersCertified, HandsCertified, certificate_draft_in, certify_refusal as certify_refusal_of};
ghost use Rattle.picky_c.specs.Given.{bytes_given};

use crate::answer::{PickyAnswer, hand, hand_out, refuse};
use crate::error::{PickyError, table_refusal};
use crate::given::{PickyBytes, bytes_of};
use picky_certify::{Certified, CertifyError, certificate_draft, certify_by};
use picky_target::ConvertError;
use std::alloc::Global;

/// The bytes that are to be signed of the certificate that the words ask of the key text, for the issuer whose text is given.
///
/// The words are options, each before its value, as those of `picky_issuing::options_of`. They are what `picky_certify_by` asks
/// a signature of. Refuses, in order: `WordNotUtf8`, `TooLong` by word; `IssuerNotUtf8`; `TextNotUtf8`; `BadWords`; `Issuer`; `Input`;
/// as `picky_conversion::write_signed_bytes`; and `BufferTooSmall`.
#[unsafe(no_mangle)]
pub extern "C" fn picky_certificate_draft(
    alloc: Global,
    words: &[PickyBytes<'_>],
    issuer: PickyBytes<'_>,
    key: PickyBytes<'_>,
    fresh: PickyBytes<'_>,
    out: &mut [u8],
) -> PickyAnswer
    ensures { AnswersCall
        (certificate_draft_in (given (bytes_given words.now) issuer.entry.bytes.now key.entry.bytes.now fresh.entry.bytes.now)) false
        (λ bytes. Unit {0}) result out.old out.new }
{
    let outcome = drafted(alloc, words, issuer.bytes, key.bytes, fresh.bytes);
    hand(outcome, out)
}

/// The line of that certificate, with the answers' first signature of exactly these bytes; or, with `Asked`, the question for one,
/// as bytes, where they have none.
///
/// Refuses, in order: `WordNotUtf8`, `TooLong` by word; `IssuerNotUtf8`; `TextNotUtf8`; `Answers` as `picky_ask::Table::read`;
/// `BadWords`; `Issuer`; `Input`; as `picky_conversion::write_certificate`; `TooLong`, where no bytes say the question; and
/// `BufferTooSmall`, also where a question has no room.
#[unsafe(no_mangle)]
pub extern "C" fn picky_certify_by(
    alloc: Global,
    words: &[PickyBytes<'_>],
    issuer: PickyBytes<'_>,
    key: PickyBytes<'_>,
    fresh: PickyBytes<'_>,
    answers: PickyBytes<'_>,
    out: &mut [u8],
) -> PickyAnswer
    ensures { AnswersCertified
        (given (bytes_given words.now) issuer.entry.bytes.now key.entry.bytes.now fresh.entry.bytes.now) answers.entry.bytes.now
        result out.old out.new }
{
    let outcome = certified(
        alloc,
        words,
        issuer.bytes,
        key.bytes,
        fresh.bytes,
        answers.bytes,
    );
    hand_certified(outcome, out)
}

/// The bytes that are to be signed.
fn drafted(
    alloc: Global,
    words: &[PickyBytes<'_>],
    issuer: &[u8],
    key: &[u8],
    fresh: &[u8],
) -> Result<Vec<u8>, PickyError>
    ensures { Gives PickyError.NoMemory (λ bytes. bytes.items) result
        (certificate_draft_in (given (bytes_given words.now) issuer.now key.now fresh.now)) }
{
    let words = match bytes_of(alloc, words) {
        Ok(words) => words,
        Err(e) => return Err(e),
    };
    let outcome = certificate_draft(alloc, words.as_slice(), issuer, key, fresh);
    drop(words);
    match outcome {
        Ok(bytes) => Ok(bytes),
        Err(e) => Err(certify_refusal(e)),
    }
}

/// The line, or the question for its signature.
fn certified(
    alloc: Global,
    words: &[PickyBytes<'_>],
    issuer: &[u8],
    key: &[u8],
    fresh: &[u8],
    answers: &[u8],
) -> Result<Certified, CertifyError>
    ensures gives { GivesCertified (certified_in (given (bytes_given words.now) issuer.now key.now fresh.now) answers.now)
        (entries_in (table_of answers.now)) result }
    ensures means { IfLine result (IsCertifiedLine (SignedBy (entries_in (table_of answers.now)))
        (given (bytes_given words.now) issuer.now key.now fresh.now)) }
{
    match bytes_of(alloc, words) {
        Ok(words) => {
            let outcome = certify_by(alloc, words.as_slice(), issuer, key, fresh, answers);
            drop(words);
            outcome
        }
        Err(e) => {
            drop(e);
            Err(CertifyError::NoMemory)
        }
    }
}

/// Hands out what a round of certifying comes to.
fn hand_certified(outcome: Result<Certified, CertifyError>, out: &mut [u8]) -> PickyAnswer
    ensures { HandsCertified outcome result out.old out.new }
{
    match outcome {
        Ok(Certified::Line(bytes)) => hand_out(0, bytes.as_slice(), out),
        Ok(Certified::Question(bytes)) => hand_out(13, bytes.as_slice(), out),
        Err(e) => refuse(certify_refusal(e)),
    }
}

/// A refusal of certifying as a call's.
fn certify_refusal(e: CertifyError) -> PickyError
    ensures { result ≡ certify_refusal_of e }
{
    match e {
        CertifyError::WordNotUtf8 => PickyError::WordNotUtf8,
        CertifyError::IssuerNotUtf8 => PickyError::IssuerNotUtf8,
        CertifyError::KeyNotUtf8 => PickyError::TextNotUtf8,
        CertifyError::Answers(e) => table_refusal(e),
        CertifyError::Words => PickyError::BadWords,
        CertifyError::Refused(e) => PickyError::Refused(e),
        CertifyError::TooLong => PickyError::Refused(ConvertError::TooLong),
        CertifyError::NoMemory => PickyError::NoMemory,
    }
}
