//! The verdict of a certificate's signature, by a table of answers.

ghost use Rattle.std.specs.Prelude.{MatchResult, None, List, Option};
ghost use Rattle.picky_ask.specs.declared.question.Entry.{Entry as AnEntry};
ghost use Rattle.picky_ask_verifier.specs.Question.{verify_question};
ghost use Rattle.picky_ask_verifier.specs.Verdicts.{HasCause, SaysVerdict, nothing_good};

use picky_ask::Table;
use picky_ask_verifier::{AnsweredVerifier, KnownVerdicts, NoVerdict};
use picky_cert::SshCertificate;
use std::alloc::Global;

/// Who is told nothing of the answers.
struct Untold;

impl KnownVerdicts for Untold {
    ghost test = { nothing_good };

    ghost table = { None };
}

/// Whether the issuer's signature is good, by the table.
///
/// Refuses, in order: `TooLong`, `Asked`, `WrongLength`, `UnknownByte`.
pub fn verdict_of(
    alloc: Global,
    table: &Table,
    certificate: &SshCertificate,
    message: &[u8],
) -> Result<bool, NoVerdict>
    ensures { MatchResult result
        (SaysVerdict (verify_question certificate.now.signature_key.inner_key certificate.now.signature message.now) table.now)
        (HasCause (verify_question certificate.now.signature_key.inner_key certificate.now.signature message.now) table.now) }
{
    let mut verifier: AnsweredVerifier<'_, Untold> = AnsweredVerifier::new(alloc, table);
    match verifier.ask_verdict(
        &certificate.signature_key.inner_key,
        &certificate.signature,
        message,
    ) {
        Ok(good) => Ok(good),
        Err(_) => match verifier.into_missing() {
            Some(reason) => Err(reason),
            None => unreachable!(),
        },
    }
}
