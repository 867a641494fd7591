//! Certificates from an issuer's text and a key text, each a text of its own.

ghost use Rattle.std.specs.Prelude.{IfOk, map};
ghost use Rattle.picky_wire_base.specs.Gives.{Gives};
ghost use Rattle.picky_ask.specs.Table.{table_of};
ghost use Rattle.picky_cert_builder.specs.Drafted.{IsWholeDraft, draft_shown};
ghost use Rattle.picky_conversion.specs.inner.Signed.{IsReadBack};
ghost use Rattle.picky_certify.specs.Certify.{IsCertifiedLine, bytes_of_request, certified_in, certified_texts, certified_under, draft_in};
ghost use Rattle.picky_certify.specs.Certify.{drafted_texts, entries_in, given, if_texts, unsigned_of_request};
ghost use Rattle.picky_certify.specs.Certified.{GivesCertified, IfLine, SignedBy};

use crate::asked::{meaning_of, request_of};
use crate::error::{CertifyError, conversion_refusal, table_refusal};
use crate::signing::{Certified, sign_draft};
use crate::texts::texts_of;
use picky_ask::Table;
use picky_cert_builder::CertificateDraft;
use picky_conversion::{CertRequest, ConversionGiven, bytes_to_sign, draft_line, is_given};
use picky_suite::PlainSuite;
use picky_utf8::as_text;
use picky_wire::Text;
use std::alloc::Global;
use std::marker::Brand;

/// The bytes that a device signs of the certificate that the words ask of the key text, for the issuer whose text is given.
///
/// The words are options, each before its value, as those of `picky_issuing::options_of`. Both texts are read without a passphrase.
/// Refuses, in order: `WordNotUtf8`, `TooLong` by word; `IssuerNotUtf8`; `KeyNotUtf8`; `Words`; `Refused`: `Issuer` and then
/// `Input`, each as `picky_key_text::read_text`, and as `picky_conversion::write_signed_bytes`.
pub fn certificate_draft(
    alloc: Global,
    words: &[&[u8]],
    issuer: &[u8],
    key: &[u8],
    fresh: &[u8],
) -> Result<Vec<u8>, CertifyError>
    ensures { Gives CertifyError.NoMemory (λ bytes. bytes.items) result
        (draft_in (given (map (λ word. word.now) words.now) issuer.now key.now fresh.now)) }
{
    match texts_of(alloc, words) {
        Ok(texts) => {
            let bytes = draft_bytes(alloc, texts.as_slice(), issuer, key, fresh);
            drop(texts);
            bytes
        }
        Err(e) => Err(e),
    }
}

/// The same of words that are texts. Refuses, in order: `IssuerNotUtf8`, `KeyNotUtf8`, `Words`, `Refused`.
fn draft_bytes(
    alloc: Global,
    words: &[Text],
    issuer: &[u8],
    key: &[u8],
    fresh: &[u8],
) -> Result<Vec<u8>, CertifyError>
    ensures { Gives CertifyError.NoMemory (λ bytes. bytes.items) result
        (if_texts drafted_texts (given words.now issuer.now key.now fresh.now)) }
{
    let issuer = match as_text(issuer) {
        Some(issuer) => issuer,
        None => return Err(CertifyError::IssuerNotUtf8),
    };
    let key = match as_text(key) {
        Some(key) => key,
        None => return Err(CertifyError::KeyNotUtf8),
    };
    match request_of(alloc, words, issuer) {
        Ok(request) => signed_bytes(alloc, request, key, fresh),
        Err(e) => Err(e),
    }
}

/// The same of a request.
fn signed_bytes(
    alloc: Global,
    request: CertRequest,
    key: &str,
    fresh: &[u8],
) -> Result<Vec<u8>, CertifyError>
    ensures { Gives CertifyError.NoMemory (λ bytes. bytes.items) result (bytes_of_request request key.now fresh.now) }
{
    let mut suite = PlainSuite::new();
    let given = ConversionGiven {
        pass_in: None,
        pass_out: None,
        fresh,
    };
    match bytes_to_sign(alloc, &mut suite, key, request, given) {
        Ok(bytes) => Ok(bytes.into_vec()),
        Err(e) => Err(conversion_refusal(e)),
    }
}

/// The line of the certificate that the words ask of the key text, for the issuer whose text is given, with the answers' first
/// signature of exactly its signed bytes; or the question for that, as bytes, where they have none.
///
/// Refuses, in order: `WordNotUtf8`, `TooLong` by word; `IssuerNotUtf8`; `KeyNotUtf8`; `Answers`, as `picky_ask::Table::read`;
/// `Words`; `Refused`, as `certificate_draft` and `picky_conversion::write_certificate`; `TooLong`, where no bytes say the question.
pub fn certify_by(
    alloc: Global,
    words: &[&[u8]],
    issuer: &[u8],
    key: &[u8],
    fresh: &[u8],
    answers: &[u8],
) -> Result<Certified, CertifyError>
    ensures gives { GivesCertified (certified_in (given (map (λ word. word.now) words.now) issuer.now key.now fresh.now) answers.now)
        (entries_in (table_of answers.now)) result }
    ensures means { IfLine result (IsCertifiedLine (SignedBy (entries_in (table_of answers.now)))
        (given (map (λ word. word.now) words.now) issuer.now key.now fresh.now)) }
{
    is_given(None, None, fresh);
    certified(alloc, words, issuer, key, fresh, answers)
}

/// The same, without what follows from what is given.
fn certified(
    alloc: Global,
    words: &[&[u8]],
    issuer: &[u8],
    key: &[u8],
    fresh: &[u8],
    answers: &[u8],
) -> Result<Certified, CertifyError>
    ensures { GivesCertified (certified_in (given (map (λ word. word.now) words.now) issuer.now key.now fresh.now) answers.now)
        (entries_in (table_of answers.now)) result }
{
    match texts_of(alloc, words) {
        Ok(texts) => {
            let certified = certify_texts(alloc, texts.as_slice(), issuer, key, fresh, answers);
            drop(texts);
            certified
        }
        Err(e) => Err(e),
    }
}

/// The same of words that are texts. Refuses, in order: `IssuerNotUtf8`, `KeyNotUtf8`, `Answers`, `Words`, `Refused`, `TooLong`.
fn certify_texts(
    alloc: Global,
    words: &[Text],
    issuer: &[u8],
    key: &[u8],
    fresh: &[u8],
    answers: &[u8],
) -> Result<Certified, CertifyError>
    ensures { GivesCertified (if_texts (certified_under answers.now) (given words.now issuer.now key.now fresh.now))
        (entries_in (table_of answers.now)) result }
{
    let issuer = match as_text(issuer) {
        Some(issuer) => issuer,
        None => return Err(CertifyError::IssuerNotUtf8),
    };
    let key = match as_text(key) {
        Some(key) => key,
        None => return Err(CertifyError::KeyNotUtf8),
    };
    match Table::read(alloc, answers) {
        Ok(table) => {
            let certified = certify_over(alloc, words, issuer, key, fresh, &table);
            drop(table);
            certified
        }
        Err(e) => Err(table_refusal(e)),
    }
}

/// The same over a table. Refuses, in order: `Words`, `Refused`, `TooLong`.
fn certify_over(
    alloc: Global,
    words: &[Text],
    issuer: &str,
    key: &str,
    fresh: &[u8],
    table: &Table,
) -> Result<Certified, CertifyError>
    ensures { GivesCertified (certified_texts (given words.now issuer.now key.now fresh.now)) table.now result }
{
    match draft_of(alloc, words, issuer, key, fresh) {
        Ok(draft) => sign_draft::<Brand>(alloc, draft, table),
        Err(e) => Err(e),
    }
}

/// The certificate that is to be signed. Refuses, in order: `Words`, `Refused`.
fn draft_of(
    alloc: Global,
    words: &[Text],
    issuer: &str,
    key: &str,
    fresh: &[u8],
) -> Result<CertificateDraft, CertifyError>
    ensures gives { Gives CertifyError.NoMemory draft_shown result (certified_texts (given words.now issuer.now key.now fresh.now)) }
    ensures whole { IfOk result IsWholeDraft }
    ensures back { IfOk result (λ d. IsReadBack d.certificate) }
{
    match request_of(alloc, words, issuer) {
        Ok(request) => draft_request(alloc, request, key, fresh),
        Err(e) => Err(e),
    }
}

/// The same of a request. Refuses: `Refused`.
fn draft_request(
    alloc: Global,
    request: CertRequest,
    key: &str,
    fresh: &[u8],
) -> Result<CertificateDraft, CertifyError>
    ensures gives { Gives CertifyError.NoMemory draft_shown result (unsigned_of_request request key.now fresh.now) }
    ensures whole { IfOk result IsWholeDraft }
    ensures back { IfOk result (λ d. IsReadBack d.certificate) }
{
    match meaning_of(alloc, key) {
        Ok(meaning) => match draft_line(alloc, request, meaning, fresh) {
            Ok(draft) => Ok(draft),
            Err(e) => Err(conversion_refusal(e)),
        },
        Err(e) => {
            drop(request);
            Err(e)
        }
    }
}
