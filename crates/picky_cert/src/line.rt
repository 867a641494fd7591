//! A certificate's line (sshd(8)), read.

ghost use Rattle.std.specs.Prelude.{◌≡◌, ◌≢◌, ◌^◌, ◌<◌, ℕ, List, Some, IfErr, length, not};
ghost use Rattle.std.specs.Option.{option_copied};
ghost use Rattle.picky_wire_base.specs.Front.{read_front};
ghost use Rattle.picky_wire_base.specs.Numbers.{IsBytes};
ghost use Rattle.picky_wire_base.specs.Outcome.{map_err, map_ok};
ghost use Rattle.picky_text.specs.Base64.{base64_of};
ghost use Rattle.picky_wire_base.specs.Gives.{Gives};
ghost use Rattle.picky_wire.specs.declared.error.IoKind.TheVariants as io_kinds;
ghost use Rattle.picky_keys.specs.LineRefusal.{is_short_text};
ghost use Rattle.picky_cert_parts.specs.declared.cert_key_type.SshCertKeyType.{SshCertKeyType as KeyType};
ghost use Rattle.picky_cert.specs.Certificate.{certificate, subject, subject_key};
ghost use Rattle.picky_cert.specs.CertRefusal.{cert_error};
ghost use Rattle.picky_cert.specs.Line.{bare_line};
ghost use Rattle.picky_cert.specs.LineRefusal.{blob_certificate, body_certificate, cert_line_meaning, word_type};
ghost use Rattle.picky_cert.specs.LineRefusal.{cert_words_meaning};

use crate::certificate::SshCertificate;
use crate::refusal::certificate_view_refusal;
use crate::view::certificate_at;
use picky_cert_parts::{SshCertKeyType, SshCertificateError};
use picky_keys::{SshBasePublicKey, SshPublicKey};
use picky_text::{Base64Error, decode, rest_of_line, rest_of_text, split_word};
use picky_wire::{MAX_LEN, Text};
use std::alloc::Global;
use std::str;

impl SshCertificate {
    /// The certificate and the comment of one line. The signature isn't verified.
    ///
    /// `name SP base64 [SP comment]`, and what follows the line is ignored. The name inside the bytes decides the type.
    /// Refuses, in order: `InvalidCertificateKeyType`, `TooLong`, `Base64DecodeError`, the bytes' by field.
    #[tactic(auto, using(crate::proofs::ViewLineLaws::bare_line_gives))]
    pub fn from_str(alloc: Global, text: &str) -> Result<SshCertificate, SshCertificateError>
        ensures gives { Gives SshCertificateError.NoMemory (λ c. c) result (cert_line_meaning text.now) }

        // Of a type's name, a space and the base64 of bytes these are the values and refusals of `CertView::read` of the bytes.
        ensures view { (key_type : KeyType) (blob : List ℕ) → IsBytes blob → length (base64_of blob) < 2 ^ 32
            → text.now ≡ bare_line key_type blob
            → Gives SshCertificateError.NoMemory (λ c. c) result (map_err cert_error (read_front certificate blob)) }
    {
        certificate_of_text(alloc, text)
    }

    /// The subject's key of one line, with the certificate's comment. All of the line is read, as by `from_str`, and nothing
    /// else of it is copied.
    ///
    /// Refuses as `from_str`.
    #[tactic(auto, unfolding(crate::specs::LineRefusal::cert_line_meaning), using(picky_text::proofs::WordLaws::text_rests))]
    pub fn subject_from_str(alloc: Global, text: &str) -> Result<SshPublicKey, SshCertificateError>
        ensures { Gives SshCertificateError.NoMemory (λ key. key) result (map_ok subject (cert_line_meaning text.now)) }
    {
        let (name, after_name) = split_word(text.as_bytes());
        let (body, after_body) = split_word(after_name);
        let comment = rest_of_text(text, text.len() - after_body.len());
        subject_of_words(alloc, name, body, comment)
    }
}

/// The subject's key of a name and a body, with this comment. Refuses as `certificate_of_words`.
#[tactic(auto, unfolding(crate::specs::LineRefusal::cert_words_meaning))]
fn subject_of_words(
    alloc: Global,
    name: &[u8],
    body: &[u8],
    comment: &str,
) -> Result<SshPublicKey, SshCertificateError>
    ensures { Gives SshCertificateError.NoMemory (λ key. key) result
        (map_ok subject (cert_words_meaning name.now body.now (Some comment.now))) }
{
    match type_of_word(alloc, name) {
        Ok(_) => {}
        Err(e) => return Err(e),
    }
    if body.len() > MAX_LEN || comment.len() > MAX_LEN {
        return Err(SshCertificateError::TooLong);
    }
    match subject_of_body(alloc, body) {
        Ok(inner_key) => match Text::new(alloc, comment) {
            Ok(comment) => Ok(SshPublicKey { inner_key, comment }),
            Err(_) => Err(SshCertificateError::NoMemory),
        },
        Err(e) => Err(e),
    }
}

/// The subject's key of a body.
#[tactic(auto, unfolding(crate::specs::LineRefusal::body_certificate), using(crate::proofs::LineLemmas::no_longer_than_base64))]
fn subject_of_body(alloc: Global, body: &[u8]) -> Result<SshBasePublicKey, SshCertificateError>
    requires { length body.now < 2 ^ 32 }
    ensures { Gives SshCertificateError.NoMemory (λ key. key) result (map_ok subject_key (body_certificate body.now)) }
{
    match decode(alloc, body) {
        Ok(blob) => subject_of_blob(alloc, blob.as_slice()),
        Err(Base64Error::NotBase64) => Err(SshCertificateError::Base64DecodeError),
        Err(Base64Error::NoMemory) => Err(SshCertificateError::NoMemory),
    }
}

/// The subject's key of the certificate that the bytes begin with.
#[tactic(auto, unfolding(crate::specs::LineRefusal::blob_certificate))]
fn subject_of_blob(alloc: Global, blob: &[u8]) -> Result<SshBasePublicKey, SshCertificateError>
    requires { length blob.now < 2 ^ 32 }
    ensures { Gives SshCertificateError.NoMemory (λ key. key) result (map_ok subject_key (blob_certificate blob.now)) }
{
    match certificate_at(blob) {
        Ok((view, _)) => Ok(view.public_key.to_key(alloc)?),
        Err(stopped) => Err(certificate_view_refusal(alloc, &stopped)),
    }
}

/// What a text means. Refuses as `from_str`.
#[tactic(auto, unfolding(crate::specs::LineRefusal::cert_line_meaning), using(picky_text::proofs::WordLaws::text_rests))]
fn certificate_of_text(alloc: Global, text: &str) -> Result<SshCertificate, SshCertificateError>
    ensures { Gives SshCertificateError.NoMemory (λ c. c) result (cert_line_meaning text.now) }
{
    let (name, after_name) = split_word(text.as_bytes());
    let (body, after_body) = split_word(after_name);
    let comment = rest_of_text(text, text.len() - after_body.len());
    certificate_of_words(alloc, name, body, Some(comment))
}

/// What a line means. Its bytes need not be UTF-8.
///
/// Refuses, in order: `InvalidUtf8` and `InvalidCertificateKeyType` for the name, `TooLong`, `Base64DecodeError`, the
/// bytes' by field, `InvalidUtf8` for the comment.
#[tactic(auto, unfolding(crate::specs::LineRefusal::cert_line_meaning))]
pub fn certificate_of_line(
    alloc: Global,
    line: &[u8],
) -> Result<SshCertificate, SshCertificateError>
    ensures gives { Gives SshCertificateError.NoMemory (λ c. c) result (cert_line_meaning line.now) }
    ensures no_fault { IfErr result (λ e. e ≢ SshCertificateError.CertificateProcessingError io_kinds.ReadFault) }
{
    let (name, after_name) = split_word(line);
    let (body, after_body) = split_word(after_name);
    certificate_of_words(alloc, name, body, rest_of_line(after_body))
}

/// What a name, a body and a comment mean, which is none where it isn't UTF-8.
#[tactic(auto, unfolding(crate::specs::LineRefusal::cert_words_meaning))]
fn certificate_of_words(
    alloc: Global,
    name: &[u8],
    body: &[u8],
    comment: Option<&str>,
) -> Result<SshCertificate, SshCertificateError>
    ensures gives { Gives SshCertificateError.NoMemory (λ c. c) result
        (cert_words_meaning name.now body.now (option_copied comment.entry)) }
    ensures no_fault { IfErr result (λ e. e ≢ SshCertificateError.CertificateProcessingError io_kinds.ReadFault) }
{
    match type_of_word(alloc, name) {
        Ok(_) => {}
        Err(e) => return Err(e),
    }
    if body.len() > MAX_LEN || is_too_long(comment) {
        return Err(SshCertificateError::TooLong);
    }
    // `drop` is one call, where a certificate at the end of its scope is dropped field by field.
    match certificate_of_body(alloc, body) {
        Ok(certificate) => match comment {
            Some(comment) => match Text::new(alloc, comment) {
                Ok(comment) => Ok(with_comment(certificate, comment)),
                Err(_) => {
                    drop(certificate);
                    Err(SshCertificateError::NoMemory)
                }
            },
            None => {
                drop(certificate);
                Err(SshCertificateError::InvalidUtf8)
            }
        },
        Err(e) => Err(e),
    }
}

/// The same certificate, with this comment.
fn with_comment(mut certificate: SshCertificate, comment: Text) -> SshCertificate
    ensures { result ≡ record certificate { comment = comment } }
{
    certificate.comment = comment;
    certificate
}

/// The type of certificates that a word names.
#[tactic(auto, unfolding(crate::specs::LineRefusal::word_type), using(picky_wire_base::proofs::ViewLemmas::tests))]
fn type_of_word(alloc: Global, word: &[u8]) -> Result<SshCertKeyType, SshCertificateError>
    ensures gives { Gives SshCertificateError.NoMemory (λ row. row) result (word_type word.now) }
    ensures no_fault { IfErr result (λ e. e ≢ SshCertificateError.CertificateProcessingError io_kinds.ReadFault) }
{
    match str::from_utf8(word) {
        Ok(word) => SshCertKeyType::try_from_name(alloc, word),
        Err(_) => Err(SshCertificateError::InvalidUtf8),
    }
}

/// Whether there is a text that a length of the wire can't say.
fn is_too_long(text: Option<&str>) -> bool
    ensures { result ≡ not (is_short_text (option_copied text.entry)) }
{
    match text {
        Some(text) => text.len() > MAX_LEN,
        None => false,
    }
}

/// The certificate of a body.
#[tactic(auto, unfolding(crate::specs::LineRefusal::body_certificate), using(crate::proofs::LineLemmas::no_longer_than_base64))]
fn certificate_of_body(alloc: Global, body: &[u8]) -> Result<SshCertificate, SshCertificateError>
    requires { length body.now < 2 ^ 32 }
    ensures gives { Gives SshCertificateError.NoMemory (λ c. c) result (body_certificate body.now) }
    ensures no_fault { IfErr result (λ e. e ≢ SshCertificateError.CertificateProcessingError io_kinds.ReadFault) }
{
    match decode(alloc, body) {
        Ok(blob) => certificate_of_blob(alloc, blob.as_slice()),
        Err(Base64Error::NotBase64) => Err(SshCertificateError::Base64DecodeError),
        Err(Base64Error::NoMemory) => Err(SshCertificateError::NoMemory),
    }
}

/// The certificate that the bytes begin with.
#[tactic(auto, using(crate::proofs::LineLemmas::part_is_no_fault))]
fn certificate_of_blob(alloc: Global, blob: &[u8]) -> Result<SshCertificate, SshCertificateError>
    requires { length blob.now < 2 ^ 32 }
    ensures gives { Gives SshCertificateError.NoMemory (λ c. c) result (blob_certificate blob.now) }
    ensures no_fault { IfErr result (λ e. e ≢ SshCertificateError.CertificateProcessingError io_kinds.ReadFault) }
{
    match certificate_at(blob) {
        Ok((view, _)) => Ok(view.to_certificate(alloc)?),
        Err(stopped) => Err(certificate_view_refusal(alloc, &stopped)),
    }
}
