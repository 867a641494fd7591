//! The line of a certificate with a signature of a table's, or the question for it.

ghost use Rattle.std.specs.Prelude.{◌≡◌, ◌⊎◌, Some, Ok, Err, IfErr, IfOk};
ghost use Rattle.picky_ask.specs.Question.{IsQuestion};
ghost use Rattle.picky_cert.specs.LineRefusal.{cert_line_text};
ghost use Rattle.picky_cert.specs.Line.{IsReadBackCertificate};
ghost use Rattle.picky_cert_parts.specs.declared.error.SshCertificateError.TheVariants as lines;
ghost use Rattle.picky_cert_builder.specs.Draft.{signed_with};
ghost use Rattle.picky_cert_builder.specs.Drafted.{IsWholeDraft, draft_shown};
ghost use Rattle.picky_cert_builder.specs.Keeps.{without_key_comments};
ghost use Rattle.picky_target.specs.declared.error.ConvertError.TheVariants as conversions;
ghost use Rattle.picky_conversion.specs.inner.Signed.{IsReadBack};
ghost use Rattle.picky_certify.specs.Certified.{AsksFor, IsUnanswered, Signs};

use crate::error::CertifyError;
use picky_ask::{AnsweredSigner, Known, Missing, Question, Table};
use picky_cert::{SshCertificate, SshCertificateError, SshSignatureBlob};
use picky_cert_builder::{CertificateDraft, signature_keeps_its_ranges};
use picky_suite::SignError;
use picky_target::ConvertError;
use picky_wire::{Bytes, SizeError};
use std::alloc::Global;

/// What a round of certifying comes to.
#[derive(Debug, Drop)]
pub enum Certified {
    /// The certificate's line.
    Line(Vec<u8>),
    /// The question for its signature, as bytes.
    Question(Vec<u8>),
}

/// The certificate's line with the table's first answer to the question for its signature; or that question.
///
/// Refuses, in order: `TooLong`, where no bytes say the question; `Refused(TooLong)`, where the line has 2^32 bytes or more with the
/// signature.
pub fn sign_draft<K: Known>(
    alloc: Global,
    draft: CertificateDraft,
    table: &Table,
) -> Result<Certified, CertifyError>
    requires told { K.table ≡ Some table.now }
    requires whole { IsWholeDraft draft }
    requires back { IsReadBack draft.certificate }
    ensures { Signs table.now (draft_shown draft) result }
{
    let CertificateDraft {
        certificate,
        issuer,
        algorithm,
        message,
    } = draft;
    let mut signer: AnsweredSigner<'_, K> = AnsweredSigner::new(table);
    match signer.ask_signature(alloc, &issuer, algorithm, message.as_slice()) {
        Ok(signature) => {
            drop(issuer);
            match line_with(alloc, certificate, signature) {
                Ok(line) => Ok(Certified::Line(line)),
                Err(e) => Err(e),
            }
        }
        Err(SignError::NoMemory) => {
            drop(issuer);
            drop(certificate);
            Err(CertifyError::NoMemory)
        }
        Err(SignError::Failed) => {
            drop(issuer);
            drop(certificate);
            unanswered(alloc, signer.into_missing())
        }
    }
}

/// The line of a certificate with this signature. Refuses: `Refused(TooLong)`, where it has 2^32 bytes or more.
fn line_with(
    alloc: Global,
    mut certificate: SshCertificate,
    signature: Bytes,
) -> Result<Vec<u8>, CertifyError>
    requires { IsReadBack certificate }
    ensures ok { IfOk result (λ line. cert_line_text (signed_with certificate signature) ≡ Ok line.items) }
    ensures back { IfOk result (λ line. IsReadBackCertificate (without_key_comments (signed_with certificate signature))) }
    ensures err { IfErr result (λ e. (e ≡ CertifyError.NoMemory)
        ⊎ ((e ≡ CertifyError.Refused conversions.TooLong) × (cert_line_text (signed_with certificate signature) ≡ Err lines.TooLong))) }
{
    certificate.signature.blob = SshSignatureBlob::Standard(signature);
    signature_keeps_its_ranges(&certificate.signature);
    let line = certificate.to_string(alloc);
    drop(certificate);
    match line {
        Ok(text) => Ok(text.into_string().into_bytes()),
        Err(SshCertificateError::TooLong) => Err(CertifyError::Refused(ConvertError::TooLong)),
        Err(e) => {
            drop(e);
            Err(CertifyError::NoMemory)
        }
    }
}

/// What is left where the table has no answer, by why.
fn unanswered(alloc: Global, missing: Option<Missing>) -> Result<Certified, CertifyError>
    ensures { IsUnanswered missing result }
{
    match missing {
        Some(Missing::Asked(question)) => question_left(alloc, &question),
        missing => {
            drop(missing);
            Err(CertifyError::TooLong)
        }
    }
}

/// The question's bytes. Refuses: `TooLong`, where none say it.
fn question_left(alloc: Global, question: &Question) -> Result<Certified, CertifyError>
    ensures { AsksFor question.now result }
{
    match question.to_bytes(alloc) {
        Ok(bytes) => Ok(Certified::Question(bytes)),
        Err(SizeError::TooLong) => Err(CertifyError::TooLong),
        Err(SizeError::NoMemory) => Err(CertifyError::NoMemory),
    }
}
