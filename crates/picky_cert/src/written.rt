//! A certificate's line, written.

ghost use Rattle.std.specs.Prelude.{◌≡◌, ◌⊎◌, ◌^◌, ◌<◌, ◌≤◌, ◌++◌, true, Err, IfErr, IfOk, OnOk, length, string_bytes};
ghost use Rattle.picky_wire_base.specs.Gives.{Gives};
ghost use Rattle.picky_wire.specs.Puts.{Puts};
ghost use Rattle.picky_wire.specs.declared.error.IoKind.TheVariants as io_kinds;
ghost use Rattle.picky_cert_parts.specs.Signature.{blob_fits, signature_of};
ghost use Rattle.picky_cert.specs.LineRefusal.{cert_line_text};
ghost use Rattle.picky_cert.specs.Spelled.{cert_blob_of, cert_line_of};

use crate::blob_bytes::signed_vec;
use crate::certificate::SshCertificate;
use picky_cert_blob::fits_subject;
use picky_cert_parts::{
    SshCertificateError, SshSignature, SshSignatureError, signature_pieces, written_total,
};
use picky_keys::line_of_words;
use picky_wire::{IoKind, MAX_LEN, Sink, SizeError, Text, push_pieces, write_all};
use std::alloc::{AllocError, Global};

impl SshCertificate {
    /// The line, with CR LF.
    ///
    /// `name SP base64 SP comment` (sshd(8)). Refuses, in order: `SubjectMismatch`, where the type isn't for the subject's
    /// key; `SshSignatureError(BlobMismatch)`, where one of the signature's format and blob has a counter and the other none;
    /// `TooLong`, where the line has 2^32 bytes or more.
    #[tactic(auto, unfolding(crate::specs::LineRefusal::cert_line_text))]
    pub fn to_string(&self, alloc: Global) -> Result<Text, SshCertificateError>
        ensures { Gives SshCertificateError.NoMemory (λ text. text) result (cert_line_text self.now) }
    {
        if !fits_subject(self.cert_key_type, &self.public_key.inner_key) {
            return Err(SshCertificateError::SubjectMismatch);
        }
        if !self.signature.blob.fits(self.signature.format) {
            return Err(SshCertificateError::SshSignatureError(SshSignatureError::BlobMismatch));
        }
        let line = line_string(alloc, self)?;
        if line.len() > MAX_LEN {
            return Err(SshCertificateError::TooLong);
        }
        Ok(Text::from_string(line))
    }

    /// Writes the line. Refuses, in order: as `to_string`, and `CertificateProcessingError(WriteFault)`.
    pub fn encode<S: Sink>(&self, alloc: Global, stream: &mut S) -> Result<(), SshCertificateError>
        ensures puts { IfOk (cert_line_text self.now) (λ line.
            ((result ≡ Err SshCertificateError.NoMemory) × (stream.new ≡ stream.old))
            ⊎ Puts S.tells S.written S.faults (SshCertificateError.CertificateProcessingError io_kinds.WriteFault) line
            result stream.old stream.new) }

        // What isn't written is refused before anything is.
        ensures refused { IfErr (cert_line_text self.now) (λ e.
            ((result ≡ Err e) ⊎ (result ≡ Err SshCertificateError.NoMemory)) × (stream.new ≡ stream.old)) }
    {
        match self.to_string(alloc) {
            Ok(line) => match write_all(stream, line.as_str().as_bytes()) {
                Ok(()) => Ok(()),
                Err(_) => Err(SshCertificateError::CertificateProcessingError(IoKind::WriteFault)),
            },
            Err(e) => Err(e),
        }
    }
}

/// The line of a certificate whose signature's format and blob fit each other.
///
/// Refuses: `TooLong`, where the bytes are too many for a line of fewer than 2^32 bytes.
#[tactic(auto, unfolding(crate::specs::Spelled::cert_line_of, picky_text::specs::Base64::base64_of), using(crate::proofs::WrittenLemmas::line_within))]
fn line_string(alloc: Global, certificate: &SshCertificate) -> Result<String, SizeError>
    ensures line { IfOk result (λ line. string_bytes line ≡ cert_line_of certificate.now) }
    ensures too_long { blob_fits certificate.now.signature.format certificate.now.signature.blob ≡ true
        → IfErr result (λ e. e ≡ SizeError.TooLong → 2 ^ 32 ≤ length (cert_line_of certificate.now)) }
{
    let blob = match blob_vec(alloc, certificate) {
        Ok(blob) => blob,
        Err(e) => return Err(e),
    };
    match line_of_blob(alloc, certificate, blob.as_slice()) {
        Ok(line) => Ok(line),
        Err(_) => Err(SizeError::NoMemory),
    }
}

/// All bytes of a certificate whose signature's format and blob fit each other.
///
/// Refuses: `TooLong`, where those before the signature, or those behind its total, are 2^32 or more.
#[tactic(auto, unfolding(crate::specs::Spelled::cert_blob_of))]
fn blob_vec(alloc: Global, certificate: &SshCertificate) -> Result<Vec<u8>, SizeError>
    ensures blob { IfOk result (λ blob. blob.items ≡ cert_blob_of certificate.now) }
    ensures too_long { blob_fits certificate.now.signature.format certificate.now.signature.blob ≡ true
        → IfErr result (λ e. e ≡ SizeError.TooLong → 2 ^ 32 ≤ length (cert_blob_of certificate.now)) }
{
    let mut blob = match signed_vec(alloc, certificate) {
        Ok(signed) => signed,
        Err(e) => return Err(e),
    };
    match push_signature(&mut blob, &certificate.signature) {
        Ok(()) => Ok(blob),
        Err(e) => Err(e),
    }
}

/// Appends a signature.
///
/// Refuses: `TooLong`, where its format and its blob don't fit each other, or 2^32 bytes or more stand behind its total.
#[tactic(auto, unfolding(picky_cert_parts::specs::Signature::signature_of))]
fn push_signature(out: &mut Vec<u8>, signature: &SshSignature) -> Result<(), SizeError>
    ensures pushed { OnOk result (out.new.items ≡ out.old.items ++ signature_of signature.now) }
    ensures too_long { blob_fits signature.now.format signature.now.blob ≡ true
        → IfErr result (λ e. e ≡ SizeError.TooLong → 2 ^ 32 ≤ length (signature_of signature.now)) }
{
    let total = match written_total(signature) {
        Ok(total) => total,
        Err(_) => return Err(SizeError::TooLong),
    };
    match push_pieces(out, &signature_pieces(signature, total)) {
        Ok(()) => Ok(()),
        Err(_) => Err(SizeError::NoMemory),
    }
}

/// The line of a certificate whose bytes these are.
#[tactic(auto, unfolding(crate::specs::Spelled::cert_line_of))]
fn line_of_blob(
    alloc: Global,
    certificate: &SshCertificate,
    blob: &[u8],
) -> Result<String, AllocError>
    ensures { blob.now ≡ cert_blob_of certificate.now → IfOk result (λ line. string_bytes line ≡ cert_line_of certificate.now) }
{
    let (name, comment) = (
        certificate.cert_key_type.as_str(),
        certificate.comment.as_str(),
    );
    line_of_words(alloc, name, blob, comment)
}
