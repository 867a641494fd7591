//! The certificate that is asked for, before it is signed, and what is signed of it.

ghost use Rattle.std.specs.Prelude.{◌≡◌, true, Ok, Err, IfOk, if◌then◌else◌};
ghost use Rattle.std.specs.Option.{IfSome};
ghost use Rattle.picky_wire_base.specs.Gives.{Gives};
ghost use Rattle.picky_keys.specs.LineRefusal.{is_short};
ghost use Rattle.picky_cert_blob.specs.Subject.{fits_subject};
ghost use Rattle.picky_cert.specs.Spelled.{signed_of};
ghost use Rattle.picky_cert_builder.specs.Draft.{certificate_of, if_message_fits, requested};
ghost use Rattle.picky_cert_builder.specs.Drafted.{IsWholeDraft, draft_shown};
ghost use Rattle.picky_cert_builder.specs.Issuer.{issuer_of, issuer_part};
ghost use Rattle.picky_cert_builder.specs.Request.{terms_of};
ghost use Rattle.picky_cert_builder.specs.Terms.{judged_terms};

use crate::builder::SshCertificateBuilder;
use crate::defaults::{fields, or_zero};
use crate::error::SshCertificateGenerationError;
use crate::issuer::IssuerKey;
use crate::terms::FitTerms;
use picky_cert::{SshCertificate, SshCertificateError, SshSignature, SshSignatureBlob};
use picky_keys::{Issuer, SignatureAlgorithm, SshBasePublicKey, SshPublicKey};
use picky_wire::{Bytes, NoMemory, Text, TryClone, both};
use std::alloc::Global;

/// A certificate with an empty signature, who is to sign it and by which algorithm, and the bytes that are signed.
#[derive(Drop)]
pub struct CertificateDraft {
    pub certificate: SshCertificate,
    pub issuer: Issuer,
    pub algorithm: SignatureAlgorithm,
    pub message: Bytes,
}

impl CertificateDraft {
    /// The bytes that are signed.
    pub fn into_message(self) -> Bytes
        ensures { result ≡ self.message }
    {
        let CertificateDraft {
            certificate,
            issuer,
            message,
            ..
        } = self;
        drop(certificate);
        drop(issuer);
        message
    }
}

impl SshCertificateBuilder {
    /// The certificate that is asked for, and what a device signs of it (OpenSSH's PROTOCOL.certkeys).
    ///
    /// Each field is moved into it; of the issuer, whose public key stands in the certificate too, that is copied.
    ///
    /// Refuses, in order: as `RequestTerms::judge`; `TooLong`, where 2^32 bytes or more would be signed.
    #[tactic(auto, unfolding(crate::specs::Draft::requested))]
    pub fn into_draft(
        self,
        alloc: Global,
        nonce: &[u8; 32],
    ) -> Result<CertificateDraft, SshCertificateGenerationError>
        ensures gives { Gives SshCertificateGenerationError.NoMemory draft_shown result (requested self nonce.now) }
        ensures whole { IfOk result IsWholeDraft }
        ensures issuer { IfOk result (λ draft. IfSome self.issuer (λ issuer. draft.issuer ≡ issuer_of issuer)) }
    {
        match self.terms().judge() {
            Ok(fit) => fit_draft(alloc, self, &fit, nonce),
            Err(e) => {
                drop(self);
                Err(e)
            }
        }
    }

    /// The same of a copy, which is made once the terms are judged. Refuses, in order: as `into_draft`.
    #[tactic(auto, unfolding(crate::specs::Draft::requested))]
    pub fn draft(
        &self,
        alloc: Global,
        nonce: &[u8; 32],
    ) -> Result<CertificateDraft, SshCertificateGenerationError>
        ensures gives { Gives SshCertificateGenerationError.NoMemory draft_shown result (requested self.now nonce.now) }
        ensures whole { IfOk result IsWholeDraft }
        ensures issuer { IfOk result (λ draft. IfSome self.now.issuer (λ issuer. draft.issuer ≡ issuer_of issuer)) }
    {
        match self.terms().judge() {
            Ok(fit) => {
                let copy = self.try_clone(alloc)?;
                fit_draft(alloc, copy, &fit, nonce)
            }
            Err(e) => Err(e),
        }
    }
}

/// The certificate of a request whose terms are judged to be these.
///
/// Refuses: `TooLong`, where 2^32 bytes or more would be signed.
#[tactic(auto, unfolding(crate::specs::Draft::requested), using(crate::proofs::FitLaws::judged_fits))]
fn fit_draft(
    alloc: Global,
    mut builder: SshCertificateBuilder,
    fit: &FitTerms,
    nonce: &[u8; 32],
) -> Result<CertificateDraft, SshCertificateGenerationError>
    requires { judged_terms (terms_of builder) ≡ Ok fit.now }
    ensures gives { Gives SshCertificateGenerationError.NoMemory draft_shown result (requested builder nonce.now) }
    ensures whole { IfOk result IsWholeDraft }
    ensures issuer { IfOk result (λ draft. IfSome builder.issuer (λ issuer. draft.issuer ≡ issuer_of issuer)) }
{
    match builder.public_key.take() {
        Some(key) => match builder.issuer.take() {
            Some(issuer) => certificate_draft(alloc, builder, fit, key, issuer, nonce),
            None => {
                drop(key);
                drop(builder);
                Err(SshCertificateGenerationError::MissingSignatureKey)
            }
        },
        None => {
            drop(builder);
            Err(SshCertificateGenerationError::MissingPublicKey)
        }
    }
}

/// The certificate of these terms, subject and issuer.
///
/// Refuses: `TooLong`, where 2^32 bytes or more would be signed.
fn certificate_draft(
    alloc: Global,
    builder: SshCertificateBuilder,
    fit: &FitTerms,
    key: SshPublicKey,
    issuer: IssuerKey,
    nonce: &[u8; 32],
) -> Result<CertificateDraft, SshCertificateGenerationError>
    requires { fits_subject fit.now.cert_key_type key.inner_key ≡ true }
    ensures gives { Gives SshCertificateGenerationError.NoMemory draft_shown result
        (if_message_fits (certificate_of builder fit.now key issuer nonce.now) fit.now.signature_algo) }
    ensures whole { IfOk result IsWholeDraft }
    ensures issuer { IfOk result (λ draft. draft.issuer ≡ issuer_of issuer) }
{
    match unsigned_certificate(alloc, builder, fit, key, &issuer, nonce) {
        Ok(certificate) => draft_by(alloc, certificate, fit.signature_algo, issuer),
        Err(NoMemory) => {
            drop(issuer);
            Err(SshCertificateGenerationError::NoMemory)
        }
    }
}

/// The certificate, for this issuer to sign. Refuses: as `certificate_draft`.
#[tactic(auto, using(crate::proofs::IssuerLemmas::issuer_key_of))]
fn draft_by(
    alloc: Global,
    certificate: SshCertificate,
    algorithm: SignatureAlgorithm,
    issuer: IssuerKey,
) -> Result<CertificateDraft, SshCertificateGenerationError>
    requires fits { fits_subject certificate.cert_key_type certificate.public_key.inner_key ≡ true }
    requires issuer { certificate.signature_key.inner_key ≡ issuer_part issuer }
    ensures gives { Gives SshCertificateGenerationError.NoMemory draft_shown result (if_message_fits certificate algorithm) }
    ensures whole { IfOk result IsWholeDraft }
    ensures issuer { IfOk result (λ draft. draft.issuer ≡ issuer_of issuer) }
{
    match message_of(alloc, &certificate) {
        Ok(message) => Ok(CertificateDraft {
            certificate,
            issuer: issuer.into_issuer_for_signer(),
            algorithm,
            message,
        }),
        Err(e) => {
            drop(certificate);
            drop(issuer);
            Err(e)
        }
    }
}

/// The bytes that are signed. Refuses: as `certificate_draft`.
#[tactic(auto, unfolding(picky_cert::specs::LineRefusal::signed_text))]
fn message_of(
    alloc: Global,
    certificate: &SshCertificate,
) -> Result<Bytes, SshCertificateGenerationError>
    requires { fits_subject certificate.now.cert_key_type certificate.now.public_key.inner_key ≡ true }
    ensures { Gives SshCertificateGenerationError.NoMemory (λ bytes. bytes) result
        (if is_short (signed_of certificate.now) then Ok (signed_of certificate.now)
        else Err SshCertificateGenerationError.TooLong) }
{
    match certificate.signed_bytes(alloc) {
        Ok(message) => Ok(message),
        Err(e) => match e {
            SshCertificateError::NoMemory => {
                drop(e);
                Err(SshCertificateGenerationError::NoMemory)
            }
            e => {
                drop(e);
                Err(SshCertificateGenerationError::TooLong)
            }
        },
    }
}

/// The certificate of these terms, subject and issuer, with an empty signature. Refuses: `NoMemory`.
fn unsigned_certificate(
    alloc: Global,
    builder: SshCertificateBuilder,
    fit: &FitTerms,
    key: SshPublicKey,
    issuer: &IssuerKey,
    nonce: &[u8; 32],
) -> Result<SshCertificate, NoMemory>
    ensures { IfOk result (λ c. c ≡ certificate_of builder fit.now key issuer.now nonce.now) }
{
    let serial = or_zero(builder.serial);
    let keys = keys(alloc, key, issuer, nonce);
    let fields = fields(alloc, builder, fit.cert_type);
    let ((nonce, inner_key, public_key), fields) = both(keys, fields)?;
    let (key_id, valid_principals, critical_options, extensions, comment) = fields;
    Ok(SshCertificate {
        cert_key_type: fit.cert_key_type,
        public_key,
        nonce,
        serial,
        cert_type: fit.cert_type,
        key_id,
        valid_principals,
        valid_after: fit.valid_after,
        valid_before: fit.valid_before,
        critical_options,
        extensions,
        signature_key: SshPublicKey {
            inner_key,
            comment: Text::from_string(String::new(alloc)),
        },
        signature: SshSignature {
            format: fit.format,
            blob: SshSignatureBlob::Standard(Bytes::from_vec(Vec::new(alloc))),
        },
        comment,
    })
}

/// The nonce, the issuer's key and the subject's. Refuses: `NoMemory`.
fn keys(
    alloc: Global,
    key: SshPublicKey,
    issuer: &IssuerKey,
    nonce: &[u8; 32],
) -> Result<(Bytes, SshBasePublicKey, SshPublicKey), NoMemory>
    ensures { IfOk result (λ keys. keys ≡ (nonce.now, issuer_part issuer.now, key)) }
{
    match both(nonce_bytes(alloc, nonce), issuer.public_part(alloc)) {
        Ok((nonce, inner_key)) => Ok((nonce, inner_key, key)),
        Err(NoMemory) => {
            drop(key);
            Err(NoMemory)
        }
    }
}

/// The nonce as bytes. Refuses: `NoMemory`.
fn nonce_bytes(alloc: Global, nonce: &[u8; 32]) -> Result<Bytes, NoMemory>
    ensures { IfOk result (λ bytes. bytes ≡ nonce.now) }
{
    match Bytes::new(alloc, nonce) {
        Ok(bytes) => Ok(bytes),
        Err(_) => Err(NoMemory),
    }
}
