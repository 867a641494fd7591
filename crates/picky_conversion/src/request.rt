//! What is asked of a certificate.

ghost use Rattle.std.specs.Prelude.{◌≡◌, IfOk};
ghost use Rattle.picky_key_text.specs.Key.{public_key as public_key_of};
ghost use Rattle.picky_conversion.specs.Request.{builder_asked, issuer_in, request_by};

use picky_cert_builder::{IssuerKey, SshCertificateBuilder};
use picky_cert_parts::{SshCertKeyType, SshCertType, SshCriticalOption, SshExtension};
use picky_issuing::CertOptions;
use picky_key_text::{Key, Meaning, public_key};
use picky_keys::{SignatureAlgorithm, SshPublicKey};
use picky_wire::{List, NoMemory, Text, Timestamp, TryClone, both};
use std::alloc::Global;

/// What is asked of a certificate beside its subject's key and its comment, which a key text means.
#[derive(Drop)]
pub struct CertRequest {
    /// The type of certificates.
    pub cert_key_type: Option<SshCertKeyType>,
    /// Whether it is a user's or a host's.
    pub cert_type: Option<SshCertType>,
    /// The serial number; 0 where none is given.
    pub serial: Option<u64>,
    /// The name by which the issuer logs it; empty where none is given.
    pub key_id: Option<Text>,
    /// The user or host names that it is for; where none are given, it is for all.
    pub principals: List<Text>,
    pub valid_after: Option<Timestamp>,
    pub valid_before: Option<Timestamp>,
    pub critical_options: List<SshCriticalOption>,
    /// What it permits; a user's certificate without any gets the five permits.
    pub extensions: List<SshExtension>,
    /// The algorithm to sign by, where it isn't the type's own.
    pub signature_algo: Option<SignatureAlgorithm>,
    /// The key of who signs, with its secret where that is here.
    pub issuer: Option<Key>,
}

impl CertRequest {
    /// What a command line's options ask, of an issuer.
    pub fn of_options(options: CertOptions, issuer: Option<Key>) -> CertRequest
        ensures { result ≡ request_by options issuer }
    {
        CertRequest {
            cert_key_type: options.cert_key_type,
            cert_type: options.cert_type,
            serial: options.serial,
            key_id: options.key_id,
            principals: options.principals,
            valid_after: options.valid_after,
            valid_before: options.valid_before,
            critical_options: options.critical_options,
            extensions: options.extensions,
            signature_algo: options.signature_algo,
            issuer,
        }
    }
}

impl TryClone for CertRequest {
    fn try_clone(&self, alloc: Global) -> Result<CertRequest, NoMemory> {
        let named = both(
            copy_where_given(alloc, &self.key_id),
            self.principals.try_clone(alloc),
        );
        let extensions = self.extensions.try_clone(alloc);
        let granted = both(self.critical_options.try_clone(alloc), extensions);
        let asked = both(named, granted);
        let (asked, issuer) = both(asked, copy_where_given(alloc, &self.issuer))?;
        let ((key_id, principals), (critical_options, extensions)) = asked;
        Ok(CertRequest {
            cert_key_type: self.cert_key_type,
            cert_type: self.cert_type,
            serial: self.serial,
            key_id,
            principals,
            valid_after: self.valid_after,
            valid_before: self.valid_before,
            critical_options,
            extensions,
            signature_algo: self.signature_algo,
            issuer,
        })
    }
}

/// A copy of what is given, where something is. Refuses: `NoMemory`.
fn copy_where_given<T: TryClone>(alloc: Global, given: &Option<T>) -> Result<Option<T>, NoMemory>
    ensures { IfOk result (λ copy. copy ≡ given.now) }
{
    match given {
        Some(given) => {
            let copy = given.try_clone(alloc)?;
            Ok(Some(copy))
        }
        None => Ok(None),
    }
}

/// The certificate that is asked for of a key and a comment. Refuses: `NoMemory`.
pub fn builder_of(
    alloc: Global,
    request: CertRequest,
    meaning: Meaning,
) -> Result<SshCertificateBuilder, NoMemory>
    ensures { IfOk result (λ builder. builder ≡ builder_asked request meaning) }
{
    match subject_of(alloc, meaning) {
        Ok((key, comment)) => Ok(SshCertificateBuilder {
            cert_key_type: request.cert_key_type,
            public_key: Some(key),
            serial: request.serial,
            cert_type: request.cert_type,
            key_id: request.key_id,
            valid_principals: Some(request.principals),
            valid_after: request.valid_after,
            valid_before: request.valid_before,
            critical_options: Some(request.critical_options),
            extensions: Some(request.extensions),
            issuer: issuing_key(request.issuer),
            signature_algo: request.signature_algo,
            comment: Some(comment),
        }),
        Err(NoMemory) => {
            drop(request);
            Err(NoMemory)
        }
    }
}

/// The public part of the key, and the comment. Refuses: `NoMemory`.
fn subject_of(alloc: Global, meaning: Meaning) -> Result<(SshPublicKey, Text), NoMemory>
    ensures { IfOk result (λ both. both ≡ (public_key_of meaning, meaning.comment)) }
{
    let key = public_key(meaning);
    match key.comment.try_clone(alloc) {
        Ok(comment) => Ok((key, comment)),
        Err(NoMemory) => {
            drop(key);
            Err(NoMemory)
        }
    }
}

/// The key as an issuer's, where there is one.
fn issuing_key(key: Option<Key>) -> Option<IssuerKey>
    ensures { result ≡ issuer_in key }
{
    match key {
        Some(Key::Private(key)) => Some(IssuerKey::Private(key)),
        Some(Key::Public(key)) => Some(IssuerKey::Public(key)),
        None => None,
    }
}
