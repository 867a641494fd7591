//! What a request for a certificate says, as far as it is judged before anything is made.

ghost use Rattle.std.specs.Prelude.{◌≡◌};
ghost use Rattle.picky_cert_blob.specs.Subject.{is_for, subject_kind as subject_kind_of};
ghost use Rattle.picky_cert_builder.specs.Terms.{algorithm_by, granted, is_made as is_made_here, judged_signature};
ghost use Rattle.picky_cert_builder.specs.Terms.{judged_terms};
ghost use Rattle.picky_cert_builder.specs.Terms.{judged_subject, judged_use, ordered};

use crate::algorithm::{default_algorithm, format_of};
use crate::error::SshCertificateGenerationError;
use picky_cert_blob::subject_kind;
use picky_cert_parts::{SshCertKeyType, SshCertType, SshSignatureFormat};
use picky_keys::{KeyKind, SignatureAlgorithm};
use picky_wire::Timestamp;

/// What a request says of who is certified, for what, and by whom.
#[derive(Clone, Copy)]
pub struct RequestTerms {
    /// The type of certificates.
    pub cert_key_type: Option<SshCertKeyType>,
    /// The kind of the subject's key.
    pub subject: Option<KeyKind>,
    /// Whether it is a user's or a host's.
    pub cert_type: Option<SshCertType>,
    pub valid_after: Option<Timestamp>,
    pub valid_before: Option<Timestamp>,
    /// Whether extensions are asked for.
    pub has_extensions: bool,
    /// Whether critical options are.
    pub has_critical_options: bool,
    /// The kind of the issuer's key.
    pub issuer: Option<KeyKind>,
    /// The algorithm to sign by, where it isn't the type's own.
    pub signature_algo: Option<SignatureAlgorithm>,
}

/// The terms of a request for which a certificate can be made.
#[derive(Clone, Copy)]
pub struct FitTerms {
    pub cert_key_type: SshCertKeyType,
    pub cert_type: SshCertType,
    pub valid_after: Timestamp,
    pub valid_before: Timestamp,
    pub signature_algo: SignatureAlgorithm,
    /// The format of the signature.
    pub format: SshSignatureFormat,
}

impl RequestTerms {
    /// The terms, where a certificate can be made for them.
    ///
    /// Refuses, in order: `NoKeyType`; `UnsupportedCertificateKeyType`, for the types of DSS and of NIST P-521;
    /// `MissingPublicKey`; `UnsupportedCertificateKeyType`, where the type isn't for the subject's key;
    /// `MissingCertificateType`; `InvalidTime`; `HostCertificateExtensions`; `HostCertificateCriticalOptions`;
    /// `MissingSignatureKey`; `IncorrectSignatureAlgorithm`.
    #[tactic(auto, unfolding(crate::specs::Terms::judged_terms))]
    pub fn judge(&self) -> Result<FitTerms, SshCertificateGenerationError>
        ensures { result ≡ judged_terms self.now }
    {
        let cert_key_type = match judge_subject(self) {
            Ok(cert_key_type) => cert_key_type,
            Err(e) => return Err(e),
        };
        let (cert_type, (valid_after, valid_before)) = match judge_use(self) {
            Ok(used) => used,
            Err(e) => return Err(e),
        };
        match judge_signature(self, cert_key_type) {
            Ok((signature_algo, format)) => Ok(FitTerms {
                cert_key_type,
                cert_type,
                valid_after,
                valid_before,
                signature_algo,
                format,
            }),
            Err(e) => Err(e),
        }
    }
}

/// The type of certificates, where it is for the subject's key.
#[tactic(auto, unfolding(crate::specs::Terms::judged_subject))]
fn judge_subject(terms: &RequestTerms) -> Result<SshCertKeyType, SshCertificateGenerationError>
    ensures { result ≡ judged_subject terms.now }
{
    match terms.cert_key_type {
        Some(cert_key_type) => {
            if !is_made(cert_key_type) {
                return Err(
                    SshCertificateGenerationError::UnsupportedCertificateKeyType(cert_key_type),
                );
            }
            match terms.subject {
                Some(subject) => {
                    if is_for_kind(cert_key_type, subject) {
                        return Ok(cert_key_type);
                    }
                    Err(SshCertificateGenerationError::UnsupportedCertificateKeyType(cert_key_type))
                }
                None => Err(SshCertificateGenerationError::MissingPublicKey),
            }
        }
        None => Err(SshCertificateGenerationError::NoKeyType),
    }
}

/// Whether certificates of the type are made here.
fn is_made(cert_key_type: SshCertKeyType) -> bool
    ensures { result ≡ is_made_here cert_key_type }
{
    match cert_key_type {
        SshCertKeyType::SshDssV01 | SshCertKeyType::EcdsaSha2Nistp521V01 => false,
        SshCertKeyType::SshRsaV01
        | SshCertKeyType::RsaSha2_256V01
        | SshCertKeyType::RsaSha2_512v01
        | SshCertKeyType::EcdsaSha2Nistp256V01
        | SshCertKeyType::EcdsaSha2Nistp384V01
        | SshCertKeyType::SshEd25519V01
        | SshCertKeyType::SkSshSha2Nistp256V01
        | SshCertKeyType::SkSshEd25519V01 => true,
    }
}

/// Whether the type is for this kind of key.
fn is_for_kind(cert_key_type: SshCertKeyType, kind: KeyKind) -> bool
    ensures { result ≡ is_for (subject_kind_of cert_key_type) kind }
{
    match subject_kind(cert_key_type) {
        Some(subject) => subject.name() == kind.name(),
        None => false,
    }
}

/// For what the certificate is, and from when until when.
#[tactic(auto, unfolding(crate::specs::Terms::judged_use))]
fn judge_use(
    terms: &RequestTerms,
) -> Result<(SshCertType, (Timestamp, Timestamp)), SshCertificateGenerationError>
    ensures { result ≡ judged_use terms.now }
{
    match terms.cert_type {
        Some(cert_type) => match judge_times(terms.valid_after, terms.valid_before) {
            Ok(times) => grant(terms, cert_type, times),
            Err(e) => Err(e),
        },
        None => Err(SshCertificateGenerationError::MissingCertificateType),
    }
}

/// Both times, where the first isn't past the second.
fn judge_times(
    after: Option<Timestamp>,
    before: Option<Timestamp>,
) -> Result<(Timestamp, Timestamp), SshCertificateGenerationError>
    ensures { result ≡ ordered after before }
{
    match (after, before) {
        (Some(after), Some(before)) => {
            if after.secs() <= before.secs() {
                return Ok((after, before));
            }
            Err(SshCertificateGenerationError::InvalidTime)
        }
        _ => Err(SshCertificateGenerationError::InvalidTime),
    }
}

/// A host's certificate grants nothing beside its principals.
fn grant(
    terms: &RequestTerms,
    cert_type: SshCertType,
    times: (Timestamp, Timestamp),
) -> Result<(SshCertType, (Timestamp, Timestamp)), SshCertificateGenerationError>
    ensures { result ≡ granted terms.now cert_type times }
{
    match cert_type {
        SshCertType::Client => Ok((cert_type, times)),
        SshCertType::Host => {
            if terms.has_extensions {
                return Err(SshCertificateGenerationError::HostCertificateExtensions);
            }
            if terms.has_critical_options {
                return Err(SshCertificateGenerationError::HostCertificateCriticalOptions);
            }
            Ok((cert_type, times))
        }
    }
}

/// By which algorithm the issuer signs a certificate of the type, and in which format.
#[tactic(auto, unfolding(crate::specs::Terms::judged_signature))]
fn judge_signature(
    terms: &RequestTerms,
    cert_key_type: SshCertKeyType,
) -> Result<(SignatureAlgorithm, SshSignatureFormat), SshCertificateGenerationError>
    ensures { result ≡ judged_signature terms.now cert_key_type }
{
    match terms.issuer {
        Some(issuer) => {
            let algorithm = algorithm_for(terms.signature_algo, cert_key_type);
            match format_of(issuer, algorithm) {
                Some(format) => Ok((algorithm, format)),
                None => Err(SshCertificateGenerationError::IncorrectSignatureAlgorithm),
            }
        }
        None => Err(SshCertificateGenerationError::MissingSignatureKey),
    }
}

/// The algorithm that is asked for, or the type's own.
fn algorithm_for(
    asked: Option<SignatureAlgorithm>,
    cert_key_type: SshCertKeyType,
) -> SignatureAlgorithm
    ensures { result ≡ algorithm_by asked cert_key_type }
{
    match asked {
        Some(algorithm) => algorithm,
        None => default_algorithm(cert_key_type),
    }
}
