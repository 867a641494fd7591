//! The certificate that a request line asks for.

ghost use Rattle.std.specs.Prelude.{◌≡◌, IfOk};
ghost use Rattle.picky_request.specs.Builder.{algorithm_by as algorithm_of_kind, asked_of, type_for as type_for_kind};

use crate::request::CertRequestLine;
use picky_cert_builder::{IssuerKey, SshCertificateBuilder};
use picky_cert_parts::SshCertKeyType;
use picky_keys::{
    EcCurve, HashAlgorithm, KeyKind, SignatureAlgorithm, SshBasePublicKey, SshPublicKey,
};
use picky_wire::{NoMemory, Text, TryClone};
use std::alloc::Global;

/// The type of the certificates for a kind of key (OpenSSH's PROTOCOL.certkeys).
pub fn type_for(kind: KeyKind) -> SshCertKeyType
    ensures { result ≡ type_for_kind kind }
{
    match kind {
        KeyKind::Rsa => SshCertKeyType::SshRsaV01,
        KeyKind::Ec(EcCurve::NistP256) => SshCertKeyType::EcdsaSha2Nistp256V01,
        KeyKind::Ec(EcCurve::NistP384) => SshCertKeyType::EcdsaSha2Nistp384V01,
        KeyKind::Ec(EcCurve::NistP521) => SshCertKeyType::EcdsaSha2Nistp521V01,
        KeyKind::Ed(_) => SshCertKeyType::SshEd25519V01,
        KeyKind::SkEcdsaSha2NistP256 => SshCertKeyType::SkSshSha2Nistp256V01,
        KeyKind::SkEd25519 => SshCertKeyType::SkSshEd25519V01,
    }
}

/// The algorithm by which a kind of key signs certificates here. A security key signs by none.
pub fn algorithm_by(kind: KeyKind) -> Option<SignatureAlgorithm>
    ensures { result ≡ algorithm_of_kind kind }
{
    match kind {
        KeyKind::Rsa => Some(SignatureAlgorithm::RsaPkcs1v15(HashAlgorithm::SHA2_512)),
        KeyKind::Ec(EcCurve::NistP256) => Some(SignatureAlgorithm::Ecdsa(HashAlgorithm::SHA2_256)),
        KeyKind::Ec(EcCurve::NistP384) => Some(SignatureAlgorithm::Ecdsa(HashAlgorithm::SHA2_384)),
        KeyKind::Ec(EcCurve::NistP521) => Some(SignatureAlgorithm::Ecdsa(HashAlgorithm::SHA2_512)),
        KeyKind::Ed(_) => Some(SignatureAlgorithm::Ed25519),
        KeyKind::SkEcdsaSha2NistP256 | KeyKind::SkEd25519 => None,
    }
}

impl CertRequestLine {
    /// The certificate that is asked for, under this serial and by this issuer: of the type for the subject's key, with the id as
    /// its key id, no critical option, of extensions the defaults of its kind, and the key's comment. Refuses: `NoMemory`.
    pub fn builder(
        self,
        alloc: Global,
        issuer: &SshBasePublicKey,
        serial: u64,
    ) -> Result<SshCertificateBuilder, NoMemory>
        ensures { IfOk result (λ builder. builder ≡ asked_of issuer.now serial self) }
    {
        let issuer_kind = issuer.kind();
        let issuer = issuer.try_clone(alloc)?;
        let CertRequestLine {
            id,
            cert_type,
            principals,
            valid_after,
            valid_before,
            key: SshPublicKey { inner_key, comment },
        } = self;
        Ok(SshCertificateBuilder {
            cert_key_type: Some(type_for(inner_key.kind())),
            public_key: Some(SshPublicKey {
                inner_key,
                comment: Text::from_string(String::new(alloc)),
            }),
            serial: Some(serial),
            cert_type: Some(cert_type),
            key_id: Some(id),
            valid_principals: Some(principals),
            valid_after: Some(valid_after),
            valid_before: Some(valid_before),
            critical_options: None,
            extensions: None,
            issuer: Some(IssuerKey::Public(issuer)),
            signature_algo: algorithm_by(issuer_kind),
            comment: Some(comment),
        })
    }
}
