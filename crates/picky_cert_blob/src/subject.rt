//! The kind of key that a type of certificates is for.

ghost use Rattle.std.specs.Prelude.{◌≡◌};
ghost use Rattle.picky_cert_blob.specs.Subject.{fits_subject as fits_subject_of, subject_kind as subject_kind_of};

use picky_cert_parts::SshCertKeyType;
use picky_keys::{EcCurve, EdAlgorithm, KeyKind, SshBasePublicKey};

/// The kind of key that this type of certificates is for, which is none for DSS (OpenSSH's PROTOCOL.certkeys).
pub fn subject_kind(cert_key_type: SshCertKeyType) -> Option<KeyKind>
    ensures { result ≡ subject_kind_of cert_key_type }
{
    match cert_key_type {
        SshCertKeyType::SshRsaV01
        | SshCertKeyType::RsaSha2_256V01
        | SshCertKeyType::RsaSha2_512v01 => Some(KeyKind::Rsa),
        SshCertKeyType::SshDssV01 => None,
        SshCertKeyType::EcdsaSha2Nistp256V01 => Some(KeyKind::Ec(EcCurve::NistP256)),
        SshCertKeyType::EcdsaSha2Nistp384V01 => Some(KeyKind::Ec(EcCurve::NistP384)),
        SshCertKeyType::EcdsaSha2Nistp521V01 => Some(KeyKind::Ec(EcCurve::NistP521)),
        SshCertKeyType::SshEd25519V01 => Some(KeyKind::Ed(EdAlgorithm::Ed25519)),
        SshCertKeyType::SkSshSha2Nistp256V01 => Some(KeyKind::SkEcdsaSha2NistP256),
        SshCertKeyType::SkSshEd25519V01 => Some(KeyKind::SkEd25519),
    }
}

/// Whether this type of certificates is for the kind of this key (OpenSSH's PROTOCOL.certkeys).
pub fn fits_subject(key_type: SshCertKeyType, key: &SshBasePublicKey) -> bool
    ensures { result ≡ fits_subject_of key_type key.now }
{
    match subject_kind(key_type) {
        Some(kind) => kind.name() == key.kind().name(),
        None => false,
    }
}
