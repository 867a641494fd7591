//! By which algorithm an issuer signs, and in which format.

ghost use Rattle.std.specs.Prelude.{◌≡◌};
ghost use Rattle.picky_cert_builder.specs.Algorithm.{default_algorithm, format_of};

use picky_cert_parts::{SshCertKeyType, SshSignatureFormat};
use picky_keys::{EcCurve, HashAlgorithm, KeyKind, SignatureAlgorithm};

/// The algorithm by which certificates of a type are signed, where no other is asked for.
pub fn default_algorithm(cert_key_type: SshCertKeyType) -> SignatureAlgorithm
    ensures { result ≡ default_algorithm cert_key_type }
{
    match cert_key_type {
        SshCertKeyType::EcdsaSha2Nistp256V01 | SshCertKeyType::SkSshSha2Nistp256V01 => {
            SignatureAlgorithm::Ecdsa(HashAlgorithm::SHA2_256)
        }
        SshCertKeyType::EcdsaSha2Nistp384V01 => SignatureAlgorithm::Ecdsa(HashAlgorithm::SHA2_384),
        SshCertKeyType::SshEd25519V01 | SshCertKeyType::SkSshEd25519V01 => {
            SignatureAlgorithm::Ed25519
        }
        SshCertKeyType::SshRsaV01
        | SshCertKeyType::SshDssV01
        | SshCertKeyType::RsaSha2_256V01
        | SshCertKeyType::RsaSha2_512v01
        | SshCertKeyType::EcdsaSha2Nistp521V01 => {
            SignatureAlgorithm::RsaPkcs1v15(HashAlgorithm::SHA2_256)
        }
    }
}

/// The format of the signatures that a kind of key makes by an algorithm, where it makes some. A security key makes none here.
///
/// RFC 4253, section 6.6; RFC 8332, section 3; RFC 5656, section 6.2.1; RFC 8709, section 6.
pub fn format_of(issuer: KeyKind, algorithm: SignatureAlgorithm) -> Option<SshSignatureFormat>
    ensures { result ≡ format_of issuer algorithm }
{
    match (issuer, algorithm) {
        (KeyKind::Rsa, SignatureAlgorithm::RsaPkcs1v15(HashAlgorithm::SHA1)) => {
            Some(SshSignatureFormat::SshRsa)
        }
        (KeyKind::Rsa, SignatureAlgorithm::RsaPkcs1v15(HashAlgorithm::SHA2_256)) => {
            Some(SshSignatureFormat::RsaSha256)
        }
        (KeyKind::Rsa, SignatureAlgorithm::RsaPkcs1v15(HashAlgorithm::SHA2_512)) => {
            Some(SshSignatureFormat::RsaSha512)
        }
        (KeyKind::Ec(EcCurve::NistP256), SignatureAlgorithm::Ecdsa(HashAlgorithm::SHA2_256)) => {
            Some(SshSignatureFormat::EcdsaSha2Nistp256)
        }
        (KeyKind::Ec(EcCurve::NistP384), SignatureAlgorithm::Ecdsa(HashAlgorithm::SHA2_384)) => {
            Some(SshSignatureFormat::EcdsaSha2Nistp384)
        }
        (KeyKind::Ec(EcCurve::NistP521), SignatureAlgorithm::Ecdsa(HashAlgorithm::SHA2_512)) => {
            Some(SshSignatureFormat::EcdsaSha2Nistp521)
        }
        (KeyKind::Ed(_), SignatureAlgorithm::Ed25519) => Some(SshSignatureFormat::SshEd25519),
        _ => None,
    }
}
