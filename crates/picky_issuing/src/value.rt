//! The values of options: algorithms, kinds of certificates and numbers.

ghost use Rattle.std.specs.Prelude.{◌≡◌, ◌≢◌, ◌<◌, ◌≤◌, ◌⊎◌, length, slice_index, true, false};
ghost use Rattle.picky_issuing.specs.Value.{algorithm_named, cert_type_named, number_named};

use picky_cert_parts::SshCertType;
use picky_keys::{HashAlgorithm, SignatureAlgorithm};

const RSA_SHA1: &str = "rsa-sha1";

const RSA_SHA2_256: &str = "rsa-sha2-256";

const RSA_SHA2_512: &str = "rsa-sha2-512";

const ECDSA_SHA2_256: &str = "ecdsa-sha2-256";

const ECDSA_SHA2_384: &str = "ecdsa-sha2-384";

const ECDSA_SHA2_512: &str = "ecdsa-sha2-512";

const ED25519: &str = "ed25519";

const CLIENT: &str = "client";

const HOST: &str = "host";

/// The algorithm with this name, where one has it.
#[tactic(auto, unfolding(crate::specs::Value::rsa_sha1, crate::specs::Value::rsa_sha2_256, crate::specs::Value::rsa_sha2_512, crate::specs::Value::ecdsa_sha2_256, crate::specs::Value::ecdsa_sha2_384, crate::specs::Value::ecdsa_sha2_512, crate::specs::Value::ed25519))]
pub fn algorithm_of(name: &str) -> Option<SignatureAlgorithm>
    ensures { result ≡ algorithm_named name.now }
{
    if name == RSA_SHA1 {
        return Some(SignatureAlgorithm::RsaPkcs1v15(HashAlgorithm::SHA1));
    }
    if name == RSA_SHA2_256 {
        return Some(SignatureAlgorithm::RsaPkcs1v15(HashAlgorithm::SHA2_256));
    }
    if name == RSA_SHA2_512 {
        return Some(SignatureAlgorithm::RsaPkcs1v15(HashAlgorithm::SHA2_512));
    }
    if name == ECDSA_SHA2_256 {
        return Some(SignatureAlgorithm::Ecdsa(HashAlgorithm::SHA2_256));
    }
    if name == ECDSA_SHA2_384 {
        return Some(SignatureAlgorithm::Ecdsa(HashAlgorithm::SHA2_384));
    }
    if name == ECDSA_SHA2_512 {
        return Some(SignatureAlgorithm::Ecdsa(HashAlgorithm::SHA2_512));
    }
    if name == ED25519 {
        return Some(SignatureAlgorithm::Ed25519);
    }
    None
}

/// Whose certificate is asked for: a user's or a host's.
#[tactic(auto, unfolding(crate::specs::Value::client, crate::specs::Value::host))]
pub fn cert_type_of(name: &str) -> Option<SshCertType>
    ensures { result ≡ cert_type_named name.now }
{
    if name == CLIENT {
        return Some(SshCertType::Client);
    }
    if name == HOST {
        return Some(SshCertType::Host);
    }
    None
}

/// The number below 2^64 that the text writes in decimal, without a plus or a needless zero before it.
pub fn number_of(text: &str) -> Option<u64>
    ensures { result ≡ number_named text.now }
{
    if is_padded(text.as_bytes()) {
        return None;
    }
    match text.parse::<u64>() {
        Ok(number) => Some(number),
        Err(_) => None,
    }
}

/// Whether a plus stands first, or a zero before more.
fn is_padded(text: &[u8]) -> bool
    ensures padded { result ≡ true → (slice_index text.now 0 ≡ 43) ⊎ ((slice_index text.now 0 ≡ 48) × (1 < length text.now)) }
    ensures plain { result ≡ false → (slice_index text.now 0 ≢ 43) × (slice_index text.now 0 ≡ 48 → length text.now ≤ 1) }
{
    match text.first() {
        Some(first) => *first == b'+' || *first == b'0' && text.len() > 1,
        None => false,
    }
}
