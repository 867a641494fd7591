//! The names of signature algorithms in a question.

ghost use Rattle.std.specs.Prelude.{◌≡◌, ◌<◌, length};
ghost use Rattle.picky_agent_bytes.specs.AlgorithmName.{algorithm_name as algorithm_name_of};

use picky_keys::{HashAlgorithm, SignatureAlgorithm};

/// The algorithm's name: the kind and the digest.
#[tactic(auto, unfolding(crate::specs::AlgorithmName::algorithm_name))]
pub(crate) fn algorithm_name(algorithm: SignatureAlgorithm) -> &'static str
    ensures name { result.now ≡ algorithm_name_of algorithm }
    ensures short { length result.now < 64 }
{
    match algorithm {
        SignatureAlgorithm::RsaPkcs1v15(HashAlgorithm::MD5) => "rsa-md5",
        SignatureAlgorithm::RsaPkcs1v15(HashAlgorithm::SHA1) => "rsa-sha1",
        SignatureAlgorithm::RsaPkcs1v15(HashAlgorithm::SHA2_224) => "rsa-sha2-224",
        SignatureAlgorithm::RsaPkcs1v15(HashAlgorithm::SHA2_256) => "rsa-sha2-256",
        SignatureAlgorithm::RsaPkcs1v15(HashAlgorithm::SHA2_384) => "rsa-sha2-384",
        SignatureAlgorithm::RsaPkcs1v15(HashAlgorithm::SHA2_512) => "rsa-sha2-512",
        SignatureAlgorithm::Ecdsa(HashAlgorithm::MD5) => "ecdsa-md5",
        SignatureAlgorithm::Ecdsa(HashAlgorithm::SHA1) => "ecdsa-sha1",
        SignatureAlgorithm::Ecdsa(HashAlgorithm::SHA2_224) => "ecdsa-sha2-224",
        SignatureAlgorithm::Ecdsa(HashAlgorithm::SHA2_256) => "ecdsa-sha2-256",
        SignatureAlgorithm::Ecdsa(HashAlgorithm::SHA2_384) => "ecdsa-sha2-384",
        SignatureAlgorithm::Ecdsa(HashAlgorithm::SHA2_512) => "ecdsa-sha2-512",
        SignatureAlgorithm::Ed25519 => "ed25519",
    }
}
