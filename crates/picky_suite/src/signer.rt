//! The signatures that callers hand in.

ghost use Rattle.std.specs.Prelude.{◌^◌, ◌<◌, ℕ, List};
ghost use Rattle.picky_keys.specs.PrivateKey.{issuer_key};
ghost use Rattle.picky_keys.specs.declared.public_key.PublicKey.{PublicKey};
ghost use Rattle.picky_keys.specs.declared.algorithm.SignatureAlgorithm.{SignatureAlgorithm as Algorithm};
ghost use Rattle.picky_suite.specs.Asked.{IsAskedAtMost};
ghost use Rattle.picky_suite.specs.Signs.{Signs};

use picky_keys::{Issuer, SignatureAlgorithm};
use picky_wire::Bytes;
use std::alloc::Global;
use thiserror::Error;

/// Why a message isn't signed.
#[derive(Debug, Drop, PartialEq, Eq, Error)]
pub enum SignError {
    /// The device failed, and counted it.
    #[error("Failed")]
    Failed,
    /// Memory ran out.
    #[error("NoMemory")]
    NoMemory,
}

/// A device that signs for an issuer. Which signatures are good is a relation that no call changes.
pub trait Signer {
    // whether a signature of a message is good under a public key and an algorithm
    ghost signs: { Self → PublicKey → Algorithm → List ℕ → List ℕ → Type 0 };

    // how many calls failed; it stays at 2^64 - 1
    ghost faults: { Self → ℕ };

    // how often it was asked, at most; a device need not count, and who hands one on can't take two calls for one
    ghost calls: { Self → ℕ } = { λ _. 0 };

    /// A signature of the message, good under the issuer's public key. Refuses: `Failed`; `NoMemory`, with
    /// nothing changed.
    fn sign(
        &mut self,
        alloc: Global,
        issuer: &Issuer,
        algorithm: SignatureAlgorithm,
        message: &[u8],
    ) -> Result<Bytes, SignError>
        ensures asked { IsAskedAtMost 1 calls self.old self.new }
        ensures signs { Signs signs faults (issuer_key issuer.now) algorithm message.now result self.old self.new };

    ghost in_range: { (s : Self) → faults s < 2 ^ 64 };
}
