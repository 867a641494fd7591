//! The signer for tests.

ghost use Rattle.std.specs.Prelude.{◌≡◌, ◌↔◌, ◌-◌, ◌^◌, ℕ, List, min, IfOk};
ghost use Rattle.std.proofs.Common.{arith};
ghost use Rattle.sha2.specs.Sha256.{sha256};
ghost use Rattle.picky_keys.specs.PrivateKey.{issuer_key};
ghost use Rattle.picky_keys.specs.declared.public_key.PublicKey.{PublicKey};
ghost use Rattle.picky_keys.specs.declared.algorithm.SignatureAlgorithm.{SignatureAlgorithm as Algorithm};
ghost use Rattle.picky_wire.specs.Count.{Calls};
ghost use Rattle.picky_suite.specs.Signs.{Signs, SignsByDigest, SignsAsListed};

use crate::signer::{SignError, Signer};
use picky_keys::{Issuer, SignatureAlgorithm};
use picky_wire::{Bytes, FailingCalls, NoMemory};
use sha2::{Digest, Sha256};
use std::alloc::Global;
use std::marker::Model;

/// A signer for tests, of whose calls some fail. Its one signature of a message, whoever signs, is the message's
/// SHA-256 digest.
#[derive(Debug, Drop)]
pub struct MemorySigner {
    calls: FailingCalls,
}

impl Model for MemorySigner {
    ghost Value = { Calls };

    ghost view = { λ s. s.calls };
}

impl MemorySigner {
    /// Fails the calls whose numbers are listed, counted from 0. A call that runs out of memory isn't counted.
    /// Refuses: `NoMemory`.
    pub fn new(alloc: Global, failing: &[u64]) -> Result<MemorySigner, NoMemory>
        ensures signs { IfOk result (λ signer. (key : PublicKey) (algorithm : Algorithm) (message signature : List ℕ)
            → ⟦<MemorySigner as Signer>⟧.signs signer key algorithm message signature ↔ (signature ≡ sha256 message)) }
        ensures calls { IfOk result
            (λ signer. signer ≡ record { failing = failing.now; made = 0; faults = 0 }) }
    {
        let calls = FailingCalls::new(alloc, failing)?;
        Ok(MemorySigner { calls })
    }
}

impl Signer for MemorySigner {
    ghost signs = { λ _. SignsByDigest };

    ghost faults = { λ s. min s.faults (2 ^ 64 - 1) };

    ghost in_range = { λ s. Prim.omega arith };

    fn sign(
        &mut self,
        alloc: Global,
        issuer: &Issuer,
        algorithm: SignatureAlgorithm,
        message: &[u8],
    ) -> Result<Bytes, SignError>
        ensures listed { SignsAsListed result self.old self.new }

        // What every signer promises.
        ensures signs { Signs (λ _. SignsByDigest) (λ s. min s.faults (2 ^ 64 - 1))
            (issuer_key issuer.now) algorithm message.now result self.old self.new }
    {
        if self.calls.next_fails() {
            self.calls.count_failed();
            return Err(SignError::Failed);
        }
        let digest = Sha256::digest(message);
        match Vec::from_slice(alloc, &digest) {
            Ok(signature) => {
                self.calls.count_passed();
                Ok(Bytes::from_vec(signature))
            }
            Err(_) => Err(SignError::NoMemory),
        }
    }
}
