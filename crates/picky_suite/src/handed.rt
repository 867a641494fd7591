//! The signer that hands out a signature which another device made.

ghost use Rattle.std.specs.Prelude.{◌≡◌, ◌↔◌, ◌-◌, ◌^◌, ℕ, List, Some, min};
ghost use Rattle.std.proofs.Common.{arith};
ghost use Rattle.picky_keys.specs.PrivateKey.{issuer_key};
ghost use Rattle.picky_keys.specs.declared.public_key.PublicKey.{PublicKey};
ghost use Rattle.picky_keys.specs.declared.algorithm.SignatureAlgorithm.{SignatureAlgorithm as Algorithm};
ghost use Rattle.picky_suite.specs.Signs.{Signs, SignsAsHanded, HandedSignerState, HandsOut};

use crate::signer::{SignError, Signer};
use picky_keys::{Issuer, SignatureAlgorithm};
use picky_wire::{Bytes, TryClone};
use std::alloc::Global;
use std::marker::Model;

/// A signer that answers the signature which it was handed, whatever the message and whoever signs.
#[derive(Debug, Drop)]
pub struct HandedSigner {
    signature: Option<Bytes>,
    faults: u64,
}

impl Model for HandedSigner {
    ghost Value = { HandedSignerState };

    ghost view = { λ s. record { signature = s.signature; faults = s.faults } };
}

impl HandedSigner {
    /// Answers this signature; with `None` each call fails.
    pub fn new(signature: Option<Bytes>) -> HandedSigner
        ensures signs { (key : PublicKey) (algorithm : Algorithm) (message answered : List ℕ)
            → ⟦<HandedSigner as Signer>⟧.signs result key algorithm message answered ↔ (signature ≡ Some answered) }
        ensures handed { result ≡ record { signature = signature; faults = 0 } }
    {
        HandedSigner {
            signature,
            faults: 0,
        }
    }
}

impl Signer for HandedSigner {
    ghost signs = { SignsAsHanded };

    ghost faults = { λ s. min s.faults (2 ^ 64 - 1) };

    ghost in_range = { λ s. Prim.omega arith };

    fn sign(
        &mut self,
        alloc: Global,
        issuer: &Issuer,
        algorithm: SignatureAlgorithm,
        message: &[u8],
    ) -> Result<Bytes, SignError>
        ensures hands { HandsOut result self.old self.new }

        // What every signer promises.
        ensures signs { Signs SignsAsHanded (λ s. min s.faults (2 ^ 64 - 1))
            (issuer_key issuer.now) algorithm message.now result self.old self.new }
    {
        match &self.signature {
            Some(signature) => match signature.try_clone(alloc) {
                Ok(copy) => Ok(copy),
                Err(_) => Err(SignError::NoMemory),
            },
            None => {
                self.faults = self.faults.saturating_add(1);
                Err(SignError::Failed)
            }
        }
    }
}
