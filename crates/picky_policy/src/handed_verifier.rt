//! The verifier that was handed another device's answer.

ghost use Rattle.std.specs.Prelude.{◌≡◌, ◌↔◌, ◌-◌, ◌^◌, ℕ, List, Some, min};
ghost use Rattle.std.proofs.Common.{arith};
ghost use Rattle.picky_keys.specs.declared.key.SshBasePublicKey.{SshBasePublicKey as BaseKey};
ghost use Rattle.picky_cert_parts.specs.declared.signature.SshSignature.{SshSignature as Signature};
ghost use Rattle.picky_policy.specs.Verifies.{Verifies, VerifiesAsHanded, HandedVerifierState, SaysAsHanded};

use crate::verifier::Verifier;
use picky_cert::SshSignature;
use picky_keys::SshBasePublicKey;
use picky_wire::{Bytes, Failed};
use std::marker::Model;

/// A verifier that says yes of one message, whoever signed it and how: another device verified that.
#[derive(Debug, Drop)]
pub struct HandedVerifier {
    message: Option<Bytes>,
    faults: u64,
}

impl Model for HandedVerifier {
    ghost Value = { HandedVerifierState };

    ghost view = { λ v. record { message = v.message; faults = v.faults } };
}

impl HandedVerifier {
    /// Says yes exactly of this message; with `None` each call fails.
    pub fn new(message: Option<Bytes>) -> HandedVerifier
        ensures verifies { (key : BaseKey) (signature : Signature) (said : List ℕ)
            → ⟦<HandedVerifier as Verifier>⟧.verifies result key signature said ↔ (message ≡ Some said) }
        ensures handed { result ≡ record { message = message; faults = 0 } }
    {
        HandedVerifier { message, faults: 0 }
    }
}

impl Verifier for HandedVerifier {
    ghost verifies = { VerifiesAsHanded };

    ghost faults = { λ v. min v.faults (2 ^ 64 - 1) };

    ghost in_range = { λ v. Prim.omega arith };

    fn verify(
        &mut self,
        key: &SshBasePublicKey,
        signature: &SshSignature,
        message: &[u8],
    ) -> Result<bool, Failed>
        ensures handed { SaysAsHanded result self.old self.new }

        // What every verifier promises.
        ensures verifies { Verifies VerifiesAsHanded (λ v. min v.faults (2 ^ 64 - 1))
            key.now signature.now message.now result self.old self.new }
    {
        match &self.message {
            Some(said) => Ok(said.as_slice() == message),
            None => {
                self.faults = self.faults.saturating_add(1);
                Err(Failed)
            }
        }
    }
}
