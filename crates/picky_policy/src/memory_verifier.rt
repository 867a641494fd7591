//! The verifier for tests.

ghost use Rattle.std.specs.Prelude.{◌≡◌, ◌↔◌, ◌-◌, ◌^◌, ℕ, List, IsTrue, min, IfOk};
ghost use Rattle.std.proofs.Common.{arith};
ghost use Rattle.picky_keys.specs.declared.key.SshBasePublicKey.{SshBasePublicKey as BaseKey};
ghost use Rattle.picky_cert_parts.specs.declared.signature.SshSignature.{SshSignature as Signature};
ghost use Rattle.picky_policy.specs.Verifies.{Verifies, VerifiesAsFixed, Fixed, SaysAsFixed};

use crate::verifier::Verifier;
use picky_cert::SshSignature;
use picky_keys::SshBasePublicKey;
use picky_wire::{Failed, FailingCalls, NoMemory};
use std::alloc::Global;
use std::marker::Model;

/// A verifier for tests, of whose calls some fail. It says the same of each signature.
#[derive(Debug, Drop)]
pub struct MemoryVerifier {
    yes: bool,
    calls: FailingCalls,
}

impl Model for MemoryVerifier {
    ghost Value = { Fixed };

    ghost view = { λ v. record { yes = v.yes; calls = v.calls } };
}

impl MemoryVerifier {
    /// Says this of each signature, and fails the calls whose numbers are listed, counted from 0. Refuses: `NoMemory`.
    pub fn new(alloc: Global, yes: bool, failing: &[u64]) -> Result<MemoryVerifier, NoMemory>
        ensures verifies { IfOk result (λ verifier. (key : BaseKey) (signature : Signature) (message : List ℕ)
            → ⟦<MemoryVerifier as Verifier>⟧.verifies verifier key signature message ↔ IsTrue yes) }
        ensures fixed { IfOk result (λ verifier. verifier ≡ record {
          yes = yes;
          calls = record { failing = failing.now; made = 0; faults = 0 };
        }) }
    {
        let calls = FailingCalls::new(alloc, failing)?;
        Ok(MemoryVerifier { yes, calls })
    }
}

impl Verifier for MemoryVerifier {
    ghost verifies = { VerifiesAsFixed };

    ghost faults = { λ v. min v.calls.faults (2 ^ 64 - 1) };

    ghost in_range = { λ v. Prim.omega arith };

    fn verify(
        &mut self,
        key: &SshBasePublicKey,
        signature: &SshSignature,
        message: &[u8],
    ) -> Result<bool, Failed>
        ensures listed { SaysAsFixed result self.old self.new }

        // What every verifier promises.
        ensures verifies { Verifies VerifiesAsFixed (λ v. min v.calls.faults (2 ^ 64 - 1))
            key.now signature.now message.now result self.old self.new }
    {
        if self.calls.next_fails() {
            self.calls.count_failed();
            return Err(Failed);
        }
        self.calls.count_passed();
        Ok(self.yes)
    }
}
