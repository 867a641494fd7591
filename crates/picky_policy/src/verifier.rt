//! The verification of signatures that callers hand in.

ghost use Rattle.std.specs.Prelude.{◌^◌, ◌<◌, ℕ, List};
ghost use Rattle.picky_keys.specs.declared.key.SshBasePublicKey.{SshBasePublicKey as BaseKey};
ghost use Rattle.picky_suite.specs.Asked.{IsAskedAtMost};
ghost use Rattle.picky_cert_parts.specs.declared.signature.SshSignature.{SshSignature as Signature};
ghost use Rattle.picky_policy.specs.Verifies.{Verifies};

use picky_cert::SshSignature;
use picky_keys::SshBasePublicKey;
use picky_wire::Failed;

/// A device that verifies signatures. Which ones are good is a relation that no call changes.
pub trait Verifier {
    // whether a signature of a message is good under a key
    ghost verifies: { Self → BaseKey → Signature → List ℕ → Type 0 };

    // how many calls failed; it stays at 2^64 - 1
    ghost faults: { Self → ℕ };

    // how often it was asked, at most; a device need not count, and who hands one on can't take two calls for one
    ghost calls: { Self → ℕ } = { λ _. 0 };

    /// Whether the signature of the message is good under the key. Refuses: `Failed`.
    fn verify(
        &mut self,
        key: &SshBasePublicKey,
        signature: &SshSignature,
        message: &[u8],
    ) -> Result<bool, Failed>
        ensures asked { IsAskedAtMost 1 calls self.old self.new }
        ensures verifies { Verifies verifies faults key.now signature.now message.now result self.old self.new };

    ghost in_range: { (s : Self) → faults s < 2 ^ 64 };
}
