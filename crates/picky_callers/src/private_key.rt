//! A private key read under a passphrase, with a suite of the caller's own.

ghost use Rattle.std.specs.Prelude.{◌≡◌, ◌⊎◌, ◌≤◌, ◌+◌, ◌-◌, ◌^◌, Some, Err, IfErr, IfOk, OnOk, length, min};
ghost use Rattle.std.proofs.Common.{arith};
ghost use Rattle.picky.specs.Count.{Rose};
ghost use Rattle.picky.specs.Failures.{IsAskedFault};
ghost use Rattle.picky.specs.Fills.{Fills};
ghost use Rattle.picky.specs.Ranges.{BcryptOk, IsBcryptLen};
ghost use Rattle.picky.specs.PrivateRefusal.{text_asks, text_key};
ghost use Rattle.picky.specs.PrivateText.{IsPrivateText};

use picky::ssh::laws::private_key::private_key_means_what_it_says;
use picky::ssh::{Flavour, SshPrivateKey, SshPrivateKeyError, Suite};
use picky::wire::Failed;
use std::alloc::Global;

/// A suite that derives no key of more rounds than this: a file says itself how many it wants, and 2^32 - 1 take days.
#[derive(Drop)]
pub struct RoundLimit<S> {
    pub suite: S,
    pub most_rounds: u32,
    /// How many derivations were refused.
    pub refused: u64,
}

impl<S: Suite> Suite for RoundLimit<S> {
    ghost meanings = { λ s. S.meanings s.suite };

    ghost faults = { λ s. min (S.faults s.suite + s.refused) (2 ^ 64 - 1) };

    ghost in_range = { λ s. Prim.omega arith };

    fn hmac_sha1(&self, key: &[u8], message: &[u8]) -> [u8; 20] {
        self.suite.hmac_sha1(key, message)
    }

    fn hmac_sha256(&self, key: &[u8], message: &[u8]) -> [u8; 32] {
        self.suite.hmac_sha256(key, message)
    }

    fn bcrypt(
        &mut self,
        pass: &[u8],
        salt: &[u8],
        rounds: u32,
        out: &mut [u8],
    ) -> Result<(), Failed>
        requires range { BcryptOk (length pass.now) (length salt.now) rounds }
        requires sized { IsBcryptLen (length out.old) }
        ensures limit { OnOk result (rounds ≤ self.old.most_rounds) }
        ensures stays { self.new.most_rounds ≡ self.old.most_rounds }

        // What every suite promises.
        ensures fills { Fills (λ s. S.meanings s.suite) (λ s. min (S.faults s.suite + s.refused) (2 ^ 64 - 1))
            ((S.meanings self.old.suite).bcrypt pass.now salt.now rounds (length out.old))
            result out.old out.new self.old self.new }
    {
        if rounds > self.most_rounds {
            self.refused = self.refused.saturating_add(1);
            return Err(Failed);
        }
        self.suite.bcrypt(pass, salt, rounds, out)
    }

    fn argon2(
        &mut self,
        flavour: Flavour,
        memory: u32,
        passes: u32,
        parallelism: u32,
        pass: &[u8],
        salt: &[u8],
        out: &mut [u8; 80],
    ) -> Result<(), Failed> {
        self.suite
            .argon2(flavour, memory, passes, parallelism, pass, salt, out)
    }

    fn cbc_seal(&mut self, key: &[u8], iv: &[u8; 16], block: &mut [u8]) -> Result<(), Failed> {
        self.suite.cbc_seal(key, iv, block)
    }

    fn cbc_open(&mut self, key: &[u8], iv: &[u8; 16], block: &mut [u8]) -> Result<(), Failed> {
        self.suite.cbc_open(key, iv, block)
    }

    fn ctr(&mut self, key: &[u8], iv: &[u8; 16], block: &mut [u8]) -> Result<(), Failed> {
        self.suite.ctr(key, iv, block)
    }
}

/// The key in an OpenSSH private key file, under its passphrase.
///
/// The suite derives no key of more rounds than it allows (`limit` of its `bcrypt`).
pub fn key_under_limit<S: Suite>(
    alloc: Global,
    suite: &mut RoundLimit<S>,
    text: &str,
    passphrase: &str,
) -> Result<SshPrivateKey, SshPrivateKeyError>
    // The text means this key under the passphrase, by PROTOCOL.key and what the inner suite's calls mean.
    ensures ok { IfOk result (IsPrivateText (S.meanings suite.old.suite) (Some passphrase.now) text.now) }

    // Else it is refused as `SshPrivateKey::from_pem_str` refuses it, or since the suite was asked and counted a fault.
    ensures refused { IfErr result (λ e. (e ≡ SshPrivateKeyError.NoMemory)
        ⊎ ((e ≡ SshPrivateKeyError.SuiteFault) × IsAskedFault (text_asks (Some passphrase.now) text.now)
        (Rose (min (S.faults suite.old.suite + suite.old.refused) (2 ^ 64 - 1)) (min (S.faults suite.new.suite + suite.new.refused) (2 ^ 64 - 1))))
        ⊎ (text_key (S.meanings suite.old.suite) (Some passphrase.now) text.now ≡ Err e)) }

    // What its calls mean stays, for the next call.
    ensures kept { S.meanings suite.new.suite ≡ S.meanings suite.old.suite }
{
    private_key_means_what_it_says();
    SshPrivateKey::from_pem_str(alloc, suite, text, Some(passphrase))
}
