//! The suite for tests: its MACs are real, its ciphers and derivations lawful and without security.

ghost use Rattle.std.specs.Prelude.{◌≡◌, ◌-◌, ◌^◌, ℕ, length, min, IfOk};
ghost use Rattle.std.proofs.Common.{arith};
ghost use Rattle.picky_wire.specs.Count.{Calls};
ghost use Rattle.picky_suite.specs.Meanings.{Meanings};
ghost use Rattle.picky_suite.specs.Memory.{toy};
ghost use Rattle.picky_suite.specs.Ranges.{BcryptOk, Argon2Ok, IsBcryptLen, IsCipherKey, IsWhole};
ghost use Rattle.picky_suite.specs.Fills.{Fills};
ghost use Rattle.picky_suite.specs.Failures.{FailsAsListed};

use crate::flavour::Flavour;
use crate::suite::Suite;
use crate::{hmac, toy};
use picky_wire::{Failed, FailingCalls, NoMemory};
use std::alloc::Global;
use std::marker::Model;

/// A suite for tests, of whose calls some fail. Its MACs are those of RFC 2104; its cipher xors with the key, and
/// its derivations are SHA-512: they keep a suite's laws, and nothing is safe.
#[derive(Debug, Drop)]
pub struct MemorySuite {
    calls: FailingCalls,
}

impl Model for MemorySuite {
    ghost Value = { Calls };

    ghost view = { λ s. s.calls };
}

impl MemorySuite {
    /// Fails the calls whose numbers are listed, counted from 0 over the five calls that can fail. Refuses: `NoMemory`.
    pub fn new(alloc: Global, failing: &[u64]) -> Result<MemorySuite, NoMemory>
        ensures meanings { IfOk result (λ suite. ⟦<MemorySuite as Suite>⟧.meanings suite ≡ toy) }
        ensures calls { IfOk result
            (λ suite. suite ≡ record { failing = failing.now; made = 0; faults = 0 }) }
    {
        let calls = FailingCalls::new(alloc, failing)?;
        Ok(MemorySuite { calls })
    }

    // Counts one call, which fails where its number is listed.
    fn next(&mut self) -> Result<(), Failed>
        ensures { FailsAsListed result self.old self.new }
    {
        if self.calls.next_fails() {
            self.calls.count_failed();
            return Err(Failed);
        }
        self.calls.count_passed();
        Ok(())
    }
}

impl Suite for MemorySuite {
    ghost meanings = { λ _. toy };

    ghost faults = { λ s. min s.faults (2 ^ 64 - 1) };

    ghost in_range = { λ s. Prim.omega arith };

    fn hmac_sha1(&self, key: &[u8], message: &[u8]) -> [u8; 20] {
        hmac::hmac_sha1(key, message)
    }

    fn hmac_sha256(&self, key: &[u8], message: &[u8]) -> [u8; 32] {
        hmac::hmac_sha256(key, message)
    }

    fn bcrypt(
        &mut self,
        pass: &[u8],
        salt: &[u8],
        rounds: u32,
        out: &mut [u8],
    ) -> Result<(), Failed>
        requires range { BcryptOk (length pass.now) (length salt.now) rounds }
        requires sized { IsBcryptLen (length out.old) }
        ensures listed { FailsAsListed result self.old self.new }

        // What every suite promises.
        ensures fills { Fills (λ _. toy) (λ s. min s.faults (2 ^ 64 - 1))
            (toy.bcrypt pass.now salt.now rounds (length out.old))
            result out.old out.new self.old self.new }
    {
        self.next()?;
        toy::derive(pass, salt, &[rounds], out);
        Ok(())
    }

    fn argon2(
        &mut self,
        flavour: Flavour,
        memory: u32,
        passes: u32,
        parallelism: u32,
        pass: &[u8],
        salt: &[u8],
        out: &mut [u8; 80],
    ) -> Result<(), Failed>
        requires { Argon2Ok memory passes parallelism (length pass.now) (length salt.now) }
        ensures listed { FailsAsListed result self.old self.new }

        // What every suite promises.
        ensures fills { Fills (λ _. toy) (λ s. min s.faults (2 ^ 64 - 1))
            (toy.argon2 flavour memory passes parallelism pass.now salt.now)
            result out.old out.new self.old self.new }
    {
        self.next()?;
        let numbers = [toy::flavour_number(flavour), memory, passes, parallelism];
        toy::derive(pass, salt, &numbers, out);
        Ok(())
    }

    fn cbc_seal(&mut self, key: &[u8], iv: &[u8; 16], block: &mut [u8]) -> Result<(), Failed>
        requires key { IsCipherKey key.now }
        requires whole { IsWhole block.old }
        ensures listed { FailsAsListed result self.old self.new }

        // What every suite promises.
        ensures fills { Fills (λ _. toy) (λ s. min s.faults (2 ^ 64 - 1)) (toy.cbc_seal key.now iv.now block.old)
            result block.old block.new self.old self.new }
    {
        self.next()?;
        toy::seal_text(key, iv, block);
        Ok(())
    }

    fn cbc_open(&mut self, key: &[u8], iv: &[u8; 16], block: &mut [u8]) -> Result<(), Failed>
        requires key { IsCipherKey key.now }
        requires whole { IsWhole block.old }
        ensures listed { FailsAsListed result self.old self.new }

        // What every suite promises.
        ensures fills { Fills (λ _. toy) (λ s. min s.faults (2 ^ 64 - 1)) (toy.cbc_open key.now iv.now block.old)
            result block.old block.new self.old self.new }
    {
        self.next()?;
        toy::open_text(key, iv, block);
        Ok(())
    }

    fn ctr(&mut self, key: &[u8], iv: &[u8; 16], block: &mut [u8]) -> Result<(), Failed>
        requires { IsCipherKey key.now }
        ensures listed { FailsAsListed result self.old self.new }

        // What every suite promises.
        ensures fills { Fills (λ _. toy) (λ s. min s.faults (2 ^ 64 - 1)) (toy.ctr key.now iv.now block.old)
            result block.old block.new self.old self.new }
    {
        self.next()?;
        toy::mask_text(key, iv, block);
        Ok(())
    }
}
