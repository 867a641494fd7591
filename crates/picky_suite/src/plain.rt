//! The suite of this crate's own functions, which has MACs alone.

ghost use Rattle.std.specs.Prelude.{◌≡◌, ◌-◌, ◌^◌, ◌<◌, ℕ, length, min};
ghost use Rattle.std.proofs.Common.{arith};
ghost use Rattle.picky_suite.specs.Meanings.{Meanings, plain};
ghost use Rattle.picky_suite.specs.Ranges.{BcryptOk, Argon2Ok, IsBcryptLen, IsCipherKey, IsWhole};
ghost use Rattle.picky_suite.specs.Fills.{Fills};
ghost use Rattle.picky_suite.specs.Failures.{AlwaysFails};

use crate::flavour::Flavour;
use crate::hmac;
use crate::suite::Suite;
use picky_wire::Failed;
use std::marker::Model;

/// The suite of this crate's own functions: its MACs are those of RFC 2104, and each other call fails.
#[derive(PartialEq, Eq, Debug, Drop)]
pub struct PlainSuite {
    faults: u64,
}

impl Model for PlainSuite {
    ghost Value = { ℕ };

    ghost view = { λ s. s.faults };

    ghost inverse = { λ n. record { faults = n } };
}

impl PlainSuite {
    /// A suite whose MACs are HMAC over SHA-1 and SHA-256.
    pub fn new() -> PlainSuite
        ensures meanings { ⟦<PlainSuite as Suite>⟧.meanings result ≡ plain }
        ensures calm { result ≡ 0 }
    {
        PlainSuite { faults: 0 }
    }

    // The answer to a call that this suite hasn't.
    fn fail(&mut self) -> Result<(), Failed>
        ensures { AlwaysFails result self.old self.new }
    {
        self.faults = self.faults.saturating_add(1);
        Err(Failed)
    }
}

impl Suite for PlainSuite {
    ghost meanings = { λ _. plain };

    ghost faults = { λ s. min s (2 ^ 64 - 1) };

    ghost in_range = { λ s. Prim.omega arith };

    fn hmac_sha1(&self, key: &[u8], message: &[u8]) -> [u8; 20] {
        hmac::hmac_sha1(key, message)
    }

    fn hmac_sha256(&self, key: &[u8], message: &[u8]) -> [u8; 32] {
        hmac::hmac_sha256(key, message)
    }

    fn bcrypt(
        &mut self,
        _pass: &[u8],
        _salt: &[u8],
        _rounds: u32,
        _out: &mut [u8],
    ) -> Result<(), Failed>
        requires range { BcryptOk (length _pass.now) (length _salt.now) _rounds }
        requires sized { IsBcryptLen (length _out.old) }
        ensures fails { AlwaysFails result self.old self.new }

        // What every suite promises.
        ensures fills { Fills (λ _. plain) (λ s. min s (2 ^ 64 - 1))
            (plain.bcrypt _pass.now _salt.now _rounds (length _out.old))
            result _out.old _out.new self.old self.new }
    {
        self.fail()
    }

    fn argon2(
        &mut self,
        _flavour: Flavour,
        _memory: u32,
        _passes: u32,
        _parallelism: u32,
        _pass: &[u8],
        _salt: &[u8],
        _out: &mut [u8; 80],
    ) -> Result<(), Failed>
        requires { Argon2Ok _memory _passes _parallelism (length _pass.now) (length _salt.now) }
        ensures fails { AlwaysFails result self.old self.new }

        // What every suite promises.
        ensures fills { Fills (λ _. plain) (λ s. min s (2 ^ 64 - 1))
            (plain.argon2 _flavour _memory _passes _parallelism _pass.now _salt.now)
            result _out.old _out.new self.old self.new }
    {
        self.fail()
    }

    fn cbc_seal(&mut self, _key: &[u8], _iv: &[u8; 16], _block: &mut [u8]) -> Result<(), Failed>
        requires key { IsCipherKey _key.now }
        requires whole { IsWhole _block.old }
        ensures fails { AlwaysFails result self.old self.new }

        // What every suite promises.
        ensures fills { Fills (λ _. plain) (λ s. min s (2 ^ 64 - 1)) (plain.cbc_seal _key.now _iv.now _block.old)
            result _block.old _block.new self.old self.new }
    {
        self.fail()
    }

    fn cbc_open(&mut self, _key: &[u8], _iv: &[u8; 16], _block: &mut [u8]) -> Result<(), Failed>
        requires key { IsCipherKey _key.now }
        requires whole { IsWhole _block.old }
        ensures fails { AlwaysFails result self.old self.new }

        // What every suite promises.
        ensures fills { Fills (λ _. plain) (λ s. min s (2 ^ 64 - 1)) (plain.cbc_open _key.now _iv.now _block.old)
            result _block.old _block.new self.old self.new }
    {
        self.fail()
    }

    fn ctr(&mut self, _key: &[u8], _iv: &[u8; 16], _block: &mut [u8]) -> Result<(), Failed>
        requires { IsCipherKey _key.now }
        ensures fails { AlwaysFails result self.old self.new }

        // What every suite promises.
        ensures fills { Fills (λ _. plain) (λ s. min s (2 ^ 64 - 1)) (plain.ctr _key.now _iv.now _block.old)
            result _block.old _block.new self.old self.new }
    {
        self.fail()
    }
}
