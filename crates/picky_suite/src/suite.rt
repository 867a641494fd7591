//! The cryptography that callers hand in.

ghost use Rattle.std.specs.Prelude.{◌≡◌, ◌^◌, ◌<◌, ℕ, length};
ghost use Rattle.picky_suite.specs.Asked.{IsAskedAtMost};
ghost use Rattle.picky_suite.specs.Meanings.{Meanings};
ghost use Rattle.picky_suite.specs.Ranges.{BcryptOk, Argon2Ok, IsBcryptLen, IsCipherKey, IsWhole};
ghost use Rattle.picky_suite.specs.Fills.{Fills};

use crate::flavour::Flavour;
use picky_wire::Failed;

/// The cryptography that a call is handed. Each of its calls has a function of its arguments as its
/// meaning, which no call changes. The MACs can't fail; what another call's buffer holds after a
/// failure is open.
pub trait Suite {
    ghost meanings: { Self → Meanings };

    // how many calls failed; it stays at 2^64 - 1
    ghost faults: { Self → ℕ };

    // how often it was asked, at most; a device need not count, and who hands one on can't take two calls for one
    ghost calls: { Self → ℕ } = { λ _. 0 };

    /// HMAC-SHA-1 of the message, under a key of any length.
    fn hmac_sha1(&self, key: &[u8], message: &[u8]) -> [u8; 20]
        ensures { result ≡ (meanings self.now).hmac_sha1 key.now message.now };

    /// HMAC-SHA-256 of the message, under a key of any length.
    fn hmac_sha256(&self, key: &[u8], message: &[u8]) -> [u8; 32]
        ensures { result ≡ (meanings self.now).hmac_sha256 key.now message.now };

    /// Derives the bytes of `out` by OpenSSH's bcrypt-pbkdf; what `out` held is no part of it. Refuses: `Failed`.
    fn bcrypt(
        &mut self,
        pass: &[u8],
        salt: &[u8],
        rounds: u32,
        out: &mut [u8],
    ) -> Result<(), Failed>
        requires range { BcryptOk (length pass.now) (length salt.now) rounds }
        requires sized { IsBcryptLen (length out.old) }
        ensures asked { IsAskedAtMost 1 calls self.old self.new }
        ensures fills { Fills meanings faults
            ((meanings self.old).bcrypt pass.now salt.now rounds (length out.old))
            result out.old out.new self.old self.new };

    /// Derives the bytes of `out` by Argon2 (RFC 9106), with `memory` in KiB; what `out` held is no part of it.
    /// Refuses: `Failed`.
    fn argon2(
        &mut self,
        flavour: Flavour,
        memory: u32,
        passes: u32,
        parallelism: u32,
        pass: &[u8],
        salt: &[u8],
        out: &mut [u8; 80],
    ) -> Result<(), Failed>
        requires { Argon2Ok memory passes parallelism (length pass.now) (length salt.now) }
        ensures asked { IsAskedAtMost 1 calls self.old self.new }
        ensures fills { Fills meanings faults
            ((meanings self.old).argon2 flavour memory passes parallelism pass.now salt.now)
            result out.old out.new self.old self.new };

    /// Seals whole blocks in place, by AES in CBC mode. Refuses: `Failed`.
    fn cbc_seal(&mut self, key: &[u8], iv: &[u8; 16], block: &mut [u8]) -> Result<(), Failed>
        requires key { IsCipherKey key.now }
        requires whole { IsWhole block.old }
        ensures asked { IsAskedAtMost 1 calls self.old self.new }
        ensures fills { Fills meanings faults ((meanings self.old).cbc_seal key.now iv.now block.old)
            result block.old block.new self.old self.new };

    /// Opens whole blocks in place, by AES in CBC mode. Refuses: `Failed`.
    fn cbc_open(&mut self, key: &[u8], iv: &[u8; 16], block: &mut [u8]) -> Result<(), Failed>
        requires key { IsCipherKey key.now }
        requires whole { IsWhole block.old }
        ensures asked { IsAskedAtMost 1 calls self.old self.new }
        ensures fills { Fills meanings faults ((meanings self.old).cbc_open key.now iv.now block.old)
            result block.old block.new self.old self.new };

    /// Seals or opens bytes in place, by AES in CTR mode, whose first counter is the iv. Refuses: `Failed`.
    fn ctr(&mut self, key: &[u8], iv: &[u8; 16], block: &mut [u8]) -> Result<(), Failed>
        requires { IsCipherKey key.now }
        ensures asked { IsAskedAtMost 1 calls self.old self.new }
        ensures fills { Fills meanings faults ((meanings self.old).ctr key.now iv.now block.old)
            result block.old block.new self.old self.new };

    ghost in_range: { (s : Self) → faults s < 2 ^ 64 };
}
