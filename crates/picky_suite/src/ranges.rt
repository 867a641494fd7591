//! Which numbers and lengths the key derivations of a suite can be given.

ghost use Rattle.std.specs.Prelude.{◌≡◌, ◌↔◌, IsTrue};
ghost use Rattle.picky_suite.specs.Ranges.{BcryptOk, Argon2Ok, bcrypt_fits, argon2_fits};

use picky_wire::MAX_LEN;

/// Whether `Suite::bcrypt` can be given a passphrase and a salt of these lengths, and this number of rounds.
#[tactic(auto, unfolding(crate::specs::Ranges::bcrypt_fits))]
pub fn bcrypt_ok(pass_len: usize, salt_len: usize, rounds: u32) -> bool
    ensures holds { IsTrue result ↔ BcryptOk pass_len salt_len rounds }
    ensures test { result ≡ bcrypt_fits pass_len salt_len rounds }
{
    1 <= pass_len && pass_len <= MAX_LEN && 1 <= salt_len && salt_len <= MAX_LEN && 1 <= rounds
}

/// Whether `Suite::argon2` can be given these numbers, and a passphrase and a salt of these lengths.
#[tactic(auto, unfolding(crate::specs::Ranges::argon2_fits))]
pub fn argon2_ok(
    memory: u32,
    passes: u32,
    parallelism: u32,
    pass_len: usize,
    salt_len: usize,
) -> bool
    ensures holds { IsTrue result ↔ Argon2Ok memory passes parallelism pass_len salt_len }
    ensures test { result ≡ argon2_fits memory passes parallelism pass_len salt_len }
{
    1 <= parallelism
        && parallelism <= 16_777_215
        && 8 * u64::from(parallelism) <= u64::from(memory)
        && 1 <= passes
        && pass_len <= MAX_LEN
        && 8 <= salt_len
        && salt_len <= MAX_LEN
}
