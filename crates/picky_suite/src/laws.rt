//! The laws of this crate: what holds over any suite and any signer, as the contracts of calls that use one.

ghost use Rattle.std.specs.Prelude.{◌≡◌, ◌↔◌, ℕ, List, true, false, length, Err, IfOk, OnOk, OnErr};
ghost use Rattle.picky_wire.specs.Count.{Rose};
ghost use Rattle.picky_wire_base.specs.Equality.{IsEquality};
ghost use Rattle.picky_keys.specs.declared.public_key.PublicKey.{PublicKey};
ghost use Rattle.picky_keys.specs.declared.algorithm.SignatureAlgorithm.{SignatureAlgorithm as Algorithm};
ghost use Rattle.picky_suite.specs.Failures.{IsAskedFault};
ghost use Rattle.picky_keys.specs.PrivateKey.{issuer_key};
ghost use Rattle.picky_suite.specs.Ranges.{BcryptOk, Argon2Ok, bcrypt_fits, argon2_fits, IsCipherKey, IsWhole};
ghost use Rattle.picky_suite.specs.Fills.{Fills};
ghost use Rattle.picky_suite.specs.inner.Parts.{derived_key, iv_of};

use crate::flavour::Flavour;
use crate::plain::PlainSuite;
use crate::ranges::bcrypt_ok;
use crate::signer::{SignError, Signer};
use crate::suite::Suite;
use picky_keys::{Issuer, SignatureAlgorithm};
use picky_wire::{Bytes, Failed};
use std::alloc::Global;

/// What is sealed is opened, under the same key and iv. Refuses: `Failed`.
pub fn what_is_sealed_is_opened<S: Suite>(
    suite: &mut S,
    key: &[u8],
    iv: &[u8; 16],
    block: &mut [u8],
) -> Result<(), Failed>
    requires key { IsCipherKey key.now }
    requires whole { IsWhole block.old }
    ensures { Fills S.meanings S.faults block.old result block.old block.new suite.old suite.new }
{
    suite.cbc_seal(key, iv, block)?;
    suite.cbc_open(key, iv, block)
}

/// The counter cipher undoes itself, under the same key and iv. Refuses: `Failed`.
pub fn the_counter_cipher_undoes_itself<S: Suite>(
    suite: &mut S,
    key: &[u8],
    iv: &[u8; 16],
    block: &mut [u8],
) -> Result<(), Failed>
    requires { IsCipherKey key.now }
    ensures { Fills S.meanings S.faults block.old result block.old block.new suite.old suite.new }
{
    suite.ctr(key, iv, block)?;
    suite.ctr(key, iv, block)
}

/// What is sealed under a key and an iv that were derived is opened under those that are derived again.
/// Refuses: `Failed`.
pub fn what_is_sealed_under_a_passphrase_is_opened<S: Suite>(
    suite: &mut S,
    pass: &[u8],
    salt: &[u8],
    rounds: u32,
    block: &mut [u8],
) -> Result<(), Failed>
    requires range { BcryptOk (length pass.now) (length salt.now) rounds }
    requires whole { IsWhole block.old }
    ensures { Fills S.meanings S.faults block.old result block.old block.new suite.old suite.new }
{
    seal_under(suite, pass, salt, rounds, block)?;
    open_under(suite, pass, salt, rounds, block)
}

/// Where the range is tested first, the suite is asked only inside it, and its fault comes only there.
/// Refuses: `Failed`.
pub fn a_tested_range_is_asked<S: Suite>(
    suite: &mut S,
    pass: &[u8],
    salt: &[u8],
    rounds: u32,
    out: &mut [u8; 48],
) -> Result<bool, Failed>
    ensures asked { IfOk result (λ asked. asked ≡ bcrypt_fits (length pass.now) (length salt.now) rounds) }
    ensures fault { OnErr result (IsAskedFault (bcrypt_fits (length pass.now) (length salt.now) rounds)
        (Rose (S.faults suite.old) (S.faults suite.new))) }
    ensures unasked { bcrypt_fits (length pass.now) (length salt.now) rounds ≡ false
        → (suite.new ≡ suite.old) × (out.new ≡ out.old) }
{
    if !bcrypt_ok(pass.len(), salt.len(), rounds) {
        return Ok(false);
    }
    suite.bcrypt(pass, salt, rounds, out)?;
    Ok(true)
}

/// Two signatures of one message are good by one relation. Refuses: `Failed`; `NoMemory`.
pub fn two_signatures_are_good<G: Signer>(
    signer: &mut G,
    alloc: Global,
    issuer: &Issuer,
    algorithm: SignatureAlgorithm,
    message: &[u8],
) -> Result<(Bytes, Bytes), SignError>
    ensures first { IfOk result (λ both. G.signs signer.old (issuer_key issuer.now) algorithm message.now both.0) }
    ensures second { IfOk result (λ both. G.signs signer.old (issuer_key issuer.now) algorithm message.now both.1) }
    ensures calm { OnOk result (G.faults signer.new ≡ G.faults signer.old) }
    ensures counted { result ≡ Err SignError.Failed → Rose (G.faults signer.old) (G.faults signer.new) }
    ensures kept { (k : PublicKey) (a : Algorithm) (m s : List ℕ) → G.signs signer.new k a m s ↔ G.signs signer.old k a m s }
{
    let first = signer.sign(alloc, issuer, algorithm, message)?;
    let second = signer.sign(alloc, issuer, algorithm, message)?;
    Ok((first, second))
}

/// Flavours, refusals to sign and plain suites are equal exactly where their contents are.
pub fn equality_is_of_contents()
    ensures flavour { IsEquality ⟦<Flavour as PartialEq>⟧.eq }
    ensures refusal { IsEquality ⟦<SignError as PartialEq>⟧.eq }
    ensures suite { IsEquality ⟦<PlainSuite as PartialEq>⟧.eq }
{}

/// The tests of the ranges hold exactly in the ranges.
#[tactic(auto, using(crate::proofs::RangeLemmas::bcrypt_decides, crate::proofs::RangeLemmas::argon2_decides))]
pub fn the_tests_are_the_ranges()
    ensures bcrypt { (pass_len salt_len rounds : ℕ)
        → (bcrypt_fits pass_len salt_len rounds ≡ true) ↔ BcryptOk pass_len salt_len rounds }
    ensures argon2 { (memory passes parallelism pass_len salt_len : ℕ)
        → (argon2_fits memory passes parallelism pass_len salt_len ≡ true)
        ↔ Argon2Ok memory passes parallelism pass_len salt_len }
{}

// Seals under the key and the iv that bcrypt gives.
fn seal_under<S: Suite>(
    suite: &mut S,
    pass: &[u8],
    salt: &[u8],
    rounds: u32,
    block: &mut [u8],
) -> Result<(), Failed>
    requires range { BcryptOk (length pass.now) (length salt.now) rounds }
    requires whole { IsWhole block.old }
    ensures { Fills S.meanings S.faults
        ((S.meanings suite.old).cbc_seal
        (derived_key ((S.meanings suite.old).bcrypt pass.now salt.now rounds 48))
        (iv_of ((S.meanings suite.old).bcrypt pass.now salt.now rounds 48)) block.old)
        result block.old block.new suite.old suite.new }
{
    let mut derived = [0; 48];
    suite.bcrypt(pass, salt, rounds, &mut derived)?;
    suite.cbc_seal(&derived_key(&derived), &iv_of(&derived), block)
}

// Opens under the key and the iv that bcrypt gives.
fn open_under<S: Suite>(
    suite: &mut S,
    pass: &[u8],
    salt: &[u8],
    rounds: u32,
    block: &mut [u8],
) -> Result<(), Failed>
    requires range { BcryptOk (length pass.now) (length salt.now) rounds }
    requires whole { IsWhole block.old }
    ensures { Fills S.meanings S.faults
        ((S.meanings suite.old).cbc_open
        (derived_key ((S.meanings suite.old).bcrypt pass.now salt.now rounds 48))
        (iv_of ((S.meanings suite.old).bcrypt pass.now salt.now rounds 48)) block.old)
        result block.old block.new suite.old suite.new }
{
    let mut derived = [0; 48];
    suite.bcrypt(pass, salt, rounds, &mut derived)?;
    suite.cbc_open(&derived_key(&derived), &iv_of(&derived), block)
}

// The key in front of what was derived.
#[tactic(auto, unfolding(crate::specs::inner::Parts::derived_key))]
fn derived_key(derived: &[u8; 48]) -> [u8; 32]
    ensures { result ≡ derived_key derived.now }
{
    let mut key = [0; 32];
    key.copy_from_slice(&derived[..32]);
    key
}

// The iv behind it.
#[tactic(auto, unfolding(crate::specs::inner::Parts::iv_of))]
fn iv_of(derived: &[u8; 48]) -> [u8; 16]
    ensures { result ≡ iv_of derived.now }
{
    let mut iv = [0; 16];
    iv.copy_from_slice(derived.split_at(32).1);
    iv
}
