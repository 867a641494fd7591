//! The keys that a passphrase makes.

ghost use Rattle.std.specs.Prelude.{◌≡◌, ℕ, List, length, Ok, IfOk, IsOk};
ghost use Rattle.picky_suite.specs.Asked.{IsAskedAtMost, LeavesSuite};
ghost use Rattle.picky_wire.specs.Count.{Rose};
ghost use Rattle.picky_ppk_parts.specs.Asked.{GivesUnlessFault};
ghost use Rattle.picky_ppk_parts.specs.Material.{flavour_named, counted_digest, cipher_key_v2, cipher_iv_v2};
ghost use Rattle.picky_ppk_parts.specs.Material.{params_fit, material_v3, parts_of};
ghost use Rattle.picky_ppk_parts.specs.Keys.{Keys};

use crate::error::PuttyError;
use crate::names::Argon2Flavour;
use picky_kv::Argon2FlavourValue;
use picky_suite::{Flavour, Suite, argon2_ok};
use picky_wire::{Bytes, Failed, NoMemory, TryClone};
use sha1::Sha1;
use std::alloc::Global;
use std::marker::Model;

/// What Argon2 is run with in a sealed file of version 3, beside the passphrase.
#[derive(Debug, Drop, PartialEq, Eq)]
pub struct Argon2Params {
    pub flavor: Argon2Flavour,
    /// In KiB.
    pub memory: u32,
    pub passes: u32,
    pub parallelism: u32,
    pub salt: Bytes,
}

impl TryClone for Argon2Params {
    fn try_clone(&self, alloc: Global) -> Result<Argon2Params, NoMemory> {
        let salt = self.salt.try_clone(alloc)?;
        Ok(Argon2Params {
            flavor: self.flavor,
            memory: self.memory,
            passes: self.passes,
            parallelism: self.parallelism,
            salt,
        })
    }
}

/// The flavour of a suite that a value names.
pub fn flavour_of(value: &Argon2FlavourValue) -> Flavour
    ensures { result ≡ flavour_named value.now }
{
    match value {
        Argon2FlavourValue::Argon2d => Flavour::Argon2d,
        Argon2FlavourValue::Argon2i => Flavour::Argon2i,
        Argon2FlavourValue::Argon2id => Flavour::Argon2id,
    }
}

/// What a passphrase makes in version 2: the cipher's key. Its iv is zeros.
#[derive(Debug, Drop, PartialEq, Eq)]
pub struct KeyMaterialV2 {
    key: [u8; 32],
}

impl Model for KeyMaterialV2 {
    ghost Value = { List ℕ };

    ghost view = { λ material. material.key };

    ghost inverse = { λ key. record { key = key } };
}

impl KeyMaterialV2 {
    /// The key of a passphrase.
    #[tactic(auto, unfolding(crate::specs::Material::cipher_key_v2))]
    pub fn derive(passphrase: &str) -> KeyMaterialV2
        ensures { result ≡ cipher_key_v2 passphrase.now }
    {
        let first = counted_digest(0, passphrase);
        let second = counted_digest(1, passphrase);
        let (more, _) = second.split_at(12);
        let mut key = [0; 32];
        let (front, back) = key.split_at_mut(20);
        front.copy_from_slice(&first);
        back.copy_from_slice(more);
        KeyMaterialV2 { key }
    }

    /// The cipher's key, of 32 bytes.
    pub fn key(&self) -> &[u8]
        ensures { result.now ≡ self.now }
    {
        &self.key
    }

    /// The cipher's key, as the cipher takes it.
    pub fn cipher_key(&self) -> &[u8; 32]
        ensures { result.now ≡ self.now }
    {
        &self.key
    }

    /// The cipher's iv.
    pub fn iv() -> [u8; 16]
        ensures { result ≡ cipher_iv_v2 }
    {
        [0; 16]
    }
}

impl TryClone for KeyMaterialV2 {
    fn try_clone(&self, _alloc: Global) -> Result<KeyMaterialV2, NoMemory>
        ensures ok { IfOk result (λ copy. copy ≡ self.now) }
        ensures always { IsOk result }
    {
        Ok(KeyMaterialV2 { key: self.key })
    }
}

/// SHA-1 of a counter and the passphrase.
fn counted_digest(n: u32, passphrase: &str) -> [u8; 20]
    ensures { result ≡ counted_digest n passphrase.now }
{
    let mut hasher = Sha1::new();
    hasher.update(&n.to_be_bytes());
    hasher.update(passphrase.as_bytes());
    hasher.finalize()
}

/// What a passphrase makes in version 3: the cipher's key and iv, and the MAC's key.
#[derive(Debug, Drop, PartialEq, Eq)]
pub struct KeyMaterialV3 {
    key: [u8; 32],
    iv: [u8; 16],
    hmac_key: [u8; 32],
}

impl Model for KeyMaterialV3 {
    ghost Value = { Keys };

    ghost view = { λ material. record { key = material.key; iv = material.iv; mac_key = material.hmac_key } };

    ghost inverse = { λ keys. record { key = keys.key; iv = keys.iv; hmac_key = keys.mac_key } };
}

impl KeyMaterialV3 {
    /// The keys that Argon2 gives for a passphrase.
    ///
    /// Refuses, in order: `Argon2`, where it can't be run with these numbers; `SuiteFault`.
    #[tactic(auto, unfolding(crate::specs::Material::material_v3, crate::specs::Material::params_fit, crate::specs::Material::derived_v3))]
    pub fn derive<S: Suite>(
        suite: &mut S,
        params: &Argon2Params,
        passphrase: &str,
    ) -> Result<KeyMaterialV3, PuttyError>
        ensures gives { GivesUnlessFault PuttyError.SuiteFault (λ keys. keys) result
            (material_v3 (S.meanings suite.old) params.now passphrase.now) (params_fit params.now passphrase.now)
            (Rose (S.faults suite.old) (S.faults suite.new)) }
        ensures suite { LeavesSuite S.meanings S.faults PuttyError.SuiteFault (params_fit params.now passphrase.now)
            result suite.old suite.new }
        ensures asked { IsAskedAtMost 1 S.calls suite.old suite.new }
    {
        let salt = params.salt.as_slice();
        if !argon2_ok(
            params.memory,
            params.passes,
            params.parallelism,
            passphrase.len(),
            salt.len(),
        ) {
            return Err(PuttyError::Argon2);
        }
        let mut derived = [0; 80];
        match suite.argon2(
            flavour_of(&params.flavor),
            params.memory,
            params.passes,
            params.parallelism,
            passphrase.as_bytes(),
            salt,
            &mut derived,
        ) {
            Ok(()) => Ok(KeyMaterialV3::of_derived(&derived)),
            Err(Failed) => Err(PuttyError::SuiteFault),
        }
    }

    /// The keys in what was derived.
    fn of_derived(derived: &[u8; 80]) -> KeyMaterialV3
        ensures { result ≡ parts_of derived.now }
    {
        let (front, back) = derived.split_at(32);
        let (middle, last) = back.split_at(16);
        let mut key = [0; 32];
        key.copy_from_slice(front);
        let mut iv = [0; 16];
        iv.copy_from_slice(middle);
        let mut hmac_key = [0; 32];
        hmac_key.copy_from_slice(last);
        KeyMaterialV3 { key, iv, hmac_key }
    }

    /// The cipher's key, of 32 bytes.
    pub fn key(&self) -> &[u8]
        ensures { result.now ≡ self.now.key }
    {
        &self.key
    }

    /// The cipher's iv, of 16 bytes.
    pub fn iv(&self) -> &[u8]
        ensures { result.now ≡ self.now.iv }
    {
        &self.iv
    }

    /// The MAC's key, of 32 bytes.
    pub fn hmac_key(&self) -> &[u8]
        ensures { result.now ≡ self.now.mac_key }
    {
        &self.hmac_key
    }

    /// The cipher's key, as the cipher takes it.
    pub fn cipher_key(&self) -> &[u8; 32]
        ensures { result.now ≡ self.now.key }
    {
        &self.key
    }

    /// The cipher's iv, as the cipher takes it.
    pub fn cipher_iv(&self) -> &[u8; 16]
        ensures { result.now ≡ self.now.iv }
    {
        &self.iv
    }
}

impl TryClone for KeyMaterialV3 {
    fn try_clone(&self, _alloc: Global) -> Result<KeyMaterialV3, NoMemory>
        ensures ok { IfOk result (λ copy. copy ≡ self.now) }
        ensures always { IsOk result }
    {
        Ok(KeyMaterialV3 {
            key: self.key,
            iv: self.iv,
            hmac_key: self.hmac_key,
        })
    }
}
