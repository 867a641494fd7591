//! The keys of Argon2, which an encrypted file of version 3 has, one literal each.

ghost use Rattle.std.specs.Prelude.{◌≡◌, IfOk, IsOk, refl};
ghost use Rattle.picky_kv_words.specs.Literal.{word_of};
ghost use Rattle.picky_kv_words.specs.Argon2Keys.{key_derivation_key, argon2_memory_key};
ghost use Rattle.picky_kv_words.specs.Argon2Keys.{argon2_passes_key, argon2_parallelism_key};
ghost use Rattle.picky_kv_words.specs.Argon2Keys.{argon2_salt_key};
ghost use Rattle.picky_kv_words.specs.Argon2Keys.{key_derivation_key_row, argon2_memory_key_row};
ghost use Rattle.picky_kv_words.specs.Argon2Keys.{argon2_passes_key_row, argon2_parallelism_key_row};
ghost use Rattle.picky_kv_words.specs.Argon2Keys.{argon2_salt_key_row};

use crate::literals::{
    ARGON2_MEMORY, ARGON2_PARALLELISM, ARGON2_PASSES, ARGON2_SALT, KEY_DERIVATION,
    PPK_ARGON2_MEMORY_KEY, PPK_ARGON2_PARALLELISM_KEY, PPK_ARGON2_PASSES_KEY, PPK_ARGON2_SALT_KEY,
    PPK_KEY_DERIVATION_KEY,
};
use crate::word::{PpkWord, WordTexts};
use picky_wire_base::{NoMemory, TryClone};
use std::alloc::Global;

/// The key of the line that names the flavour of Argon2.
#[derive(Clone, Copy, Debug, Default, PartialEq, Eq)]
pub struct PpkKeyDerivationKey;

#[tactic(auto, unfolding(crate::specs::Argon2Keys::key_derivation_key))]
impl PpkWord for PpkKeyDerivationKey {
    ghost word = { word_of key_derivation_key_row key_derivation_key (record {}) (λ _. refl) };

    fn texts() -> WordTexts {
        WordTexts::new(KEY_DERIVATION, PPK_KEY_DERIVATION_KEY)
    }
}

impl TryClone for PpkKeyDerivationKey {
    fn try_clone(&self, _alloc: Global) -> Result<PpkKeyDerivationKey, NoMemory>
        ensures ok { IfOk result (λ copy. copy ≡ self.now) }
        ensures always { IsOk result }
    {
        Ok(*self)
    }
}

/// The key of the line of Argon2's memory.
#[derive(Clone, Copy, Debug, Default, PartialEq, Eq)]
pub struct PpkArgon2MemoryKey;

#[tactic(auto, unfolding(crate::specs::Argon2Keys::argon2_memory_key))]
impl PpkWord for PpkArgon2MemoryKey {
    ghost word = { word_of argon2_memory_key_row argon2_memory_key (record {}) (λ _. refl) };

    fn texts() -> WordTexts {
        WordTexts::new(ARGON2_MEMORY, PPK_ARGON2_MEMORY_KEY)
    }
}

impl TryClone for PpkArgon2MemoryKey {
    fn try_clone(&self, _alloc: Global) -> Result<PpkArgon2MemoryKey, NoMemory>
        ensures ok { IfOk result (λ copy. copy ≡ self.now) }
        ensures always { IsOk result }
    {
        Ok(*self)
    }
}

/// The key of the line of Argon2's passes.
#[derive(Clone, Copy, Debug, Default, PartialEq, Eq)]
pub struct PpkArgon2PassesKey;

#[tactic(auto, unfolding(crate::specs::Argon2Keys::argon2_passes_key))]
impl PpkWord for PpkArgon2PassesKey {
    ghost word = { word_of argon2_passes_key_row argon2_passes_key (record {}) (λ _. refl) };

    fn texts() -> WordTexts {
        WordTexts::new(ARGON2_PASSES, PPK_ARGON2_PASSES_KEY)
    }
}

impl TryClone for PpkArgon2PassesKey {
    fn try_clone(&self, _alloc: Global) -> Result<PpkArgon2PassesKey, NoMemory>
        ensures ok { IfOk result (λ copy. copy ≡ self.now) }
        ensures always { IsOk result }
    {
        Ok(*self)
    }
}

/// The key of the line of Argon2's parallelism.
#[derive(Clone, Copy, Debug, Default, PartialEq, Eq)]
pub struct PpkArgon2ParallelismKey;

#[tactic(auto, unfolding(crate::specs::Argon2Keys::argon2_parallelism_key))]
impl PpkWord for PpkArgon2ParallelismKey {
    ghost word = { word_of argon2_parallelism_key_row argon2_parallelism_key (record {}) (λ _. refl) };

    fn texts() -> WordTexts {
        WordTexts::new(ARGON2_PARALLELISM, PPK_ARGON2_PARALLELISM_KEY)
    }
}

impl TryClone for PpkArgon2ParallelismKey {
    fn try_clone(&self, _alloc: Global) -> Result<PpkArgon2ParallelismKey, NoMemory>
        ensures ok { IfOk result (λ copy. copy ≡ self.now) }
        ensures always { IsOk result }
    {
        Ok(*self)
    }
}

/// The key of the line of Argon2's salt.
#[derive(Clone, Copy, Debug, Default, PartialEq, Eq)]
pub struct PpkArgon2SaltKey;

#[tactic(auto, unfolding(crate::specs::Argon2Keys::argon2_salt_key))]
impl PpkWord for PpkArgon2SaltKey {
    ghost word = { word_of argon2_salt_key_row argon2_salt_key (record {}) (λ _. refl) };

    fn texts() -> WordTexts {
        WordTexts::new(ARGON2_SALT, PPK_ARGON2_SALT_KEY)
    }
}

impl TryClone for PpkArgon2SaltKey {
    fn try_clone(&self, _alloc: Global) -> Result<PpkArgon2SaltKey, NoMemory>
        ensures ok { IfOk result (λ copy. copy ≡ self.now) }
        ensures always { IsOk result }
    {
        Ok(*self)
    }
}
