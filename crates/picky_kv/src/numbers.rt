//! Numbers in decimal: Argon2's, and how many lines a block has.

ghost use Rattle.std.specs.Prelude.{◌≡◌, ◌^◌, ◌<◌, ℕ, IfOk, IsOk};
ghost use Rattle.picky_wire_base.specs.Gives.{Gives};
ghost use Rattle.picky_kv_words.specs.Field.{field_value, IsSpelling};
ghost use Rattle.picky_kv.specs.NumberFields.{u32_field, count_field};

use crate::literals::{VALID_COUNT, VALID_U32};
use picky_kv_words::{PpkField, PpkValueError, refused, text_within};
use picky_wire_base::{NoMemory, SizeError, Text, TryClone};
use std::alloc::Global;
use std::marker::Model;

/// Argon2's memory, in kibibytes.
#[derive(Clone, Copy, Debug, PartialEq, Eq)]
pub struct PpkArgon2MemoryValue {
    number: u32,
}

impl Model for PpkArgon2MemoryValue {
    ghost Value = { ℕ };

    ghost view = { λ v. v.number };

    ghost invariant = { λ v. v.number < 2 ^ 32 };

    ghost inverse = { λ n. record { number = n } };
}

impl PpkField for PpkArgon2MemoryValue {
    ghost field = { u32_field };

    fn read(alloc: Global, text: &str) -> Result<PpkArgon2MemoryValue, PpkValueError> {
        match read_u32(alloc, text) {
            Ok(number) => Ok(PpkArgon2MemoryValue { number }),
            Err(e) => Err(e),
        }
    }

    #[tactic(auto, unfolding(crate::specs::NumberFields::u32_field))]
    fn write(&self, alloc: Global) -> Result<Text, SizeError> {
        u32_text(alloc, self.number)
    }
}

impl TryClone for PpkArgon2MemoryValue {
    fn try_clone(&self, _alloc: Global) -> Result<PpkArgon2MemoryValue, NoMemory>
        ensures ok { IfOk result (λ copy. copy ≡ self.now) }
        ensures always { IsOk result }
    {
        Ok(*self)
    }
}

impl From<u32> for PpkArgon2MemoryValue {
    ghost from_gives = { λ n v. v ≡ n };

    fn from(number: u32) -> PpkArgon2MemoryValue {
        PpkArgon2MemoryValue { number }
    }
}

impl From<PpkArgon2MemoryValue> for u32 {
    ghost from_gives = { λ v n. n ≡ v };

    fn from(value: PpkArgon2MemoryValue) -> u32 {
        value.number
    }
}

/// Argon2's passes.
#[derive(Clone, Copy, Debug, PartialEq, Eq)]
pub struct PpkArgon2PassesValue {
    number: u32,
}

impl Model for PpkArgon2PassesValue {
    ghost Value = { ℕ };

    ghost view = { λ v. v.number };

    ghost invariant = { λ v. v.number < 2 ^ 32 };

    ghost inverse = { λ n. record { number = n } };
}

impl PpkField for PpkArgon2PassesValue {
    ghost field = { u32_field };

    fn read(alloc: Global, text: &str) -> Result<PpkArgon2PassesValue, PpkValueError> {
        match read_u32(alloc, text) {
            Ok(number) => Ok(PpkArgon2PassesValue { number }),
            Err(e) => Err(e),
        }
    }

    #[tactic(auto, unfolding(crate::specs::NumberFields::u32_field))]
    fn write(&self, alloc: Global) -> Result<Text, SizeError> {
        u32_text(alloc, self.number)
    }
}

impl TryClone for PpkArgon2PassesValue {
    fn try_clone(&self, _alloc: Global) -> Result<PpkArgon2PassesValue, NoMemory>
        ensures ok { IfOk result (λ copy. copy ≡ self.now) }
        ensures always { IsOk result }
    {
        Ok(*self)
    }
}

impl From<u32> for PpkArgon2PassesValue {
    ghost from_gives = { λ n v. v ≡ n };

    fn from(number: u32) -> PpkArgon2PassesValue {
        PpkArgon2PassesValue { number }
    }
}

impl From<PpkArgon2PassesValue> for u32 {
    ghost from_gives = { λ v n. n ≡ v };

    fn from(value: PpkArgon2PassesValue) -> u32 {
        value.number
    }
}

/// Argon2's parallelism.
#[derive(Clone, Copy, Debug, PartialEq, Eq)]
pub struct PpkArgon2ParallelismValue {
    number: u32,
}

impl Model for PpkArgon2ParallelismValue {
    ghost Value = { ℕ };

    ghost view = { λ v. v.number };

    ghost invariant = { λ v. v.number < 2 ^ 32 };

    ghost inverse = { λ n. record { number = n } };
}

impl PpkField for PpkArgon2ParallelismValue {
    ghost field = { u32_field };

    fn read(alloc: Global, text: &str) -> Result<PpkArgon2ParallelismValue, PpkValueError> {
        match read_u32(alloc, text) {
            Ok(number) => Ok(PpkArgon2ParallelismValue { number }),
            Err(e) => Err(e),
        }
    }

    #[tactic(auto, unfolding(crate::specs::NumberFields::u32_field))]
    fn write(&self, alloc: Global) -> Result<Text, SizeError> {
        u32_text(alloc, self.number)
    }
}

impl TryClone for PpkArgon2ParallelismValue {
    fn try_clone(&self, _alloc: Global) -> Result<PpkArgon2ParallelismValue, NoMemory>
        ensures ok { IfOk result (λ copy. copy ≡ self.now) }
        ensures always { IsOk result }
    {
        Ok(*self)
    }
}

impl From<u32> for PpkArgon2ParallelismValue {
    ghost from_gives = { λ n v. v ≡ n };

    fn from(number: u32) -> PpkArgon2ParallelismValue {
        PpkArgon2ParallelismValue { number }
    }
}

impl From<PpkArgon2ParallelismValue> for u32 {
    ghost from_gives = { λ v n. n ≡ v };

    fn from(value: PpkArgon2ParallelismValue) -> u32 {
        value.number
    }
}

/// How many lines follow in a block.
#[derive(Clone, Copy)]
pub(crate) struct LineCount {
    number: u16,
}

impl Model for LineCount {
    ghost Value = { ℕ };

    ghost view = { λ v. v.number };

    ghost invariant = { λ v. v.number < 2 ^ 16 };

    ghost inverse = { λ n. record { number = n } };
}

impl LineCount {
    /// The number.
    pub(crate) fn number(self) -> u16
        ensures { result ≡ self }
    {
        self.number
    }
}

#[tactic(auto, unfolding(crate::specs::NumberFields::count_field))]
impl PpkField for LineCount {
    ghost field = { count_field };

    fn read(alloc: Global, text: &str) -> Result<LineCount, PpkValueError> {
        match text.parse::<u16>() {
            Ok(number) => Ok(LineCount { number }),
            Err(_) => Err(refused(alloc, VALID_COUNT, text)),
        }
    }

    fn write(&self, alloc: Global) -> Result<Text, SizeError> {
        match format!(in alloc; "{}", self.number) {
            Ok(string) => text_within(string),
            Err(_) => Err(SizeError::NoMemory),
        }
    }
}

#[tactic(auto, unfolding(crate::specs::NumberFields::u32_field))]
fn read_u32(alloc: Global, text: &str) -> Result<u32, PpkValueError>
    ensures { Gives PpkValueError.NoMemory (λ number. number) result (field_value u32_field text.now) }
{
    match text.parse::<u32>() {
        Ok(number) => Ok(number),
        Err(_) => Err(refused(alloc, VALID_U32, text)),
    }
}

#[tactic(auto, unfolding(crate::specs::NumberFields::u32_field))]
fn u32_text(alloc: Global, number: u32) -> Result<Text, SizeError>
    ensures { IsSpelling result (u32_field.spelling number) }
{
    match format!(in alloc; "{number}") {
        Ok(string) => text_within(string),
        Err(_) => Err(SizeError::NoMemory),
    }
}
