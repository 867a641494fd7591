//! The types of several literals each: version, encryption and Argon2's flavour.

ghost use Rattle.std.specs.Prelude.{◌≡◌, IfOk, IsOk};
ghost use Rattle.picky_kv_words.specs.ChoiceFields.{version_field, encryption_field, flavour_field};
ghost use Rattle.picky_kv_words.specs.Choices.{version_row, encryption_row, flavour_row};

use crate::error::PpkValueError;
use crate::field::{PpkField, PpkLiteral, refused};
use crate::literals::{
    AES256_CBC, ANY_ENCRYPTION, ANY_FLAVOUR, ANY_VERSION, ARGON2_FLAVOUR_VALUE, ARGON2D, ARGON2I,
    ARGON2ID, NONE, PPK_ENCRYPTION_VALUE, PPK_VERSION_KEY, PUTTY_USER_KEY_FILE_2,
    PUTTY_USER_KEY_FILE_3,
};
use picky_wire_base::{NoMemory, SizeError, Text, TryClone};
use std::alloc::Global;

/// The key of the first line, which is the version of the file.
#[derive(Clone, Copy, Debug, PartialEq, Eq)]
pub enum PpkVersionKey {
    V2,
    V3,
}

#[tactic(auto, unfolding(crate::specs::ChoiceFields::version_field))]
impl PpkField for PpkVersionKey {
    ghost field = { version_field };

    fn read(alloc: Global, text: &str) -> Result<PpkVersionKey, PpkValueError> {
        if text == PUTTY_USER_KEY_FILE_2 {
            return Ok(PpkVersionKey::V2);
        }
        if text == PUTTY_USER_KEY_FILE_3 {
            return Ok(PpkVersionKey::V3);
        }
        Err(refused(alloc, ANY_VERSION, text))
    }

    fn write(&self, alloc: Global) -> Result<Text, SizeError> {
        Text::new(alloc, self.as_static_str())
    }
}

#[tactic(auto, unfolding(crate::specs::ChoiceFields::version_field))]
impl PpkLiteral for PpkVersionKey {
    ghost name = { version_row.name };

    ghost literal = { version_field.spelling };

    fn context() -> &'static str {
        PPK_VERSION_KEY
    }

    fn as_static_str(&self) -> &'static str {
        match self {
            PpkVersionKey::V2 => PUTTY_USER_KEY_FILE_2,
            PpkVersionKey::V3 => PUTTY_USER_KEY_FILE_3,
        }
    }
}

impl TryClone for PpkVersionKey {
    fn try_clone(&self, _alloc: Global) -> Result<PpkVersionKey, NoMemory>
        ensures ok { IfOk result (λ copy. copy ≡ self.now) }
        ensures always { IsOk result }
    {
        Ok(*self)
    }
}

/// How the private key is encrypted.
#[derive(Clone, Copy, Debug, PartialEq, Eq)]
pub enum PpkEncryptionValue {
    None,
    Aes256Cbc,
}

#[tactic(auto, unfolding(crate::specs::ChoiceFields::encryption_field))]
impl PpkField for PpkEncryptionValue {
    ghost field = { encryption_field };

    fn read(alloc: Global, text: &str) -> Result<PpkEncryptionValue, PpkValueError> {
        if text == NONE {
            return Ok(PpkEncryptionValue::None);
        }
        if text == AES256_CBC {
            return Ok(PpkEncryptionValue::Aes256Cbc);
        }
        Err(refused(alloc, ANY_ENCRYPTION, text))
    }

    fn write(&self, alloc: Global) -> Result<Text, SizeError> {
        Text::new(alloc, self.as_static_str())
    }
}

#[tactic(auto, unfolding(crate::specs::ChoiceFields::encryption_field))]
impl PpkLiteral for PpkEncryptionValue {
    ghost name = { encryption_row.name };

    ghost literal = { encryption_field.spelling };

    fn context() -> &'static str {
        PPK_ENCRYPTION_VALUE
    }

    fn as_static_str(&self) -> &'static str {
        match self {
            PpkEncryptionValue::None => NONE,
            PpkEncryptionValue::Aes256Cbc => AES256_CBC,
        }
    }
}

impl TryClone for PpkEncryptionValue {
    fn try_clone(&self, _alloc: Global) -> Result<PpkEncryptionValue, NoMemory>
        ensures ok { IfOk result (λ copy. copy ≡ self.now) }
        ensures always { IsOk result }
    {
        Ok(*self)
    }
}

/// The flavour of Argon2.
#[derive(Clone, Copy, Debug, PartialEq, Eq)]
pub enum Argon2FlavourValue {
    Argon2d,
    Argon2i,
    Argon2id,
}

#[tactic(auto, unfolding(crate::specs::ChoiceFields::flavour_field))]
impl PpkField for Argon2FlavourValue {
    ghost field = { flavour_field };

    fn read(alloc: Global, text: &str) -> Result<Argon2FlavourValue, PpkValueError> {
        if text == ARGON2D {
            return Ok(Argon2FlavourValue::Argon2d);
        }
        if text == ARGON2I {
            return Ok(Argon2FlavourValue::Argon2i);
        }
        if text == ARGON2ID {
            return Ok(Argon2FlavourValue::Argon2id);
        }
        Err(refused(alloc, ANY_FLAVOUR, text))
    }

    fn write(&self, alloc: Global) -> Result<Text, SizeError> {
        Text::new(alloc, self.as_static_str())
    }
}

#[tactic(auto, unfolding(crate::specs::ChoiceFields::flavour_field))]
impl PpkLiteral for Argon2FlavourValue {
    ghost name = { flavour_row.name };

    ghost literal = { flavour_field.spelling };

    fn context() -> &'static str {
        ARGON2_FLAVOUR_VALUE
    }

    fn as_static_str(&self) -> &'static str {
        match self {
            Argon2FlavourValue::Argon2d => ARGON2D,
            Argon2FlavourValue::Argon2i => ARGON2I,
            Argon2FlavourValue::Argon2id => ARGON2ID,
        }
    }
}

impl TryClone for Argon2FlavourValue {
    fn try_clone(&self, _alloc: Global) -> Result<Argon2FlavourValue, NoMemory>
        ensures ok { IfOk result (λ copy. copy ≡ self.now) }
        ensures always { IsOk result }
    {
        Ok(*self)
    }
}
