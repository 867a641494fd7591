//! Values of text and bytes: a comment, base64 and hex.

ghost use Rattle.std.specs.Prelude.{◌≡◌, ℕ, List};
ghost use Rattle.picky_wire_base.specs.Numbers.{IsBytes};
ghost use Rattle.hex.specs.Hex.{encode_lower};
ghost use Rattle.picky_text.specs.Base64.{base64_of};
ghost use Rattle.picky_kv_words.specs.Field.{IsSpelling};
ghost use Rattle.picky_kv_words.specs.ValueFields.{comment_field, base64_field, hex_field};
ghost use Rattle.picky_kv_words.specs.carried.Blocks.{base64_field_is_of_blocks};

use crate::block::PpkBlock;
use crate::error::PpkValueError;
use crate::field::{PpkField, refused};
use crate::literals::{VALID_BASE64, VALID_HEX};
use crate::spelling::text_within;
use hex::FromHexError;
use picky_text::Base64Error;
use picky_wire_base::{Bytes, MAX_LEN, NoMemory, SizeError, Text, TryClone};
use std::alloc::Global;
use std::marker::Model;

/// A comment: any text.
#[derive(Debug, Drop, PartialEq, Eq)]
pub struct PpkCommentValue {
    text: Text,
}

impl Model for PpkCommentValue {
    ghost Value = { List ℕ };

    ghost view = { λ v. v.text };

    ghost inverse = { λ text. record { text = text } };
}

#[tactic(auto, unfolding(crate::specs::ValueFields::comment_field))]
impl PpkField for PpkCommentValue {
    ghost field = { comment_field };

    fn read(alloc: Global, text: &str) -> Result<PpkCommentValue, PpkValueError> {
        match Text::new(alloc, text) {
            Ok(text) => Ok(PpkCommentValue { text }),
            Err(SizeError::TooLong) => Err(PpkValueError::TooLong),
            Err(SizeError::NoMemory) => Err(PpkValueError::NoMemory),
        }
    }

    fn write(&self, alloc: Global) -> Result<Text, SizeError> {
        Text::new(alloc, self.text.as_str())
    }
}

impl TryClone for PpkCommentValue {
    fn try_clone(&self, alloc: Global) -> Result<PpkCommentValue, NoMemory> {
        let text = self.text.try_clone(alloc)?;
        Ok(PpkCommentValue { text })
    }
}

impl From<Text> for PpkCommentValue {
    ghost from_gives = { λ text v. v ≡ text };

    fn from(text: Text) -> PpkCommentValue {
        PpkCommentValue { text }
    }
}

impl From<PpkCommentValue> for Text {
    ghost from_gives = { λ v text. text ≡ v };

    fn from(value: PpkCommentValue) -> Text {
        let PpkCommentValue { text } = value;
        text
    }
}

/// Bytes that are written in base64.
#[derive(Debug, Drop, PartialEq, Eq)]
pub struct Base64PpkValue {
    bytes: Bytes,
}

impl Model for Base64PpkValue {
    ghost Value = { List ℕ };

    ghost view = { λ v. v.bytes };

    ghost inverse = { λ bytes. record { bytes = bytes } };
}

#[tactic(auto, unfolding(crate::specs::ValueFields::base64_field))]
impl PpkField for Base64PpkValue {
    ghost field = { base64_field };

    fn read(alloc: Global, text: &str) -> Result<Base64PpkValue, PpkValueError> {
        match picky_text::decode(alloc, text.as_bytes()) {
            Ok(bytes) => {
                if bytes.len() <= MAX_LEN {
                    Ok(Base64PpkValue {
                        bytes: Bytes::from_vec(bytes),
                    })
                } else {
                    Err(PpkValueError::TooLong)
                }
            }
            Err(Base64Error::NotBase64) => Err(refused(alloc, VALID_BASE64, text)),
            Err(Base64Error::NoMemory) => Err(PpkValueError::NoMemory),
        }
    }

    fn write(&self, alloc: Global) -> Result<Text, SizeError> {
        base64_text(alloc, self.bytes.as_slice())
    }
}

impl PpkBlock for Base64PpkValue {
    ghost made = { λ bytes. bytes };

    fn from_block(bytes: Bytes) -> Base64PpkValue {
        Base64PpkValue { bytes }
    }

    ghost blocks = { base64_field_is_of_blocks };
}

impl TryClone for Base64PpkValue {
    fn try_clone(&self, alloc: Global) -> Result<Base64PpkValue, NoMemory> {
        let bytes = self.bytes.try_clone(alloc)?;
        Ok(Base64PpkValue { bytes })
    }
}

impl From<Bytes> for Base64PpkValue {
    ghost from_gives = { λ bytes v. v ≡ bytes };

    fn from(bytes: Bytes) -> Base64PpkValue {
        Base64PpkValue { bytes }
    }
}

impl From<Base64PpkValue> for Bytes {
    ghost from_gives = { λ v bytes. bytes ≡ v };

    fn from(value: Base64PpkValue) -> Bytes {
        let Base64PpkValue { bytes } = value;
        bytes
    }
}

/// Bytes that are written in hex.
#[derive(Debug, Drop, PartialEq, Eq)]
pub struct HexPpkValue {
    bytes: Bytes,
}

impl Model for HexPpkValue {
    ghost Value = { List ℕ };

    ghost view = { λ v. v.bytes };

    ghost inverse = { λ bytes. record { bytes = bytes } };
}

#[tactic(auto, unfolding(crate::specs::ValueFields::hex_field, crate::specs::Values::hex_decoded))]
impl PpkField for HexPpkValue {
    ghost field = { hex_field };

    fn read(alloc: Global, text: &str) -> Result<HexPpkValue, PpkValueError> {
        match hex::decode(alloc, text) {
            Ok(bytes) => {
                if bytes.len() <= MAX_LEN {
                    Ok(HexPpkValue {
                        bytes: Bytes::from_vec(bytes),
                    })
                } else {
                    Err(PpkValueError::TooLong)
                }
            }
            Err(FromHexError::OutOfMemory) => Err(PpkValueError::NoMemory),
            Err(
                FromHexError::InvalidHexCharacter { .. }
                | FromHexError::OddLength
                | FromHexError::InvalidStringLength,
            ) => Err(refused(alloc, VALID_HEX, text)),
        }
    }

    fn write(&self, alloc: Global) -> Result<Text, SizeError> {
        hex_text(alloc, self.bytes.as_slice())
    }
}

impl TryClone for HexPpkValue {
    fn try_clone(&self, alloc: Global) -> Result<HexPpkValue, NoMemory> {
        let bytes = self.bytes.try_clone(alloc)?;
        Ok(HexPpkValue { bytes })
    }
}

impl From<Bytes> for HexPpkValue {
    ghost from_gives = { λ bytes v. v ≡ bytes };

    fn from(bytes: Bytes) -> HexPpkValue {
        HexPpkValue { bytes }
    }
}

impl From<HexPpkValue> for Bytes {
    ghost from_gives = { λ v bytes. bytes ≡ v };

    fn from(value: HexPpkValue) -> Bytes {
        let HexPpkValue { bytes } = value;
        bytes
    }
}

fn base64_text(alloc: Global, bytes: &[u8]) -> Result<Text, SizeError>
    ensures text { IsSpelling result (base64_of bytes.now) }
    ensures bytes { IsBytes bytes.now }
{
    match picky_text::encode(alloc, bytes) {
        Ok(string) => text_within(string),
        Err(_) => Err(SizeError::NoMemory),
    }
}

fn hex_text(alloc: Global, bytes: &[u8]) -> Result<Text, SizeError>
    ensures text { IsSpelling result (encode_lower bytes.now) }
    ensures bytes { IsBytes bytes.now }
{
    match hex::encode(alloc, bytes) {
        Ok(string) => text_within(string),
        Err(_) => Err(SizeError::NoMemory),
    }
}
