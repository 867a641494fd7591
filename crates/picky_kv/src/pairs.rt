//! What the lines and blocks of a PuTTY private key file promise, and which key stands before which value.

ghost use Rattle.std.specs.Prelude.{◌≡◌, true, refl};
ghost use Rattle.std.specs.Str.{IsAscii};
ghost use Rattle.picky_kv_words.specs.Literal.{is_plain};
ghost use Rattle.picky_kv.specs.carried.Pairs.{version_field_is_plain};
ghost use Rattle.picky_kv.specs.carried.Pairs.{encryption_key_is_plain, comment_key_is_plain};
ghost use Rattle.picky_kv.specs.carried.Pairs.{public_lines_key_is_plain, private_lines_key_is_plain};
ghost use Rattle.picky_kv.specs.carried.Pairs.{private_mac_key_is_plain};
ghost use Rattle.picky_kv.specs.carried.Pairs.{key_derivation_key_is_plain};
ghost use Rattle.picky_kv.specs.carried.Pairs.{argon2_memory_key_is_plain, argon2_passes_key_is_plain};
ghost use Rattle.picky_kv.specs.carried.Pairs.{argon2_parallelism_key_is_plain};
ghost use Rattle.picky_kv.specs.carried.Pairs.{argon2_salt_key_is_plain};
ghost use Rattle.picky_kv.specs.carried.Pairs.{base64_field_is_ascii};

use crate::algorithm::PpkKeyAlgorithmValue;
use crate::numbers::{PpkArgon2MemoryValue, PpkArgon2ParallelismValue, PpkArgon2PassesValue};
use picky_kv_words::{
    Argon2FlavourValue, Base64PpkValue, HexPpkValue, PpkArgon2MemoryKey, PpkArgon2ParallelismKey,
    PpkArgon2PassesKey, PpkArgon2SaltKey, PpkBlock, PpkCommentKey, PpkCommentValue,
    PpkEncryptionKey, PpkEncryptionValue, PpkField, PpkKeyDerivationKey, PpkLiteral,
    PpkPrivateLinesKey, PpkPrivateMacKey, PpkPublicLinesKey, PpkVersionKey,
};

/// A line of a key and a value.
pub trait PpkKeyValue {
    type Key: PpkField + PpkLiteral;

    type Value: PpkField;

    // a key is written as its literal, in which no colon, CR and LF stand
    ghost key_written: { (k : Self.Key) → Self.Key.field.spelling k ≡ Self.Key.literal k };

    ghost key_plain: { (k : Self.Key) → is_plain (Self.Key.literal k) ≡ true };
}

/// A line of a key and a count, and then that many lines of a value's text.
pub trait PpkMultilineKeyValue {
    type Key: PpkField + PpkLiteral;

    type Value: PpkBlock;

    // a key is written as its literal, in which no colon, CR and LF stand
    ghost key_written: { (k : Self.Key) → Self.Key.field.spelling k ≡ Self.Key.literal k };

    ghost key_plain: { (k : Self.Key) → is_plain (Self.Key.literal k) ≡ true };

    // the text of a value can be cut anywhere
    ghost ascii: { (v : Self.Value) → IsAscii (Self.Value.field.spelling v) };
}

/// The first line: the version and the key's algorithm.
#[derive(Debug, Drop, PartialEq, Eq)]
pub struct PpkHeader;

impl PpkKeyValue for PpkHeader {
    type Key = PpkVersionKey;

    type Value = PpkKeyAlgorithmValue;

    ghost key_written = { λ _. refl };

    ghost key_plain = { version_field_is_plain };
}

/// The line of the encryption.
#[derive(Debug, Drop, PartialEq, Eq)]
pub struct PpkEncryption;

impl PpkKeyValue for PpkEncryption {
    type Key = PpkEncryptionKey;

    type Value = PpkEncryptionValue;

    ghost key_written = { λ _. refl };

    ghost key_plain = { encryption_key_is_plain };
}

/// The line of the comment.
#[derive(Debug, Drop, PartialEq, Eq)]
pub struct PpkComment;

impl PpkKeyValue for PpkComment {
    type Key = PpkCommentKey;

    type Value = PpkCommentValue;

    ghost key_written = { λ _. refl };

    ghost key_plain = { comment_key_is_plain };
}

/// The line of the flavour of Argon2.
#[derive(Debug, Drop, PartialEq, Eq)]
pub struct PpkKeyDerivation;

impl PpkKeyValue for PpkKeyDerivation {
    type Key = PpkKeyDerivationKey;

    type Value = Argon2FlavourValue;

    ghost key_written = { λ _. refl };

    ghost key_plain = { key_derivation_key_is_plain };
}

/// The line of Argon2's memory.
#[derive(Debug, Drop, PartialEq, Eq)]
pub struct PpkArgon2Memory;

impl PpkKeyValue for PpkArgon2Memory {
    type Key = PpkArgon2MemoryKey;

    type Value = PpkArgon2MemoryValue;

    ghost key_written = { λ _. refl };

    ghost key_plain = { argon2_memory_key_is_plain };
}

/// The line of Argon2's passes.
#[derive(Debug, Drop, PartialEq, Eq)]
pub struct PpkArgon2Passes;

impl PpkKeyValue for PpkArgon2Passes {
    type Key = PpkArgon2PassesKey;

    type Value = PpkArgon2PassesValue;

    ghost key_written = { λ _. refl };

    ghost key_plain = { argon2_passes_key_is_plain };
}

/// The line of Argon2's parallelism.
#[derive(Debug, Drop, PartialEq, Eq)]
pub struct PpkArgon2Parallelism;

impl PpkKeyValue for PpkArgon2Parallelism {
    type Key = PpkArgon2ParallelismKey;

    type Value = PpkArgon2ParallelismValue;

    ghost key_written = { λ _. refl };

    ghost key_plain = { argon2_parallelism_key_is_plain };
}

/// The line of Argon2's salt.
#[derive(Debug, Drop, PartialEq, Eq)]
pub struct PpkArgon2Salt;

impl PpkKeyValue for PpkArgon2Salt {
    type Key = PpkArgon2SaltKey;

    type Value = HexPpkValue;

    ghost key_written = { λ _. refl };

    ghost key_plain = { argon2_salt_key_is_plain };
}

/// The line of the MAC.
#[derive(Debug, Drop, PartialEq, Eq)]
pub struct PpkPrivateMac;

impl PpkKeyValue for PpkPrivateMac {
    type Key = PpkPrivateMacKey;

    type Value = HexPpkValue;

    ghost key_written = { λ _. refl };

    ghost key_plain = { private_mac_key_is_plain };
}

/// The block of the public key.
#[derive(Debug, Drop, PartialEq, Eq)]
pub struct PpkPublicLines;

impl PpkMultilineKeyValue for PpkPublicLines {
    type Key = PpkPublicLinesKey;

    type Value = Base64PpkValue;

    ghost key_written = { λ _. refl };

    ghost key_plain = { public_lines_key_is_plain };

    ghost ascii = { base64_field_is_ascii };
}

/// The block of the private key.
#[derive(Debug, Drop, PartialEq, Eq)]
pub struct PpkPrivateLines;

impl PpkMultilineKeyValue for PpkPrivateLines {
    type Key = PpkPrivateLinesKey;

    type Value = Base64PpkValue;

    ghost key_written = { λ _. refl };

    ghost key_plain = { private_lines_key_is_plain };

    ghost ascii = { base64_field_is_ascii };
}
