//! The words and values of PuTTY's private key files, typed: the keys of the lines, the version, the encryption, Argon2's
//! flavour, comments, base64 and hex (PuTTY's manual, Appendix C, "PPK file format").
//!
//! Read first: `specs/Field.antt`, which says what a word or a value is; then `src/word.rt` and `src/keys.rt`.
#![tactic(auto)]

mod argon2_keys;
mod block;
mod choices;
mod error;
mod field;
mod keys;
pub mod literals;
mod spelling;
mod values;
mod word;

pub use argon2_keys::{
    PpkArgon2MemoryKey, PpkArgon2ParallelismKey, PpkArgon2PassesKey, PpkArgon2SaltKey,
    PpkKeyDerivationKey,
};
pub use block::PpkBlock;
pub use choices::{Argon2FlavourValue, PpkEncryptionValue, PpkVersionKey};
pub use error::{PpkValueError, PpkValueParsingError};
pub use field::{PpkField, PpkLiteral, PpkSingle, refused};
pub use keys::{
    PpkCommentKey, PpkEncryptionKey, PpkPrivateLinesKey, PpkPrivateMacKey, PpkPublicLinesKey,
};
pub use spelling::text_within;
pub use values::{Base64PpkValue, HexPpkValue, PpkCommentValue};
pub use word::{PpkWord, WordTexts};
