//! The lines and blocks of PuTTY's private key files, typed, read and written (PuTTY's manual, Appendix C, "PPK file
//! format").
//!
//! Read first: `specs/Lines.antt` and `specs/Block.antt`; then `src/lines.rt` and `src/reader.rt`.
#![tactic(auto)]

mod algorithm;
mod block;
mod block_error;
pub mod block_laws;
mod counted;
mod error;
mod joined;
pub mod laws;
pub mod lines;
pub mod literals;
mod numbers;
mod pairs;
mod reader;
mod tail;
mod writer;

pub use algorithm::PpkKeyAlgorithmValue;
pub use block::BlockDecoder;
pub use block_error::BlockError;
pub use error::KvError;
pub use joined::JoinedLines;
pub use numbers::{PpkArgon2MemoryValue, PpkArgon2ParallelismValue, PpkArgon2PassesValue};
pub use pairs::{
    PpkArgon2Memory, PpkArgon2Parallelism, PpkArgon2Passes, PpkArgon2Salt, PpkComment,
    PpkEncryption, PpkHeader, PpkKeyDerivation, PpkKeyValue, PpkMultilineKeyValue, PpkPrivateLines,
    PpkPrivateMac, PpkPublicLines,
};
pub use picky_kv_words::{
    Argon2FlavourValue, Base64PpkValue, HexPpkValue, PpkArgon2MemoryKey, PpkArgon2ParallelismKey,
    PpkArgon2PassesKey, PpkArgon2SaltKey, PpkBlock, PpkCommentKey, PpkCommentValue,
    PpkEncryptionKey, PpkEncryptionValue, PpkField, PpkKeyDerivationKey, PpkLiteral,
    PpkPrivateLinesKey, PpkPrivateMacKey, PpkPublicLinesKey, PpkSingle, PpkValueError,
    PpkValueParsingError, PpkVersionKey,
};
pub use reader::PuttyKvReader;
pub use writer::PuttyKvWriter;
