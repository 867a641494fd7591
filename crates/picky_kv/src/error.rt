//! What the lines of a PuTTY private key file can be refused for.

ghost use Rattle.std.specs.Prelude.{◌≡◌};
ghost use Rattle.picky_kv.specs.declared.error.KvError.TheVariants as errors;

use picky_wire_base::{NoMemory, Text};
use thiserror::Error;

/// Why a line is not read or written.
#[derive(Debug, Drop, PartialEq, Eq, Error)]
pub enum KvError {
    /// No line is left, or an earlier read was refused.
    #[error("EndOfInput")]
    EndOfInput,
    /// The line has no `: `.
    #[error("InvalidKeyValueFormat")]
    InvalidKeyValueFormat,
    /// A key, a value, a count or a block's text is not of its type.
    #[error("InvalidInput")]
    InvalidInput {
        /// The name of the key's type.
        context: Text,
        /// What was expected.
        expected: Text,
        /// What stood there.
        actual: Text,
    },
    /// A block needs more than 65,535 lines.
    #[error("TooManyLines")]
    TooManyLines,
    /// A text would have 2^32 bytes or more.
    #[error("TooLong")]
    TooLong,
    /// Memory ran out.
    #[error("NoMemory")]
    NoMemory,
}

impl From<NoMemory> for KvError {
    ghost from_gives = { λ _ e. e ≡ errors.NoMemory };

    fn from(_e: NoMemory) -> KvError {
        KvError::NoMemory
    }
}
