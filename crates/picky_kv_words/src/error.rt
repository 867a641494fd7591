//! What a key or a value can be refused for.

use picky_wire_base::Text;
use thiserror::Error;

/// A text that stands for no value of its type.
#[derive(Debug, Drop, PartialEq, Eq, Error)]
#[error("PpkValueParsingError")]
pub struct PpkValueParsingError {
    /// What was expected.
    pub expected: Text,
    /// What stood there.
    pub actual: Text,
}

/// Why a text gives no value.
#[derive(Debug, Drop, PartialEq, Eq, Error)]
pub enum PpkValueError {
    /// It stands for none.
    #[error("Parsing")]
    Parsing(PpkValueParsingError),
    /// The value, or the text of the refusal, would have 2^32 bytes or more.
    #[error("TooLong")]
    TooLong,
    /// Memory ran out.
    #[error("NoMemory")]
    NoMemory,
}
