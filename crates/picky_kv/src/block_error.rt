//! Why lines are no base64.

use thiserror::Error;

/// Why a line is not taken, or why the lines taken spell no bytes.
#[derive(Debug, Drop, PartialEq, Eq, Error)]
pub enum BlockError {
    /// The lines and this one are no front of a canonical, padded base64 text, or the text ends too soon.
    #[error("BadBase64")]
    BadBase64,
    /// The lines spell 2^32 bytes or more.
    #[error("TooLong")]
    TooLong,
    /// Memory ran out.
    #[error("NoMemory")]
    NoMemory,
}
