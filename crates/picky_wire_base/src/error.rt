//! What the calls of this crate can refuse.

use thiserror::Error;

/// Memory ran out.
#[derive(Debug, Drop, PartialEq, Eq, Error)]
#[error("NoMemory")]
pub struct NoMemory;

/// Why a value of the wire can't be made.
#[derive(Debug, Drop, PartialEq, Eq, Error)]
pub enum SizeError {
    /// There are more bytes than a length of the wire can say.
    #[error("TooLong")]
    TooLong,
    /// Memory ran out.
    #[error("NoMemory")]
    NoMemory,
}
