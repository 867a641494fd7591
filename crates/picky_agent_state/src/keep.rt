//! Why a message brings nothing into a kept state.

use thiserror::Error;

/// Why a message brings nothing into a kept state.
#[derive(Clone, Copy, Debug, PartialEq, Eq, Error)]
pub enum KeepError {
    /// It is none that adds an identity or locks.
    #[error("NotKept")]
    NotKept,
    /// There are 1,024 identities.
    #[error("TooMany")]
    TooMany,
    /// Memory ran out.
    #[error("NoMemory")]
    NoMemory,
}
