//! Why a table of answers has no verdict.

use picky_ask::Question;

/// Why a call failed.
#[derive(Debug, Drop, PartialEq, Eq)]
pub enum NoVerdict {
    /// The table doesn't answer this question.
    Asked(Question),
    /// The table's answer isn't one byte.
    WrongLength,
    /// The table's answer is one byte, and neither 0 nor 1.
    UnknownByte,
    /// The key's blob, the signature or the message has 2^32 bytes or more, so no question says it.
    TooLong,
    /// Memory ran out.
    NoMemory,
}
