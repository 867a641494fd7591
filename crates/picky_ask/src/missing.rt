//! Why a device of answers has none.

use crate::question::Question;

/// Why a call failed.
#[derive(Debug, Drop, PartialEq, Eq)]
pub enum Missing {
    /// The table doesn't answer this question.
    Asked(Question),
    /// The table's answer has another length than the call wants.
    WrongLength,
    /// An earlier entry contradicts the table's answer: under the cipher's key and iv it pairs the text, or the answer, with
    /// something else. A pair counts in both directions, so from x to y and from y to z is a contradiction, too.
    Contradiction,
    /// The next entry answers another question than the one that is asked here, so the table is no record of this run.
    Misplaced,
    /// An argument or the text has 2^32 bytes or more, so no question says it.
    TooLong,
    /// Memory ran out.
    NoMemory,
}
