//! Two inventories of texts, merged.

ghost use Rattle.std.specs.Prelude.{◌≡◌, IfOk};
ghost use Rattle.picky_wire_base.specs.Gives.{Gives};
ghost use Rattle.picky_inventory_texts.specs.Merging.{bad_line as bad_line_of, merging};

use crate::good_lines::first_bad;
use picky_inventory::{ended_lines, merge_texts};
use picky_utf8::as_text;
use picky_wire::NoMemory;
use std::alloc::Global;

/// Why two inventories aren't merged.
#[derive(Debug, Drop)]
pub enum MergeError {
    /// The left one isn't UTF-8.
    LeftNotUtf8,
    /// The right one isn't.
    RightNotUtf8,
    /// The line of this number, counted from 1 over the left and then the right text, isn't a listed key's line, isn't
    /// greater than the line before it in its text, or lacks its LF.
    BadLine(usize),
    /// Memory ran out.
    NoMemory,
}

/// Two inventories of texts, merged: the lines of both, sorted by their bytes, each once.
///
/// A line may be of an encrypted private key, under the word `sealed`, as `list_texts` gives it: `merge` and `bad_line` of
/// picky_inventory, and so keyinventory, refuse such a line. Refuses, in order: `LeftNotUtf8`, `RightNotUtf8`, `BadLine`;
/// `NoMemory`.
pub fn merge_two(alloc: Global, left: &[u8], right: &[u8]) -> Result<Vec<u8>, MergeError>
    ensures gives { Gives MergeError.NoMemory (λ written. written.items) result (merging left.now right.now) }
{
    let left = match as_text(left) {
        Some(left) => left,
        None => return Err(MergeError::LeftNotUtf8),
    };
    let right = match as_text(right) {
        Some(right) => right,
        None => return Err(MergeError::RightNotUtf8),
    };
    match bad_line(alloc, left, right) {
        Ok(None) => match merge_texts(alloc, left, right) {
            Ok(written) => Ok(written),
            Err(NoMemory) => Err(MergeError::NoMemory),
        },
        Ok(Some(line)) => Err(MergeError::BadLine(line)),
        Err(NoMemory) => Err(MergeError::NoMemory),
    }
}

/// The number of the first line that is refused, counted from 1 over the left and then the right text. Refuses: `NoMemory`.
fn bad_line(alloc: Global, left: &str, right: &str) -> Result<Option<usize>, NoMemory>
    ensures { IfOk result (λ bad. bad ≡ bad_line_of left.now right.now) }
{
    let lefts = ended_lines(alloc, left)?;
    if let Some(line) = first_bad(alloc, 1, None, lefts.as_slice())? {
        return Ok(Some(line));
    }
    let rights = ended_lines(alloc, right)?;
    first_bad(alloc, 1 + lefts.len(), None, rights.as_slice())
}
