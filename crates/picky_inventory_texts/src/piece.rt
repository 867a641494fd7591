//! An inventory of texts, checked piece by piece.

ghost use Rattle.std.specs.Prelude.{◌≡◌, map, Ok};
ghost use Rattle.std.specs.Option.{option_copied};
ghost use Rattle.picky_wire_base.specs.Gives.{Gives};
ghost use Rattle.picky_inventory.specs.Merging.{or_empty as bytes_or_empty};
ghost use Rattle.picky_inventory.specs.OrderedText.{last_before};
ghost use Rattle.picky_inventory_texts.specs.Pieces.{checked, line_given as line_given_in};

use crate::good_lines::{first_bad, line_before};
use picky_inventory::ended_lines;
use picky_utf8::as_text;
use picky_wire::NoMemory;
use std::alloc::Global;

/// Why a piece of an inventory isn't in order.
#[derive(Debug, Drop)]
pub enum CheckError {
    /// It isn't UTF-8.
    NotUtf8,
    /// The line of this number, counted from 1 in the piece, isn't a listed key's line, isn't greater than the line before it,
    /// or lacks its LF.
    BadLine(usize),
    /// Memory ran out.
    NoMemory,
}

/// Whether a piece of an inventory of texts, of any length, is in order behind the line `before` (no bytes: behind none): the
/// piece's last line, which stands before the next piece; for an empty piece `before` itself.
///
/// Pieces that are cut behind LF and are in order one after another are together an inventory, and the pieces of an inventory
/// are in order. Lines are as `merge_two` takes them. Refuses, in order: `NotUtf8`, `BadLine`; `NoMemory`.
pub fn check_piece(alloc: Global, piece: &[u8], before: &[u8]) -> Result<Vec<u8>, CheckError>
    ensures gives { Gives CheckError.NoMemory (λ last. last.items) result (checked piece.now before.now) }
{
    let piece = match as_text(piece) {
        Some(piece) => piece,
        None => return Err(CheckError::NotUtf8),
    };
    let lines = match ended_lines(alloc, piece) {
        Ok(lines) => lines,
        Err(NoMemory) => return Err(CheckError::NoMemory),
    };
    let before = line_given(before);
    match first_bad(alloc, 1, before, lines.as_slice()) {
        Ok(None) => copy_of(alloc, line_before(before, lines.as_slice(), lines.len())),
        Ok(Some(line)) => Err(CheckError::BadLine(line)),
        Err(NoMemory) => Err(CheckError::NoMemory),
    }
}

/// The line that is given; no bytes are none.
fn line_given(before: &[u8]) -> Option<&[u8]>
    ensures { option_copied result ≡ line_given_in before.now }
{
    if before.is_empty() {
        return None;
    }
    Some(before)
}

/// A copy of a line; no bytes where there is none. Refuses: `NoMemory`.
fn copy_of(alloc: Global, line: Option<&[u8]>) -> Result<Vec<u8>, CheckError>
    ensures { Gives CheckError.NoMemory (λ copy. copy.items) result (Ok (bytes_or_empty (option_copied line.entry))) }
{
    match line {
        Some(line) => match Vec::from_slice(alloc, line) {
            Ok(copy) => Ok(copy),
            Err(_) => Err(CheckError::NoMemory),
        },
        None => Ok(Vec::new(alloc)),
    }
}
