//! Two inventories merged.

ghost use Rattle.std.specs.Prelude.{◌≡◌, ◌++◌, map, IfOk, OnOk};
ghost use Rattle.std.specs.Option.{option_copied};
ghost use Rattle.picky_issuing.specs.Parts.{lines_with_ends};
ghost use Rattle.picky_wire_base.specs.Gives.{Gives};
ghost use Rattle.picky_inventory.specs.Merging.{merging, or_empty as text_or_empty};
ghost use Rattle.picky_inventory.specs.OrderedText.{merged};
ghost use Rattle.picky_inventory.specs.declared.merging.Unmerged.TheVariants as errors;

use crate::bad_lines::bad_line;
use crate::ended::ended_lines;
use crate::sorted::{joined_lines, sorted_lines};
use picky_issuing::parts_of;
use picky_wire::NoMemory;
use std::alloc::Global;

/// Why two inventories aren't merged.
#[derive(Debug, Drop)]
pub enum Unmerged {
    /// The line of this number, counted from 1 over the left and then the right text, isn't an item's line, isn't greater
    /// than the line before it in its text, or lacks its LF.
    BadLine(usize),
    /// Memory ran out.
    NoMemory,
}

impl From<NoMemory> for Unmerged {
    ghost from_gives = { λ _ e. e ≡ errors.NoMemory };

    fn from(_e: NoMemory) -> Unmerged {
        Unmerged::NoMemory
    }
}

/// The two inventories of a source, merged: the lines of both, sorted by their bytes, each once.
///
/// The left one stands before the first line that is exactly `%%`, the right one follows that; without such a line the left
/// one is empty. What a line `%%` is says `parts_of` of picky_issuing. Refuses, in order: `BadLine`, `NoMemory`.
pub fn merge(alloc: Global, text: &str) -> Result<Vec<u8>, Unmerged>
    ensures { Gives Unmerged.NoMemory (λ written. written.items) result (merging text.now) }
{
    let cut = parts_of(text);
    let left = or_empty(cut.issuer);
    match bad_line(alloc, left, cut.key)? {
        Some(line) => Err(Unmerged::BadLine(line)),
        None => {
            let written = merge_texts(alloc, left, cut.key)?;
            Ok(written)
        }
    }
}

/// A text, and an empty one where there is none.
fn or_empty(text: Option<&str>) -> &str
    ensures { result.now ≡ text_or_empty (option_copied text.entry) }
{
    match text {
        Some(text) => text,
        None => "",
    }
}

/// The lines of two texts, each with its end, sorted by their bytes, each once. Refuses: `NoMemory`.
pub fn merge_texts(alloc: Global, left: &str, right: &str) -> Result<Vec<u8>, NoMemory>
    ensures { IfOk result (λ text. text.items ≡ merged left.now right.now) }
{
    let mut lines = Vec::new(alloc);
    add_lines(alloc, &mut lines, left)?;
    add_lines(alloc, &mut lines, right)?;
    let lines = sorted_lines(lines);
    match joined_lines(alloc, lines.as_slice()) {
        Ok(text) => Ok(text),
        Err(NoMemory) => Err(NoMemory),
    }
}

/// Adds the lines of a text, each with its end. Refuses: `NoMemory`.
fn add_lines(alloc: Global, lines: &mut Vec<Vec<u8>>, text: &str) -> Result<(), NoMemory>
    ensures { OnOk result (map (λ line. line.items) lines.new.items
        ≡ map (λ line. line.items) lines.old.items ++ lines_with_ends text.now) }
{
    let found = ended_lines(alloc, text)?;
    add_copies(alloc, lines, found.as_slice())
}

/// Adds copies of texts. Refuses: `NoMemory`.
fn add_copies(alloc: Global, lines: &mut Vec<Vec<u8>>, found: &[&str]) -> Result<(), NoMemory>
    ensures { OnOk result (map (λ line. line.items) lines.new.items
        ≡ map (λ line. line.items) lines.old.items ++ map (λ line. line.now) found.now) }
{
    'lines: for line in found {
        match Vec::from_slice(alloc, line.as_bytes()) {
            Ok(copy) => match lines.push(copy) {
                Ok(()) => {}
                Err(_) => return Err(NoMemory),
            },
            Err(_) => return Err(NoMemory),
        }
    }
    Ok(())
}
