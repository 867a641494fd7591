//! The lines of a list of parts.

ghost use Rattle.std.specs.Prelude.{◌≡◌, map, IfErr, OnOk};
ghost use Rattle.std.specs.Option.{option_copied};
ghost use Rattle.picky_wire_base.specs.Outcome.{map_ok};
ghost use Rattle.picky_wire.specs.Count.{Rose};
ghost use Rattle.picky_suite.specs.Asked.{GivesAsked, IsAskedAtMost, LeavesSuite};
ghost use Rattle.picky_key_text.specs.Order.{asks, fault_of, reading};
ghost use Rattle.picky_key_text.specs.Want.{IsFault};
ghost use Rattle.picky_inventory.specs.Items.{item_line, item_of};
ghost use Rattle.picky_inventory.specs.Listing.{GivesInventory, GivesLines, NoneAsks};
ghost use Rattle.picky_inventory.specs.Parted.{text_parts};

use crate::lines::{is_blank, line_of};
use crate::parted::parts;
use crate::sorted::{joined_lines, sorted_lines};
use picky_key_text::{ReadError, read_text};
use picky_suite::Suite;
use picky_wire::NoMemory;
use std::alloc::Global;

/// A part that isn't read, by its number from 0, and why.
#[derive(Debug, Drop)]
pub struct Unread {
    pub part: usize,
    pub error: ReadError,
}

/// The inventory of a list of texts that are parted by lines `%%`: the lines of their items, sorted by their bytes, each
/// once. Refuses the first part that isn't read, as `read_text` does; where memory runs out, the number says nothing.
pub fn list_text<S: Suite>(
    alloc: Global,
    suite: &mut S,
    text: &str,
    pass: Option<&str>,
) -> Result<Vec<u8>, Unread>
    ensures gives { GivesInventory (record { meanings = S.meanings suite.old; pass = option_copied pass.entry }) text.now
        (Rose (S.faults suite.old) (S.faults suite.new)) (map_ok (λ written. written.items) result) }
    ensures kept { S.meanings suite.new ≡ S.meanings suite.old }
    ensures calm { OnOk result (S.faults suite.new ≡ S.faults suite.old) }
    ensures calm_unless_fault { IfErr result (λ unread. (IsFault unread.error → ⊥) → S.faults suite.new ≡ S.faults suite.old) }
    ensures unasked { NoneAsks (option_copied pass.entry) (text_parts text.now) → suite.new ≡ suite.old }
{
    match parts(alloc, text) {
        Ok(found) => match list_lines(alloc, suite, found.as_slice(), pass) {
            Ok(lines) => {
                let lines = sorted_lines(lines);
                match joined_lines(alloc, lines.as_slice()) {
                    Ok(written) => Ok(written),
                    Err(NoMemory) => Err(no_memory()),
                }
            }
            Err(unread) => Err(unread),
        },
        Err(NoMemory) => Err(no_memory()),
    }
}

/// Want of memory, of no part.
fn no_memory() -> Unread
    ensures { result.error ≡ ReadError.NoMemory }
{
    Unread {
        part: 0,
        error: ReadError::NoMemory,
    }
}

/// The lines of the parts' items, in the parts' order; a blank part has none. Refuses the first part that isn't read,
/// as `read_text` does.
pub fn list_lines<S: Suite>(
    alloc: Global,
    suite: &mut S,
    parts: &[&str],
    pass: Option<&str>,
) -> Result<Vec<Vec<u8>>, Unread>
    ensures gives { GivesLines (λ line. line.items) (record { meanings = S.meanings suite.old; pass = option_copied pass.entry })
        (map (λ part. part.now) parts.now) (Rose (S.faults suite.old) (S.faults suite.new)) (map_ok (λ lines. lines.items) result) }
    ensures kept { S.meanings suite.new ≡ S.meanings suite.old }
    ensures calm { OnOk result (S.faults suite.new ≡ S.faults suite.old) }
    ensures calm_unless_fault { IfErr result (λ unread. (IsFault unread.error → ⊥) → S.faults suite.new ≡ S.faults suite.old) }
    ensures unasked { NoneAsks (option_copied pass.entry) (map (λ part. part.now) parts.now) → suite.new ≡ suite.old }
{
    let mut lines = Vec::new(alloc);
    'parts: for (i, part) in parts.iter().enumerate() {
        if !is_blank(part) {
            match part_line(alloc, suite, part, pass) {
                Ok(line) => match lines.push(line) {
                    Ok(()) => {}
                    Err(_) => {
                        return Err(Unread {
                            part: i,
                            error: ReadError::NoMemory,
                        });
                    }
                },
                Err(error) => return Err(Unread { part: i, error }),
            }
        }
    }
    Ok(lines)
}

/// The line of what a part means. Refuses as `read_text` does.
fn part_line<S: Suite>(
    alloc: Global,
    suite: &mut S,
    part: &str,
    pass: Option<&str>,
) -> Result<Vec<u8>, ReadError>
    ensures gives { GivesAsked ReadError.NoMemory (fault_of part.now) (λ line. line.items) result
        (map_ok (λ meaning. item_line (item_of meaning)) (reading (record { meanings = S.meanings suite.old; pass = option_copied pass.entry }) part.now))
        (asks (option_copied pass.entry) part.now) (Rose (S.faults suite.old) (S.faults suite.new)) }
    ensures suite { LeavesSuite S.meanings S.faults (fault_of part.now) (asks (option_copied pass.entry) part.now) result
        suite.old suite.new }
    ensures asked { IsAskedAtMost 2 S.calls suite.old suite.new }
{
    match read_text(alloc, suite, part, pass) {
        Ok(meaning) => {
            let line = line_of(alloc, &meaning);
            drop(meaning);
            match line {
                Ok(line) => Ok(line),
                Err(NoMemory) => Err(ReadError::NoMemory),
            }
        }
        Err(e) => Err(e),
    }
}
