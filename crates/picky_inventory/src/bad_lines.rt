//! The first line of two inventories that is refused.

ghost use Rattle.std.specs.Prelude.{◌≡◌, ◌+◌, ◌<◌, ◌≤◌, ◌^◌, ◌&&◌, None, length, map, take, IfOk};
ghost use Rattle.std.specs.Option.{option_copied};
ghost use Rattle.picky_inventory.specs.BadLine.{bad_line as bad_line_of};
ghost use Rattle.picky_inventory.specs.ItemLine.{is_item_line as is_line};
ghost use Rattle.picky_inventory.specs.OrderedText.{first_bad as first_bad_of, follows as does_follow, last_before};

use crate::ended::ended_lines;
use crate::item_line::is_item_line;
use picky_wire::NoMemory;
use std::alloc::Global;

/// The number of the first line, counted from 1 over the left and then the right text, that isn't an item's line, isn't
/// greater than the line before it in its text, or lacks its LF. Refuses: `NoMemory`.
pub fn bad_line(alloc: Global, left: &str, right: &str) -> Result<Option<usize>, NoMemory>
    ensures { IfOk result (λ bad. bad ≡ bad_line_of left.now right.now) }
{
    let lefts = ended_lines(alloc, left)?;
    if let Some(line) = first_bad(alloc, 1, lefts.as_slice())? {
        return Ok(Some(line));
    }
    let rights = ended_lines(alloc, right)?;
    first_bad(alloc, 1 + lefts.len(), rights.as_slice())
}

/// The first of the lines, counted from a number, that is no item's or doesn't follow the one before it. Refuses:
/// `NoMemory`.
fn first_bad(alloc: Global, from: usize, lines: &[&str]) -> Result<Option<usize>, NoMemory>
    requires { from + length lines.now < 2 ^ 64 }
    ensures { IfOk result (λ bad. bad ≡ first_bad_of is_line from None (map (λ line. line.now) lines.now)) }
{
    'lines: for (i, line) in lines.iter().enumerate() {
        if !is_good(alloc, line_before(lines, i), line)? {
            return Ok(Some(from + i));
        }
    }
    Ok(None)
}

/// The line before a place, where there is one.
fn line_before<'a>(lines: &[&'a str], i: usize) -> Option<&'a str>
    requires { i ≤ length lines.now }
    ensures { option_copied result ≡ last_before None (map (λ line. line.now) (take i lines.now)) }
{
    if i == 0 {
        return None;
    }
    Some(lines[i - 1])
}

/// The line is an item's, and follows the one before it. Refuses: `NoMemory`.
fn is_good(alloc: Global, before: Option<&str>, line: &str) -> Result<bool, NoMemory>
    ensures { IfOk result (λ good. good ≡ (is_line line.now && does_follow (option_copied before.entry) line.now)) }
{
    if follows(before, line) {
        return is_item_line(alloc, line);
    }
    Ok(false)
}

/// The line is greater than the one before it, where there is one.
fn follows(before: Option<&str>, line: &str) -> bool
    ensures { result ≡ does_follow (option_copied before.entry) line.now }
{
    match before {
        Some(before) => before < line,
        None => true,
    }
}
