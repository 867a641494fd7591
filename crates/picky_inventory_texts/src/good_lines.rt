//! The first line of an inventory of texts that is refused.

ghost use Rattle.std.specs.Prelude.{◌≡◌, ◌+◌, ◌<◌, ◌≤◌, ◌^◌, ◌&&◌, length, map, take, IfOk};
ghost use Rattle.std.specs.Option.{option_copied};
ghost use Rattle.picky_inventory.specs.OrderedText.{first_bad as first_bad_of, follows as does_follow, last_before};
ghost use Rattle.picky_inventory_texts.specs.Listed.{is_listed_line as is_line};

use crate::line::is_listed_line;
use picky_wire::NoMemory;
use std::alloc::Global;
use std::cmp::Ordering;

/// The first of the lines, counted from a number, that is no listed key's or isn't greater than the one before it: the first
/// of them behind the line that is given, where there is one. Refuses: `NoMemory`.
pub fn first_bad(
    alloc: Global,
    from: usize,
    before: Option<&[u8]>,
    lines: &[&str],
) -> Result<Option<usize>, NoMemory>
    requires { from + length lines.now < 2 ^ 64 }
    ensures { IfOk result (λ bad. bad
        ≡ first_bad_of is_line from (option_copied before.entry) (map (λ line. line.now) lines.now)) }
{
    'lines: for (i, line) in lines.iter().enumerate() {
        if !is_good(alloc, line_before(before, lines, i), line)? {
            return Ok(Some(from + i));
        }
    }
    Ok(None)
}

/// The line before a place, where there is one.
pub fn line_before<'a>(before: Option<&'a [u8]>, lines: &[&'a str], i: usize) -> Option<&'a [u8]>
    requires { i ≤ length lines.now }
    ensures { option_copied result ≡ last_before (option_copied before.entry) (map (λ line. line.now) (take i lines.now)) }
{
    if i == 0 {
        return before;
    }
    Some(lines[i - 1].as_bytes())
}

/// The line is a listed key's, and follows the one before it. Refuses: `NoMemory`.
fn is_good(alloc: Global, before: Option<&[u8]>, line: &str) -> Result<bool, NoMemory>
    ensures { IfOk result (λ good. good ≡ (is_line line.now && does_follow (option_copied before.entry) line.now)) }
{
    if follows(before, line) {
        return is_listed_line(alloc, line);
    }
    Ok(false)
}

/// The line is greater than the one before it, where there is one.
fn follows(before: Option<&[u8]>, line: &str) -> bool
    ensures { result ≡ does_follow (option_copied before.entry) line.now }
{
    match before {
        Some(before) => match before.cmp(line.as_bytes()) {
            Ordering::Less => true,
            Ordering::Equal | Ordering::Greater => false,
        },
        None => true,
    }
}
