//! A text of authorized keys.

ghost use Rattle.std.specs.Prelude.{◌≡◌, ◌^◌, ◌<◌, IfOk, length};
ghost use Rattle.picky_wire_base.specs.Gives.{Gives};
ghost use Rattle.picky_authorized.specs.Entries.{entries_in, keys_in, AreFit};

use crate::content::{content_of, strip_blanks};
use crate::entry::AuthEntry;
use picky_text::LineReader;
use picky_wire::{List, MAX_LEN, NoMemory};
use std::alloc::Global;
use thiserror::Error;

/// Why a text has no entries.
#[derive(Debug, Drop, PartialEq, Eq, Error)]
pub enum PolicyError {
    /// It has 2^32 bytes or more.
    #[error("TooLong")]
    TooLong,
    /// Memory ran out.
    #[error("NoMemory")]
    NoMemory,
}

/// The entries of a text of authorized keys, in the order of its lines.
///
/// Lines are those of std, and count from 1; each is read without the spaces and tabs in front. The options that a line begins
/// with end at the first space or tab outside quotes (sshd(8)). An option is known by its name alone, and none is refused for
/// its name. Refuses, in order: `TooLong`.
pub fn read_keys(alloc: Global, text: &str) -> Result<List<AuthEntry>, PolicyError>
    ensures gives { Gives PolicyError.NoMemory (λ entries. entries) result (keys_in text.now) }
    // What deciding over them asks for.
    ensures fit { IfOk result AreFit }
{
    if text.len() > MAX_LEN {
        return Err(PolicyError::TooLong);
    }
    match entries_of(alloc, text) {
        Ok(entries) => Ok(entries),
        Err(NoMemory) => Err(PolicyError::NoMemory),
    }
}

/// The entries of a text of which a length of the wire can say the length. Refuses: `NoMemory`.
fn entries_of(alloc: Global, text: &str) -> Result<List<AuthEntry>, NoMemory>
    requires { length text.now < 2 ^ 32 }
    ensures are { IfOk result (λ entries. entries ≡ entries_in text.now) }
    ensures fit { IfOk result AreFit }
{
    let mut entries = List::new(alloc);
    let mut lines = LineReader::new(text);
    let mut number = 1;
    'lines: while let Some(line) = lines.next_line() {
        match content_of(alloc, strip_blanks(line))? {
            Some(content) => match entries.push(AuthEntry {
                line: number,
                content,
            }) {
                Ok(()) => {}
                Err(_) => return Err(NoMemory),
            },
            None => {}
        }
        number += 1;
    }
    Ok(entries)
}
