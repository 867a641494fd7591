//! The text of a source.

ghost use Rattle.std.specs.Prelude.{◌≡◌, ◌≤◌, true, false, string_bytes, MatchOption, vec_len};
ghost use Rattle.std.specs.Str.{IsUtf8, is_utf8};
ghost use Rattle.picky_input.specs.Input.{input_limit};
ghost use Rattle.picky_input.specs.SourceText.{TakesText};

use crate::input::{InputError, read_input};
use picky_wire::{Source, Text};
use std::alloc::Global;
use std::str;

/// Why the text of a source is not here.
#[derive(Debug, Drop, PartialEq, Eq)]
pub enum SourceError {
    /// The source failed.
    ReadFault,
    /// There are more than 16,777,216 bytes.
    InputTooLong,
    /// The bytes aren't UTF-8.
    InputNotUtf8,
    /// Memory ran out.
    NoMemory,
}

/// The text of all bytes that the source has left. Of those past the limit at most one is taken.
///
/// Refuses, in order: `ReadFault`, `InputTooLong`, `InputNotUtf8`.
#[tactic(auto, unfolding(crate::specs::SourceText::source_text_of))]
pub fn take_text<S: Source>(alloc: Global, source: &mut S) -> Result<Text, SourceError>
    ensures takes { TakesText S.tells S.left S.known S.faults result source.old source.new }
{
    match read_input(alloc, source) {
        Ok(input) => match into_text(input) {
            Some(text) => Ok(text),
            None => Err(SourceError::InputNotUtf8),
        },
        Err(InputError::ReadFault) => Err(SourceError::ReadFault),
        Err(InputError::TooLong) => Err(SourceError::InputTooLong),
        Err(InputError::NoMemory) => Err(SourceError::NoMemory),
    }
}

/// The bytes as a text, where they are UTF-8.
pub fn as_text(bytes: &[u8]) -> Option<&str>
    ensures { MatchOption result (IsUtf8 bytes.now → ⊥) (λ text. (text.now ≡ bytes.now) × IsUtf8 bytes.now) }
{
    str::from_utf8(bytes).ok()
}

/// The same without a copy.
#[tactic(auto, using(picky_wire_base::proofs::TextLemmas::is_no_text))]
fn into_text(bytes: Vec<u8>) -> Option<Text>
    requires { vec_len bytes ≤ input_limit }
    ensures { MatchOption result (is_utf8 bytes.items ≡ false) (λ text. (text ≡ bytes.items) × (is_utf8 bytes.items ≡ true)) }
{
    match String::from_utf8(bytes) {
        Ok(string) => Some(Text::from_string(string)),
        Err(_) => None,
    }
}
