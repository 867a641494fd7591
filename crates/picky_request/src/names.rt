//! The names in a request line: its id, and its principals.

ghost use Rattle.std.specs.Prelude.{◌≡◌, ◌++◌, ◌∷◌, [], IfOk, OnOk};
ghost use Rattle.std.specs.List.{list_any, slice_split};
ghost use Rattle.std.specs.Char.{is_whitespace as is_white};
ghost use Rattle.std.specs.Str.{chars};
ghost use Rattle.picky_request.specs.Names.{if_full, is_comma, is_id as is_id_text, principals_in};

use picky_wire::{List, NoMemory, Text};
use std::alloc::Global;

/// The word for no principals.
const NONE: &str = "-";

/// Whether it can be an id: one or more characters, none of which is white space of Unicode.
pub fn is_id(text: &str) -> bool
    ensures { result ≡ is_id_text text.now }
{
    !text.is_empty() && !has_white(text)
}

/// Whether a character is white space.
fn has_white(text: &str) -> bool
    ensures { result ≡ list_any is_white (chars text.now) }
{
    'chars: for c in text.chars() {
        if c.is_whitespace() {
            return true;
        }
    }
    false
}

/// The principals of a word: none for a dash, and else the names between its commas, where none is empty. Refuses: `NoMemory`.
#[tactic(auto, unfolding(crate::specs::Names::principals_in, crate::specs::Names::no_principals))]
pub fn principals_of(alloc: Global, text: &str) -> Result<Option<List<Text>>, NoMemory>
    ensures { IfOk result (λ names. names ≡ principals_in text.now) }
{
    if text == NONE {
        return Ok(Some(List::new(alloc)));
    }
    names_of(alloc, text)
}

/// The names between the commas of a text, where none is empty. Refuses: `NoMemory`.
fn names_of(alloc: Global, text: &str) -> Result<Option<List<Text>>, NoMemory>
    ensures { IfOk result (λ names. names ≡ if_full (slice_split is_comma text.now)) }
{
    let mut names = List::new(alloc);
    let mut rest = text;
    'names: while let Some((name, after)) = rest.split_once(',') {
        if name.is_empty() {
            return Ok(None);
        }
        push(alloc, &mut names, name)?;
        rest = after;
    }
    if rest.is_empty() {
        return Ok(None);
    }
    push(alloc, &mut names, rest)?;
    Ok(Some(names))
}

/// Adds a copy of a name. Refuses: `NoMemory`.
fn push(alloc: Global, names: &mut List<Text>, name: &str) -> Result<(), NoMemory>
    ensures { OnOk result (names.new ≡ names.old ++ name.now ∷ []) }
{
    let name = text_of(alloc, name)?;
    match names.push(name) {
        Ok(()) => Ok(()),
        Err(_) => Err(NoMemory),
    }
}

/// A copy of a text that stands in a line. Refuses: `NoMemory`.
pub fn text_of(alloc: Global, text: &str) -> Result<Text, NoMemory>
    ensures { IfOk result (λ copy. copy ≡ text.now) }
{
    match Text::new(alloc, text) {
        Ok(copy) => Ok(copy),
        Err(_) => Err(NoMemory),
    }
}
