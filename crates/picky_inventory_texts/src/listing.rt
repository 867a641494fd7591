//! The inventory of a list of texts.

ghost use Rattle.std.specs.Prelude.{◌≡◌, ◌≢◌, ◌++◌, ◌⊎◌, map, true, IfOk};
ghost use Rattle.picky_wire_base.specs.Gives.{Gives};
ghost use Rattle.picky_wire_base.specs.Outcome.{map_err, map_ok};
ghost use Rattle.picky_inventory_texts.specs.Listed.{listed_line};
ghost use Rattle.picky_inventory_texts.specs.Texts.{bytes_items, lines_from, listed_text, read_text as read_text_of, refused};
ghost use Rattle.picky_inventory_texts.specs.Texts.{plain_reader, seen_text, texts_inventory};
ghost use Rattle.picky_key_text.specs.Reads.{Reads};
ghost use Rattle.picky_key_text.specs.declared.meaning.Meaning.{Meaning};
ghost use Rattle.picky_shown.specs.Shown.{shows};
ghost use Rattle.picky_suite.specs.Meanings.{plain};

use crate::line::sealed_line;
use picky_inventory::{is_blank, joined_lines, line_of, sorted_lines};
use picky_key_text::{ReadError, read_text};
use picky_shown::show_text;
use picky_suite::PlainSuite;
use picky_utf8::as_text;
use picky_wire::NoMemory;
use std::alloc::Global;

/// Why a text isn't listed.
#[derive(Debug, Drop)]
pub enum TextCause {
    /// It isn't UTF-8.
    NotUtf8,
    /// It isn't read, or, where encrypted private keys are listed, doesn't show what it is.
    Unread(ReadError),
}

/// Why a list of texts has no inventory.
#[derive(Debug, Drop)]
pub enum ListError {
    /// The text of this number, counted from 0, isn't listed.
    Text(usize, TextCause),
    /// Memory ran out.
    NoMemory,
}

/// The inventory of a list of texts, each its own: no line `%%` cuts one. It has the lines that `list_text` of
/// picky_inventory gives the same texts as parts, sorted by their bytes, each once.
///
/// Nothing is opened. Where `sealed` is true, an encrypted private key is listed by what it shows, under the word `sealed`;
/// else it is refused. A text of white space alone gives nothing, and neither does an empty list. Refuses the first text that
/// isn't listed, as `read_text` without a passphrase, or `show_text`; `NoMemory`.
pub fn list_texts(alloc: Global, texts: &[&[u8]], sealed: bool) -> Result<Vec<u8>, ListError>
    ensures gives { Gives ListError.NoMemory (λ written. written.items) result
        (texts_inventory sealed (map (λ text. text.now) texts.now)) }
{
    match lines_of_texts(alloc, texts, sealed) {
        Ok(lines) => {
            let lines = sorted_lines(lines);
            match joined_lines(alloc, lines.as_slice()) {
                Ok(written) => Ok(written),
                Err(NoMemory) => Err(ListError::NoMemory),
            }
        }
        Err(e) => Err(e),
    }
}

/// The lines of the texts, in their order. Refuses as `list_texts`.
fn lines_of_texts(alloc: Global, texts: &[&[u8]], sealed: bool) -> Result<Vec<Vec<u8>>, ListError>
    ensures { Gives ListError.NoMemory (λ lines. map (λ line. line.items) lines.items) result
        (lines_from sealed 0 (map (λ text. text.now) texts.now)) }
{
    let mut lines = Vec::new(alloc);
    'texts: for (i, text) in texts.iter().enumerate() {
        match add_text(alloc, &mut lines, i, text, sealed) {
            Ok(()) => {}
            Err(e) => return Err(e),
        }
    }
    Ok(lines)
}

/// Adds the line of the text at a place, where it gives one. Refuses: `Text` with this place, `NoMemory`.
fn add_text(
    alloc: Global,
    lines: &mut Vec<Vec<u8>>,
    place: usize,
    text: &[u8],
    sealed: bool,
) -> Result<(), ListError>
    ensures { Gives ListError.NoMemory (λ _. map (λ line. line.items) lines.new.items) result
        (map_ok (λ items. map (λ line. line.items) lines.old.items ++ map listed_line items)
        (map_err (refused place) (bytes_items sealed text.now))) }
{
    let text = match as_text(text) {
        Some(text) => text,
        None => return Err(ListError::Text(place, TextCause::NotUtf8)),
    };
    if is_blank(text) {
        return Ok(());
    }
    match text_line(alloc, text, sealed) {
        Ok(line) => match lines.push(line) {
            Ok(()) => Ok(()),
            Err(_) => Err(ListError::NoMemory),
        },
        Err(e) => Err(unread(place, e)),
    }
}

/// A refusal as that of the text at a place, where want of memory is the outer want.
fn unread(place: usize, e: ReadError) -> ListError
    ensures { ((result ≡ ListError.NoMemory) × (e ≡ ReadError.NoMemory))
        ⊎ ((e ≢ ReadError.NoMemory) × (result ≡ ListError.Text place (TextCause.Unread e))) }
{
    match e {
        ReadError::NoMemory => {
            drop(e);
            ListError::NoMemory
        }
        e => ListError::Text(place, TextCause::Unread(e)),
    }
}

/// The line of a text. An encrypted text isn't read, so another is read once alone. Refuses as `list_texts`.
fn text_line(alloc: Global, text: &str, sealed: bool) -> Result<Vec<u8>, ReadError>
    ensures { Gives ReadError.NoMemory (λ line. line.items) result (map_ok listed_line (listed_text sealed text.now)) }
{
    match read_line(alloc, text) {
        Ok(line) => Ok(line),
        Err(e) => {
            if sealed {
                drop(e);
                return shown_line(alloc, text);
            }
            Err(e)
        }
    }
}

/// The line of what a text means. Refuses as `read_text` without a passphrase.
fn read_line(alloc: Global, text: &str) -> Result<Vec<u8>, ReadError>
    ensures gives { Gives ReadError.NoMemory (λ line. line.items) result (map_ok listed_line (read_text_of text.now)) }
    ensures means { IfOk result (λ line. (meaning : Meaning) × Reads plain_reader text.now meaning) }
{
    let mut suite = PlainSuite::new();
    match read_text(alloc, &mut suite, text, None) {
        Ok(meaning) => {
            let line = line_of(alloc, &meaning);
            drop(meaning);
            match line {
                Ok(line) => Ok(line),
                Err(NoMemory) => Err(ReadError::NoMemory),
            }
        }
        Err(e) => Err(e),
    }
}

/// The line of what an encrypted text shows. Another is read, so where this is asked of one, memory ran out. Refuses as
/// `show_text`.
fn shown_line(alloc: Global, text: &str) -> Result<Vec<u8>, ReadError>
    ensures { Gives ReadError.NoMemory (λ line. line.items) result (map_ok listed_line (listed_text true text.now)) }
{
    let mut suite = PlainSuite::new();
    match show_text(alloc, &mut suite, text) {
        Ok(shown) => {
            if shown.sealing.is_encrypted() {
                let line = sealed_line(alloc, &shown.key);
                drop(shown);
                return match line {
                    Ok(line) => Ok(line),
                    Err(NoMemory) => Err(ReadError::NoMemory),
                };
            }
            drop(shown);
            Err(ReadError::NoMemory)
        }
        Err(e) => Err(e),
    }
}
