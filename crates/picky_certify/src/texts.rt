//! Words as texts.

ghost use Rattle.std.specs.Prelude.{map};
ghost use Rattle.picky_wire_base.specs.Gives.{Gives};
ghost use Rattle.picky_certify.specs.Texts.{word_judged, words_judged};

use crate::error::CertifyError;
use picky_utf8::as_text;
use picky_wire::{SizeError, Text};
use std::alloc::Global;

/// The words as texts. Refuses, at the first word where one is wrong, in order: `WordNotUtf8`, `TooLong`.
pub fn texts_of(alloc: Global, words: &[&[u8]]) -> Result<Vec<Text>, CertifyError>
    ensures { Gives CertifyError.NoMemory (λ texts. texts.items) result (words_judged (map (λ word. word.now) words.now)) }
{
    let mut texts = Vec::new(alloc);
    'words: for word in words {
        let text = match text_of(alloc, word) {
            Ok(text) => text,
            Err(e) => return Err(e),
        };
        match texts.push(text) {
            Ok(()) => {}
            Err(_) => return Err(CertifyError::NoMemory),
        }
    }
    Ok(texts)
}

/// A word as a text. Refuses, in order: `WordNotUtf8`, `TooLong`.
fn text_of(alloc: Global, word: &[u8]) -> Result<Text, CertifyError>
    ensures { Gives CertifyError.NoMemory (λ text. text) result (word_judged word.now) }
{
    match as_text(word) {
        Some(text) => match Text::new(alloc, text) {
            Ok(text) => Ok(text),
            Err(SizeError::TooLong) => Err(CertifyError::TooLong),
            Err(SizeError::NoMemory) => Err(CertifyError::NoMemory),
        },
        None => Err(CertifyError::WordNotUtf8),
    }
}
