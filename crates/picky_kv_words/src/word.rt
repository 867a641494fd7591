//! Types of one literal: each says its two texts, and how it is read and written follows.

ghost use Rattle.std.specs.Prelude.{◌≡◌, ◌^◌, ◌<◌, length};
ghost use Rattle.picky_kv_words.specs.Literal.{Word, IsLiteralOf};

use crate::error::PpkValueError;
use crate::field::{PpkField, PpkLiteral, PpkSingle, refused};
use picky_wire_base::{SizeError, Text};
use std::alloc::Global;

/// The literal of a type, and the type's name, which refusals give.
#[derive(Clone, Copy, Debug)]
pub struct WordTexts {
    literal: &'static str,
    name: &'static str,
}

impl WordTexts {
    /// The texts of a type with this literal and this name.
    pub fn new(literal: &'static str, name: &'static str) -> WordTexts
        ensures literal { result.literal.now ≡ literal.now }
        ensures name { result.name.now ≡ name.now }
    {
        WordTexts { literal, name }
    }
}

/// A type with one value, for which its literal alone stands.
pub trait PpkWord: Default + Drop {
    // the type's row, what texts mean, and the one value
    ghost word: { Word Self };

    /// The literal, and the type's name.
    fn texts() -> WordTexts
        ensures literal { IsLiteralOf word result.literal.now }
        ensures name { result.name.now ≡ word.row.name }
        ensures short { (length result.literal.now < 2 ^ 32) × (length result.name.now < 2 ^ 32) };
}

impl<T: PpkWord> PpkField for T {
    ghost field = { T.word.field };

    fn read(alloc: Global, text: &str) -> Result<T, PpkValueError> {
        let literal = T::texts().literal;
        if text == literal {
            return Ok(T::single());
        }
        Err(refused(alloc, literal, text))
    }

    fn write(&self, alloc: Global) -> Result<Text, SizeError> {
        Text::new(alloc, T::texts().literal)
    }
}

impl<T: PpkWord> PpkLiteral for T {
    ghost name = { T.word.row.name };

    ghost literal = { T.word.field.spelling };

    fn context() -> &'static str {
        T::texts().name
    }

    fn as_static_str(&self) -> &'static str {
        T::texts().literal
    }
}

impl<T: PpkWord> PpkSingle for T {
    ghost one = { T.word.one };

    fn single() -> T {
        T::default()
    }

    ghost only = { T.word.only };
}
