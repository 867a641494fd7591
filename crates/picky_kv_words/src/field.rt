//! What a type of keys or values promises.

ghost use Rattle.std.specs.Prelude.{◌≡◌, ◌⊎◌, ◌^◌, ◌<◌, ℕ, List, length};
ghost use Rattle.picky_wire_base.specs.Gives.{Gives};
ghost use Rattle.picky_kv_words.specs.Field.{Field, field_value, value_refusal, IsSpelling};

use crate::error::{PpkValueError, PpkValueParsingError};
use picky_wire_base::{SizeError, Text};
use std::alloc::Global;

/// A key or a value of a line, read from its text and written as it.
pub trait PpkField: Sized + Drop {
    // what the texts mean and how the values are written
    ghost field: { Field Self };

    /// The value that the text stands for. Refuses, in order: `Parsing`, `TooLong`.
    fn read(alloc: Global, text: &str) -> Result<Self, PpkValueError>
        ensures { Gives PpkValueError.NoMemory (λ value. value) result (field_value field text.now) };

    /// The value's one written text. Refuses, in order: `TooLong`.
    fn write(&self, alloc: Global) -> Result<Text, SizeError>
        ensures text { IsSpelling result (field.spelling self.now) }
        ensures fits { field.fits self.now };
}

/// A type whose values have one literal each.
pub trait PpkLiteral {
    // the type's name, and the literal of each value
    ghost name: { List ℕ };

    ghost literal: { Self → List ℕ };

    /// The name of the type, which refusals give.
    fn context() -> &'static str
        ensures name { result.now ≡ name }
        ensures short { length result.now < 2 ^ 32 };

    /// The literal of this value.
    fn as_static_str(&self) -> &'static str
        ensures { result.now ≡ literal self.now };
}

/// A type with one value.
pub trait PpkSingle: PpkLiteral + Sized {
    ghost one: { Self };

    /// That value.
    fn single() -> Self
        ensures { result ≡ one };

    ghost only: { (k : Self) → k ≡ one };
}

/// The refusal of a text that stands for no value.
pub fn refused(alloc: Global, expected: &str, text: &str) -> PpkValueError
    requires { length expected.now < 2 ^ 32 }
    ensures { (result ≡ PpkValueError.NoMemory) ⊎ (result ≡ value_refusal expected.now text.now) }
{
    match Text::new(alloc, text) {
        Ok(actual) => match Text::new(alloc, expected) {
            Ok(expected) => PpkValueError::Parsing(PpkValueParsingError { expected, actual }),
            Err(_) => PpkValueError::NoMemory,
        },
        Err(SizeError::TooLong) => PpkValueError::TooLong,
        Err(SizeError::NoMemory) => PpkValueError::NoMemory,
    }
}
