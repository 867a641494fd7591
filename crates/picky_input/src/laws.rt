//! The laws of this crate, each as the contract of a function that does nothing.

ghost use Rattle.std.specs.Prelude.{◌≡◌, ◌↔◌, ◌<◌, ◌≤◌, List, ℕ, Ok, Err, length};
ghost use Rattle.std.specs.Str.{IsUtf8};
ghost use Rattle.picky_input.specs.Input.{input_limit};
ghost use Rattle.picky_input.specs.SourceText.{IsSourceText, source_text_of};
ghost use Rattle.picky_wire_base.specs.Equality.{IsEquality};

use crate::input::InputError;
use crate::source_text::SourceError;

/// Bytes have a text exactly where they are few enough and UTF-8, and that text is the bytes.
pub fn text_is_its_bytes()
    ensures { (bytes text : List ℕ) → (source_text_of bytes ≡ Ok text) ↔ (IsSourceText bytes × (text ≡ bytes)) }
{}

/// They are refused exactly where they are too many, or where they are few enough and not UTF-8.
pub fn texts_are_refused_exactly()
    ensures too_long { (bytes : List ℕ) → (source_text_of bytes ≡ Err SourceError.InputTooLong) ↔ (input_limit < length bytes) }
    ensures not_utf8 { (bytes : List ℕ) → (source_text_of bytes ≡ Err SourceError.InputNotUtf8)
        ↔ ((length bytes ≤ input_limit) × (IsUtf8 bytes → ⊥)) }
{}

/// Two refusals are equal exactly where they are the same.
pub fn equality_is_of_contents()
    ensures input { IsEquality ⟦<InputError as PartialEq>⟧.eq }
    ensures text { IsEquality ⟦<SourceError as PartialEq>⟧.eq }
{}
