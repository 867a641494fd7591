//! Bytes that a caller gives as a text.
#![tactic(auto)]

ghost use Rattle.std.specs.Prelude.{◌≡◌, true, false, MatchOption};
ghost use Rattle.std.specs.Str.{IsUtf8, is_utf8};

use std::str;

/// The bytes as a text, where they are UTF-8. What a caller in C gives as no bytes may point nowhere, and then no text is made
/// of it.
#[tactic(auto, using(picky_wire_base::proofs::TextLemmas::is_no_text, crate::proofs::TextLemmas::is_text))]
pub fn as_text(bytes: &[u8]) -> Option<&str>
    ensures { MatchOption result (is_utf8 bytes.now ≡ false) (λ text. (text.now ≡ bytes.now) × (is_utf8 bytes.now ≡ true)) }
{
    match of_utf8(bytes) {
        Some(text) => Some(text),
        None => None,
    }
}

/// The same.
#[tactic(auto, using(crate::proofs::TextLemmas::nothing_is_text))]
fn of_utf8(bytes: &[u8]) -> Option<&str>
    ensures { MatchOption result (IsUtf8 bytes.now → ⊥) (λ text. (text.now ≡ bytes.now) × IsUtf8 bytes.now) }
{
    match bytes {
        [] => Some(""),
        bytes => str::from_utf8(bytes).ok(),
    }
}
