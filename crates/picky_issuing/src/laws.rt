//! The laws of this crate, each as the contract of a function that does nothing.

ghost use Rattle.std.specs.Prelude.{◌≡◌, ◌<◌, ◌^◌, ◌↔◌, List, ℕ, Some, None};
ghost use Rattle.std.specs.Fmt.{decimal};
ghost use Rattle.std.specs.Option.{IfSome};
ghost use Rattle.std.specs.Str.{IsUtf8};
ghost use Rattle.picky_wire_base.specs.Equality.{IsEquality};
ghost use Rattle.picky_issuing.specs.Value.{number_named};
ghost use Rattle.picky_issuing.specs.Parts.{HasNoMark, IsCut, cut, issuer_text_part, key_part};

use crate::options::CertOptions;

/// A text names a number exactly where it is the decimal of that number, which is below 2^64.
pub fn numbers_are_named_by_their_decimals()
    ensures { (text : List ℕ) (n : ℕ) → (number_named text ≡ Some n) ↔ ((text ≡ decimal n) × (n < 2 ^ 64)) }
{}

/// A source is cut so exactly where it is the issuer's text, its first line that is the mark, and the key text.
pub fn source_is_cut_at_its_first_mark()
    ensures { (text issuer key : List ℕ) → (cut text ≡ Some (issuer, key)) ↔ IsCut text issuer key }
{}

/// It is not cut exactly where no line of it is the mark.
#[tactic(auto, using(crate::proofs::PartsLaws::uncut_without_mark))]
pub fn source_without_a_mark_is_not_cut()
    ensures { (text : List ℕ) → (cut text ≡ None) ↔ HasNoMark text }
{}

/// So its parts are these, whatever the cut.
pub fn source_has_its_parts()
    ensures marked { (text issuer key : List ℕ) → IsCut text issuer key
        → (issuer_text_part text ≡ Some issuer) × (key_part text ≡ key) }
    ensures unmarked { (text : List ℕ) → HasNoMark text → (issuer_text_part text ≡ None) × (key_part text ≡ text) }
{}

/// The parts of a source that is text are text.
pub fn parts_are_text()
    ensures { (text : List ℕ) → IsUtf8 text → IfSome (issuer_text_part text) IsUtf8 × IsUtf8 (key_part text) }
{}

/// Two values are equal exactly where their contents are.
pub fn equality_is_of_contents()
    ensures { IsEquality ⟦<CertOptions as PartialEq>⟧.eq }
{}
