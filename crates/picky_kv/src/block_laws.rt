//! The laws of base64 lines, each as the contract of a function that does nothing.

ghost use Rattle.std.specs.Prelude.{◌≡◌, ◌↔◌, ℕ, List, Ok, Err};
ghost use Rattle.std.specs.List.{AllByRecursion};
ghost use Rattle.picky_wire_base.specs.Numbers.{IsBytes};
ghost use Rattle.picky_wire_base.specs.Equality.{IsEquality};
ghost use Rattle.picky_kv.specs.Block.{IsNoFront, IsLongFront, IsBlock};
ghost use Rattle.picky_kv.specs.BlockRefusal.{taken, block_of};

use crate::block_error::BlockError;

/// A text is refused exactly where no base64 begins with it, or its groups of four spell 2^32 bytes or more; one that is
/// taken is taken whole.
pub fn texts_are_refused_exactly()
    ensures whole { (text new : List ℕ) → taken text ≡ Ok new → new ≡ text }
    ensures bad { (text : List ℕ) → IsBytes text
        → taken text ≡ Err BlockError.BadBase64 ↔ IsNoFront text }
    ensures long { (text : List ℕ) → IsBytes text
        → taken text ≡ Err BlockError.TooLong ↔ IsLongFront text }
{}

/// Lines that are pushed one after another give bytes exactly where they are, joined, the base64 of those, which are
/// fewer than 2^32.
pub fn blocks_are_their_lines_joined()
    ensures says { (lines : List (List ℕ)) (bytes : List ℕ) → AllByRecursion IsBytes lines
        → block_of lines ≡ Ok bytes → IsBlock lines bytes }
    ensures means { (lines : List (List ℕ)) (bytes : List ℕ)
        → IsBlock lines bytes → block_of lines ≡ Ok bytes }
{}

/// Two refusals are equal exactly where they are the same.
pub fn equality_is_of_contents()
    ensures error { IsEquality ⟦<BlockError as PartialEq>⟧.eq }
{}
