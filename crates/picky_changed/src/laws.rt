//! The law of a changed text, as the contract of a function that does nothing.

ghost use Rattle.std.specs.Prelude.{◌≡◌, List, ℕ, Ok};
ghost use Rattle.std.specs.Str.{IsUtf8};
ghost use Rattle.picky_suite.specs.Meanings.{Meanings};
ghost use Rattle.picky_keys.specs.Key.{IsText};
ghost use Rattle.picky_changed.specs.Comment.{IsCommented, commented_text};

/// What is written of a text with another comment is read as the same key, with that comment.
pub fn changed_text_is_read_back()
    ensures { (m : Meanings) (comment text written : List ℕ) → IsUtf8 text → IsText comment
        → commented_text m comment text ≡ Ok written → IsCommented m comment text written }
{}
