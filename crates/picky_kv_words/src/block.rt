//! What a value promises whose text is the base64 of bytes.

ghost use Rattle.std.specs.Prelude.{◌≡◌, ℕ, List};
ghost use Rattle.picky_kv_words.specs.Blocks.{IsOfBlocks};

use crate::field::PpkField;
use picky_wire_base::Bytes;

/// A value of bytes, whose text is their base64: a block of lines is decoded for it as the lines come.
pub trait PpkBlock: PpkField {
    // the value of the bytes
    ghost made: { List ℕ → Self };

    /// The value of the bytes.
    fn from_block(bytes: Bytes) -> Self
        ensures { result ≡ made bytes };

    // a text stands for a value exactly where it is the base64 of bytes, which are the value's
    ghost blocks: { IsOfBlocks Self.field made };
}
