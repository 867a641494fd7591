//! What is written, where it is short enough.

ghost use Rattle.std.specs.Prelude.{string_bytes};
ghost use Rattle.picky_kv_words.specs.Field.{IsSpelling};

use picky_wire_base::{MAX_LEN, SizeError, Text};

/// The string as a text. Refuses, in order: `TooLong`, where it has 2^32 bytes or more.
pub fn text_within(string: String) -> Result<Text, SizeError>
    ensures { IsSpelling result (string_bytes string) }
{
    if string.len() <= MAX_LEN {
        Ok(Text::from_string(string))
    } else {
        Err(SizeError::TooLong)
    }
}
