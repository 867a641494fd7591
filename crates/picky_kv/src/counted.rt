//! The counted lines of a block, decoded as they come.

ghost use Rattle.std.specs.Prelude.{◌≡◌, ◌⊎◌, Some, None, IfOk, IfErr};
ghost use Rattle.picky_wire_base.specs.Gives.{Gives};
ghost use Rattle.picky_kv.specs.Joined.{joined_text};
ghost use Rattle.picky_kv_words.specs.Field.{field_value};
ghost use Rattle.picky_kv.specs.Context.{in_context};
ghost use Rattle.picky_kv.specs.Lines.{first_joined};

use crate::error::KvError;
use crate::joined::JoinedLines;
use crate::reader::read_in;
use picky_kv_words::{PpkBlock, PpkLiteral};
use picky_text::LineReader;
use std::alloc::Global;

/// The next lines, as many as are counted. Refuses, in order: `EndOfInput`.
pub(crate) fn take_counted(
    lines: &mut LineReader<'_>,
    alloc: Global,
    count: u16,
) -> Result<JoinedLines, KvError>
    ensures ok { IfOk result (λ block.
        first_joined count lines.old ≡ Some (joined_text block, lines.new)) }
    ensures err { IfErr result (λ e.
        (e ≡ KvError.NoMemory) ⊎ ((e ≡ KvError.EndOfInput) × (first_joined count lines.old ≡ None))) }
{
    let mut block = JoinedLines::new(alloc);
    'lines: for _ in 0..count {
        match lines.next_line() {
            Some(line) => block.push(line)?,
            None => return Err(KvError::EndOfInput),
        }
    }
    Ok(block)
}

/// The value of the lines, joined. Refuses, in order: `InvalidInput`, `TooLong`.
pub(crate) fn block_value<K: PpkLiteral, V: PpkBlock>(
    alloc: Global,
    block: JoinedLines,
) -> Result<V, KvError>
    ensures { Gives KvError.NoMemory (λ value. value) result
        (in_context K.name (field_value V.field (joined_text block))) }
{
    match block.finish()? {
        Ok(bytes) => Ok(V::from_block(bytes)),
        Err(text) => read_in::<K, V>(alloc, text.as_str()),
    }
}
