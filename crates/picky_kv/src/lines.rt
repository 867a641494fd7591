//! What a line and a block of a PuTTY private key file are written as.

ghost use Rattle.std.specs.Prelude.{◌≡◌, [], ◌∷◌, length, OnErr, OnOk};
ghost use Rattle.std.specs.Str.{IsAscii};
ghost use Rattle.picky_text.specs.Appended.{AppendsAll, AppendsFront};
ghost use Rattle.picky_text.specs.Lines.{text_of};
ghost use Rattle.picky_text.specs.Rows.{rows_of};
ghost use Rattle.picky_kv.specs.Output.{pair_line, block_lines};

use crate::literals::SEPARATOR;
use picky_text::{LINE_LEN, LineEnd, push_rows};
use std::alloc::{AllocError, Global};

/// The most lines that a block can have.
pub const MAX_LINE_COUNT: usize = 65535;

/// Appends the line of the key and the value; on an error, a front of that. Refuses: want of memory.
pub fn push_line(out: &mut String, key: &str, value: &str, end: LineEnd) -> Result<(), AllocError>
    ensures ok { OnOk result (AppendsAll out.old out.new (text_of end (pair_line key.now value.now ∷ []))) }
    ensures err { OnErr result (AppendsFront out.old out.new (text_of end (pair_line key.now value.now ∷ []))) }
{
    out.push_str(key)?;
    out.push_str(SEPARATOR)?;
    out.push_str(value)?;
    out.push_str(end.as_str())?;
    Ok(())
}

/// Appends a block, however long: the line of the key and the count, and the text in lines of 64; on an error, a front of
/// that. Refuses: want of memory.
pub fn push_block(
    alloc: Global,
    out: &mut String,
    key: &str,
    text: &str,
    end: LineEnd,
) -> Result<(), AllocError>
    requires ascii { IsAscii text.now }
    ensures ok { OnOk result (AppendsAll out.old out.new (text_of end (block_lines key.now text.now))) }
    ensures err { OnErr result (AppendsFront out.old out.new (text_of end (block_lines key.now text.now))) }
{
    let count = format!(in alloc; "{}", line_count(text))?;
    push_line(out, key, count.as_str(), end)?;
    push_rows(out, text, end)?;
    Ok(())
}

/// How many lines of a block the text takes.
pub(crate) fn line_count(text: &str) -> usize
    ensures { result ≡ length (rows_of text.now) }
{
    text.len().div_ceil(LINE_LEN)
}
