//! A text in lines of 64 characters, as PuTTY breaks base64.

ghost use Rattle.std.specs.Prelude.{OnOk, OnErr};
ghost use Rattle.std.specs.Str.{IsAscii};
ghost use Rattle.picky_text.specs.Appended.{AppendsAll, AppendsFront};
ghost use Rattle.picky_text.specs.Lines.{text_of};
ghost use Rattle.picky_text.specs.Rows.{rows_of};

use crate::lines::LineEnd;
use std::alloc::AllocError;

/// How many characters a full row has.
pub const LINE_LEN: usize = 64;

/// Appends the rows of the text, each with the line's end; on an error, some front of that. Refuses: want of memory.
pub fn push_rows(out: &mut String, text: &str, end: LineEnd) -> Result<(), AllocError>
    requires ascii { IsAscii text.now }
    ensures ok { OnOk result (AppendsAll out.old out.new (text_of end (rows_of text.now))) }
    ensures err { OnErr result (AppendsFront out.old out.new (text_of end (rows_of text.now))) }
{
    let mut rest = text;
    'rows: while !rest.is_empty() {
        let (row, more) = rest.split_at(rest.len().min(LINE_LEN));
        out.push_str(row)?;
        out.push_str(end.as_str())?;
        rest = more;
    }
    Ok(())
}
