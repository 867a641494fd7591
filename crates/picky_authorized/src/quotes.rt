//! The front of a text up to what ends it outside quotes.

ghost use Rattle.std.specs.Prelude.{◌≡◌, length};
ghost use Rattle.picky_authorized.specs.Quotes.{ends_at, front_outside, quoted_behind, rest_outside};

/// What ends a part of a line, where no quotes stand around it.
#[derive(Clone, Copy)]
pub enum PartEnd {
    /// A space or a tab, which ends the options.
    Blank,
    /// A comma, which ends one option.
    Comma,
}

impl PartEnd {
    /// The byte ends such a part.
    fn is(self, byte: u8) -> bool
        ensures { result ≡ ends_at self byte }
    {
        match self {
            PartEnd::Blank => byte == b' ' || byte == b'\t',
            PartEnd::Comma => byte == b',',
        }
    }
}

/// The longest front in which each such byte stands between quotes, and what follows it. A quote after a backslash neither
/// opens nor closes.
pub fn split_outside(text: &str, end: PartEnd) -> (&str, &str)
    ensures front { result.0.now ≡ front_outside (ends_at end) text.now }
    ensures rest { result.1.now ≡ rest_outside (ends_at end) text.now }
{
    text.split_at(front_len(text.as_bytes(), end))
}

/// How many bytes that front has.
#[tactic(auto, unfolding(crate::specs::Quotes::front_outside))]
fn front_len(bytes: &[u8], end: PartEnd) -> usize
    ensures { result ≡ length (front_outside (ends_at end) bytes.now) }
{
    let mut quoted = false;
    let mut before = 0u8;
    let mut rest = bytes;
    'bytes: while let [byte, more @ ..] = rest {
        if end.is(*byte) && !quoted {
            return bytes.len() - rest.len();
        }
        quoted = is_quoted_behind(quoted, before, *byte);
        before = *byte;
        rest = more;
    }
    bytes.len()
}

/// Whether what follows a byte stands between quotes.
fn is_quoted_behind(quoted: bool, before: u8, byte: u8) -> bool
    ensures { result ≡ quoted_behind quoted before byte }
{
    if byte == b'"' && before != b'\\' {
        return !quoted;
    }
    quoted
}
