//! Lines, as std's `lines` splits them, and their two ends.

ghost use Rattle.std.specs.Prelude.{◌≡◌, ℕ, List, [], ◌∷◌, IfNone, IfSome};
ghost use Rattle.std.specs.Str.Iter.{lines_rest};
ghost use Rattle.picky_text.specs.Lines.{end_bytes, lines};

use std::marker::Model;
use std::str::Lines;

/// What ends a line that is written.
#[derive(Clone, Copy, Debug, PartialEq, Eq)]
pub enum LineEnd {
    Lf,
    CrLf,
}

impl LineEnd {
    /// The bytes that end a line.
    pub fn as_str(self) -> &'static str
        ensures { result.now ≡ end_bytes self }
    {
        match self {
            LineEnd::Lf => "\n",
            LineEnd::CrLf => "\r\n",
        }
    }
}

/// The lines of a text, one at a time.
#[derive(Drop)]
pub struct LineReader<'a> {
    rest: Lines<'a>,
}

impl<'a> Model for LineReader<'a> {
    ghost Value = { List (List ℕ) };

    ghost view = { λ r. lines (lines_rest r.rest) };
}

impl<'a> LineReader<'a> {
    /// All lines of the text.
    pub fn new(text: &'a str) -> Self
        ensures { result ≡ lines text.now }
    {
        LineReader { rest: text.lines() }
    }

    /// The next line, without its end.
    pub fn next_line(&mut self) -> Option<&'a str>
        ensures none { IfNone result ((self.old ≡ []) × (self.new ≡ [])) }
        ensures line { IfSome result (λ line. self.old ≡ line.now ∷ self.new) }
    {
        self.rest.next()
    }
}
