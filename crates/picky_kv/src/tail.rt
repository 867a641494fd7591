//! The characters behind the last group of four.

ghost use Rattle.std.specs.Prelude.{◌≡◌, ◌<◌, length};
ghost use Rattle.picky_kv.specs.inner.Tail.{tail_text};

/// Up to three characters, which no group of four has yet.
#[derive(Clone, Copy)]
pub(crate) enum Tail {
    Empty,
    One([u8; 1]),
    Two([u8; 2]),
    Three([u8; 3]),
}

impl Tail {
    /// The characters.
    pub(crate) fn as_slice(&self) -> &[u8]
        ensures value { result.now ≡ tail_text self.now }
        ensures few { length result.now < 4 }
    {
        match self {
            Tail::Empty => &[],
            Tail::One(text) => text,
            Tail::Two(text) => text,
            Tail::Three(text) => text,
        }
    }
}

/// The same characters, kept.
pub(crate) fn kept(text: &[u8]) -> Tail
    requires { length text.now < 4 }
    ensures { tail_text result ≡ text.now }
{
    match text {
        [] => Tail::Empty,
        [a] => Tail::One([*a]),
        [a, b] => Tail::Two([*a, *b]),
        [a, b, c] => Tail::Three([*a, *b, *c]),
        _ => unreachable!(),
    }
}
