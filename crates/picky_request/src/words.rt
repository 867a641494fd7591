//! The words of a request line.

ghost use Rattle.std.specs.Prelude.{◌≡◌, MatchOption, None, Some};
ghost use Rattle.std.specs.Option.{option_map};
ghost use Rattle.picky_request.specs.Request.{cut_at_space, words_in};
ghost use Rattle.picky_request.specs.inner.Shown.{words_shown};

/// The words of a line, and the rest of it.
#[derive(Clone, Copy)]
pub struct LineWords<'a> {
    pub id: &'a str,
    pub kind: &'a str,
    pub principals: &'a str,
    pub after: &'a str,
    pub before: &'a str,
    pub key: &'a str,
}

/// The first five words of a line, each ended by one space, and what follows the last of these.
#[tactic(auto, unfolding(crate::specs::Request::words_in))]
pub fn words_of(line: &str) -> Option<LineWords<'_>>
    ensures { option_map words_shown result ≡ words_in line.now }
{
    let (id, rest) = at_space(line)?;
    let (kind, rest) = at_space(rest)?;
    let (principals, rest) = at_space(rest)?;
    let (after, rest) = at_space(rest)?;
    let (before, key) = at_space(rest)?;
    Some(LineWords {
        id,
        kind,
        principals,
        after,
        before,
        key,
    })
}

/// What stands before the first space, and what follows it.
fn at_space(text: &str) -> Option<(&str, &str)>
    ensures { MatchOption result (cut_at_space text.now ≡ None) (λ cut. cut_at_space text.now ≡ Some (cut.0.now, cut.1.now)) }
{
    text.split_once(' ')
}
