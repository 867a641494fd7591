//! What a target carries of a comment.

ghost use Rattle.std.specs.Prelude.{◌≡◌};
ghost use Rattle.std.specs.List.{list_any};
ghost use Rattle.picky_text.specs.Words.{ends_line};
ghost use Rattle.picky_target.specs.Judged.{carries_comment as carries_comment_of, has_lf as has_lf_in};
ghost use Rattle.picky_target.specs.Judged.{ends_in_cr as ends_in_cr_of, is_trimmed as is_trimmed_of};

use crate::target::KeyTarget;
use memchr::{memchr, memchr2};
use picky_ppk::PpkVersion;

/// Whether the target can hold the comment.
pub fn carries_comment(target: KeyTarget, comment: &str) -> bool
    ensures { result ≡ carries_comment_of target comment.now }
{
    match target {
        KeyTarget::OpenSsh(_) => is_trimmed(comment),
        KeyTarget::Ppk(PpkVersion::V2, _, _) => !has_lf(comment),
        KeyTarget::Ppk(PpkVersion::V3, _, _) => !has_lf(comment) && !ends_in_cr(comment),
        KeyTarget::OpenSshPublic => !has_line_end(comment) && is_trimmed(comment),
        KeyTarget::PuttyPublic => !has_lf(comment),
    }
}

fn is_trimmed(comment: &str) -> bool
    ensures { result ≡ is_trimmed_of comment.now }
{
    comment.trim_end() == comment
}

#[tactic(auto, using(crate::proofs::SearchLemmas::found_is_any))]
fn has_line_end(text: &str) -> bool
    ensures { result ≡ list_any ends_line text.now }
{
    memchr2(b'\r', b'\n', text.as_bytes()).is_some()
}

#[tactic(auto, using(crate::proofs::SearchLemmas::found_is_any))]
fn has_lf(text: &str) -> bool
    ensures { result ≡ has_lf_in text.now }
{
    memchr(b'\n', text.as_bytes()).is_some()
}

fn ends_in_cr(text: &str) -> bool
    ensures { result ≡ ends_in_cr_of text.now }
{
    match text.as_bytes().last() {
        Some(last) => *last == b'\r',
        None => false,
    }
}
