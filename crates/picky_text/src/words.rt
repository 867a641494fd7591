//! The words of a public key line, as sshd(8) lays it out. The line's bytes need not be UTF-8.

ghost use Rattle.std.specs.Prelude.{◌≡◌, ◌≤◌, length, drop, Some, None, IfNone, IfSome};
ghost use Rattle.std.specs.List.{position_or_len};
ghost use Rattle.std.specs.Str.{IsCharBoundary};
ghost use Rattle.picky_text.specs.Words.{ends_word, ends_line, first_word as word_of};
ghost use Rattle.picky_text.specs.Words.{behind_word, rest_of_line as rest_of, rest_text};

use memchr::{memchr2, memchr3};
use std::str;

/// The longest front without a space, CR and LF; and what follows the space that ends it, nothing where none does.
#[tactic(auto, unfolding(crate::specs::Words::first_word, crate::specs::Words::behind_word))]
pub fn split_word(bytes: &[u8]) -> (&[u8], &[u8])
    ensures word { result.0.now ≡ word_of bytes.now }
    ensures after { result.1.now ≡ behind_word bytes.now }
{
    let (word, rest) = bytes.split_at(word_end(bytes));
    match rest.split_first() {
        Some((b' ', after)) => (word, after),
        Some(_) | None => (word, &[]),
    }
}

/// The longest front without CR and LF, less the white space at its end, where it is UTF-8.
#[tactic(auto, unfolding(crate::specs::Words::rest_of_line), using(crate::proofs::WordLaws::rest_texts))]
pub fn rest_of_line(bytes: &[u8]) -> Option<&str>
    ensures none { IfNone result (rest_text bytes.now ≡ None) }
    ensures some { IfSome result (λ rest. rest_text bytes.now ≡ Some rest.now) }
{
    let (line, _) = bytes.split_at(line_end(bytes));
    match str::from_utf8(line) {
        Ok(line) => Some(line.trim_end()),
        Err(_) => None,
    }
}

/// The same of a text from a place on, whose bytes need not be looked at again.
#[tactic(auto, unfolding(crate::specs::Words::rest_of_line), using(crate::proofs::WordLaws::line_ends_at_boundary))]
pub fn rest_of_text(text: &str, from: usize) -> &str
    requires { IsCharBoundary text.now from }
    ensures { result.now ≡ rest_of (drop from text.now) }
{
    let (_, rest) = text.split_at(from);
    let (line, _) = rest.split_at(line_end(rest.as_bytes()));
    line.trim_end()
}

#[tactic(auto, using(crate::proofs::SearchLemmas::first_or_len))]
fn word_end(bytes: &[u8]) -> usize
    ensures place { result ≡ position_or_len ends_word bytes.now }
    ensures within { result ≤ length bytes.now }
{
    memchr3(b' ', b'\r', b'\n', bytes).unwrap_or(bytes.len())
}

#[tactic(auto, using(crate::proofs::SearchLemmas::first_or_len))]
fn line_end(bytes: &[u8]) -> usize
    ensures place { result ≡ position_or_len ends_line bytes.now }
    ensures within { result ≤ length bytes.now }
{
    memchr2(b'\r', b'\n', bytes).unwrap_or(bytes.len())
}
