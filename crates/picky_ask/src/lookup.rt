//! Answers looked up in a table: the first answer to a question counts.

ghost use Rattle.std.specs.Prelude.{◌≡◌, ◌∷◌, ◌≤◌, None, Some, MatchOption, length, true};
ghost use Rattle.picky_wire_base.specs.Equality.{IsEqualityOf};
ghost use Rattle.picky_wire_base.specs.Numbers.{IsBytes};
ghost use Rattle.picky_ask.specs.Lookup.{all_bytes, answer_to as answer_in, asks_cipher as asks_cipher_of, are_paired as are_paired_in};
ghost use Rattle.picky_ask.specs.Lookup.{first_side, is_pair as is_pair_of, is_side, place_of, question, side as side_of};
ghost use Rattle.picky_ask.specs.Same.{same_head, same_question};
ghost use Rattle.picky_ask.specs.inner.HeadView.{head_seen};

use crate::head_view::{HeadView, head_view};
use crate::question::{Entry, Head, Question};

/// A mode of AES, whose questions pair texts.
#[derive(Clone, Copy)]
pub(crate) enum Mode {
    Cbc,
    Ctr,
}

/// The first answer to the question.
pub(crate) fn answer_to<'t>(
    entries: &'t [Entry],
    head: &HeadView<'_>,
    text: &[u8],
) -> Option<&'t [u8]>
    ensures { MatchOption result (answer_in (question (head_seen head.now) text.now) entries.now ≡ None)
        (λ answer. answer_in (question (head_seen head.now) text.now) entries.now ≡ Some answer.now) }
{
    let place = place_in(entries, head, text);
    if place < entries.len() {
        return Some(entries[place].answer.as_slice());
    }
    None
}

/// The place of the first entry that answers the question; how many there are, where there is none.
pub(crate) fn place_in(entries: &[Entry], head: &HeadView<'_>, text: &[u8]) -> usize
    ensures { result ≡ place_of (question (head_seen head.now) text.now) entries.now }
{
    for (place, entry) in entries.iter().enumerate() {
        if is_same(head, text, &entry.question) {
            return place;
        }
    }
    entries.len()
}

/// Whether two questions are the same.
#[tactic(auto, unfolding(crate::specs::Same::same_question))]
fn is_same(head: &HeadView<'_>, text: &[u8], other: &Question) -> bool
    ensures { result ≡ same_question (question (head_seen head.now) text.now) other.now }
{
    is_same_head(head, &other.head) && text == other.text.as_slice()
}

/// Whether two heads are the same.
fn is_same_head(head: &HeadView<'_>, other: &Head) -> bool
    ensures { result ≡ same_head (head_seen head.now) other.now }
{
    heads_are_equal_by_contents();
    *head == head_view(other)
}

/// Two heads are equal exactly where they show the same.
fn heads_are_equal_by_contents()
    ensures { IsEqualityOf head_seen ⟦<HeadView<'static> as PartialEq>⟧.eq }
{}

/// Whether each of the two texts is first met on the other side of the other.
#[tactic(auto, unfolding(crate::specs::Lookup::are_paired))]
pub(crate) fn are_paired(
    entries: &[Entry],
    mode: Mode,
    key: &[u8],
    iv: &[u8],
    text: &[u8],
    answer: &[u8],
) -> bool
    ensures { result ≡ are_paired_in mode key.now iv.now text.now answer.now entries.now }
{
    is_other(entries, mode, key, iv, text, answer) && is_other(entries, mode, key, iv, answer, text)
}

/// Whether there is a pair that has the text on one of its sides, and the first one has this on the other.
fn is_other(entries: &[Entry], mode: Mode, key: &[u8], iv: &[u8], text: &[u8], other: &[u8]) -> bool
    ensures { result ≡ is_side (first_side mode key.now iv.now text.now entries.now) other.now }
{
    for entry in entries {
        if let Some(found) = side(entry, mode, key, iv, text) {
            return found == other;
        }
    }
    false
}

/// The other side of the entry, where it is a pair that has the text on one of its sides.
#[tactic(auto, unfolding(crate::specs::Lookup::side))]
fn side<'t>(entry: &'t Entry, mode: Mode, key: &[u8], iv: &[u8], text: &[u8]) -> Option<&'t [u8]>
    ensures { MatchOption result (side_of mode key.now iv.now text.now entry.now ≡ None)
        (λ other. side_of mode key.now iv.now text.now entry.now ≡ Some other.now) }
{
    if !is_pair(entry, mode, key, iv) {
        return None;
    }
    if entry.question.text.as_slice() == text {
        return Some(entry.answer.as_slice());
    }
    if entry.answer.as_slice() == text {
        return Some(entry.question.text.as_slice());
    }
    None
}

/// Whether the entry pairs two texts of one length.
#[tactic(auto, unfolding(crate::specs::Lookup::is_pair))]
fn is_pair(entry: &Entry, mode: Mode, key: &[u8], iv: &[u8]) -> bool
    ensures { result ≡ is_pair_of mode key.now iv.now entry.now }
{
    bytes_are_bytes(entry.question.text.as_slice());
    bytes_are_bytes(entry.answer.as_slice());
    asks_cipher(mode, key, iv, &entry.question.head)
        && entry.question.text.as_slice().len() == entry.answer.as_slice().len()
}

/// Whether the question is one of the cipher.
#[tactic(auto, unfolding(crate::specs::Lookup::asks_cipher))]
fn asks_cipher(mode: Mode, key: &[u8], iv: &[u8], head: &Head) -> bool
    ensures { result ≡ asks_cipher_of mode key.now iv.now head.now }
{
    match mode {
        Mode::Cbc => match head {
            Head::CbcSeal { key: k, iv: v } => key == k.as_slice() && iv == v.as_slice(),
            Head::CbcOpen { key: k, iv: v } => key == k.as_slice() && iv == v.as_slice(),
            Head::Bcrypt { .. }
            | Head::Argon2 { .. }
            | Head::Ctr { .. }
            | Head::Sign { .. }
            | Head::Verify { .. } => false,
        },
        Mode::Ctr => match head {
            Head::Ctr { key: k, iv: v } => key == k.as_slice() && iv == v.as_slice(),
            Head::Bcrypt { .. }
            | Head::Argon2 { .. }
            | Head::CbcSeal { .. }
            | Head::CbcOpen { .. }
            | Head::Sign { .. }
            | Head::Verify { .. } => false,
        },
    }
}

/// Each number of a slice is a byte.
#[tactic(auto, using(crate::specs::carried::Tests::all_bytes_of))]
pub(crate) fn bytes_are_bytes(_bytes: &[u8])
    ensures each { IsBytes _bytes.now }
    ensures all { all_bytes _bytes.now ≡ true }
{}
