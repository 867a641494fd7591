//! The fields of the wire, seen in a buffer at their places and not copied.

ghost use Rattle.std.specs.Prelude.{◌≡◌, ◌^◌, ◌<◌, ◌≤◌, ⊤, ℕ, length, IfOk, IsUtf8, MatchOption};
ghost use Rattle.picky_wire_base.specs.Flaw.{Flawed};
ghost use Rattle.picky_wire_base.specs.Fixed.{sized};
ghost use Rattle.picky_wire_base.specs.Wire.{byte_array, uint32, string, text};
ghost use Rattle.picky_wire_base.specs.Magnitude.{IsMagnitude};
ghost use Rattle.picky_wire_base.specs.Mpint.{mpint};
ghost use Rattle.picky_wire_base.specs.Numbers.{byte, uint64};
ghost use Rattle.picky_wire_base.specs.View.{end_of, Seen, Lies, WordLies, part_bytes, word_bytes, why_in};

use crate::bytes::{Bytes, Text};
use crate::error::NoMemory;
use crate::mpint::{Mpint, after_zeros};
use std::alloc::Global;

/// A slice of a buffer, and its place: how many of the buffer's bytes stand before it.
#[derive(Clone, Copy, Debug, PartialEq, Eq)]
pub struct Part<'a> {
    pub at: usize,
    pub bytes: &'a [u8],
}

/// A part of a buffer that is UTF-8, and its text.
#[derive(Clone, Copy, Debug, PartialEq, Eq)]
pub struct Word<'a> {
    pub part: Part<'a>,
    pub text: &'a str,
}

/// Why a field of a buffer doesn't fit.
#[derive(Clone, Copy, Debug, PartialEq, Eq)]
pub enum Stuck<'a> {
    /// The bytes end inside the field.
    Short,
    /// A string that must be UTF-8 isn't.
    NotUtf8,
    /// A name is outside its table.
    Name(Part<'a>),
    /// A string's length is none that the layout has.
    Length,
    /// A number is none that the layout has.
    Number(u32),
}

impl<'a> Part<'a> {
    /// Its text, where it is UTF-8.
    pub fn as_str(&self) -> Option<&'a str>
        ensures { MatchOption result (IsUtf8 self.now.bytes.now → ⊥)
            (λ text. (text.now ≡ self.now.bytes.now) × IsUtf8 self.now.bytes.now) }
    {
        match str::from_utf8(self.bytes) {
            Ok(text) => Some(text),
            Err(_) => None,
        }
    }

    /// A copy of its bytes. Refuses: `NoMemory`.
    pub fn to_bytes(&self, alloc: Global) -> Result<Bytes, NoMemory>
        requires { length self.now.bytes.now < 2 ^ 32 }
        ensures { IfOk result (λ bytes. bytes ≡ self.now.bytes.now) }
    {
        match Bytes::new(alloc, self.bytes) {
            Ok(bytes) => Ok(bytes),
            Err(_) => Err(NoMemory),
        }
    }

    /// A copy of its text. Refuses: `NoMemory`.
    pub fn to_text(&self, alloc: Global) -> Result<Text, NoMemory>
        requires short { length self.now.bytes.now < 2 ^ 32 }
        requires utf8 { IsUtf8 self.now.bytes.now }
        ensures { IfOk result (λ text. text ≡ self.now.bytes.now) }
    {
        match self.as_str() {
            Some(text) => match Text::new(alloc, text) {
                Ok(text) => Ok(text),
                Err(_) => Err(NoMemory),
            },
            None => Err(NoMemory),
        }
    }

    /// A copy of its number. Refuses: `NoMemory`.
    #[tactic(auto, using(crate::specs::carried::Zeros::all_is_kept))]
    pub fn to_mpint(&self, alloc: Global) -> Result<Mpint, NoMemory>
        requires { IsMagnitude self.now.bytes.now }
        ensures { IfOk result (λ number. number ≡ self.now.bytes.now) }
    {
        match Mpint::from_be(alloc, self.bytes) {
            Ok(number) => Ok(number),
            Err(_) => Err(NoMemory),
        }
    }
}

/// A number of one byte.
///
/// `byte` of RFC 4251, section 5. Refuses, in order: `Short`.
#[tactic(auto, using(crate::proofs::ViewLemmas::byte_at_place))]
pub fn byte_at<'a>(blob: &'a [u8], from: usize) -> Result<(u8, usize), Stuck<'a>>
    ensures { Seen (λ n. n) (λ _. ⊤) Flawed byte blob.now from result }
{
    if from > blob.len() {
        return Err(Stuck::Short);
    }
    let (_, rest) = blob.split_at(from);
    match rest.split_first_chunk::<1>() {
        Some((bytes, _)) => Ok((u8::from_be_bytes(*bytes), from + 1)),
        None => Err(Stuck::Short),
    }
}

/// A number of four bytes, most significant byte first.
///
/// `uint32` of RFC 4251, section 5. Refuses, in order: `Short`.
#[tactic(auto, using(crate::proofs::ViewLemmas::uint32_at_place))]
pub fn uint32_at<'a>(blob: &'a [u8], from: usize) -> Result<(u32, usize), Stuck<'a>>
    ensures { Seen (λ n. n) (λ _. ⊤) Flawed uint32 blob.now from result }
{
    if from > blob.len() {
        return Err(Stuck::Short);
    }
    let (_, rest) = blob.split_at(from);
    match rest.split_first_chunk::<4>() {
        Some((bytes, _)) => Ok((u32::from_be_bytes(*bytes), from + 4)),
        None => Err(Stuck::Short),
    }
}

/// A number of eight bytes, most significant byte first.
///
/// `uint64` of RFC 4251, section 5. Refuses, in order: `Short`.
#[tactic(auto, using(crate::proofs::ViewLemmas::uint64_at_place))]
pub fn uint64_at<'a>(blob: &'a [u8], from: usize) -> Result<(u64, usize), Stuck<'a>>
    ensures { Seen (λ n. n) (λ _. ⊤) Flawed uint64 blob.now from result }
{
    if from > blob.len() {
        return Err(Stuck::Short);
    }
    let (_, rest) = blob.split_at(from);
    match rest.split_first_chunk::<8>() {
        Some((bytes, _)) => Ok((u64::from_be_bytes(*bytes), from + 8)),
        None => Err(Stuck::Short),
    }
}

/// The bytes of a string.
///
/// `string` of RFC 4251, section 5. Refuses, in order: `Short`.
#[tactic(auto, unfolding(crate::specs::Wire::string))]
pub fn string_at<'a>(blob: &'a [u8], from: usize) -> Result<(Part<'a>, usize), Stuck<'a>>
    ensures { Seen part_bytes (Lies blob.now (end_of string blob.now from)) Flawed string blob.now from result }
{
    let (len, start) = match uint32_at(blob, from) {
        Ok(found) => found,
        Err(stuck) => return Err(stuck),
    };
    byte_array_at(blob, start, len as usize)
}

/// The bytes of a string that is UTF-8.
///
/// `string` of RFC 4251, section 5. Refuses, in order: `Short`, `NotUtf8`.
pub fn text_at<'a>(blob: &'a [u8], from: usize) -> Result<(Part<'a>, usize), Stuck<'a>>
    ensures { Seen part_bytes (Lies blob.now (end_of text blob.now from)) Flawed text blob.now from result }
{
    let (word, next) = match word_at(blob, from) {
        Ok(found) => found,
        Err(stuck) => return Err(stuck),
    };
    Ok((word.part, next))
}

/// The same, with its text, which a table of names can be asked for.
///
/// `string` of RFC 4251, section 5. Refuses, in order: `Short`, `NotUtf8`.
#[tactic(auto, unfolding(crate::specs::Wire::text), using(crate::proofs::ViewLemmas::tests))]
pub fn word_at<'a>(blob: &'a [u8], from: usize) -> Result<(Word<'a>, usize), Stuck<'a>>
    ensures { Seen word_bytes (WordLies blob.now (end_of text blob.now from)) Flawed text blob.now from result }
{
    let (part, next) = match string_at(blob, from) {
        Ok(found) => found,
        Err(stuck) => return Err(stuck),
    };
    match part.as_str() {
        Some(text) => Ok((Word { part, text }, next)),
        None => Err(Stuck::NotUtf8),
    }
}

/// The bytes of a string of this length, as whichever field of a layout.
///
/// `string` of RFC 4251, section 5. Refuses, in order: `Short`, `Length`.
pub fn sized_at<'a>(blob: &'a [u8], from: usize, len: usize) -> Result<(Part<'a>, usize), Stuck<'a>>
    ensures { (i : ℕ) → Seen part_bytes (Lies blob.now (end_of string blob.now from)) why_in (sized i len) blob.now from result }
{
    let (part, next) = match string_at(blob, from) {
        Ok(found) => found,
        Err(stuck) => return Err(stuck),
    };
    if part.bytes.len() != len {
        return Err(Stuck::Length);
    }
    Ok((part, next))
}

/// The bytes of a number, which the leading zeros are no part of.
///
/// `mpint` of RFC 4251, section 5. Refuses, in order: `Short`. In such a buffer none is too long.
#[tactic(auto, unfolding(crate::specs::Mpint::mpint))]
pub fn mpint_at<'a>(blob: &'a [u8], from: usize) -> Result<(Part<'a>, usize), Stuck<'a>>
    requires { length blob.now < 2 ^ 32 }
    ensures { Seen part_bytes (Lies blob.now (end_of mpint blob.now from)) Flawed mpint blob.now from result }
{
    let (string, next) = match string_at(blob, from) {
        Ok(found) => found,
        Err(stuck) => return Err(stuck),
    };
    let bytes = after_zeros(string.bytes);
    let zeros = string.bytes.len() - bytes.len();
    let at = string.at + zeros;
    Ok((Part { at, bytes }, next))
}

/// So many bytes.
#[tactic(auto, using(crate::proofs::ViewLemmas::byte_array_unseen))]
fn byte_array_at<'a>(
    blob: &'a [u8],
    from: usize,
    len: usize,
) -> Result<(Part<'a>, usize), Stuck<'a>>
    requires { from ≤ length blob.now }
    ensures { Seen part_bytes (Lies blob.now (end_of (byte_array len) blob.now from)) Flawed (byte_array len) blob.now from result }
{
    let (_, rest) = blob.split_at(from);
    if rest.len() < len {
        return Err(Stuck::Short);
    }
    let (bytes, _) = rest.split_at(len);
    Ok((Part { at: from, bytes }, from + len))
}
