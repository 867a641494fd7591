//! The fields of the wire, seen at their places, each with its place in a layout: the number of a key's field, or the part of
//! a certificate.

ghost use Rattle.std.specs.Prelude.{◌≡◌, ◌^◌, ◌<◌, ⊤, length};
ghost use Rattle.picky_wire_base.specs.Combine.{at};
ghost use Rattle.picky_wire_base.specs.Wire.{uint32, string, text};
ghost use Rattle.picky_wire_base.specs.Mpint.{mpint};
ghost use Rattle.picky_wire_base.specs.Numbers.{byte, uint64};
ghost use Rattle.picky_wire_base.specs.View.{end_of, SeenAt, Lies, WordLies, part_bytes, word_bytes};

use crate::view::{
    Part, Stuck, Word, byte_at, mpint_at, string_at, text_at, uint32_at, uint64_at, word_at,
};

/// The place of the field at which a layout is stuck, and why.
#[derive(Clone, Copy, Debug, PartialEq, Eq)]
pub struct Stopped<'a, P> {
    pub place: P,
    pub stuck: Stuck<'a>,
}

/// A number of one byte. Refuses at the place: `Short`.
pub fn byte_in<'a, P: Copy>(
    blob: &'a [u8],
    from: usize,
    place: P,
) -> Result<(u8, usize), Stopped<'a, P>>
    ensures { SeenAt (λ n. n) (λ _. ⊤) (at place byte) blob.now from result }
{
    match byte_at(blob, from) {
        Ok(found) => Ok(found),
        Err(stuck) => Err(Stopped { place, stuck }),
    }
}

/// A number of four bytes. Refuses at the place: `Short`.
pub fn uint32_in<'a, P: Copy>(
    blob: &'a [u8],
    from: usize,
    place: P,
) -> Result<(u32, usize), Stopped<'a, P>>
    ensures { SeenAt (λ n. n) (λ _. ⊤) (at place uint32) blob.now from result }
{
    match uint32_at(blob, from) {
        Ok(found) => Ok(found),
        Err(stuck) => Err(Stopped { place, stuck }),
    }
}

/// A number of eight bytes. Refuses at the place: `Short`.
pub fn uint64_in<'a, P: Copy>(
    blob: &'a [u8],
    from: usize,
    place: P,
) -> Result<(u64, usize), Stopped<'a, P>>
    ensures { SeenAt (λ n. n) (λ _. ⊤) (at place uint64) blob.now from result }
{
    match uint64_at(blob, from) {
        Ok(found) => Ok(found),
        Err(stuck) => Err(Stopped { place, stuck }),
    }
}

/// A string's bytes. Refuses at the place: `Short`.
pub fn string_in<'a, P: Copy>(
    blob: &'a [u8],
    from: usize,
    place: P,
) -> Result<(Part<'a>, usize), Stopped<'a, P>>
    ensures { SeenAt part_bytes (Lies blob.now (end_of string blob.now from)) (at place string) blob.now from result }
{
    match string_at(blob, from) {
        Ok(found) => Ok(found),
        Err(stuck) => Err(Stopped { place, stuck }),
    }
}

/// A string's bytes, which are UTF-8. Refuses at the place, in order: `Short`, `NotUtf8`.
pub fn text_in<'a, P: Copy>(
    blob: &'a [u8],
    from: usize,
    place: P,
) -> Result<(Part<'a>, usize), Stopped<'a, P>>
    ensures { SeenAt part_bytes (Lies blob.now (end_of text blob.now from)) (at place text) blob.now from result }
{
    match text_at(blob, from) {
        Ok(found) => Ok(found),
        Err(stuck) => Err(Stopped { place, stuck }),
    }
}

/// A string's bytes, which are UTF-8, with the text that they are. Refuses at the place, in order: `Short`, `NotUtf8`.
pub fn word_in<'a, P: Copy>(
    blob: &'a [u8],
    from: usize,
    place: P,
) -> Result<(Word<'a>, usize), Stopped<'a, P>>
    ensures { SeenAt word_bytes (WordLies blob.now (end_of text blob.now from)) (at place text) blob.now from result }
{
    match word_at(blob, from) {
        Ok(found) => Ok(found),
        Err(stuck) => Err(Stopped { place, stuck }),
    }
}

/// A number's bytes without leading zeros. Refuses at the place: `Short`.
pub fn mpint_in<'a, P: Copy>(
    blob: &'a [u8],
    from: usize,
    place: P,
) -> Result<(Part<'a>, usize), Stopped<'a, P>>
    requires { length blob.now < 2 ^ 32 }
    ensures { SeenAt part_bytes (Lies blob.now (end_of mpint blob.now from)) (at place mpint) blob.now from result }
{
    match mpint_at(blob, from) {
        Ok(found) => Ok(found),
        Err(stuck) => Err(Stopped { place, stuck }),
    }
}
