//! The bytes of a field, ready to be written, counted or hashed.

ghost use Rattle.std.specs.Prelude.{◌≡◌, ◌^◌, ◌<◌, ◌≤◌, ◌+◌, ◌++◌, ◌∷◌, [], length, min, slice_index, true, false};
ghost use Rattle.std.specs.Prelude.{IsUtf8, OnOk};
ghost use Rattle.std.specs.Int.{w8, w32, w64, to_be_bytes};
ghost use Rattle.std.specs.List.{concat};
ghost use Rattle.picky_wire_base.specs.Numbers.{IsBytes};
ghost use Rattle.picky_wire_base.specs.Wire.{string_of};
ghost use Rattle.picky_wire_base.specs.Magnitude.{IsMagnitude};
ghost use Rattle.picky_wire_base.specs.Mpint.{mpint_of};

use crate::bytes::{Bytes, Text};
use crate::mpint::Mpint;
use std::alloc::AllocError;
use std::marker::Model;

/// The bytes of one field in its one spelling: at most eight of its own, and then borrowed ones.
#[derive(Drop)]
pub struct Piece<'a> {
    head: [u8; 8],
    len: usize,
    body: &'a [u8],
}

impl<'a> Model for Piece<'a> {
    ghost use Rattle.std.specs.Prelude.{◌≡◌, ◌^◌, ◌<◌, ◌≤◌, ◌++◌, ℕ, List, take, length};

    ghost Value = { List ℕ };

    ghost view = { λ p. take p.len p.head ++ p.body.now };

    ghost invariant = { λ p. (p.len ≤ 8) × (length p.head ≡ 8) × (length p.body.now < 2 ^ 32) };
}

impl<'a> Piece<'a> {
    /// No bytes, for a row of a table that is shorter than others.
    pub fn none() -> Piece<'a>
        ensures { result ≡ [] }
    {
        Piece {
            head: [0; 8],
            len: 0,
            body: &[],
        }
    }

    /// Bytes as they are, whose number is said elsewhere.
    pub fn raw(bytes: &'a [u8]) -> Piece<'a>
        requires { length bytes.now < 2 ^ 32 }
        ensures raw { result ≡ bytes.now }
        ensures bytes { IsBytes bytes.now }
    {
        Piece {
            head: [0; 8],
            len: 0,
            body: bytes,
        }
    }

    /// A number of one byte.
    pub fn byte(n: u8) -> Piece<'a>
        ensures { result ≡ to_be_bytes w8 n }
    {
        let [a] = n.to_be_bytes();
        Piece {
            head: [a, 0, 0, 0, 0, 0, 0, 0],
            len: 1,
            body: &[],
        }
    }

    /// A number of four bytes.
    pub fn uint32(n: u32) -> Piece<'a>
        ensures { result ≡ to_be_bytes w32 n }
    {
        let [a, b, c, d] = n.to_be_bytes();
        Piece {
            head: [a, b, c, d, 0, 0, 0, 0],
            len: 4,
            body: &[],
        }
    }

    /// A number of eight bytes.
    pub fn uint64(n: u64) -> Piece<'a>
        ensures { result ≡ to_be_bytes w64 n }
    {
        Piece {
            head: n.to_be_bytes(),
            len: 8,
            body: &[],
        }
    }

    /// Bytes as a string field: their number, and then they.
    #[tactic(auto, unfolding(crate::specs::Wire::string_of))]
    pub fn string(bytes: &'a [u8]) -> Piece<'a>
        requires { length bytes.now < 2 ^ 32 }
        ensures string { result ≡ string_of bytes.now }
        ensures bytes { IsBytes bytes.now }
    {
        let [a, b, c, d] = (bytes.len() as u32).to_be_bytes();
        Piece {
            head: [a, b, c, d, 0, 0, 0, 0],
            len: 4,
            body: bytes,
        }
    }

    /// The same of bytes that are short enough.
    pub fn bytes(bytes: &'a Bytes) -> Piece<'a>
        ensures string { result ≡ string_of bytes.now }
        ensures bytes { IsBytes bytes.now }
        ensures short { length bytes.now < 2 ^ 32 }
    {
        Piece::string(bytes.as_slice())
    }

    /// A text as a string field.
    pub fn text(text: &'a Text) -> Piece<'a>
        ensures string { result ≡ string_of text.now }
        ensures bytes { IsBytes text.now }
        ensures short { length text.now < 2 ^ 32 }
        ensures utf8 { IsUtf8 text.now }
    {
        Piece::string(text.as_str().as_bytes())
    }

    /// A number as an mpint field, with one zero byte before a first byte of 128 or more.
    #[tactic(auto, using(crate::proofs::PieceLemmas::numbers))]
    pub fn mpint(number: &'a Mpint) -> Piece<'a>
        ensures string { result ≡ mpint_of number.now }
        ensures bytes { IsBytes number.now }
        ensures mpint { IsMagnitude number.now }
    {
        let bytes = number.bytes();
        if is_high(bytes) {
            return Piece::signed(bytes);
        }
        Piece::string(bytes)
    }

    /// The string of one zero byte and the bytes.
    #[tactic(auto, unfolding(crate::specs::Wire::string_of))]
    fn signed(bytes: &'a [u8]) -> Piece<'a>
        requires { length bytes.now + 1 < 2 ^ 32 }
        ensures { result ≡ string_of (0 ∷ bytes.now) }
    {
        let [a, b, c, d] = (bytes.len() as u32 + 1).to_be_bytes();
        Piece {
            head: [a, b, c, d, 0, 0, 0, 0],
            len: 5,
            body: bytes,
        }
    }

    /// The bytes, in two parts.
    pub fn parts(&self) -> (&[u8], &[u8])
        ensures bytes { result.0.now ++ result.1.now ≡ self.now }
        ensures short { length result.0.now ≤ 8 }
        ensures borrowed { length result.1.now < 2 ^ 32 }
    {
        (&self.head[..self.len], self.body)
    }
}

/// Whether the first byte is 128 or more.
fn is_high(bytes: &[u8]) -> bool
    ensures high { result ≡ true → 128 ≤ slice_index bytes.now 0 }
    ensures low { result ≡ false → slice_index bytes.now 0 < 128 }
{
    match bytes.first() {
        Some(first) => *first >= 128,
        None => false,
    }
}

/// Appends one field after another. Refuses: want of memory; what was appended then is left open.
pub fn push_pieces(out: &mut Vec<u8>, pieces: &[Piece<'_>]) -> Result<(), AllocError>
    ensures { OnOk result (out.new.items ≡ out.old.items ++ concat pieces.now) }
{
    'pieces: for piece in pieces {
        let (head, body) = piece.parts();
        out.extend_from_slice(head)?;
        out.extend_from_slice(body)?;
    }
    Ok(())
}

/// How long the fields are together, or 2^40 where they are longer.
pub fn pieces_len(pieces: &[Piece<'_>]) -> u64
    ensures { result ≡ min (length (concat pieces.now)) (2 ^ 40) }
{
    let mut len = 0;
    'pieces: for piece in pieces {
        len = (len + piece_len(piece)).min(1 << 40);
    }
    len
}

fn piece_len(piece: &Piece<'_>) -> u64
    ensures len { result ≡ length piece.now }
    ensures small { result < 2 ^ 33 }
{
    let (head, body) = piece.parts();
    head.len() as u64 + body.len() as u64
}
