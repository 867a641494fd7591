//! A decoder of base64 lines, which keeps what they decode to.

ghost use Rattle.std.specs.Prelude.{◌≡◌, ◌≢◌, ◌⊎◌, ◌++◌, ◌%◌, ◌^◌, ◌<◌, ℕ, List, [], length, Some, None};
ghost use Rattle.std.specs.Prelude.{OnOk, OnErr, IfOk, IfErr, IsUtf8, string_bytes};
ghost use Rattle.picky_wire_base.specs.Numbers.{IsBytes};
ghost use Rattle.picky_wire_base.specs.Gives.{Gives};
ghost use Rattle.picky_text.specs.Base64.{base64_of, decoded};
ghost use Rattle.picky_kv.specs.BlockRefusal.{taken, finished};
ghost use Rattle.picky_kv.specs.inner.Tail.{tail_text, IsExtended, rest_judged};

use crate::block_error::BlockError;
use crate::tail::{Tail, kept};
use base64::DecodeAllocError;
use base64::engine::general_purpose::STANDARD;
use picky_wire_base::{Bytes, MAX_LEN, NoMemory};
use std::alloc::{AllocError, Global};
use std::marker::Model;

/// The lines so far: the bytes that their groups of four decode to, and up to three characters behind those. Contracts
/// see it as the text of the lines.
#[derive(Drop)]
pub struct BlockDecoder {
    alloc: Global,
    bytes: Vec<u8>,
    tail: Tail,
}

impl Model for BlockDecoder {
    ghost use Rattle.std.specs.Prelude.{ℕ, List, ◌++◌};

    ghost Value = { List ℕ };

    ghost use Rattle.picky_text.specs.Base64.{base64_of};
    ghost use Rattle.picky_kv.specs.inner.Tail.{tail_text, IsHeld};

    ghost view = { λ d. base64_of d.bytes.items ++ tail_text d.tail };

    ghost invariant = { λ d. IsHeld d.bytes.items (tail_text d.tail) };
}

impl BlockDecoder {
    /// A decoder with no line yet. It takes no memory.
    pub fn new(alloc: Global) -> BlockDecoder
        ensures { result ≡ [] }
    {
        BlockDecoder {
            alloc,
            bytes: Vec::new(alloc),
            tail: Tail::Empty,
        }
    }

    /// Appends a line of any length. Refuses, in order: `BadBase64`, `TooLong`; a refused line leaves the lines as they
    /// were.
    pub fn push(&mut self, line: &str) -> Result<(), BlockError>
        ensures gives { Gives BlockError.NoMemory (λ _. self.new) result (taken (self.old ++ line.now)) }
        ensures behind { OnOk result (self.new ≡ self.old ++ line.now) }
        ensures kept { OnErr result (self.new ≡ self.old) }
    {
        match extend_behind(self.alloc, &mut self.bytes, self.tail, line.as_bytes()) {
            Ok(tail) => {
                self.tail = tail;
                Ok(())
            }
            Err(e) => Err(e),
        }
    }

    /// How many characters stand behind the last group of four, 0 to 3.
    pub fn pending(&self) -> usize
        ensures { result ≡ length self.now % 4 }
    {
        self.tail.as_slice().len()
    }

    /// The lines, joined: they are written again from what is kept. Refuses: `NoMemory`.
    pub fn to_text(&self) -> Result<String, NoMemory>
        ensures { IfOk result (λ text. string_bytes text ≡ self.now) }
    {
        match text_of(self.alloc, self.bytes.as_slice(), self.tail.as_slice()) {
            Ok(text) => Ok(text),
            Err(_) => Err(NoMemory),
        }
    }

    /// The bytes whose base64 the lines are, joined. Refuses, in order: `BadBase64`, where characters are pending.
    pub fn finish(self) -> Result<Bytes, BlockError>
        ensures gives { result ≡ finished self }
        ensures joined { IfOk result (λ bytes. self ≡ base64_of bytes) }
        ensures small { IfOk result (λ bytes. IsBytes bytes) }
        ensures short { IfOk result (λ bytes. length bytes < 2 ^ 32) }
        ensures bad { IfErr result (λ e. (e ≡ BlockError.BadBase64) × (length self % 4 ≢ 0)) }
    {
        let BlockDecoder {
            alloc: _,
            bytes,
            tail,
        } = self;
        if tail.as_slice().is_empty() {
            Ok(Bytes::from_vec(bytes))
        } else {
            Err(BlockError::BadBase64)
        }
    }
}

/// Appends what the groups of four of a tail and a line decode to, and gives what follows those.
fn extend_behind(
    alloc: Global,
    bytes: &mut Vec<u8>,
    tail: Tail,
    line: &[u8],
) -> Result<Tail, BlockError>
    requires small { IsBytes bytes.old.items }
    requires short { length bytes.old.items < 2 ^ 32 }
    ensures ok { IfOk result (λ new.
        IsExtended bytes.old.items (tail_text tail ++ line.now) bytes.new.items (tail_text new)) }
    ensures err { IfErr result (λ e. (e ≡ BlockError.NoMemory)
        ⊎ (taken (base64_of bytes.old.items ++ (tail_text tail ++ line.now)) ≡ Err e)) }
    ensures same { OnErr result (bytes.new.items ≡ bytes.old.items) }
{
    if tail.as_slice().is_empty() {
        return extend(bytes, line);
    }
    match joined_texts(alloc, tail.as_slice(), line) {
        Ok(text) => extend(bytes, text.as_slice()),
        Err(_) => Err(BlockError::NoMemory),
    }
}

/// Appends what the groups of four of a text decode to, and gives what follows those.
fn extend(bytes: &mut Vec<u8>, text: &[u8]) -> Result<Tail, BlockError>
    requires small { IsBytes bytes.old.items }
    requires short { length bytes.old.items < 2 ^ 32 }
    ensures ok { IfOk result (λ new.
        IsExtended bytes.old.items text.now bytes.new.items (tail_text new)) }
    ensures err { IfErr result (λ e. (e ≡ BlockError.NoMemory)
        ⊎ (taken (base64_of bytes.old.items ++ text.now) ≡ Err e)) }
    ensures same { OnErr result (bytes.new.items ≡ bytes.old.items) }
{
    let start = bytes.len();
    if start % 3 != 0 {
        if text.is_empty() {
            return Ok(Tail::Empty);
        }
        return Err(BlockError::BadBase64);
    }
    let (groups, rest) = text.split_at(text.len() - text.len() % 4);
    match append(bytes, groups) {
        Ok(()) => match judge_rest(bytes.len(), rest) {
            Ok(tail) => Ok(tail),
            Err(e) => {
                bytes.truncate(start);
                Err(e)
            }
        },
        Err(e) => Err(e),
    }
}

/// Appends the bytes whose base64 the text is.
#[tactic(auto, unfolding(picky_text::specs::Base64::decoded, base64::specs::GeneralPurpose::decoded_of))]
fn append(bytes: &mut Vec<u8>, text: &[u8]) -> Result<(), BlockError>
    ensures ok { OnOk result ((more : List ℕ) × (decoded text.now ≡ Some more)
        × (bytes.new.items ≡ bytes.old.items ++ more)) }
    ensures err { IfErr result (λ e. (e ≡ BlockError.NoMemory)
        ⊎ ((e ≡ BlockError.BadBase64) × (decoded text.now ≡ None))) }
    ensures same { OnErr result (bytes.new.items ≡ bytes.old.items) }
{
    match STANDARD.decode_vec(text, bytes) {
        Ok(()) => Ok(()),
        Err(DecodeAllocError::OutOfMemory) => Err(BlockError::NoMemory),
        Err(DecodeAllocError::DecodeError(_)) => Err(BlockError::BadBase64),
    }
}

/// What follows the groups of four, kept, where they decode to so many bytes.
#[tactic(auto, unfolding(crate::specs::inner::Tail::rest_judged))]
fn judge_rest(bytes_len: usize, rest: &[u8]) -> Result<Tail, BlockError>
    requires { length rest.now < 4 }
    ensures { Gives BlockError.NoMemory tail_text result (rest_judged bytes_len rest.now) }
{
    if bytes_len % 3 != 0 && !rest.is_empty() {
        return Err(BlockError::BadBase64);
    }
    if bytes_len > MAX_LEN {
        return Err(BlockError::TooLong);
    }
    Ok(kept(rest))
}

/// The base64 of the bytes, with what follows its groups of four.
fn text_of(alloc: Global, bytes: &[u8], tail: &[u8]) -> Result<String, AllocError>
    requires { IsUtf8 tail.now }
    ensures { IfOk result (λ text. string_bytes text ≡ base64_of bytes.now ++ tail.now) }
{
    let mut text = picky_text::encode(alloc, bytes)?;
    match str::from_utf8(tail) {
        Ok(rest) => match text.push_str(rest) {
            Ok(()) => Ok(text),
            Err(e) => Err(e),
        },
        Err(_) => unreachable!(),
    }
}

/// Two texts, one behind the other.
fn joined_texts(alloc: Global, front: &[u8], back: &[u8]) -> Result<Vec<u8>, AllocError>
    ensures { IfOk result (λ text. text.items ≡ front.now ++ back.now) }
{
    let mut text = Vec::from_slice(alloc, front)?;
    text.extend_from_slice(back)?;
    Ok(text)
}
