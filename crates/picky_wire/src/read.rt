//! The fields of the wire, read from a source.

ghost use Rattle.std.specs.Prelude.{◌≡◌, ◌⊎◌, ◌^◌, ◌<◌, ◌≤◌, ◌+◌, ◌++◌, length, max, replicate, Err, IfSome, IfOk};
ghost use Rattle.std.specs.Prelude.{IfErr, OnOk, OnErr, MatchOption, true, false, vec_len, vec_capacity};
ghost use Rattle.std.specs.Str.{is_utf8};
ghost use Rattle.picky_wire_base.specs.Combine.{tag};
ghost use Rattle.picky_wire_base.specs.Outcome.{map_ok};
ghost use Rattle.picky_wire_base.specs.Wire.{byte_array, uint32, string, text};
ghost use Rattle.picky_wire_base.specs.Numbers.{byte, uint64};
ghost use Rattle.picky_wire_base.specs.Mpint.{mpint};
ghost use Rattle.picky_wire.specs.Count.{Rose};
ghost use Rattle.picky_wire.specs.Takes.{HasCause, StopsShort};
ghost use Rattle.picky_wire.specs.Flaws.{TakesField, wire_causes, wire_error};
ghost use Rattle.picky_wire.specs.Unread.{Unread};
ghost use Rattle.picky_wire.specs.LengthFirst.{LengthFirst};

use crate::error::WireError;
use crate::source::Source;
use picky_wire_base::{Bytes, Mpint, NoMemory, SizeError, Text};
use std::alloc::Global;

/// How many bytes are asked for at a time.
const CHUNK: usize = 4096;

/// The fields that are read from a source.
pub trait SshReadExt: Source {
    /// The bytes of a string field.
    ///
    /// `string` of RFC 4251, section 5. The buffer grows with what is read, 4,096 bytes at a time.
    /// Refuses, in order: `ReadFault`, where a call of the source failed; `UnexpectedEnd`, where fewer bytes
    /// are left than the field says.
    #[tactic(auto, unfolding(picky_wire_base::specs::Wire::string), using(crate::proofs::CauseLemmas::causes))]
    final fn read_ssh_bytes(&mut self, alloc: Global) -> Result<Bytes, WireError>
    where
        Self: Sized,
        ensures takes { TakesField Self.tells Self.left Self.known Self.faults string result self.old self.new }
        ensures unread { Unread Self.tells Self.left Self.known wire_causes result self.old self.new }
        ensures length_first { LengthFirst Self.tells Self.left Self.known Self.faults result self.old self.new }
        ensures cause { IfErr result (HasCause wire_causes (tag wire_error string).read
            (Rose (Self.faults self.old) (Self.faults self.new))) }
    {
        let len = match read_uint32(self) {
            Ok(len) => len,
            Err(e) => return Err(e),
        };
        match read_counted(alloc, self, len as usize) {
            Ok(vec) => Ok(Bytes::from_vec(vec)),
            Err(e) => Err(e),
        }
    }

    /// The text of a string field.
    ///
    /// `string` of RFC 4251, section 5. The buffer grows as for `read_ssh_bytes`.
    /// Refuses, in order: as `read_ssh_bytes`; `InvalidUtf8`, where the string isn't UTF-8.
    #[tactic(auto, unfolding(picky_wire_base::specs::Wire::text), using(crate::proofs::CauseLemmas::causes, crate::proofs::LengthFirstLemmas::length_firsts))]
    final fn read_ssh_string(&mut self, alloc: Global) -> Result<Text, WireError>
    where
        Self: Sized,
        ensures takes { TakesField Self.tells Self.left Self.known Self.faults text result self.old self.new }
        ensures unread { Unread Self.tells Self.left Self.known wire_causes result self.old self.new }
        ensures length_first { LengthFirst Self.tells Self.left Self.known Self.faults result self.old self.new }
        ensures cause { IfErr result (HasCause wire_causes (tag wire_error text).read
            (Rose (Self.faults self.old) (Self.faults self.new))) }
    {
        match self.read_ssh_bytes(alloc) {
            Ok(bytes) => match text_of(bytes) {
                Some(text) => Ok(text),
                None => Err(WireError::InvalidUtf8),
            },
            Err(e) => Err(e),
        }
    }

    /// The number of an mpint field, without its leading zeros.
    ///
    /// `mpint` of RFC 4251, section 5. The buffer grows as for `read_ssh_bytes`.
    /// Refuses, in order: as `read_ssh_bytes`; `TooLong`, where 2^32 - 1 bytes or more are left without the
    /// leading zeros.
    #[tactic(auto, unfolding(picky_wire_base::specs::Mpint::mpint), using(crate::proofs::CauseLemmas::causes, crate::proofs::LengthFirstLemmas::length_firsts))]
    final fn read_ssh_mpint(&mut self, alloc: Global) -> Result<Mpint, WireError>
    where
        Self: Sized,
        ensures takes { TakesField Self.tells Self.left Self.known Self.faults mpint result self.old self.new }
        ensures unread { Unread Self.tells Self.left Self.known wire_causes result self.old self.new }
        ensures length_first { LengthFirst Self.tells Self.left Self.known Self.faults result self.old self.new }
        ensures cause { IfErr result (HasCause wire_causes (tag wire_error mpint).read
            (Rose (Self.faults self.old) (Self.faults self.new))) }
    {
        match self.read_ssh_bytes(alloc) {
            Ok(bytes) => match Mpint::from_vec(bytes.into_vec()) {
                Ok(number) => Ok(number),
                Err(SizeError::TooLong) => Err(WireError::TooLong),
                Err(SizeError::NoMemory) => Err(WireError::NoMemory),
            },
            Err(e) => Err(e),
        }
    }
}

impl<S: Source> SshReadExt for S {}

/// The bytes as a text, where they are UTF-8.
#[tactic(auto, using(picky_wire_base::proofs::TextLemmas::is_no_text))]
fn text_of(bytes: Bytes) -> Option<Text>
    ensures { MatchOption result (is_utf8 bytes ≡ false) (λ text. (text ≡ bytes) × (is_utf8 bytes ≡ true)) }
{
    match String::from_utf8(bytes.into_vec()) {
        Ok(string) => Some(Text::from_string(string)),
        Err(_) => None,
    }
}

/// A number of four bytes, most significant byte first.
///
/// `uint32` of RFC 4251, section 5. Refuses, in order, as `read_ssh_bytes`: `ReadFault`, `UnexpectedEnd`.
#[tactic(auto, unfolding(picky_wire_base::specs::Wire::uint32))]
pub fn read_uint32<S: Source>(source: &mut S) -> Result<u32, WireError>
    ensures takes { TakesField S.tells S.left S.known S.faults uint32 result source.old source.new }
    ensures cause { IfErr result (StopsShort wire_causes (Rose (S.faults source.old) (S.faults source.new))) }
    ensures cut { S.tells source.old → OnErr result (length (S.left source.old) < 4 + length (S.left source.new)) }
{
    let mut bytes = [0u8; 4];
    match fill(source, &mut bytes) {
        Ok(()) => Ok(u32::from_be_bytes(bytes)),
        Err(e) => Err(e),
    }
}

/// A number of eight bytes, most significant byte first.
///
/// `uint64` of RFC 4251, section 5. Refuses, in order, as `read_ssh_bytes`: `ReadFault`, `UnexpectedEnd`.
#[tactic(auto, unfolding(picky_wire_base::specs::Numbers::uint64))]
pub fn read_uint64<S: Source>(source: &mut S) -> Result<u64, WireError>
    ensures takes { TakesField S.tells S.left S.known S.faults uint64 result source.old source.new }
    ensures cause { IfErr result (StopsShort wire_causes (Rose (S.faults source.old) (S.faults source.new))) }
{
    let mut bytes = [0u8; 8];
    match fill(source, &mut bytes) {
        Ok(()) => Ok(u64::from_be_bytes(bytes)),
        Err(e) => Err(e),
    }
}

/// A number of one byte.
///
/// `byte` of RFC 4251, section 5. Refuses, in order, as `read_ssh_bytes`: `ReadFault`, `UnexpectedEnd`.
#[tactic(auto, unfolding(picky_wire_base::specs::Numbers::byte))]
pub fn read_byte<S: Source>(source: &mut S) -> Result<u8, WireError>
    ensures takes { TakesField S.tells S.left S.known S.faults byte result source.old source.new }
    ensures cause { IfErr result (StopsShort wire_causes (Rose (S.faults source.old) (S.faults source.new))) }
{
    let mut bytes = [0u8; 1];
    match fill(source, &mut bytes) {
        Ok(()) => Ok(u8::from_be_bytes(bytes)),
        Err(e) => Err(e),
    }
}

/// So many bytes. Where the source knows that fewer are left, none is taken.
fn read_counted<S: Source>(alloc: Global, source: &mut S, len: usize) -> Result<Vec<u8>, WireError>
    ensures takes { TakesField S.tells S.left S.known S.faults (byte_array len) (map_ok (λ v. v.items) result) source.old source.new }
    ensures unread { IfSome (S.known source.old)
        (λ known. known < len → (result ≡ Err WireError.UnexpectedEnd) × (source.new ≡ source.old)) }
    ensures len { IfOk result (λ v. vec_len v ≡ len) }
    ensures cause { IfErr result (λ e. StopsShort wire_causes (Rose (S.faults source.old) (S.faults source.new)) e
        ⊎ (e ≡ WireError.NoMemory)) }
{
    if let Some(known) = source.known_left() {
        if known < len {
            return Err(WireError::UnexpectedEnd);
        }
    }
    read_chunks(alloc, source, len)
}

/// So many bytes.
///
/// The buffer grows with what is read, 4,096 bytes at a time; none is asked for before there is room for it.
/// Refuses, in order: `ReadFault`, where a call of the source failed; `UnexpectedEnd`, where fewer bytes are
/// left. What a refused call took stays taken.
pub fn read_chunks<S: Source>(
    alloc: Global,
    source: &mut S,
    len: usize,
) -> Result<Vec<u8>, WireError>
    ensures takes { TakesField S.tells S.left S.known S.faults (byte_array len) (map_ok (λ v. v.items) result) source.old source.new }
    ensures len { IfOk result (λ v. vec_len v ≡ len) }

    // Want of memory is answered before all are taken.
    ensures room { S.tells source.old → result ≡ Err WireError.NoMemory → length (S.left source.old) < len + length (S.left source.new) }
    ensures cause { IfErr result (λ e. StopsShort wire_causes (Rose (S.faults source.old) (S.faults source.new)) e
        ⊎ (e ≡ WireError.NoMemory)) }
{
    let mut taken = Vec::new(alloc);
    'chunks: while taken.len() < len {
        let at = taken.len();
        let more = (len - at).min(CHUNK);
        match append_zeros(&mut taken, more) {
            Ok(()) => {}
            Err(NoMemory) => return Err(WireError::NoMemory),
        }
        match fill(source, &mut taken[at..]) {
            Ok(()) => {}
            Err(e) => return Err(e),
        }
    }
    Ok(taken)
}

/// Appends so many zeros, in room that was made for them.
fn append_zeros(vec: &mut Vec<u8>, count: usize) -> Result<(), NoMemory>
    requires { count ≤ 4096 }
    ensures items { OnOk result (vec.new.items ≡ vec.old.items ++ replicate count 0) }
    ensures len { OnOk result (vec_len vec.new ≡ vec_len vec.old + count) }
{
    match make_room(vec, count) {
        Ok(()) => {}
        Err(e) => return Err(e),
    }
    match vec.resize(vec.len() + count, 0) {
        Ok(()) => Ok(()),
        Err(_) => Err(NoMemory),
    }
}

/// Room for so many bytes more, and for no others.
fn make_room(vec: &mut Vec<u8>, more: usize) -> Result<(), NoMemory>
    ensures items { vec.new.items ≡ vec.old.items }
    ensures len { vec_len vec.new ≡ vec_len vec.old }
    ensures exact { OnOk result (vec_capacity vec.new ≡ max (vec_capacity vec.old) (vec_len vec.old + more)) }
{
    match vec.reserve_exact(more) {
        Ok(()) => Ok(()),
        Err(_) => Err(NoMemory),
    }
}

/// Fills the buffer with the bytes that the source gives next.
///
/// Refuses, in order: `ReadFault`, where a call of the source failed; `UnexpectedEnd`, where fewer bytes are left
/// than the buffer has. What a refused call took stays taken; what the buffer then holds is left open.
pub fn fill<S: Source>(source: &mut S, buffer: &mut [u8]) -> Result<(), WireError>
    ensures takes { TakesField S.tells S.left S.known S.faults (byte_array (length buffer.old)) (map_ok (λ _. buffer.new) result) source.old source.new }
    ensures cause { IfErr result (StopsShort wire_causes (Rose (S.faults source.old) (S.faults source.new))) }
    ensures cut { S.tells source.old → OnErr result (length (S.left source.old) < length buffer.old + length (S.left source.new)) }
{
    let mut at = 0;
    'bytes: while at < buffer.len() {
        match source.read(&mut buffer[at..]) {
            Ok(0) => return Err(WireError::UnexpectedEnd),
            Ok(n) => at += n,
            Err(_) => return Err(WireError::ReadFault),
        }
    }
    Ok(())
}
