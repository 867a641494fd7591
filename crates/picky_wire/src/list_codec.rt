//! Lists of elements, inside a string.

ghost use Rattle.std.specs.Prelude.{◌≡◌, ◌≢◌, ◌^◌, ◌<◌, ◌≤◌, None, Err, All, length, IfErr, OnOk, OnSome, MatchOption};
ghost use Rattle.std.specs.List.{flat_map};
ghost use Rattle.picky_wire_base.specs.Many.{read_many};
ghost use Rattle.picky_wire_base.specs.Row.{read_all};
ghost use Rattle.picky_wire_base.specs.Wire.{string, string_of};
ghost use Rattle.picky_wire.specs.declared.error.WireError.TheVariants as errors;
ghost use Rattle.picky_wire.specs.Count.{Rose};
ghost use Rattle.picky_wire.specs.Flaws.{wire_error};
ghost use Rattle.picky_wire_base.specs.Gives.{Gives};
ghost use Rattle.picky_wire.specs.Puts.{Puts};
ghost use Rattle.picky_wire.specs.Unread.{Unread};
ghost use Rattle.picky_wire.specs.Takes.{Takes, TakesString, HasCause, causes_of};

use crate::element::{SshComplexTypeDecode, SshComplexTypeEncode, SshLayout};
use crate::error::WireError;
use crate::read::SshReadExt;
use crate::sink::Sink;
use crate::source::{SliceSource, Source};
use crate::write::write_all;
use picky_wire_base::{List, MAX_LEN};
use std::alloc::Global;

/// The values that a string field is made of, with nothing left over.
///
/// Where the string is cut, the error is `T`'s for `UnexpectedEnd`; where it is whole, `T`'s own at the
/// first place where no value is spelled. Refuses, in order: `ReadFault`, these two.
pub fn decode_list<T: SshLayout, S: Source>(
    alloc: Global,
    stream: &mut S,
) -> Result<List<T>, T::Error>
    ensures takes { Takes S.tells S.left S.known S.faults
        (causes_of T.Error.of_wire)
        (read_many (λ flaw. T.Error.of_wire (wire_error flaw)) T.layout)
        string.used result stream.old stream.new }
    ensures unread { Unread S.tells S.left S.known (causes_of T.Error.of_wire) result stream.old stream.new }
    ensures taken { S.tells stream.old
        → TakesString (causes_of T.Error.of_wire) result (S.left stream.old) (S.left stream.new) }
    ensures cause { IfErr result (HasCause (causes_of T.Error.of_wire)
        (read_many (λ flaw. T.Error.of_wire (wire_error flaw)) T.layout)
        (Rose (S.faults stream.old) (S.faults stream.new))) }
{
    match stream.read_ssh_bytes(alloc) {
        Ok(block) => decode_items(alloc, block.as_slice()),
        Err(e) => Err(T::refusal(e)),
    }
}

/// The values that the bytes are made of, with nothing left over.
///
/// Refuses: `T`'s own, at the first place where no value is spelled.
pub fn decode_items<T: SshLayout>(alloc: Global, block: &[u8]) -> Result<List<T>, T::Error>
    ensures gives { Gives (T.Error.of_wire errors.NoMemory) (λ items. items) result
        (read_all T.layout block.now) }
    ensures no_fault { IfErr result (λ e. e ≢ T.Error.of_wire errors.ReadFault) }
{
    let mut items = List::new(alloc);
    let mut rest = SliceSource::new(block);
    'items: while rest.rest().len() > 0 {
        match T::decode(alloc, &mut rest) {
            Ok(item) => match items.push(item) {
                Ok(()) => {}
                Err(_) => return Err(T::refusal(WireError::NoMemory)),
            },
            Err(e) => return Err(e),
        }
    }
    Ok(items)
}

/// Writes the items' spellings, joined, as a string field.
///
/// Refuses, in order: `T`'s error for `TooLong`, where they have 2^32 bytes or more, and for `WriteFault`.
pub fn encode_list<T: SshComplexTypeEncode, S: Sink>(
    items: &[T],
    stream: &mut S,
) -> Result<(), T::Error>
    requires { All (λ item. T.write_reason item ≡ None) items.now }
    ensures puts { length (flat_map T.spelling items.now) < 2 ^ 32
        → Puts S.tells S.written S.faults (T.Error.of_wire errors.WriteFault)
        (string_of (flat_map T.spelling items.now)) result stream.old stream.new }

    // Too long a list is refused before anything is written.
    ensures too_long { 2 ^ 32 ≤ length (flat_map T.spelling items.now)
        → (result ≡ Err (T.Error.of_wire errors.TooLong)) × (stream.new ≡ stream.old) }
    ensures keeps { OnOk result (All T.keeps items.now) }
{
    let len = match block_len(items) {
        Some(len) => len,
        None => return Err(T::write_refusal(WireError::TooLong)),
    };
    match write_all(stream, &len.to_be_bytes()) {
        Ok(()) => {}
        Err(_) => return Err(T::write_refusal(WireError::WriteFault)),
    }
    match encode_items(items, stream) {
        Ok(()) => Ok(()),
        Err(e) => Err(e),
    }
}

/// How long the items' spellings are together, where a string can hold them.
fn block_len<T: SshComplexTypeEncode>(items: &[T]) -> Option<u32>
    ensures len { MatchOption result (2 ^ 32 ≤ length (flat_map T.spelling items.now))
        (λ len. len ≡ length (flat_map T.spelling items.now)) }
    ensures keeps { OnSome result (All T.keeps items.now) }
{
    let mut len = 0;
    'items: for item in items {
        len += item.spelling_len();
        if len > MAX_LEN as u64 {
            return None;
        }
    }
    Some(len as u32)
}

/// Writes the items' spellings one after another.
fn encode_items<T: SshComplexTypeEncode, S: Sink>(
    items: &[T],
    stream: &mut S,
) -> Result<(), T::Error>
    requires { All (λ item. T.write_reason item ≡ None) items.now }
    ensures { Puts S.tells S.written S.faults (T.Error.of_wire errors.WriteFault)
        (flat_map T.spelling items.now) result stream.old stream.new }
{
    'items: for item in items {
        match item.encode(stream) {
            Ok(()) => {}
            Err(e) => return Err(e),
        }
    }
    Ok(())
}
