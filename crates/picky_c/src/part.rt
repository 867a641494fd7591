//! The parts of a public key, by number.

ghost use Rattle.std.specs.Prelude.{◌≡◌};
ghost use Rattle.picky_wire_base.specs.Gives.{Gives};
ghost use Rattle.picky_c.specs.Part.{part_numbered, part_of as part_in};

use crate::error::PickyError;
use picky_keys::{SshPublicKey, bytes_of};
use picky_wire::NoMemory;
use std::alloc::Global;

/// A part of a public key.
#[derive(Clone, Copy)]
pub enum Part {
    /// The name of its type.
    TypeName,
    /// Its blob.
    Blob,
    /// The comment beside it.
    Comment,
}

/// The part of a number.
pub fn part_by_number(number: u32) -> Option<Part>
    ensures { result ≡ part_numbered number }
{
    if number == 1 {
        return Some(Part::TypeName);
    }
    if number == 2 {
        return Some(Part::Blob);
    }
    if number == 3 {
        return Some(Part::Comment);
    }
    None
}

/// The part of the key, as bytes. Refuses: `NoMemory`.
pub fn part_of(alloc: Global, part: Part, key: &SshPublicKey) -> Result<Vec<u8>, PickyError>
    ensures { Gives PickyError.NoMemory (λ bytes. bytes.items) result (Ok (part_in part key.now)) }
{
    match part {
        Part::TypeName => copy_of(alloc, key.inner_key.kind().name().as_bytes()),
        Part::Blob => match bytes_of(alloc, &key.inner_key) {
            Ok(blob) => Ok(blob),
            Err(NoMemory) => Err(PickyError::NoMemory),
        },
        Part::Comment => copy_of(alloc, key.comment.as_str().as_bytes()),
    }
}

/// A copy of the bytes. Refuses: `NoMemory`.
pub fn copy_of(alloc: Global, bytes: &[u8]) -> Result<Vec<u8>, PickyError>
    ensures { Gives PickyError.NoMemory (λ copy. copy.items) result (Ok bytes.now) }
{
    match Vec::from_slice(alloc, bytes) {
        Ok(copy) => Ok(copy),
        Err(_) => Err(PickyError::NoMemory),
    }
}
