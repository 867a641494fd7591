//! The fields of a blob, read from a source.

ghost use Rattle.std.specs.Prelude.{◌≡◌, ◌==◌, length, Some, None, if◌then◌else◌};
ghost use Rattle.picky_wire.specs.Flaws.{TakesLayout};
ghost use Rattle.picky_wire.specs.inner.Stop.{stop_of};
ghost use Rattle.picky_keys.specs.Blob.{key_type, ed_key};

use crate::kind::KeyKind;
use picky_wire::{Source, Stop, take_bytes, take_text};
use std::alloc::Global;

/// The name of a key type, as the kind that it stands for. Refuses, in order: `Fault`, `Short`, `NotUtf8`, `Name`.
#[tactic(auto, unfolding(crate::specs::Blob::key_type))]
pub fn take_kind<S: Source>(alloc: Global, stream: &mut S) -> Result<KeyKind, Stop>
    ensures { TakesLayout S.tells S.left S.known S.faults stop_of key_type result stream.old stream.new }
{
    let name = take_text(alloc, stream)?;
    match KeyKind::of_name(name.as_str()) {
        Some(kind) => Ok(kind),
        None => Err(Stop::Name),
    }
}

/// A string of 32 bytes. Refuses, in order: `Fault`, `Short`, `Length`.
#[tactic(auto, unfolding(crate::specs::Blob::ed_key))]
pub fn take_ed_key<S: Source>(alloc: Global, stream: &mut S) -> Result<[u8; 32], Stop>
    ensures { TakesLayout S.tells S.left S.known S.faults stop_of (ed_key 1) result stream.old stream.new }
{
    let bytes = take_bytes(alloc, stream)?;
    match ed25519_public_key_of(bytes.as_slice()) {
        Some(key) => Ok(key),
        None => Err(Stop::Length),
    }
}

/// The bytes as a key, where they are 32.
fn ed25519_public_key_of(bytes: &[u8]) -> Option<[u8; 32]>
    ensures { result ≡ (if length bytes.now == 32 then Some bytes.now else None) }
{
    <[u8; 32]>::try_from(bytes).ok()
}
