//! A public key's blob alone, as bytes.

ghost use Rattle.std.specs.Prelude.{◌≡◌, ◌≢◌, IfOk, IfErr};
ghost use Rattle.picky_wire_base.specs.Gives.{Gives};
ghost use Rattle.picky_wire.specs.declared.error.IoKind.TheVariants as io_kinds;
ghost use Rattle.picky_keys.specs.Blob.{blob_of};
ghost use Rattle.picky_keys.specs.LineRefusal.{blob_key, blob_bytes};

use crate::blob::pieces;
use crate::error::SshPublicKeyError;
use crate::key::SshBasePublicKey;
use crate::view::PublicView;
use picky_wire::{Bytes, MAX_LEN, NoMemory, SliceSource, SshComplexTypeDecode, push_pieces};
use std::alloc::Global;

impl SshBasePublicKey {
    /// The key of a blob (RFC 4253, section 6.6). What follows the blob's last field says nothing.
    ///
    /// Refuses, in order, by field: `IoError(UnexpectedEnd)`, `InvalidUtf8`, `UnknownKeyType`, `KeyError`, `TooLong`.
    #[tactic(auto, using(crate::proofs::ViewLemmas::blob_keys))]
    pub fn from_blob(alloc: Global, blob: &[u8]) -> Result<SshBasePublicKey, SshPublicKeyError>
        ensures gives { Gives SshPublicKeyError.NoMemory (λ key. key) result (blob_key blob.now) }
        ensures no_fault { IfErr result (λ e. e ≢ SshPublicKeyError.IoError io_kinds.ReadFault) }
    {
        if blob.len() > MAX_LEN {
            return key_of_long(alloc, blob);
        }
        let view = match PublicView::read(blob) {
            Ok((view, _)) => view,
            Err(stuck) => return Err(SshPublicKeyError::from(stuck)),
        };
        Ok(view.to_key(alloc)?)
    }

    /// The key's one blob. Refuses, in order: `TooLong`, where it has 2^32 bytes or more.
    #[tactic(auto, unfolding(crate::specs::LineRefusal::blob_bytes))]
    pub fn to_blob(&self, alloc: Global) -> Result<Bytes, SshPublicKeyError>
        ensures { Gives SshPublicKeyError.NoMemory (λ bytes. bytes) result (blob_bytes self.now) }
    {
        let bytes = bytes_of(alloc, self)?;
        if bytes.len() > MAX_LEN {
            return Err(SshPublicKeyError::TooLong);
        }
        Ok(Bytes::from_vec(bytes))
    }
}

/// The key of a blob that is too long to be seen at its places.
#[tactic(auto, unfolding(crate::specs::LineRefusal::blob_key))]
fn key_of_long(alloc: Global, blob: &[u8]) -> Result<SshBasePublicKey, SshPublicKeyError>
    ensures gives { Gives SshPublicKeyError.NoMemory (λ key. key) result (blob_key blob.now) }
    ensures no_fault { IfErr result (λ e. e ≢ SshPublicKeyError.IoError io_kinds.ReadFault) }
{
    let mut source = SliceSource::new(blob);
    match SshBasePublicKey::decode(alloc, &mut source) {
        Ok(key) => Ok(key),
        Err(e) => Err(e),
    }
}

/// The blob of a key. Refuses: `NoMemory`.
pub fn bytes_of(alloc: Global, key: &SshBasePublicKey) -> Result<Vec<u8>, NoMemory>
    ensures { IfOk result (λ blob. blob.items ≡ blob_of key.now) }
{
    let mut blob = Vec::new(alloc);
    match push_pieces(&mut blob, &pieces(key)) {
        Ok(()) => Ok(blob),
        Err(_) => Err(NoMemory),
    }
}
