//! The private key that an algorithm, a public blob and private bytes stand for.

ghost use Rattle.std.specs.Prelude.{◌≡◌};
ghost use Rattle.picky_wire_base.specs.Gives.{Gives};
ghost use Rattle.picky_ppk_parts.specs.PartsRefusal.{key_in_blob as key_in_blob_of};
ghost use Rattle.picky_ppk_parts.specs.PartsRefusal.{public_key_under as public_key_under_of, parts_key};

use crate::algorithm::key_under;
use crate::error::PuttyError;
use crate::names::PpkKeyAlgorithm;
use crate::secret::key_with_secret;
use picky_keys::{PublicKey, SshBasePublicKey, SshPublicKeyError};
use picky_sshkey_blob::SshBasePrivateKey;
use picky_wire::Bytes;
use std::alloc::Global;

/// The private key of a public blob and of private bytes that aren't sealed. What follows the last field of either says
/// nothing.
///
/// Refuses, in order: `SshPublicKey` with what is wrong with the blob; `NotSupported` (`unsupported key algorithm`) for
/// DSS and Ed448; `PublicAndPrivateKeyMismatch`, where the blob is of another kind or curve; `IoError(UnexpectedEnd)`;
/// `InvalidPrivateKeyData`, where an Ed25519 secret has more than 32 bytes without its leading zeros.
#[tactic(auto, unfolding(crate::specs::PartsRefusal::parts_key))]
pub fn private_key_of(
    alloc: Global,
    algorithm: PpkKeyAlgorithm,
    blob: &Bytes,
    private: &Bytes,
) -> Result<SshBasePrivateKey, PuttyError>
    ensures { Gives PuttyError.NoMemory (λ key. key) result (parts_key algorithm blob.now private.now) }
{
    match public_key_under(alloc, algorithm, blob) {
        Ok(public) => key_with_secret(alloc, public, private.as_slice()),
        Err(e) => Err(e),
    }
}

/// The public key in the blob, where the algorithm names it.
#[tactic(auto, unfolding(crate::specs::PartsRefusal::public_key_under))]
fn public_key_under(
    alloc: Global,
    algorithm: PpkKeyAlgorithm,
    blob: &Bytes,
) -> Result<PublicKey, PuttyError>
    ensures { Gives PuttyError.NoMemory (λ key. key) result (public_key_under_of algorithm blob.now) }
{
    match key_in_blob(alloc, blob) {
        Ok(key) => key_under(alloc, algorithm, key),
        Err(e) => Err(e),
    }
}

/// The public key in a blob. What follows its last field says nothing.
///
/// Refuses, in order: `SshPublicKey` with what is wrong with the blob.
pub fn key_in_blob(alloc: Global, blob: &Bytes) -> Result<SshBasePublicKey, PuttyError>
    ensures { Gives PuttyError.NoMemory (λ key. key) result (key_in_blob_of blob.now) }
{
    match SshBasePublicKey::from_blob(alloc, blob.as_slice()) {
        Ok(key) => Ok(key),
        Err(e) => match e {
            SshPublicKeyError::NoMemory => {
                drop(e);
                Err(PuttyError::NoMemory)
            }
            e => Err(PuttyError::SshPublicKey(e)),
        },
    }
}
