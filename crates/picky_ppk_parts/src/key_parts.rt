//! The parts of a PuTTY private key file that an OpenSSH private key makes.

ghost use Rattle.std.specs.Prelude.{◌≡◌, IfOk};
ghost use Rattle.picky_wire_base.specs.Gives.{Gives};
ghost use Rattle.picky_keys.specs.declared.key.SshBasePublicKey.{SshBasePublicKey as PublicKey};
ghost use Rattle.picky_keys.specs.LineRefusal.{blob_bytes};
ghost use Rattle.picky_sshkey_blob.specs.Key.{public_part};
ghost use Rattle.picky_ppk_parts.specs.Secret.{secret_bytes as secret_bytes_of};
ghost use Rattle.picky_ppk_parts.specs.KeyParts.{private_algorithm as private_algorithm_of};
ghost use Rattle.picky_ppk_parts.specs.KeyParts.{blob_within, parts_under as parts_under_of, key_parts};

use crate::algorithm::curve_algorithm;
use crate::error::PuttyError;
use crate::joined::joined_pieces;
use crate::names::PpkKeyAlgorithm;
use crate::unsupported::no_security_keys;
use picky_keys::{SshBasePublicKey, SshPublicKeyError};
use picky_sshkey_blob::SshBasePrivateKey;
use picky_wire::{Bytes, MAX_LEN, Mpint, NoMemory, Piece, TryClone};
use std::alloc::Global;

/// An algorithm, a public blob, and private bytes that aren't sealed and have no padding.
#[derive(Debug, Drop, PartialEq, Eq)]
pub struct KeyParts {
    pub algorithm: PpkKeyAlgorithm,
    pub blob: Bytes,
    pub private_bytes: Bytes,
}

impl KeyParts {
    /// The parts of a key, each in its one spelling.
    ///
    /// Refuses, in order: `NotSupported` (`SK keys`) for a key whose secret a device keeps; `TooLong`, where the blob or
    /// the private bytes have 2^32 bytes or more.
    #[tactic(auto, unfolding(crate::specs::KeyParts::key_parts))]
    pub fn of_key(alloc: Global, key: &SshBasePrivateKey) -> Result<KeyParts, PuttyError>
        ensures { Gives PuttyError.NoMemory (λ parts. parts) result (key_parts key.now) }
    {
        match private_algorithm(alloc, key) {
            Ok(algorithm) => parts_under(alloc, key, algorithm),
            Err(e) => Err(e),
        }
    }
}

impl TryClone for KeyParts {
    fn try_clone(&self, alloc: Global) -> Result<KeyParts, NoMemory> {
        let blob = self.blob.try_clone(alloc)?;
        let private_bytes = self.private_bytes.try_clone(alloc)?;
        Ok(KeyParts {
            algorithm: self.algorithm,
            blob,
            private_bytes,
        })
    }
}

/// The algorithm that names the key.
fn private_algorithm(alloc: Global, key: &SshBasePrivateKey) -> Result<PpkKeyAlgorithm, PuttyError>
    ensures { Gives PuttyError.NoMemory (λ algorithm. algorithm) result (private_algorithm_of key.now) }
{
    match key {
        SshBasePrivateKey::Rsa { .. } => Ok(PpkKeyAlgorithm::Rsa),
        SshBasePrivateKey::Ec { curve, .. } => Ok(curve_algorithm(*curve)),
        SshBasePrivateKey::Ed { .. } => Ok(PpkKeyAlgorithm::Ed25519),
        SshBasePrivateKey::SkEcdsaSha2NistP256 { .. } | SshBasePrivateKey::SkEd25519 { .. } => {
            Err(no_security_keys(alloc))
        }
    }
}

/// The blob and the private bytes, where they are short enough.
fn parts_under(
    alloc: Global,
    key: &SshBasePrivateKey,
    algorithm: PpkKeyAlgorithm,
) -> Result<KeyParts, PuttyError>
    ensures { Gives PuttyError.NoMemory (λ parts. parts) result (parts_under_of key.now algorithm) }
{
    let blob = match public_blob(alloc, key) {
        Ok(blob) => blob,
        Err(e) => return Err(e),
    };
    let private = secret_bytes(alloc, key)?;
    if private.len() > MAX_LEN {
        return Err(PuttyError::TooLong);
    }
    Ok(KeyParts {
        algorithm,
        blob,
        private_bytes: Bytes::from_vec(private),
    })
}

/// The blob of the public key.
fn public_blob(alloc: Global, key: &SshBasePrivateKey) -> Result<Bytes, PuttyError>
    ensures { Gives PuttyError.NoMemory (λ blob. blob) result (blob_within (public_part key.now)) }
{
    within(key.public_blob(alloc))
}

/// The one blob of a public key. Refuses, in order: `TooLong`, where it has 2^32 bytes or more.
pub fn blob_of_public(alloc: Global, public: &SshBasePublicKey) -> Result<Bytes, PuttyError>
    ensures { Gives PuttyError.NoMemory (λ blob. blob) result (blob_within public.now) }
{
    within(public.to_blob(alloc))
}

/// The blob, or why there is none, in PuTTY's errors.
#[tactic(auto, using(crate::proofs::BlobLemmas::blobs_within))]
fn within(blob: Result<Bytes, SshPublicKeyError>) -> Result<Bytes, PuttyError>
    ensures { (public : PublicKey) → Gives SshPublicKeyError.NoMemory (λ bytes. bytes) blob (blob_bytes public)
        → Gives PuttyError.NoMemory (λ blob. blob) result (blob_within public) }
{
    match blob {
        Ok(blob) => Ok(blob),
        Err(e) => match e {
            SshPublicKeyError::TooLong => {
                drop(e);
                Err(PuttyError::TooLong)
            }
            e => {
                drop(e);
                Err(PuttyError::NoMemory)
            }
        },
    }
}

/// The secret in its one spelling; none of a key whose secret a device keeps.
#[tactic(auto, unfolding(crate::specs::Secret::secret_bytes))]
fn secret_bytes(alloc: Global, key: &SshBasePrivateKey) -> Result<Vec<u8>, NoMemory>
    ensures { IfOk result (λ bytes. bytes.items ≡ secret_bytes_of key.now) }
{
    match key {
        SshBasePrivateKey::Rsa { d, p, q, iqmp, .. } => joined_pieces(
            alloc,
            &[
                Piece::mpint(d),
                Piece::mpint(p),
                Piece::mpint(q),
                Piece::mpint(iqmp),
            ],
        ),
        SshBasePrivateKey::Ec { secret, .. } => joined_pieces(alloc, &[Piece::mpint(secret)]),
        SshBasePrivateKey::Ed { secret, .. } => match Mpint::from_be(alloc, secret) {
            Ok(number) => joined_pieces(alloc, &[Piece::mpint(&number)]),
            Err(_) => Err(NoMemory),
        },
        SshBasePrivateKey::SkEcdsaSha2NistP256 { .. } | SshBasePrivateKey::SkEd25519 { .. } => {
            Ok(Vec::new(alloc))
        }
    }
}
