//! The blob of the public key in a private key, written without a copy of it.

ghost use Rattle.std.specs.Prelude.{◌≡◌, IfOk};
ghost use Rattle.std.specs.List.{concat};
ghost use Rattle.picky_wire_base.specs.Gives.{Gives};
ghost use Rattle.picky_keys.specs.Blob.{blob_of};
ghost use Rattle.picky_keys.specs.LineRefusal.{blob_bytes};
ghost use Rattle.picky_sshkey_blob.specs.Key.{public_part};

use crate::key::SshBasePrivateKey;
use picky_keys::{EcCurve, EcCurveSshExt, SshPublicKeyError};
use picky_wire::{Bytes, MAX_LEN, NoMemory, Piece, push_pieces};
use std::alloc::Global;

impl SshBasePrivateKey {
    /// The one blob of its public key. Refuses, in order: `TooLong`, where it has 2^32 bytes or more.
    #[tactic(auto, unfolding(picky_keys::specs::LineRefusal::blob_bytes))]
    pub fn public_blob(&self, alloc: Global) -> Result<Bytes, SshPublicKeyError>
        ensures { Gives SshPublicKeyError.NoMemory (λ bytes. bytes) result (blob_bytes (public_part self.now)) }
    {
        let bytes = public_bytes(alloc, self)?;
        if bytes.len() > MAX_LEN {
            return Err(SshPublicKeyError::TooLong);
        }
        Ok(Bytes::from_vec(bytes))
    }
}

/// The blob of a private key's public key. Refuses: `NoMemory`.
pub fn public_bytes(alloc: Global, key: &SshBasePrivateKey) -> Result<Vec<u8>, NoMemory>
    ensures { IfOk result (λ blob. blob.items ≡ blob_of (public_part key.now)) }
{
    let mut blob = Vec::new(alloc);
    match push_pieces(&mut blob, &public_pieces(key)) {
        Ok(()) => Ok(blob),
        Err(_) => Err(NoMemory),
    }
}

/// The fields of the public key's one spelling, its name first.
#[tactic(auto, unfolding(picky_keys::specs::Blob::blob_of, picky_keys::specs::Blob::fields_spelled))]
fn public_pieces(key: &SshBasePrivateKey) -> [Piece<'_>; 4]
    ensures { concat result ≡ blob_of (public_part key.now) }
{
    let name = Piece::string(key.kind().name().as_bytes());
    match key {
        SshBasePrivateKey::Rsa { n, e, .. } => {
            [name, Piece::mpint(e), Piece::mpint(n), Piece::none()]
        }
        SshBasePrivateKey::Ec { curve, point, .. } => {
            let identifier = curve.to_ecdsa_ssh_key_identifier();
            [
                name,
                Piece::string(identifier.as_bytes()),
                Piece::bytes(point),
                Piece::none(),
            ]
        }
        SshBasePrivateKey::Ed { public, .. } => {
            [name, Piece::string(public), Piece::none(), Piece::none()]
        }
        SshBasePrivateKey::SkEcdsaSha2NistP256 {
            point,
            application,
            ..
        } => {
            let identifier = EcCurve::NistP256.to_ecdsa_ssh_key_identifier();
            [
                name,
                Piece::string(identifier.as_bytes()),
                Piece::bytes(point),
                Piece::text(application),
            ]
        }
        SshBasePrivateKey::SkEd25519 {
            key,
            application,
            ..
        } => [
            name,
            Piece::string(key),
            Piece::text(application),
            Piece::none(),
        ],
    }
}
