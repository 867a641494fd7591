//! The public keys of SSH.

ghost use Rattle.std.specs.Prelude.{◌≡◌};

use crate::curve::{EcCurve, EdAlgorithm};
use crate::kind::KeyKind;
use crate::public_key::PublicKeyRef;
use picky_wire::{Bytes, Mpint, NoMemory, Text, TryClone, both};
use std::alloc::Global;

/// A public key. The two kinds whose secret a device keeps have the application that it is for.
#[derive(Debug, Drop, PartialEq, Eq)]
pub enum SshBasePublicKey {
    Rsa { e: Mpint, n: Mpint },
    Ec { curve: EcCurve, point: Bytes },
    Ed { key: [u8; 32] },
    SkEcdsaSha2NistP256 { point: Bytes, application: Text },
    SkEd25519 { key: [u8; 32], application: Text },
}

/// A public key and a comment, as a line has them.
#[derive(Debug, Drop, PartialEq, Eq)]
pub struct SshPublicKey {
    pub inner_key: SshBasePublicKey,
    pub comment: Text,
}

impl SshBasePublicKey {
    ghost use Rattle.picky_keys.specs.Key.{kind_of};

    /// The kind of the key.
    pub fn kind(&self) -> KeyKind
        ensures { result ≡ kind_of self.now }
    {
        match self {
            SshBasePublicKey::Rsa { .. } => KeyKind::Rsa,
            SshBasePublicKey::Ec { curve, .. } => KeyKind::Ec(*curve),
            SshBasePublicKey::Ed { .. } => KeyKind::Ed(EdAlgorithm::Ed25519),
            SshBasePublicKey::SkEcdsaSha2NistP256 { .. } => KeyKind::SkEcdsaSha2NistP256,
            SshBasePublicKey::SkEd25519 { .. } => KeyKind::SkEd25519,
        }
    }
}

impl SshPublicKey {
    ghost use Rattle.picky_keys.specs.PublicKey.{key_shown};
    ghost use Rattle.picky_keys.specs.Key.{public_key_of};

    /// The key without the application.
    pub fn inner_key(&self) -> PublicKeyRef<'_>
        ensures { key_shown result ≡ public_key_of self.now.inner_key }
    {
        match &self.inner_key {
            SshBasePublicKey::Rsa { e, n } => PublicKeyRef::Rsa { e, n },
            SshBasePublicKey::Ec { curve, point } => PublicKeyRef::Ec {
                curve: *curve,
                point,
            },
            SshBasePublicKey::Ed { key } => PublicKeyRef::Ed { key },
            SshBasePublicKey::SkEcdsaSha2NistP256 { point, .. } => PublicKeyRef::Ec {
                curve: EcCurve::NistP256,
                point,
            },
            SshBasePublicKey::SkEd25519 { key, .. } => PublicKeyRef::Ed { key },
        }
    }
}

impl TryClone for SshBasePublicKey {
    fn try_clone(&self, alloc: Global) -> Result<SshBasePublicKey, NoMemory> {
        match self {
            SshBasePublicKey::Rsa { e, n } => {
                let (e, n) = both(e.try_clone(alloc), n.try_clone(alloc))?;
                Ok(SshBasePublicKey::Rsa { e, n })
            }
            SshBasePublicKey::Ec { curve, point } => {
                let point = point.try_clone(alloc)?;
                Ok(SshBasePublicKey::Ec {
                    curve: *curve,
                    point,
                })
            }
            SshBasePublicKey::Ed { key } => Ok(SshBasePublicKey::Ed { key: *key }),
            SshBasePublicKey::SkEcdsaSha2NistP256 { point, application } => {
                let (point, application) = both(
                    point.try_clone(alloc),
                    application.try_clone(alloc),
                )?;
                Ok(SshBasePublicKey::SkEcdsaSha2NistP256 { point, application })
            }
            SshBasePublicKey::SkEd25519 { key, application } => {
                let application = application.try_clone(alloc)?;
                Ok(SshBasePublicKey::SkEd25519 {
                    key: *key,
                    application,
                })
            }
        }
    }
}

impl TryClone for SshPublicKey {
    fn try_clone(&self, alloc: Global) -> Result<SshPublicKey, NoMemory> {
        let (inner_key, comment) = both(
            self.inner_key.try_clone(alloc),
            self.comment.try_clone(alloc),
        )?;
        Ok(SshPublicKey { inner_key, comment })
    }
}
