//! Public keys, whose parts say nothing to SSH alone.

ghost use Rattle.std.specs.Prelude.{◌≡◌, IfOk};

use crate::curve::EcCurve;
use picky_wire::{Bytes, Mpint, NoMemory, TryClone};
use std::alloc::Global;

/// A public key.
#[derive(Debug, Drop, PartialEq, Eq)]
pub enum PublicKey {
    Rsa { e: Mpint, n: Mpint },
    Ec { curve: EcCurve, point: Bytes },
    Ed { key: [u8; 32] },
}

/// A public key whose parts another value keeps.
#[derive(Clone, Copy, Debug, PartialEq, Eq)]
pub enum PublicKeyRef<'a> {
    Rsa { e: &'a Mpint, n: &'a Mpint },
    Ec { curve: EcCurve, point: &'a Bytes },
    Ed { key: &'a [u8; 32] },
}

impl TryClone for PublicKey {
    fn try_clone(&self, alloc: Global) -> Result<PublicKey, NoMemory> {
        match self {
            PublicKey::Rsa { e, n } => {
                let e = e.try_clone(alloc)?;
                let n = n.try_clone(alloc)?;
                Ok(PublicKey::Rsa { e, n })
            }
            PublicKey::Ec { curve, point } => {
                let point = point.try_clone(alloc)?;
                Ok(PublicKey::Ec {
                    curve: *curve,
                    point,
                })
            }
            PublicKey::Ed { key } => Ok(PublicKey::Ed { key: *key }),
        }
    }
}
