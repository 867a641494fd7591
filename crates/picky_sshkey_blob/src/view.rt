//! A private key's blob, seen where it stands: its parts are slices of it.

ghost use Rattle.std.specs.Prelude.{◌≡◌, ◌^◌, ◌<◌, length, IfOk};
ghost use Rattle.picky_wire_base.specs.View.{Seen, end_of, why_in};
ghost use Rattle.picky_keys.specs.Blob.{key_type};
ghost use Rattle.picky_sshkey_blob.specs.Key.{IsPrivateKey};
ghost use Rattle.picky_sshkey_blob.specs.Blob.{secret as secret_layout};
ghost use Rattle.picky_sshkey_blob.specs.BlobRefusal.{refused_place};
ghost use Rattle.picky_sshkey_blob.specs.View.{private_key_seen, PrivatePartsLie};

use crate::key::SshBasePrivateKey;
use crate::view_read::private_at;
use picky_keys::{EcCurve, ed_key_of};
use picky_wire::{NoMemory, Part, Stuck, both};
use std::alloc::Global;

/// A private key whose parts are slices of its blob.
#[derive(Clone, Copy, Debug, PartialEq, Eq)]
pub enum PrivateView<'a> {
    Rsa {
        n: Part<'a>,
        e: Part<'a>,
        d: Part<'a>,
        iqmp: Part<'a>,
        p: Part<'a>,
        q: Part<'a>,
    },
    Ec {
        curve: EcCurve,
        point: Part<'a>,
        secret: Part<'a>,
    },
    Ed {
        secret: Part<'a>,
        public: Part<'a>,
    },
    SkEcdsaSha2NistP256 {
        point: Part<'a>,
        application: Part<'a>,
        flags: u8,
        handle: Part<'a>,
    },
    SkEd25519 {
        key: Part<'a>,
        application: Part<'a>,
        flags: u8,
        handle: Part<'a>,
    },
}

impl<'a> PrivateView<'a> {
    /// The view of the blob that the bytes begin with, and how many bytes it takes.
    ///
    /// OpenSSH's PROTOCOL.key. Refuses, in order, by field: `Short`, `NotUtf8`, `Name`, `Length`.
    pub fn read(blob: &'a [u8]) -> Result<(PrivateView<'a>, usize), Stuck<'a>>
        requires { length blob.now < 2 ^ 32 }
        ensures seen { Seen private_key_seen (PrivatePartsLie blob.now (end_of key_type blob.now 0)) why_in secret_layout blob.now 0 result }
        ensures is_key { IfOk result (λ found. IsPrivateKey (private_key_seen found.0)) }
    {
        match private_at(blob, 0) {
            Ok(found) => Ok(found),
            Err(stopped) => Err(stopped.stuck),
        }
    }

    /// The number of the field at which a blob is stuck, where it is.
    pub fn stuck_at(blob: &[u8]) -> Option<usize>
        requires { length blob.now < 2 ^ 32 }
        ensures { result ≡ refused_place (secret_layout.read blob.now) }
    {
        match private_at(blob, 0) {
            Ok(_) => None,
            Err(stopped) => Some(stopped.place),
        }
    }

    /// A copy of the key. Refuses: `NoMemory`.
    pub fn to_key(&self, alloc: Global) -> Result<SshBasePrivateKey, NoMemory>
        requires { IsPrivateKey (private_key_seen self.now) }
        ensures { IfOk result (λ key. key ≡ private_key_seen self.now) }
    {
        match self {
            PrivateView::Rsa {
                n,
                e,
                d,
                iqmp,
                p,
                q,
            } => {
                let public = both(n.to_mpint(alloc), e.to_mpint(alloc));
                let secret = both(d.to_mpint(alloc), iqmp.to_mpint(alloc));
                let primes = both(p.to_mpint(alloc), q.to_mpint(alloc));
                let (((n, e), (d, iqmp)), (p, q)) = both(both(public, secret), primes)?;
                Ok(SshBasePrivateKey::Rsa {
                    n,
                    e,
                    d,
                    iqmp,
                    p,
                    q,
                })
            }
            PrivateView::Ec {
                curve,
                point,
                secret,
            } => {
                let point = point.to_bytes(alloc)?;
                let secret = secret.to_mpint(alloc)?;
                Ok(SshBasePrivateKey::Ec {
                    curve: *curve,
                    point,
                    secret,
                })
            }
            PrivateView::Ed { secret, public } => {
                let secret = ed_key_of(secret);
                let public = ed_key_of(public);
                Ok(SshBasePrivateKey::Ed { secret, public })
            }
            PrivateView::SkEcdsaSha2NistP256 {
                point,
                application,
                flags,
                handle,
            } => {
                let public = both(point.to_bytes(alloc), application.to_text(alloc));
                let ((point, application), handle) = both(public, handle.to_bytes(alloc))?;
                Ok(SshBasePrivateKey::SkEcdsaSha2NistP256 {
                    point,
                    application,
                    flags: *flags,
                    handle,
                })
            }
            PrivateView::SkEd25519 {
                key,
                application,
                flags,
                handle,
            } => {
                let key = ed_key_of(key);
                let application = application.to_text(alloc)?;
                let handle = handle.to_bytes(alloc)?;
                Ok(SshBasePrivateKey::SkEd25519 {
                    key,
                    application,
                    flags: *flags,
                    handle,
                })
            }
        }
    }
}
