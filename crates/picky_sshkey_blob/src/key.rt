//! The private keys of SSH.

ghost use Rattle.std.specs.Prelude.{◌≡◌, IfOk};
ghost use Rattle.picky_sshkey_blob.specs.Key.{private_kind_of, public_part};

use picky_keys::{EcCurve, EdAlgorithm, KeyKind, SshBasePublicKey};
use picky_wire::{Bytes, Mpint, NoMemory, Text, TryClone, both};
use std::alloc::Global;

/// A private key with its public parts.
#[derive(Debug, Drop, PartialEq, Eq)]
pub enum SshBasePrivateKey {
    /// RSA: the modulus, the two exponents, the inverse of `q` modulo `p`, and the primes.
    Rsa {
        n: Mpint,
        e: Mpint,
        d: Mpint,
        iqmp: Mpint,
        p: Mpint,
        q: Mpint,
    },
    /// ECDSA: the curve, the public point and the secret number.
    Ec {
        curve: EcCurve,
        point: Bytes,
        secret: Mpint,
    },
    /// Ed25519: the secret seed and the public key.
    Ed {
        secret: [u8; 32],
        public: [u8; 32],
    },
    /// ECDSA on a device: the public point, the application that it is for, flags, and the device's handle of the key.
    SkEcdsaSha2NistP256 {
        point: Bytes,
        application: Text,
        flags: u8,
        handle: Bytes,
    },
    /// Ed25519 on a device: the public key, and the same.
    SkEd25519 {
        key: [u8; 32],
        application: Text,
        flags: u8,
        handle: Bytes,
    },
}

impl SshBasePrivateKey {
    /// The kind of the key.
    pub fn kind(&self) -> KeyKind
        ensures { result ≡ private_kind_of self.now }
    {
        match self {
            SshBasePrivateKey::Rsa { .. } => KeyKind::Rsa,
            SshBasePrivateKey::Ec { curve, .. } => KeyKind::Ec(*curve),
            SshBasePrivateKey::Ed { .. } => KeyKind::Ed(EdAlgorithm::Ed25519),
            SshBasePrivateKey::SkEcdsaSha2NistP256 { .. } => KeyKind::SkEcdsaSha2NistP256,
            SshBasePrivateKey::SkEd25519 { .. } => KeyKind::SkEd25519,
        }
    }

    /// A copy of its public key. Refuses: `NoMemory`.
    pub fn base_public_key(&self, alloc: Global) -> Result<SshBasePublicKey, NoMemory>
        ensures { IfOk result (λ key. key ≡ public_part self.now) }
    {
        match self {
            SshBasePrivateKey::Rsa { n, e, .. } => {
                let e = e.try_clone(alloc)?;
                let n = n.try_clone(alloc)?;
                Ok(SshBasePublicKey::Rsa { e, n })
            }
            SshBasePrivateKey::Ec { curve, point, .. } => {
                let point = point.try_clone(alloc)?;
                Ok(SshBasePublicKey::Ec {
                    curve: *curve,
                    point,
                })
            }
            SshBasePrivateKey::Ed { public, .. } => Ok(SshBasePublicKey::Ed { key: *public }),
            SshBasePrivateKey::SkEcdsaSha2NistP256 {
                point,
                application,
                ..
            } => {
                let point = point.try_clone(alloc)?;
                let application = application.try_clone(alloc)?;
                Ok(SshBasePublicKey::SkEcdsaSha2NistP256 { point, application })
            }
            SshBasePrivateKey::SkEd25519 {
                key,
                application,
                ..
            } => {
                let application = application.try_clone(alloc)?;
                Ok(SshBasePublicKey::SkEd25519 {
                    key: *key,
                    application,
                })
            }
        }
    }

    /// Its public key, of the parts that it has; the secret ones are dropped.
    pub fn into_public(self) -> SshBasePublicKey
        ensures { result ≡ public_part self }
    {
        match self {
            SshBasePrivateKey::Rsa { n, e, .. } => SshBasePublicKey::Rsa { e, n },
            SshBasePrivateKey::Ec { curve, point, .. } => SshBasePublicKey::Ec { curve, point },
            SshBasePrivateKey::Ed { public, .. } => SshBasePublicKey::Ed { key: public },
            SshBasePrivateKey::SkEcdsaSha2NistP256 {
                point,
                application,
                ..
            } => SshBasePublicKey::SkEcdsaSha2NistP256 { point, application },
            SshBasePrivateKey::SkEd25519 {
                key,
                application,
                ..
            } => SshBasePublicKey::SkEd25519 { key, application },
        }
    }
}

impl TryClone for SshBasePrivateKey {
    fn try_clone(&self, alloc: Global) -> Result<SshBasePrivateKey, NoMemory> {
        match self {
            SshBasePrivateKey::Rsa {
                n,
                e,
                d,
                iqmp,
                p,
                q,
            } => {
                let public = both(n.try_clone(alloc), e.try_clone(alloc));
                let secret = both(d.try_clone(alloc), iqmp.try_clone(alloc));
                let primes = both(p.try_clone(alloc), q.try_clone(alloc));
                let (((n, e), (d, iqmp)), (p, q)) = both(both(public, secret), primes)?;
                Ok(SshBasePrivateKey::Rsa {
                    n,
                    e,
                    d,
                    iqmp,
                    p,
                    q,
                })
            }
            SshBasePrivateKey::Ec {
                curve,
                point,
                secret,
            } => {
                let point = point.try_clone(alloc)?;
                let secret = secret.try_clone(alloc)?;
                Ok(SshBasePrivateKey::Ec {
                    curve: *curve,
                    point,
                    secret,
                })
            }
            SshBasePrivateKey::Ed { secret, public } => Ok(SshBasePrivateKey::Ed {
                secret: *secret,
                public: *public,
            }),
            SshBasePrivateKey::SkEcdsaSha2NistP256 {
                point,
                application,
                flags,
                handle,
            } => {
                let public = both(point.try_clone(alloc), application.try_clone(alloc));
                let ((point, application), handle) = both(public, handle.try_clone(alloc))?;
                Ok(SshBasePrivateKey::SkEcdsaSha2NistP256 {
                    point,
                    application,
                    flags: *flags,
                    handle,
                })
            }
            SshBasePrivateKey::SkEd25519 {
                key,
                application,
                flags,
                handle,
            } => {
                let application = application.try_clone(alloc)?;
                let handle = handle.try_clone(alloc)?;
                Ok(SshBasePrivateKey::SkEd25519 {
                    key: *key,
                    application,
                    flags: *flags,
                    handle,
                })
            }
        }
    }
}
