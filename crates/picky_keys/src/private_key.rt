//! Private keys, and issuers, which sign.

ghost use Rattle.std.specs.Prelude.{◌≡◌, IfOk};
ghost use Rattle.picky_keys.specs.PublicKey.{key_shown};
ghost use Rattle.picky_keys.specs.PrivateKey.{public_fields, issuer_key};

use crate::curve::EcCurve;
use crate::public_key::{PublicKey, PublicKeyRef};
use picky_wire::{Bytes, Mpint, NoMemory, TryClone, both};
use std::alloc::Global;

/// A private key with its public fields.
#[derive(Debug, Drop, PartialEq, Eq)]
pub enum PrivateKey {
    /// RSA: the modulus, the two exponents, the inverse of `q` modulo `p`, and the primes.
    Rsa {
        n: Mpint,
        e: Mpint,
        d: Mpint,
        iqmp: Mpint,
        p: Mpint,
        q: Mpint,
    },
    /// ECDSA: the curve, the public point and the secret number.
    Ec {
        curve: EcCurve,
        point: Bytes,
        secret: Mpint,
    },
    /// Ed25519: the secret seed and the public key.
    Ed {
        secret: [u8; 32],
        public: [u8; 32],
    },
}

impl PrivateKey {
    /// Its public fields. Refuses: `NoMemory`.
    pub fn to_public_key(&self, alloc: Global) -> Result<PublicKey, NoMemory>
        ensures { IfOk result (λ key. key ≡ public_fields self.now) }
    {
        match self {
            PrivateKey::Rsa { n, e, .. } => {
                let e = e.try_clone(alloc)?;
                let n = n.try_clone(alloc)?;
                Ok(PublicKey::Rsa { e, n })
            }
            PrivateKey::Ec { curve, point, .. } => {
                let point = point.try_clone(alloc)?;
                Ok(PublicKey::Ec {
                    curve: *curve,
                    point,
                })
            }
            PrivateKey::Ed { public, .. } => Ok(PublicKey::Ed { key: *public }),
        }
    }
}

impl TryClone for PrivateKey {
    fn try_clone(&self, alloc: Global) -> Result<PrivateKey, NoMemory> {
        match self {
            PrivateKey::Rsa {
                n,
                e,
                d,
                iqmp,
                p,
                q,
            } => {
                let public = both(n.try_clone(alloc), e.try_clone(alloc));
                let secret = both(d.try_clone(alloc), iqmp.try_clone(alloc));
                let primes = both(p.try_clone(alloc), q.try_clone(alloc));
                let (((n, e), (d, iqmp)), (p, q)) = both(both(public, secret), primes)?;
                Ok(PrivateKey::Rsa {
                    n,
                    e,
                    d,
                    iqmp,
                    p,
                    q,
                })
            }
            PrivateKey::Ec {
                curve,
                point,
                secret,
            } => {
                let point = point.try_clone(alloc)?;
                let secret = secret.try_clone(alloc)?;
                Ok(PrivateKey::Ec {
                    curve: *curve,
                    point,
                    secret,
                })
            }
            PrivateKey::Ed { secret, public } => Ok(PrivateKey::Ed {
                secret: *secret,
                public: *public,
            }),
        }
    }
}

/// Who signs: a private key, or one that another device holds, by its public key.
#[derive(Debug, Drop, PartialEq, Eq)]
pub enum Issuer {
    Private(PrivateKey),
    Public(PublicKey),
}

impl Issuer {
    /// Its public key.
    pub fn public(&self) -> PublicKeyRef<'_>
        ensures { key_shown result ≡ issuer_key self.now }
    {
        match self {
            Issuer::Private(PrivateKey::Rsa { n, e, .. }) => PublicKeyRef::Rsa { e, n },
            Issuer::Private(PrivateKey::Ec { curve, point, .. }) => PublicKeyRef::Ec {
                curve: *curve,
                point,
            },
            Issuer::Private(PrivateKey::Ed { public, .. }) => PublicKeyRef::Ed { key: public },
            Issuer::Public(PublicKey::Rsa { e, n }) => PublicKeyRef::Rsa { e, n },
            Issuer::Public(PublicKey::Ec { curve, point }) => PublicKeyRef::Ec {
                curve: *curve,
                point,
            },
            Issuer::Public(PublicKey::Ed { key }) => PublicKeyRef::Ed { key },
        }
    }
}

impl TryClone for Issuer {
    fn try_clone(&self, alloc: Global) -> Result<Issuer, NoMemory> {
        match self {
            Issuer::Private(key) => {
                let key = key.try_clone(alloc)?;
                Ok(Issuer::Private(key))
            }
            Issuer::Public(key) => {
                let key = key.try_clone(alloc)?;
                Ok(Issuer::Public(key))
            }
        }
    }
}
