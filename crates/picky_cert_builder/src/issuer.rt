//! Who signs a certificate.

ghost use Rattle.std.specs.Prelude.{◌≡◌, IfOk};
ghost use Rattle.picky_keys.specs.declared.private_key.Issuer.TheVariants as asked;
ghost use Rattle.picky_keys.specs.Key.{kind_of, public_key_of};
ghost use Rattle.picky_cert_builder.specs.Issuer.{issuer_of, issuer_part, private_issuer as private_issuer_of};

use picky_keys::{EcCurve, Issuer, KeyKind, PrivateKey, PublicKey, SshBasePublicKey};
use picky_sshkey::SshBasePrivateKey;
use picky_wire::{NoMemory, TryClone};
use std::alloc::Global;

/// Who signs a certificate: by a private key, or by one that a device keeps, known by its public key.
#[derive(Debug, Drop, PartialEq, Eq)]
pub enum IssuerKey {
    Private(SshBasePrivateKey),
    Public(SshBasePublicKey),
}

impl IssuerKey {
    /// The kind of the key.
    pub fn kind(&self) -> KeyKind
        ensures { result ≡ kind_of (issuer_part self.now) }
    {
        match self {
            IssuerKey::Private(key) => key.kind(),
            IssuerKey::Public(key) => key.kind(),
        }
    }

    /// A copy of its public key. Refuses: `NoMemory`.
    pub fn public_part(&self, alloc: Global) -> Result<SshBasePublicKey, NoMemory>
        ensures { IfOk result (λ key. key ≡ issuer_part self.now) }
    {
        match self {
            IssuerKey::Private(key) => key.base_public_key(alloc),
            IssuerKey::Public(key) => key.try_clone(alloc),
        }
    }

    /// The issuer that a device signs for, with the secret where it is here. Refuses: `NoMemory`.
    pub fn issuer_for_signer(&self, alloc: Global) -> Result<Issuer, NoMemory>
        ensures { IfOk result (λ issuer. issuer ≡ issuer_of self.now) }
    {
        let key = self.try_clone(alloc)?;
        Ok(key.into_issuer_for_signer())
    }

    /// The same issuer, into which the key is moved.
    pub fn into_issuer_for_signer(self) -> Issuer
        ensures { result ≡ issuer_of self }
    {
        match self {
            IssuerKey::Private(key) => issuer_from_private(key),
            IssuerKey::Public(key) => issuer_from_public(key),
        }
    }
}

impl TryClone for IssuerKey {
    fn try_clone(&self, alloc: Global) -> Result<IssuerKey, NoMemory> {
        match self {
            IssuerKey::Private(key) => {
                let key = key.try_clone(alloc)?;
                Ok(IssuerKey::Private(key))
            }
            IssuerKey::Public(key) => {
                let key = key.try_clone(alloc)?;
                Ok(IssuerKey::Public(key))
            }
        }
    }
}

/// The issuer that a device signs for by a private key: with its secret; a security key, whose secret stays in the device, by its
/// public key. Refuses: `NoMemory`.
pub fn private_issuer(alloc: Global, key: &SshBasePrivateKey) -> Result<Issuer, NoMemory>
    ensures { IfOk result (λ issuer. issuer ≡ private_issuer_of key.now) }
{
    let key = key.try_clone(alloc)?;
    Ok(issuer_from_private(key))
}

/// A private key as an issuer: with its secret; a security key by its public key.
fn issuer_from_private(key: SshBasePrivateKey) -> Issuer
    ensures { result ≡ private_issuer_of key }
{
    match key {
        SshBasePrivateKey::Rsa {
            n,
            e,
            d,
            iqmp,
            p,
            q,
        } => Issuer::Private(PrivateKey::Rsa {
            n,
            e,
            d,
            iqmp,
            p,
            q,
        }),
        SshBasePrivateKey::Ec {
            curve,
            point,
            secret,
        } => Issuer::Private(PrivateKey::Ec {
            curve,
            point,
            secret,
        }),
        SshBasePrivateKey::Ed { secret, public } => {
            Issuer::Private(PrivateKey::Ed { secret, public })
        }
        SshBasePrivateKey::SkEcdsaSha2NistP256 {
            point,
            application,
            handle,
            ..
        } => {
            drop(application);
            drop(handle);
            Issuer::Public(PublicKey::Ec {
                curve: EcCurve::NistP256,
                point,
            })
        }
        SshBasePrivateKey::SkEd25519 {
            key,
            application,
            handle,
            ..
        } => {
            drop(application);
            drop(handle);
            Issuer::Public(PublicKey::Ed { key })
        }
    }
}

/// A public key as an issuer.
fn issuer_from_public(key: SshBasePublicKey) -> Issuer
    ensures { result ≡ asked.Public (public_key_of key) }
{
    match key {
        SshBasePublicKey::Rsa { e, n } => Issuer::Public(PublicKey::Rsa { e, n }),
        SshBasePublicKey::Ec { curve, point } => Issuer::Public(PublicKey::Ec { curve, point }),
        SshBasePublicKey::Ed { key } => Issuer::Public(PublicKey::Ed { key }),
        SshBasePublicKey::SkEcdsaSha2NistP256 { point, application } => {
            drop(application);
            Issuer::Public(PublicKey::Ec {
                curve: EcCurve::NistP256,
                point,
            })
        }
        SshBasePublicKey::SkEd25519 { key, application } => {
            drop(application);
            Issuer::Public(PublicKey::Ed { key })
        }
    }
}
