//! The public part of private keys and of issuers.

use picky_keys::{EcCurve, Issuer, PrivateKey, PublicKeyRef};
use picky_wire::{Bytes, Mpint, NoMemory, TryClone};
use std::alloc::Global;
use std::mem::ManuallyDrop;
use std::test::Fail;

fn number(alloc: Global, bytes: &[u8]) -> Result<ManuallyDrop<Mpint>, Fail> {
    Ok(ManuallyDrop::new(Mpint::from_be(alloc, bytes)?))
}

// The numbers of RSA's standard example: p = 61, q = 53, n = 3233, e = 17, d = 2753, and 38 * 53 = 1 modulo 61.
fn rsa_key(alloc: Global) -> Result<PrivateKey, Fail> {
    let n = number(alloc, &[0x0C, 0xA1])?;
    let e = number(alloc, &[17])?;
    let d = number(alloc, &[0x0A, 0xC1])?;
    let iqmp = number(alloc, &[38])?;
    let p = number(alloc, &[61])?;
    let q = number(alloc, &[53])?;
    Ok(PrivateKey::Rsa {
        n: ManuallyDrop::into_inner(n),
        e: ManuallyDrop::into_inner(e),
        d: ManuallyDrop::into_inner(d),
        iqmp: ManuallyDrop::into_inner(iqmp),
        p: ManuallyDrop::into_inner(p),
        q: ManuallyDrop::into_inner(q),
    })
}

fn ec_key(alloc: Global) -> Result<PrivateKey, Fail> {
    let point = ManuallyDrop::new(Bytes::new(alloc, &[4, 1, 2])?);
    let secret = number(alloc, &[9])?;
    Ok(PrivateKey::Ec {
        curve: EcCurve::NistP384,
        point: ManuallyDrop::into_inner(point),
        secret: ManuallyDrop::into_inner(secret),
    })
}

fn is_copied(alloc: Global, issuer: &Issuer) -> Result<bool, NoMemory> {
    let copy = ManuallyDrop::new(issuer.try_clone(alloc)?);
    Ok(*copy == *issuer)
}

/// The issuer shows this, and is its copy.
fn shows(alloc: Global, issuer: &Issuer, wanted: PublicKeyRef<'_>) -> Result<bool, NoMemory> {
    Ok(is_copied(alloc, issuer)? && issuer.public() == wanted)
}

/// As an issuer the key shows this, and is its copy.
fn private_shows(
    alloc: Global,
    key: &PrivateKey,
    wanted: PublicKeyRef<'_>,
) -> Result<bool, NoMemory> {
    let copy = ManuallyDrop::new(key.try_clone(alloc)?);
    let is_copied = *copy == *key;
    let issuer = ManuallyDrop::new(Issuer::Private(ManuallyDrop::into_inner(copy)));
    Ok(is_copied && shows(alloc, &issuer, wanted)?)
}

/// So does its public part.
fn public_shows(
    alloc: Global,
    key: &PrivateKey,
    wanted: PublicKeyRef<'_>,
) -> Result<bool, NoMemory> {
    let issuer = ManuallyDrop::new(Issuer::Public(key.to_public_key(alloc)?));
    shows(alloc, &issuer, wanted)
}

/// Both do.
fn is_public(alloc: Global, key: &PrivateKey, wanted: PublicKeyRef<'_>) -> Result<bool, NoMemory> {
    Ok(private_shows(alloc, key, wanted)? && public_shows(alloc, key, wanted)?)
}

#[test]
fn shows_the_public_part_of_an_rsa_key(rt: HostRuntime) -> Result<(), Fail> {
    let alloc = rt.alloc();
    let key = ManuallyDrop::new(rsa_key(alloc)?);
    let e = number(alloc, &[17])?;
    let n = number(alloc, &[0x0C, 0xA1])?;
    assert!(rt; is_public(alloc, &*key, PublicKeyRef::Rsa { e: &*e, n: &*n })?);
    Ok(())
}

#[test]
fn shows_the_public_part_of_keys_on_curves(rt: HostRuntime) -> Result<(), Fail> {
    let alloc = rt.alloc();
    let key = ManuallyDrop::new(ec_key(alloc)?);
    let point = ManuallyDrop::new(Bytes::new(alloc, &[4, 1, 2])?);
    let shown = PublicKeyRef::Ec {
        curve: EcCurve::NistP384,
        point: &*point,
    };
    assert!(rt; is_public(alloc, &*key, shown)?);
    let key = ManuallyDrop::new(PrivateKey::Ed {
        secret: [1; 32],
        public: [2; 32],
    });
    assert!(rt; is_public(alloc, &*key, PublicKeyRef::Ed { key: &[2; 32] })?);
    Ok(())
}
