//! An issuer whose private key is here.

use crate::issued::is_line_of;
use crate::zero_lines::{HOST_LINE, SIGNATURE};
use picky_cert::{SshCertKeyType, SshCertType};
use picky_cert_builder::{IssuerKey, SshCertificateBuilder};
use picky_key_rows::zero_key;
use picky_keys::{SshBasePublicKey, SshPublicKey};
use picky_sshkey::SshBasePrivateKey;
use picky_suite::HandedSigner;
use picky_wire::{Bytes, Text, Timestamp, TryClone};
use std::alloc::Global;
use std::mem::ManuallyDrop;
use std::test::Fail;

fn zero_subject(alloc: Global) -> Result<SshPublicKey, Fail> {
    let comment = Text::new(alloc, "")?;
    let inner_key = SshBasePublicKey::Ed { key: [0; 32] };
    Ok(SshPublicKey { inner_key, comment })
}

/// What asks for the zero certificate, but for its issuer.
fn asks_for_zero(alloc: Global) -> Result<ManuallyDrop<SshCertificateBuilder>, Fail> {
    let mut builder = ManuallyDrop::new(SshCertificateBuilder::init());
    builder.key(zero_subject(alloc)?);
    builder.comment(Text::new(alloc, "host")?);
    builder
        .cert_key_type(SshCertKeyType::SshEd25519V01)
        .cert_type(SshCertType::Host)
        .valid_after(Timestamp(0))
        .valid_before(Timestamp(0));
    Ok(builder)
}

/// The issuer is the key of zeros.
fn is_zero_issuer(issuer: &Option<IssuerKey>) -> bool {
    match issuer {
        Some(IssuerKey::Private(SshBasePrivateKey::Ed { secret, public })) => {
            *secret == [0; 32] && *public == [0; 32]
        }
        _ => false,
    }
}

/// The builder makes the zero certificate, of which the device hands out the signature.
fn makes_zero(alloc: Global, builder: &mut SshCertificateBuilder) -> Result<bool, Fail> {
    let signature = Bytes::new(alloc, SIGNATURE)?;
    let mut signer = ManuallyDrop::new(HandedSigner::new(Some(signature)));
    match &*ManuallyDrop::new(builder.build(alloc, &[0; 32], &mut *signer)) {
        Ok(cert) => Ok(is_line_of(alloc, cert, HOST_LINE)),
        Err(_) => Ok(false),
    }
}

#[test]
fn takes_a_private_key_as_the_issuer(rt: HostRuntime) -> Result<(), Fail> {
    let mut builder = asks_for_zero(rt.alloc())?;
    builder.signature_key(zero_key(rt.alloc(), None)?);
    assert!(rt; is_zero_issuer(&builder.issuer));
    assert!(rt; makes_zero(rt.alloc(), &mut *builder)?);
    Ok(())
}

fn is_copied(alloc: Global, issuer: IssuerKey) -> bool {
    let issuer = ManuallyDrop::new(issuer);
    match &*ManuallyDrop::new(issuer.try_clone(alloc)) {
        Ok(copy) => *copy == *issuer,
        Err(_) => false,
    }
}

#[test]
fn copies_an_issuer(rt: HostRuntime) -> Result<(), Fail> {
    let private = SshBasePrivateKey::Ed {
        secret: [1; 32],
        public: [2; 32],
    };
    let public = SshBasePublicKey::Ed { key: [3; 32] };
    assert!(rt; is_copied(rt.alloc(), IssuerKey::Private(private)));
    assert!(rt; is_copied(rt.alloc(), IssuerKey::Public(public)));
    Ok(())
}
