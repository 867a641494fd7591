//! A certificate whose keys, nonce and signature are zero bytes: where its parts stand, and at which a cut is stuck.

use crate::certificate_and_view::{blob_of, cert_of, prints};
use picky_cert::{CertPart, CertView, SshCertType, SshCertificate};
use picky_cert_rows::ZERO_LINE;
use picky_keys::PublicView;
use picky_wire::{Bytes, Part};
use std::alloc::Global;
use std::mem::ManuallyDrop;
use std::test::Fail;

/// It is a host's, and says nothing else.
fn is_zero(cert: &SshCertificate) -> bool {
    cert.cert_type == SshCertType::Host
        && cert.serial == 0
        && cert.key_id.as_str() == ""
        && cert.valid_principals.as_slice().is_empty()
        && cert.critical_options.as_slice().is_empty()
        && cert.extensions.as_slice().is_empty()
        && cert.comment.as_str() == "host"
}

#[test]
fn reads_and_writes_the_zero_certificate(rt: HostRuntime) -> Result<(), Fail> {
    let cert = ManuallyDrop::new(cert_of(rt.alloc(), ZERO_LINE)?);
    assert!(rt; is_zero(&cert) && prints(rt.alloc(), &cert, ZERO_LINE));
    Ok(())
}

// ---- where its parts stand

/// The part of a buffer whose bytes are zero.
fn is_zeros(part: Part<'_>, at: usize, len: usize) -> bool {
    part.at == at && part.bytes.len() == len && part.bytes.iter().all(|byte| *byte == 0)
}

fn is_zero_key(key: PublicView<'_>, at: usize) -> bool {
    match key {
        PublicView::Ed { key } => is_zeros(key, at, 32),
        PublicView::Rsa { .. }
        | PublicView::Ec { .. }
        | PublicView::SkEcdsaSha2NistP256 { .. }
        | PublicView::SkEd25519 { .. } => false,
    }
}

/// The places are counted by hand.
fn stands(view: &CertView<'_>, blob: &[u8]) -> bool {
    is_zeros(view.nonce, 40, 32)
        && is_zero_key(view.public_key, 76)
        && is_zeros(view.key_id, 124, 0)
        && is_zeros(view.valid_principals, 128, 0)
        && is_zeros(view.critical_options, 148, 0)
        && is_zeros(view.extensions, 152, 0)
        && is_zero_key(view.signature_key, 179)
        && is_zeros(view.signature, 234, 64)
        && view.sk.is_none()
        && view.signed.at == 0
        && Some(view.signed.bytes) == blob.get(..211)
}

fn is_seen(alloc: Global) -> Result<bool, Fail> {
    let blob = ManuallyDrop::new(blob_of(alloc, ZERO_LINE)?);
    match CertView::read(blob.as_slice()) {
        Ok((view, len)) => Ok(len == 298 && stands(&view, blob.as_slice())),
        Err(_) => Ok(false),
    }
}

#[test]
fn sees_the_parts_of_the_zero_certificate(rt: HostRuntime) -> Result<(), Fail> {
    assert!(rt; is_seen(rt.alloc())?);
    Ok(())
}

// Where each part ends, counted by hand.
static ENDS: [(usize, CertPart); 14] = [
    (36, CertPart::Name),
    (72, CertPart::Nonce),
    (108, CertPart::Subject),
    (116, CertPart::Serial),
    (120, CertPart::CertType),
    (124, CertPart::KeyId),
    (128, CertPart::Principals),
    (136, CertPart::After),
    (144, CertPart::Before),
    (148, CertPart::Options),
    (152, CertPart::Extensions),
    (156, CertPart::Reserved),
    (211, CertPart::IssuerString),
    (298, CertPart::Signature),
];

/// From one place on to another each cut is stuck at the part.
fn are_stuck(blob: &Bytes, from: usize, end: usize, part: CertPart) -> bool {
    let mut is_so = true;
    for len in from..end {
        let (front, _) = blob.as_slice().split_at(len.min(blob.as_slice().len()));
        is_so = is_so && CertView::stuck_at(front) == Some(part);
    }
    is_so
}

#[test]
fn is_stuck_where_the_bytes_are_cut(rt: HostRuntime) -> Result<(), Fail> {
    let blob = ManuallyDrop::new(blob_of(rt.alloc(), ZERO_LINE)?);
    let mut from = 0;
    for (end, part) in &ENDS {
        assert!(rt; are_stuck(&blob, from, *end, *part), "up to {end}");
        from = *end;
    }
    assert!(rt; CertView::stuck_at(blob.as_slice()).is_none());
    Ok(())
}
