//! Certificates converted: a line means its subject's public key and its comment.

use crate::answers::{ends_in, gives};
use picky_cert_rows::{CertRow, ROW_COUNT, ZERO_LINE, cert_row};
use picky_conversion::{Target, convert};
use picky_ppk::{PpkEncryptionConfig, PpkVersion};
use picky_suite::{HandedSigner, PlainSuite};
use picky_target::ConvertError;
use picky_wire::Text;
use std::alloc::{AllocError, Global};
use std::mem::ManuallyDrop;
use std::test::Fail;

/// The conversion without passphrases and fresh bytes.
pub fn converted(alloc: Global, line: &str, target: Target) -> Result<Text, ConvertError> {
    convert(
        alloc,
        &mut PlainSuite::new(),
        &mut HandedSigner::new(None),
        line,
        None,
        &target,
        None,
        &[],
    )
}

/// The second line is the public key's for the first.
fn is_public(alloc: Global, line: &str, public: &str) -> bool {
    let text = ManuallyDrop::new(converted(alloc, line, Target::OpenSshPublic));
    match &*text {
        Ok(text) => text.as_str() == public,
        Err(_) => false,
    }
}

/// It is the line of the subject's key and the certificate's comment.
fn is_subjects(alloc: Global, row: &CertRow) -> Result<bool, AllocError> {
    let public = format!(in alloc; "{} {}\r\n", row.public_key, row.comment)?;
    let public = ManuallyDrop::new(public);
    Ok(is_public(alloc, row.line, public.as_str()))
}

// base64 of s(b"ssh-ed25519") + s(bytes(32))
const PUBLIC_LINE: &str =
    "ssh-ed25519 AAAAC3NzaC1lZDI1NTE5AAAAIAAAAAAAAAAAAAAAAAAAAAAAAAAAAAAAAAAAAAAAAAAA host\r\n";

#[test]
fn writes_the_subjects_public_key(rt: HostRuntime) -> Result<(), Fail> {
    for number in 0..ROW_COUNT {
        let row = cert_row(number);
        assert!(rt; is_subjects(rt.alloc(), row)?, "{}", row.name);
    }
    Ok(())
}

/// PuTTY's public file for the one line is that for the other.
fn are_alike(alloc: Global, line: &str, other: &str) -> bool {
    let text = ManuallyDrop::new(converted(alloc, line, Target::PuttyPublic));
    match &*text {
        Ok(text) => gives(converted(alloc, other, Target::PuttyPublic), text),
        Err(_) => false,
    }
}

#[test]
fn writes_the_same_as_for_the_public_key(rt: HostRuntime) {
    assert!(rt; is_public(rt.alloc(), ZERO_LINE, PUBLIC_LINE));
    assert!(rt; are_alike(rt.alloc(), ZERO_LINE, PUBLIC_LINE));
}

/// The target keeps a secret, which the zero certificate has none of.
fn is_private(alloc: Global, target: Target) -> bool {
    ends_in(
        Some(ConvertError::NoPrivateKey),
        converted(alloc, ZERO_LINE, target),
    )
}

#[test]
fn makes_no_private_file_of_a_certificate(rt: HostRuntime) {
    let config = PpkEncryptionConfig::default();
    assert!(rt; is_private(rt.alloc(), Target::OpenSsh));
    assert!(rt; is_private(rt.alloc(), Target::Ppk(PpkVersion::V2, config)));
    assert!(rt; is_private(rt.alloc(), Target::Ppk(PpkVersion::V3, config)));
}
