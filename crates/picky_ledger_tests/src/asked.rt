//! The certificate that a request asks for, by the kinds of the subject's key and of the issuer's.

use picky_cert_builder::{IssuerKey, SshCertificateBuilder};
use picky_cert_parts::{SshCertKeyType, SshCertType};
use picky_key_rows::KEY_ROWS;
use picky_keys::{
    EcCurve, EdAlgorithm, HashAlgorithm, KeyKind, SignatureAlgorithm, SshBasePublicKey,
    SshPublicKey,
};
use picky_request::{CertRequestLine, algorithm_by, type_for};
use picky_wire::{List, NoMemory, Text};
use std::alloc::Global;
use std::mem::ManuallyDrop;
use std::test::Fail;

/// A kind of key, the name of its certificates' type, and the algorithm by which it signs certificates.
type Kind = (KeyKind, &'static str, Option<SignatureAlgorithm>);

// OpenSSH's PROTOCOL.certkeys has the names; RFC 5656, section 6.2.1, the digest of each curve. In the order of
// picky_key_rows::KEY_ROWS.
static KINDS: [Kind; 7] = [
    (
        KeyKind::Rsa,
        "ssh-rsa-cert-v01@openssh.com",
        Some(SignatureAlgorithm::RsaPkcs1v15(HashAlgorithm::SHA2_512)),
    ),
    (
        KeyKind::Ec(EcCurve::NistP256),
        "ecdsa-sha2-nistp256-cert-v01@openssh.com",
        Some(SignatureAlgorithm::Ecdsa(HashAlgorithm::SHA2_256)),
    ),
    (
        KeyKind::Ec(EcCurve::NistP384),
        "ecdsa-sha2-nistp384-cert-v01@openssh.com",
        Some(SignatureAlgorithm::Ecdsa(HashAlgorithm::SHA2_384)),
    ),
    (
        KeyKind::Ec(EcCurve::NistP521),
        "ecdsa-sha2-nistp521-cert-v01@openssh.com",
        Some(SignatureAlgorithm::Ecdsa(HashAlgorithm::SHA2_512)),
    ),
    (
        KeyKind::Ed(EdAlgorithm::Ed25519),
        "ssh-ed25519-cert-v01@openssh.com",
        Some(SignatureAlgorithm::Ed25519),
    ),
    (
        KeyKind::SkEcdsaSha2NistP256,
        "sk-ecdsa-sha2-nistp256-cert-v01@openssh.com",
        None,
    ),
    (
        KeyKind::SkEd25519,
        "sk-ssh-ed25519-cert-v01@openssh.com",
        None,
    ),
];

#[test]
fn has_a_type_and_an_algorithm_for_each_kind(rt: HostRuntime) -> Result<(), Fail> {
    for (kind, name, algorithm) in &KINDS {
        assert!(rt; type_for(*kind).as_str() == *name, "{name}");
        assert!(rt; algorithm_by(*kind) == *algorithm, "{name}");
    }
    Ok(())
}

fn public_key(alloc: Global, line: &str) -> Result<ManuallyDrop<SshPublicKey>, Fail> {
    Ok(ManuallyDrop::new(SshPublicKey::from_str(alloc, line)?))
}

fn says(text: &Option<Text>, wanted: &str) -> bool {
    match text {
        Some(text) => text.as_str() == wanted,
        None => false,
    }
}

fn has_two(names: &Option<List<Text>>, one: &str, two: &str) -> bool {
    match names {
        Some(names) => match names.as_slice() {
            [first, second] => first.as_str() == one && second.as_str() == two,
            _ => false,
        },
        None => false,
    }
}

/// The subject's key is this one, without a comment.
fn is_subject(key: &Option<SshPublicKey>, wanted: &SshPublicKey) -> bool {
    match key {
        Some(key) => key.inner_key == wanted.inner_key && key.comment.as_str() == "",
        None => false,
    }
}

fn is_issuer(issuer: &Option<IssuerKey>, wanted: &SshBasePublicKey) -> bool {
    match issuer {
        Some(IssuerKey::Public(key)) => key == wanted,
        Some(IssuerKey::Private(_)) | None => false,
    }
}

/// What is asked for by `r1 client b,a 5 10` and the subject's line.
fn is_asked(draft: &SshCertificateBuilder) -> bool {
    draft.serial == Some(7)
        && draft.cert_type == Some(SshCertType::Client)
        && says(&draft.key_id, "r1")
        && has_two(&draft.valid_principals, "b", "a")
        && draft.valid_after.map(|time| time.0) == Some(5)
        && draft.valid_before.map(|time| time.0) == Some(10)
        && draft.critical_options.is_none()
        && draft.extensions.is_none()
}

fn draft_of(
    alloc: Global,
    line: &str,
    issuer: &SshBasePublicKey,
) -> Result<Option<SshCertificateBuilder>, NoMemory> {
    match CertRequestLine::from_str(alloc, line)? {
        Some(request) => match request.builder(alloc, issuer, 7) {
            Ok(draft) => Ok(Some(draft)),
            Err(NoMemory) => Err(NoMemory),
        },
        None => Ok(None),
    }
}

/// A certificate for this key, issued by this one, is of the type and signed by the algorithm.
fn drafts(
    alloc: Global,
    subject: &str,
    issuer: &str,
    name: SshCertKeyType,
    algorithm: Option<SignatureAlgorithm>,
) -> Result<bool, Fail> {
    let key = public_key(alloc, subject)?;
    let issuer = public_key(alloc, issuer)?;
    let line = ManuallyDrop::new(format!(in alloc; "r1 client b,a 5 10 {subject}")?);
    let draft = ManuallyDrop::new(draft_of(alloc, line.as_str(), &issuer.inner_key)?);
    match &*draft {
        Some(draft) => Ok(
            is_asked(draft)
                && draft.cert_key_type == Some(name)
                && is_subject(&draft.public_key, &key)
                && is_issuer(&draft.issuer, &issuer.inner_key)
                && draft.signature_algo == algorithm
                && says(&draft.comment, key.comment.as_str()),
        ),
        None => Ok(false),
    }
}

#[test]
fn drafts_what_is_asked_for(rt: HostRuntime) -> Result<(), Fail> {
    let keys = KEY_ROWS.iter().zip(&KINDS);
    for (subject, (kind, name, _)) in keys {
        for (issuer, (_, _, algorithm)) in KEY_ROWS.iter().zip(&KINDS) {
            assert!(rt;
                drafts(
                    rt.alloc(),
                    subject.line,
                    issuer.line,
                    type_for(*kind),
                    *algorithm
                )?,
                "{name} by {}",
                issuer.name
            );
        }
    }
    Ok(())
}
