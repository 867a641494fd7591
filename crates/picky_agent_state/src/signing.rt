//! A signature with an identity's key.

ghost use Rattle.std.specs.Prelude.{◌≡◌, ◌≤◌, ◌↔◌, ℕ, List, None, Some, IfOk};
ghost use Rattle.picky_keys.specs.declared.public_key.PublicKey.{PublicKey};
ghost use Rattle.picky_keys.specs.declared.algorithm.SignatureAlgorithm.{SignatureAlgorithm as Algorithm};
ghost use Rattle.picky_keys.specs.Key.{kind_of};
ghost use Rattle.picky_suite.specs.Asked.{IsAskedAtMost};
ghost use Rattle.picky_sshkey_blob.specs.Key.{public_part};
ghost use Rattle.picky_agent_state.specs.Kept.{Kept, machine};
ghost use Rattle.picky_agent_state.specs.Signing.{algorithm_for as algorithm_of, is_set as is_set_in};
ghost use Rattle.picky_agent_state.specs.Signing.{rsa_hash as rsa_hash_of, way_for as way_of};
ghost use Rattle.picky_agent_state.specs.Request.{sign_request};
ghost use Rattle.picky_agent_state.specs.Step.{Asks};

use crate::message_type;
use crate::reply::{failure, signed_of};
use picky_cert_builder::{format_of, private_issuer};
use picky_cert_parts::SshSignatureFormat;
use picky_keys::{EcCurve, HashAlgorithm, KeyKind, SignatureAlgorithm};
use picky_sshkey_blob::SshBasePrivateKey;
use picky_suite::{SignError, Signer};
use picky_wire::{Bytes, NoMemory};
use std::alloc::Global;

/// The hash of an RSA signature, by the flags.
fn rsa_hash(flags: u32) -> HashAlgorithm
    ensures { result ≡ rsa_hash_of flags }
{
    if flags & message_type::RSA_SHA2_256 != 0 {
        HashAlgorithm::SHA2_256
    } else if flags & message_type::RSA_SHA2_512 != 0 {
        HashAlgorithm::SHA2_512
    } else {
        HashAlgorithm::SHA1
    }
}

/// The algorithm by which a kind of key signs. A security key signs nothing here.
fn algorithm_for(kind: KeyKind, flags: u32) -> Option<SignatureAlgorithm>
    ensures { result ≡ algorithm_of kind flags }
{
    match kind {
        KeyKind::Rsa => Some(SignatureAlgorithm::RsaPkcs1v15(rsa_hash(flags))),
        KeyKind::Ec(EcCurve::NistP256) => Some(SignatureAlgorithm::Ecdsa(HashAlgorithm::SHA2_256)),
        KeyKind::Ec(EcCurve::NistP384) => Some(SignatureAlgorithm::Ecdsa(HashAlgorithm::SHA2_384)),
        KeyKind::Ec(EcCurve::NistP521) => Some(SignatureAlgorithm::Ecdsa(HashAlgorithm::SHA2_512)),
        KeyKind::Ed(_) => Some(SignatureAlgorithm::Ed25519),
        KeyKind::SkEcdsaSha2NistP256 | KeyKind::SkEd25519 => None,
    }
}

/// The same with the format of its signatures.
pub(crate) fn way_for(kind: KeyKind, flags: u32) -> Option<(SignatureAlgorithm, SshSignatureFormat)>
    ensures { result ≡ way_of kind flags }
{
    match algorithm_for(kind, flags) {
        Some(algorithm) => match format_of(kind, algorithm) {
            Some(format) => Some((algorithm, format)),
            None => None,
        },
        None => None,
    }
}

/// A signature of the message with the key; the failure for a security key, or where the signer failed. Refuses: `NoMemory`.
pub(crate) fn sign_with<G: Signer>(
    alloc: Global,
    signer: &mut G,
    key: &SshBasePrivateKey,
    flags: u32,
    message: &[u8],
) -> Result<Bytes, NoMemory>
    ensures asks { (kept : Kept) → IfOk result (λ reply. Asks (G.signs signer.old) (machine kept (G.faults signer.old))
        (sign_request (public_part key.now) message.now flags) (way_of (kind_of (public_part key.now)) flags) reply
        (machine kept (G.faults signer.new))) }
    ensures unasked { way_of (kind_of (public_part key.now)) flags ≡ None → signer.new ≡ signer.old }
    ensures signs { (k : PublicKey) (a : Algorithm) (m s : List ℕ) → G.signs signer.new k a m s ↔ G.signs signer.old k a m s }
    ensures never_falls { G.faults signer.old ≤ G.faults signer.new }
    ensures asked { IsAskedAtMost 1 G.calls signer.old signer.new }
{
    match way_for(key.kind(), flags) {
        Some((algorithm, format)) => ask(alloc, signer, key, algorithm, format, message),
        None => failure(alloc),
    }
}

/// The signer's signature in a format, or the failure where it failed. Refuses: `NoMemory`.
fn ask<G: Signer>(
    alloc: Global,
    signer: &mut G,
    key: &SshBasePrivateKey,
    algorithm: SignatureAlgorithm,
    format: SshSignatureFormat,
    message: &[u8],
) -> Result<Bytes, NoMemory>
    ensures asks { (kept : Kept) (flags : ℕ) → IfOk result (λ reply. Asks (G.signs signer.old) (machine kept (G.faults signer.old))
        (sign_request (public_part key.now) message.now flags) (Some (algorithm, format)) reply (machine kept (G.faults signer.new))) }
    ensures signs { (k : PublicKey) (a : Algorithm) (m s : List ℕ) → G.signs signer.new k a m s ↔ G.signs signer.old k a m s }
    ensures never_falls { G.faults signer.old ≤ G.faults signer.new }
    ensures asked { IsAskedAtMost 1 G.calls signer.old signer.new }
{
    let issuer = private_issuer(alloc, key)?;
    match signer.sign(alloc, &issuer, algorithm, message) {
        Ok(signature) => signed_of(alloc, format, &signature),
        Err(SignError::Failed) => failure(alloc),
        Err(SignError::NoMemory) => Err(NoMemory),
    }
}
