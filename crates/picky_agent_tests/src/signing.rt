//! Signatures: what a signer is asked, and what is replied.

ghost use Rattle.std.proofs.Common.{lit<};

use crate::keys::{KEYS, KeyRow, key_of, numbered_key};
use crate::talks::{FAILURE, LIST, SUCCESS, Talk, add, is_answered, list_of, sign, signed};
use picky_keys::{Issuer, PrivateKey, PublicKeyRef, SignatureAlgorithm};
use picky_suite::{HandedSigner, MemorySigner, SignError, Signer};
use picky_wire::Bytes;
use std::alloc::Global;
use std::mem::ManuallyDrop;
use std::test::Fail;

/// A signer that answers what it was asked: the algorithm, the last bytes of the public key and of the secret, and the message. It
/// counts its calls.
#[derive(Drop)]
struct Telling {
    calls: u32,
}

impl Signer for Telling {
    ghost signs = { λ _ _ _ _ _. Unit {0} };

    ghost faults = { λ _. 0 };

    ghost in_range = { λ _. lit< tt };

    fn sign(
        &mut self,
        alloc: Global,
        issuer: &Issuer,
        algorithm: SignatureAlgorithm,
        message: &[u8],
    ) -> Result<Bytes, SignError> {
        match told(alloc, algorithm, issuer, message) {
            Some(signature) => {
                self.calls = self.calls.saturating_add(1);
                Ok(signature)
            }
            None => Err(SignError::NoMemory),
        }
    }
}

fn told(
    alloc: Global,
    algorithm: SignatureAlgorithm,
    issuer: &Issuer,
    message: &[u8],
) -> Option<Bytes> {
    let last = last_byte(issuer);
    let secret = secret_byte(issuer);
    let text = format!(in alloc; "{algorithm:?} {last} {secret} ").ok()?;
    let mut signature = Vec::from_slice(alloc, text.as_bytes()).ok()?;
    signature.extend_from_slice(message).ok()?;
    Bytes::new(alloc, signature.as_slice()).ok()
}

/// The last byte of the last number of the public key.
fn last_byte(issuer: &Issuer) -> u8 {
    let bytes = match issuer.public() {
        PublicKeyRef::Rsa { n, .. } => n.bytes(),
        PublicKeyRef::Ec { point, .. } => point.as_slice(),
        PublicKeyRef::Ed { key } => key.as_slice(),
    };
    match bytes.last() {
        Some(byte) => *byte,
        None => 0,
    }
}

/// The last byte of the last secret number, and 0 where the issuer has none.
fn secret_byte(issuer: &Issuer) -> u8 {
    let bytes = match issuer {
        Issuer::Private(PrivateKey::Rsa { q, .. }) => q.bytes(),
        Issuer::Private(PrivateKey::Ec { secret, .. }) => secret.bytes(),
        Issuer::Private(PrivateKey::Ed { secret, .. }) => secret.as_slice(),
        Issuer::Public(_) => return 0,
    };
    match bytes.last() {
        Some(byte) => *byte,
        None => 0,
    }
}

// Flags, the algorithm by which RSA signs, and its format (RFC 8332, section 3). Other flags say nothing.
static RSA_FLAGS: [(u32, &str, &str); 9] = [
    (0, "RsaPkcs1v15(SHA1)", "ssh-rsa"),
    (1, "RsaPkcs1v15(SHA1)", "ssh-rsa"),
    (2, "RsaPkcs1v15(SHA2_256)", "rsa-sha2-256"),
    (3, "RsaPkcs1v15(SHA2_256)", "rsa-sha2-256"),
    (4, "RsaPkcs1v15(SHA2_512)", "rsa-sha2-512"),
    (6, "RsaPkcs1v15(SHA2_256)", "rsa-sha2-256"),
    (0xffff_fff9, "RsaPkcs1v15(SHA1)", "ssh-rsa"),
    (0xffff_fffd, "RsaPkcs1v15(SHA2_512)", "rsa-sha2-512"),
    (0xffff_ffff, "RsaPkcs1v15(SHA2_256)", "rsa-sha2-256"),
];

// The keys of the other types that sign, their algorithm, and its format (RFC 5656, section 6.2.1; RFC 8709, section 6).
static OTHER_TYPES: [(usize, &str, &str); 4] = [
    (1, "Ecdsa(SHA2_256)", "ecdsa-sha2-nistp256"),
    (2, "Ecdsa(SHA2_384)", "ecdsa-sha2-nistp384"),
    (3, "Ecdsa(SHA2_512)", "ecdsa-sha2-nistp521"),
    (4, "Ed25519", "ssh-ed25519"),
];

static FLAGS: [u32; 5] = [0, 1, 2, 4, 0xffff_ffff];

/// The last byte of the last secret number in a private blob: that of Ed25519 has the public key behind it.
fn secret_of(row: &KeyRow, private: &[u8]) -> u8 {
    let behind = if row.name == "Ed25519" { 33 } else { 1 };
    match private.get(private.len().saturating_sub(behind)) {
        Some(byte) => *byte,
        None => 0,
    }
}

/// Of the row's key a signature with these flags is asked by the algorithm, over the message, and has the format.
fn is_signed_by(
    alloc: Global,
    row: &KeyRow,
    flags: u32,
    algorithm: &str,
    format: &str,
) -> Result<bool, Fail> {
    let key = ManuallyDrop::new(key_of(alloc, row)?);
    let last = match key.public.as_slice().last() {
        Some(byte) => *byte,
        None => 0,
    };
    let secret = secret_of(row, key.private.as_slice());
    let wanted = ManuallyDrop::new(format!(in alloc; "{algorithm} {last} {secret} a message")?);
    let add = ManuallyDrop::new(add(alloc, key.private.as_slice(), b"k")?);
    let sign = ManuallyDrop::new(sign(alloc, key.public.as_slice(), b"a message", flags)?);
    let reply = ManuallyDrop::new(signed(alloc, format, wanted.as_str().as_bytes())?);
    let mut talk = ManuallyDrop::new(Talk::new(alloc));
    talk.say(add.as_slice(), SUCCESS)?;
    talk.say(sign.as_slice(), reply.as_slice())?;
    let mut signer = Telling { calls: 0 };
    Ok(is_answered(alloc, &mut signer, &*talk)? && signer.calls == 1)
}

#[test]
fn asks_for_the_algorithm_of_the_key(rt: HostRuntime) -> Result<(), Fail> {
    for (flags, algorithm, format) in &RSA_FLAGS {
        assert!(rt;
            is_signed_by(rt.alloc(), &KEYS[0], *flags, algorithm, format)?,
            "flags {flags}"
        );
    }
    for (place, algorithm, format) in &OTHER_TYPES {
        for flags in &FLAGS {
            assert!(rt;
                is_signed_at(rt.alloc(), *place, *flags, algorithm, format)?,
                "{format}, flags {flags}"
            );
        }
    }
    Ok(())
}

fn is_signed_at(
    alloc: Global,
    place: usize,
    flags: u32,
    algorithm: &str,
    format: &str,
) -> Result<bool, Fail> {
    match KEYS.get(place) {
        Some(row) => is_signed_by(alloc, row, flags, algorithm, format),
        None => Ok(false),
    }
}

/// What is said with a key whose signature is asked, and with no other, asks no signer.
fn asks_nobody(alloc: Global, row: &KeyRow, other: &[u8]) -> Result<bool, Fail> {
    let key = ManuallyDrop::new(key_of(alloc, row)?);
    let add = ManuallyDrop::new(add(alloc, key.private.as_slice(), b"k")?);
    let sign = ManuallyDrop::new(sign(alloc, other, b"m", 0)?);
    let mut talk = ManuallyDrop::new(Talk::new(alloc));
    talk.say(sign.as_slice(), FAILURE)?;
    talk.say(add.as_slice(), SUCCESS)?;
    talk.say(sign.as_slice(), FAILURE)?;
    let mut signer = Telling { calls: 0 };
    Ok(is_answered(alloc, &mut signer, &*talk)? && signer.calls == 0)
}

fn asks_nobody_for_another(alloc: Global, row: &KeyRow) -> Result<bool, Fail> {
    let key = ManuallyDrop::new(numbered_key(alloc, 1)?);
    asks_nobody(alloc, row, key.public.as_slice())
}

fn asks_nobody_for_itself(alloc: Global, row: &KeyRow) -> Result<bool, Fail> {
    let key = ManuallyDrop::new(key_of(alloc, row)?);
    asks_nobody(alloc, row, key.public.as_slice())
}

#[test]
fn asks_no_signer_for_other_keys(rt: HostRuntime) -> Result<(), Fail> {
    for row in &KEYS {
        assert!(rt; asks_nobody_for_another(rt.alloc(), row)?, "{}", row.name);
        if row.format.is_none() {
            assert!(rt; asks_nobody_for_itself(rt.alloc(), row)?, "{}", row.name);
        }
    }
    Ok(())
}

// printf message | openssl dgst -sha256
const DIGEST: &[u8] = b"\xab\x53\x0a\x13\xe4\x59\x14\x98\x2b\x79\xf9\xb7\xe3\xfb\xa9\x94\
    \xcf\xd1\xf3\xfb\x22\xf7\x1c\xea\x1a\xfb\xf0\x2b\x46\x0c\x6d\x1d";

/// Of three signatures the signer fails the second.
fn fails_once(alloc: Global) -> Result<bool, Fail> {
    let key = ManuallyDrop::new(numbered_key(alloc, 1)?);
    let add = ManuallyDrop::new(add(alloc, key.private.as_slice(), b"k")?);
    let one = ManuallyDrop::new(list_of(alloc, key.public.as_slice(), b"k")?);
    let sign = ManuallyDrop::new(sign(alloc, key.public.as_slice(), b"message", 0)?);
    let reply = ManuallyDrop::new(signed(alloc, "ssh-ed25519", DIGEST)?);
    let mut signer = ManuallyDrop::new(MemorySigner::new(alloc, &[1])?);
    let mut talk = ManuallyDrop::new(Talk::new(alloc));
    talk.say(add.as_slice(), SUCCESS)?;
    talk.say(sign.as_slice(), reply.as_slice())?;
    talk.say(sign.as_slice(), FAILURE)?;
    talk.say(LIST, one.as_slice())?;
    talk.say(sign.as_slice(), reply.as_slice())?;
    is_answered(alloc, &mut *signer, &*talk)
}

/// A signature that was handed in is the answer to each, an empty one too; without one each fails.
fn hands_out(alloc: Global, signature: Option<&[u8]>) -> Result<bool, Fail> {
    let key = ManuallyDrop::new(numbered_key(alloc, 1)?);
    let add = ManuallyDrop::new(add(alloc, key.private.as_slice(), b"k")?);
    let sign = ManuallyDrop::new(sign(alloc, key.public.as_slice(), b"message", 0)?);
    let mut talk = ManuallyDrop::new(Talk::new(alloc));
    talk.say(add.as_slice(), SUCCESS)?;
    match signature {
        Some(signature) => {
            let reply = ManuallyDrop::new(signed(alloc, "ssh-ed25519", signature)?);
            talk.say(sign.as_slice(), reply.as_slice())?;
            talk.say(sign.as_slice(), reply.as_slice())?;
            let bytes = Bytes::new(alloc, signature)?;
            let mut signer = ManuallyDrop::new(HandedSigner::new(Some(bytes)));
            is_answered(alloc, &mut *signer, &*talk)
        }
        None => {
            talk.say(sign.as_slice(), FAILURE)?;
            talk.say(sign.as_slice(), FAILURE)?;
            is_answered(alloc, &mut HandedSigner::new(None), &*talk)
        }
    }
}

#[test]
fn replies_what_the_signer_answers(rt: HostRuntime) -> Result<(), Fail> {
    assert!(rt; fails_once(rt.alloc())?);
    assert!(rt; hands_out(rt.alloc(), Some(b"a signature"))?);
    assert!(rt; hands_out(rt.alloc(), Some(b""))?);
    assert!(rt; hands_out(rt.alloc(), None)?);
    Ok(())
}
