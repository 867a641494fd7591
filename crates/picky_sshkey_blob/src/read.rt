//! The fields of a private key's blob, read from a source.

ghost use Rattle.std.specs.Prelude.{◌≡◌, ◌==◌, ◌&&◌, nat_le, length, take, drop, bytes_eq, Some, None, if◌then◌else◌};
ghost use Rattle.picky_wire.specs.Flaws.{TakesLayout};
ghost use Rattle.picky_keys.specs.Blob.{ed_key};
ghost use Rattle.picky_sshkey_blob.specs.Blob.{ed_secret, private_rsa_fields, private_ec_fields, private_ed_fields};
ghost use Rattle.picky_sshkey_blob.specs.Blob.{private_sk_ecdsa_fields};
ghost use Rattle.picky_sshkey_blob.specs.Blob.{private_sk_ed_fields, private_key_fields};
ghost use Rattle.picky_sshkey_blob.specs.inner.Stop.{secret_stop};

use crate::key::SshBasePrivateKey;
use picky_keys::{EcCurve, KeyKind};
use picky_wire::{Source, Stop, take_byte, take_bytes, take_mpint, take_text};
use std::alloc::Global;

/// How long the secret of Ed25519 is.
const SECRET_LEN: usize = 32;

/// The key whose fields follow the name of its kind.
/// Refuses, in order, by field: `Fault`, `Short`, `NotUtf8`, `Length`, `Magic` for the secret of Ed25519, `TooLong`.
pub fn take_fields<S: Source>(
    alloc: Global,
    stream: &mut S,
    kind: KeyKind,
) -> Result<SshBasePrivateKey, Stop>
    ensures { TakesLayout S.tells S.left S.known S.faults secret_stop (private_key_fields kind) result stream.old stream.new }
{
    match kind {
        KeyKind::Rsa => take_rsa(alloc, stream),
        KeyKind::Ec(curve) => take_ec(alloc, stream, curve),
        KeyKind::Ed(_) => take_ed(alloc, stream),
        KeyKind::SkEcdsaSha2NistP256 => take_sk_ecdsa(alloc, stream),
        KeyKind::SkEd25519 => take_sk_ed(alloc, stream),
    }
}

#[tactic(auto, unfolding(crate::specs::Blob::private_rsa_fields))]
fn take_rsa<S: Source>(alloc: Global, stream: &mut S) -> Result<SshBasePrivateKey, Stop>
    ensures { TakesLayout S.tells S.left S.known S.faults secret_stop private_rsa_fields result stream.old stream.new }
{
    let n = take_mpint(alloc, stream)?;
    let e = take_mpint(alloc, stream)?;
    let d = take_mpint(alloc, stream)?;
    let iqmp = take_mpint(alloc, stream)?;
    let p = take_mpint(alloc, stream)?;
    let q = take_mpint(alloc, stream)?;
    Ok(SshBasePrivateKey::Rsa {
        n,
        e,
        d,
        iqmp,
        p,
        q,
    })
}

#[tactic(auto, unfolding(crate::specs::Blob::private_ec_fields))]
fn take_ec<S: Source>(
    alloc: Global,
    stream: &mut S,
    curve: EcCurve,
) -> Result<SshBasePrivateKey, Stop>
    ensures { TakesLayout S.tells S.left S.known S.faults secret_stop (private_ec_fields curve) result stream.old stream.new }
{
    take_text(alloc, stream)?;
    let point = take_bytes(alloc, stream)?;
    let secret = take_mpint(alloc, stream)?;
    Ok(SshBasePrivateKey::Ec {
        curve,
        point,
        secret,
    })
}

#[tactic(auto, unfolding(crate::specs::Blob::private_ed_fields))]
fn take_ed<S: Source>(alloc: Global, stream: &mut S) -> Result<SshBasePrivateKey, Stop>
    ensures { TakesLayout S.tells S.left S.known S.faults secret_stop private_ed_fields result stream.old stream.new }
{
    let public = take_ed_key(alloc, stream)?;
    let secret = take_ed_secret(alloc, stream, &public)?;
    Ok(SshBasePrivateKey::Ed { secret, public })
}

#[tactic(auto, unfolding(crate::specs::Blob::private_sk_ecdsa_fields))]
fn take_sk_ecdsa<S: Source>(alloc: Global, stream: &mut S) -> Result<SshBasePrivateKey, Stop>
    ensures { TakesLayout S.tells S.left S.known S.faults secret_stop private_sk_ecdsa_fields result stream.old stream.new }
{
    take_text(alloc, stream)?;
    let point = take_bytes(alloc, stream)?;
    let application = take_text(alloc, stream)?;
    let flags = take_byte(stream)?;
    let handle = take_bytes(alloc, stream)?;
    take_bytes(alloc, stream)?;
    Ok(SshBasePrivateKey::SkEcdsaSha2NistP256 {
        point,
        application,
        flags,
        handle,
    })
}

#[tactic(auto, unfolding(crate::specs::Blob::private_sk_ed_fields))]
fn take_sk_ed<S: Source>(alloc: Global, stream: &mut S) -> Result<SshBasePrivateKey, Stop>
    ensures { TakesLayout S.tells S.left S.known S.faults secret_stop private_sk_ed_fields result stream.old stream.new }
{
    let key = take_ed_key(alloc, stream)?;
    let application = take_text(alloc, stream)?;
    let flags = take_byte(stream)?;
    let handle = take_bytes(alloc, stream)?;
    take_bytes(alloc, stream)?;
    Ok(SshBasePrivateKey::SkEd25519 {
        key,
        application,
        flags,
        handle,
    })
}

/// A public key of Ed25519.
#[tactic(auto, unfolding(picky_keys::specs::Blob::ed_key))]
fn take_ed_key<S: Source>(alloc: Global, stream: &mut S) -> Result<[u8; 32], Stop>
    ensures { TakesLayout S.tells S.left S.known S.faults secret_stop (ed_key 1) result stream.old stream.new }
{
    let bytes = take_bytes(alloc, stream)?;
    match ed25519_key_of(bytes.as_slice()) {
        Some(key) => Ok(key),
        None => Err(Stop::Length),
    }
}

/// The secret of Ed25519, before the copy of the public key.
#[tactic(auto, unfolding(crate::specs::Blob::ed_secret))]
fn take_ed_secret<S: Source>(
    alloc: Global,
    stream: &mut S,
    public: &[u8; 32],
) -> Result<[u8; 32], Stop>
    ensures { TakesLayout S.tells S.left S.known S.faults secret_stop (ed_secret public.now) result stream.old stream.new }
{
    let both = take_bytes(alloc, stream)?;
    match secret_before(both.as_slice(), public) {
        Some(secret) => Ok(secret),
        None => Err(Stop::Magic),
    }
}

/// The bytes as a key, where they are 32.
fn ed25519_key_of(bytes: &[u8]) -> Option<[u8; 32]>
    ensures { result ≡ (if length bytes.now == 32 then Some bytes.now else None) }
{
    <[u8; 32]>::try_from(bytes).ok()
}

/// The 32 bytes that stand before the copy, where they do.
fn secret_before(both: &[u8], public: &[u8]) -> Option<[u8; 32]>
    ensures { result ≡ (if nat_le 32 (length both.now) && bytes_eq (drop 32 both.now) public.now then Some (take 32 both.now) else None) }
{
    if both.len() < SECRET_LEN {
        return None;
    }
    let (secret, copy) = both.split_at(SECRET_LEN);
    if copy != public {
        return None;
    }
    ed25519_key_of(secret)
}
