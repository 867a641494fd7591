//! The secret in private bytes that aren't sealed, seen where it stands and then copied.

ghost use Rattle.std.specs.Prelude.{◌≡◌, ◌^◌, ◌<◌, ◌≤◌, ⊤, length, IfOk};
ghost use Rattle.picky_wire_base.specs.Flaw.{Flawed};
ghost use Rattle.picky_wire_base.specs.Magnitude.{IsMagnitude};
ghost use Rattle.picky_wire_base.specs.Mpint.{mpint};
ghost use Rattle.picky_wire_base.specs.View.{Seen, part_bytes, why_in, why_of};
ghost use Rattle.picky_wire_base.specs.Gives.{Gives};
ghost use Rattle.picky_ppk_parts.specs.Number.{padded_number as padded_of};
ghost use Rattle.picky_ppk_parts.specs.Secret.{rsa_secret, ppk_ed_secret, rsa_key as rsa_key_of};
ghost use Rattle.picky_ppk_parts.specs.PartsRefusal.{parts_why_error, key_with_secret as key_with_secret_of};
ghost use Rattle.picky_ppk_parts.specs.inner.View.{rsa_seen, ed_seen, AreNumbers};
ghost use Rattle.picky_keys.specs.declared.public_key.PublicKey.TheVariants as plain;

use crate::error::PuttyError;
use picky_keys::{EcCurve, PublicKey};
use picky_sshkey_blob::SshBasePrivateKey;
use picky_wire::{Bytes, IoKind, Mpint, NoMemory, Part, Stuck, mpint_at};
use std::alloc::Global;

/// How long the secret of Ed25519 is.
const SECRET_LEN: usize = 32;

/// The secret numbers of an RSA key, as slices of the private bytes.
#[derive(Clone, Copy)]
pub struct RsaParts<'a> {
    pub d: Part<'a>,
    pub p: Part<'a>,
    pub q: Part<'a>,
    pub iqmp: Part<'a>,
}

/// The private key of a public key and of the secret that the private bytes begin with.
///
/// Refuses, in order, by field: `IoError(UnexpectedEnd)`; `InvalidPrivateKeyData`, where an Ed25519 secret has more than
/// 32 bytes without its leading zeros. In bytes as short as these no number is too long.
pub fn key_with_secret(
    alloc: Global,
    public: PublicKey,
    private: &[u8],
) -> Result<SshBasePrivateKey, PuttyError>
    requires { length private.now < 2 ^ 32 }
    ensures { Gives PuttyError.NoMemory (λ key. key) result (key_with_secret_of public private.now) }
{
    match public {
        PublicKey::Rsa { e, n } => rsa_key(alloc, e, n, private),
        PublicKey::Ec { curve, point } => ec_key(alloc, curve, point, private),
        PublicKey::Ed { key } => ed_key(key, private),
    }
}

#[tactic(auto, using(crate::proofs::SecretLemmas::rsa_keys))]
fn rsa_key(
    alloc: Global,
    e: Mpint,
    n: Mpint,
    private: &[u8],
) -> Result<SshBasePrivateKey, PuttyError>
    requires { length private.now < 2 ^ 32 }
    ensures { Gives PuttyError.NoMemory (λ key. key) result (key_with_secret_of (plain.Rsa e n) private.now) }
{
    match rsa_at(private) {
        Ok((parts, _)) => Ok(rsa_copy(alloc, e, n, &parts)?),
        Err(stuck) => Err(private_bytes_refusal(stuck)),
    }
}

#[tactic(auto, using(crate::proofs::SecretLemmas::ec_keys))]
fn ec_key(
    alloc: Global,
    curve: EcCurve,
    point: Bytes,
    private: &[u8],
) -> Result<SshBasePrivateKey, PuttyError>
    requires { length private.now < 2 ^ 32 }
    ensures { Gives PuttyError.NoMemory (λ key. key) result (key_with_secret_of (plain.Ec curve point) private.now) }
{
    match mpint_at(private, 0) {
        Ok((part, _)) => {
            let secret = part.to_mpint(alloc)?;
            Ok(SshBasePrivateKey::Ec {
                curve,
                point,
                secret,
            })
        }
        Err(stuck) => Err(private_bytes_refusal(stuck)),
    }
}

#[tactic(auto, using(crate::proofs::SecretLemmas::ed_keys))]
fn ed_key(public: [u8; 32], private: &[u8]) -> Result<SshBasePrivateKey, PuttyError>
    requires { length private.now < 2 ^ 32 }
    ensures { result ≡ key_with_secret_of (plain.Ed public) private.now }
{
    match ed_at(private) {
        Ok((number, _)) => {
            let secret = padded(number.bytes);
            Ok(SshBasePrivateKey::Ed { secret, public })
        }
        Err(stuck) => Err(private_bytes_refusal(stuck)),
    }
}

/// The numbers of an RSA key that the private bytes begin with, and the place after them.
#[tactic(auto, unfolding(crate::specs::Secret::rsa_secret))]
fn rsa_at<'a>(private: &'a [u8]) -> Result<(RsaParts<'a>, usize), Stuck<'a>>
    requires { length private.now < 2 ^ 32 }
    ensures { Seen rsa_seen (λ _. ⊤) why_in rsa_secret private.now 0 result }
{
    let (d, next) = match mpint_at(private, 0) {
        Ok(found) => found,
        Err(stuck) => return Err(stuck),
    };
    let (p, next) = match mpint_at(private, next) {
        Ok(found) => found,
        Err(stuck) => return Err(stuck),
    };
    let (q, next) = match mpint_at(private, next) {
        Ok(found) => found,
        Err(stuck) => return Err(stuck),
    };
    let (iqmp, next) = match mpint_at(private, next) {
        Ok(found) => found,
        Err(stuck) => return Err(stuck),
    };
    Ok((RsaParts { d, p, q, iqmp }, next))
}

/// The number of the Ed25519 secret that the private bytes begin with, and the place after it.
#[tactic(auto, using(crate::proofs::EdLemmas::ed_at_front))]
fn ed_at<'a>(private: &'a [u8]) -> Result<(Part<'a>, usize), Stuck<'a>>
    requires { length private.now < 2 ^ 32 }
    ensures seen { Seen ed_seen (λ _. ⊤) why_in ppk_ed_secret private.now 0 result }
    ensures short { IfOk result (λ found. length found.0.bytes.now ≤ 32) }
{
    match mpint_at(private, 0) {
        Ok((number, next)) => {
            if number.bytes.len() > SECRET_LEN {
                return Err(Stuck::Length);
            }
            Ok((number, next))
        }
        Err(stuck) => Err(stuck),
    }
}

/// The number's bytes after zeros, 32 in all.
fn padded(number: &[u8]) -> [u8; 32]
    requires { length number.now ≤ 32 }
    ensures { result ≡ padded_of number.now }
{
    let mut secret = [0; SECRET_LEN];
    let (_, back) = secret.split_at_mut(SECRET_LEN - number.len());
    back.copy_from_slice(number);
    secret
}

/// A copy of the numbers, with the public ones.
fn rsa_copy(
    alloc: Global,
    e: Mpint,
    n: Mpint,
    parts: &RsaParts<'_>,
) -> Result<SshBasePrivateKey, NoMemory>
    requires { AreNumbers (rsa_seen parts.now) }
    ensures { IfOk result (λ key. key ≡ rsa_key_of e n (rsa_seen parts.now)) }
{
    let d = parts.d.to_mpint(alloc)?;
    let p = parts.p.to_mpint(alloc)?;
    let q = parts.q.to_mpint(alloc)?;
    let iqmp = parts.iqmp.to_mpint(alloc)?;
    Ok(SshBasePrivateKey::Rsa {
        n,
        e,
        d,
        iqmp,
        p,
        q,
    })
}

/// The error of private bytes that are stuck at a field.
fn private_bytes_refusal(stuck: Stuck<'_>) -> PuttyError
    ensures { result ≡ parts_why_error (why_of stuck.entry) }
{
    match stuck {
        Stuck::Short => PuttyError::IoError(IoKind::UnexpectedEnd),
        Stuck::NotUtf8 | Stuck::Name(_) | Stuck::Length | Stuck::Number(_) => {
            PuttyError::InvalidPrivateKeyData
        }
    }
}
