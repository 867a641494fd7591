//! The sample key with each number, and its comment.

ghost use Rattle.std.specs.Prelude.{◌≡◌, ◌<◌, ◌≤◌, ◌-◌, ◌^◌, ◌∷◌, IfOk, OnOk, length};
ghost use Rattle.picky_wire_base.specs.Zeros.{without_zeros};
ghost use Rattle.picky_convert.specs.Generator.{state_after, generated};
ghost use Rattle.picky_convert.specs.SampleKeys.{application as application_of, comment_at, drawn_key};
ghost use Rattle.picky_convert.specs.SampleKeys.{exponent as exponent_of, kind_at, meaning_at};
ghost use Rattle.picky_convert.specs.SampleKeys.{numbers_len as numbers_len_of, secret_len as secret_len_of};

use crate::generator::Generator;
use picky_key_text::{Key, Meaning};
use picky_keys::{EcCurve, EdAlgorithm, KeyKind};
use picky_sshkey_blob::SshBasePrivateKey;
use picky_wire::{Bytes, Mpint, Text};
use std::alloc::{AllocError, Global};

/// The key with a number, and its comment. Refuses: want of memory.
pub fn meaning_of(alloc: Global, number: u16) -> Result<Meaning, AllocError>
    ensures { IfOk result (λ meaning. meaning ≡ meaning_at number) }
{
    let comment = comment(alloc, number)?;
    let key = key(alloc, kind_of(number), Generator::of_key(number))?;
    Ok(Meaning {
        key: Key::Private(key),
        comment,
    })
}

/// The kind of the key with a number.
pub fn kind_of(number: u16) -> KeyKind
    ensures { result ≡ kind_at number }
{
    match number % 7 {
        0 => KeyKind::Rsa,
        1 => KeyKind::Ec(EcCurve::NistP256),
        2 => KeyKind::Ec(EcCurve::NistP384),
        3 => KeyKind::Ec(EcCurve::NistP521),
        4 => KeyKind::Ed(EdAlgorithm::Ed25519),
        5 => KeyKind::SkEcdsaSha2NistP256,
        _ => KeyKind::SkEd25519,
    }
}

/// Its comment.
#[tactic(auto, unfolding(crate::specs::SampleKeys::comment_at))]
fn comment(alloc: Global, number: u16) -> Result<Text, AllocError>
    ensures { IfOk result (λ comment. comment ≡ comment_at number) }
{
    let comment = format!(in alloc; "key-{number}")?;
    Ok(Text::from_string(comment))
}

/// The key of a kind.
fn key(alloc: Global, kind: KeyKind, source: Generator) -> Result<SshBasePrivateKey, AllocError>
    ensures { IfOk result (λ key. key ≡ drawn_key kind source.state) }
{
    match kind {
        KeyKind::Rsa => rsa(alloc, source),
        KeyKind::Ec(curve) => ec(alloc, curve, source),
        KeyKind::Ed(_) => Ok(ed(source)),
        KeyKind::SkEcdsaSha2NistP256 => sk_ecdsa(alloc, source),
        KeyKind::SkEd25519 => sk_ed(alloc, source),
    }
}

fn rsa(alloc: Global, source: Generator) -> Result<SshBasePrivateKey, AllocError>
    ensures { IfOk result (λ key. key ≡ drawn_key KeyKind.Rsa source.state) }
{
    let mut source = source;
    let n = number(alloc, &mut source, 256)?;
    let d = number(alloc, &mut source, 256)?;
    let iqmp = number(alloc, &mut source, 128)?;
    let p = number(alloc, &mut source, 128)?;
    let q = number(alloc, &mut source, 128)?;
    let e = exponent(alloc)?;
    Ok(SshBasePrivateKey::Rsa {
        n,
        e,
        d,
        iqmp,
        p,
        q,
    })
}

fn ec(alloc: Global, curve: EcCurve, source: Generator) -> Result<SshBasePrivateKey, AllocError>
    ensures { IfOk result (λ key. key ≡ drawn_key (KeyKind.Ec curve) source.state) }
{
    let mut source = source;
    let point = point(alloc, &mut source, numbers_len(curve))?;
    let secret = number(alloc, &mut source, secret_len(curve))?;
    Ok(SshBasePrivateKey::Ec {
        curve,
        point,
        secret,
    })
}

fn ed(source: Generator) -> SshBasePrivateKey
    ensures { result ≡ drawn_key (KeyKind.Ed EdAlgorithm.Ed25519) source.state }
{
    let mut source = source;
    let secret = source.array();
    let public = source.array();
    SshBasePrivateKey::Ed { secret, public }
}

fn sk_ecdsa(alloc: Global, source: Generator) -> Result<SshBasePrivateKey, AllocError>
    ensures { IfOk result (λ key. key ≡ drawn_key KeyKind.SkEcdsaSha2NistP256 source.state) }
{
    let mut source = source;
    let point = point(alloc, &mut source, 64)?;
    let handle = string(alloc, &mut source, 64)?;
    let application = application(alloc)?;
    Ok(SshBasePrivateKey::SkEcdsaSha2NistP256 {
        point,
        application,
        flags: 1,
        handle,
    })
}

fn sk_ed(alloc: Global, source: Generator) -> Result<SshBasePrivateKey, AllocError>
    ensures { IfOk result (λ key. key ≡ drawn_key KeyKind.SkEd25519 source.state) }
{
    let mut source = source;
    let key = source.array();
    let handle = string(alloc, &mut source, 64)?;
    let application = application(alloc)?;
    Ok(SshBasePrivateKey::SkEd25519 {
        key,
        application,
        flags: 1,
        handle,
    })
}

/// How many bytes a point's two numbers have.
fn numbers_len(curve: EcCurve) -> usize
    ensures of_curve { result ≡ numbers_len_of curve }
    ensures short { result ≤ 256 }
{
    match curve {
        EcCurve::NistP256 => 64,
        EcCurve::NistP384 => 96,
        EcCurve::NistP521 => 132,
    }
}

/// How many a secret has.
fn secret_len(curve: EcCurve) -> usize
    ensures of_curve { result ≡ secret_len_of curve }
    ensures short { result ≤ 256 }
{
    match curve {
        EcCurve::NistP256 => 32,
        EcCurve::NistP384 => 48,
        EcCurve::NistP521 => 66,
    }
}

/// 65537.
fn exponent(alloc: Global) -> Result<Mpint, AllocError>
    ensures { IfOk result (λ e. e ≡ exponent_of) }
{
    let bytes = Vec::from_slice(alloc, &[1, 0, 1])?;
    Ok(without_zeros(bytes))
}

#[tactic(auto, unfolding(crate::specs::SampleKeys::application))]
fn application(alloc: Global) -> Result<Text, AllocError>
    ensures { IfOk result (λ text. text ≡ application_of) }
{
    let text = String::from_str(alloc, "ssh:")?;
    Ok(Text::from_string(text))
}

/// The next bytes as a number.
fn number(alloc: Global, source: &mut Generator, len: usize) -> Result<Mpint, AllocError>
    requires { len ≤ 256 }
    ensures number { IfOk result (λ number. number ≡ without_zeros (generated len source.old.state)) }
    ensures state { OnOk result (source.new.state ≡ state_after len source.old.state) }
{
    let bytes = source.bytes(alloc, len)?;
    Ok(without_zeros(bytes))
}

/// The next bytes.
fn string(alloc: Global, source: &mut Generator, len: usize) -> Result<Bytes, AllocError>
    requires { len ≤ 256 }
    ensures bytes { IfOk result (λ bytes. bytes ≡ generated len source.old.state) }
    ensures state { OnOk result (source.new.state ≡ state_after len source.old.state) }
{
    let bytes = source.bytes(alloc, len)?;
    Ok(Bytes::from_vec(bytes))
}

/// The next bytes as a point's two numbers.
fn point(alloc: Global, source: &mut Generator, len: usize) -> Result<Bytes, AllocError>
    requires { len ≤ 256 }
    ensures point { IfOk result (λ point. point ≡ 4 ∷ generated len source.old.state) }
    ensures state { OnOk result (source.new.state ≡ state_after len source.old.state) }
{
    let mut bytes = Vec::from_slice(alloc, &[4])?;
    source.append(&mut bytes, len)?;
    Ok(Bytes::from_vec(bytes))
}

/// A number without its leading zeros.
fn without_zeros(bytes: Vec<u8>) -> Mpint
    requires { length bytes.items < 2 ^ 32 - 1 }
    ensures { result ≡ without_zeros bytes.items }
{
    match Mpint::from_vec(bytes) {
        Ok(number) => number,
        Err(_) => unreachable!(),
    }
}
