//! The walk over a private key's blob, by its kind.

ghost use Rattle.std.specs.Prelude.{◌^◌, ◌<◌, length, IfOk, IfErr};
ghost use Rattle.picky_wire_base.specs.View.{end_of};
ghost use Rattle.picky_keys.specs.Blob.{key_type};
ghost use Rattle.picky_sshkey_blob.specs.Key.{IsPrivateKey};
ghost use Rattle.picky_sshkey_blob.specs.Blob.{private_rsa_fields, private_ec_fields, private_ed_fields};
ghost use Rattle.picky_sshkey_blob.specs.Blob.{private_sk_ecdsa_fields, private_sk_ed_fields};
ghost use Rattle.picky_sshkey_blob.specs.Blob.{private_key_fields, secret as secret_layout};
ghost use Rattle.picky_wire_base.specs.View.{SeenAt};
ghost use Rattle.picky_sshkey_blob.specs.View.{private_key_seen, PrivatePartsLie, IsPrivateRefusal};

use crate::view::PrivateView;
use crate::view_fields::{ed_key_in, ed_secret_in, kind_in};
use picky_keys::{EcCurve, KeyKind};
use picky_wire::{Stopped, byte_in, mpint_in, string_in, text_in};

/// The view of the private key's blob that stands at a place, and the place after it.
///
/// OpenSSH's PROTOCOL.key. Refuses, in order, by field: `Short`, `NotUtf8`, `Name`, `Length`.
#[tactic(auto, using(crate::proofs::ViewLemmas::seen_keeps))]
pub fn private_at<'a>(
    blob: &'a [u8],
    from: usize,
) -> Result<(PrivateView<'a>, usize), Stopped<'a, usize>>
    requires { length blob.now < 2 ^ 32 }
    ensures seen { SeenAt private_key_seen (PrivatePartsLie blob.now (end_of key_type blob.now from)) secret_layout blob.now from result }
    ensures is_key { IfOk result (λ found. IsPrivateKey (private_key_seen found.0)) }
    ensures is_refusal { IfErr result IsPrivateRefusal }
{
    key_at(blob, from)
}

#[tactic(auto, unfolding(crate::specs::Blob::secret))]
fn key_at<'a>(blob: &'a [u8], from: usize) -> Result<(PrivateView<'a>, usize), Stopped<'a, usize>>
    requires { length blob.now < 2 ^ 32 }
    ensures { SeenAt private_key_seen (PrivatePartsLie blob.now (end_of key_type blob.now from)) secret_layout blob.now from result }
{
    let (kind, next) = kind_in(blob, from)?;
    fields_at(blob, next, kind)
}

fn fields_at<'a>(
    blob: &'a [u8],
    from: usize,
    kind: KeyKind,
) -> Result<(PrivateView<'a>, usize), Stopped<'a, usize>>
    requires { length blob.now < 2 ^ 32 }
    ensures { SeenAt private_key_seen (PrivatePartsLie blob.now from) (private_key_fields kind) blob.now from result }
{
    match kind {
        KeyKind::Rsa => rsa_at(blob, from),
        KeyKind::Ec(curve) => ec_at(blob, from, curve),
        KeyKind::Ed(_) => ed_at(blob, from),
        KeyKind::SkEcdsaSha2NistP256 => sk_ecdsa_at(blob, from),
        KeyKind::SkEd25519 => sk_ed_at(blob, from),
    }
}

#[tactic(auto, unfolding(crate::specs::Blob::private_rsa_fields))]
fn rsa_at<'a>(blob: &'a [u8], from: usize) -> Result<(PrivateView<'a>, usize), Stopped<'a, usize>>
    requires { length blob.now < 2 ^ 32 }
    ensures { SeenAt private_key_seen (PrivatePartsLie blob.now from) private_rsa_fields blob.now from result }
{
    let (n, next) = mpint_in(blob, from, 1)?;
    let (e, next) = mpint_in(blob, next, 2)?;
    let (d, next) = mpint_in(blob, next, 3)?;
    let (iqmp, next) = mpint_in(blob, next, 4)?;
    let (p, next) = mpint_in(blob, next, 5)?;
    let (q, next) = mpint_in(blob, next, 6)?;
    Ok((
        PrivateView::Rsa {
            n,
            e,
            d,
            iqmp,
            p,
            q,
        },
        next,
    ))
}

#[tactic(auto, unfolding(crate::specs::Blob::private_ec_fields))]
fn ec_at<'a>(
    blob: &'a [u8],
    from: usize,
    curve: EcCurve,
) -> Result<(PrivateView<'a>, usize), Stopped<'a, usize>>
    requires { length blob.now < 2 ^ 32 }
    ensures { SeenAt private_key_seen (PrivatePartsLie blob.now from) (private_ec_fields curve) blob.now from result }
{
    let (_, next) = text_in(blob, from, 1)?;
    let (point, next) = string_in(blob, next, 2)?;
    let (secret, next) = mpint_in(blob, next, 3)?;
    Ok((
        PrivateView::Ec {
            curve,
            point,
            secret,
        },
        next,
    ))
}

#[tactic(auto, unfolding(crate::specs::Blob::private_ed_fields))]
fn ed_at<'a>(blob: &'a [u8], from: usize) -> Result<(PrivateView<'a>, usize), Stopped<'a, usize>>
    ensures { SeenAt private_key_seen (PrivatePartsLie blob.now from) private_ed_fields blob.now from result }
{
    let (public, next) = ed_key_in(blob, from)?;
    let (secret, next) = ed_secret_in(blob, next, public.bytes)?;
    Ok((PrivateView::Ed { secret, public }, next))
}

#[tactic(auto, unfolding(crate::specs::Blob::private_sk_ecdsa_fields))]
fn sk_ecdsa_at<'a>(
    blob: &'a [u8],
    from: usize,
) -> Result<(PrivateView<'a>, usize), Stopped<'a, usize>>
    ensures { SeenAt private_key_seen (PrivatePartsLie blob.now from) private_sk_ecdsa_fields blob.now from result }
{
    let (_, next) = text_in(blob, from, 1)?;
    let (point, next) = string_in(blob, next, 2)?;
    let (application, next) = text_in(blob, next, 3)?;
    let (flags, next) = byte_in(blob, next, 4)?;
    let (handle, next) = string_in(blob, next, 5)?;
    let (_, next) = string_in(blob, next, 6)?;
    Ok((
        PrivateView::SkEcdsaSha2NistP256 {
            point,
            application,
            flags,
            handle,
        },
        next,
    ))
}

#[tactic(auto, unfolding(crate::specs::Blob::private_sk_ed_fields))]
fn sk_ed_at<'a>(blob: &'a [u8], from: usize) -> Result<(PrivateView<'a>, usize), Stopped<'a, usize>>
    ensures { SeenAt private_key_seen (PrivatePartsLie blob.now from) private_sk_ed_fields blob.now from result }
{
    let (key, next) = ed_key_in(blob, from)?;
    let (application, next) = text_in(blob, next, 2)?;
    let (flags, next) = byte_in(blob, next, 3)?;
    let (handle, next) = string_in(blob, next, 4)?;
    let (_, next) = string_in(blob, next, 5)?;
    Ok((
        PrivateView::SkEd25519 {
            key,
            application,
            flags,
            handle,
        },
        next,
    ))
}
