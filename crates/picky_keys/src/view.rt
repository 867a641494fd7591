//! A public key's blob, seen where it stands: its parts are slices of it.

ghost use Rattle.std.specs.Prelude.{◌≡◌, ◌^◌, ◌<◌, ⊤, length, IfOk};
ghost use Rattle.picky_wire_base.specs.View.{Seen, Lies, end_of, part_bytes, why_in};
ghost use Rattle.picky_keys.specs.Blob.{key_type, ed_key, rsa_fields, ec_fields, ed_fields, sk_ecdsa_fields};
ghost use Rattle.picky_keys.specs.Blob.{sk_ed_fields, public_key_fields, blob as blob_layout};
ghost use Rattle.picky_keys.specs.Key.{IsEdKey, IsKey};
ghost use Rattle.picky_keys.specs.View.{key_seen, PartsLie};

use crate::curve::EcCurve;
use crate::key::SshBasePublicKey;
use crate::kind::KeyKind;
use picky_wire::{NoMemory, Part, Stuck, both, mpint_at, sized_at, string_at, text_at, word_at};
use std::alloc::Global;

/// A public key whose parts are slices of its blob.
#[derive(Clone, Copy, Debug, PartialEq, Eq)]
pub enum PublicView<'a> {
    Rsa {
        e: Part<'a>,
        n: Part<'a>,
    },
    Ec {
        curve: EcCurve,
        point: Part<'a>,
    },
    Ed {
        key: Part<'a>,
    },
    SkEcdsaSha2NistP256 {
        point: Part<'a>,
        application: Part<'a>,
    },
    SkEd25519 {
        key: Part<'a>,
        application: Part<'a>,
    },
}

impl<'a> PublicView<'a> {
    /// The view of the blob that the bytes begin with, and how many bytes it takes.
    ///
    /// RFC 4253, section 6.6. Refuses, in order, by field: `Short`, `NotUtf8`, `Name`, `Length`.
    #[tactic(auto, using(crate::proofs::ViewLemmas::seen_is_key))]
    pub fn read(blob: &'a [u8]) -> Result<(PublicView<'a>, usize), Stuck<'a>>
        requires { length blob.now < 2 ^ 32 }
        ensures seen { Seen key_seen (PartsLie blob.now (end_of key_type blob.now 0)) why_in blob_layout blob.now 0 result }
        ensures is_key { IfOk result (λ found. IsKey (key_seen found.0)) }
    {
        key_at(blob, 0)
    }

    /// A copy of the key. Refuses: `NoMemory`.
    pub fn to_key(&self, alloc: Global) -> Result<SshBasePublicKey, NoMemory>
        requires { IsKey (key_seen self.now) }
        ensures { IfOk result (λ key. key ≡ key_seen self.now) }
    {
        match self {
            PublicView::Rsa { e, n } => {
                let (e, n) = both(e.to_mpint(alloc), n.to_mpint(alloc))?;
                Ok(SshBasePublicKey::Rsa { e, n })
            }
            PublicView::Ec { curve, point } => {
                let point = point.to_bytes(alloc)?;
                Ok(SshBasePublicKey::Ec {
                    curve: *curve,
                    point,
                })
            }
            PublicView::Ed { key } => {
                let key = ed_key_of(key);
                Ok(SshBasePublicKey::Ed { key })
            }
            PublicView::SkEcdsaSha2NistP256 { point, application } => {
                let (point, application) = both(point.to_bytes(alloc), application.to_text(alloc))?;
                Ok(SshBasePublicKey::SkEcdsaSha2NistP256 { point, application })
            }
            PublicView::SkEd25519 { key, application } => {
                let key = ed_key_of(key);
                let application = application.to_text(alloc)?;
                Ok(SshBasePublicKey::SkEd25519 { key, application })
            }
        }
    }
}

/// The view of the blob that stands at a place, and the place after it.
///
/// RFC 4253, section 6.6. Refuses, in order, by field: `Short`, `NotUtf8`, `Name`, `Length`.
#[tactic(auto, unfolding(crate::specs::Blob::blob))]
pub fn key_at<'a>(blob: &'a [u8], from: usize) -> Result<(PublicView<'a>, usize), Stuck<'a>>
    requires { length blob.now < 2 ^ 32 }
    ensures { Seen key_seen (PartsLie blob.now (end_of key_type blob.now from)) why_in blob_layout blob.now from result }
{
    let (kind, next) = match kind_at(blob, from) {
        Ok(found) => found,
        Err(stuck) => return Err(stuck),
    };
    fields_at(blob, next, kind)
}

/// The name of a key type, as the kind that it stands for.
///
/// A `string` of RFC 4251, section 5. Refuses, in order: `Short`, `NotUtf8`, `Name`.
#[tactic(auto, unfolding(crate::specs::Blob::key_type))]
pub fn kind_at<'a>(blob: &'a [u8], from: usize) -> Result<(KeyKind, usize), Stuck<'a>>
    ensures { Seen (λ kind. kind) (λ _. ⊤) why_in key_type blob.now from result }
{
    let (name, next) = match word_at(blob, from) {
        Ok(found) => found,
        Err(stuck) => return Err(stuck),
    };
    match KeyKind::of_name(name.text) {
        Some(kind) => Ok((kind, next)),
        None => Err(Stuck::Name(name.part)),
    }
}

/// The view of the fields that follow a key type's name, and the place after them.
///
/// RFC 4253, section 6.6. Refuses, in order, by field: `Short`, `NotUtf8`, `Length`.
pub fn fields_at<'a>(
    blob: &'a [u8],
    from: usize,
    kind: KeyKind,
) -> Result<(PublicView<'a>, usize), Stuck<'a>>
    requires { length blob.now < 2 ^ 32 }
    ensures { Seen key_seen (PartsLie blob.now from) why_in (public_key_fields kind) blob.now from result }
{
    match kind {
        KeyKind::Rsa => rsa_at(blob, from),
        KeyKind::Ec(curve) => ec_at(blob, from, curve),
        KeyKind::Ed(_) => ed_at(blob, from),
        KeyKind::SkEcdsaSha2NistP256 => sk_ecdsa_at(blob, from),
        KeyKind::SkEd25519 => sk_ed_at(blob, from),
    }
}

#[tactic(auto, unfolding(crate::specs::Blob::rsa_fields))]
fn rsa_at<'a>(blob: &'a [u8], from: usize) -> Result<(PublicView<'a>, usize), Stuck<'a>>
    requires { length blob.now < 2 ^ 32 }
    ensures { Seen key_seen (PartsLie blob.now from) why_in rsa_fields blob.now from result }
{
    let (e, next) = match mpint_at(blob, from) {
        Ok(found) => found,
        Err(stuck) => return Err(stuck),
    };
    let (n, next) = match mpint_at(blob, next) {
        Ok(found) => found,
        Err(stuck) => return Err(stuck),
    };
    Ok((PublicView::Rsa { e, n }, next))
}

#[tactic(auto, unfolding(crate::specs::Blob::ec_fields))]
fn ec_at<'a>(
    blob: &'a [u8],
    from: usize,
    curve: EcCurve,
) -> Result<(PublicView<'a>, usize), Stuck<'a>>
    ensures { Seen key_seen (PartsLie blob.now from) why_in (ec_fields curve) blob.now from result }
{
    let (_, next) = match text_at(blob, from) {
        Ok(found) => found,
        Err(stuck) => return Err(stuck),
    };
    let (point, next) = match string_at(blob, next) {
        Ok(found) => found,
        Err(stuck) => return Err(stuck),
    };
    Ok((PublicView::Ec { curve, point }, next))
}

#[tactic(auto, unfolding(crate::specs::Blob::ed_fields))]
fn ed_at<'a>(blob: &'a [u8], from: usize) -> Result<(PublicView<'a>, usize), Stuck<'a>>
    ensures { Seen key_seen (PartsLie blob.now from) why_in ed_fields blob.now from result }
{
    let (key, next) = match ed_key_at(blob, from) {
        Ok(found) => found,
        Err(stuck) => return Err(stuck),
    };
    Ok((PublicView::Ed { key }, next))
}

#[tactic(auto, unfolding(crate::specs::Blob::sk_ecdsa_fields))]
fn sk_ecdsa_at<'a>(blob: &'a [u8], from: usize) -> Result<(PublicView<'a>, usize), Stuck<'a>>
    ensures { Seen key_seen (PartsLie blob.now from) why_in sk_ecdsa_fields blob.now from result }
{
    let (_, next) = match text_at(blob, from) {
        Ok(found) => found,
        Err(stuck) => return Err(stuck),
    };
    let (point, next) = match string_at(blob, next) {
        Ok(found) => found,
        Err(stuck) => return Err(stuck),
    };
    let (application, next) = match text_at(blob, next) {
        Ok(found) => found,
        Err(stuck) => return Err(stuck),
    };
    Ok((PublicView::SkEcdsaSha2NistP256 { point, application }, next))
}

#[tactic(auto, unfolding(crate::specs::Blob::sk_ed_fields))]
fn sk_ed_at<'a>(blob: &'a [u8], from: usize) -> Result<(PublicView<'a>, usize), Stuck<'a>>
    ensures { Seen key_seen (PartsLie blob.now from) why_in sk_ed_fields blob.now from result }
{
    let (key, next) = match ed_key_at(blob, from) {
        Ok(found) => found,
        Err(stuck) => return Err(stuck),
    };
    let (application, next) = match text_at(blob, next) {
        Ok(found) => found,
        Err(stuck) => return Err(stuck),
    };
    Ok((PublicView::SkEd25519 { key, application }, next))
}

/// An Ed25519 public key, which is field 1 of each layout that has one.
///
/// A `string` of 32 bytes (RFC 8709, section 4). Refuses, in order: `Short`, `Length`.
#[tactic(auto, unfolding(crate::specs::Blob::ed_key))]
pub fn ed_key_at<'a>(blob: &'a [u8], from: usize) -> Result<(Part<'a>, usize), Stuck<'a>>
    ensures { Seen part_bytes (Lies blob.now (end_of (ed_key 1) blob.now from)) why_in (ed_key 1) blob.now from result }
{
    match sized_at(blob, from, 32) {
        Ok(found) => Ok(found),
        Err(stuck) => Err(stuck),
    }
}

/// The bytes of a part that is an Ed25519 key.
pub fn ed_key_of(part: &Part<'_>) -> [u8; 32]
    requires { IsEdKey part.now.bytes.now }
    ensures { result ≡ part.now.bytes.now }
{
    match <[u8; 32]>::try_from(part.bytes) {
        Ok(key) => key,
        Err(_) => unreachable!(),
    }
}
