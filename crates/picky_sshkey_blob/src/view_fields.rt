//! The fields of a private key's blob, seen at their places, each with its number in the blob.

ghost use Rattle.std.specs.Prelude.{◌≡◌, ◌^◌, ◌<◌, ◌-◌, ⊤, length};
ghost use Rattle.picky_wire_base.specs.Combine.{at};
ghost use Rattle.picky_wire_base.specs.Wire.{string, text};
ghost use Rattle.picky_wire_base.specs.Numbers.{byte};
ghost use Rattle.picky_wire_base.specs.Mpint.{mpint};
ghost use Rattle.picky_wire_base.specs.View.{Lies, end_of, part_bytes};
ghost use Rattle.picky_keys.specs.Blob.{key_type, ed_key};
ghost use Rattle.picky_sshkey_blob.specs.Blob.{ed_secret};
ghost use Rattle.picky_wire_base.specs.View.{SeenAt};

use picky_keys::{KeyKind, ed_key_at, kind_at};
use picky_wire::{Part, Stopped, Stuck, string_in};

/// How long the secret of Ed25519 is.
const SECRET_LEN: usize = 32;

/// The name of a key type, which is field 0, as the kind that it stands for.
/// Refuses, in order: `Short`, `NotUtf8`, `Name`.
#[tactic(auto, using(crate::proofs::ViewLemmas::kind_stopped))]
pub fn kind_in<'a>(blob: &'a [u8], from: usize) -> Result<(KeyKind, usize), Stopped<'a, usize>>
    ensures { SeenAt (λ kind. kind) (λ _. ⊤) key_type blob.now from result }
{
    match kind_at(blob, from) {
        Ok(found) => Ok(found),
        Err(stuck) => Err(Stopped { place: 0, stuck }),
    }
}

/// A public key of Ed25519, which is field 1 of each layout that has one. Refuses, in order: `Short`, `Length`.
#[tactic(auto, using(crate::proofs::ViewLemmas::ed_key_stopped))]
pub fn ed_key_in<'a>(blob: &'a [u8], from: usize) -> Result<(Part<'a>, usize), Stopped<'a, usize>>
    ensures { SeenAt part_bytes (Lies blob.now (end_of (ed_key 1) blob.now from)) (ed_key 1) blob.now from result }
{
    match ed_key_at(blob, from) {
        Ok(found) => Ok(found),
        Err(stuck) => Err(Stopped { place: 1, stuck }),
    }
}

/// The secret of Ed25519, which is field 2, before the copy of the public key.
/// Refuses at the field, in order: `Short`; `Length`, also where the copy differs.
#[tactic(auto, using(crate::proofs::ViewLemmas::secret_seen), unfolding(crate::specs::Blob::ed_secret))]
pub fn ed_secret_in<'a>(
    blob: &'a [u8],
    from: usize,
    public: &[u8],
) -> Result<(Part<'a>, usize), Stopped<'a, usize>>
    requires { length public.now ≡ 32 }
    ensures { SeenAt part_bytes (Lies blob.now (end_of string blob.now from - 32)) (ed_secret public.now) blob.now from result }
{
    let (both, next) = string_in(blob, from, 2)?;
    if both.bytes.len() < SECRET_LEN {
        return Err(Stopped {
            place: 2,
            stuck: Stuck::Length,
        });
    }
    let (secret, copy) = both.bytes.split_at(SECRET_LEN);
    if copy != public {
        return Err(Stopped {
            place: 2,
            stuck: Stuck::Length,
        });
    }
    Ok((
        Part {
            at: both.at,
            bytes: secret,
        },
        next,
    ))
}
