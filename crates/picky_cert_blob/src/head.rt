//! Who is certified: the type of the certificate, its nonce and the subject's key.

ghost use Rattle.std.specs.Prelude.{◌^◌, ◌<◌, length};
ghost use Rattle.picky_wire_base.specs.View.{end_of};
ghost use Rattle.picky_keys.specs.Blob.{public_key_fields};
ghost use Rattle.picky_keys.specs.View.{key_seen, PartsLie};
ghost use Rattle.picky_cert_blob.specs.declared.part.CertPart.TheVariants as parts;
ghost use Rattle.picky_cert_blob.specs.Layout.{cert_name, head as head_layout, head_for};
ghost use Rattle.picky_cert_blob.specs.Reason.{within};
ghost use Rattle.picky_cert_blob.specs.CertSeen.{head_seen, HeadLies, HeadLiesBehind, type_named, NameLies};
ghost use Rattle.picky_wire_base.specs.View.{SeenAt};

use crate::part::CertPart;
use crate::subject::subject_kind;
use picky_cert_parts::SshCertKeyType;
use picky_keys::{KeyKind, PublicView, fields_at};
use picky_wire::{Part, Stopped, Stuck, string_in, word_in};

/// Who is certified, as parts of the buffer.
#[derive(Clone, Copy, Debug, PartialEq, Eq)]
pub struct HeadView<'a> {
    pub cert_key_type: SshCertKeyType,
    pub nonce: Part<'a>,
    pub key: PublicView<'a>,
}

/// A type of certificates, and its name in the buffer.
#[derive(Clone, Copy)]
pub struct NamedType<'a> {
    pub cert_key_type: SshCertKeyType,
    pub name: Part<'a>,
}

/// The head of the certificate that stands at a place, and the place after it.
/// Refuses as `body_at`, at the parts from `Name` to `Subject`.
#[tactic(auto, unfolding(crate::specs::Layout::head))]
pub fn head_at<'a>(
    blob: &'a [u8],
    from: usize,
) -> Result<(HeadView<'a>, usize), Stopped<'a, CertPart>>
    requires { length blob.now < 2 ^ 32 }
    ensures { SeenAt head_seen (HeadLies blob.now from) head_layout blob.now from result }
{
    let (named, next) = type_at(blob, from)?;
    match subject_kind(named.cert_key_type) {
        Some(kind) => head_behind(blob, next, named.cert_key_type, kind),
        None => Err(Stopped {
            place: CertPart::Name,
            stuck: Stuck::Name(named.name),
        }),
    }
}

/// The type of certificates whose name stands at a place.
#[tactic(auto, unfolding(crate::specs::Layout::cert_name), using(crate::proofs::FieldLemmas::type_has_name))]
fn type_at<'a>(blob: &'a [u8], from: usize) -> Result<(NamedType<'a>, usize), Stopped<'a, CertPart>>
    ensures { SeenAt type_named (NameLies blob.now (end_of cert_name blob.now from)) cert_name blob.now from result }
{
    let (word, next) = word_in(blob, from, CertPart::Name)?;
    match SshCertKeyType::of_name(word.text) {
        Some(cert_key_type) => Ok((
            NamedType {
                cert_key_type,
                name: word.part,
            },
            next,
        )),
        None => Err(Stopped {
            place: CertPart::Name,
            stuck: Stuck::Name(word.part),
        }),
    }
}

/// The nonce and the subject's key, behind the name of a type that is for this kind of keys.
#[tactic(auto, unfolding(crate::specs::Layout::head_for))]
fn head_behind<'a>(
    blob: &'a [u8],
    from: usize,
    cert_key_type: SshCertKeyType,
    kind: KeyKind,
) -> Result<(HeadView<'a>, usize), Stopped<'a, CertPart>>
    requires { length blob.now < 2 ^ 32 }
    ensures { SeenAt head_seen (HeadLiesBehind blob.now from) (head_for cert_key_type kind) blob.now from result }
{
    let (nonce, next) = string_in(blob, from, CertPart::Nonce)?;
    let (key, next) = subject_at(blob, next, kind)?;
    Ok((
        HeadView {
            cert_key_type,
            nonce,
            key,
        },
        next,
    ))
}

/// The subject's key, as the fields of its blob behind the name.
#[tactic(auto, using(crate::proofs::FieldLemmas::key_in_part))]
fn subject_at<'a>(
    blob: &'a [u8],
    from: usize,
    kind: KeyKind,
) -> Result<(PublicView<'a>, usize), Stopped<'a, CertPart>>
    requires { length blob.now < 2 ^ 32 }
    ensures { SeenAt key_seen (PartsLie blob.now from) (within parts.Subject (public_key_fields kind)) blob.now from result }
{
    match fields_at(blob, from, kind) {
        Ok(found) => Ok(found),
        Err(stuck) => Err(Stopped {
            place: CertPart::Subject,
            stuck,
        }),
    }
}
