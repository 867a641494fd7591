//! For what a certificate is, for whom, and how long it is valid.

ghost use Rattle.std.specs.Prelude.{⊤, IfOk};
ghost use Rattle.picky_wire_base.specs.Wire.{string};
ghost use Rattle.picky_wire_base.specs.View.{Lies, end_of};
ghost use Rattle.picky_cert_blob.specs.Items.{principal_item};
ghost use Rattle.picky_cert_blob.specs.Layout.{principals as principals_layout, terms as terms_layout, type_number};
ghost use Rattle.picky_cert_blob.specs.Layout.{valid_after, valid_before};
ghost use Rattle.picky_cert_blob.specs.CertSeen.{terms_seen, TermsLie};
ghost use Rattle.picky_wire_base.specs.View.{SeenAt};
ghost use Rattle.picky_cert_blob.specs.View.{AreItems, values_in};

use crate::items::list_at;
use crate::kinds::Principals;
use crate::part::CertPart;
use picky_cert_parts::SshCertType;
use picky_wire::{Part, Stopped, Stuck, Timestamp, text_in, uint32_in, uint64_in};

/// The terms of a certificate, as parts of the buffer.
#[derive(Clone, Copy, Debug, PartialEq, Eq)]
pub struct TermsView<'a> {
    pub serial: u64,
    pub cert_type: SshCertType,
    pub key_id: Part<'a>,
    pub principals: Part<'a>,
    pub after: Timestamp,
    pub before: Timestamp,
}

/// The terms that stand at a place, and the place after them.
/// Refuses as `body_at`, at the parts from `Serial` to `Before`.
#[tactic(auto, unfolding(crate::specs::Layout::terms))]
pub fn terms_at<'a>(
    blob: &'a [u8],
    from: usize,
) -> Result<(TermsView<'a>, usize), Stopped<'a, CertPart>>
    ensures seen { SeenAt terms_seen (TermsLie blob.now from) terms_layout blob.now from result }
    ensures items { IfOk result (λ found. AreItems principal_item found.0.principals) }
{
    let (serial, next) = uint64_in(blob, from, CertPart::Serial)?;
    let (cert_type, next) = type_at(blob, next)?;
    let (key_id, next) = text_in(blob, next, CertPart::KeyId)?;
    let (principals, next) = principals_at(blob, next)?;
    let (after, next) = after_at(blob, next)?;
    let (before, next) = before_at(blob, next)?;
    Ok((
        TermsView {
            serial,
            cert_type,
            key_id,
            principals,
            after,
            before,
        },
        next,
    ))
}

/// The type of the certificate, by its number.
#[tactic(auto, unfolding(crate::specs::Layout::type_number))]
fn type_at<'a>(blob: &'a [u8], from: usize) -> Result<(SshCertType, usize), Stopped<'a, CertPart>>
    ensures { SeenAt (λ t. t) (λ _. ⊤) type_number blob.now from result }
{
    let (number, next) = uint32_in(blob, from, CertPart::CertType)?;
    match SshCertType::try_from_number(number) {
        Ok(cert_type) => Ok((cert_type, next)),
        Err(_) => Err(Stopped {
            place: CertPart::CertType,
            stuck: Stuck::Number(number),
        }),
    }
}

/// The principals.
fn principals_at<'a>(
    blob: &'a [u8],
    from: usize,
) -> Result<(Part<'a>, usize), Stopped<'a, CertPart>>
    ensures seen { SeenAt (values_in principal_item) (Lies blob.now (end_of string blob.now from)) principals_layout blob.now from result }
    ensures items { IfOk result (λ found. AreItems principal_item found.0) }
{
    list_at::<Principals>(blob, from, CertPart::Principals)
}

/// The moment from which the certificate is valid.
#[tactic(auto, unfolding(crate::specs::Layout::valid_after))]
fn after_at<'a>(blob: &'a [u8], from: usize) -> Result<(Timestamp, usize), Stopped<'a, CertPart>>
    ensures { SeenAt (λ t. t) (λ _. ⊤) valid_after blob.now from result }
{
    let (secs, next) = uint64_in(blob, from, CertPart::After)?;
    Ok((Timestamp(secs), next))
}

/// The moment at which it is valid no more.
#[tactic(auto, unfolding(crate::specs::Layout::valid_before))]
fn before_at<'a>(blob: &'a [u8], from: usize) -> Result<(Timestamp, usize), Stopped<'a, CertPart>>
    ensures { SeenAt (λ t. t) (λ _. ⊤) valid_before blob.now from result }
{
    let (secs, next) = uint64_in(blob, from, CertPart::Before)?;
    Ok((Timestamp(secs), next))
}
