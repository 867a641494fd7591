//! What a certificate grants, and who issued it.

ghost use Rattle.std.specs.Prelude.{◌^◌, ◌<◌, IfOk, length};
ghost use Rattle.picky_wire_base.specs.Wire.{string};
ghost use Rattle.picky_wire_base.specs.View.{Lies, end_of};
ghost use Rattle.picky_keys.specs.View.{key_seen};
ghost use Rattle.picky_cert_blob.specs.Items.{option_item, extension_item};
ghost use Rattle.picky_cert_blob.specs.Layout.{critical_options, extensions as extensions_layout};
ghost use Rattle.picky_cert_blob.specs.Layout.{grants as grants_layout, issuer as issuer_layout};
ghost use Rattle.picky_cert_blob.specs.CertSeen.{grants_seen, GrantsLie, IssuerLies};
ghost use Rattle.picky_wire_base.specs.View.{SeenAt};
ghost use Rattle.picky_cert_blob.specs.View.{AreItems, values_in};

use crate::items::list_at;
use crate::kinds::{Extensions, Options};
use crate::part::CertPart;
use picky_keys::{PublicView, key_at};
use picky_wire::{Part, Stopped, string_in};

/// What is granted and by whom, as parts of the buffer.
#[derive(Clone, Copy, Debug, PartialEq, Eq)]
pub struct GrantsView<'a> {
    pub options: Part<'a>,
    pub extensions: Part<'a>,
    pub issuer: PublicView<'a>,
}

/// The grants that stand at a place, and the place after them.
/// Refuses as `body_at`, at the parts from `Options` to `Issuer`.
#[tactic(auto, unfolding(crate::specs::Layout::grants))]
pub fn grants_at<'a>(
    blob: &'a [u8],
    from: usize,
) -> Result<(GrantsView<'a>, usize), Stopped<'a, CertPart>>
    requires { length blob.now < 2 ^ 32 }
    ensures seen { SeenAt grants_seen (GrantsLie blob.now from) grants_layout blob.now from result }
    ensures items { IfOk result (λ found. AreItems option_item found.0.options × AreItems extension_item found.0.extensions) }
{
    let (options, next) = options_at(blob, from)?;
    let (extensions, next) = extensions_at(blob, next)?;
    let (_, next) = string_in(blob, next, CertPart::Reserved)?;
    let (issuer, next) = issuer_at(blob, next)?;
    Ok((
        GrantsView {
            options,
            extensions,
            issuer,
        },
        next,
    ))
}

/// The critical options.
fn options_at<'a>(blob: &'a [u8], from: usize) -> Result<(Part<'a>, usize), Stopped<'a, CertPart>>
    ensures seen { SeenAt (values_in option_item) (Lies blob.now (end_of string blob.now from)) critical_options blob.now from result }
    ensures items { IfOk result (λ found. AreItems option_item found.0) }
{
    list_at::<Options>(blob, from, CertPart::Options)
}

/// The extensions.
fn extensions_at<'a>(
    blob: &'a [u8],
    from: usize,
) -> Result<(Part<'a>, usize), Stopped<'a, CertPart>>
    ensures seen { SeenAt (values_in extension_item) (Lies blob.now (end_of string blob.now from)) extensions_layout blob.now from result }
    ensures items { IfOk result (λ found. AreItems extension_item found.0) }
{
    list_at::<Extensions>(blob, from, CertPart::Extensions)
}

/// The issuer's key, whose blob stands in a string.
#[tactic(auto, unfolding(crate::specs::Layout::issuer))]
fn issuer_at<'a>(
    blob: &'a [u8],
    from: usize,
) -> Result<(PublicView<'a>, usize), Stopped<'a, CertPart>>
    requires { length blob.now < 2 ^ 32 }
    ensures { SeenAt key_seen (IssuerLies blob.now from) issuer_layout blob.now from result }
{
    let (block, next) = string_in(blob, from, CertPart::IssuerString)?;
    let (front, _) = blob.split_at(next);
    match key_at(front, block.at) {
        Ok((key, _)) => Ok((key, next)),
        Err(stuck) => Err(Stopped {
            place: CertPart::Issuer,
            stuck,
        }),
    }
}
