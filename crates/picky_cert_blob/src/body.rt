//! All of a certificate before its signature.

ghost use Rattle.std.specs.Prelude.{◌^◌, ◌<◌, IfOk, length};
ghost use Rattle.picky_cert_blob.specs.Layout.{body as body_layout};
ghost use Rattle.picky_cert_blob.specs.CertSeen.{body_seen, BodyLies, HasItems};
ghost use Rattle.picky_wire_base.specs.View.{SeenAt};

use crate::grants::{GrantsView, grants_at};
use crate::head::{HeadView, head_at};
use crate::part::CertPart;
use crate::terms::{TermsView, terms_at};
use picky_wire::Stopped;

/// All before the signature, as parts of the buffer.
#[derive(Clone, Copy, Debug, PartialEq, Eq)]
pub struct BodyView<'a> {
    pub head: HeadView<'a>,
    pub terms: TermsView<'a>,
    pub grants: GrantsView<'a>,
}

/// All that stands before the signature of the certificate at a place, and the place of the signature.
///
/// OpenSSH's PROTOCOL.certkeys, from the type's name to the signature key. Refuses at the first part that doesn't fit,
/// in the order of `CertPart`, and there, in order, by field: `Short`, `NotUtf8`, `Name`, `Length`, `Number`; in a list
/// at the first item that doesn't fit. What is reserved, or follows the issuer's key in its string, is passed over.
#[tactic(auto, unfolding(crate::specs::Layout::body))]
pub fn body_at<'a>(
    blob: &'a [u8],
    from: usize,
) -> Result<(BodyView<'a>, usize), Stopped<'a, CertPart>>
    requires { length blob.now < 2 ^ 32 }
    ensures seen { SeenAt body_seen (BodyLies blob.now from) body_layout blob.now from result }
    ensures items { IfOk result (λ found. HasItems found.0) }
{
    let (head, next) = head_at(blob, from)?;
    let (terms, next) = terms_at(blob, next)?;
    let (grants, next) = grants_at(blob, next)?;
    Ok((
        BodyView {
            head,
            terms,
            grants,
        },
        next,
    ))
}
