//! A certificate's signature.

ghost use Rattle.std.specs.Prelude.{⊤};
ghost use Rattle.picky_wire_base.specs.Numbers.{byte};
ghost use Rattle.picky_cert_parts.specs.Signature.{signature_format, signature_rest, sk_fields, standard_fields};
ghost use Rattle.picky_cert_blob.specs.declared.part.CertPart.TheVariants as parts;
ghost use Rattle.picky_cert_blob.specs.Layout.{signature_part};
ghost use Rattle.picky_wire_base.specs.Combine.{at};
ghost use Rattle.picky_cert_blob.specs.Reason.{in_signature};
ghost use Rattle.picky_cert_blob.specs.CertSeen.{PayloadLies, SignatureLies, signature_seen};
ghost use Rattle.picky_wire_base.specs.View.{SeenAt};

use crate::part::CertPart;
use picky_cert_parts::SshSignatureFormat;
use picky_wire::{Part, Stopped, Stuck, byte_in, string_in, uint32_in, word_in};

/// A signature whose payload is a part of the buffer, with a security key's flags and counter.
#[derive(Clone, Copy, Debug, PartialEq, Eq)]
pub struct SignatureView<'a> {
    pub format: SshSignatureFormat,
    pub payload: Part<'a>,
    pub sk: Option<(u8, u32)>,
}

/// The signature that stands at a place, and the place after it. It isn't verified.
///
/// OpenSSH's PROTOCOL.certkeys, "signature": its length, and then RFC 4253's, section 6.6, or a security key's, PROTOCOL.u2f.
/// Refuses at `CertPart::Signature`, in order, by field: `Short`, `NotUtf8`, `Name`. The length is held
/// against nothing.
#[tactic(auto, unfolding(crate::specs::Layout::signature_part, picky_cert_parts::specs::Signature::signature, picky_cert_parts::specs::Signature::signature_total))]
pub fn signature_at<'a>(
    blob: &'a [u8],
    from: usize,
) -> Result<(SignatureView<'a>, usize), Stopped<'a, CertPart>>
    ensures { SeenAt signature_seen (SignatureLies blob.now from) signature_part blob.now from result }
{
    let (_, next) = uint32_in(blob, from, CertPart::Signature)?;
    let (format, next) = format_at(blob, next)?;
    rest_at(blob, next, format)
}

/// The format, by its name.
#[tactic(auto, unfolding(picky_cert_parts::specs::Signature::signature_format))]
fn format_at<'a>(
    blob: &'a [u8],
    from: usize,
) -> Result<(SshSignatureFormat, usize), Stopped<'a, CertPart>>
    ensures { SeenAt (λ format. format) (λ _. ⊤) (in_signature signature_format) blob.now from result }
{
    let (word, next) = word_in(blob, from, CertPart::Signature)?;
    match SshSignatureFormat::of_name(word.text) {
        Some(format) => Ok((format, next)),
        None => Err(Stopped {
            place: CertPart::Signature,
            stuck: Stuck::Name(word.part),
        }),
    }
}

/// The fields after the format.
fn rest_at<'a>(
    blob: &'a [u8],
    from: usize,
    format: SshSignatureFormat,
) -> Result<(SignatureView<'a>, usize), Stopped<'a, CertPart>>
    ensures { SeenAt signature_seen (PayloadLies blob.now from) (in_signature (signature_rest format)) blob.now from result }
{
    if format.is_sk() {
        sk_at(blob, from, format)
    } else {
        standard_at(blob, from, format)
    }
}

/// A string alone.
#[tactic(auto, unfolding(picky_cert_parts::specs::Signature::standard_fields, picky_cert_parts::specs::Signature::signature_payload))]
fn standard_at<'a>(
    blob: &'a [u8],
    from: usize,
    format: SshSignatureFormat,
) -> Result<(SignatureView<'a>, usize), Stopped<'a, CertPart>>
    ensures { SeenAt signature_seen (PayloadLies blob.now from) (in_signature (standard_fields format)) blob.now from result }
{
    let (payload, next) = string_in(blob, from, CertPart::Signature)?;
    Ok((
        SignatureView {
            format,
            payload,
            sk: None,
        },
        next,
    ))
}

/// A string, flags and a counter.
#[tactic(auto, unfolding(picky_cert_parts::specs::Signature::sk_fields, picky_cert_parts::specs::Signature::signature_payload, picky_cert_parts::specs::Signature::signature_flags, picky_cert_parts::specs::Signature::signature_counter))]
fn sk_at<'a>(
    blob: &'a [u8],
    from: usize,
    format: SshSignatureFormat,
) -> Result<(SignatureView<'a>, usize), Stopped<'a, CertPart>>
    ensures { SeenAt signature_seen (PayloadLies blob.now from) (in_signature (sk_fields format)) blob.now from result }
{
    let (payload, next) = string_in(blob, from, CertPart::Signature)?;
    let (flags, next) = byte_in(blob, next, CertPart::Signature)?;
    let (counter, next) = uint32_in(blob, next, CertPart::Signature)?;
    Ok((
        SignatureView {
            format,
            payload,
            sk: Some((flags, counter)),
        },
        next,
    ))
}
