//! A certificate's bytes, seen where they stand: its parts are slices of them.

ghost use Rattle.std.specs.Prelude.{◌≡◌, ◌^◌, ◌<◌, ◌++◌, ℕ, List, Ok, IfErr, IfOk, length};
ghost use Rattle.picky_wire_base.specs.View.{Seen};
ghost use Rattle.picky_cert.specs.Certificate.{certificate as certificate_layout, refused_part, said, signed_in};
ghost use Rattle.picky_cert.specs.Keeps.{IsCertificate};
ghost use Rattle.picky_cert.specs.declared.certificate.SshCertificate.{SshCertificate as Certificate};
ghost use Rattle.picky_cert.specs.View.{body_in, cert_seen, CertLies, IsCertRefusal};
ghost use Rattle.picky_cert_blob.specs.Reason.{cert_why_in};
ghost use Rattle.picky_cert_blob.specs.CertSeen.{HasItems};
ghost use Rattle.picky_wire_base.specs.View.{SeenAt};

use picky_cert_blob::{CertPart, body_at, signature_at};
use picky_cert_parts::{SshCertKeyType, SshCertType, SshSignatureFormat};
use picky_keys::PublicView;
use picky_wire::{Part, Stopped, Stuck, Timestamp};

/// A certificate whose parts are slices of its bytes. The part of a list is its block, without its length.
#[derive(Clone, Copy, Debug, PartialEq, Eq)]
pub struct CertView<'a> {
    pub cert_key_type: SshCertKeyType,
    pub nonce: Part<'a>,
    /// The subject's key.
    pub public_key: PublicView<'a>,
    pub serial: u64,
    pub cert_type: SshCertType,
    pub key_id: Part<'a>,
    pub valid_principals: Part<'a>,
    pub valid_after: Timestamp,
    pub valid_before: Timestamp,
    pub critical_options: Part<'a>,
    pub extensions: Part<'a>,
    /// The issuer's key.
    pub signature_key: PublicView<'a>,
    pub format: SshSignatureFormat,
    /// The signature's string.
    pub signature: Part<'a>,
    /// A security key's flags and counter.
    pub sk: Option<(u8, u32)>,
    /// What is signed: all bytes before the signature.
    pub signed: Part<'a>,
}

impl<'a> CertView<'a> {
    /// The view of the certificate that the bytes begin with, and how many bytes it takes. The signature isn't verified.
    ///
    /// OpenSSH's PROTOCOL.certkeys. Refuses, in order, by field: `Short`, `NotUtf8`, `Name`, `Length`, `Number`.
    #[tactic(auto, using(crate::proofs::SignedLaws::signed_binds, crate::proofs::SignedLaws::signed_part_is_front))]
    pub fn read(blob: &'a [u8]) -> Result<(CertView<'a>, usize), Stuck<'a>>
        requires { length blob.now < 2 ^ 32 }
        ensures seen { Seen cert_seen (CertLies blob.now) cert_why_in certificate_layout blob.now 0 result }
        ensures is_certificate { IfOk result (λ found. IsCertificate (cert_seen found.0)) }
        ensures items { IfOk result (λ found. HasItems (body_in found.0)) }

        // What is signed, as it was read, is a prefix of what is signed of another certificate that is read only where both
        // are equal in all fields but the signature.
        ensures prefix { IfOk result (λ found. (other : List ℕ) (d : Certificate) (rest more : List ℕ)
            → certificate_layout.read other ≡ Ok (d, rest) → signed_in other ≡ found.0.signed.bytes.now ++ more
            → said (cert_seen found.0) ≡ said d) }
    {
        match certificate_at(blob) {
            Ok(found) => Ok(found),
            Err(stopped) => Err(stopped.stuck),
        }
    }

    /// The part at which the bytes are stuck, where they are. The issuer's string is a part of its own, before the key in it.
    pub fn stuck_at(blob: &[u8]) -> Option<CertPart>
        requires { length blob.now < 2 ^ 32 }
        ensures { result ≡ refused_part (certificate_layout.read blob.now) }
    {
        match certificate_at(blob) {
            Ok(_) => None,
            Err(stopped) => Some(stopped.place),
        }
    }
}

/// The certificate that the bytes begin with, whose parts keep their ranges.
/// Refuses, in order: as `body_at`; as `signature_at`.
#[tactic(auto, using(crate::proofs::KeepLaws::seen_is_certificate, crate::proofs::NameLemmas::seen_is_refusal))]
pub fn certificate_at<'a>(blob: &'a [u8]) -> Result<(CertView<'a>, usize), Stopped<'a, CertPart>>
    requires { length blob.now < 2 ^ 32 }
    ensures seen { SeenAt cert_seen (CertLies blob.now) certificate_layout blob.now 0 result }
    ensures is_certificate { IfOk result (λ found. IsCertificate (cert_seen found.0)) }
    ensures items { IfOk result (λ found. HasItems (body_in found.0)) }
    ensures refusal { IfErr result IsCertRefusal }
{
    view_at(blob)
}

/// The parts of the certificate that the bytes begin with.
#[tactic(auto, unfolding(crate::specs::Certificate::certificate))]
fn view_at<'a>(blob: &'a [u8]) -> Result<(CertView<'a>, usize), Stopped<'a, CertPart>>
    requires { length blob.now < 2 ^ 32 }
    ensures seen { SeenAt cert_seen (CertLies blob.now) certificate_layout blob.now 0 result }
    ensures items { IfOk result (λ found. HasItems (body_in found.0)) }
{
    let (body, end) = body_at(blob, 0)?;
    let (signature, next) = signature_at(blob, end)?;
    let (signed, _) = blob.split_at(end);
    Ok((
        CertView {
            cert_key_type: body.head.cert_key_type,
            nonce: body.head.nonce,
            public_key: body.head.key,
            serial: body.terms.serial,
            cert_type: body.terms.cert_type,
            key_id: body.terms.key_id,
            valid_principals: body.terms.principals,
            valid_after: body.terms.after,
            valid_before: body.terms.before,
            critical_options: body.grants.options,
            extensions: body.grants.extensions,
            signature_key: body.grants.issuer,
            format: signature.format,
            signature: signature.payload,
            sk: signature.sk,
            signed: Part {
                at: 0,
                bytes: signed,
            },
        },
        next,
    ))
}
