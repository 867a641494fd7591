//! A certificate's line, signed by a device.

ghost use Rattle.std.specs.Prelude.{◌≡◌, ◌≢◌, Ok, Err, IfErr, IfOk};
ghost use Rattle.picky_wire.specs.Count.{Rose};
ghost use Rattle.picky_suite.specs.Asked.{IsAskedAtMost};
ghost use Rattle.picky_cert_parts.specs.declared.error.SshCertificateError.TheVariants as lines;
ghost use Rattle.picky_cert.specs.LineRefusal.{cert_line_text};
ghost use Rattle.picky_cert_builder.specs.Drafted.{IsWholeDraft, draft_shown};
ghost use Rattle.picky_conversion.specs.Certified.{Certifies, LeavesDraftSigner};
ghost use Rattle.picky_conversion.specs.Drafted.{line_drafted};
ghost use Rattle.picky_conversion.specs.inner.Signed.{IsReadBack};

use crate::drafting::draft_line;
use crate::request::CertRequest;
use picky_cert::{SshCertificate, SshCertificateError};
use picky_cert_builder::{
    CertificateDraft, SshCertificateGenerationError, signature_keeps_its_ranges,
};
use picky_key_text::Meaning;
use picky_suite::Signer;
use picky_target::ConvertError;
use picky_wire::Text;
use std::alloc::Global;

/// The line of the certificate that is asked for a key and a comment, with the first 32 fresh bytes as its nonce, and with the
/// device's signature of exactly its signed bytes (OpenSSH's PROTOCOL.certkeys).
///
/// Refuses, in order: `CommentNotCarried`, where the line doesn't carry the comment; `Request`, as
/// `picky_cert_builder::RequestTerms::judge`; `FreshTooShort`; `TooLong`, where the line has 2^32 bytes or more without a
/// signature; `Request(SignatureError)`; `TooLong`, where it has them with a signature of the device's.
pub fn write_certificate<G: Signer>(
    alloc: Global,
    signer: &mut G,
    request: CertRequest,
    meaning: Meaning,
    fresh: &[u8],
) -> Result<Text, ConvertError>
    ensures answers { Certifies (G.signs signer.old) (line_drafted request meaning fresh.now)
        (Rose (G.faults signer.old) (G.faults signer.new)) result }
    ensures signer { LeavesDraftSigner G.signs G.faults (line_drafted request meaning fresh.now) result signer.old signer.new }
    ensures asked { IsAskedAtMost 1 G.calls signer.old signer.new }
{
    match draft_line(alloc, request, meaning, fresh) {
        Ok(draft) => sign_line(alloc, signer, draft),
        Err(e) => Err(e),
    }
}

/// The line of a certificate, with the device's signature. Refuses, in order: `Request(SignatureError)`; `TooLong`.
fn sign_line<G: Signer>(
    alloc: Global,
    signer: &mut G,
    draft: CertificateDraft,
) -> Result<Text, ConvertError>
    requires whole { IsWholeDraft draft }
    requires back { IsReadBack draft.certificate }
    ensures answers { Certifies (G.signs signer.old) (Ok (draft_shown draft)) (Rose (G.faults signer.old) (G.faults signer.new)) result }
    ensures signer { LeavesDraftSigner G.signs G.faults (Ok (draft_shown draft)) result signer.old signer.new }
    ensures asked { IsAskedAtMost 1 G.calls signer.old signer.new }
{
    match draft.sign(alloc, signer) {
        Ok(certificate) => {
            signature_keeps_its_ranges(&certificate.signature);
            let line = line_of(alloc, &certificate);
            drop(certificate);
            line
        }
        Err(e) => match e {
            SshCertificateGenerationError::SignatureError => Err(ConvertError::Request(e)),
            e => {
                drop(e);
                Err(ConvertError::NoMemory)
            }
        },
    }
}

/// The line of a certificate whose type and format fit. Refuses: `TooLong`.
fn line_of(alloc: Global, certificate: &SshCertificate) -> Result<Text, ConvertError>
    ensures ok { IfOk result (λ text. cert_line_text certificate.now ≡ Ok text) }
    ensures too_long { result ≡ Err ConvertError.TooLong → cert_line_text certificate.now ≡ Err lines.TooLong }
    ensures others { IfErr result (λ e. e ≢ ConvertError.TooLong → e ≡ ConvertError.NoMemory) }
{
    match certificate.to_string(alloc) {
        Ok(text) => Ok(text),
        Err(SshCertificateError::TooLong) => Err(ConvertError::TooLong),
        Err(_) => Err(ConvertError::NoMemory),
    }
}
