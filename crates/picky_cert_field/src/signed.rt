//! What the issuer of a certificate's line signed, as it was read.

ghost use Rattle.std.specs.Prelude.{◌≡◌, ◌^◌, ◌<◌, Ok, length, IfOk, IsOk};
ghost use Rattle.picky_wire_base.specs.Gives.{Gives};
ghost use Rattle.picky_text.specs.Base64.{decoded};
ghost use Rattle.picky_cert.specs.Certificate.{signed_in};
ghost use Rattle.picky_cert.specs.LineRefusal.{blob_certificate, body_certificate, cert_line_meaning};
ghost use Rattle.picky_cert_field.specs.Fields.{signed_in_line, signed_or_none};

use crate::error::CertFieldError;
use picky_cert::CertView;
use picky_text::{Base64Error, decode, split_word};
use std::alloc::{AllocError, Global};

/// What is signed of a certificate's line. Refuses: `NoMemory`.
#[tactic(auto, unfolding(crate::specs::Fields::signed_in_line), using(crate::proofs::SignedLemmas::line_has_body))]
pub fn signed_part(alloc: Global, text: &str) -> Result<Vec<u8>, CertFieldError>
    requires { IsOk (cert_line_meaning text.now) }
    ensures { Gives CertFieldError.NoMemory (λ bytes. bytes.items) result (Ok (signed_in_line text.now)) }
{
    let (_, after_name) = split_word(text.as_bytes());
    let (body, _) = split_word(after_name);
    match signed_of_body(alloc, body) {
        Ok(signed) => Ok(signed),
        Err(_) => Err(CertFieldError::NoMemory),
    }
}

/// The same of its body. Refuses: want of memory.
#[tactic(auto, unfolding(picky_cert::specs::LineRefusal::body_certificate), using(picky_cert::proofs::LineLemmas::no_longer_than_base64))]
fn signed_of_body(alloc: Global, body: &[u8]) -> Result<Vec<u8>, AllocError>
    requires short { length body.now < 2 ^ 32 }
    requires read { IsOk (body_certificate body.now) }
    ensures { IfOk result (λ signed. signed.items ≡ signed_or_none (decoded body.now)) }
{
    match decode(alloc, body) {
        Ok(blob) => signed_bytes(alloc, blob.as_slice()),
        Err(Base64Error::NoMemory) => Err(AllocError),
        Err(Base64Error::NotBase64) => unreachable!(),
    }
}

/// The bytes before the signature of a certificate's. Refuses: want of memory.
fn signed_bytes(alloc: Global, blob: &[u8]) -> Result<Vec<u8>, AllocError>
    requires short { length blob.now < 2 ^ 32 }
    requires read { IsOk (blob_certificate blob.now) }
    ensures { IfOk result (λ signed. signed.items ≡ signed_in blob.now) }
{
    match CertView::read(blob) {
        Ok((view, _)) => Vec::from_slice(alloc, view.signed.bytes),
        Err(_) => unreachable!(),
    }
}
