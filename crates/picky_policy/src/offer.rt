//! An offer: a key, or a certificate for one.

ghost use Rattle.std.specs.Prelude.{◌≡◌, ◌^◌, ◌<◌, length, IfOk, IsOk};
ghost use Rattle.picky_wire_base.specs.Gives.{Gives};
ghost use Rattle.picky_cert.specs.Certificate.{signed_in};
ghost use Rattle.picky_cert.specs.LineRefusal.{blob_certificate, body_certificate, cert_line_meaning};
ghost use Rattle.picky_text.specs.Base64.{decoded};
ghost use Rattle.picky_key_text.specs.declared.form.Form.TheVariants as forms;
ghost use Rattle.picky_policy.specs.Offer.{message_in, message_of, offer_as, offer_in, signed_or_none};

use picky_cert::{CertView, SshCertificate, SshCertificateError};
use picky_key_text::{Form, ReadError, form_of};
use picky_keys::{SshPublicKey, SshPublicKeyError};
use picky_text::{Base64Error, decode, split_word};
use picky_wire::{Bytes, NoMemory};
use std::alloc::Global;

/// What one asks to get in with. The bytes beside a certificate are what its issuer signed.
#[derive(Debug, Drop)]
pub enum Offer {
    Key(SshPublicKey),
    Certificate(SshCertificate, Bytes),
}

impl Offer {
    /// The offer of a text: a public key line, or a certificate's, of which the bytes before the signature are kept as they
    /// were read.
    ///
    /// Refuses as `read_text` does for these two forms; any other form is `Public(UnknownKeyType)`.
    #[tactic(auto, unfolding(crate::specs::Offer::offer_in))]
    pub fn from_str(alloc: Global, text: &str) -> Result<Offer, ReadError>
        ensures { Gives ReadError.NoMemory (λ offer. offer) result (offer_in text.now) }
    {
        match form_of(text) {
            Form::PublicLine => key_offer(alloc, text),
            Form::Certificate => certificate_offer(alloc, text),
            Form::Envelope | Form::Ppk | Form::PuttyPublic => {
                Err(ReadError::Public(SshPublicKeyError::UnknownKeyType))
            }
        }
    }

    /// What the issuer signed; nothing of a key.
    pub fn message(&self) -> &[u8]
        ensures { result.now ≡ message_of self.now }
    {
        match self {
            Offer::Key(_) => &[],
            Offer::Certificate(_, message) => message.as_slice(),
        }
    }
}

/// The key of a public key line.
fn key_offer(alloc: Global, text: &str) -> Result<Offer, ReadError>
    ensures { Gives ReadError.NoMemory (λ offer. offer) result (offer_as forms.PublicLine text.now) }
{
    match SshPublicKey::from_str(alloc, text) {
        Ok(key) => Ok(Offer::Key(key)),
        Err(e) => match e {
            SshPublicKeyError::NoMemory => {
                drop(e);
                Err(ReadError::NoMemory)
            }
            e => Err(ReadError::Public(e)),
        },
    }
}

/// The certificate of a line, with what its issuer signed.
fn certificate_offer(alloc: Global, text: &str) -> Result<Offer, ReadError>
    ensures { Gives ReadError.NoMemory (λ offer. offer) result (offer_as forms.Certificate text.now) }
{
    match SshCertificate::from_str(alloc, text) {
        Ok(certificate) => match signed_part(alloc, text) {
            Ok(message) => Ok(Offer::Certificate(certificate, message)),
            Err(NoMemory) => {
                drop(certificate);
                Err(ReadError::NoMemory)
            }
        },
        Err(e) => match e {
            SshCertificateError::NoMemory => {
                drop(e);
                Err(ReadError::NoMemory)
            }
            e => Err(ReadError::Certificate(e)),
        },
    }
}

/// What is signed of a certificate's line, as it was read. Refuses: `NoMemory`.
#[tactic(auto, unfolding(crate::specs::Offer::message_in), using(crate::proofs::OfferLemmas::line_has_body))]
fn signed_part(alloc: Global, text: &str) -> Result<Bytes, NoMemory>
    requires { IsOk (cert_line_meaning text.now) }
    ensures { IfOk result (λ message. message ≡ message_in text.now) }
{
    let (_, after_name) = split_word(text.as_bytes());
    let (body, _) = split_word(after_name);
    signed_of_body(alloc, body)
}

/// The same of its body. Refuses: `NoMemory`.
#[tactic(auto, unfolding(picky_cert::specs::LineRefusal::body_certificate), using(picky_cert::proofs::LineLemmas::no_longer_than_base64))]
fn signed_of_body(alloc: Global, body: &[u8]) -> Result<Bytes, NoMemory>
    requires short { length body.now < 2 ^ 32 }
    requires read { IsOk (body_certificate body.now) }
    ensures { IfOk result (λ message. message ≡ signed_or_none (decoded body.now)) }
{
    match decode(alloc, body) {
        Ok(blob) => signed_bytes(alloc, blob.as_slice()),
        Err(Base64Error::NoMemory) => Err(NoMemory),
        Err(Base64Error::NotBase64) => unreachable!(),
    }
}

/// The bytes before the signature of a certificate's. Refuses: `NoMemory`.
fn signed_bytes(alloc: Global, blob: &[u8]) -> Result<Bytes, NoMemory>
    requires short { length blob.now < 2 ^ 32 }
    requires read { IsOk (blob_certificate blob.now) }
    ensures { IfOk result (λ message. message ≡ signed_in blob.now) }
{
    match CertView::read(blob) {
        Ok((view, _)) => view.signed.to_bytes(alloc),
        Err(_) => unreachable!(),
    }
}
