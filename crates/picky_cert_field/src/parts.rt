//! Parts of a certificate, as bytes.

ghost use Rattle.std.specs.Prelude.{◌≡◌, ◌++◌, ◌∷◌, IfOk, Ok, string_bytes};
ghost use Rattle.std.specs.Fmt.{decimal};
ghost use Rattle.picky_wire_base.specs.Gives.{Gives};
ghost use Rattle.picky_text.specs.Base64.{base64_of};
ghost use Rattle.picky_keys.specs.Blob.{blob_of};
ghost use Rattle.picky_cert_field.specs.Fields.{bare_key_line as key_line_of, kind_word as word_of, payload_of as payload_in};
ghost use Rattle.picky_cert_field.specs.Fields.{signature_bytes as signature_bytes_of};

use crate::error::CertFieldError;
use picky_cert::{SshCertType, SshSignature, SshSignatureBlob};
use picky_cert_parts::signature_pieces;
use picky_keys::{SshBasePublicKey, bytes_of};
use picky_text::encode;
use picky_wire::{NoMemory, push_pieces};
use std::alloc::{AllocError, Global};

/// How many bytes a signature's total has, which stands in front of it.
const TOTAL_LEN: usize = 4;

/// `user` or `host`.
pub fn kind_word(kind: SshCertType) -> &'static str
    ensures { result.now ≡ word_of kind }
{
    match kind {
        SshCertType::Client => "user",
        SshCertType::Host => "host",
    }
}

/// The blob of a key. Refuses: `NoMemory`.
pub fn key_blob(alloc: Global, key: &SshBasePublicKey) -> Result<Vec<u8>, CertFieldError>
    ensures { Gives CertFieldError.NoMemory (λ bytes. bytes.items) result (Ok (blob_of key.now)) }
{
    match bytes_of(alloc, key) {
        Ok(blob) => Ok(blob),
        Err(NoMemory) => Err(CertFieldError::NoMemory),
    }
}

/// The public key line without a comment and a line end (sshd(8)). Refuses: `NoMemory`.
#[tactic(auto, unfolding(crate::specs::Fields::bare_key_line))]
pub fn bare_key_line(alloc: Global, key: &SshBasePublicKey) -> Result<Vec<u8>, CertFieldError>
    ensures { Gives CertFieldError.NoMemory (λ bytes. bytes.items) result (Ok (key_line_of key.now)) }
{
    let blob = key_blob(alloc, key)?;
    match words(alloc, key.kind().name(), blob.as_slice()) {
        Ok(line) => Ok(line.into_bytes()),
        Err(_) => Err(CertFieldError::NoMemory),
    }
}

/// A name, a space and bytes in base64. Refuses: want of memory.
fn words(alloc: Global, name: &str, blob: &[u8]) -> Result<String, AllocError>
    ensures { IfOk result (λ line. string_bytes line ≡ name.now ++ 32 ∷ base64_of blob.now) }
{
    let body = encode(alloc, blob)?;
    let mut line = String::from_str(alloc, name)?;
    line.push_str(" ")?;
    line.push_str(body.as_str())?;
    Ok(line)
}

/// The bytes of the signature's string.
pub fn payload_of(blob: &SshSignatureBlob) -> &[u8]
    ensures { result.now ≡ payload_in blob.now }
{
    match blob {
        SshSignatureBlob::Standard(payload) => payload.as_slice(),
        SshSignatureBlob::Sk { payload, .. } => payload.as_slice(),
    }
}

/// The signature behind its total. Refuses: `NoMemory`.
#[tactic(auto, using(crate::proofs::SignatureLemmas::behind_the_total))]
pub fn signature_bytes(alloc: Global, signature: &SshSignature) -> Result<Vec<u8>, CertFieldError>
    ensures { Gives CertFieldError.NoMemory (λ bytes. bytes.items) result (Ok (signature_bytes_of signature.now)) }
{
    let mut behind_total = Vec::new(alloc);
    match push_pieces(&mut behind_total, &signature_pieces(signature, 0)) {
        Ok(()) => {}
        Err(_) => return Err(CertFieldError::NoMemory),
    }
    let (_, bytes) = behind_total.as_slice().split_at(TOTAL_LEN);
    copy_of(alloc, bytes)
}

/// The number in decimal. Refuses: `NoMemory`.
pub fn digits(alloc: Global, number: u64) -> Result<Vec<u8>, CertFieldError>
    ensures { Gives CertFieldError.NoMemory (λ bytes. bytes.items) result (Ok (decimal number)) }
{
    match format!(in alloc; "{number}") {
        Ok(text) => Ok(text.into_bytes()),
        Err(_) => Err(CertFieldError::NoMemory),
    }
}

/// A copy of the bytes. Refuses: `NoMemory`.
pub fn copy_of(alloc: Global, bytes: &[u8]) -> Result<Vec<u8>, CertFieldError>
    ensures { Gives CertFieldError.NoMemory (λ copy. copy.items) result (Ok bytes.now) }
{
    match Vec::from_slice(alloc, bytes) {
        Ok(copy) => Ok(copy),
        Err(_) => Err(CertFieldError::NoMemory),
    }
}
