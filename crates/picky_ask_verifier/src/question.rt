//! The question whether a signature is good.

ghost use Rattle.std.specs.Prelude.{◌≡◌, ◌≤◌, ◌^◌, length, IfOk, IsErrOf};
ghost use Rattle.picky_keys.specs.Blob.{blob_of};
ghost use Rattle.picky_ask.specs.State.{IsTooLong};
ghost use Rattle.picky_ask_verifier.specs.Question.{signature_bytes as signature_bytes_of, verify_question};

use picky_ask::{Head, Question};
use picky_cert_parts::{SshSignature, signature_pieces};
use picky_keys::{SshBasePublicKey, SshPublicKeyError};
use picky_wire::{Bytes, SizeError, push_pieces};
use std::alloc::Global;

/// The question whether the signature of the message is good under the key.
///
/// Refuses, in order: `TooLong`, where the key's blob, the signature or the message has 2^32 bytes or more.
pub(crate) fn question(
    alloc: Global,
    key: &SshBasePublicKey,
    signature: &SshSignature,
    message: &[u8],
) -> Result<Question, SizeError>
    ensures ok { IfOk result (λ q. q ≡ verify_question key.now signature.now message.now) }
    ensures too_long_only_if_long { IsErrOf result SizeError.TooLong
        → IsTooLong (verify_question key.now signature.now message.now) }
{
    let key = match key_blob(alloc, key) {
        Ok(key) => key,
        Err(e) => return Err(e),
    };
    let signature = match signature_bytes(alloc, signature) {
        Ok(signature) => signature,
        Err(e) => return Err(e),
    };
    let text = match Bytes::new(alloc, message) {
        Ok(text) => text,
        Err(e) => return Err(e),
    };
    Ok(Question {
        head: Head::Verify { key, signature },
        text,
    })
}

/// The key's blob. Refuses, in order: `TooLong`.
#[tactic(auto, using(picky_ask::proofs::SignLemmas::blob_is))]
fn key_blob(alloc: Global, key: &SshBasePublicKey) -> Result<Bytes, SizeError>
    ensures ok { IfOk result (λ bytes. bytes ≡ blob_of key.now) }
    ensures too_long_only_if_long { IsErrOf result SizeError.TooLong → 2 ^ 32 ≤ length (blob_of key.now) }
{
    match key.to_blob(alloc) {
        Ok(bytes) => Ok(bytes),
        Err(SshPublicKeyError::TooLong) => Err(SizeError::TooLong),
        Err(e) => {
            drop(e);
            Err(SizeError::NoMemory)
        }
    }
}

/// The signature's bytes. Refuses, in order: `TooLong`.
#[tactic(auto, using(crate::proofs::QuestionLemmas::behind_the_total))]
fn signature_bytes(alloc: Global, signature: &SshSignature) -> Result<Bytes, SizeError>
    ensures ok { IfOk result (λ bytes. bytes ≡ signature_bytes_of signature.now) }
    ensures too_long_only_if_long { IsErrOf result SizeError.TooLong → 2 ^ 32 ≤ length (signature_bytes_of signature.now) }
{
    let mut behind_total = Vec::new(alloc);
    match push_pieces(&mut behind_total, &signature_pieces(signature, 0)) {
        Ok(()) => {}
        Err(_) => return Err(SizeError::NoMemory),
    }
    let (_, bytes) = behind_total.as_slice().split_at(TOTAL_LEN);
    Bytes::new(alloc, bytes)
}

/// How many bytes a signature's total has, which stands in front of it.
const TOTAL_LEN: usize = 4;
