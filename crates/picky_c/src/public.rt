//! The public key of a key text, its fingerprint and its parts.

ghost use Rattle.std.specs.Prelude.{◌≡◌, ◌++◌, IfOk, codes, string_bytes};
ghost use Rattle.base64.specs.Engines.{standard_no_pad};
ghost use Rattle.base64.specs.GeneralPurpose.{encode_of};
ghost use Rattle.picky_wire_base.specs.Gives.{Gives};
ghost use Rattle.picky_c.specs.Calls.{IsFingerprint, IsPart, IsPublicKey, fingerprint as fingerprint_of};
ghost use Rattle.picky_c.specs.Calls.{public_key as public_key_of, public_part_in};

use crate::error::{PickyError, refusal};
use crate::part::{part_by_number, part_of};
use base64::engine::general_purpose::STANDARD_NO_PAD;
use picky_conversion::input_refusal;
use picky_key_text::{Meaning, ReadError, public_key, read_text};
use picky_keys::SshPublicKey;
use picky_suite::PlainSuite;
use picky_utf8::as_text;
use std::alloc::{AllocError, Global};

/// The SHA-256 fingerprint of the key that a text means, as `ssh-keygen -l` prints it.
///
/// Refuses, in order: as `public_key_of_text`.
pub fn fingerprint(alloc: Global, text: &[u8]) -> Result<Vec<u8>, PickyError>
    ensures gives { Gives PickyError.NoMemory (λ bytes. bytes.items) result (fingerprint_of text.now) }
    ensures means { IfOk result (λ bytes. IsFingerprint text.now bytes.items) }
{
    match public_key_of_text(alloc, text) {
        Ok(key) => {
            let printed = print_digest(alloc, key.fingerprint_sha256());
            drop(key);
            match printed {
                Ok(text) => Ok(text.into_bytes()),
                Err(_) => Err(PickyError::NoMemory),
            }
        }
        Err(e) => Err(e),
    }
}

/// A SHA-256 digest in base64 without padding, behind its name.
pub fn print_digest(alloc: Global, digest: [u8; 32]) -> Result<String, AllocError>
    ensures { IfOk result (λ text. string_bytes text ≡ codes "SHA256:" ++ encode_of standard_no_pad digest) }
{
    let mut text = String::from_str(alloc, "SHA256:")?;
    STANDARD_NO_PAD.encode_string(&digest, &mut text)?;
    Ok(text)
}

/// A part of the public key that a text means.
///
/// Refuses, in order: `NoSuchPart`, and as `public_key_of_text`.
pub fn part(alloc: Global, text: &[u8], part: u32) -> Result<Vec<u8>, PickyError>
    ensures gives { Gives PickyError.NoMemory (λ bytes. bytes.items) result (public_part_in text.now part) }
    ensures means { IfOk result (λ bytes. IsPart text.now part bytes.items) }
{
    let part = match part_by_number(part) {
        Some(part) => part,
        None => return Err(PickyError::NoSuchPart),
    };
    match public_key_of_text(alloc, text) {
        Ok(key) => {
            let bytes = part_of(alloc, part, &key);
            drop(key);
            bytes
        }
        Err(e) => Err(e),
    }
}

/// The public part of the key that a text means, and the comment.
///
/// Refuses, in order: `TextNotUtf8`, and as `picky_key_text::read_text` without a passphrase.
fn public_key_of_text(alloc: Global, text: &[u8]) -> Result<SshPublicKey, PickyError>
    ensures gives { Gives PickyError.NoMemory (λ key. key) result (public_key_of text.now) }
    ensures means { IfOk result (IsPublicKey text.now) }
{
    let text = match as_text(text) {
        Some(text) => text,
        None => return Err(PickyError::TextNotUtf8),
    };
    let mut suite = PlainSuite::new();
    match read_text(alloc, &mut suite, text, None) {
        Ok(meaning) => Ok(public_key(meaning)),
        Err(e) => Err(refusal(input_refusal(e))),
    }
}
