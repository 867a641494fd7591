//! What a key text shows without a passphrase, with a suite that has no ciphers.

ghost use Rattle.std.specs.Prelude.{◌≡◌, Ok, IfOk};
ghost use Rattle.std.specs.Fmt.{decimal};
ghost use Rattle.picky_wire_base.specs.Gives.{Gives};
ghost use Rattle.picky_kv.specs.Choices.{flavour_literal};
ghost use Rattle.picky_c.specs.Calls.{print};
ghost use Rattle.picky_c.specs.Shown.{IsShownBy, IsShownPart, argon2_in as argon2_of, cipher_name as cipher_of};
ghost use Rattle.picky_c.specs.Shown.{derivation_name as derivation_of, flag_text, lanes_in as lanes_of, memory_in as memory_of};
ghost use Rattle.picky_c.specs.Shown.{number_text, part_shown as part_of_shown, passes_in as passes_of, rounds_in as rounds_of};
ghost use Rattle.picky_c.specs.Shown.{salt_len_in as salt_len_of, shown_line as line_of_key, shown_of, shown_part_in};

use crate::error::{PickyError, refusal};
use crate::part::{Part, copy_of, part_of};
use crate::public::print_digest;
use crate::shown_part::{ShownPart, shown_part_by_number};
use picky_conversion::input_refusal;
use picky_keys::{SshPublicKey, SshPublicKeyError};
use picky_ppk::{Argon2Flavour, PpkEncryptionConfig};
use picky_shown::{Shown, ShownSealing, key_bits, show_text};
use picky_suite::PlainSuite;
use picky_target::{ConvertError, KeyTarget, carries_comment};
use picky_utf8::as_text;
use std::alloc::Global;

/// The name of no cipher, and of no derivation.
const NONE: &str = "none";

/// The name of the cipher of PuTTY's files.
const PPK_CIPHER: &str = "aes256-cbc";

/// The name of the hash by which PuTTY's files of version 2 derive their key.
const PPK2_DERIVATION: &str = "SHA-1";

/// A part of what a text shows.
///
/// Refuses, in order: `NoSuchPart`, as `shown_text`, and of the line as `line_shown`.
pub fn shown_part(alloc: Global, text: &[u8], part: u32) -> Result<Vec<u8>, PickyError>
    ensures gives { Gives PickyError.NoMemory (λ bytes. bytes.items) result (shown_part_in text.now part) }
    ensures means { IfOk result (λ bytes. IsShownPart text.now part bytes.items) }
{
    let part = match shown_part_by_number(part) {
        Some(part) => part,
        None => return Err(PickyError::NoSuchPart),
    };
    match shown_text(alloc, text) {
        Ok(shown) => {
            let bytes = part_shown(alloc, part, &shown);
            drop(shown);
            bytes
        }
        Err(e) => Err(e),
    }
}

/// What a text shows.
///
/// Refuses, in order: `TextNotUtf8`, and as `picky_shown::show_text`.
fn shown_text(alloc: Global, text: &[u8]) -> Result<Shown, PickyError>
    ensures gives { Gives PickyError.NoMemory (λ shown. shown) result (shown_of text.now) }
    ensures means { IfOk result (IsShownBy text.now) }
{
    let text = match as_text(text) {
        Some(text) => text,
        None => return Err(PickyError::TextNotUtf8),
    };
    let mut suite = PlainSuite::new();
    match show_text(alloc, &mut suite, text) {
        Ok(shown) => Ok(shown),
        Err(e) => Err(refusal(input_refusal(e))),
    }
}

/// The part, as bytes; none where the text has no such thing.
fn part_shown(alloc: Global, part: ShownPart, shown: &Shown) -> Result<Vec<u8>, PickyError>
    ensures { Gives PickyError.NoMemory (λ bytes. bytes.items) result (part_of_shown part shown.now) }
{
    match part {
        ShownPart::TypeName => part_of(alloc, Part::TypeName, &shown.key),
        ShownPart::Blob => part_of(alloc, Part::Blob, &shown.key),
        ShownPart::Comment => part_of(alloc, Part::Comment, &shown.key),
        ShownPart::Line => line_shown(alloc, &shown.key),
        ShownPart::Fingerprint => fingerprint_shown(alloc, &shown.key),
        ShownPart::Bits => digits(alloc, key_bits(&shown.key.inner_key)),
        ShownPart::Encrypted => flag(alloc, shown.sealing.is_encrypted()),
        ShownPart::Cipher => copy_of(alloc, cipher_name(&shown.sealing).as_bytes()),
        ShownPart::Derivation => copy_of(alloc, derivation_name(&shown.sealing).as_bytes()),
        ShownPart::Rounds => number(alloc, rounds_in(&shown.sealing)),
        ShownPart::Memory => number(alloc, memory_in(&shown.sealing)),
        ShownPart::Passes => number(alloc, passes_in(&shown.sealing)),
        ShownPart::Lanes => number(alloc, lanes_in(&shown.sealing)),
        ShownPart::SaltLen => number(alloc, salt_len_in(&shown.sealing)),
    }
}

// ---- the key

/// The public key line, with CR LF.
///
/// Refuses, in order: `CommentNotCarried`, where a line can't hold the comment; `TooLong`.
#[tactic(auto, unfolding(picky_keys::specs::LineRefusal::line_text))]
fn line_shown(alloc: Global, key: &SshPublicKey) -> Result<Vec<u8>, PickyError>
    ensures { Gives PickyError.NoMemory (λ bytes. bytes.items) result (line_of_key key.now) }
{
    if !carries_comment(KeyTarget::OpenSshPublic, key.comment.as_str()) {
        return Err(PickyError::Refused(ConvertError::CommentNotCarried));
    }
    match key.to_string(alloc) {
        Ok(line) => Ok(line.into_string().into_bytes()),
        Err(SshPublicKeyError::TooLong) => Err(PickyError::Refused(ConvertError::TooLong)),
        Err(e) => {
            drop(e);
            Err(PickyError::NoMemory)
        }
    }
}

/// The fingerprint, as `ssh-keygen -l` prints it. Refuses: `NoMemory`.
fn fingerprint_shown(alloc: Global, key: &SshPublicKey) -> Result<Vec<u8>, PickyError>
    ensures { Gives PickyError.NoMemory (λ bytes. bytes.items) result (Ok (print key.now)) }
{
    match print_digest(alloc, key.fingerprint_sha256()) {
        Ok(text) => Ok(text.into_bytes()),
        Err(_) => Err(PickyError::NoMemory),
    }
}

// ---- what the text is encrypted by

fn cipher_name(sealing: &ShownSealing) -> &str
    ensures { result.now ≡ cipher_of sealing.now }
{
    match sealing {
        ShownSealing::Unsealed => NONE,
        ShownSealing::OpenSsh { cipher, .. } => cipher.as_str(),
        ShownSealing::PpkV2 | ShownSealing::PpkV3(_) => PPK_CIPHER,
    }
}

fn derivation_name(sealing: &ShownSealing) -> &str
    ensures { result.now ≡ derivation_of sealing.now }
{
    match sealing {
        ShownSealing::Unsealed => NONE,
        ShownSealing::OpenSsh { kdf, .. } => kdf.as_str(),
        ShownSealing::PpkV2 => PPK2_DERIVATION,
        ShownSealing::PpkV3(config) => flavour_name(config.argon2_flavour),
    }
}

fn flavour_name(flavour: Argon2Flavour) -> &'static str
    ensures { result.now ≡ flavour_literal flavour }
{
    match flavour {
        Argon2Flavour::Argon2d => "Argon2d",
        Argon2Flavour::Argon2i => "Argon2i",
        Argon2Flavour::Argon2id => "Argon2id",
    }
}

fn rounds_in(sealing: &ShownSealing) -> Option<u32>
    ensures { result ≡ rounds_of sealing.now }
{
    match sealing {
        ShownSealing::OpenSsh { rounds, .. } => *rounds,
        ShownSealing::Unsealed | ShownSealing::PpkV2 | ShownSealing::PpkV3(_) => None,
    }
}

fn argon2_in(sealing: &ShownSealing) -> Option<PpkEncryptionConfig>
    ensures { result ≡ argon2_of sealing.now }
{
    match sealing {
        ShownSealing::PpkV3(config) => Some(*config),
        ShownSealing::Unsealed | ShownSealing::OpenSsh { .. } | ShownSealing::PpkV2 => None,
    }
}

fn memory_in(sealing: &ShownSealing) -> Option<u32>
    ensures { result ≡ memory_of sealing.now }
{
    argon2_in(sealing).map(|config| config.argon2_memory)
}

fn passes_in(sealing: &ShownSealing) -> Option<u32>
    ensures { result ≡ passes_of sealing.now }
{
    argon2_in(sealing).map(|config| config.argon2_passes)
}

fn lanes_in(sealing: &ShownSealing) -> Option<u32>
    ensures { result ≡ lanes_of sealing.now }
{
    argon2_in(sealing).map(|config| config.argon2_parallelism)
}

fn salt_len_in(sealing: &ShownSealing) -> Option<u32>
    ensures { result ≡ salt_len_of sealing.now }
{
    argon2_in(sealing).map(|config| config.argon2_salt_size)
}

// ---- as bytes

/// "1" or "0". Refuses: `NoMemory`.
fn flag(alloc: Global, flag: bool) -> Result<Vec<u8>, PickyError>
    ensures { Gives PickyError.NoMemory (λ bytes. bytes.items) result (Ok (flag_text flag)) }
{
    copy_of(alloc, if flag { b"1" } else { b"0" })
}

/// The number in decimal; no bytes where there is none. Refuses: `NoMemory`.
fn number(alloc: Global, number: Option<u32>) -> Result<Vec<u8>, PickyError>
    ensures { Gives PickyError.NoMemory (λ bytes. bytes.items) result (Ok (number_text number)) }
{
    match number {
        Some(number) => digits(alloc, number as usize),
        None => Ok(Vec::new(alloc)),
    }
}

/// The number in decimal. Refuses: `NoMemory`.
pub fn digits(alloc: Global, number: usize) -> Result<Vec<u8>, PickyError>
    ensures { Gives PickyError.NoMemory (λ bytes. bytes.items) result (Ok (decimal number)) }
{
    match format!(in alloc; "{number}") {
        Ok(text) => Ok(text.into_bytes()),
        Err(_) => Err(PickyError::NoMemory),
    }
}
