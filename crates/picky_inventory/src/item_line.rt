//! Whether a line is an item's.

ghost use Rattle.std.specs.Prelude.{◌≡◌, ◌≢◌, false, None, Some, IfOk, MatchOption};
ghost use Rattle.picky_inventory.specs.ItemLine.{cut_at, is_blob_word, is_canonical, is_comment_end, is_comment_word};
ghost use Rattle.picky_inventory.specs.ItemLine.{is_item_line as is_line, is_key_end, is_kind as is_kind_word};
ghost use Rattle.picky_inventory.specs.ItemLine.{is_text as is_text_of};
ghost use Rattle.std.specs.Str.{is_utf8 as is_utf8_bytes};

use picky_keys::{SshBasePublicKey, SshPublicKeyError, bytes_of};
use picky_text::{Base64Error, decode};
use picky_wire::{MAX_LEN, NoMemory};
use std::alloc::Global;

/// Whether a line is an item's: `private` or `public`, the base64 of a canonical public blob and that of a text, parted by
/// single spaces, and LF. A blob is canonical where the key that is read of it has just this blob. Refuses: `NoMemory`.
#[tactic(auto, using(crate::proofs::ItemLineLaws::of_text))]
pub fn is_item_line(alloc: Global, line: &str) -> Result<bool, NoMemory>
    ensures exactly { IfOk result (λ is. is ≡ is_line line.now) }
{
    match at_space(line) {
        Some((kind, rest)) => {
            if is_kind(kind) {
                return ends_as_key(alloc, rest);
            }
            Ok(false)
        }
        None => Ok(false),
    }
}

/// What follows the kind: the base64 of a canonical blob, a space, and what follows it. Refuses: `NoMemory`.
#[tactic(auto, unfolding(crate::specs::ItemLine::is_key_end))]
fn ends_as_key(alloc: Global, bytes: &str) -> Result<bool, NoMemory>
    ensures { IfOk result (λ is. is ≡ is_key_end bytes.now) }
{
    match at_space(bytes) {
        Some((word, rest)) => {
            if says_blob(alloc, word)? {
                return ends_as_comment(alloc, rest);
            }
            Ok(false)
        }
        None => Ok(false),
    }
}

/// What follows the blob: the base64 of a text, and LF. Refuses: `NoMemory`.
#[tactic(auto, unfolding(crate::specs::ItemLine::is_comment_end))]
fn ends_as_comment(alloc: Global, bytes: &str) -> Result<bool, NoMemory>
    ensures { IfOk result (λ is. is ≡ is_comment_end bytes.now) }
{
    match at_lf(bytes) {
        Some((word, rest)) => {
            if says_text(alloc, word)? {
                return Ok(rest.is_empty());
            }
            Ok(false)
        }
        None => Ok(false),
    }
}

/// What stands before the first space, and what follows it.
fn at_space(text: &str) -> Option<(&str, &str)>
    ensures { MatchOption result (cut_at 32 text.now ≡ None) (λ cut. cut_at 32 text.now ≡ Some (cut.0.now, cut.1.now)) }
{
    text.split_once(' ')
}

/// What stands before the first LF, and what follows it.
fn at_lf(text: &str) -> Option<(&str, &str)>
    ensures { MatchOption result (cut_at 10 text.now ≡ None) (λ cut. cut_at 10 text.now ≡ Some (cut.0.now, cut.1.now)) }
{
    text.split_once('\n')
}

/// The word is a kind's.
fn is_kind(word: &str) -> bool
    ensures { result ≡ is_kind_word word.now }
{
    word == "private" || word == "public"
}

/// The word is the base64 of a canonical blob. Refuses: `NoMemory`.
fn says_blob(alloc: Global, word: &str) -> Result<bool, NoMemory>
    ensures { IfOk result (λ is. is ≡ is_blob_word word.now) }
{
    match decode(alloc, word.as_bytes()) {
        Ok(blob) => is_canonical_blob(alloc, blob.as_slice()),
        Err(Base64Error::NotBase64) => Ok(false),
        Err(Base64Error::NoMemory) => Err(NoMemory),
    }
}

/// The word is the base64 of a text. Refuses: `NoMemory`.
fn says_text(alloc: Global, word: &str) -> Result<bool, NoMemory>
    ensures { IfOk result (λ is. is ≡ is_comment_word word.now) }
{
    match decode(alloc, word.as_bytes()) {
        Ok(bytes) => Ok(is_text(bytes.as_slice())),
        Err(Base64Error::NotBase64) => Ok(false),
        Err(Base64Error::NoMemory) => Err(NoMemory),
    }
}

/// The bytes are UTF-8, and as many as a length of the wire can say.
fn is_text(bytes: &[u8]) -> bool
    ensures { result ≡ is_text_of bytes.now }
{
    bytes.len() <= MAX_LEN && is_utf8(bytes)
}

/// The bytes are UTF-8.
#[tactic(auto, using(picky_wire_base::proofs::ViewLemmas::tests))]
fn is_utf8(bytes: &[u8]) -> bool
    ensures { result ≡ is_utf8_bytes bytes.now }
{
    match str::from_utf8(bytes) {
        Ok(_) => true,
        Err(_) => false,
    }
}

/// What is read of the blob, written again, is the blob. Refuses: `NoMemory`.
fn is_canonical_blob(alloc: Global, blob: &[u8]) -> Result<bool, NoMemory>
    ensures { IfOk result (λ is. is ≡ is_canonical blob.now) }
{
    match SshBasePublicKey::from_blob(alloc, blob) {
        Ok(key) => {
            let written = bytes_of(alloc, &key);
            drop(key);
            let written = written?;
            Ok(written.as_slice() == blob)
        }
        Err(error) => no_key(error),
    }
}

/// No, where memory isn't what is wanting. Refuses: `NoMemory`.
fn no_key(error: SshPublicKeyError) -> Result<bool, NoMemory>
    ensures { IfOk result (λ is. (is ≡ false) × (error ≢ SshPublicKeyError.NoMemory)) }
{
    match error {
        SshPublicKeyError::NoMemory => Err(NoMemory),
        SshPublicKeyError::IoError(_)
        | SshPublicKeyError::InvalidUtf8
        | SshPublicKeyError::Base64DecodeError
        | SshPublicKeyError::UnknownKeyType
        | SshPublicKeyError::KeyError
        | SshPublicKeyError::TooLong => Ok(false),
    }
}
