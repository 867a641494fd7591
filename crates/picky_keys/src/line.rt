//! A public key line (sshd(8)), read and written.

ghost use Rattle.std.specs.Prelude.{◌≡◌, ◌≢◌, ◌⊎◌, ◌^◌, ◌<◌, ◌≤◌, ◌+◌, ◌*◌, ◌/◌, ◌++◌, [], ◌∷◌, Err, IfErr, IfOk};
ghost use Rattle.std.specs.Prelude.{length, not, string_bytes};
ghost use Rattle.std.specs.Option.{option_copied};
ghost use Rattle.picky_wire_base.specs.Gives.{Gives};
ghost use Rattle.picky_text.specs.Base64.{base64_of};
ghost use Rattle.picky_wire.specs.Puts.{Puts};
ghost use Rattle.picky_wire.specs.declared.error.IoKind.TheVariants as io_kinds;
ghost use Rattle.picky_keys.specs.Blob.{blob_of};
ghost use Rattle.picky_keys.specs.Line.{line_of};
ghost use Rattle.picky_keys.specs.LineRefusal.{body_key, is_key_type, is_short_text};
ghost use Rattle.picky_keys.specs.LineRefusal.{line_meaning, line_text, words_meaning};

use crate::blob_bytes::bytes_of;
use crate::error::SshPublicKeyError;
use crate::key::{SshBasePublicKey, SshPublicKey};
use crate::kind::KeyKind;
use base64::engine::general_purpose::STANDARD;
use picky_text::{Base64Error, decode, rest_of_line, rest_of_text, split_word};
use picky_wire::{MAX_LEN, NoMemory, Sink, Text, write_all};
use std::alloc::{AllocError, Global};
use std::str;

impl SshPublicKey {
    /// The key and the comment of one line.
    ///
    /// `name SP base64 [SP comment]`, and what follows the line is ignored. The blob decides the kind.
    /// Refuses, in order: `UnknownKeyType`, `TooLong`, `Base64DecodeError`, the blob's.
    #[tactic(auto, unfolding(crate::specs::LineRefusal::line_meaning), using(picky_text::proofs::WordLaws::text_rests))]
    pub fn from_str(alloc: Global, text: &str) -> Result<SshPublicKey, SshPublicKeyError>
        ensures { Gives SshPublicKeyError.NoMemory (λ key. key) result (line_meaning text.now) }
    {
        let (name, after_name) = split_word(text.as_bytes());
        let (body, after_body) = split_word(after_name);
        let comment = rest_of_text(text, text.len() - after_body.len());
        key_of_words(alloc, name, body, Some(comment))
    }

    /// The line, with CR LF. Refuses, in order: `TooLong`, where it has 2^32 bytes or more.
    #[tactic(auto, unfolding(crate::specs::LineRefusal::line_text))]
    pub fn to_string(&self, alloc: Global) -> Result<Text, SshPublicKeyError>
        ensures { Gives SshPublicKeyError.NoMemory (λ text. text) result (line_text self.now) }
    {
        match line_string(alloc, self) {
            Ok(line) => {
                if line.len() > MAX_LEN {
                    return Err(SshPublicKeyError::TooLong);
                }
                Ok(Text::from_string(line))
            }
            Err(_) => Err(SshPublicKeyError::NoMemory),
        }
    }

    /// Writes the line. Refuses, in order: `TooLong`, as `to_string`, and `IoError(WriteFault)`.
    #[tactic(auto, unfolding(crate::specs::LineRefusal::line_text))]
    pub fn encode<S: Sink>(&self, alloc: Global, stream: &mut S) -> Result<(), SshPublicKeyError>
        ensures puts { length (line_of self.now) < 2 ^ 32
            → ((result ≡ Err SshPublicKeyError.NoMemory) × (stream.new ≡ stream.old))
            ⊎ Puts S.tells S.written S.faults (SshPublicKeyError.IoError io_kinds.WriteFault) (line_of self.now)
            result stream.old stream.new }
        ensures too_long { 2 ^ 32 ≤ length (line_of self.now)
            → ((result ≡ Err SshPublicKeyError.TooLong) ⊎ (result ≡ Err SshPublicKeyError.NoMemory))
            × (stream.new ≡ stream.old) }
    {
        match self.to_string(alloc) {
            Ok(line) => match write_all(stream, line.as_str().as_bytes()) {
                Ok(()) => Ok(()),
                Err(e) => Err(SshPublicKeyError::from(e)),
            },
            Err(e) => Err(e),
        }
    }
}

/// What a line means. Its bytes need not be UTF-8.
/// Refuses, in order: as `SshPublicKey::from_str`; `InvalidUtf8` for the comment.
#[tactic(auto, unfolding(crate::specs::LineRefusal::line_meaning))]
pub fn key_of_line(alloc: Global, line: &[u8]) -> Result<SshPublicKey, SshPublicKeyError>
    ensures gives { Gives SshPublicKeyError.NoMemory (λ key. key) result (line_meaning line.now) }
    ensures no_fault { IfErr result (λ e. e ≢ SshPublicKeyError.IoError io_kinds.ReadFault) }
{
    let (name, after_name) = split_word(line);
    let (body, after_body) = split_word(after_name);
    key_of_words(alloc, name, body, rest_of_line(after_body))
}

/// What a name, a body and a comment mean, which is none where it isn't UTF-8.
#[tactic(auto, unfolding(crate::specs::LineRefusal::words_meaning))]
fn key_of_words(
    alloc: Global,
    name: &[u8],
    body: &[u8],
    comment: Option<&str>,
) -> Result<SshPublicKey, SshPublicKeyError>
    ensures gives { Gives SshPublicKeyError.NoMemory (λ key. key) result
        (words_meaning name.now body.now (option_copied comment.entry)) }
    ensures no_fault { IfErr result (λ e. e ≢ SshPublicKeyError.IoError io_kinds.ReadFault) }
{
    if !names_key_type(name) {
        return Err(SshPublicKeyError::UnknownKeyType);
    }
    if body.len() > MAX_LEN || is_too_long(comment) {
        return Err(SshPublicKeyError::TooLong);
    }
    match key_of_body(alloc, body) {
        Ok(inner_key) => match comment {
            Some(comment) => match Text::new(alloc, comment) {
                Ok(comment) => Ok(SshPublicKey { inner_key, comment }),
                Err(_) => {
                    drop(inner_key);
                    Err(SshPublicKeyError::NoMemory)
                }
            },
            None => {
                drop(inner_key);
                Err(SshPublicKeyError::InvalidUtf8)
            }
        },
        Err(e) => Err(e),
    }
}

/// Whether the word is the name of a key type that is read here, as the first word of a line has to be (sshd(8)). Bytes that
/// aren't UTF-8 are no name.
#[tactic(auto, using(crate::proofs::LineLemmas::no_text_is_no_name))]
pub fn names_key_type(word: &[u8]) -> bool
    ensures { result ≡ is_key_type word.now }
{
    match str::from_utf8(word) {
        Ok(word) => KeyKind::of_name(word).is_some(),
        Err(_) => false,
    }
}

/// Whether there is a text that a length of the wire can't say.
fn is_too_long(text: Option<&str>) -> bool
    ensures { result ≡ not (is_short_text (option_copied text.entry)) }
{
    match text {
        Some(text) => text.len() > MAX_LEN,
        None => false,
    }
}

/// The key of a body.
#[tactic(auto, unfolding(crate::specs::LineRefusal::body_key))]
fn key_of_body(alloc: Global, body: &[u8]) -> Result<SshBasePublicKey, SshPublicKeyError>
    ensures gives { Gives SshPublicKeyError.NoMemory (λ key. key) result (body_key body.now) }
    ensures no_fault { IfErr result (λ e. e ≢ SshPublicKeyError.IoError io_kinds.ReadFault) }
{
    match decode(alloc, body) {
        Ok(blob) => SshBasePublicKey::from_blob(alloc, blob.as_slice()),
        Err(Base64Error::NotBase64) => Err(SshPublicKeyError::Base64DecodeError),
        Err(Base64Error::NoMemory) => Err(SshPublicKeyError::NoMemory),
    }
}

/// The line of a key.
#[tactic(auto, unfolding(crate::specs::Line::line_of))]
fn line_string(alloc: Global, key: &SshPublicKey) -> Result<String, AllocError>
    ensures { IfOk result (λ line. string_bytes line ≡ line_of key.now) }
{
    let blob = match bytes_of(alloc, &key.inner_key) {
        Ok(blob) => blob,
        Err(NoMemory) => return Err(AllocError),
    };
    let (name, comment) = (key.inner_key.kind().name(), key.comment.as_str());
    line_of_words(alloc, name, blob.as_slice(), comment)
}

/// A line of these words: the name, the blob in base64 and the comment, with CR LF (sshd(8)).
#[tactic(auto, unfolding(picky_text::specs::Base64::base64_of))]
pub fn line_of_words(
    alloc: Global,
    name: &str,
    blob: &[u8],
    comment: &str,
) -> Result<String, AllocError>
    ensures { IfOk result (λ line. string_bytes line
        ≡ name.now ++ 32 ∷ base64_of blob.now ++ 32 ∷ comment.now ++ 13 ∷ 10 ∷ []) }
{
    let mut line = String::with_capacity(alloc, line_room(blob.len(), comment.len()))?;
    line.push_str(name)?;
    line.push_str(" ")?;
    STANDARD.encode_string(blob, &mut line)?;
    line.push_str(" ")?;
    line.push_str(comment)?;
    line.push_str("\r\n")?;
    Ok(line)
}

/// Room for a line, so that it doesn't grow while it is written.
fn line_room(blob_len: usize, comment_len: usize) -> usize
    ensures { result ≤ blob_len / 3 * 4 + comment_len + 64 }
{
    (blob_len / 3)
        .saturating_mul(4)
        .saturating_add(comment_len)
        .saturating_add(64)
}
