//! A public key as PuTTYgen saves it.

ghost use Rattle.std.specs.Prelude.{◌≡◌, ◌^◌, ◌<◌, ◌≤◌, ◌+◌, ◌/◌, [], length, Ok, IfOk, OnOk, IfNone, IfSome, string_bytes};
ghost use Rattle.picky_wire_base.specs.Numbers.{IsBytes};
ghost use Rattle.picky_text.specs.Lines.{HasNo};
ghost use Rattle.picky_wire_base.specs.Gives.{Gives};
ghost use Rattle.picky_kv.specs.Joined.{joined_text};
ghost use Rattle.picky_ppk_file.specs.PuttyPublic.{putty_public as text_of};
ghost use Rattle.picky_ppk_file.specs.PuttyRefusal.{quoted as quoted_in, after_putty_header};
ghost use Rattle.picky_ppk_file.specs.PuttyRefusal.{after_comment as after_comment_of, body_from};
ghost use Rattle.picky_ppk_file.specs.PuttyRefusal.{of_blob as of_blob_of, of_parts as of_parts_of, putty_meaning};
ghost use Rattle.picky_ppk_file.specs.PuttyRefusal.{putty_text, is_security_key as is_security_key_of, putty_of_openssh};
ghost use Rattle.picky_ppk_file.specs.PuttyRefusal.{putty_to_openssh, plain_key_of, plain_key as plain_of};
ghost use Rattle.picky_ppk_file.specs.PuttyRefusal.{putty_commented};

use picky_keys::{PublicKey, SshBasePublicKey, SshPublicKey};
use picky_kv::JoinedLines;
use picky_ppk_parts::{PuttyError, blob_of_public, key_in_blob, no_security_keys};
use picky_text::{
    Base64Error, LineEnd, LineReader, decode, encode, push_quoted, push_rows, unquoted,
};
use picky_wire::{Bytes, MAX_LEN, NoMemory, SizeError, Text, TryClone};
use std::alloc::{AllocError, Global};

const HEADER: &str = "---- BEGIN SSH2 PUBLIC KEY ----";

const FOOTER: &str = "---- END SSH2 PUBLIC KEY ----";

const COMMENT_KEY: &str = "Comment: ";

/// A public key's blob and its comment.
#[derive(Debug, Drop, PartialEq, Eq)]
pub struct PuttyPublicKey {
    blob: Bytes,
    comment: Text,
}

impl PuttyPublicKey {
    /// The key of a blob, which isn't read, and a comment.
    pub fn of_parts(blob: Bytes, comment: Text) -> PuttyPublicKey
        ensures { result ≡ record { blob = blob; comment = comment } }
    {
        PuttyPublicKey { blob, comment }
    }

    /// The blob and the comment that a text says.
    ///
    /// RFC 4716's file with one quoted comment line (docs/FORMATS.md, "PuTTY public key"). Refuses, in order:
    /// `EndOfInput` where there is no line, `InvalidPublicKeyContainer`, `EndOfInput` where there is no second
    /// line, `InvalidPublicKeyComment`, `EndOfInput` where no footer follows, `InvalidPublicKeyData`, `TooLong`.
    #[tactic(auto, unfolding(crate::specs::PuttyRefusal::putty_meaning))]
    pub fn from_str(alloc: Global, text: &str) -> Result<PuttyPublicKey, PuttyError>
        ensures { Gives PuttyError.NoMemory (λ key. key) result (putty_meaning text.now) }
    {
        let mut lines = LineReader::new(text);
        match lines.next_line() {
            Some(line) if line == HEADER => after_header(alloc, &mut lines),
            Some(_) => Err(PuttyError::InvalidPublicKeyContainer),
            None => Err(PuttyError::EndOfInput),
        }
    }

    /// Its blob.
    fn blob_bytes(&self) -> &[u8]
        ensures blob { result.now ≡ self.now.blob }
        ensures bytes { IsBytes self.now.blob }
        ensures short { length self.now.blob < 2 ^ 32 }
    {
        let blob = self.blob.as_slice();
        blob
    }

    /// The text, with CR LF. Refuses, in order: `TooLong`, where it has 2^32 bytes or more.
    #[tactic(auto, unfolding(crate::specs::PuttyRefusal::putty_text), using(crate::proofs::LawLemmas::written_laws))]
    pub fn to_string(&self, alloc: Global) -> Result<Text, PuttyError>
        ensures gives { Gives PuttyError.NoMemory (λ text. text) result (putty_text self.now) }

        // A text is read back, unless its comment breaks the line.
        ensures read_back { HasNo 10 self.now.comment → IfOk result (λ text. putty_meaning text ≡ Ok self.now) }
    {
        match text_string(alloc, self) {
            Ok(text) => {
                if text.len() > MAX_LEN {
                    return Err(PuttyError::TooLong);
                }
                Ok(Text::from_string(text))
            }
            Err(_) => Err(PuttyError::NoMemory),
        }
    }

    /// The key in its one blob, and the comment. Refuses, in order: `NotSupported` (`SK keys`) for a key whose
    /// secret a device keeps; `TooLong`, where the blob has 2^32 bytes or more.
    pub fn from_openssh(alloc: Global, key: &SshPublicKey) -> Result<PuttyPublicKey, PuttyError>
        ensures { Gives PuttyError.NoMemory (λ key. key) result (putty_of_openssh key.now) }
    {
        let comment = key.comment.try_clone(alloc)?;
        putty_key(alloc, &key.inner_key, comment)
    }

    /// The same of a key that is handed over, whose comment is moved and not copied. Refuses as `from_openssh`.
    pub fn take_openssh(alloc: Global, key: SshPublicKey) -> Result<PuttyPublicKey, PuttyError>
        ensures { Gives PuttyError.NoMemory (λ key. key) result (putty_of_openssh key) }
    {
        let SshPublicKey { inner_key, comment } = key;
        let putty = putty_key(alloc, &inner_key, comment);
        drop(inner_key);
        putty
    }

    /// The key in the blob and the comment. What follows the blob's last field says nothing.
    ///
    /// Refuses, in order: `SshPublicKey` with what is wrong with the blob.
    #[tactic(auto, unfolding(crate::specs::PuttyRefusal::putty_to_openssh))]
    pub fn to_openssh(&self, alloc: Global) -> Result<SshPublicKey, PuttyError>
        ensures { Gives PuttyError.NoMemory (λ key. key) result (putty_to_openssh self.now) }
    {
        match key_in_blob(alloc, &self.blob) {
            Ok(inner_key) => match self.comment.try_clone(alloc) {
                Ok(comment) => Ok(SshPublicKey { inner_key, comment }),
                Err(NoMemory) => {
                    drop(inner_key);
                    Err(PuttyError::NoMemory)
                }
            },
            Err(e) => Err(e),
        }
    }

    /// The same of a key that is handed over, whose comment is moved and not copied. Refuses as `to_openssh`.
    #[tactic(auto, unfolding(crate::specs::PuttyRefusal::putty_to_openssh))]
    pub fn into_openssh(self, alloc: Global) -> Result<SshPublicKey, PuttyError>
        ensures { Gives PuttyError.NoMemory (λ key. key) result (putty_to_openssh self) }
    {
        match key_in_blob(alloc, &self.blob) {
            Ok(inner_key) => Ok(SshPublicKey {
                inner_key,
                comment: self.comment,
            }),
            Err(e) => Err(e),
        }
    }

    /// The comment.
    pub fn comment(&self) -> &str
        ensures { result.now ≡ self.now.comment }
    {
        self.comment.as_str()
    }

    /// The same blob with another comment. Refuses, in order: `TooLong`, where it has 2^32 bytes or more.
    #[tactic(auto, unfolding(crate::specs::PuttyRefusal::putty_commented))]
    pub fn with_comment(&self, alloc: Global, comment: &str) -> Result<PuttyPublicKey, PuttyError>
        ensures { Gives PuttyError.NoMemory (λ key. key) result (putty_commented self.now comment.now) }
    {
        let comment = match Text::new(alloc, comment) {
            Ok(comment) => comment,
            Err(SizeError::TooLong) => return Err(PuttyError::TooLong),
            Err(SizeError::NoMemory) => return Err(PuttyError::NoMemory),
        };
        let blob = self.blob.try_clone(alloc)?;
        Ok(PuttyPublicKey { blob, comment })
    }

    /// The key in the blob. Refuses, in order: `SshPublicKey` with what is wrong with the blob;
    /// `NotSupported` (`SK keys`) for a key whose secret a device keeps.
    #[tactic(auto, unfolding(crate::specs::PuttyRefusal::plain_key_of))]
    pub fn to_inner_key(&self, alloc: Global) -> Result<PublicKey, PuttyError>
        ensures { Gives PuttyError.NoMemory (λ key. key) result (plain_key_of self.now) }
    {
        match key_in_blob(alloc, &self.blob) {
            Ok(key) => plain_key(alloc, key),
            Err(e) => Err(e),
        }
    }
}

impl TryClone for PuttyPublicKey {
    fn try_clone(&self, alloc: Global) -> Result<PuttyPublicKey, NoMemory> {
        let blob = self.blob.try_clone(alloc)?;
        let comment = self.comment.try_clone(alloc)?;
        Ok(PuttyPublicKey { blob, comment })
    }
}

/// What a text says after its header.
fn after_header(alloc: Global, lines: &mut LineReader<'_>) -> Result<PuttyPublicKey, PuttyError>
    ensures { Gives PuttyError.NoMemory (λ key. key) result (after_putty_header lines.old) }
{
    match lines.next_line() {
        Some(line) => match quoted(line) {
            Some(between) => after_comment(alloc, between, lines),
            None => Err(PuttyError::InvalidPublicKeyComment),
        },
        None => Err(PuttyError::EndOfInput),
    }
}

/// What stands in a comment line between its first and its last quote.
fn quoted(line: &str) -> Option<&str>
    ensures none { IfNone result (quoted_in line.now ≡ None) }
    ensures some { IfSome result (λ between. quoted_in line.now ≡ Some between.now) }
{
    let quotes = line.strip_prefix(COMMENT_KEY)?;
    let (_, after) = quotes.split_once('"')?;
    let (between, _) = after.rsplit_once('"')?;
    Some(between)
}

/// What a text says after its comment line.
fn after_comment(
    alloc: Global,
    between: &str,
    lines: &mut LineReader<'_>,
) -> Result<PuttyPublicKey, PuttyError>
    ensures { Gives PuttyError.NoMemory (λ key. key) result (after_comment_of between.now lines.old) }
{
    match body(alloc, lines)? {
        Some(body) => of_body(alloc, between, body),
        None => Err(PuttyError::EndOfInput),
    }
}

/// The lines up to the first footer, decoded as they come.
fn body(alloc: Global, lines: &mut LineReader<'_>) -> Result<Option<JoinedLines>, NoMemory>
    ensures none { IfOk result (λ found. IfNone found (body_from [] lines.old ≡ None)) }
    ensures some { IfOk result (λ found. IfSome found (λ body. body_from [] lines.old ≡ Some (joined_text body))) }
{
    let mut body = JoinedLines::new(alloc);
    'lines: while let Some(line) = lines.next_line() {
        if line == FOOTER {
            return Ok(Some(body));
        }
        body.push(line)?;
    }
    Ok(None)
}

/// The key of what is quoted and of a body.
fn of_body(alloc: Global, between: &str, body: JoinedLines) -> Result<PuttyPublicKey, PuttyError>
    ensures { Gives PuttyError.NoMemory (λ key. key) result (of_parts_of between.now (joined_text body)) }
{
    match body.finish() {
        Ok(Ok(blob)) => of_blob(alloc, between, blob.into_vec()),
        Ok(Err(text)) => of_text(alloc, between, text.as_str()),
        Err(NoMemory) => Err(PuttyError::NoMemory),
    }
}

/// The same of a body that the decoder refused.
fn of_text(alloc: Global, between: &str, body: &str) -> Result<PuttyPublicKey, PuttyError>
    ensures { Gives PuttyError.NoMemory (λ key. key) result (of_parts_of between.now body.now) }
{
    match decode(alloc, body.as_bytes()) {
        Ok(blob) => of_blob(alloc, between, blob),
        Err(Base64Error::NotBase64) => Err(PuttyError::InvalidPublicKeyData),
        Err(Base64Error::NoMemory) => Err(PuttyError::NoMemory),
    }
}

/// The key of what is quoted and of a blob.
fn of_blob(alloc: Global, between: &str, blob: Vec<u8>) -> Result<PuttyPublicKey, PuttyError>
    ensures { Gives PuttyError.NoMemory (λ key. key) result (of_blob_of between.now blob.items) }
{
    match unquoted(alloc, between) {
        Ok(comment) => {
            if blob.len() > MAX_LEN || comment.len() > MAX_LEN {
                return Err(PuttyError::TooLong);
            }
            Ok(PuttyPublicKey {
                blob: Bytes::from_vec(blob),
                comment: Text::from_string(comment),
            })
        }
        Err(_) => Err(PuttyError::NoMemory),
    }
}

/// The text of a key.
#[tactic(auto, unfolding(crate::specs::PuttyPublic::putty_public))]
fn text_string(alloc: Global, key: &PuttyPublicKey) -> Result<String, AllocError>
    ensures text { IfOk result (λ text. string_bytes text ≡ text_of key.now.blob key.now.comment) }
    ensures bytes { OnOk result (IsBytes key.now.blob) }
    ensures short { OnOk result ((length key.now.blob < 2 ^ 32) × (length key.now.comment < 2 ^ 32)) }
{
    let body = encode(alloc, key.blob_bytes())?;
    let comment = key.comment.as_str();
    let mut text = String::with_capacity(alloc, text_room(body.len(), comment.len()))?;
    text.push_str(HEADER)?;
    text.push_str("\r\n")?;
    text.push_str(COMMENT_KEY)?;
    text.push_str("\"")?;
    push_quoted(&mut text, comment)?;
    text.push_str("\"\r\n")?;
    push_rows(&mut text, body.as_str(), LineEnd::CrLf)?;
    text.push_str(FOOTER)?;
    text.push_str("\r\n")?;
    Ok(text)
}

/// The key in its one blob, with the comment.
#[tactic(auto, unfolding(crate::specs::PuttyRefusal::putty_of_openssh))]
fn putty_key(
    alloc: Global,
    inner_key: &SshBasePublicKey,
    comment: Text,
) -> Result<PuttyPublicKey, PuttyError>
    ensures { Gives PuttyError.NoMemory (λ key. key) result (putty_of_openssh (record { inner_key = inner_key.now; comment = comment })) }
{
    if is_security_key(inner_key) {
        return Err(no_security_keys(alloc));
    }
    match blob_of_public(alloc, inner_key) {
        Ok(blob) => Ok(PuttyPublicKey { blob, comment }),
        Err(e) => Err(e),
    }
}

/// Room for a text, so that it doesn't grow while it is written, but where its comment has much to quote.
fn text_room(body_len: usize, comment_len: usize) -> usize
    ensures { result ≤ body_len / 32 + body_len + comment_len + 128 }
{
    (body_len / 32)
        .saturating_add(body_len)
        .saturating_add(comment_len)
        .saturating_add(128)
}

/// Whether a device keeps the key's secret.
pub fn is_security_key(key: &SshBasePublicKey) -> bool
    ensures { result ≡ is_security_key_of key.now }
{
    key.kind().is_security_key()
}

/// The key without what is OpenSSH's alone.
///
/// Refuses, in order: `NotSupported` (`SK keys`) for a key whose secret a device keeps.
pub fn plain_key(alloc: Global, key: SshBasePublicKey) -> Result<PublicKey, PuttyError>
    ensures { Gives PuttyError.NoMemory (λ key. key) result (plain_of key) }
{
    match key {
        SshBasePublicKey::Rsa { e, n } => Ok(PublicKey::Rsa { e, n }),
        SshBasePublicKey::Ec { curve, point } => Ok(PublicKey::Ec { curve, point }),
        SshBasePublicKey::Ed { key } => Ok(PublicKey::Ed { key }),
        SshBasePublicKey::SkEcdsaSha2NistP256 { .. } | SshBasePublicKey::SkEd25519 { .. } => {
            drop(key);
            Err(no_security_keys(alloc))
        }
    }
}
