//! A key text with another comment.

ghost use Rattle.std.specs.Prelude.{◌≡◌, Ok, Err, None, IfOk};
ghost use Rattle.picky_wire_base.specs.Gives.{Gives};
ghost use Rattle.picky_wire_base.specs.Outcome.{and_then, map_err};
ghost use Rattle.picky_keys.specs.LineRefusal.{line_meaning};
ghost use Rattle.picky_sshkey.specs.PrivateRefusal.{text_key};
ghost use Rattle.picky_sshkey.specs.Written.{key_text};
ghost use Rattle.picky_ppk.specs.Checked.{ppk_meaning};
ghost use Rattle.picky_ppk.specs.KeyOf.{base_key_of};
ghost use Rattle.picky_ppk_file.specs.PuttyRefusal.{putty_meaning, putty_to_openssh};
ghost use Rattle.picky_key_text.specs.Form.{form_of as form_in};
ghost use Rattle.picky_key_text.specs.Order.{reading};
ghost use Rattle.picky_changed.specs.Comment.{commented_text, file_commented, key_commented, line_commented};
ghost use Rattle.picky_changed.specs.Comment.{line_refusal as line_refusal_of, private_refusal as private_refusal_of};
ghost use Rattle.picky_changed.specs.Comment.{putty_key_commented, putty_refusal as putty_refusal_of};
ghost use Rattle.picky_changed.specs.Comment.{not_commented, of_line, of_private, of_putty};
ghost use Rattle.picky_changed.specs.inner.Unread.{size_refusal as size_refusal_of, unread_line as unread_line_of};
ghost use Rattle.picky_changed.specs.inner.Unread.{unread_private as unread_private_of, unread_putty as unread_putty_of};
ghost use Rattle.picky_changed.specs.inner.Unread.{unread_text as unread_text_of};

use picky_key_text::{Form, ReadError, form_of, read_text};
use picky_keys::{SshPublicKey, SshPublicKeyError};
use picky_ppk::{Ppk, PpkEncryptionConfig, PpkLayout, PuttyError, PuttyPublicKey};
use picky_sshkey::{SshPrivateKey, SshPrivateKeyError};
use picky_suite::Suite;
use picky_target::{ConvertError, DEFAULT_ROUNDS, KeyTarget, carries_comment};
use picky_wire::{SizeError, Text};
use std::alloc::Global;
use std::mem::replace;

/// The text with another comment: an OpenSSH private key or a PuTTY private key file that isn't encrypted, in its version, or
/// a public key as a line or PuTTY's. What is written means the same key; a line is written in its one spelling, so its blank, its
/// end and bytes behind the blob's last field may be others than those that were read.
///
/// Refuses, in order: `Input` as `read_text` without a passphrase; `CommentNotCarried`, where the form can't hold the comment,
/// and for each certificate, whose signature is of its bytes as they stand; `TooLong`; `TooManyLines`.
#[tactic(auto, unfolding(crate::specs::Comment::commented_text))]
pub fn with_comment<S: Suite>(
    alloc: Global,
    suite: &mut S,
    text: &str,
    comment: &str,
) -> Result<Text, ConvertError>
    ensures gives { Gives ConvertError.NoMemory (λ text. text) result (commented_text (S.meanings suite.old) comment.now text.now) }

    // The suite isn't asked.
    ensures suite { suite.new ≡ suite.old }
{
    match form_of(text) {
        Form::Envelope => envelope_with_comment(alloc, suite, text, comment),
        Form::Ppk => file_with_comment(alloc, suite, text, comment),
        Form::PuttyPublic => putty_with_comment(alloc, text, comment),
        Form::Certificate => certificate_with_comment(alloc, suite, text),
        Form::PublicLine => line_with_comment(alloc, text, comment),
    }
}

// ---- OpenSSH's private key

fn envelope_with_comment<S: Suite>(
    alloc: Global,
    suite: &mut S,
    text: &str,
    comment: &str,
) -> Result<Text, ConvertError>
    requires { form_in text.now ≡ Form.Envelope }
    ensures gives { Gives ConvertError.NoMemory (λ text. text) result
        (and_then (map_err of_private (text_key (S.meanings suite.old) None text.now)) (key_commented (S.meanings suite.old) comment.now)) }
    ensures suite { suite.new ≡ suite.old }
{
    match open_key(alloc, suite, text) {
        Ok(key) => key_with_comment(alloc, suite, key, comment),
        Err(e) => Err(e),
    }
}

/// The key of a text that isn't encrypted.
fn open_key<S: Suite>(
    alloc: Global,
    suite: &mut S,
    text: &str,
) -> Result<SshPrivateKey, ConvertError>
    requires { form_in text.now ≡ Form.Envelope }
    ensures gives { Gives ConvertError.NoMemory (λ key. key) result (map_err of_private (text_key (S.meanings suite.old) None text.now)) }
    ensures suite { suite.new ≡ suite.old }
    ensures bare { IfOk result (λ key. key.passphrase ≡ None) }
{
    match SshPrivateKey::from_pem_str(alloc, suite, text, None) {
        Ok(key) => Ok(key),
        Err(e) => Err(unread_private(e)),
    }
}

/// The text of a key that isn't encrypted, with another comment.
fn key_with_comment<S: Suite>(
    alloc: Global,
    suite: &mut S,
    key: SshPrivateKey,
    comment: &str,
) -> Result<Text, ConvertError>
    requires { key.passphrase ≡ None }
    ensures gives { Gives ConvertError.NoMemory (λ text. text) result (key_commented (S.meanings suite.old) comment.now key) }
    ensures suite { suite.new ≡ suite.old }
{
    if !carries_comment(KeyTarget::OpenSsh(DEFAULT_ROUNDS), comment) {
        drop(key);
        return Err(ConvertError::CommentNotCarried);
    }
    match Text::new(alloc, comment) {
        Ok(comment) => {
            let mut key = key;
            drop(replace(&mut key.comment, comment));
            let text = open_key_text(alloc, suite, &key);
            drop(key);
            text
        }
        Err(e) => {
            drop(key);
            Err(size_refusal(e))
        }
    }
}

/// The text of a key that isn't encrypted.
fn open_key_text<S: Suite>(
    alloc: Global,
    suite: &mut S,
    key: &SshPrivateKey,
) -> Result<Text, ConvertError>
    requires { key.now.passphrase ≡ None }
    ensures gives { Gives ConvertError.NoMemory (λ text. text) result (map_err private_refusal_of (key_text (S.meanings suite.old) key.now)) }
    ensures suite { suite.new ≡ suite.old }
{
    match key.to_string(alloc, suite) {
        Ok(text) => Ok(text),
        Err(e) => Err(private_refusal(e)),
    }
}

// ---- PuTTY's private key file

fn file_with_comment<S: Suite>(
    alloc: Global,
    suite: &S,
    text: &str,
    comment: &str,
) -> Result<Text, ConvertError>
    ensures { Gives ConvertError.NoMemory (λ text. text) result
        (and_then (map_err of_putty (ppk_meaning (S.meanings suite.now) text.now)) (λ f.
        and_then (map_err of_putty (base_key_of f)) (λ key. file_commented (S.meanings suite.now) comment.now f))) }
{
    match Ppk::from_str(alloc, suite, text) {
        Ok(ppk) => match ppk.base_key(alloc) {
            Ok(key) => {
                drop(key);
                commented_file(alloc, suite, ppk, comment)
            }
            Err(e) => {
                drop(ppk);
                Err(unread_putty(e))
            }
        },
        Err(e) => Err(unread_putty(e)),
    }
}

/// The text of a file with another comment.
fn commented_file<S: Suite>(
    alloc: Global,
    suite: &S,
    ppk: Ppk,
    comment: &str,
) -> Result<Text, ConvertError>
    ensures { Gives ConvertError.NoMemory (λ text. text) result (file_commented (S.meanings suite.now) comment.now ppk) }
{
    if !carries_comment(
        KeyTarget::Ppk(
            ppk.version(),
            PpkEncryptionConfig::default(),
            PpkLayout::Number,
        ),
        comment,
    ) {
        drop(ppk);
        return Err(ConvertError::CommentNotCarried);
    }
    let changed = ppk.with_comment(alloc, suite, comment);
    drop(ppk);
    match changed {
        Ok(ppk) => {
            let text = ppk.to_string(alloc);
            drop(ppk);
            match text {
                Ok(text) => Ok(text),
                Err(e) => Err(putty_refusal(e)),
            }
        }
        Err(e) => Err(putty_refusal(e)),
    }
}

// ---- public keys

fn putty_with_comment(alloc: Global, text: &str, comment: &str) -> Result<Text, ConvertError>
    ensures { Gives ConvertError.NoMemory (λ text. text) result
        (and_then (map_err of_putty (putty_meaning text.now)) (λ k.
        and_then (map_err of_putty (putty_to_openssh k)) (λ key. putty_key_commented comment.now k))) }
{
    match PuttyPublicKey::from_str(alloc, text) {
        Ok(putty) => match putty.to_openssh(alloc) {
            Ok(key) => {
                drop(key);
                commented_putty(alloc, putty, comment)
            }
            Err(e) => {
                drop(putty);
                Err(unread_putty(e))
            }
        },
        Err(e) => Err(unread_putty(e)),
    }
}

/// PuTTY's text of a public key with another comment.
fn commented_putty(
    alloc: Global,
    putty: PuttyPublicKey,
    comment: &str,
) -> Result<Text, ConvertError>
    ensures { Gives ConvertError.NoMemory (λ text. text) result (putty_key_commented comment.now putty) }
{
    if !carries_comment(KeyTarget::PuttyPublic, comment) {
        drop(putty);
        return Err(ConvertError::CommentNotCarried);
    }
    let changed = putty.with_comment(alloc, comment);
    drop(putty);
    match changed {
        Ok(putty) => {
            let text = putty.to_string(alloc);
            drop(putty);
            match text {
                Ok(text) => Ok(text),
                Err(e) => Err(putty_refusal(e)),
            }
        }
        Err(e) => Err(putty_refusal(e)),
    }
}

fn line_with_comment(alloc: Global, text: &str, comment: &str) -> Result<Text, ConvertError>
    ensures { Gives ConvertError.NoMemory (λ text. text) result
        (and_then (map_err of_line (line_meaning text.now)) (line_commented comment.now)) }
{
    match SshPublicKey::from_str(alloc, text) {
        Ok(key) => commented_line(alloc, key, comment),
        Err(e) => Err(unread_line(e)),
    }
}

/// The line of a key with another comment.
#[tactic(auto, unfolding(picky_keys::specs::LineRefusal::line_text))]
fn commented_line(alloc: Global, key: SshPublicKey, comment: &str) -> Result<Text, ConvertError>
    ensures { Gives ConvertError.NoMemory (λ text. text) result (line_commented comment.now key) }
{
    if !carries_comment(KeyTarget::OpenSshPublic, comment) {
        drop(key);
        return Err(ConvertError::CommentNotCarried);
    }
    match Text::new(alloc, comment) {
        Ok(comment) => {
            let SshPublicKey { inner_key, .. } = key;
            let key = SshPublicKey { inner_key, comment };
            let text = key.to_string(alloc);
            drop(key);
            match text {
                Ok(text) => Ok(text),
                Err(e) => Err(line_refusal(e)),
            }
        }
        Err(e) => {
            drop(key);
            Err(size_refusal(e))
        }
    }
}

// ---- a certificate

/// Why a certificate's line isn't written anew.
fn certificate_with_comment<S: Suite>(
    alloc: Global,
    suite: &mut S,
    text: &str,
) -> Result<Text, ConvertError>
    ensures gives { Gives ConvertError.NoMemory (λ text. text) result
        (and_then (map_err ConvertError.Input (reading (record { meanings = S.meanings suite.old; pass = None }) text.now)) not_commented) }
    ensures suite { suite.new ≡ suite.old }
{
    match read_text(alloc, suite, text, None) {
        Ok(meaning) => {
            drop(meaning);
            Err(ConvertError::CommentNotCarried)
        }
        Err(e) => Err(unread_text(e)),
    }
}

// ---- refusals, where want of memory is the outer want

fn unread_private(e: SshPrivateKeyError) -> ConvertError
    ensures { result ≡ unread_private_of e }
{
    match e {
        SshPrivateKeyError::NoMemory => {
            drop(e);
            ConvertError::NoMemory
        }
        e => ConvertError::Input(ReadError::Private(e)),
    }
}

fn unread_putty(e: PuttyError) -> ConvertError
    ensures { result ≡ unread_putty_of e }
{
    match e {
        PuttyError::NoMemory => ConvertError::NoMemory,
        e => ConvertError::Input(ReadError::Putty(e)),
    }
}

fn unread_line(e: SshPublicKeyError) -> ConvertError
    ensures { result ≡ unread_line_of e }
{
    match e {
        SshPublicKeyError::NoMemory => {
            drop(e);
            ConvertError::NoMemory
        }
        e => ConvertError::Input(ReadError::Public(e)),
    }
}

fn private_refusal(e: SshPrivateKeyError) -> ConvertError
    ensures { result ≡ private_refusal_of e }
{
    match e {
        SshPrivateKeyError::NoMemory => {
            drop(e);
            ConvertError::NoMemory
        }
        SshPrivateKeyError::TooLong => {
            drop(e);
            ConvertError::TooLong
        }
        e => ConvertError::Private(e),
    }
}

fn putty_refusal(e: PuttyError) -> ConvertError
    ensures { result ≡ putty_refusal_of e }
{
    match e {
        PuttyError::NoMemory => ConvertError::NoMemory,
        PuttyError::TooLong => ConvertError::TooLong,
        PuttyError::TooManyLines => ConvertError::TooManyLines,
        e => ConvertError::Putty(e),
    }
}

fn line_refusal(e: SshPublicKeyError) -> ConvertError
    ensures { result ≡ line_refusal_of e }
{
    match e {
        SshPublicKeyError::TooLong => {
            drop(e);
            ConvertError::TooLong
        }
        e => {
            drop(e);
            ConvertError::NoMemory
        }
    }
}

fn size_refusal(e: SizeError) -> ConvertError
    ensures { result ≡ size_refusal_of e }
{
    match e {
        SizeError::TooLong => ConvertError::TooLong,
        SizeError::NoMemory => ConvertError::NoMemory,
    }
}

fn unread_text(e: ReadError) -> ConvertError
    ensures { result ≡ unread_text_of e }
{
    match e {
        ReadError::NoMemory => {
            drop(e);
            ConvertError::NoMemory
        }
        e => ConvertError::Input(e),
    }
}
