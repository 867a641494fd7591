//! A public key written as a line, and as PuTTY's public key.

ghost use Rattle.std.specs.Prelude.{◌≡◌, ◌⊎◌};
ghost use Rattle.picky_wire_base.specs.Gives.{Gives};
ghost use Rattle.picky_ppk_parts.specs.Unsupported.{no_security_keys as no_security_keys_of};
ghost use Rattle.picky_target.specs.inner.Public.{line_written, putty_written, putty_output_refusal};
ghost use Rattle.picky_target.specs.inner.Public.{text_of_putty as text_of_putty_of};

use crate::comment::carries_comment;
use crate::error::ConvertError;
use crate::target::KeyTarget;
use picky_keys::{SshPublicKey, SshPublicKeyError};
use picky_ppk::{PuttyError, PuttyPublicKey};
use picky_ppk_file::is_security_key;
use picky_ppk_parts::no_security_keys;
use picky_wire::Text;
use std::alloc::Global;

/// The public key line. Refuses, in order: `CommentNotCarried`, `TooLong`.
#[tactic(auto, unfolding(picky_keys::specs::LineRefusal::line_text))]
pub fn write_line(alloc: Global, key: &SshPublicKey) -> Result<Text, ConvertError>
    ensures { Gives ConvertError.NoMemory (λ text. text) result (line_written key.now) }
{
    if !carries_comment(KeyTarget::OpenSshPublic, key.comment.as_str()) {
        return Err(ConvertError::CommentNotCarried);
    }
    match key.to_string(alloc) {
        Ok(text) => Ok(text),
        Err(e) => match e {
            SshPublicKeyError::TooLong => {
                drop(e);
                Err(ConvertError::TooLong)
            }
            e => {
                drop(e);
                Err(ConvertError::NoMemory)
            }
        },
    }
}

/// PuTTY's text. Refuses, in order: `Putty(NotSupported)`, `CommentNotCarried`, `TooLong`.
pub fn write_putty(alloc: Global, key: SshPublicKey) -> Result<Text, ConvertError>
    ensures { Gives ConvertError.NoMemory (λ text. text) result (putty_written key) }
{
    if is_security_key(&key.inner_key) {
        drop(key);
        return Err(no_such_kind(alloc));
    }
    if !carries_comment(KeyTarget::PuttyPublic, key.comment.as_str()) {
        drop(key);
        return Err(ConvertError::CommentNotCarried);
    }
    text_of_putty(alloc, key)
}

/// The text of PuTTY's key for this one.
fn text_of_putty(alloc: Global, key: SshPublicKey) -> Result<Text, ConvertError>
    ensures { Gives ConvertError.NoMemory (λ text. text) result (text_of_putty_of key) }
{
    match PuttyPublicKey::take_openssh(alloc, key) {
        Ok(putty) => {
            let text = putty.to_string(alloc);
            drop(putty);
            match text {
                Ok(text) => Ok(text),
                Err(e) => Err(putty_refusal(e)),
            }
        }
        Err(e) => Err(putty_refusal(e)),
    }
}

/// The refusal of a key whose secret a device keeps.
pub fn no_such_kind(alloc: Global) -> ConvertError
    ensures { (result ≡ ConvertError.Putty no_security_keys_of) ⊎ (result ≡ ConvertError.NoMemory) }
{
    putty_refusal(no_security_keys(alloc))
}

/// A refusal of PuTTY's key or file as the conversion's: what is too long, or has too many lines, is the text.
pub fn putty_refusal(e: PuttyError) -> ConvertError
    ensures { result ≡ putty_output_refusal e }
{
    match e {
        PuttyError::NoMemory => {
            drop(e);
            ConvertError::NoMemory
        }
        PuttyError::TooLong => {
            drop(e);
            ConvertError::TooLong
        }
        PuttyError::TooManyLines => {
            drop(e);
            ConvertError::TooManyLines
        }
        e => ConvertError::Putty(e),
    }
}
