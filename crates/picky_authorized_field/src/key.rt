//! The fields of an entry's key, and of the options before it.

ghost use Rattle.std.specs.Prelude.{◌≡◌, ◌++◌, IfOk, MatchResult, Ok, Err, OnOk};
ghost use Rattle.std.specs.Fmt.{decimal};
ghost use Rattle.picky_wire_base.specs.Gives.{Gives};
ghost use Rattle.picky_authorized_field.specs.Call.{key_field as key_field_of, option_field as option_field_of};
ghost use Rattle.picky_authorized_field.specs.Key.{comment_part, key_line as key_line_of};

use crate::error::AuthFieldError;
use crate::field::{KeyField, OptionField};
use crate::layout::options_bytes;
use picky_authorized::AuthOption;
use picky_keys::{SshPublicKey, bytes_of};
use picky_text::encode;
use picky_wire::NoMemory;
use std::alloc::{AllocError, Global};

/// The field of a key, with the options before it.
///
/// Refuses, in order: `NoSuchItem`.
pub fn key_field(
    alloc: Global,
    field: KeyField,
    item: usize,
    options: &[AuthOption],
    key: &SshPublicKey,
) -> Result<Vec<u8>, AuthFieldError>
    ensures { Gives AuthFieldError.NoMemory (λ bytes. bytes.items) result (key_field_of field item options.now key.now) }
{
    match field {
        KeyField::KeyLine => given(key_line(alloc, key)),
        KeyField::KeyType => copy_of(alloc, key.inner_key.kind().name().as_bytes()),
        KeyField::KeyBlob => match bytes_of(alloc, &key.inner_key) {
            Ok(blob) => Ok(blob),
            Err(NoMemory) => Err(AuthFieldError::NoMemory),
        },
        KeyField::Comment => copy_of(alloc, key.comment.as_str().as_bytes()),
        KeyField::Options => digits(alloc, options.len()),
        KeyField::OptionList => given(options_bytes(alloc, options)),
        KeyField::OfOption(field) => match options.get(item) {
            Some(option) => option_field(alloc, field, option),
            None => Err(AuthFieldError::NoSuchItem),
        },
    }
}

/// The field of an option. Refuses: `NoMemory`.
fn option_field(
    alloc: Global,
    field: OptionField,
    option: &AuthOption,
) -> Result<Vec<u8>, AuthFieldError>
    ensures { Gives AuthFieldError.NoMemory (λ bytes. bytes.items) result (Ok (option_field_of field option.now)) }
{
    match field {
        OptionField::OptionName => copy_of(alloc, option.name.as_str().as_bytes()),
        OptionField::OptionValue => match &option.value {
            Some(value) => copy_of(alloc, value.as_str().as_bytes()),
            None => Ok(Vec::new(alloc)),
        },
        OptionField::OptionHasValue => {
            copy_of(alloc, if option.value.is_some() { b"1" } else { b"0" })
        }
    }
}

/// The public key line, without an end.
fn key_line(alloc: Global, key: &SshPublicKey) -> Result<Vec<u8>, AllocError>
    ensures { IfOk result (λ line. line.items ≡ key_line_of key.now) }
{
    let blob = match bytes_of(alloc, &key.inner_key) {
        Ok(blob) => blob,
        Err(NoMemory) => return Err(AllocError),
    };
    let body = encode(alloc, blob.as_slice())?;
    let mut line = Vec::from_slice(alloc, key.inner_key.kind().name().as_bytes())?;
    line.extend_from_slice(b" ")?;
    line.extend_from_slice(body.as_str().as_bytes())?;
    push_comment(&mut line, key.comment.as_str().as_bytes())?;
    Ok(line)
}

/// Adds a space and the comment, where there is one.
fn push_comment(line: &mut Vec<u8>, comment: &[u8]) -> Result<(), AllocError>
    ensures { OnOk result (line.new.items ≡ line.old.items ++ comment_part comment.now) }
{
    if comment.is_empty() {
        return Ok(());
    }
    line.extend_from_slice(b" ")?;
    line.extend_from_slice(comment)
}

// ---- as bytes

/// The bytes, where there was memory for them. Refuses: `NoMemory`.
pub fn given(bytes: Result<Vec<u8>, AllocError>) -> Result<Vec<u8>, AuthFieldError>
    ensures { MatchResult bytes (λ b. result ≡ Ok b) (λ e. result ≡ Err AuthFieldError.NoMemory) }
{
    match bytes {
        Ok(bytes) => Ok(bytes),
        Err(_) => Err(AuthFieldError::NoMemory),
    }
}

/// A copy of the bytes. Refuses: `NoMemory`.
pub fn copy_of(alloc: Global, bytes: &[u8]) -> Result<Vec<u8>, AuthFieldError>
    ensures { Gives AuthFieldError.NoMemory (λ copy. copy.items) result (Ok bytes.now) }
{
    match Vec::from_slice(alloc, bytes) {
        Ok(copy) => Ok(copy),
        Err(_) => Err(AuthFieldError::NoMemory),
    }
}

/// The number in decimal. Refuses: `NoMemory`.
pub fn digits(alloc: Global, number: usize) -> Result<Vec<u8>, AuthFieldError>
    ensures { Gives AuthFieldError.NoMemory (λ bytes. bytes.items) result (Ok (decimal number)) }
{
    match format!(in alloc; "{number}") {
        Ok(text) => Ok(text.into_bytes()),
        Err(_) => Err(AuthFieldError::NoMemory),
    }
}
