//! One option of a line.

ghost use Rattle.std.specs.Prelude.{◌≡◌, ◌^◌, ◌<◌, ◌≤◌, ◌+◌, ◌++◌, IfOk, IfSome, OnOk, length, string_bytes, string_len};
ghost use Rattle.std.specs.List.{list_all};
ghost use Rattle.std.specs.Option.{option_map};
ghost use Rattle.picky_authorized.specs.OptionText.{is_name as is_name_bytes, is_name_byte as is_byte_of_name};
ghost use Rattle.picky_authorized.specs.OptionText.{auth_option_named, option_in, quoted_text_in, escaped_value};

use picky_wire::{NoMemory, Text, TryClone};
use std::alloc::Global;

/// An option: its name in lower case, and its value, where it has one.
#[derive(Debug, Drop, PartialEq, Eq)]
pub struct AuthOption {
    pub name: Text,
    pub value: Option<Text>,
}

impl TryClone for AuthOption {
    fn try_clone(&self, alloc: Global) -> Result<AuthOption, NoMemory> {
        match &self.value {
            Some(value) => {
                let value = value.try_clone(alloc)?;
                let name = self.name.try_clone(alloc)?;
                Ok(AuthOption {
                    name,
                    value: Some(value),
                })
            }
            None => {
                let name = self.name.try_clone(alloc)?;
                Ok(AuthOption { name, value: None })
            }
        }
    }
}

/// The option that the text says, `NAME` or `NAME="TEXT"`, where it says one. Refuses: `NoMemory`.
#[tactic(auto, unfolding(crate::specs::OptionText::option_in))]
pub fn option_of(alloc: Global, text: &str) -> Result<Option<AuthOption>, NoMemory>
    requires { length text.now < 2 ^ 32 }
    ensures { IfOk result (λ option. option ≡ option_in text.now) }
{
    match text.split_once('=') {
        Some((name, quoted)) => {
            if !is_name(name.as_bytes()) {
                return Ok(None);
            }
            match value_of(alloc, quoted)? {
                Some(value) => {
                    let option = named_option(alloc, name, Some(value))?;
                    Ok(Some(option))
                }
                None => Ok(None),
            }
        }
        None => {
            if !is_name(text.as_bytes()) {
                return Ok(None);
            }
            let option = named_option(alloc, text, None)?;
            Ok(Some(option))
        }
    }
}

/// The bytes are a name: letters, digits and dashes, one at least.
fn is_name(bytes: &[u8]) -> bool
    ensures { result ≡ is_name_bytes bytes.now }
{
    if bytes.is_empty() {
        return false;
    }
    are_name_bytes(bytes)
}

/// The bytes are letters, digits and dashes.
fn are_name_bytes(bytes: &[u8]) -> bool
    ensures { result ≡ list_all is_byte_of_name bytes.now }
{
    bytes.iter().all(
        |byte| -> bool
            ensures { result ≡ is_byte_of_name byte.entry.now }
        { byte.is_ascii_alphanumeric() || *byte == b'-' },
    )
}

/// The option of this name, in lower case. Refuses: `NoMemory`.
fn named_option(alloc: Global, name: &str, value: Option<Text>) -> Result<AuthOption, NoMemory>
    requires { length name.now < 2 ^ 32 }
    ensures { IfOk result (λ option. option ≡ auth_option_named name.now value) }
{
    match name.to_ascii_lowercase(alloc) {
        Ok(name) => Ok(AuthOption {
            name: Text::from_string(name),
            value,
        }),
        Err(_) => Err(NoMemory),
    }
}

/// The value between its quotes, of which the last ends the text. Refuses: `NoMemory`.
fn value_of(alloc: Global, text: &str) -> Result<Option<Text>, NoMemory>
    requires { length text.now < 2 ^ 32 }
    ensures { IfOk result (λ value. value ≡ quoted_text_in text.now) }
{
    match text.strip_prefix('"') {
        Some(quoted) => match closed_value(alloc, quoted)? {
            Some(value) => Ok(Some(Text::from_string(value))),
            None => Ok(None),
        },
        None => Ok(None),
    }
}

/// The value up to the quote that closes it, which ends the text; a quote after a backslash is the value's. Refuses:
/// `NoMemory`.
fn closed_value(alloc: Global, text: &str) -> Result<Option<String>, NoMemory>
    ensures value { IfOk result (λ value. option_map string_bytes value ≡ escaped_value text.now) }
    ensures short { IfOk result (λ value. IfSome value (λ v. string_len v ≤ length text.now)) }
{
    let mut value = String::new(alloc);
    let mut rest = text;
    'pieces: while let Some((piece, after)) = rest.split_once('"') {
        match piece.strip_suffix('\\') {
            Some(front) => {
                push(&mut value, front)?;
                push(&mut value, "\"")?;
            }
            None => {
                if !after.is_empty() {
                    return Ok(None);
                }
                push(&mut value, piece)?;
                return Ok(Some(value));
            }
        }
        rest = after;
    }
    Ok(None)
}

/// Adds a text. Refuses: `NoMemory`.
fn push(value: &mut String, text: &str) -> Result<(), NoMemory>
    ensures bytes { OnOk result (string_bytes value.new ≡ string_bytes value.old ++ text.now) }
    ensures len { OnOk result (string_len value.new ≡ string_len value.old + length text.now) }
{
    match value.push_str(text) {
        Ok(()) => Ok(()),
        Err(_) => Err(NoMemory),
    }
}
