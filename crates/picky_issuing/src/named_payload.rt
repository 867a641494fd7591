//! Values of the form NAME or NAME=TEXT, which ask for a critical option or an extension.

ghost use Rattle.std.specs.Prelude.{◌≡◌, IfOk};
ghost use Rattle.picky_wire_base.specs.Wire.{string_of};
ghost use Rattle.picky_cert_parts.specs.ExtensionType.{extension_named};
ghost use Rattle.picky_issuing.specs.NamedPayload.{requested_critical_option, requested_extension, if_short, name_in};
ghost use Rattle.picky_issuing.specs.NamedPayload.{payload_in};

use picky_cert_parts::{SshCriticalOption, SshCriticalOptionType, SshExtension, SshExtensionType};
use picky_wire::{Bytes, MAX_LEN, NoMemory, Piece, push_pieces};
use std::alloc::Global;

/// The critical option that a value asks for, where it names one and its payload is short enough. Refuses: `NoMemory`.
pub fn critical_option_of(alloc: Global, value: &str) -> Result<Option<SshCriticalOption>, NoMemory>
    ensures { IfOk result (λ option. option ≡ requested_critical_option value.now) }
{
    match SshCriticalOptionType::of_name(name_of(value)) {
        Some(option_type) => match payload_of(alloc, value)? {
            Some(payload) => Ok(Some(SshCriticalOption {
                option_type,
                payload,
            })),
            None => Ok(None),
        },
        None => Ok(None),
    }
}

/// The extension that a value asks for, where its name isn't empty and its payload is short enough. Refuses: `NoMemory`.
pub fn extension_of(alloc: Global, value: &str) -> Result<Option<SshExtension>, NoMemory>
    ensures { IfOk result (λ extension. extension ≡ requested_extension value.now) }
{
    let name = name_of(value);
    if name.is_empty() {
        return Ok(None);
    }
    match payload_of(alloc, value)? {
        Some(payload) => {
            let extension_type = type_of(alloc, name)?;
            Ok(Some(SshExtension::new(extension_type, payload)))
        }
        None => Ok(None),
    }
}

/// The extension with a name. A name is part of a word, and so never too long for one.
fn type_of(alloc: Global, name: &str) -> Result<SshExtensionType, NoMemory>
    ensures { IfOk result (λ t. t ≡ extension_named name.now) }
{
    match SshExtensionType::try_from_name(alloc, name) {
        Ok(extension_type) => Ok(extension_type),
        Err(_) => Err(NoMemory),
    }
}

/// What stands before the first equals sign, or all where none stands.
#[tactic(auto, unfolding(crate::specs::NamedPayload::name_in))]
fn name_of(value: &str) -> &str
    ensures { result.now ≡ name_in value.now }
{
    match value.split_once('=') {
        Some((name, _)) => name,
        None => value,
    }
}

/// The payload: none where no equals sign stands, and else the string of what stands after the first.
#[tactic(auto, unfolding(crate::specs::NamedPayload::payload_in))]
fn payload_of(alloc: Global, value: &str) -> Result<Option<Bytes>, NoMemory>
    ensures { IfOk result (λ payload. payload ≡ if_short (payload_in value.now)) }
{
    match value.split_once('=') {
        Some((_, text)) => string_payload(alloc, text),
        None => Ok(Some(Bytes::from_vec(Vec::new(alloc)))),
    }
}

/// The bytes of a string field, where they are few enough to be the payload.
fn string_payload(alloc: Global, text: &str) -> Result<Option<Bytes>, NoMemory>
    ensures { IfOk result (λ payload. payload ≡ if_short (string_of text.now)) }
{
    if text.len() > MAX_LEN - 4 {
        return Ok(None);
    }
    let mut bytes = Vec::new(alloc);
    match push_pieces(&mut bytes, &[Piece::string(text.as_bytes())]) {
        Ok(()) => Ok(Some(Bytes::from_vec(bytes))),
        Err(_) => Err(NoMemory),
    }
}
