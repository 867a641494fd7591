//! The three lists of a certificate: how many items one has, one of them, and all as they stand on the wire.

ghost use Rattle.std.specs.Prelude.{◌≡◌, ◌++◌, ℕ, List, Ok, OnOk, IfOk, length};
ghost use Rattle.std.specs.Fmt.{decimal};
ghost use Rattle.std.specs.List.{flat_map};
ghost use Rattle.picky_wire_base.specs.Gives.{Gives};
ghost use Rattle.picky_wire_base.specs.Wire.{string_of};
ghost use Rattle.picky_cert_parts.specs.CertNames.{option_name};
ghost use Rattle.picky_cert_parts.specs.CriticalOption.{option_of};
ghost use Rattle.picky_cert_parts.specs.Extension.{extension_of};
ghost use Rattle.picky_cert_parts.specs.ExtensionType.{extension_name};
ghost use Rattle.picky_cert_parts.specs.declared.critical_option.SshCriticalOption.{SshCriticalOption as AnOption};
ghost use Rattle.picky_cert_parts.specs.declared.extension.SshExtension.{SshExtension as AnExtension};
ghost use Rattle.picky_cert_field.specs.Fields.{item_at};

use crate::error::CertFieldError;
use crate::parts::{copy_of, digits};
use picky_cert::{SshCriticalOption, SshExtension};
use picky_cert_parts::{extension_pieces, option_pieces};
use picky_wire::{Piece, Text, push_pieces};
use std::alloc::{AllocError, Global};

// ---- how many

/// How many items there are, in decimal. Refuses: `NoMemory`.
pub fn count_of<T>(alloc: Global, items: &[T]) -> Result<Vec<u8>, CertFieldError>
    ensures { Gives CertFieldError.NoMemory (λ bytes. bytes.items) result (Ok (decimal (length items.now))) }
{
    digits(alloc, items.len() as u64)
}

// ---- one item; each refuses `NoSuchPlace`

/// The name at the place.
pub fn principal_at(alloc: Global, names: &[Text], place: usize) -> Result<Vec<u8>, CertFieldError>
    ensures { Gives CertFieldError.NoMemory (λ bytes. bytes.items) result (item_at (λ name. name) names.now place) }
{
    match names.get(place) {
        Some(name) => copy_of(alloc, name.as_str().as_bytes()),
        None => Err(CertFieldError::NoSuchPlace),
    }
}

/// The name of the critical option at the place.
pub fn option_name_at(
    alloc: Global,
    options: &[SshCriticalOption],
    place: usize,
) -> Result<Vec<u8>, CertFieldError>
    ensures { Gives CertFieldError.NoMemory (λ bytes. bytes.items) result
        (item_at (λ (o : AnOption). option_name o.option_type) options.now place) }
{
    match options.get(place) {
        Some(option) => copy_of(alloc, option.option_type.as_str().as_bytes()),
        None => Err(CertFieldError::NoSuchPlace),
    }
}

/// The data of the critical option at the place.
pub fn option_payload_at(
    alloc: Global,
    options: &[SshCriticalOption],
    place: usize,
) -> Result<Vec<u8>, CertFieldError>
    ensures { Gives CertFieldError.NoMemory (λ bytes. bytes.items) result
        (item_at (λ (o : AnOption). o.payload) options.now place) }
{
    match options.get(place) {
        Some(option) => copy_of(alloc, option.payload.as_slice()),
        None => Err(CertFieldError::NoSuchPlace),
    }
}

/// The name of the extension at the place.
pub fn extension_name_at(
    alloc: Global,
    extensions: &[SshExtension],
    place: usize,
) -> Result<Vec<u8>, CertFieldError>
    ensures { Gives CertFieldError.NoMemory (λ bytes. bytes.items) result
        (item_at (λ (x : AnExtension). extension_name x.extension_type) extensions.now place) }
{
    match extensions.get(place) {
        Some(extension) => copy_of(alloc, extension.extension_type.as_str().as_bytes()),
        None => Err(CertFieldError::NoSuchPlace),
    }
}

/// The data of the extension at the place.
pub fn extension_payload_at(
    alloc: Global,
    extensions: &[SshExtension],
    place: usize,
) -> Result<Vec<u8>, CertFieldError>
    ensures { Gives CertFieldError.NoMemory (λ bytes. bytes.items) result
        (item_at (λ (x : AnExtension). x.payload) extensions.now place) }
{
    match extensions.get(place) {
        Some(extension) => copy_of(alloc, extension.payload.as_slice()),
        None => Err(CertFieldError::NoSuchPlace),
    }
}

// ---- all items

/// An item of a certificate's list.
pub trait Listed {
    // its one spelling
    ghost spelled: { Self → List ℕ };

    /// Appends the spelling. Refuses: want of memory; what was appended then is left open.
    fn push_to(&self, out: &mut Vec<u8>) -> Result<(), AllocError>
        ensures { OnOk result (out.new.items ≡ out.old.items ++ spelled self.now) };
}

impl Listed for Text {
    ghost spelled = { string_of };

    fn push_to(&self, out: &mut Vec<u8>) -> Result<(), AllocError> {
        push_pieces(out, &[Piece::text(self)])
    }
}

impl Listed for SshCriticalOption {
    ghost spelled = { option_of };

    fn push_to(&self, out: &mut Vec<u8>) -> Result<(), AllocError> {
        push_pieces(out, &option_pieces(self))
    }
}

impl Listed for SshExtension {
    ghost spelled = { extension_of };

    fn push_to(&self, out: &mut Vec<u8>) -> Result<(), AllocError> {
        push_pieces(out, &extension_pieces(self))
    }
}

/// The spellings of the items, one after another. Refuses: `NoMemory`.
pub fn list_of<T: Listed>(alloc: Global, items: &[T]) -> Result<Vec<u8>, CertFieldError>
    ensures { Gives CertFieldError.NoMemory (λ bytes. bytes.items) result (Ok (flat_map T.spelled items.now)) }
{
    match block_of(alloc, items) {
        Ok(block) => Ok(block),
        Err(_) => Err(CertFieldError::NoMemory),
    }
}

fn block_of<T: Listed>(alloc: Global, items: &[T]) -> Result<Vec<u8>, AllocError>
    ensures { IfOk result (λ block. block.items ≡ flat_map T.spelled items.now) }
{
    let mut block = Vec::new(alloc);
    'items: for item in items {
        item.push_to(&mut block)?;
    }
    Ok(block)
}
