//! The lists of a certificate, written.

ghost use Rattle.std.specs.Prelude.{◌≡◌, ◌++◌, ◌^◌, ◌<◌, ◌≤◌, ℕ, List, length, IfErr, IfOk, OnOk};
ghost use Rattle.std.specs.List.{flat_map};
ghost use Rattle.picky_wire_base.specs.Wire.{string_of};
ghost use Rattle.picky_cert_parts.specs.CriticalOption.{option_of};
ghost use Rattle.picky_cert_parts.specs.Extension.{extension_of};

use picky_cert_parts::{SshCriticalOption, SshExtension, extension_pieces, option_pieces};
use picky_wire::{MAX_LEN, Piece, SizeError, Text, push_pieces};
use std::alloc::{AllocError, Global};

/// A value of a certificate's list.
pub trait Listed {
    // its one spelling
    ghost spelled: { Self → List ℕ };

    /// Appends the spelling. Refuses: want of memory; what was appended then is left open.
    fn push_to(&self, out: &mut Vec<u8>) -> Result<(), AllocError>
        ensures { OnOk result (out.new.items ≡ out.old.items ++ spelled self.now) };
}

impl Listed for Text {
    ghost spelled = { string_of };

    fn push_to(&self, out: &mut Vec<u8>) -> Result<(), AllocError> {
        push_pieces(out, &[Piece::text(self)])
    }
}

impl Listed for SshCriticalOption {
    ghost spelled = { option_of };

    fn push_to(&self, out: &mut Vec<u8>) -> Result<(), AllocError> {
        push_pieces(out, &option_pieces(self))
    }
}

impl Listed for SshExtension {
    ghost spelled = { extension_of };

    fn push_to(&self, out: &mut Vec<u8>) -> Result<(), AllocError> {
        push_pieces(out, &extension_pieces(self))
    }
}

/// The spellings of a list's values, one after another.
///
/// Refuses: `TooLong`, where they have 2^32 bytes or more.
pub fn block_of<T: Listed>(alloc: Global, items: &[T]) -> Result<Vec<u8>, SizeError>
    ensures block { IfOk result (λ block. block.items ≡ flat_map T.spelled items.now) }
    ensures short { IfOk result (λ block. length block.items < 2 ^ 32) }
    ensures too_long { IfErr result (λ e. e ≡ SizeError.TooLong → 2 ^ 32 ≤ length (flat_map T.spelled items.now)) }
{
    let mut block = Vec::new(alloc);
    'items: for item in items {
        match item.push_to(&mut block) {
            Ok(()) => {}
            Err(_) => return Err(SizeError::NoMemory),
        }
    }
    if block.len() > MAX_LEN {
        return Err(SizeError::TooLong);
    }
    Ok(block)
}
