//! Fields, one after another in one buffer.

ghost use Rattle.std.specs.Prelude.{◌≡◌, IfOk};
ghost use Rattle.std.specs.List.{concat};

use picky_wire::{NoMemory, Piece, pieces_len, push_pieces};
use std::alloc::{AllocError, Global};

/// The fields' bytes. Refuses: `NoMemory`.
pub fn joined_pieces(alloc: Global, fields: &[Piece<'_>]) -> Result<Vec<u8>, NoMemory>
    ensures { IfOk result (λ bytes. bytes.items ≡ concat fields.now) }
{
    match filled(alloc, fields) {
        Ok(bytes) => Ok(bytes),
        Err(_) => Err(NoMemory),
    }
}

fn filled(alloc: Global, fields: &[Piece<'_>]) -> Result<Vec<u8>, AllocError>
    ensures { IfOk result (λ bytes. bytes.items ≡ concat fields.now) }
{
    let mut bytes = Vec::with_capacity(alloc, pieces_len(fields) as usize)?;
    push_pieces(&mut bytes, fields)?;
    Ok(bytes)
}
