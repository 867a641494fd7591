//! The pieces of fields, written.

ghost use Rattle.std.specs.Prelude.{◌<◌, ◌+◌, ◌++◌};
ghost use Rattle.std.specs.List.{concat};
ghost use Rattle.picky_wire.specs.Puts.{Puts};

use crate::error::WireError;
use crate::sink::Sink;
use crate::write::write_all;
use picky_wire_base::Piece;

/// Writes one field. Refuses: `WriteFault`.
pub fn write_piece<S: Sink>(stream: &mut S, piece: &Piece<'_>) -> Result<(), WireError>
    ensures { Puts S.tells S.written S.faults WireError.WriteFault piece.now result stream.old stream.new }
{
    let (head, body) = piece.parts();
    write_both(stream, head, body)
}

/// Writes all of the front, and then all of the bytes.
#[tactic(auto, using(crate::proofs::WriteLemmas::in_order))]
fn write_both<S: Sink>(stream: &mut S, front: &[u8], bytes: &[u8]) -> Result<(), WireError>
    ensures { Puts S.tells S.written S.faults WireError.WriteFault (front.now ++ bytes.now) result stream.old stream.new }
{
    match write_all(stream, front) {
        Ok(()) => write_all(stream, bytes),
        Err(e) => Err(e),
    }
}

/// Writes one field after another. Refuses: `WriteFault`.
pub fn write_pieces<S: Sink>(stream: &mut S, pieces: &[Piece<'_>]) -> Result<(), WireError>
    ensures { Puts S.tells S.written S.faults WireError.WriteFault (concat pieces.now) result stream.old stream.new }
{
    'pieces: for piece in pieces {
        match write_piece(stream, piece) {
            Ok(()) => {}
            Err(e) => return Err(e),
        }
    }
    Ok(())
}
