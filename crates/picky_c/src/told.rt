//! Bytes that are handed out with a number.

ghost use Rattle.std.specs.Prelude.{◌≡◌, Ok};
ghost use Rattle.picky_wire_base.specs.Gives.{Gives};
ghost use Rattle.picky_wire_base.specs.Outcome.{map_ok};
ghost use Rattle.picky_c.specs.Told.{HandsTold, asked as asked_of, numbered, seen, whole as whole_of};

use crate::answer::{PickyAnswer, hand_out, refuse};
use crate::error::PickyError;
use crate::number::number_of;
use crate::shown::digits;
use std::alloc::Global;

/// Bytes, and the number that comes with them.
#[derive(Drop)]
pub struct Told {
    pub number: u32,
    pub bytes: Vec<u8>,
}

/// What was asked for.
pub fn whole(bytes: Vec<u8>) -> Told
    ensures { seen result ≡ whole_of bytes.items }
{
    Told { number: 0, bytes }
}

/// Questions that answers lack.
pub fn asked(bytes: Vec<u8>) -> Told
    ensures { seen result ≡ asked_of bytes.items }
{
    let number = number_of(&PickyError::Asked);
    Told { number, bytes }
}

/// Hands out what a call comes to.
pub fn hand_told(told: Result<Told, PickyError>, out: &mut [u8]) -> PickyAnswer
    ensures { HandsTold (map_ok seen told) result out.old out.new }
{
    match told {
        Ok(told) => hand_out(told.number, told.bytes.as_slice(), out),
        Err(e) => refuse(e),
    }
}

/// The number of a reason, with that of a line or a place in decimal. Refuses: `NoMemory`.
pub fn told_of(alloc: Global, e: PickyError, number: usize) -> Result<Told, PickyError>
    ensures { Gives PickyError.NoMemory seen result (Ok (numbered e number)) }
{
    let error = number_of(&e);
    drop(e);
    match digits(alloc, number) {
        Ok(bytes) => Ok(Told {
            number: error,
            bytes,
        }),
        Err(e) => Err(e),
    }
}
