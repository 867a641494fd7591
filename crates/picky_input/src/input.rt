//! The bytes of a source.

ghost use Rattle.std.specs.Prelude.{◌≡◌, ◌<◌, ◌≤◌, ◌+◌, [], length, drop, IfOk, OnOk, IsErrOf, IsSome, vec_len};
ghost use Rattle.picky_wire.specs.Count.{Rose};
ghost use Rattle.picky_wire.specs.Takes.{Calm};
ghost use Rattle.picky_input.specs.Input.{input_limit, TakesInput};

use picky_wire::Source;
use std::alloc::Global;

/// How many bytes a source may have.
const INPUT_LIMIT: usize = 16_777_216;

/// How many bytes are asked for at a time.
const CHUNK: usize = 4096;

/// Why the bytes of a source are not all here.
#[derive(Debug, Drop, PartialEq, Eq)]
pub enum InputError {
    /// The source failed.
    ReadFault,
    /// There are more than 16,777,216 bytes.
    TooLong,
    /// Memory ran out.
    NoMemory,
}

/// All bytes that the source has left. Of those past the limit at most one is taken.
/// Refuses, in order: `ReadFault`, `TooLong`.
pub fn read_input<S: Source>(alloc: Global, source: &mut S) -> Result<Vec<u8>, InputError>
    ensures whole { S.tells source.old → IfOk result (λ v. v.items ≡ S.left source.old) }
    ensures end { S.tells source.old → OnOk result (S.left source.new ≡ []) }
    ensures small { IfOk result (λ v. vec_len v ≤ input_limit) }
    ensures read_fault_only_if_counted { IsErrOf result InputError.ReadFault → Rose (S.faults source.old) (S.faults source.new) }
    ensures too_long { S.tells source.old → IsErrOf result InputError.TooLong → (input_limit < length (S.left source.old))
        × (S.left source.new ≡ drop (input_limit + 1) (S.left source.old)) }
    ensures cut { S.tells source.old → IsErrOf result InputError.ReadFault
        → length (S.left source.old) < input_limit + 1 + length (S.left source.new) }
    ensures taken { S.tells source.old → TakesInput (S.left source.old) (S.left source.new) }
    ensures told { S.tells source.old → S.tells source.new }
    ensures knows_on { IsSome (S.known source.old) → IsSome (S.known source.new) }
    ensures calm { Calm InputError.ReadFault result (S.faults source.old) (S.faults source.new) }
{
    let mut chunk = [0u8; CHUNK];
    let mut input = Vec::new(alloc);
    'chunks: while input.len() <= INPUT_LIMIT {
        let more = (INPUT_LIMIT + 1 - input.len()).min(CHUNK);
        match source.read(&mut chunk[..more]) {
            Ok(0) => return Ok(input),
            Ok(n) => match input.extend_from_slice(&chunk[..n]) {
                Ok(()) => {}
                Err(_) => return Err(InputError::NoMemory),
            },
            Err(_) => return Err(InputError::ReadFault),
        }
    }
    Err(InputError::TooLong)
}
