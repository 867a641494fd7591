//! How long the strings are that private bytes begin with.

ghost use Rattle.std.specs.Prelude.{◌≡◌, ◌≤◌, length, IfOk};
ghost use Rattle.picky_ppk_parts.specs.Counted.{counted};

use crate::error::PuttyError;
use crate::names::PpkKeyAlgorithm;
use picky_wire::{IoKind, string_at};

/// How many of the private bytes the strings take that the algorithm counts; the rest is padding.
///
/// Four strings for RSA, and one for the others. Refuses, in order: `IoError(UnexpectedEnd)`, where a string is cut.
pub fn counted_len(algorithm: PpkKeyAlgorithm, private: &[u8]) -> Result<usize, PuttyError>
    ensures exact { result ≡ counted algorithm private.now }
    ensures within { IfOk result (λ len. len ≤ length private.now) }
{
    let mut place = 0;
    'strings: for _ in 0..algorithm.key_mpint_values_count() {
        match string_at(private, place) {
            Ok((_, next)) => place = next,
            Err(_) => return Err(PuttyError::IoError(IoKind::UnexpectedEnd)),
        }
    }
    Ok(place)
}
