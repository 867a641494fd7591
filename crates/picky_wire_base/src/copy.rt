//! Copies, which may fail for want of memory.

ghost use Rattle.std.specs.Prelude.{◌≡◌, IfOk, IsOk, Ok};

use crate::error::NoMemory;
use std::alloc::Global;

/// A value that can be copied where there is memory for it.
pub trait TryClone: Sized {
    /// An equal value. Refuses: `NoMemory`.
    fn try_clone(&self, alloc: Global) -> Result<Self, NoMemory>
        ensures { IfOk result (λ copy. copy ≡ self.now) };
}

/// Both values, where memory sufficed for both: a function that pairs what it copies has nothing to drop. Refuses: `NoMemory`.
pub fn both<A: Drop, B: Drop>(
    a: Result<A, NoMemory>,
    b: Result<B, NoMemory>,
) -> Result<(A, B), NoMemory>
    ensures pair { IfOk result (λ pair. (a ≡ Ok pair.0) × (b ≡ Ok pair.1)) }
    ensures whole { IsOk a → IsOk b → IsOk result }
{
    match a {
        Ok(a) => match b {
            Ok(b) => Ok((a, b)),
            Err(NoMemory) => Err(NoMemory),
        },
        Err(NoMemory) => Err(NoMemory),
    }
}
