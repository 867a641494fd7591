//! The errors for what PuTTY's files have no key of.

ghost use Rattle.std.specs.Prelude.{◌≡◌, ◌⊎◌};
ghost use Rattle.picky_ppk_parts.specs.Unsupported.{no_security_keys as no_security_keys_of};
ghost use Rattle.picky_ppk_parts.specs.Unsupported.{no_such_algorithm as no_such_algorithm_of};

use crate::error::PuttyError;
use picky_wire::Text;
use std::alloc::Global;

/// What PuTTY lacks: keys whose secret a device keeps.
const SECURITY_KEYS: &str = "SK keys";

/// What is read by its name alone: DSS and Ed448.
const ALGORITHM: &str = "unsupported key algorithm";

/// The error for a key whose secret a device keeps, or `NoMemory`.
pub fn no_security_keys(alloc: Global) -> PuttyError
    ensures { (result ≡ no_security_keys_of) ⊎ (result ≡ PuttyError.NoMemory) }
{
    match Text::new(alloc, SECURITY_KEYS) {
        Ok(feature) => PuttyError::NotSupported { feature },
        Err(_) => PuttyError::NoMemory,
    }
}

/// The error for an algorithm that is read by its name alone, or `NoMemory`.
pub fn no_such_algorithm(alloc: Global) -> PuttyError
    ensures { (result ≡ no_such_algorithm_of) ⊎ (result ≡ PuttyError.NoMemory) }
{
    match Text::new(alloc, ALGORITHM) {
        Ok(feature) => PuttyError::NotSupported { feature },
        Err(_) => PuttyError::NoMemory,
    }
}
