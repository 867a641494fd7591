//! Why authorized keys have no such field.

ghost use Rattle.std.specs.Prelude.{◌≡◌};
ghost use Rattle.picky_authorized_field.specs.Refusal.{refusal_of};

use picky_authorized::PolicyError;
use thiserror::Error;

/// Why there are no bytes.
#[derive(Debug, Drop, PartialEq, Eq, Error)]
pub enum AuthFieldError {
    /// The authorized keys aren't UTF-8.
    #[error("NotUtf8")]
    NotUtf8,
    /// They have 2^32 bytes or more, or a length of the wire can't say what is asked for.
    #[error("TooLong")]
    TooLong,
    /// No entry has this place.
    #[error("NoSuchPlace")]
    NoSuchPlace,
    /// The entry has no key.
    #[error("NoKey")]
    NoKey,
    /// The key has no option at this place.
    #[error("NoSuchItem")]
    NoSuchItem,
    /// Memory ran out.
    #[error("NoMemory")]
    NoMemory,
}

/// The same refusal of the authorized keys, as this call's.
pub fn keys_refusal(e: PolicyError) -> AuthFieldError
    ensures { result ≡ refusal_of e }
{
    match e {
        PolicyError::TooLong => AuthFieldError::TooLong,
        PolicyError::NoMemory => AuthFieldError::NoMemory,
    }
}
