//! Why a login comes to nothing.

ghost use Rattle.std.specs.Prelude.{◌≡◌};
ghost use Rattle.picky_login.specs.Refusal.{keys_refusal as keys_refusal_of, offer_refusal as offer_refusal_of};
ghost use Rattle.picky_login.specs.Refusal.{table_refusal as table_refusal_of};

use picky_ask::TableError;
use picky_key_text::ReadError;
use picky_policy::PolicyError;
use thiserror::Error;

/// Why nothing is decided.
#[derive(Debug, Drop, Error)]
pub enum LoginError {
    /// The authorized keys aren't UTF-8.
    #[error("AuthorizedNotUtf8")]
    AuthorizedNotUtf8,
    /// The offer isn't UTF-8.
    #[error("OfferNotUtf8")]
    OfferNotUtf8,
    /// The user's name isn't UTF-8.
    #[error("UserNotUtf8")]
    UserNotUtf8,
    /// The answers are no table.
    #[error("Answers")]
    Answers(TableError),
    /// The authorized keys have 2^32 bytes or more.
    #[error("AuthorizedTooLong")]
    AuthorizedTooLong,
    /// The offer is no key and no certificate.
    #[error("Offer")]
    Offer(ReadError),
    /// The answer to the question isn't one byte.
    #[error("WrongLength")]
    WrongLength,
    /// It is one byte, and neither 0 nor 1.
    #[error("UnknownByte")]
    UnknownByte,
    /// A part of the question has 2^32 bytes or more, so no bytes say it.
    #[error("TooLong")]
    TooLong,
    /// Memory ran out.
    #[error("NoMemory")]
    NoMemory,
}

/// A refusal of the answers, where want of memory is the outer want.
pub fn table_refusal(e: TableError) -> LoginError
    ensures { result ≡ table_refusal_of e }
{
    match e {
        TableError::NoMemory => {
            drop(e);
            LoginError::NoMemory
        }
        e => LoginError::Answers(e),
    }
}

/// A refusal of the authorized keys.
pub fn keys_refusal(e: PolicyError) -> LoginError
    ensures { result ≡ keys_refusal_of e }
{
    match e {
        PolicyError::TooLong => LoginError::AuthorizedTooLong,
        PolicyError::NoMemory => LoginError::NoMemory,
    }
}

/// A refusal of the offer, where want of memory is the outer want.
pub fn offer_refusal(e: ReadError) -> LoginError
    ensures { result ≡ offer_refusal_of e }
{
    match e {
        ReadError::NoMemory => {
            drop(e);
            LoginError::NoMemory
        }
        e => LoginError::Offer(e),
    }
}
