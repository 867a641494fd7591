//! Why a PuTTY file is not read or made.

use picky_keys::SshPublicKeyError;
use picky_wire::{IoKind, NoMemory, Text};
use thiserror::Error;

/// Why a PuTTY file is not read or made.
#[derive(Debug, Drop, PartialEq, Eq, Error)]
pub enum PuttyError {
    /// A line is missing.
    #[error("EndOfInput")]
    EndOfInput,
    /// A line's key or value, a count or a joined block is none that is known there.
    #[error("InvalidInput")]
    InvalidInput {
        context: Text,
        expected: Text,
        actual: Text,
    },
    /// A line has no `: `.
    #[error("InvalidKeyValueFormat")]
    InvalidKeyValueFormat,
    /// A sealed block is no multiple of 16 bytes.
    #[error("Aes")]
    Aes,
    /// Argon2 can't be run with these numbers.
    #[error("Argon2")]
    Argon2,
    /// The MAC is another than the one of the fields.
    #[error("MacValidation")]
    MacValidation,
    /// The public blob is of another kind or curve than the algorithm.
    #[error("PublicAndPrivateKeyMismatch")]
    PublicAndPrivateKeyMismatch,
    /// An Ed25519 secret has more than 32 bytes.
    #[error("InvalidPrivateKeyData")]
    InvalidPrivateKeyData,
    /// The body of a public key is no base64.
    #[error("InvalidPublicKeyData")]
    InvalidPublicKeyData,
    /// The first line is not the header of a public key.
    #[error("InvalidPublicKeyContainer")]
    InvalidPublicKeyContainer,
    /// The second line is no comment line of a public key.
    #[error("InvalidPublicKeyComment")]
    InvalidPublicKeyComment,
    /// The file is not sealed.
    #[error("AlreadyDecrypted")]
    AlreadyDecrypted,
    /// The file is sealed already.
    #[error("AlreadyEncrypted")]
    AlreadyEncrypted,
    /// The file is sealed.
    #[error("Encrypted")]
    Encrypted,
    /// PuTTY has no such key.
    #[error("NotSupported")]
    NotSupported {
        /// What PuTTY lacks.
        feature: Text,
    },
    /// The blob holds no public key.
    #[error("SshPublicKey")]
    SshPublicKey(SshPublicKeyError),
    /// A blob is cut.
    #[error("IoError")]
    IoError(IoKind),
    /// The suite failed.
    #[error("SuiteFault")]
    SuiteFault,
    /// There are more bytes than a length of the wire can say.
    #[error("TooLong")]
    TooLong,
    /// A block needs more than 65,535 lines.
    #[error("TooManyLines")]
    TooManyLines,
    /// Memory ran out.
    #[error("NoMemory")]
    NoMemory,
}

impl From<NoMemory> for PuttyError {
    ghost use Rattle.std.specs.Prelude.{◌≡◌};
    ghost use Rattle.picky_ppk_parts.specs.declared.error.PuttyError.TheVariants as errors;

    ghost from_gives = { λ _ e. e ≡ errors.NoMemory };

    fn from(_e: NoMemory) -> PuttyError {
        PuttyError::NoMemory
    }
}
