//! Why a private key is not read or written.

use crate::pem_error::PemError;
use picky_wire::{CodecError, IoKind, Stop, Text, WireError, error_of_wire};
use thiserror::Error;

/// Why a private key, or its text, is not read or written.
#[derive(Debug, Drop, PartialEq, Eq, Error)]
pub enum SshPrivateKeyError {
    /// A string that must be UTF-8 isn't.
    #[error("FromUtf8Error")]
    FromUtf8Error,
    /// The bytes are cut inside a field, or a source or a sink failed.
    #[error("IoError")]
    IoError(IoKind),
    /// The name of the key type, which is none that is read here.
    #[error("UnsupportedKeyType")]
    UnsupportedKeyType(Text),
    /// The name of the cipher, which is none that is read here.
    #[error("UnsupportedCipher")]
    UnsupportedCipher(Text),
    /// The name of the key derivation, which is none that is read here.
    #[error("UnsupportedKdf")]
    UnsupportedKdf(Text),
    /// The bytes begin with none that mark a private key.
    #[error("InvalidAuthMagicHeader")]
    InvalidAuthMagicHeader,
    /// How many keys there are, which is not one.
    #[error("InvalidKeysAmount")]
    InvalidKeysAmount(u32),
    /// The two check numbers, which differ.
    #[error("InvalidCheckNumbers")]
    InvalidCheckNumbers(u32, u32),
    /// The parts of a key don't agree, or don't have the form of its kind.
    #[error("InvalidKeyFormat")]
    InvalidKeyFormat,
    /// The key is not decrypted.
    #[error("DecryptionError")]
    DecryptionError,
    /// No key is derived from the passphrase.
    #[error("HashingError")]
    HashingError,
    /// The key is encrypted, and there is no passphrase.
    #[error("MissingPassphrase")]
    MissingPassphrase,
    /// An Ed25519 public key isn't 32 bytes.
    #[error("KeyError")]
    KeyError,
    /// The text is no PEM.
    #[error("PemError")]
    PemError(PemError),
    /// The suite of cryptography failed.
    #[error("SuiteFault")]
    SuiteFault,
    /// There are more bytes than a length of the wire can say.
    #[error("TooLong")]
    TooLong,
    /// Memory ran out.
    #[error("NoMemory")]
    NoMemory,
    /// The public key that stands before the private one is another.
    #[error("PublicKeyMismatch")]
    PublicKeyMismatch,
}

impl From<WireError> for SshPrivateKeyError {
    ghost use Rattle.std.specs.Prelude.{◌≡◌};
    ghost use Rattle.picky_sshkey_blob.specs.FromWire.{private_key_error};

    ghost from_gives = { λ e result. result ≡ private_key_error e };

    fn from(e: WireError) -> SshPrivateKeyError {
        error_of_wire!(e, SshPrivateKeyError, IoError, FromUtf8Error)
    }
}

impl CodecError for SshPrivateKeyError {
    ghost use Rattle.std.specs.Prelude.{◌≡◌};
    ghost use Rattle.picky_sshkey_blob.specs.FromWire.{private_key_error};
    ghost use Rattle.picky_sshkey_blob.specs.carried.FromWire.{errors_stay_apart};

    ghost of_wire = { private_key_error };

    ghost from_alike = { λ e x same. same };

    ghost apart = { errors_stay_apart };

    fn is_no_memory(&self) -> bool {
        matches!(self, SshPrivateKeyError::NoMemory)
    }
}

impl From<Stop> for SshPrivateKeyError {
    ghost use Rattle.std.specs.Prelude.{◌≡◌};
    ghost use Rattle.picky_sshkey_blob.specs.BlobRefusal.{private_stop_error};

    ghost from_gives = { λ stop result. result ≡ private_stop_error stop };

    fn from(stop: Stop) -> SshPrivateKeyError {
        match stop {
            Stop::Fault => SshPrivateKeyError::IoError(IoKind::ReadFault),
            Stop::NoMemory => SshPrivateKeyError::NoMemory,
            Stop::Short => SshPrivateKeyError::IoError(IoKind::UnexpectedEnd),
            Stop::NotUtf8 => SshPrivateKeyError::FromUtf8Error,
            Stop::TooLong => SshPrivateKeyError::TooLong,
            Stop::Magic => SshPrivateKeyError::InvalidKeyFormat,
            Stop::Length | Stop::Name | Stop::Number => SshPrivateKeyError::KeyError,
        }
    }
}
