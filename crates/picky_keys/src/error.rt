//! Why a public key is not read or written.

use picky_wire::{CodecError, IoKind, NoMemory, Stop, Stuck, WireError, error_of_wire};
use thiserror::Error;

/// Why a public key, or its line, is not read or written.
#[derive(Debug, Drop, PartialEq, Eq, Error)]
pub enum SshPublicKeyError {
    /// The blob is cut inside a field, or a source or a sink failed.
    #[error("IoError")]
    IoError(IoKind),
    /// A string that must be UTF-8 isn't.
    #[error("InvalidUtf8")]
    InvalidUtf8,
    /// The line's second word is no base64.
    #[error("Base64DecodeError")]
    Base64DecodeError,
    /// The line's first word, or the name in the blob, names no key type that is read here.
    #[error("UnknownKeyType")]
    UnknownKeyType,
    /// An Ed25519 key isn't 32 bytes.
    #[error("KeyError")]
    KeyError,
    /// There are more bytes than a length of the wire can say.
    #[error("TooLong")]
    TooLong,
    /// Memory ran out.
    #[error("NoMemory")]
    NoMemory,
}

impl From<WireError> for SshPublicKeyError {
    ghost use Rattle.std.specs.Prelude.{◌≡◌};
    ghost use Rattle.picky_keys.specs.FromWire.{public_key_error};

    ghost from_gives = { λ e result. result ≡ public_key_error e };

    fn from(e: WireError) -> SshPublicKeyError {
        error_of_wire!(e, SshPublicKeyError, IoError, InvalidUtf8)
    }
}

impl CodecError for SshPublicKeyError {
    ghost use Rattle.std.specs.Prelude.{◌≡◌};
    ghost use Rattle.picky_keys.specs.FromWire.{public_key_error};
    ghost use Rattle.picky_keys.specs.carried.FromWire.{errors_stay_apart};

    ghost of_wire = { public_key_error };

    ghost from_alike = { λ e x same. same };

    ghost apart = { errors_stay_apart };

    fn is_no_memory(&self) -> bool {
        matches!(self, SshPublicKeyError::NoMemory)
    }
}

impl From<NoMemory> for SshPublicKeyError {
    ghost use Rattle.std.specs.Prelude.{◌≡◌};
    ghost use Rattle.picky_keys.specs.declared.error.SshPublicKeyError.TheVariants as errors;

    ghost from_gives = { λ _ e. e ≡ errors.NoMemory };

    fn from(_e: NoMemory) -> SshPublicKeyError {
        SshPublicKeyError::NoMemory
    }
}

impl From<Stop> for SshPublicKeyError {
    ghost use Rattle.std.specs.Prelude.{◌≡◌};
    ghost use Rattle.picky_keys.specs.BlobRefusal.{stop_error};

    ghost from_gives = { λ stop result. result ≡ stop_error stop };

    fn from(stop: Stop) -> SshPublicKeyError {
        match stop {
            Stop::Fault => SshPublicKeyError::IoError(IoKind::ReadFault),
            Stop::NoMemory => SshPublicKeyError::NoMemory,
            Stop::Short => SshPublicKeyError::IoError(IoKind::UnexpectedEnd),
            Stop::NotUtf8 => SshPublicKeyError::InvalidUtf8,
            Stop::TooLong => SshPublicKeyError::TooLong,
            Stop::Name => SshPublicKeyError::UnknownKeyType,
            Stop::Length | Stop::Magic | Stop::Number => SshPublicKeyError::KeyError,
        }
    }
}

impl From<Stuck<'_>> for SshPublicKeyError {
    ghost use Rattle.std.specs.Prelude.{◌≡◌};
    ghost use Rattle.picky_wire_base.specs.View.{why_of};
    ghost use Rattle.picky_keys.specs.BlobRefusal.{why_error};

    ghost from_gives = { λ stuck result. result ≡ why_error (why_of stuck) };

    fn from(stuck: Stuck<'_>) -> SshPublicKeyError {
        match stuck {
            Stuck::Short => SshPublicKeyError::IoError(IoKind::UnexpectedEnd),
            Stuck::NotUtf8 => SshPublicKeyError::InvalidUtf8,
            Stuck::Name(_) => SshPublicKeyError::UnknownKeyType,
            Stuck::Length => SshPublicKeyError::KeyError,
            Stuck::Number(_) => SshPublicKeyError::KeyError,
        }
    }
}
