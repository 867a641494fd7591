//! Why the parts of a certificate, and a certificate, are not read or written.

ghost use Rattle.std.specs.Prelude.{◌≡◌, ◌⊎◌};
ghost use Rattle.picky_wire_base.specs.declared.error.SizeError.TheVariants as sizes;
ghost use Rattle.picky_cert_parts.specs.CertFromWire.{cert_type_error, option_error, extension_error};
ghost use Rattle.picky_cert_parts.specs.CertFromWire.{signature_error, certificate_error};
ghost use Rattle.picky_cert_parts.specs.carried.CertFromWire.{cert_type_error_apart, option_error_apart};
ghost use Rattle.picky_cert_parts.specs.carried.CertFromWire.{extension_error_apart, signature_error_apart};
ghost use Rattle.picky_cert_parts.specs.carried.CertFromWire.{certificate_error_apart};
ghost use Rattle.picky_cert_parts.specs.declared.error.SshCertificateError.TheVariants as errors;

use picky_keys::SshPublicKeyError;
use picky_wire::{CodecError, IoKind, NoMemory, SizeError, Text, WireError, error_of_wire};
use thiserror::Error;

/// Why the type of a certificate is not read or written.
#[derive(Debug, Drop, PartialEq, Eq, Error)]
pub enum SshCertTypeError {
    /// The number is no type of a certificate.
    #[error("InvalidCertificateType")]
    InvalidCertificateType(u32),
    /// The bytes end inside a field, or a source or a sink failed.
    #[error("IoError")]
    IoError(IoKind),
    /// A string that must be UTF-8 isn't.
    #[error("InvalidUtf8")]
    InvalidUtf8,
    /// There are more bytes than a length of the wire can say.
    #[error("TooLong")]
    TooLong,
    /// Memory ran out.
    #[error("NoMemory")]
    NoMemory,
}

impl From<WireError> for SshCertTypeError {
    ghost from_gives = { λ e result. result ≡ cert_type_error e };

    fn from(e: WireError) -> SshCertTypeError {
        error_of_wire!(e, SshCertTypeError, IoError, InvalidUtf8)
    }
}

impl CodecError for SshCertTypeError {
    ghost of_wire = { cert_type_error };

    ghost from_alike = { λ e x same. same };

    ghost apart = { cert_type_error_apart };

    fn is_no_memory(&self) -> bool {
        matches!(self, SshCertTypeError::NoMemory)
    }
}

/// Why a critical option is not read or written.
#[derive(Debug, Drop, PartialEq, Eq, Error)]
pub enum SshCriticalOptionError {
    /// The name names no critical option that is known here.
    #[error("UnsupportedCriticalOptionType")]
    UnsupportedCriticalOptionType(Text),
    /// The bytes end inside a field, or a source or a sink failed.
    #[error("IoError")]
    IoError(IoKind),
    /// A string that must be UTF-8 isn't.
    #[error("InvalidUtf8")]
    InvalidUtf8,
    /// There are more bytes than a length of the wire can say.
    #[error("TooLong")]
    TooLong,
    /// Memory ran out.
    #[error("NoMemory")]
    NoMemory,
}

impl From<WireError> for SshCriticalOptionError {
    ghost from_gives = { λ e result. result ≡ option_error e };

    fn from(e: WireError) -> SshCriticalOptionError {
        error_of_wire!(e, SshCriticalOptionError, IoError, InvalidUtf8)
    }
}

impl CodecError for SshCriticalOptionError {
    ghost of_wire = { option_error };

    ghost from_alike = { λ e x same. same };

    ghost apart = { option_error_apart };

    fn is_no_memory(&self) -> bool {
        matches!(self, SshCriticalOptionError::NoMemory)
    }
}

/// Why an extension is not read or written.
#[derive(Debug, Drop, PartialEq, Eq, Error)]
pub enum SshExtensionError {
    /// The bytes end inside a field, or a source or a sink failed.
    #[error("IoError")]
    IoError(IoKind),
    /// A string that must be UTF-8 isn't.
    #[error("InvalidUtf8")]
    InvalidUtf8,
    /// There are more bytes than a length of the wire can say.
    #[error("TooLong")]
    TooLong,
    /// Memory ran out.
    #[error("NoMemory")]
    NoMemory,
}

impl From<WireError> for SshExtensionError {
    ghost from_gives = { λ e result. result ≡ extension_error e };

    fn from(e: WireError) -> SshExtensionError {
        error_of_wire!(e, SshExtensionError, IoError, InvalidUtf8)
    }
}

impl CodecError for SshExtensionError {
    ghost of_wire = { extension_error };

    ghost from_alike = { λ e x same. same };

    ghost apart = { extension_error_apart };

    fn is_no_memory(&self) -> bool {
        matches!(self, SshExtensionError::NoMemory)
    }
}

/// Why a signature is not read or written.
#[derive(Debug, Drop, PartialEq, Eq, Error)]
pub enum SshSignatureError {
    /// The name names no signature format that is known here.
    #[error("UnsupportedSignatureFormat")]
    UnsupportedSignatureFormat(Text),
    /// The format has a counter and the blob has none, or the other way round. Reading never gives it.
    #[error("BlobMismatch")]
    BlobMismatch,
    /// The bytes end inside a field, or a source or a sink failed.
    #[error("IoError")]
    IoError(IoKind),
    /// A string that must be UTF-8 isn't.
    #[error("InvalidUtf8")]
    InvalidUtf8,
    /// There are more bytes than a length of the wire can say.
    #[error("TooLong")]
    TooLong,
    /// Memory ran out.
    #[error("NoMemory")]
    NoMemory,
}

impl From<WireError> for SshSignatureError {
    ghost from_gives = { λ e result. result ≡ signature_error e };

    fn from(e: WireError) -> SshSignatureError {
        error_of_wire!(e, SshSignatureError, IoError, InvalidUtf8)
    }
}

impl CodecError for SshSignatureError {
    ghost of_wire = { signature_error };

    ghost from_alike = { λ e x same. same };

    ghost apart = { signature_error_apart };

    fn is_no_memory(&self) -> bool {
        matches!(self, SshSignatureError::NoMemory)
    }
}

/// Why a certificate is not read or written.
#[derive(Debug, Drop, PartialEq, Eq, Error)]
pub enum SshCertificateError {
    /// The bytes end inside a field, or a source or a sink failed.
    #[error("CertificateProcessingError")]
    CertificateProcessingError(IoKind),
    /// The name inside is that of DSS certificates, which are not read here.
    #[error("UnsupportedCertificateType")]
    UnsupportedCertificateType(Text),
    /// A critical option is refused.
    #[error("SshCriticalOptionError")]
    SshCriticalOptionError(SshCriticalOptionError),
    /// An extension is refused.
    #[error("SshExtensionError")]
    SshExtensionError(SshExtensionError),
    /// A string that must be UTF-8 isn't.
    #[error("InvalidUtf8")]
    InvalidUtf8,
    /// The line's second word is no base64.
    #[error("Base64DecodeError")]
    Base64DecodeError,
    /// The type, user or host, is refused.
    #[error("InvalidCertificateType")]
    InvalidCertificateType(SshCertTypeError),
    /// The name names no type of certificate.
    #[error("InvalidCertificateKeyType")]
    InvalidCertificateKeyType(Text),
    /// The issuer's key is refused.
    #[error("InvalidPublicKey")]
    InvalidPublicKey(SshPublicKeyError),
    /// An Ed25519 key isn't 32 bytes.
    #[error("KeyError")]
    KeyError,
    /// The type isn't that of the subject's key. Reading never gives it.
    #[error("SubjectMismatch")]
    SubjectMismatch,
    /// The signature is refused.
    #[error("SshSignatureError")]
    SshSignatureError(SshSignatureError),
    /// There are more bytes than a length of the wire can say.
    #[error("TooLong")]
    TooLong,
    /// Memory ran out.
    #[error("NoMemory")]
    NoMemory,
}

impl From<WireError> for SshCertificateError {
    ghost from_gives = { λ e result. result ≡ certificate_error e };

    fn from(e: WireError) -> SshCertificateError {
        error_of_wire!(
            e,
            SshCertificateError,
            CertificateProcessingError,
            InvalidUtf8
        )
    }
}

impl CodecError for SshCertificateError {
    ghost of_wire = { certificate_error };

    ghost from_alike = { λ e x same. same };

    ghost apart = { certificate_error_apart };

    fn is_no_memory(&self) -> bool {
        matches!(self, SshCertificateError::NoMemory)
    }
}

impl From<NoMemory> for SshCertificateError {
    ghost from_gives = { λ _ e. e ≡ errors.NoMemory };

    fn from(_e: NoMemory) -> SshCertificateError {
        SshCertificateError::NoMemory
    }
}

impl From<SizeError> for SshCertificateError {
    ghost from_gives = { λ size e. ((size ≡ sizes.TooLong) × (e ≡ errors.TooLong))
        ⊎ ((size ≡ sizes.NoMemory) × (e ≡ errors.NoMemory)) };

    fn from(size: SizeError) -> SshCertificateError {
        match size {
            SizeError::TooLong => SshCertificateError::TooLong,
            SizeError::NoMemory => SshCertificateError::NoMemory,
        }
    }
}
