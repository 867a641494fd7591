//! What to say of each refusal of a conversion: each variant of each error is named, so that a new one is seen here.

use picky::convert::{ConvertError, ReadError};
use picky::putty::PuttyError;
use picky::ssh::SshCertificateError;

/// What the caller of a conversion may do about its refusal.
pub fn advice_on(error: &ConvertError) -> &'static str {
    match error {
        ConvertError::Input(read) | ConvertError::Issuer(read) => advice_on_reading(read),
        ConvertError::NoPrivateKey => "give the private key",
        ConvertError::CommentNotCarried => "change the comment",
        ConvertError::Request(_) => "ask for another certificate",
        ConvertError::Private(_) => "give another passphrase",
        ConvertError::Putty(putty) => advice_on_putty(putty),
        ConvertError::FreshTooShort => "give more fresh bytes",
        ConvertError::TooLong | ConvertError::TooManyLines => "give a shorter key or comment",
        ConvertError::NoMemory => "free some memory",
    }
}

/// The same of a key text that isn't read.
fn advice_on_reading(error: &ReadError) -> &'static str {
    match error {
        ReadError::Private(_) => "look at the private key file",
        ReadError::Public(_) => "look at the public key line",
        ReadError::Certificate(certificate) => advice_on_certificate(certificate),
        ReadError::Putty(putty) => advice_on_putty(putty),
        ReadError::NoMemory => "free some memory",
    }
}

/// The same of a certificate's line.
fn advice_on_certificate(error: &SshCertificateError) -> &'static str {
    match error {
        SshCertificateError::InvalidCertificateKeyType(_)
        | SshCertificateError::UnsupportedCertificateType(_) =>
            "take a certificate of another type",
        SshCertificateError::Base64DecodeError
        | SshCertificateError::InvalidUtf8
        | SshCertificateError::CertificateProcessingError(_) => "look whether the line is whole",
        SshCertificateError::InvalidCertificateType(_)
        | SshCertificateError::SshCriticalOptionError(_)
        | SshCertificateError::SshExtensionError(_)
        | SshCertificateError::SshSignatureError(_)
        | SshCertificateError::InvalidPublicKey(_)
        | SshCertificateError::KeyError
        | SshCertificateError::SubjectMismatch => "have the certificate issued anew",
        SshCertificateError::TooLong => "take a shorter certificate",
        SshCertificateError::NoMemory => "free some memory",
    }
}

/// The same of PuTTY's files.
fn advice_on_putty(error: &PuttyError) -> &'static str {
    match error {
        PuttyError::EndOfInput
        | PuttyError::InvalidInput { .. }
        | PuttyError::InvalidKeyValueFormat
        | PuttyError::IoError(_)
        | PuttyError::InvalidPublicKeyData
        | PuttyError::InvalidPublicKeyContainer
        | PuttyError::InvalidPublicKeyComment => "look whether the file is whole",
        PuttyError::MacValidation => "give the right passphrase, or the file as it was written",
        PuttyError::Encrypted => "give the passphrase",
        PuttyError::AlreadyDecrypted | PuttyError::AlreadyEncrypted => "leave out the passphrase",
        PuttyError::Aes | PuttyError::Argon2 | PuttyError::SuiteFault => "look at the suite",
        PuttyError::PublicAndPrivateKeyMismatch
        | PuttyError::InvalidPrivateKeyData
        | PuttyError::SshPublicKey(_) => "make the key anew",
        PuttyError::NotSupported { .. } => "keep the key in OpenSSH's form",
        PuttyError::TooLong | PuttyError::TooManyLines => "give a shorter key or comment",
        PuttyError::NoMemory => "free some memory",
    }
}
