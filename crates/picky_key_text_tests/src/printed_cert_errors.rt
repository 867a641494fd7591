//! The texts of the errors of certificates: each is its variant's name, whatever the variant holds.

use crate::printed_errors::{prints, prints_one, some_text};
use picky_cert_parts::{
    SshCertTypeError, SshCertificateError, SshCriticalOptionError, SshExtensionError,
    SshSignatureError,
};
use picky_key_text::ReadError;
use picky_keys::SshPublicKeyError;
use picky_wire::IoKind;
use std::mem::ManuallyDrop;
use std::test::Fail;

#[test]
fn prints_the_errors_of_types(rt: HostRuntime) -> Result<(), Fail> {
    prints(
        &rt,
        &[
            (
                SshCertTypeError::InvalidCertificateType(3),
                "InvalidCertificateType",
            ),
            (SshCertTypeError::IoError(IoKind::UnexpectedEnd), "IoError"),
            (SshCertTypeError::InvalidUtf8, "InvalidUtf8"),
            (SshCertTypeError::TooLong, "TooLong"),
            (SshCertTypeError::NoMemory, "NoMemory"),
        ],
    )?;
    Ok(())
}

#[test]
fn prints_the_errors_of_options(rt: HostRuntime) -> Result<(), Fail> {
    prints_one(
        &rt,
        SshCriticalOptionError::UnsupportedCriticalOptionType(some_text(rt.alloc())?),
        "UnsupportedCriticalOptionType",
    )?;
    let rows = ManuallyDrop::new([
        (
            SshCriticalOptionError::IoError(IoKind::UnexpectedEnd),
            "IoError",
        ),
        (SshCriticalOptionError::InvalidUtf8, "InvalidUtf8"),
        (SshCriticalOptionError::TooLong, "TooLong"),
        (SshCriticalOptionError::NoMemory, "NoMemory"),
    ]);
    prints(&rt, rows.as_slice())?;
    Ok(())
}

#[test]
fn prints_the_errors_of_extensions(rt: HostRuntime) -> Result<(), Fail> {
    prints(
        &rt,
        &[
            (SshExtensionError::IoError(IoKind::ReadFault), "IoError"),
            (SshExtensionError::InvalidUtf8, "InvalidUtf8"),
            (SshExtensionError::TooLong, "TooLong"),
            (SshExtensionError::NoMemory, "NoMemory"),
        ],
    )?;
    Ok(())
}

#[test]
fn prints_the_errors_of_signatures(rt: HostRuntime) -> Result<(), Fail> {
    prints_one(
        &rt,
        SshSignatureError::UnsupportedSignatureFormat(some_text(rt.alloc())?),
        "UnsupportedSignatureFormat",
    )?;
    let rows = ManuallyDrop::new([
        (SshSignatureError::BlobMismatch, "BlobMismatch"),
        (SshSignatureError::IoError(IoKind::WriteFault), "IoError"),
        (SshSignatureError::InvalidUtf8, "InvalidUtf8"),
        (SshSignatureError::TooLong, "TooLong"),
        (SshSignatureError::NoMemory, "NoMemory"),
    ]);
    prints(&rt, rows.as_slice())?;
    Ok(())
}

#[test]
fn prints_the_errors_of_certificates(rt: HostRuntime) -> Result<(), Fail> {
    prints_one(
        &rt,
        SshCertificateError::UnsupportedCertificateType(some_text(rt.alloc())?),
        "UnsupportedCertificateType",
    )?;
    prints_one(
        &rt,
        SshCertificateError::InvalidCertificateKeyType(some_text(rt.alloc())?),
        "InvalidCertificateKeyType",
    )?;
    let rows = ManuallyDrop::new([
        (
            SshCertificateError::CertificateProcessingError(IoKind::UnexpectedEnd),
            "CertificateProcessingError",
        ),
        (
            SshCertificateError::SshCriticalOptionError(SshCriticalOptionError::TooLong),
            "SshCriticalOptionError",
        ),
        (
            SshCertificateError::SshExtensionError(SshExtensionError::TooLong),
            "SshExtensionError",
        ),
        (SshCertificateError::InvalidUtf8, "InvalidUtf8"),
        (SshCertificateError::Base64DecodeError, "Base64DecodeError"),
        (
            SshCertificateError::InvalidCertificateType(SshCertTypeError::TooLong),
            "InvalidCertificateType",
        ),
        (
            SshCertificateError::InvalidPublicKey(SshPublicKeyError::KeyError),
            "InvalidPublicKey",
        ),
        (SshCertificateError::KeyError, "KeyError"),
        (SshCertificateError::SubjectMismatch, "SubjectMismatch"),
        (
            SshCertificateError::SshSignatureError(SshSignatureError::TooLong),
            "SshSignatureError",
        ),
        (SshCertificateError::TooLong, "TooLong"),
        (SshCertificateError::NoMemory, "NoMemory"),
    ]);
    prints(&rt, rows.as_slice())?;
    prints_one(
        &rt,
        ReadError::Certificate(SshCertificateError::KeyError),
        "Certificate",
    )?;
    Ok(())
}
