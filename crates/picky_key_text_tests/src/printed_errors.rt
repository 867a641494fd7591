//! The texts of errors: each is its variant's name, whatever the variant holds.

use crate::ppk_fields::parsing_error;
use picky_cert_builder::SshCertificateGenerationError;
use picky_key_text::ReadError;
use picky_keys::SshPublicKeyError;
use picky_kv::{BlockError, KvError, PpkValueError};
use picky_ppk::PuttyError;
use picky_sshkey::{PemError, SshPrivateKeyError};
use picky_suite::SignError;
use picky_target::ConvertError;
use picky_wire::{Failed, IoKind, NoMemory, SizeError, Text, WireError};
use std::alloc::{AllocError, AllocGlobal, Global};
use std::fmt::Display;
use std::mem::ManuallyDrop;
use std::process::Abort;
use std::test::Fail;

/// Each error prints its name.
pub fn prints<E: Display>(
    rt: &(impl Abort + AllocGlobal),
    rows: &[(E, &str)],
) -> Result<(), AllocError> {
    for (error, name) in rows {
        let text = ManuallyDrop::new(format!(in rt.alloc(); "{error}")?);
        assert!(rt; text.as_str() == *name, "{name}");
    }
    Ok(())
}

/// The error prints its name.
pub fn prints_one<E: Display + Drop>(
    rt: &(impl Abort + AllocGlobal),
    error: E,
    name: &str,
) -> Result<(), AllocError> {
    let error = ManuallyDrop::new(error);
    let error = &*error;
    let text = ManuallyDrop::new(format!(in rt.alloc(); "{error}")?);
    assert!(rt; text.as_str() == name, "{name}");
    Ok(())
}

/// A text of no name.
pub fn some_text(alloc: Global) -> Result<Text, Fail> {
    Ok(Text::new(alloc, "ssh-dss")?)
}

/// Three of them.
fn three_texts(alloc: Global) -> Result<[Text; 3], Fail> {
    let one = ManuallyDrop::new(some_text(alloc)?);
    let two = ManuallyDrop::new(some_text(alloc)?);
    let three = some_text(alloc)?;
    Ok([
        ManuallyDrop::into_inner(one),
        ManuallyDrop::into_inner(two),
        three,
    ])
}

#[test]
fn prints_the_errors_of_the_wire(rt: HostRuntime) -> Result<(), Fail> {
    prints(&rt, &[(NoMemory, "NoMemory")])?;
    prints(&rt, &[(Failed, "Failed")])?;
    prints(
        &rt,
        &[
            (SizeError::TooLong, "TooLong"),
            (SizeError::NoMemory, "NoMemory"),
        ],
    )?;
    prints(
        &rt,
        &[
            (IoKind::UnexpectedEnd, "UnexpectedEnd"),
            (IoKind::ReadFault, "ReadFault"),
            (IoKind::WriteFault, "WriteFault"),
        ],
    )?;
    prints(
        &rt,
        &[
            (WireError::UnexpectedEnd, "UnexpectedEnd"),
            (WireError::ReadFault, "ReadFault"),
            (WireError::WriteFault, "WriteFault"),
            (WireError::InvalidUtf8, "InvalidUtf8"),
            (WireError::TooLong, "TooLong"),
            (WireError::NoMemory, "NoMemory"),
        ],
    )?;
    Ok(())
}

#[test]
fn prints_the_errors_of_signers(rt: HostRuntime) -> Result<(), Fail> {
    prints(
        &rt,
        &[
            (SignError::Failed, "Failed"),
            (SignError::NoMemory, "NoMemory"),
        ],
    )?;
    Ok(())
}

#[test]
fn prints_the_errors_of_public_keys(rt: HostRuntime) -> Result<(), Fail> {
    prints(
        &rt,
        &[
            (SshPublicKeyError::IoError(IoKind::ReadFault), "IoError"),
            (SshPublicKeyError::InvalidUtf8, "InvalidUtf8"),
            (SshPublicKeyError::Base64DecodeError, "Base64DecodeError"),
            (SshPublicKeyError::UnknownKeyType, "UnknownKeyType"),
            (SshPublicKeyError::KeyError, "KeyError"),
            (SshPublicKeyError::TooLong, "TooLong"),
            (SshPublicKeyError::NoMemory, "NoMemory"),
        ],
    )?;
    Ok(())
}

#[test]
fn prints_the_errors_of_ppk_blocks(rt: HostRuntime) -> Result<(), Fail> {
    prints(
        &rt,
        &[
            (BlockError::BadBase64, "BadBase64"),
            (BlockError::TooLong, "TooLong"),
            (BlockError::NoMemory, "NoMemory"),
        ],
    )?;
    Ok(())
}

#[test]
fn prints_the_errors_of_private_keys(rt: HostRuntime) -> Result<(), Fail> {
    prints_one(
        &rt,
        SshPrivateKeyError::UnsupportedKeyType(some_text(rt.alloc())?),
        "UnsupportedKeyType",
    )?;
    prints_one(
        &rt,
        SshPrivateKeyError::UnsupportedCipher(some_text(rt.alloc())?),
        "UnsupportedCipher",
    )?;
    prints_one(
        &rt,
        SshPrivateKeyError::UnsupportedKdf(some_text(rt.alloc())?),
        "UnsupportedKdf",
    )?;
    let rows = ManuallyDrop::new([
        (SshPrivateKeyError::FromUtf8Error, "FromUtf8Error"),
        (
            SshPrivateKeyError::IoError(IoKind::UnexpectedEnd),
            "IoError",
        ),
        (
            SshPrivateKeyError::InvalidAuthMagicHeader,
            "InvalidAuthMagicHeader",
        ),
        (
            SshPrivateKeyError::InvalidKeysAmount(2),
            "InvalidKeysAmount",
        ),
        (
            SshPrivateKeyError::InvalidCheckNumbers(1, 2),
            "InvalidCheckNumbers",
        ),
        (SshPrivateKeyError::InvalidKeyFormat, "InvalidKeyFormat"),
        (SshPrivateKeyError::DecryptionError, "DecryptionError"),
        (SshPrivateKeyError::HashingError, "HashingError"),
        (SshPrivateKeyError::MissingPassphrase, "MissingPassphrase"),
        (SshPrivateKeyError::KeyError, "KeyError"),
        (
            SshPrivateKeyError::PemError(PemError::BadBase64),
            "PemError",
        ),
        (SshPrivateKeyError::SuiteFault, "SuiteFault"),
        (SshPrivateKeyError::TooLong, "TooLong"),
        (SshPrivateKeyError::NoMemory, "NoMemory"),
        (SshPrivateKeyError::PublicKeyMismatch, "PublicKeyMismatch"),
    ]);
    prints(&rt, rows.as_slice())?;
    Ok(())
}

#[test]
fn prints_the_errors_of_armoured_texts(rt: HostRuntime) -> Result<(), Fail> {
    prints(
        &rt,
        &[
            (PemError::HeaderNotFound, "HeaderNotFound"),
            (PemError::FooterNotFound, "FooterNotFound"),
            (PemError::BadBase64, "BadBase64"),
            (PemError::TooLong, "TooLong"),
            (PemError::NoMemory, "NoMemory"),
        ],
    )?;
    Ok(())
}

#[test]
fn prints_the_errors_of_ppk_lines(rt: HostRuntime) -> Result<(), Fail> {
    let alloc = rt.alloc();
    let [context, expected, actual] = three_texts(alloc)?;
    let refused = KvError::InvalidInput {
        context,
        expected,
        actual,
    };
    prints_one(&rt, refused, "InvalidInput")?;
    let rows = ManuallyDrop::new([
        (KvError::EndOfInput, "EndOfInput"),
        (KvError::InvalidKeyValueFormat, "InvalidKeyValueFormat"),
        (KvError::TooManyLines, "TooManyLines"),
        (KvError::TooLong, "TooLong"),
        (KvError::NoMemory, "NoMemory"),
    ]);
    prints(&rt, rows.as_slice())?;
    prints_one(
        &rt,
        parsing_error(alloc, "none", "x")?,
        "PpkValueParsingError",
    )?;
    prints_one(
        &rt,
        PpkValueError::Parsing(parsing_error(alloc, "none", "x")?),
        "Parsing",
    )?;
    let rows = ManuallyDrop::new([
        (PpkValueError::TooLong, "TooLong"),
        (PpkValueError::NoMemory, "NoMemory"),
    ]);
    prints(&rt, rows.as_slice())?;
    Ok(())
}

#[test]
fn prints_the_errors_of_putty_keys(rt: HostRuntime) -> Result<(), Fail> {
    let alloc = rt.alloc();
    let [context, expected, actual] = three_texts(alloc)?;
    let refused = PuttyError::InvalidInput {
        context,
        expected,
        actual,
    };
    prints_one(&rt, refused, "InvalidInput")?;
    let lacked = PuttyError::NotSupported {
        feature: some_text(alloc)?,
    };
    prints_one(&rt, lacked, "NotSupported")?;
    let rows = ManuallyDrop::new([
        (PuttyError::EndOfInput, "EndOfInput"),
        (PuttyError::InvalidKeyValueFormat, "InvalidKeyValueFormat"),
        (PuttyError::Aes, "Aes"),
        (PuttyError::Argon2, "Argon2"),
        (PuttyError::MacValidation, "MacValidation"),
        (
            PuttyError::PublicAndPrivateKeyMismatch,
            "PublicAndPrivateKeyMismatch",
        ),
        (PuttyError::InvalidPrivateKeyData, "InvalidPrivateKeyData"),
        (PuttyError::InvalidPublicKeyData, "InvalidPublicKeyData"),
        (
            PuttyError::InvalidPublicKeyContainer,
            "InvalidPublicKeyContainer",
        ),
        (
            PuttyError::InvalidPublicKeyComment,
            "InvalidPublicKeyComment",
        ),
        (PuttyError::AlreadyDecrypted, "AlreadyDecrypted"),
        (PuttyError::AlreadyEncrypted, "AlreadyEncrypted"),
        (PuttyError::Encrypted, "Encrypted"),
        (
            PuttyError::SshPublicKey(SshPublicKeyError::KeyError),
            "SshPublicKey",
        ),
        (PuttyError::IoError(IoKind::UnexpectedEnd), "IoError"),
        (PuttyError::SuiteFault, "SuiteFault"),
        (PuttyError::TooLong, "TooLong"),
        (PuttyError::TooManyLines, "TooManyLines"),
        (PuttyError::NoMemory, "NoMemory"),
    ]);
    prints(&rt, rows.as_slice())?;
    Ok(())
}

#[test]
fn prints_the_errors_of_conversions(rt: HostRuntime) -> Result<(), Fail> {
    let rows = ManuallyDrop::new([
        (ReadError::Private(SshPrivateKeyError::KeyError), "Private"),
        (ReadError::Public(SshPublicKeyError::KeyError), "Public"),
        (ReadError::Putty(PuttyError::Aes), "Putty"),
        (ReadError::NoMemory, "NoMemory"),
    ]);
    prints(&rt, rows.as_slice())?;
    let rows = ManuallyDrop::new([
        (ConvertError::Input(ReadError::NoMemory), "Input"),
        (ConvertError::Issuer(ReadError::NoMemory), "Issuer"),
        (ConvertError::NoPrivateKey, "NoPrivateKey"),
        (
            ConvertError::Request(SshCertificateGenerationError::NoKeyType),
            "Request",
        ),
        (ConvertError::CommentNotCarried, "CommentNotCarried"),
        (
            ConvertError::Private(SshPrivateKeyError::HashingError),
            "Private",
        ),
        (ConvertError::Putty(PuttyError::Aes), "Putty"),
        (ConvertError::FreshTooShort, "FreshTooShort"),
        (ConvertError::TooLong, "TooLong"),
        (ConvertError::TooManyLines, "TooManyLines"),
        (ConvertError::NoMemory, "NoMemory"),
    ]);
    prints(&rt, rows.as_slice())?;
    Ok(())
}
