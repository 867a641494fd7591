//! The line that says on standard error how a run ended.

ghost use Rattle.std.specs.Prelude.{◌≡◌, ◌++◌, []};
ghost use Rattle.picky_convert.specs.Report.{certificate_name as certificate_name_of, input_name as input_name_of};
ghost use Rattle.picky_convert.specs.Report.{input_path as input_path_of, issuer_path as issuer_path_of};
ghost use Rattle.picky_convert.specs.Report.{name as name_of, path as path_of, private_name as private_name_of};
ghost use Rattle.picky_convert.specs.Report.{public_name as public_name_of, putty_name as putty_name_of, status_path};
ghost use Rattle.picky_convert.specs.Report.{word as word_of};

use crate::error::Status;
use picky_cert_parts::SshCertificateError;
use picky_key_text::ReadError;
use picky_keys::SshPublicKeyError;
use picky_ppk::PuttyError;
use picky_sshkey::SshPrivateKeyError;
use picky_target::ConvertError;

/// What a status says of itself: a path, which only a refusal has, and a name. The line of a status but Done is `keyconv: `,
/// these, and LF.
#[derive(Clone, Copy)]
pub struct StatusWord {
    pub path: &'static str,
    pub name: &'static str,
}

/// The word of a status; Done has an empty one.
pub fn word(status: &Status) -> StatusWord
    ensures word { result.path.now ++ result.name.now ≡ word_of status.now }
    ensures path { result.path.now ≡ status_path status.now }
{
    match status {
        Status::Done => plain(""),
        Status::Refused(e) => StatusWord {
            path: path(e),
            name: name(e),
        },
        Status::Usage => plain(
            "usage: keyconv openssh|ppk2|ppk3|ssh-pub|putty-pub|cert|tbs|fingerprint|sample",
        ),
        Status::ReadFault => plain("read fault"),
        Status::WriteFault => plain("write fault"),
        Status::OutsideFault => plain("outside fault"),
        Status::NoMemory => plain("out of memory"),
        Status::InputTooLong => plain("input too long"),
        Status::InputNotUtf8 => plain("input not UTF-8"),
    }
}

/// A name without a path.
fn plain(name: &'static str) -> StatusWord
    ensures name { result.name.now ≡ name.now }
    ensures path { result.path.now ≡ [] }
{
    StatusWord { path: "", name }
}

/// The path to a refusal.
fn path(e: &ConvertError) -> &'static str
    ensures { result.now ≡ path_of e.now }
{
    match e {
        ConvertError::Input(e) => input_path(e),
        ConvertError::Issuer(e) => issuer_path(e),
        ConvertError::Request(_) => "refused: request.",
        ConvertError::Private(_) => "refused: output.private.",
        ConvertError::Putty(_) => "refused: output.putty.",
        ConvertError::NoPrivateKey
        | ConvertError::CommentNotCarried
        | ConvertError::FreshTooShort
        | ConvertError::TooLong
        | ConvertError::TooManyLines
        | ConvertError::NoMemory => "refused: ",
    }
}

/// The path to a refusal of the key text.
fn input_path(e: &ReadError) -> &'static str
    ensures { result.now ≡ input_path_of e.now }
{
    match e {
        ReadError::Private(_) => "refused: input.private.",
        ReadError::Public(_) => "refused: input.public.",
        ReadError::Certificate(_) => "refused: input.cert.",
        ReadError::Putty(_) => "refused: input.putty.",
        ReadError::NoMemory => "refused: input.",
    }
}

/// The path to a refusal of the issuer's text.
fn issuer_path(e: &ReadError) -> &'static str
    ensures { result.now ≡ issuer_path_of e.now }
{
    match e {
        ReadError::Private(_) => "refused: issuer.private.",
        ReadError::Public(_) => "refused: issuer.public.",
        ReadError::Certificate(_) => "refused: issuer.cert.",
        ReadError::Putty(_) => "refused: issuer.putty.",
        ReadError::NoMemory => "refused: issuer.",
    }
}

/// Its name.
fn name(e: &ConvertError) -> &'static str
    ensures { result.now ≡ name_of e.now }
{
    match e {
        ConvertError::Input(e) | ConvertError::Issuer(e) => input_name(e),
        ConvertError::Request(e) => e.name(),
        ConvertError::NoPrivateKey => "NoPrivateKey",
        ConvertError::CommentNotCarried => "CommentNotCarried",
        ConvertError::Private(e) => private_name(e),
        ConvertError::Putty(e) => putty_name(e),
        ConvertError::FreshTooShort => "FreshTooShort",
        ConvertError::TooLong => "TooLong",
        ConvertError::TooManyLines => "TooManyLines",
        ConvertError::NoMemory => "NoMemory",
    }
}

fn input_name(e: &ReadError) -> &'static str
    ensures { result.now ≡ input_name_of e.now }
{
    match e {
        ReadError::Private(e) => private_name(e),
        ReadError::Public(e) => public_name(e),
        ReadError::Certificate(e) => certificate_name(e),
        ReadError::Putty(e) => putty_name(e),
        ReadError::NoMemory => "NoMemory",
    }
}

fn public_name(e: &SshPublicKeyError) -> &'static str
    ensures { result.now ≡ public_name_of e.now }
{
    match e {
        SshPublicKeyError::IoError(_) => "IoError",
        SshPublicKeyError::InvalidUtf8 => "InvalidUtf8",
        SshPublicKeyError::Base64DecodeError => "Base64DecodeError",
        SshPublicKeyError::UnknownKeyType => "UnknownKeyType",
        SshPublicKeyError::KeyError => "KeyError",
        SshPublicKeyError::TooLong => "TooLong",
        SshPublicKeyError::NoMemory => "NoMemory",
    }
}

fn private_name(e: &SshPrivateKeyError) -> &'static str
    ensures { result.now ≡ private_name_of e.now }
{
    match e {
        SshPrivateKeyError::FromUtf8Error => "FromUtf8Error",
        SshPrivateKeyError::IoError(_) => "IoError",
        SshPrivateKeyError::UnsupportedKeyType(_) => "UnsupportedKeyType",
        SshPrivateKeyError::UnsupportedCipher(_) => "UnsupportedCipher",
        SshPrivateKeyError::UnsupportedKdf(_) => "UnsupportedKdf",
        SshPrivateKeyError::InvalidAuthMagicHeader => "InvalidAuthMagicHeader",
        SshPrivateKeyError::InvalidKeysAmount(_) => "InvalidKeysAmount",
        SshPrivateKeyError::InvalidCheckNumbers(_, _) => "InvalidCheckNumbers",
        SshPrivateKeyError::InvalidKeyFormat => "InvalidKeyFormat",
        SshPrivateKeyError::DecryptionError => "DecryptionError",
        SshPrivateKeyError::HashingError => "HashingError",
        SshPrivateKeyError::MissingPassphrase => "MissingPassphrase",
        SshPrivateKeyError::KeyError => "KeyError",
        SshPrivateKeyError::PemError(_) => "PemError",
        SshPrivateKeyError::SuiteFault => "SuiteFault",
        SshPrivateKeyError::TooLong => "TooLong",
        SshPrivateKeyError::NoMemory => "NoMemory",
        SshPrivateKeyError::PublicKeyMismatch => "PublicKeyMismatch",
    }
}

fn certificate_name(e: &SshCertificateError) -> &'static str
    ensures { result.now ≡ certificate_name_of e.now }
{
    match e {
        SshCertificateError::CertificateProcessingError(_) => "CertificateProcessingError",
        SshCertificateError::UnsupportedCertificateType(_) => "UnsupportedCertificateType",
        SshCertificateError::SshCriticalOptionError(_) => "SshCriticalOptionError",
        SshCertificateError::SshExtensionError(_) => "SshExtensionError",
        SshCertificateError::InvalidUtf8 => "InvalidUtf8",
        SshCertificateError::Base64DecodeError => "Base64DecodeError",
        SshCertificateError::InvalidCertificateType(_) => "InvalidCertificateType",
        SshCertificateError::InvalidCertificateKeyType(_) => "InvalidCertificateKeyType",
        SshCertificateError::InvalidPublicKey(_) => "InvalidPublicKey",
        SshCertificateError::KeyError => "KeyError",
        SshCertificateError::SubjectMismatch => "SubjectMismatch",
        SshCertificateError::SshSignatureError(_) => "SshSignatureError",
        SshCertificateError::TooLong => "TooLong",
        SshCertificateError::NoMemory => "NoMemory",
    }
}

fn putty_name(e: &PuttyError) -> &'static str
    ensures { result.now ≡ putty_name_of e.now }
{
    match e {
        PuttyError::EndOfInput => "EndOfInput",
        PuttyError::InvalidInput { .. } => "InvalidInput",
        PuttyError::InvalidKeyValueFormat => "InvalidKeyValueFormat",
        PuttyError::Aes => "Aes",
        PuttyError::Argon2 => "Argon2",
        PuttyError::MacValidation => "MacValidation",
        PuttyError::PublicAndPrivateKeyMismatch => "PublicAndPrivateKeyMismatch",
        PuttyError::InvalidPrivateKeyData => "InvalidPrivateKeyData",
        PuttyError::InvalidPublicKeyData => "InvalidPublicKeyData",
        PuttyError::InvalidPublicKeyContainer => "InvalidPublicKeyContainer",
        PuttyError::InvalidPublicKeyComment => "InvalidPublicKeyComment",
        PuttyError::AlreadyDecrypted => "AlreadyDecrypted",
        PuttyError::AlreadyEncrypted => "AlreadyEncrypted",
        PuttyError::Encrypted => "Encrypted",
        PuttyError::NotSupported { .. } => "NotSupported",
        PuttyError::SshPublicKey(_) => "SshPublicKey",
        PuttyError::IoError(_) => "IoError",
        PuttyError::SuiteFault => "SuiteFault",
        PuttyError::TooLong => "TooLong",
        PuttyError::TooManyLines => "TooManyLines",
        PuttyError::NoMemory => "NoMemory",
    }
}
