//! The number of each reason why a call hands out no bytes.
//!
//! Those of one kind of text stand in a hundred, in the order of its errors.

ghost use Rattle.std.specs.Prelude.{◌≡◌, ◌<◌};
ghost use Rattle.picky_c.specs.Number.{answers_number as answers_number_of, error_number};
ghost use Rattle.picky_c.specs.Number.{certificate_number as certificate_number_of, issuer_number as issuer_number_of};
ghost use Rattle.picky_c.specs.Number.{denial_number as denial_number_of, state_number as state_number_of};
ghost use Rattle.picky_c.specs.Number.{private_number as private_number_of, public_number as public_number_of};
ghost use Rattle.picky_c.specs.Number.{putty_number as putty_number_of, read_number as read_number_of};
ghost use Rattle.picky_c.specs.Number.{refused_number, request_number as request_number_of};

use crate::error::{AnswersError, PickyError};
use picky_agent_bytes::AgentBytesError;
use picky_cert::SshCertificateError;
use picky_cert_builder::SshCertificateGenerationError;
use picky_key_text::ReadError;
use picky_keys::SshPublicKeyError;
use picky_policy::Denial;
use picky_ppk::PuttyError;
use picky_sshkey::SshPrivateKeyError;
use picky_target::ConvertError;

/// The number of a reason.
pub fn number_of(e: &PickyError) -> u32
    ensures { result ≡ error_number e.now }
{
    match e {
        PickyError::BufferTooSmall => 1,
        PickyError::NoMemory => 2,
        PickyError::TextNotUtf8 => 3,
        PickyError::PassNotUtf8 => 4,
        PickyError::NoSuchTarget => 5,
        PickyError::NoSuchPart => 6,
        PickyError::NoCipher => 7,
        PickyError::Asked => 13,
        PickyError::CommentNotUtf8 => 14,
        PickyError::NoSuchSealing => 15,
        PickyError::NoSuchPlace => 16,
        PickyError::NoSuchOption => 17,
        PickyError::NoKey => 18,
        PickyError::IssuerNotUtf8 => 19,
        PickyError::WordNotUtf8 => 20,
        PickyError::BadWords => 21,
        PickyError::AuthorizedNotUtf8 => 22,
        PickyError::OfferNotUtf8 => 23,
        PickyError::UserNotUtf8 => 24,
        PickyError::NoMessage => 25,
        PickyError::MessageTooLong => 26,
        PickyError::NotAdd => 27,
        PickyError::SignatureTooLong => 28,
        PickyError::LedgerNotUtf8 => 29,
        PickyError::RequestsNotUtf8 => 30,
        PickyError::BadLine => 31,
        PickyError::LeftNotUtf8 => 32,
        PickyError::RightNotUtf8 => 33,
        PickyError::Answers(e) => 700 + answers_number(e),
        PickyError::Refused(e) => convert_number(e),
        PickyError::Denied(e) => 900 + denial_number(e),
        PickyError::State(e) => 1000 + state_number(e),
    }
}

/// The place of an error of answers in its hundred.
fn answers_number(e: &AnswersError) -> u32
    ensures number { result ≡ answers_number_of e.now }
    ensures place { result < 100 }
{
    match e {
        AnswersError::EndsInEntry => 0,
        AnswersError::LengthPastEnd => 1,
        AnswersError::NoQuestion => 2,
        AnswersError::WrongLength => 3,
        AnswersError::Contradiction => 4,
        AnswersError::Misplaced => 5,
        AnswersError::TooLong => 6,
        AnswersError::UnknownByte => 7,
    }
}

/// The place of a denial in its hundred.
fn denial_number(e: &Denial) -> u32
    ensures number { result ≡ denial_number_of e.now }
    ensures place { result < 100 }
{
    match e {
        Denial::NoLine => 0,
        Denial::NoAuthority => 1,
        Denial::NotClient => 2,
        Denial::NotYet => 3,
        Denial::Expired => 4,
        Denial::Principal => 5,
        Denial::CriticalOption => 6,
        Denial::BadSignature => 7,
    }
}

/// That of an error of an agent's state.
fn state_number(e: &AgentBytesError) -> u32
    ensures number { result ≡ state_number_of e.now }
    ensures place { result < 100 }
{
    match e {
        AgentBytesError::TooLong => 0,
        AgentBytesError::Short => 1,
        AgentBytesError::NotKept => 2,
        AgentBytesError::TooMany => 3,
        AgentBytesError::NotCanonical => 4,
        AgentBytesError::NoMemory => 5,
    }
}

/// That of a conversion's refusal.
fn convert_number(e: &ConvertError) -> u32
    ensures { result ≡ refused_number e.now }
{
    match e {
        ConvertError::Input(e) => read_number(e),
        ConvertError::Issuer(e) => issuer_number(e),
        ConvertError::Request(e) => 800 + request_number(e),
        ConvertError::NoPrivateKey => 8,
        ConvertError::CommentNotCarried => 9,
        ConvertError::Private(e) => 500 + private_number(e),
        ConvertError::Putty(e) => 600 + putty_number(e),
        ConvertError::FreshTooShort => 10,
        ConvertError::TooLong => 11,
        ConvertError::TooManyLines => 12,
        ConvertError::NoMemory => 2,
    }
}

/// That of a key text which means nothing.
fn read_number(e: &ReadError) -> u32
    ensures { result ≡ read_number_of e.now }
{
    match e {
        ReadError::Private(e) => 100 + private_number(e),
        ReadError::Public(e) => 200 + public_number(e),
        ReadError::Certificate(e) => 300 + certificate_number(e),
        ReadError::Putty(e) => 400 + putty_number(e),
        ReadError::NoMemory => 2,
    }
}

/// That of an issuer's text which means nothing.
fn issuer_number(e: &ReadError) -> u32
    ensures { result ≡ issuer_number_of e.now }
{
    match e {
        ReadError::Private(e) => 1100 + private_number(e),
        ReadError::Public(e) => 1200 + public_number(e),
        ReadError::Certificate(e) => 1300 + certificate_number(e),
        ReadError::Putty(e) => 1400 + putty_number(e),
        ReadError::NoMemory => 2,
    }
}

/// The place of a request's refusal in its hundred.
fn request_number(e: &SshCertificateGenerationError) -> u32
    ensures number { result ≡ request_number_of e.now }
    ensures place { result < 100 }
{
    match e {
        SshCertificateGenerationError::UnsupportedCertificateKeyType(_) => 0,
        SshCertificateGenerationError::IncorrectSignatureAlgorithm => 1,
        SshCertificateGenerationError::MissingPublicKey => 2,
        SshCertificateGenerationError::MissingCertificateType => 3,
        SshCertificateGenerationError::InvalidTime => 4,
        SshCertificateGenerationError::MissingSignatureKey => 5,
        SshCertificateGenerationError::HostCertificateExtensions => 6,
        SshCertificateGenerationError::HostCertificateCriticalOptions => 7,
        SshCertificateGenerationError::NoKeyType => 8,
        SshCertificateGenerationError::SignatureError => 9,
        SshCertificateGenerationError::TooLong => 10,
        SshCertificateGenerationError::NoMemory => 11,
    }
}

/// The place of an OpenSSH private key's error in its hundred.
fn private_number(e: &SshPrivateKeyError) -> u32
    ensures number { result ≡ private_number_of e.now }
    ensures place { result < 100 }
{
    match e {
        SshPrivateKeyError::FromUtf8Error => 0,
        SshPrivateKeyError::IoError(_) => 1,
        SshPrivateKeyError::UnsupportedKeyType(_) => 2,
        SshPrivateKeyError::UnsupportedCipher(_) => 3,
        SshPrivateKeyError::UnsupportedKdf(_) => 4,
        SshPrivateKeyError::InvalidAuthMagicHeader => 5,
        SshPrivateKeyError::InvalidKeysAmount(_) => 6,
        SshPrivateKeyError::InvalidCheckNumbers(_, _) => 7,
        SshPrivateKeyError::InvalidKeyFormat => 8,
        SshPrivateKeyError::DecryptionError => 9,
        SshPrivateKeyError::HashingError => 10,
        SshPrivateKeyError::MissingPassphrase => 11,
        SshPrivateKeyError::KeyError => 12,
        SshPrivateKeyError::PemError(_) => 13,
        SshPrivateKeyError::SuiteFault => 14,
        SshPrivateKeyError::TooLong => 15,
        SshPrivateKeyError::NoMemory => 16,
        SshPrivateKeyError::PublicKeyMismatch => 17,
    }
}

/// That of a public key line's.
fn public_number(e: &SshPublicKeyError) -> u32
    ensures number { result ≡ public_number_of e.now }
    ensures place { result < 100 }
{
    match e {
        SshPublicKeyError::IoError(_) => 0,
        SshPublicKeyError::InvalidUtf8 => 1,
        SshPublicKeyError::Base64DecodeError => 2,
        SshPublicKeyError::UnknownKeyType => 3,
        SshPublicKeyError::KeyError => 4,
        SshPublicKeyError::TooLong => 5,
        SshPublicKeyError::NoMemory => 6,
    }
}

/// That of a certificate's.
fn certificate_number(e: &SshCertificateError) -> u32
    ensures number { result ≡ certificate_number_of e.now }
    ensures place { result < 100 }
{
    match e {
        SshCertificateError::CertificateProcessingError(_) => 0,
        SshCertificateError::UnsupportedCertificateType(_) => 1,
        SshCertificateError::SshCriticalOptionError(_) => 2,
        SshCertificateError::SshExtensionError(_) => 3,
        SshCertificateError::InvalidUtf8 => 4,
        SshCertificateError::Base64DecodeError => 5,
        SshCertificateError::InvalidCertificateType(_) => 6,
        SshCertificateError::InvalidCertificateKeyType(_) => 7,
        SshCertificateError::InvalidPublicKey(_) => 8,
        SshCertificateError::KeyError => 9,
        SshCertificateError::SubjectMismatch => 10,
        SshCertificateError::SshSignatureError(_) => 11,
        SshCertificateError::TooLong => 12,
        SshCertificateError::NoMemory => 13,
    }
}

/// That of a PuTTY text's.
fn putty_number(e: &PuttyError) -> u32
    ensures number { result ≡ putty_number_of e.now }
    ensures place { result < 100 }
{
    match e {
        PuttyError::EndOfInput => 0,
        PuttyError::InvalidInput { .. } => 1,
        PuttyError::InvalidKeyValueFormat => 2,
        PuttyError::Aes => 3,
        PuttyError::Argon2 => 4,
        PuttyError::MacValidation => 5,
        PuttyError::PublicAndPrivateKeyMismatch => 6,
        PuttyError::InvalidPrivateKeyData => 7,
        PuttyError::InvalidPublicKeyData => 8,
        PuttyError::InvalidPublicKeyContainer => 9,
        PuttyError::InvalidPublicKeyComment => 10,
        PuttyError::AlreadyDecrypted => 11,
        PuttyError::AlreadyEncrypted => 12,
        PuttyError::Encrypted => 13,
        PuttyError::NotSupported { .. } => 14,
        PuttyError::SshPublicKey(_) => 15,
        PuttyError::IoError(_) => 16,
        PuttyError::SuiteFault => 17,
        PuttyError::TooLong => 18,
        PuttyError::TooManyLines => 19,
        PuttyError::NoMemory => 20,
    }
}
