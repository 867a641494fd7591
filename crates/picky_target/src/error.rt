//! Why nothing is written of a key text.

use picky_cert_builder::SshCertificateGenerationError;
use picky_key_text::ReadError;
use picky_ppk::PuttyError;
use picky_sshkey::SshPrivateKeyError;
use thiserror::Error;

/// Why nothing is written of a key text.
#[derive(Debug, Drop, PartialEq, Eq, Error)]
pub enum ConvertError {
    /// The key text means nothing.
    #[error("Input")]
    Input(ReadError),
    /// The issuer's text means nothing.
    #[error("Issuer")]
    Issuer(ReadError),
    /// The target keeps a secret, and the key is a public one.
    #[error("NoPrivateKey")]
    NoPrivateKey,
    /// The target can't hold the comment.
    #[error("CommentNotCarried")]
    CommentNotCarried,
    /// No certificate is made so.
    #[error("Request")]
    Request(SshCertificateGenerationError),
    /// OpenSSH's private key can't be sealed so.
    #[error("Private")]
    Private(SshPrivateKeyError),
    /// PuTTY's format can't hold the key, or it can't be sealed so.
    #[error("Putty")]
    Putty(PuttyError),
    /// Sealing, or a certificate's nonce, takes more fresh bytes than there are.
    #[error("FreshTooShort")]
    FreshTooShort,
    /// What is to be written has more bytes than a length of the wire can say.
    #[error("TooLong")]
    TooLong,
    /// A block of PuTTY's file has more lines than its count can say.
    #[error("TooManyLines")]
    TooManyLines,
    /// Memory ran out.
    #[error("NoMemory")]
    NoMemory,
}
