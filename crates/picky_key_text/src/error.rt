//! Why a key text means nothing.

use picky_cert::SshCertificateError;
use picky_keys::SshPublicKeyError;
use picky_ppk::PuttyError;
use picky_sshkey::SshPrivateKeyError;
use thiserror::Error;

/// Why a key text means nothing.
#[derive(Debug, Drop, PartialEq, Eq, Error)]
pub enum ReadError {
    /// As OpenSSH's private key it says none.
    #[error("Private")]
    Private(SshPrivateKeyError),
    /// As a public key line it says no key.
    #[error("Public")]
    Public(SshPublicKeyError),
    /// As a certificate it says no key.
    #[error("Certificate")]
    Certificate(SshCertificateError),
    /// As PuTTY's private or public key it says none.
    #[error("Putty")]
    Putty(PuttyError),
    /// Memory ran out.
    #[error("NoMemory")]
    NoMemory,
}
