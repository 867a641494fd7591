//! What an agent keeps of a private key.

use picky_sshkey_blob::SshBasePrivateKey;
use picky_wire::Text;

/// A private key and its comment.
#[derive(Debug, Drop, PartialEq, Eq)]
pub struct Identity {
    pub key: SshBasePrivateKey,
    pub comment: Text,
}
