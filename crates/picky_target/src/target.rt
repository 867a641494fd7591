//! What a key is converted to.

use picky_ppk::{PpkEncryptionConfig, PpkLayout, PpkVersion};

/// bcrypt's rounds where a caller names none.
pub const DEFAULT_ROUNDS: u32 = 16;

/// What a key is converted to.
#[derive(Clone, Copy, Debug, PartialEq, Eq)]
pub enum KeyTarget {
    /// OpenSSH's private key, and bcrypt's rounds where it is sealed.
    OpenSsh(u32),
    /// PuTTY's private key file, what Argon2 is run with where one of version 3 is sealed, and how it has an Ed25519 secret.
    Ppk(PpkVersion, PpkEncryptionConfig, PpkLayout),
    /// A public key line.
    OpenSshPublic,
    /// PuTTY's public key.
    PuttyPublic,
}
