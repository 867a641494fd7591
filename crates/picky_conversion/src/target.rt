//! What a key text is converted to.

use crate::request::CertRequest;
use picky_ppk::{PpkEncryptionConfig, PpkVersion};
use picky_wire::{NoMemory, TryClone};
use std::alloc::Global;

/// What a key text is converted to.
#[derive(Drop)]
pub enum Target {
    /// OpenSSH's private key, with 16 of bcrypt's rounds where it is sealed (`picky_target::DEFAULT_ROUNDS`).
    OpenSsh,
    /// PuTTY's private key file, with an Ed25519 secret as a number (`picky_ppk::PpkLayout`), and what Argon2 is run with
    /// where one of version 3 is sealed.
    Ppk(PpkVersion, PpkEncryptionConfig),
    /// A public key line.
    OpenSshPublic,
    /// PuTTY's public key.
    PuttyPublic,
    /// A certificate's line.
    Certificate(CertRequest),
}

impl TryClone for Target {
    fn try_clone(&self, alloc: Global) -> Result<Target, NoMemory> {
        match self {
            Target::OpenSsh => Ok(Target::OpenSsh),
            Target::Ppk(version, config) => Ok(Target::Ppk(*version, *config)),
            Target::OpenSshPublic => Ok(Target::OpenSshPublic),
            Target::PuttyPublic => Ok(Target::PuttyPublic),
            Target::Certificate(request) => match request.try_clone(alloc) {
                Ok(request) => Ok(Target::Certificate(request)),
                Err(e) => Err(e),
            },
        }
    }
}
