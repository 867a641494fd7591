//! The fields of a PuTTY private key file.

ghost use Rattle.std.specs.Prelude.{◌≡◌, IfNone, IfSome, None, Some};
ghost use Rattle.picky_ppk_file.specs.File.{version_of, encryption_of, is_sealed as is_sealed_of, params_of};

use picky_kv::PpkEncryptionValue;
use picky_ppk_parts::{Argon2Params, PpkKeyAlgorithm, PpkVersion};
use picky_wire::{Bytes, NoMemory, Text, TryClone};
use std::alloc::Global;

/// What seals the private bytes of a file.
#[derive(Debug, Drop, PartialEq, Eq)]
pub enum PpkSealing {
    /// Nothing does, in a file of this version.
    Unsealed(PpkVersion),
    /// AES-256-CBC under keys that SHA-1 makes of the passphrase: version 2.
    SealedV2,
    /// AES-256-CBC under keys that Argon2 makes of it: version 3.
    SealedV3(Argon2Params),
}

impl PpkSealing {
    /// The file's version.
    pub fn version(&self) -> PpkVersion
        ensures { result ≡ version_of self.now }
    {
        match self {
            PpkSealing::Unsealed(version) => *version,
            PpkSealing::SealedV2 => PpkVersion::V2,
            PpkSealing::SealedV3(_) => PpkVersion::V3,
        }
    }

    /// The encryption that the file's line names.
    pub fn encryption(&self) -> PpkEncryptionValue
        ensures { result ≡ encryption_of self.now }
    {
        match self {
            PpkSealing::Unsealed(_) => PpkEncryptionValue::None,
            PpkSealing::SealedV2 | PpkSealing::SealedV3(_) => PpkEncryptionValue::Aes256Cbc,
        }
    }

    /// Whether the private bytes are sealed.
    pub fn is_sealed(&self) -> bool
        ensures { result ≡ is_sealed_of self.now }
    {
        match self {
            PpkSealing::Unsealed(_) => false,
            PpkSealing::SealedV2 | PpkSealing::SealedV3(_) => true,
        }
    }

    /// What Argon2 is run with, in a sealed file of version 3.
    pub fn argon2_params(&self) -> Option<&Argon2Params>
        ensures none { IfNone result (params_of self.now ≡ None) }
        ensures some { IfSome result (λ params. params_of self.now ≡ Some params.now) }
    {
        match self {
            PpkSealing::Unsealed(_) | PpkSealing::SealedV2 => None,
            PpkSealing::SealedV3(params) => Some(params),
        }
    }
}

impl TryClone for PpkSealing {
    fn try_clone(&self, alloc: Global) -> Result<PpkSealing, NoMemory> {
        match self {
            PpkSealing::Unsealed(version) => Ok(PpkSealing::Unsealed(*version)),
            PpkSealing::SealedV2 => Ok(PpkSealing::SealedV2),
            PpkSealing::SealedV3(params) => Ok(PpkSealing::SealedV3(params.try_clone(alloc)?)),
        }
    }
}

/// The fields of a file, in its order: the public key's blob, the private bytes, sealed or not, and the MAC.
#[derive(Debug, Drop, PartialEq, Eq)]
pub struct PpkFile {
    pub sealing: PpkSealing,
    pub algorithm: PpkKeyAlgorithm,
    pub comment: Text,
    pub public_key: Bytes,
    pub private_bytes: Bytes,
    pub mac: Bytes,
}

impl TryClone for PpkFile {
    fn try_clone(&self, alloc: Global) -> Result<PpkFile, NoMemory> {
        let sealing = self.sealing.try_clone(alloc)?;
        let comment = self.comment.try_clone(alloc)?;
        let public_key = self.public_key.try_clone(alloc)?;
        let private_bytes = self.private_bytes.try_clone(alloc)?;
        let mac = self.mac.try_clone(alloc)?;
        Ok(PpkFile {
            sealing,
            algorithm: self.algorithm,
            comment,
            public_key,
            private_bytes,
            mac,
        })
    }
}
