//! PuTTY's keys without a file, from OpenSSH's keys and back.

ghost use Rattle.std.specs.Prelude.{◌≡◌};
ghost use Rattle.std.specs.Option.{option_copied};
ghost use Rattle.picky_wire_base.specs.Gives.{Gives};
ghost use Rattle.picky_ppk.specs.Wrappers.{public_of_openssh, public_to_openssh, public_to_inner};
ghost use Rattle.picky_ppk.specs.Wrappers.{base_of_openssh, base_to_openssh, base_to_inner};
ghost use Rattle.picky_ppk.specs.Wrappers.{private_of_openssh, private_to_openssh};

use crate::openssh::{made_private, plain_in_blob, plain_private};
use picky_keys::{PrivateKey, PublicKey, SshBasePublicKey};
use picky_ppk_file::is_security_key;
use picky_ppk_parts::{
    KeyParts, PpkKeyAlgorithm, PuttyError, blob_of_public, key_in_blob, no_security_keys,
    private_key_of,
};
use picky_sshkey::{SshBasePrivateKey, SshPrivateKey};
use picky_wire::{Bytes, NoMemory, Text, TryClone, both};
use std::alloc::Global;

/// A public key's blob, which isn't read.
#[derive(Debug, Drop, PartialEq, Eq)]
pub struct PuttyBasePublicKey {
    pub blob: Bytes,
}

/// An algorithm, a public key's blob, and private bytes that aren't sealed, none of which is read.
#[derive(Debug, Drop, PartialEq, Eq)]
pub struct PuttyBasePrivateKey {
    pub algorithm: PpkKeyAlgorithm,
    pub public_key: PuttyBasePublicKey,
    pub private_bytes: Bytes,
}

/// The same with a comment.
#[derive(Debug, Drop, PartialEq, Eq)]
pub struct PuttyPrivateKey {
    pub base: PuttyBasePrivateKey,
    pub comment: Text,
}

impl PuttyBasePublicKey {
    /// The one blob of a key. Refuses, in order: `NotSupported` (`SK keys`) for a key whose secret a device keeps;
    /// `TooLong`, where the blob has 2^32 bytes or more.
    #[tactic(auto, unfolding(crate::specs::Wrappers::public_of_openssh))]
    pub fn from_openssh(
        alloc: Global,
        key: &SshBasePublicKey,
    ) -> Result<PuttyBasePublicKey, PuttyError>
        ensures { Gives PuttyError.NoMemory (λ key. key) result (public_of_openssh key.now) }
    {
        if is_security_key(key) {
            return Err(no_security_keys(alloc));
        }
        match blob_of_public(alloc, key) {
            Ok(blob) => Ok(PuttyBasePublicKey { blob }),
            Err(e) => Err(e),
        }
    }

    /// The key in the blob. What follows the blob's last field says nothing.
    ///
    /// Refuses, in order: `SshPublicKey` with what is wrong with the blob.
    pub fn to_openssh(&self, alloc: Global) -> Result<SshBasePublicKey, PuttyError>
        ensures { Gives PuttyError.NoMemory (λ key. key) result (public_to_openssh self.now) }
    {
        key_in_blob(alloc, &self.blob)
    }

    /// The key in the blob. Refuses, in order: `SshPublicKey` with what is wrong with the blob; `NotSupported`
    /// (`SK keys`) for a key whose secret a device keeps.
    #[tactic(auto, unfolding(crate::specs::Wrappers::public_to_inner))]
    pub fn to_inner_key(&self, alloc: Global) -> Result<PublicKey, PuttyError>
        ensures { Gives PuttyError.NoMemory (λ key. key) result (public_to_inner self.now) }
    {
        plain_in_blob(alloc, &self.blob)
    }
}

impl TryClone for PuttyBasePublicKey {
    fn try_clone(&self, alloc: Global) -> Result<PuttyBasePublicKey, NoMemory> {
        let blob = self.blob.try_clone(alloc)?;
        Ok(PuttyBasePublicKey { blob })
    }
}

impl PuttyBasePrivateKey {
    /// The parts of a key, each in its one spelling.
    ///
    /// Refuses, in order: `NotSupported` (`SK keys`) for a key whose secret a device keeps; `TooLong`, where the blob or
    /// the private bytes have 2^32 bytes or more.
    #[tactic(auto, unfolding(crate::specs::Wrappers::base_of_openssh))]
    pub fn from_openssh(
        alloc: Global,
        key: &SshBasePrivateKey,
    ) -> Result<PuttyBasePrivateKey, PuttyError>
        ensures { Gives PuttyError.NoMemory (λ key. key) result (base_of_openssh key.now) }
    {
        match KeyParts::of_key(alloc, key) {
            Ok(
                KeyParts {
                    algorithm,
                    blob,
                    private_bytes,
                },
            ) => Ok(PuttyBasePrivateKey {
                algorithm,
                public_key: PuttyBasePublicKey { blob },
                private_bytes,
            }),
            Err(e) => Err(e),
        }
    }

    /// The key that the parts stand for. What follows the last field of the blob or of the private bytes says nothing.
    ///
    /// Refuses, in order: `SshPublicKey` with what is wrong with the blob; `NotSupported` (`unsupported key algorithm`)
    /// for DSS and Ed448; `PublicAndPrivateKeyMismatch`; `IoError(UnexpectedEnd)`; `InvalidPrivateKeyData`.
    pub fn to_openssh(&self, alloc: Global) -> Result<SshBasePrivateKey, PuttyError>
        ensures { Gives PuttyError.NoMemory (λ key. key) result (base_to_openssh self.now) }
    {
        private_key_of(
            alloc,
            self.algorithm,
            &self.public_key.blob,
            &self.private_bytes,
        )
    }

    /// The same key without what is OpenSSH's alone. Refuses as `to_openssh`.
    #[tactic(auto, unfolding(crate::specs::Wrappers::base_to_inner))]
    pub fn to_inner_key(&self, alloc: Global) -> Result<PrivateKey, PuttyError>
        ensures { Gives PuttyError.NoMemory (λ key. key) result (base_to_inner self.now) }
    {
        match self.to_openssh(alloc) {
            Ok(key) => plain_private(alloc, key),
            Err(e) => Err(e),
        }
    }
}

impl TryClone for PuttyBasePrivateKey {
    fn try_clone(&self, alloc: Global) -> Result<PuttyBasePrivateKey, NoMemory> {
        let (public_key, private_bytes) = both(
            self.public_key.try_clone(alloc),
            self.private_bytes.try_clone(alloc),
        )?;
        Ok(PuttyBasePrivateKey {
            algorithm: self.algorithm,
            public_key,
            private_bytes,
        })
    }
}

impl PuttyPrivateKey {
    /// The parts of a key, and its comment. What its envelope says is not kept. Refuses as
    /// `PuttyBasePrivateKey::from_openssh`.
    #[tactic(auto, unfolding(crate::specs::Wrappers::private_of_openssh))]
    pub fn from_openssh(alloc: Global, key: &SshPrivateKey) -> Result<PuttyPrivateKey, PuttyError>
        ensures { Gives PuttyError.NoMemory (λ key. key) result (private_of_openssh key.now) }
    {
        match PuttyBasePrivateKey::from_openssh(alloc, &key.base_key) {
            Ok(base) => match key.comment.try_clone(alloc) {
                Ok(comment) => Ok(PuttyPrivateKey { base, comment }),
                Err(NoMemory) => {
                    drop(base);
                    Err(PuttyError::NoMemory)
                }
            },
            Err(e) => Err(e),
        }
    }

    /// The key that the parts stand for, with the comment. With a passphrase its envelope is sealed under it and the salt.
    ///
    /// Refuses, in order: what the parts are refused for, as `PuttyBasePrivateKey::to_openssh`; `TooLong`, where the
    /// passphrase has 2^32 bytes or more.
    #[tactic(auto, unfolding(crate::specs::Wrappers::private_to_openssh))]
    pub fn to_openssh(
        &self,
        alloc: Global,
        passphrase: Option<&str>,
        salt: &[u8; 16],
    ) -> Result<SshPrivateKey, PuttyError>
        ensures { Gives PuttyError.NoMemory (λ key. key) result
            (private_to_openssh (option_copied passphrase.entry) salt.now self.now) }
    {
        match self.base.to_openssh(alloc) {
            Ok(base) => made_private(alloc, base, passphrase, self.comment.as_str(), salt),
            Err(e) => Err(e),
        }
    }
}

impl TryClone for PuttyPrivateKey {
    fn try_clone(&self, alloc: Global) -> Result<PuttyPrivateKey, NoMemory> {
        let (base, comment) = both(self.base.try_clone(alloc), self.comment.try_clone(alloc))?;
        Ok(PuttyPrivateKey { base, comment })
    }
}
