//! From OpenSSH's private keys and back.

ghost use Rattle.std.specs.Prelude.{◌≡◌, Ok, IfOk};
ghost use Rattle.std.specs.Option.{option_copied};
ghost use Rattle.picky_wire_base.specs.Outcome.{and_then, map_err};
ghost use Rattle.picky_wire_base.specs.Gives.{Gives};
ghost use Rattle.picky_sshkey.specs.Made.{key_made};
ghost use Rattle.picky_ppk_parts.specs.PartsRefusal.{key_in_blob as key_in_blob_of};
ghost use Rattle.picky_ppk_file.specs.PuttyRefusal.{plain_key as plain_key_of};
ghost use Rattle.picky_ppk.specs.Mac.{CarriesMac};
ghost use Rattle.picky_ppk.specs.Changed.{of_openssh, of_base_key, file_of_parts as file_of_parts_of};
ghost use Rattle.picky_ppk.specs.KeyOf.{base_key_of, base_key_and_comment_of, to_openssh, private_key_of};
ghost use Rattle.picky_ppk.specs.KeyOf.{ppk_public_key_of, made_error};
ghost use Rattle.picky_ppk.specs.KeyOf.{plain_private as plain_private_of};

use crate::changing::remade;
use crate::ppk::Ppk;
use picky_keys::{PrivateKey, PublicKey};
use picky_ppk_file::{PpkFile, PpkSealing, PuttyPublicKey, plain_key};
use picky_ppk_parts::{
    KeyParts, PpkVersion, PuttyError, key_in_blob, no_security_keys, private_key_of as key_of_parts,
};
use picky_sshkey::{SshBasePrivateKey, SshPrivateKey, SshPrivateKeyError};
use picky_suite::Suite;
use picky_wire::{Bytes, Text, TryClone, both};
use std::alloc::Global;

impl Ppk {
    /// An OpenSSH key as a file of version 3 that isn't sealed, with its comment. What its envelope says is not kept.
    ///
    /// Refuses, in order: `NotSupported` (`SK keys`) for a key whose secret a device keeps; `TooLong`, where the blob or
    /// the private bytes have 2^32 bytes or more.
    #[tactic(auto, unfolding(crate::specs::Changed::of_openssh))]
    pub fn from_openssh_private_key<S: Suite>(
        alloc: Global,
        suite: &S,
        key: &SshPrivateKey,
    ) -> Result<Ppk, PuttyError>
        ensures gives { Gives PuttyError.NoMemory (λ ppk. ppk) result (of_openssh (S.meanings suite.now) key.now) }
        ensures mac { IfOk result (λ ppk. CarriesMac (S.meanings suite.now) ppk) }
    {
        let comment = key.comment.try_clone(alloc)?;
        Ppk::from_base_key(alloc, suite, PpkVersion::V3, &key.base_key, comment)
    }

    /// A key and a comment as a file of this version that isn't sealed. Refuses as `from_openssh_private_key`.
    #[tactic(auto, unfolding(crate::specs::Changed::of_base_key))]
    pub fn from_base_key<S: Suite>(
        alloc: Global,
        suite: &S,
        version: PpkVersion,
        key: &SshBasePrivateKey,
        comment: Text,
    ) -> Result<Ppk, PuttyError>
        ensures gives { Gives PuttyError.NoMemory (λ ppk. ppk) result
            (of_base_key (S.meanings suite.now) version key.now comment) }
        ensures mac { IfOk result (λ ppk. CarriesMac (S.meanings suite.now) ppk) }
    {
        match KeyParts::of_key(alloc, key) {
            Ok(parts) => file_of_parts(alloc, suite, version, comment, parts),
            Err(e) => Err(e),
        }
    }

    /// The private key in the file, as OpenSSH has it. Refuses, in order: `Encrypted`; `SshPublicKey` with what is wrong
    /// with the blob; `NotSupported` (`unsupported key algorithm`) for DSS and Ed448; `PublicAndPrivateKeyMismatch`;
    /// `IoError(UnexpectedEnd)`; `InvalidPrivateKeyData`.
    #[tactic(auto, unfolding(crate::specs::KeyOf::base_key_of))]
    pub fn base_key(&self, alloc: Global) -> Result<SshBasePrivateKey, PuttyError>
        ensures { Gives PuttyError.NoMemory (λ key. key) result (base_key_of self.now) }
    {
        if self.is_encrypted() {
            return Err(PuttyError::Encrypted);
        }
        let file = self.file();
        key_of_parts(alloc, file.algorithm, &file.public_key, &file.private_bytes)
    }

    /// The same of a file that is handed over, with its comment, which is moved and not copied. Refuses as `base_key`.
    pub fn into_base_key(self, alloc: Global) -> Result<(SshBasePrivateKey, Text), PuttyError>
        ensures { Gives PuttyError.NoMemory (λ found. found) result (base_key_and_comment_of self) }
    {
        match self.base_key(alloc) {
            Ok(key) => Ok((key, self.into_file().comment)),
            Err(e) => {
                drop(self);
                Err(e)
            }
        }
    }

    /// The key as OpenSSH's, with the file's comment. With a passphrase its envelope is sealed under it and the salt.
    ///
    /// Refuses, in order: `Encrypted`; what the key in the file is refused for, as `private_key`; `TooLong`, where the
    /// passphrase has 2^32 bytes or more.
    #[tactic(auto, unfolding(crate::specs::KeyOf::to_openssh))]
    pub fn to_openssh_private_key(
        &self,
        alloc: Global,
        passphrase: Option<&str>,
        salt: &[u8; 16],
    ) -> Result<SshPrivateKey, PuttyError>
        ensures { Gives PuttyError.NoMemory (λ key. key) result (to_openssh (option_copied passphrase.entry) salt.now self.now) }
    {
        match self.base_key(alloc) {
            Ok(base) => made_private(alloc, base, passphrase, self.comment(), salt),
            Err(e) => Err(e),
        }
    }

    /// The private key in the file. Refuses as `base_key`.
    #[tactic(auto, unfolding(crate::specs::KeyOf::private_key_of))]
    pub fn private_key(&self, alloc: Global) -> Result<PrivateKey, PuttyError>
        ensures { Gives PuttyError.NoMemory (λ key. key) result (private_key_of self.now) }
    {
        match self.base_key(alloc) {
            Ok(base) => plain_private(alloc, base),
            Err(e) => Err(e),
        }
    }

    /// The public key in the file's blob, sealed or not. Refuses, in order: `SshPublicKey` with what is wrong with the
    /// blob; `NotSupported` (`SK keys`) for a key whose secret a device keeps.
    #[tactic(auto, unfolding(crate::specs::KeyOf::ppk_public_key_of))]
    pub fn public_key(&self, alloc: Global) -> Result<PublicKey, PuttyError>
        ensures { Gives PuttyError.NoMemory (λ key. key) result (ppk_public_key_of self.now) }
    {
        plain_in_blob(alloc, &self.file().public_key)
    }

    /// The blob, which isn't read, and the comment, as PuTTY's public key. Refuses: `NoMemory`.
    pub fn extract_putty_public_key(&self, alloc: Global) -> Result<PuttyPublicKey, PuttyError>
        ensures { Gives PuttyError.NoMemory (λ key. key) result
            (Ok (record { blob = self.now.public_key; comment = self.now.comment })) }
    {
        let file = self.file();
        let (blob, comment) = both(
            file.public_key.try_clone(alloc),
            file.comment.try_clone(alloc),
        )?;
        Ok(PuttyPublicKey::of_parts(blob, comment))
    }
}

/// A file of this version that isn't sealed, of a key's parts and a comment.
pub fn file_of_parts<S: Suite>(
    alloc: Global,
    suite: &S,
    version: PpkVersion,
    comment: Text,
    parts: KeyParts,
) -> Result<Ppk, PuttyError>
    ensures gives { Gives PuttyError.NoMemory (λ ppk. ppk) result
        (Ok (file_of_parts_of (S.meanings suite.now) version comment parts)) }
    ensures mac { IfOk result (λ ppk. CarriesMac (S.meanings suite.now) ppk) }
{
    let KeyParts {
        algorithm,
        blob,
        private_bytes,
    } = parts;
    let file = PpkFile {
        sealing: PpkSealing::Unsealed(version),
        algorithm,
        comment,
        public_key: blob,
        private_bytes,
        mac: Bytes::from_vec(Vec::new(alloc)),
    };
    remade(alloc, suite, file)
}

/// The public key in a blob. Refuses, in order: `SshPublicKey` with what is wrong with the blob; `NotSupported`
/// (`SK keys`) for a key whose secret a device keeps.
pub fn plain_in_blob(alloc: Global, blob: &Bytes) -> Result<PublicKey, PuttyError>
    ensures { Gives PuttyError.NoMemory (λ key. key) result (and_then (key_in_blob_of blob.now) plain_key_of) }
{
    match key_in_blob(alloc, blob) {
        Ok(key) => plain_key(alloc, key),
        Err(e) => Err(e),
    }
}

/// The key without what is OpenSSH's alone. Refuses, in order: `NotSupported` (`SK keys`) for a key whose secret a device
/// keeps.
pub fn plain_private(alloc: Global, key: SshBasePrivateKey) -> Result<PrivateKey, PuttyError>
    ensures { Gives PuttyError.NoMemory (λ key. key) result (plain_private_of key) }
{
    match key {
        SshBasePrivateKey::Rsa {
            n,
            e,
            d,
            iqmp,
            p,
            q,
        } => Ok(PrivateKey::Rsa {
            n,
            e,
            d,
            iqmp,
            p,
            q,
        }),
        SshBasePrivateKey::Ec {
            curve,
            point,
            secret,
        } => Ok(PrivateKey::Ec {
            curve,
            point,
            secret,
        }),
        SshBasePrivateKey::Ed { secret, public } => Ok(PrivateKey::Ed { secret, public }),
        SshBasePrivateKey::SkEcdsaSha2NistP256 { .. } | SshBasePrivateKey::SkEd25519 { .. } => {
            drop(key);
            Err(no_security_keys(alloc))
        }
    }
}

/// The key with this comment, as OpenSSH's. Refuses, in order: `TooLong`, where the passphrase or the comment has 2^32
/// bytes or more.
pub fn made_private(
    alloc: Global,
    base: SshBasePrivateKey,
    passphrase: Option<&str>,
    comment: &str,
    salt: &[u8; 16],
) -> Result<SshPrivateKey, PuttyError>
    ensures { Gives PuttyError.NoMemory (λ key. key) result
        (map_err made_error (key_made base (option_copied passphrase.entry) comment.now salt.now)) }
{
    match SshPrivateKey::from_base(alloc, base, passphrase, comment, salt) {
        Ok(key) => Ok(key),
        Err(e) => match e {
            SshPrivateKeyError::NoMemory => {
                drop(e);
                Err(PuttyError::NoMemory)
            }
            e => {
                drop(e);
                Err(PuttyError::TooLong)
            }
        },
    }
}
