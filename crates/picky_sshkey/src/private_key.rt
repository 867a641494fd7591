//! A private key with what its envelope says.

ghost use Rattle.std.specs.Prelude.{◌≡◌, ◌⊎◌, [], Some, None, IfOk, MatchOption};
ghost use Rattle.std.specs.Option.{option_copied};
ghost use Rattle.picky_wire_base.specs.Gives.{Gives};
ghost use Rattle.picky_sshkey_blob.specs.Key.{public_part};
ghost use Rattle.picky_sshkey.specs.Made.{key_made, made_of, made_option, base_of as base_made, inner_of, private_shown};
ghost use Rattle.picky_sshkey.specs.Written.{written_cipher, written_kdf};

use crate::cipher::Cipher;
use crate::kdf::{Kdf, NONE, bcrypt_kdf};
use crate::kept::{kept_pass, kept_text, name_text};
use picky_keys::{EcCurve, PrivateKey, SshPublicKey};
use picky_sshkey_blob::{SshBasePrivateKey, SshPrivateKeyError};
use picky_wire::{Bytes, Mpint, NoMemory, Text, TryClone, both};
use std::alloc::Global;

/// A private key. The public key has an empty comment: the key's own stands in `comment` alone.
///
/// `cipher_name` and `kdf` are what an envelope said; with a passphrase `aes256-ctr` and `bcrypt` are written, with the
/// salt and rounds of `kdf`, and without one `none` and `none`.
#[derive(Debug, Drop, PartialEq, Eq)]
pub struct SshPrivateKey {
    pub cipher_name: Text,
    pub kdf: Kdf,
    pub base_key: SshBasePrivateKey,
    pub public_key: SshPublicKey,
    pub check: u32,
    pub comment: Text,
    pub passphrase: Option<Text>,
}

/// A private key whose parts another value keeps.
#[derive(Clone, Copy, Debug, PartialEq, Eq)]
pub enum PrivateKeyRef<'a> {
    Rsa {
        n: &'a Mpint,
        e: &'a Mpint,
        d: &'a Mpint,
        iqmp: &'a Mpint,
        p: &'a Mpint,
        q: &'a Mpint,
    },
    Ec {
        curve: EcCurve,
        point: &'a Bytes,
        secret: &'a Mpint,
    },
    Ed {
        secret: &'a [u8; 32],
        public: &'a [u8; 32],
    },
}

impl SshPrivateKey {
    /// The key with this comment, the check number 0, and with a passphrase the salt and 16 rounds.
    ///
    /// Refuses, in order: `TooLong`, where the passphrase or the comment has 2^32 bytes or more.
    #[tactic(auto, unfolding(crate::specs::Made::key_made))]
    pub fn from_base(
        alloc: Global,
        base: SshBasePrivateKey,
        passphrase: Option<&str>,
        comment: &str,
        salt: &[u8; 16],
    ) -> Result<SshPrivateKey, SshPrivateKeyError>
        ensures { Gives SshPrivateKeyError.NoMemory (λ key. key) result
            (key_made base (option_copied passphrase.entry) comment.now salt.now) }
    {
        let passphrase = match kept_pass(alloc, passphrase) {
            Ok(passphrase) => passphrase,
            Err(e) => {
                drop(base);
                return Err(e);
            }
        };
        let comment = match kept_text(alloc, comment) {
            Ok(comment) => comment,
            Err(e) => {
                drop(base);
                drop(passphrase);
                return Err(e);
            }
        };
        match made(alloc, base, passphrase, comment, salt) {
            Ok(key) => Ok(key),
            Err(NoMemory) => Err(SshPrivateKeyError::NoMemory),
        }
    }

    /// The key without a passphrase and a comment. Refuses: `NoMemory`.
    pub fn from_private_key(alloc: Global, key: PrivateKey) -> Result<SshPrivateKey, NoMemory>
        ensures { IfOk result (λ made. made ≡ made_of (base_made key) None [] []) }
    {
        match name_text(alloc, "") {
            Ok(comment) => made(alloc, base_of(key), None, comment, &[0; 16]),
            Err(NoMemory) => {
                drop(key);
                Err(NoMemory)
            }
        }
    }

    /// The public key, with an empty comment.
    pub fn public_key(&self) -> &SshPublicKey
        ensures { result.now ≡ self.now.public_key }
    {
        &self.public_key
    }

    /// The key without what its envelope says.
    pub fn base_key(&self) -> &SshBasePrivateKey
        ensures { result.now ≡ self.now.base_key }
    {
        &self.base_key
    }

    /// The key, and none where a device keeps the secret.
    pub fn inner_key(&self) -> Option<PrivateKeyRef<'_>>
        ensures { MatchOption result (inner_of self.now.base_key ≡ None)
            (λ key. inner_of self.now.base_key ≡ Some (private_shown key)) }
    {
        match &self.base_key {
            SshBasePrivateKey::Rsa {
                n,
                e,
                d,
                iqmp,
                p,
                q,
            } => Some(PrivateKeyRef::Rsa {
                n,
                e,
                d,
                iqmp,
                p,
                q,
            }),
            SshBasePrivateKey::Ec {
                curve,
                point,
                secret,
            } => Some(PrivateKeyRef::Ec {
                curve: *curve,
                point,
                secret,
            }),
            SshBasePrivateKey::Ed { secret, public } => Some(PrivateKeyRef::Ed { secret, public }),
            SshBasePrivateKey::SkEcdsaSha2NistP256 { .. } | SshBasePrivateKey::SkEd25519 { .. } => {
                None
            }
        }
    }
}

impl TryClone for SshPrivateKey {
    fn try_clone(&self, alloc: Global) -> Result<SshPrivateKey, NoMemory> {
        let envelope = both(self.cipher_name.try_clone(alloc), self.kdf.try_clone(alloc));
        let base_key = self.base_key.try_clone(alloc);
        let keys = both(base_key, self.public_key.try_clone(alloc));
        let passphrase = pass_clone(alloc, &self.passphrase);
        let texts = both(self.comment.try_clone(alloc), passphrase);
        let (((cipher_name, kdf), (base_key, public_key)), (comment, passphrase)) = both(
            both(envelope, keys),
            texts,
        )?;
        Ok(SshPrivateKey {
            cipher_name,
            kdf,
            base_key,
            public_key,
            check: self.check,
            comment,
            passphrase,
        })
    }
}

/// A copy of a passphrase, where there is one.
fn pass_clone(alloc: Global, pass: &Option<Text>) -> Result<Option<Text>, NoMemory>
    ensures { IfOk result (λ copy. copy ≡ pass.now) }
{
    match pass {
        Some(pass) => match pass.try_clone(alloc) {
            Ok(pass) => Ok(Some(pass)),
            Err(e) => Err(e),
        },
        None => Ok(None),
    }
}

/// The key of these parts.
fn made(
    alloc: Global,
    base_key: SshBasePrivateKey,
    passphrase: Option<Text>,
    comment: Text,
    salt: &[u8; 16],
) -> Result<SshPrivateKey, NoMemory>
    ensures { IfOk result (λ key. key ≡ made_of base_key passphrase comment salt.now) }
{
    let envelope = envelope_under(alloc, &passphrase, salt);
    match both(public_key_of(alloc, &base_key), envelope) {
        Ok((public_key, (cipher_name, kdf))) => Ok(SshPrivateKey {
            cipher_name,
            kdf,
            base_key,
            public_key,
            check: 0,
            comment,
            passphrase,
        }),
        Err(NoMemory) => {
            drop(base_key);
            drop(passphrase);
            Err(NoMemory)
        }
    }
}

/// The cipher's name and the derivation under the passphrase, where there is one. Refuses: `NoMemory`.
#[tactic(auto, unfolding(crate::specs::Kdf::none, crate::specs::Kdf::bcrypt))]
fn envelope_under(
    alloc: Global,
    passphrase: &Option<Text>,
    salt: &[u8; 16],
) -> Result<(Text, Kdf), NoMemory>
    ensures { IfOk result (λ made. made ≡ (
      written_cipher passphrase.now,
      record { name = written_kdf passphrase.now; option = made_option passphrase.now salt.now },
    )) }
{
    match passphrase {
        Some(_) => both(
            name_text(alloc, Cipher::Aes256Ctr.name()),
            bcrypt_kdf(alloc, salt),
        ),
        None => both(name_text(alloc, NONE), Kdf::plain(alloc)),
    }
}

/// The public key of a private one, with an empty comment. Refuses: `NoMemory`.
pub fn public_key_of(alloc: Global, base: &SshBasePrivateKey) -> Result<SshPublicKey, NoMemory>
    ensures { IfOk result (λ key. key ≡ record { inner_key = public_part base.now; comment = [] }) }
{
    let inner_key = base.base_public_key(alloc)?;
    match name_text(alloc, "") {
        Ok(comment) => Ok(SshPublicKey { inner_key, comment }),
        Err(NoMemory) => {
            drop(inner_key);
            Err(NoMemory)
        }
    }
}

/// A key whose secret no device keeps, as one of OpenSSH's.
fn base_of(key: PrivateKey) -> SshBasePrivateKey
    ensures { result ≡ base_made key }
{
    match key {
        PrivateKey::Rsa {
            n,
            e,
            d,
            iqmp,
            p,
            q,
        } => SshBasePrivateKey::Rsa {
            n,
            e,
            d,
            iqmp,
            p,
            q,
        },
        PrivateKey::Ec {
            curve,
            point,
            secret,
        } => SshBasePrivateKey::Ec {
            curve,
            point,
            secret,
        },
        PrivateKey::Ed { secret, public } => SshBasePrivateKey::Ed { secret, public },
    }
}
