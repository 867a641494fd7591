//! A key and its comment.

ghost use Rattle.std.specs.Prelude.{◌≡◌};
ghost use Rattle.picky_key_text.specs.Key.{public_key as public_key_of};

use picky_keys::{SshBasePublicKey, SshPublicKey};
use picky_sshkey::SshBasePrivateKey;
use picky_wire::{NoMemory, Text, TryClone, both};
use std::alloc::Global;

/// A key that a text means.
#[derive(Debug, Drop, PartialEq, Eq)]
pub enum Key {
    Private(SshBasePrivateKey),
    Public(SshBasePublicKey),
}

/// A key and a comment that a text means.
#[derive(Debug, Drop, PartialEq, Eq)]
pub struct Meaning {
    pub key: Key,
    pub comment: Text,
}

impl TryClone for Key {
    fn try_clone(&self, alloc: Global) -> Result<Key, NoMemory> {
        match self {
            Key::Private(key) => {
                let key = key.try_clone(alloc)?;
                Ok(Key::Private(key))
            }
            Key::Public(key) => {
                let key = key.try_clone(alloc)?;
                Ok(Key::Public(key))
            }
        }
    }
}

impl TryClone for Meaning {
    fn try_clone(&self, alloc: Global) -> Result<Meaning, NoMemory> {
        let (key, comment) = both(self.key.try_clone(alloc), self.comment.try_clone(alloc))?;
        Ok(Meaning { key, comment })
    }
}

/// The public part of the key, with the comment.
pub fn public_key(meaning: Meaning) -> SshPublicKey
    ensures { result ≡ public_key_of meaning }
{
    let Meaning { key, comment } = meaning;
    let inner_key = match key {
        Key::Private(key) => key.into_public(),
        Key::Public(key) => key,
    };
    SshPublicKey { inner_key, comment }
}
