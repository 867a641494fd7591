//! Identities in order, and the entry that each has in a list, which is made once.

ghost use Rattle.std.specs.Prelude.{◌≡◌, ◌<◌, ◌≤◌, ◌∷◌, ◌++◌, [], length, map, remove as remove_from, slice_set};
ghost use Rattle.std.specs.Prelude.{OnErr, OnOk};
ghost use Rattle.picky_agent_state.specs.Reply.{entry as entry_in};
ghost use Rattle.picky_agent_state.specs.Rows.{most_identities};
ghost use Rattle.picky_agent_state.specs.inner.Entry.{HasEntry};

use crate::identity::Identity;
use crate::reply::entry_of;
use picky_wire::{Bytes, NoMemory};
use std::alloc::Global;
use std::marker::Model;

/// Identities with their entries.
#[derive(Drop)]
pub(crate) struct Keyring {
    identities: Vec<Identity>,
    entries: Vec<Bytes>,
}

impl Model for Keyring {
    ghost use Rattle.std.specs.Prelude.{◌≡◌, ◌≤◌, List, length, map};
    ghost use Rattle.picky_agent_state.specs.declared.identity.Identity.{Identity as IdentityValue};
    ghost use Rattle.picky_agent_state.specs.Reply.{entry as entry_in};
    ghost use Rattle.picky_agent_state.specs.Rows.{most_identities};

    ghost Value = { List IdentityValue };

    ghost view = { λ k. k.identities.items };

    ghost invariant = { λ k. (length k.identities.items ≤ most_identities) × (k.entries.items ≡ map entry_in k.identities.items) };
}

impl Keyring {
    /// No identities. It takes no memory.
    pub(crate) fn new(alloc: Global) -> Keyring
        ensures { result ≡ [] }
    {
        Keyring {
            identities: Vec::new(alloc),
            entries: Vec::new(alloc),
        }
    }

    /// The identities.
    pub(crate) fn identities(&self) -> &[Identity]
        ensures all { result.now ≡ self.now }
        ensures few { length result.now ≤ most_identities }
    {
        self.identities.as_slice()
    }

    /// The entry of each.
    pub(crate) fn entries(&self) -> &[Bytes]
        ensures each { result.now ≡ map entry_in self.now }
        ensures few { length result.now ≤ most_identities }
    {
        self.entries.as_slice()
    }

    /// Puts an identity in the place of another. Refuses: `NoMemory`.
    pub(crate) fn replace(
        &mut self,
        alloc: Global,
        place: usize,
        identity: Identity,
    ) -> Result<(), NoMemory>
        requires inside { place < length self.old }
        requires entry { HasEntry identity }
        ensures ok { OnOk result (self.new ≡ slice_set self.old place identity) }
        ensures unchanged { OnErr result (self.new ≡ self.old) }
    {
        match entry_of(alloc, &identity) {
            Ok(entry) => {
                self.identities[place] = identity;
                self.entries[place] = entry;
                Ok(())
            }
            Err(NoMemory) => Err(NoMemory),
        }
    }

    /// Puts an identity behind the others. Refuses: `NoMemory`.
    pub(crate) fn push(&mut self, alloc: Global, identity: Identity) -> Result<(), NoMemory>
        requires room { length self.old < most_identities }
        requires entry { HasEntry identity }
        ensures ok { OnOk result (self.new ≡ self.old ++ identity ∷ []) }
        ensures unchanged { OnErr result (self.new ≡ self.old) }
    {
        let entry = entry_of(alloc, &identity)?;
        match self.identities.reserve(1) {
            Ok(()) => {}
            Err(_) => return Err(NoMemory),
        }
        match self.entries.reserve(1) {
            Ok(()) => {}
            Err(_) => return Err(NoMemory),
        }
        self.identities.push_reserved(identity);
        self.entries.push_reserved(entry);
        Ok(())
    }

    /// Takes an identity out.
    pub(crate) fn remove(&mut self, place: usize)
        requires { place < length self.old }
        ensures { self.new ≡ remove_from self.old place }
    {
        let _ = self.identities.remove(place);
        let _ = self.entries.remove(place);
    }
}
