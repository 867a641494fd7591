//! An agent: what it keeps, and how it answers a message.

ghost use Rattle.std.specs.Prelude.{◌≡◌, ◌≤◌, ◌↔◌, ◌⊎◌, ◌∷◌, ◌++◌, [], ℕ, List, length, MatchBool, MatchOption};
ghost use Rattle.std.specs.Prelude.{Err, IfErr, IfOk, None, Ok, OnErr, OnOk, Some};
ghost use Rattle.picky_keys.specs.declared.public_key.PublicKey.{PublicKey};
ghost use Rattle.picky_keys.specs.declared.algorithm.SignatureAlgorithm.{SignatureAlgorithm as Algorithm};
ghost use Rattle.picky_keys.specs.View.{key_seen};
ghost use Rattle.picky_suite.specs.Asked.{IsAskedAtMost};
ghost use Rattle.picky_sshkey_blob.specs.Key.{IsPrivateKey};
ghost use Rattle.picky_sshkey_blob.specs.View.{private_key_seen};
ghost use Rattle.picky_agent_state.specs.Message.{IsMessage};
ghost use Rattle.picky_agent_state.specs.Kept.{Kept, machine, new_agent, is_locked as is_locked_in};
ghost use Rattle.picky_agent_state.specs.Request.{Add, request_of, sign_request};
ghost use Rattle.picky_agent_state.specs.Keep.{keep_limit, kept_with};
ghost use Rattle.picky_agent_state.specs.Rows.{is_full, most_identities, opens as opens_in, Adds, Fails, Lists};
ghost use Rattle.picky_agent_state.specs.Rows.{Locks, Removes, RemovesAll, Succeeds, Unlocks};
ghost use Rattle.picky_agent_state.specs.Step.{AsksSigner, AsksToSign, CanSign, Step};
ghost use Rattle.picky_agent_state.specs.inner.Asked.{CanAdd, identity_seen};

use crate::asked::{Asked, read_request};
use crate::held::{place_of, public_of};
use crate::identity::Identity;
use crate::keep::KeepError;
use crate::keyring::Keyring;
use crate::reply::{failure, listing_of, success};
use crate::signing::sign_with;
use picky_keys::PublicView;
use picky_sshkey_blob::PrivateView;
use picky_suite::Signer;
use picky_wire::{Bytes, NoMemory, Text};
use std::alloc::Global;
use std::marker::Model;

/// How many identities an agent keeps at most.
const MOST_IDENTITIES: usize = 1024;

/// Private keys with their comments, and a lock. It keeps the allocator that it was made with.
#[derive(Drop)]
pub struct Agent {
    alloc: Global,
    keyring: Keyring,
    pass: Option<Bytes>,
}

impl Model for Agent {
    ghost Value = { Kept };

    ghost view = { λ a. record { identities = a.keyring; pass = a.pass } };
}

impl Agent {
    /// An agent with no identities, unlocked. It takes no memory.
    pub fn new(alloc: Global) -> Agent
        ensures { result ≡ new_agent }
    {
        Agent {
            alloc,
            keyring: Keyring::new(alloc),
            pass: None,
        }
    }

    /// Its identities in order, also while it is locked.
    pub fn identities(&self) -> &[Identity]
        ensures all { result.now ≡ self.now.identities }
        ensures few { length result.now ≤ most_identities }
    {
        self.keyring.identities()
    }

    /// Whether it is locked.
    pub fn is_locked(&self) -> bool
        ensures { result ≡ is_locked_in self.now }
    {
        self.pass.is_some()
    }

    /// Takes a message, its type and contents, and answers the type and contents of the reply.
    ///
    /// draft-miller-ssh-agent-04. The signer is asked for a signature with a key that an identity has, and for nothing else.
    /// Refuses: `NoMemory`; the agent stays as it was, though the signer may have been asked.
    pub fn answer<G: Signer>(&mut self, signer: &mut G, message: &[u8]) -> Result<Bytes, NoMemory>
        requires { IsMessage message.now }
        ensures step { IfOk result (λ reply. Step (G.signs signer.old) (machine self.old (G.faults signer.old)) message.now reply
            (machine self.new (G.faults signer.new))) }
        ensures unchanged { OnErr result (self.new ≡ self.old) }

        // The signer: which signatures are good stays, its count never falls, and what needs no signature leaves it.
        ensures signs { (k : PublicKey) (a : Algorithm) (m s : List ℕ) → G.signs signer.new k a m s ↔ G.signs signer.old k a m s }
        ensures never_falls { G.faults signer.old ≤ G.faults signer.new }
        ensures unasked { (AsksSigner self.old (request_of message.now) → ⊥) → signer.new ≡ signer.old }
        ensures asked { IsAskedAtMost 1 G.calls signer.old signer.new }
    {
        match read_request(message) {
            Asked::Identities => self.list(),
            Asked::Sign {
                key,
                message,
                flags,
            } => self.sign(signer, &key, flags, message),
            Asked::Add { key, comment } => self.add(&key, comment),
            Asked::Remove { key } => self.remove(&key),
            Asked::RemoveAll => self.remove_all(),
            Asked::Lock { pass } => self.lock(pass),
            Asked::Unlock { pass } => self.unlock(pass),
            Asked::Unfit => failure(self.alloc),
        }
    }

    /// Its passphrase, where it is locked.
    pub fn pass(&self) -> Option<&[u8]>
        ensures { MatchOption result (self.now.pass ≡ None) (λ pass. self.now.pass ≡ Some pass.now) }
    {
        match &self.pass {
            Some(pass) => Some(pass.as_slice()),
            None => None,
        }
    }

    /// Takes what a message brings into a kept state: an identity behind the others, or the lock.
    ///
    /// It looks at no identity that it has, and at no lock. Refuses, in order: `NotKept`, `TooMany`, `NoMemory`.
    pub fn keep(&mut self, message: &[u8]) -> Result<(), KeepError>
        requires { length message.now ≤ keep_limit }
        ensures ok { OnOk result (kept_with self.old (request_of message.now) ≡ Ok self.new) }
        ensures err { IfErr result (λ e. (e ≡ KeepError.NoMemory) ⊎ (kept_with self.old (request_of message.now) ≡ Err e)) }
        ensures unchanged { OnErr result (self.new ≡ self.old) }
    {
        match read_request(message) {
            Asked::Add { key, comment } => self.keep_identity(&key, comment),
            Asked::Lock { pass } => self.keep_lock(pass),
            Asked::Identities => Err(KeepError::NotKept),
            Asked::Sign { .. } => Err(KeepError::NotKept),
            Asked::Remove { .. } => Err(KeepError::NotKept),
            Asked::RemoveAll => Err(KeepError::NotKept),
            Asked::Unlock { .. } => Err(KeepError::NotKept),
            Asked::Unfit => Err(KeepError::NotKept),
        }
    }

    fn keep_identity(&mut self, key: &PrivateView<'_>, comment: &str) -> Result<(), KeepError>
        requires { CanAdd key.now comment.now }
        ensures ok { OnOk result (kept_with self.old (Add (identity_seen key.now comment.now)) ≡ Ok self.new) }
        ensures err { IfErr result (λ e. (e ≡ KeepError.NoMemory)
            ⊎ (kept_with self.old (Add (identity_seen key.now comment.now)) ≡ Err e)) }
        ensures unchanged { OnErr result (self.new ≡ self.old) }
    {
        if self.keyring.identities().len() >= MOST_IDENTITIES {
            return Err(KeepError::TooMany);
        }
        match identity_of(self.alloc, key, comment) {
            Ok(identity) => match self.keyring.push(self.alloc, identity) {
                Ok(()) => Ok(()),
                Err(NoMemory) => Err(KeepError::NoMemory),
            },
            Err(NoMemory) => Err(KeepError::NoMemory),
        }
    }

    fn keep_lock(&mut self, pass: &[u8]) -> Result<(), KeepError>
        ensures ok { OnOk result (self.new ≡ record self.old { pass = Some pass.now }) }
        ensures err { IfErr result (λ e. e ≡ KeepError.NoMemory) }
        ensures unchanged { OnErr result (self.new ≡ self.old) }
    {
        match Bytes::new(self.alloc, pass) {
            Ok(pass) => {
                self.pass = Some(pass);
                Ok(())
            }
            Err(_) => Err(KeepError::NoMemory),
        }
    }

    fn list(&self) -> Result<Bytes, NoMemory>
        ensures { IfOk result (λ reply. Lists self.now reply self.now) }
    {
        if self.is_locked() {
            return listing_of(self.alloc, &[]);
        }
        listing_of(self.alloc, self.keyring.entries())
    }

    fn sign<G: Signer>(
        &self,
        signer: &mut G,
        key: &PublicView<'_>,
        flags: u32,
        message: &[u8],
    ) -> Result<Bytes, NoMemory>
        ensures asks { IfOk result (λ reply. AsksToSign (G.signs signer.old) (machine self.now (G.faults signer.old))
            (sign_request (key_seen key.now) message.now flags) reply (machine self.now (G.faults signer.new))) }
        ensures signs { (k : PublicKey) (a : Algorithm) (m s : List ℕ) → G.signs signer.new k a m s ↔ G.signs signer.old k a m s }
        ensures never_falls { G.faults signer.old ≤ G.faults signer.new }
        ensures unasked { (CanSign self.now (sign_request (key_seen key.now) message.now flags) → ⊥) → signer.new ≡ signer.old }
        ensures asked { IsAskedAtMost 1 G.calls signer.old signer.new }
    {
        if self.is_locked() {
            return failure(self.alloc);
        }
        match place_of(self.keyring.identities(), key) {
            Some(place) => {
                let identity = &self.keyring.identities()[place];
                sign_with(self.alloc, signer, &identity.key, flags, message)
            }
            None => failure(self.alloc),
        }
    }

    fn add(&mut self, key: &PrivateView<'_>, comment: &str) -> Result<Bytes, NoMemory>
        requires { CanAdd key.now comment.now }
        ensures row { IfOk result (λ reply. Adds self.old (identity_seen key.now comment.now) reply self.new) }
        ensures unchanged { OnErr result (self.new ≡ self.old) }
    {
        if self.is_locked() {
            return failure(self.alloc);
        }
        match place_of(self.keyring.identities(), &public_of(key)) {
            Some(place) => {
                let identity = identity_of(self.alloc, key, comment)?;
                let reply = success(self.alloc)?;
                self.keyring.replace(self.alloc, place, identity)?;
                Ok(reply)
            }
            None => self.append(key, comment),
        }
    }

    fn append(&mut self, key: &PrivateView<'_>, comment: &str) -> Result<Bytes, NoMemory>
        requires { CanAdd key.now comment.now }
        ensures room { IfOk result (λ reply. MatchBool (is_full self.old) (Fails self.old reply self.new)
            (Succeeds (record self.old {
              identities = self.old.identities
                  ++ identity_seen key.now comment.now ∷ [];
            }) reply self.new)) }
        ensures unchanged { OnErr result (self.new ≡ self.old) }
    {
        if self.keyring.identities().len() >= MOST_IDENTITIES {
            return failure(self.alloc);
        }
        let identity = identity_of(self.alloc, key, comment)?;
        let reply = success(self.alloc)?;
        self.keyring.push(self.alloc, identity)?;
        Ok(reply)
    }

    fn remove(&mut self, key: &PublicView<'_>) -> Result<Bytes, NoMemory>
        ensures row { IfOk result (λ reply. Removes self.old (key_seen key.now) reply self.new) }
        ensures unchanged { OnErr result (self.new ≡ self.old) }
    {
        if self.is_locked() {
            return failure(self.alloc);
        }
        match place_of(self.keyring.identities(), key) {
            Some(place) => {
                let reply = success(self.alloc)?;
                self.keyring.remove(place);
                Ok(reply)
            }
            None => failure(self.alloc),
        }
    }

    fn remove_all(&mut self) -> Result<Bytes, NoMemory>
        ensures row { IfOk result (λ reply. RemovesAll self.old reply self.new) }
        ensures unchanged { OnErr result (self.new ≡ self.old) }
    {
        if self.is_locked() {
            return failure(self.alloc);
        }
        let reply = success(self.alloc)?;
        self.keyring = Keyring::new(self.alloc);
        Ok(reply)
    }

    fn lock(&mut self, pass: &[u8]) -> Result<Bytes, NoMemory>
        ensures row { IfOk result (λ reply. Locks self.old pass.now reply self.new) }
        ensures unchanged { OnErr result (self.new ≡ self.old) }
    {
        if self.is_locked() {
            return failure(self.alloc);
        }
        let reply = success(self.alloc)?;
        match Bytes::new(self.alloc, pass) {
            Ok(pass) => {
                self.pass = Some(pass);
                Ok(reply)
            }
            Err(_) => Err(NoMemory),
        }
    }

    fn unlock(&mut self, pass: &[u8]) -> Result<Bytes, NoMemory>
        ensures row { IfOk result (λ reply. Unlocks self.old pass.now reply self.new) }
        ensures unchanged { OnErr result (self.new ≡ self.old) }
    {
        if !self.opens(pass) {
            return failure(self.alloc);
        }
        let reply = success(self.alloc)?;
        self.pass = None;
        Ok(reply)
    }

    /// Whether it is locked under this passphrase.
    fn opens(&self, pass: &[u8]) -> bool
        ensures { result ≡ opens_in self.now.pass pass.now }
    {
        match &self.pass {
            Some(kept) => kept.as_slice() == pass,
            None => false,
        }
    }
}

/// The identity of a key and a comment. Refuses: `NoMemory`.
fn identity_of(alloc: Global, key: &PrivateView<'_>, comment: &str) -> Result<Identity, NoMemory>
    requires { IsPrivateKey (private_key_seen key.now) }
    ensures { IfOk result (λ identity. identity ≡ record { key = private_key_seen key.now; comment = comment.now }) }
{
    match Text::new(alloc, comment) {
        Ok(comment) => {
            let key = key.to_key(alloc)?;
            Ok(Identity { key, comment })
        }
        Err(_) => Err(NoMemory),
    }
}
