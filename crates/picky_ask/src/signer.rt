//! The signer whose signatures the caller gives.

ghost use Rattle.std.specs.Prelude.{◌≡◌, ◌≤◌, ◌-◌, ◌^◌, List, None, Some, length, min, IfOk, IsErrOf};
ghost use Rattle.std.proofs.Common.{arith};
ghost use Rattle.picky_keys.specs.PrivateKey.{issuer_key};
ghost use Rattle.picky_keys.specs.PublicKey.{key_shown};
ghost use Rattle.picky_keys.specs.Blob.{blob_of};
ghost use Rattle.picky_ask.specs.declared.question.Entry.{Entry as AnEntry};
ghost use Rattle.picky_ask.specs.declared.question.Head.TheVariants as heads;
ghost use Rattle.picky_ask.specs.Lookup.{question};
ghost use Rattle.picky_suite.specs.Asked.{IsAskedAtMost};
ghost use Rattle.picky_suite.specs.Signs.{Signs};
ghost use Rattle.picky_ask.specs.Signing.{HasSignerCause, IsSignerState, LooksUpSignature, SignerFailsFor, SignsByTable, base_key_of, fresh_signer};
ghost use Rattle.picky_ask.specs.Signing.{sign_question};

use crate::head_view::{HeadView, copy, is_short, question_copy};
use crate::known::Known;
use crate::lookup::answer_to;
use crate::missing::Missing;
use crate::question::Entry;
use crate::table::Table;
use picky_keys::{Issuer, PublicKeyRef, SignatureAlgorithm, SshBasePublicKey, SshPublicKeyError};
use picky_suite::{SignError, Signer};
use picky_wire::{Bytes, NoMemory, SizeError, TryClone, both};
use std::alloc::Global;
use std::marker::{Model, PhantomData};

/// A signer whose signatures are those of a table: the first answer to a question is the good one.
///
/// A call that the table doesn't answer fails, and keeps the question aside.
#[derive(Drop)]
pub struct AnsweredSigner<'t, K: Known> {
    entries: &'t [Entry],
    missing: Option<Missing>,
    faults: u64,
    known: PhantomData<K>,
}

impl<'t, K: Known> Model for AnsweredSigner<'t, K> {
    ghost use Rattle.picky_ask.specs.Signing.{IsSignerState, SignerState};

    ghost Value = { SignerState };

    ghost view = { λ s. record { entries = s.entries.now; missing = s.missing; faults = s.faults } };

    ghost invariant = { λ s. IsSignerState K.table (record { entries = s.entries.now; missing = s.missing; faults = s.faults }) };
}

impl<'t, K: Known> AnsweredSigner<'t, K> {
    /// A signer that signs as the table says.
    pub fn new(table: &'t Table) -> AnsweredSigner<'t, K>
        requires { (entries : List AnEntry) → K.table ≡ Some entries → table.now ≡ entries }
        ensures { result ≡ fresh_signer table.now }
    {
        AnsweredSigner {
            entries: table.entries(),
            missing: None,
            faults: 0,
            known: PhantomData,
        }
    }

    /// Why the last call that answered `Failed` has no answer; `None` where none did.
    pub fn into_missing(self) -> Option<Missing>
        ensures missing { result ≡ self.entry.missing }
        ensures state { IsSignerState K.table self.entry }
    {
        let AnsweredSigner { missing, .. } = self;
        missing
    }

    /// The table's signature of the message, under the issuer's public key. Refuses: `Failed`; `NoMemory`, with nothing changed.
    pub fn ask_signature(
        &mut self,
        alloc: Global,
        issuer: &Issuer,
        algorithm: SignatureAlgorithm,
        message: &[u8],
    ) -> Result<Bytes, SignError>
        ensures { LooksUpSignature (sign_question (issuer_key issuer.now) algorithm message.now)
            result self.old self.new }
    {
        let key = match key_blob(alloc, issuer.public()) {
            Ok(key) => key,
            Err(SizeError::TooLong) => return Err(self.fail(Missing::TooLong)),
            Err(SizeError::NoMemory) => return Err(SignError::NoMemory),
        };
        self.look_up(alloc, algorithm, key.as_slice(), message)
    }

    // The table's signature of the message, under the public key of a blob. Refuses: `Failed`; `NoMemory`, with nothing changed.
    fn look_up(
        &mut self,
        alloc: Global,
        algorithm: SignatureAlgorithm,
        key: &[u8],
        text: &[u8],
    ) -> Result<Bytes, SignError>
        ensures { LooksUpSignature (question (heads.Sign algorithm key.now) text.now) result self.old self.new }
    {
        let head = &HeadView::Sign { algorithm, key };
        if let Some(answer) = answer_to(self.entries, head, text) {
            return match copy(alloc, answer) {
                Ok(answer) => Ok(answer),
                Err(NoMemory) => Err(SignError::NoMemory),
            };
        }
        if !is_short(head, text) {
            return Err(self.fail(Missing::TooLong));
        }
        match question_copy(alloc, head, text) {
            Ok(question) => Err(self.fail(Missing::Asked(question))),
            Err(NoMemory) => Err(SignError::NoMemory),
        }
    }

    // The call fails for this reason, and is counted.
    fn fail(&mut self, missing: Missing) -> SignError
        requires { HasSignerCause missing self.old.entries }
        ensures failed { result ≡ SignError.Failed }
        ensures state { SignerFailsFor missing self.old self.new }
    {
        self.missing = Some(missing);
        self.faults = self.faults.saturating_add(1);
        SignError::Failed
    }
}

impl<K: Known> Signer for AnsweredSigner<'_, K> {
    ghost signs = { SignsByTable };

    ghost faults = { λ s. min s.faults (2 ^ 64 - 1) };

    ghost in_range = { λ s. Prim.omega arith };

    fn sign(
        &mut self,
        alloc: Global,
        issuer: &Issuer,
        algorithm: SignatureAlgorithm,
        message: &[u8],
    ) -> Result<Bytes, SignError>
        ensures looks { LooksUpSignature (sign_question (issuer_key issuer.now) algorithm message.now)
            result self.old self.new }

        // What every signer promises.
        ensures asked { IsAskedAtMost 1 (λ _. 0) self.old self.new }
        ensures signs { Signs SignsByTable (λ s. min s.faults (2 ^ 64 - 1)) (issuer_key issuer.now) algorithm message.now
            result self.old self.new }
    {
        self.ask_signature(alloc, issuer, algorithm, message)
    }
}

// The key's blob. Refuses, in order: `TooLong`, where it has 2^32 bytes or more.
#[tactic(auto, using(crate::proofs::SignLemmas::blob_is))]
fn key_blob(alloc: Global, key: PublicKeyRef<'_>) -> Result<Bytes, SizeError>
    ensures ok { IfOk result (λ bytes. bytes ≡ blob_of (base_key_of (key_shown key.entry))) }
    ensures too_long_only_if_long { IsErrOf result SizeError.TooLong
        → 2 ^ 32 ≤ length (blob_of (base_key_of (key_shown key.entry))) }
{
    let key = match base_key(alloc, key) {
        Ok(key) => key,
        Err(NoMemory) => return Err(SizeError::NoMemory),
    };
    match key.to_blob(alloc) {
        Ok(bytes) => Ok(bytes),
        Err(SshPublicKeyError::TooLong) => Err(SizeError::TooLong),
        Err(e) => {
            drop(e);
            Err(SizeError::NoMemory)
        }
    }
}

// The key as SSH has it. Refuses: `NoMemory`.
fn base_key(alloc: Global, key: PublicKeyRef<'_>) -> Result<SshBasePublicKey, NoMemory>
    ensures { IfOk result (λ base. base ≡ base_key_of (key_shown key.entry)) }
{
    match key {
        PublicKeyRef::Rsa { e, n } => {
            let (e, n) = both(e.try_clone(alloc), n.try_clone(alloc))?;
            Ok(SshBasePublicKey::Rsa { e, n })
        }
        PublicKeyRef::Ec { curve, point } => {
            let point = point.try_clone(alloc)?;
            Ok(SshBasePublicKey::Ec { curve, point })
        }
        PublicKeyRef::Ed { key } => Ok(SshBasePublicKey::Ed { key: *key }),
    }
}
