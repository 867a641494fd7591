//! The verifier whose verdicts the caller gives.

ghost use Rattle.std.specs.Prelude.{◌≡◌, ◌-◌, ◌^◌, List, None, Some, min, MatchResult};
ghost use Rattle.std.proofs.Common.{arith};
ghost use Rattle.picky_ask.specs.declared.question.Entry.{Entry as AnEntry};
ghost use Rattle.picky_ask.specs.declared.question.Question.{Question as AQuestion};
ghost use Rattle.picky_ask.specs.Lookup.{answer_to};
ghost use Rattle.picky_ask_verifier.specs.Question.{verify_question};
ghost use Rattle.picky_ask_verifier.specs.Verdicts.{IsVerifierState, HasCause, LooksUpVerdict, SaysVerdict, VerifierFailsFor, VerifiesByTable, fresh_verifier};

use crate::known_verdicts::KnownVerdicts;
use crate::no_verdict::NoVerdict;
use crate::question::question;
use picky_ask::{Question, Table};
use picky_cert_parts::SshSignature;
use picky_keys::SshBasePublicKey;
use picky_policy::Verifier;
use picky_wire::{Failed, SizeError};
use std::alloc::Global;
use std::marker::{Model, PhantomData};

/// A verifier whose verdicts are those of a table: the first answer to a question counts.
///
/// A call that the table doesn't answer fails, and keeps the question aside.
#[derive(Drop)]
pub struct AnsweredVerifier<'t, K: KnownVerdicts> {
    alloc: Global,
    table: &'t Table,
    missing: Option<NoVerdict>,
    faults: u64,
    known: PhantomData<K>,
}

impl<'t, K: KnownVerdicts> Model for AnsweredVerifier<'t, K> {
    ghost use Rattle.picky_ask_verifier.specs.Verdicts.{IsVerifierState, VerifierState};

    ghost Value = { VerifierState };

    ghost view = { λ s. record { entries = s.table.now; missing = s.missing; faults = s.faults } };

    ghost invariant = { λ s. IsVerifierState K.table (record { entries = s.table.now; missing = s.missing; faults = s.faults }) };
}

impl<'t, K: KnownVerdicts> AnsweredVerifier<'t, K> {
    /// A verifier that says what the table says.
    pub fn new(alloc: Global, table: &'t Table) -> AnsweredVerifier<'t, K>
        requires { (entries : List AnEntry) → K.table ≡ Some entries → table.now ≡ entries }
        ensures { result ≡ fresh_verifier table.now }
    {
        AnsweredVerifier {
            alloc,
            table,
            missing: None,
            faults: 0,
            known: PhantomData,
        }
    }

    /// Why the last call that failed has no verdict; `None` where no call failed.
    pub fn into_missing(self) -> Option<NoVerdict>
        ensures missing { result ≡ self.entry.missing }
        ensures state { IsVerifierState K.table self.entry }
    {
        let AnsweredVerifier { missing, .. } = self;
        missing
    }

    /// The table's verdict on the signature of the message, under the key. Refuses: `Failed`.
    pub fn ask_verdict(
        &mut self,
        key: &SshBasePublicKey,
        signature: &SshSignature,
        message: &[u8],
    ) -> Result<bool, Failed>
        ensures { LooksUpVerdict (verify_question key.now signature.now message.now) result self.old self.new }
    {
        match question(self.alloc, key, signature, message) {
            Ok(question) => self.look_up(question),
            Err(SizeError::TooLong) => Err(self.fail(NoVerdict::TooLong)),
            Err(SizeError::NoMemory) => Err(self.fail(NoVerdict::NoMemory)),
        }
    }

    // The table's verdict. Refuses: `Failed`.
    fn look_up(&mut self, question: Question) -> Result<bool, Failed>
        ensures { LooksUpVerdict question result self.old self.new }
    {
        match verdict_in(self.table, question) {
            Ok(good) => Ok(good),
            Err(missing) => Err(self.fail(missing)),
        }
    }

    // The call fails for this reason, and is counted.
    fn fail(&mut self, missing: NoVerdict) -> Failed
        requires { (q : AQuestion) → missing ≡ NoVerdict.Asked q → answer_to q self.old.entries ≡ None }
        ensures { VerifierFailsFor missing self.old self.new }
    {
        self.missing = Some(missing);
        self.faults = self.faults.saturating_add(1);
        Failed
    }
}

impl<K: KnownVerdicts> Verifier for AnsweredVerifier<'_, K> {
    ghost verifies = { VerifiesByTable K.test };

    ghost faults = { λ s. min s.faults (2 ^ 64 - 1) };

    ghost in_range = { λ s. Prim.omega arith };

    fn verify(
        &mut self,
        key: &SshBasePublicKey,
        signature: &SshSignature,
        message: &[u8],
    ) -> Result<bool, Failed> {
        self.ask_verdict(key, signature, message)
    }
}

// The table's verdict. Refuses, in order: `Asked`, `WrongLength`, `UnknownByte`.
fn verdict_in(table: &Table, question: Question) -> Result<bool, NoVerdict>
    ensures { MatchResult result (SaysVerdict question table.now) (HasCause question table.now) }
{
    match table.answer(&question) {
        Some([1]) => Ok(true),
        Some([0]) => Ok(false),
        Some([_]) => Err(NoVerdict::UnknownByte),
        Some(_) => Err(NoVerdict::WrongLength),
        None => Err(NoVerdict::Asked(question)),
    }
}
