//! The suite whose answers the caller gives.

ghost use Rattle.std.specs.Prelude.{◌≡◌, ◌+◌, ◌<◌, ◌-◌, ◌^◌, ℕ, List, true, None, Some, Err, Result, length, min, max, IfOk, OnErr, OnOk};
ghost use Rattle.std.proofs.Common.{arith};
ghost use Rattle.picky_wire_base.specs.Numbers.{IsBytes};
ghost use Rattle.picky_suite.specs.Asked.{IsAskedAtMost};
ghost use Rattle.picky_suite.specs.Fills.{Fills};
ghost use Rattle.picky_suite.specs.Ranges.{IsBcryptLen};
ghost use Rattle.picky_ask.specs.declared.lookup.Mode.TheVariants as modes;
ghost use Rattle.picky_ask.specs.declared.missing.Missing.{Missing as AMissing};
ghost use Rattle.picky_ask.specs.declared.question.Head.TheVariants as heads;
ghost use Rattle.picky_ask.specs.declared.question.Question.{Question as AQuestion};
ghost use Rattle.picky_ask.specs.declared.question.Entry.{Entry as AnEntry};
ghost use Rattle.picky_ask.specs.Known.{meant};
ghost use Rattle.picky_ask.specs.Cause.{HasCause, IsOfSuite, Wants};
ghost use Rattle.picky_ask.specs.Lookup.{asks_cipher, derivation, exchange, in_turn, question as asked_question};
ghost use Rattle.picky_ask.specs.State.{FailsFor, HasReason, IsState, LooksUp, calls_made, fresh as fresh_state};
ghost use Rattle.picky_ask.specs.inner.HeadView.{head_seen, two_head};
ghost use Rattle.picky_ask.specs.inner.Turn.{IsAskedFor, IsFound, turned};

use crate::head_view::{HeadView, TwoStrings, is_short, question_copy};
use crate::known::Known;
use crate::lookup::{Mode, are_paired, bytes_are_bytes, place_in};
use crate::missing::Missing;
use crate::question::Entry;
use crate::table::Table;
use picky_suite::{Flavour, Suite};
use picky_wire::{Failed, NoMemory};
use std::alloc::Global;
use std::marker::{Model, PhantomData};

/// A suite whose answers are those of a table: a lawful one, whatever the table. Its MACs are those of RFC 2104.
///
/// The table is the record of a run: an answer is used in its turn, and a question that comes again is answered from where it
/// stands. A call that the table doesn't answer fails, and keeps aside what is missing.
#[derive(Drop)]
pub struct AnsweredSuite<'t, K: Known> {
    alloc: Global,
    entries: &'t [Entry],
    used: usize,
    missing: Option<Missing>,
    faults: u64,
    known: PhantomData<K>,
}

impl<'t, K: Known> Model for AnsweredSuite<'t, K> {
    ghost use Rattle.picky_ask.specs.State.{IsState, State};

    ghost Value = { State };

    ghost view = { λ s. record { entries = s.entries.now; used = s.used; missing = s.missing; faults = s.faults } };

    ghost invariant = { λ s.
        IsState K.table (record { entries = s.entries.now; used = s.used; missing = s.missing; faults = s.faults }) };
}

impl<'t, K: Known> AnsweredSuite<'t, K> {
    /// A suite that answers as the table says.
    pub fn new(alloc: Global, table: &'t Table) -> AnsweredSuite<'t, K>
        requires { (entries : List AnEntry) → K.table ≡ Some entries → table.now ≡ entries }
        ensures meanings { ⟦<AnsweredSuite<'t, K> as Suite>⟧.meanings result ≡ meant K.known table.now }
        ensures calls { ⟦<AnsweredSuite<'t, K> as Suite>⟧.calls result ≡ 0 }
        ensures fresh { result ≡ fresh_state table.now }
    {
        AnsweredSuite {
            alloc,
            entries: table.entries(),
            used: 0,
            missing: None,
            faults: 0,
            known: PhantomData,
        }
    }

    /// Why the last call that failed has no answer; `None` where no call failed.
    pub fn into_missing(self) -> Option<Missing>
        ensures missing { result ≡ self.entry.missing }
        ensures state { IsState K.table self.entry }
        ensures calls { ⟦<AnsweredSuite<'t, K> as Suite>⟧.calls self.entry ≡ calls_made self.entry }
    {
        let AnsweredSuite { missing, .. } = self;
        missing
    }

    /// Derives by bcrypt-pbkdf, as the table says. Refuses: `Failed`.
    pub fn ask_bcrypt(
        &mut self,
        pass: &[u8],
        salt: &[u8],
        rounds: u32,
        out: &mut [u8],
    ) -> Result<(), Failed>
        requires { IsBcryptLen (length out.old) }
        ensures looks { let q = asked_question (heads.Bcrypt (length out.old) rounds salt.now) pass.now in
            LooksUp q (in_turn q self.old.used self.old.entries (derivation q (length out.old) self.old.entries))
            result out.new self.old self.new }
        ensures len { length out.new ≡ length out.old }
        ensures bytes { OnOk result (IsBytes out.new) }
        ensures unchanged { OnErr result (out.new ≡ out.old) }
    {
        let len = out.len() as u32;
        self.derive(&HeadView::Bcrypt { len, rounds, salt }, pass, out)
    }

    /// Derives by Argon2, as the table says. Refuses: `Failed`.
    pub fn ask_argon2(
        &mut self,
        flavour: Flavour,
        memory: u32,
        passes: u32,
        parallelism: u32,
        pass: &[u8],
        salt: &[u8],
        out: &mut [u8; 80],
    ) -> Result<(), Failed>
        ensures looks { let q = asked_question (heads.Argon2 flavour memory passes parallelism salt.now) pass.now in
            LooksUp q (in_turn q self.old.used self.old.entries (derivation q (length out.old) self.old.entries))
            result out.new self.old self.new }
        ensures len { length out.new ≡ length out.old }
        ensures bytes { OnOk result (IsBytes out.new) }
        ensures unchanged { OnErr result (out.new ≡ out.old) }
    {
        let head = HeadView::Argon2 {
            flavour,
            memory,
            passes,
            parallelism,
            salt,
        };
        self.derive(&head, pass, out)
    }

    /// Seals by AES in CBC mode, as the table says. Refuses: `Failed`.
    #[tactic(auto, using(crate::proofs::CauseLemmas::own_ciphers))]
    pub fn ask_seal(&mut self, key: &[u8], iv: &[u8; 16], block: &mut [u8]) -> Result<(), Failed>
        ensures looks { let q = asked_question (heads.CbcSeal key.now iv.now) block.old in
            LooksUp q (in_turn q self.old.used self.old.entries (exchange modes.Cbc key.now iv.now q self.old.entries))
            result block.new self.old self.new }
        ensures len { length block.new ≡ length block.old }
        ensures bytes { OnOk result (IsBytes block.new) }
        ensures unchanged { OnErr result (block.new ≡ block.old) }
    {
        self.exchange(TwoStrings::CbcSeal, Mode::Cbc, key, iv, block)
    }

    /// Opens by AES in CBC mode, as the table says. Refuses: `Failed`.
    #[tactic(auto, using(crate::proofs::CauseLemmas::own_ciphers))]
    pub fn ask_open(&mut self, key: &[u8], iv: &[u8; 16], block: &mut [u8]) -> Result<(), Failed>
        ensures looks { let q = asked_question (heads.CbcOpen key.now iv.now) block.old in
            LooksUp q (in_turn q self.old.used self.old.entries (exchange modes.Cbc key.now iv.now q self.old.entries))
            result block.new self.old self.new }
        ensures len { length block.new ≡ length block.old }
        ensures bytes { OnOk result (IsBytes block.new) }
        ensures unchanged { OnErr result (block.new ≡ block.old) }
    {
        self.exchange(TwoStrings::CbcOpen, Mode::Cbc, key, iv, block)
    }

    /// Seals or opens by AES in CTR mode, as the table says. Refuses: `Failed`.
    #[tactic(auto, using(crate::proofs::CauseLemmas::own_ciphers))]
    pub fn ask_ctr(&mut self, key: &[u8], iv: &[u8; 16], block: &mut [u8]) -> Result<(), Failed>
        ensures looks { let q = asked_question (heads.Ctr key.now iv.now) block.old in
            LooksUp q (in_turn q self.old.used self.old.entries (exchange modes.Ctr key.now iv.now q self.old.entries))
            result block.new self.old self.new }
        ensures len { length block.new ≡ length block.old }
        ensures bytes { OnOk result (IsBytes block.new) }
        ensures unchanged { OnErr result (block.new ≡ block.old) }
    {
        self.exchange(TwoStrings::Ctr, Mode::Ctr, key, iv, block)
    }

    // Fills the buffer with the answer to a question, of its length.
    fn derive(&mut self, head: &HeadView<'_>, text: &[u8], out: &mut [u8]) -> Result<(), Failed>
        requires { Wants (asked_question (head_seen head.now) text.now) (length out.old) }
        ensures looks { let q = asked_question (head_seen head.now) text.now in
            LooksUp q (in_turn q self.old.used self.old.entries (derivation q (length out.old) self.old.entries))
            result out.new self.old self.new }
        ensures len { length out.new ≡ length out.old }
        ensures bytes { OnOk result (IsBytes out.new) }
        ensures unchanged { OnErr result (out.new ≡ out.old) }
    {
        let (place, answer) = self.find(head, text)?;
        if answer.len() != out.len() {
            return Err(self.fail(Missing::WrongLength));
        }
        self.use_up(place);
        bytes_are_bytes(answer);
        out.copy_from_slice(answer);
        Ok(())
    }

    // Exchanges what the buffer holds for the answer to a question about it.
    fn exchange(
        &mut self,
        of: TwoStrings,
        mode: Mode,
        key: &[u8],
        iv: &[u8],
        block: &mut [u8],
    ) -> Result<(), Failed>
        requires { asks_cipher mode key.now iv.now (two_head of key.now iv.now) ≡ true }
        ensures looks { let q = asked_question (two_head of key.now iv.now) block.old in
            LooksUp q (in_turn q self.old.used self.old.entries (exchange mode key.now iv.now q self.old.entries))
            result block.new self.old self.new }
        ensures len { length block.new ≡ length block.old }
        ensures bytes { OnOk result (IsBytes block.new) }
        ensures unchanged { OnErr result (block.new ≡ block.old) }
    {
        let head = HeadView::Two {
            of,
            first: key,
            second: iv,
        };
        let (place, answer) = self.find(&head, block)?;
        if answer.len() != block.len() {
            return Err(self.fail(Missing::WrongLength));
        }
        if !are_paired(self.entries, mode, key, iv, block, answer) {
            return Err(self.fail(Missing::Contradiction));
        }
        self.use_up(place);
        bytes_are_bytes(answer);
        block.copy_from_slice(answer);
        Ok(())
    }

    // The answer to the question, and its place, where its turn has come; else the call fails.
    fn find(&mut self, head: &HeadView<'_>, text: &[u8]) -> Result<(usize, &'t [u8]), Failed>
        requires { IsOfSuite (asked_question (head_seen head.now) text.now) }
        ensures found { IfOk result (λ found. IsFound (asked_question (head_seen head.now) text.now) found.0 found.1.now self.old) }
        ensures kept { OnOk result (self.new ≡ self.old) }
        ensures failed { OnErr result ((judge : List ℕ → Result (List ℕ) AMissing)
            → HasReason (asked_question (head_seen head.now) text.now)
            (turned (asked_question (head_seen head.now) text.now) judge self.old) self.old self.new) }
    {
        let place = place_in(self.entries, head, text);
        if self.used < place {
            return Err(self.fail(Missing::Misplaced));
        }
        if place < self.entries.len() {
            return Ok((place, self.entries[place].answer.as_slice()));
        }
        let missing = missing_answer(self.alloc, head, text);
        Err(self.fail(missing))
    }

    // The entries up to this place are used.
    fn use_up(&mut self, place: usize)
        requires { place < length self.old.entries }
        ensures { self.new ≡ record self.old { used = max self.old.used (place + 1) } }
    {
        self.used = self.used.max(place + 1);
    }

    // The call fails for this reason, and is counted.
    fn fail(&mut self, missing: Missing) -> Failed
        requires cause { HasCause missing self.old.entries }
        requires last { (q : AQuestion) → missing ≡ Missing.Asked q → self.old.used ≡ length self.old.entries }
        ensures { FailsFor missing self.old self.new }
    {
        self.missing = Some(missing);
        self.faults = self.faults.saturating_add(1);
        Failed
    }
}

impl<K: Known> Suite for AnsweredSuite<'_, K> {
    ghost meanings = { λ s. meant K.known s.entries };

    ghost faults = { λ s. min s.faults (2 ^ 64 - 1) };

    ghost calls = { calls_made };

    ghost in_range = { λ s. Prim.omega arith };

    fn hmac_sha1(&self, key: &[u8], message: &[u8]) -> [u8; 20] {
        picky_suite::hmac_sha1(key, message)
    }

    fn hmac_sha256(&self, key: &[u8], message: &[u8]) -> [u8; 32] {
        picky_suite::hmac_sha256(key, message)
    }

    fn bcrypt(
        &mut self,
        pass: &[u8],
        salt: &[u8],
        rounds: u32,
        out: &mut [u8],
    ) -> Result<(), Failed>
        requires sized { IsBcryptLen (length out.old) }
        ensures looks { let q = asked_question (heads.Bcrypt (length out.old) rounds salt.now) pass.now in
            LooksUp q (in_turn q self.old.used self.old.entries (derivation q (length out.old) self.old.entries))
            result out.new self.old self.new }
        ensures unchanged { OnErr result (out.new ≡ out.old) }

        // What every suite promises.
        ensures asked { IsAskedAtMost 1 calls_made self.old self.new }
        ensures fills { Fills (λ s. meant K.known s.entries) (λ s. min s.faults (2 ^ 64 - 1))
            ((meant K.known self.old.entries).bcrypt pass.now salt.now rounds (length out.old)) result out.old out.new self.old self.new }
    {
        self.ask_bcrypt(pass, salt, rounds, out)
    }

    fn argon2(
        &mut self,
        flavour: Flavour,
        memory: u32,
        passes: u32,
        parallelism: u32,
        pass: &[u8],
        salt: &[u8],
        out: &mut [u8; 80],
    ) -> Result<(), Failed>
        ensures looks { let q = asked_question (heads.Argon2 flavour memory passes parallelism salt.now) pass.now in
            LooksUp q (in_turn q self.old.used self.old.entries (derivation q (length out.old) self.old.entries))
            result out.new self.old self.new }
        ensures unchanged { OnErr result (out.new ≡ out.old) }

        // What every suite promises.
        ensures asked { IsAskedAtMost 1 calls_made self.old self.new }
        ensures fills { Fills (λ s. meant K.known s.entries) (λ s. min s.faults (2 ^ 64 - 1))
            ((meant K.known self.old.entries).argon2 flavour memory passes parallelism pass.now salt.now) result out.old out.new self.old self.new }
    {
        self.ask_argon2(flavour, memory, passes, parallelism, pass, salt, out)
    }

    fn cbc_seal(&mut self, key: &[u8], iv: &[u8; 16], block: &mut [u8]) -> Result<(), Failed>
        ensures looks { let q = asked_question (heads.CbcSeal key.now iv.now) block.old in
            LooksUp q (in_turn q self.old.used self.old.entries (exchange modes.Cbc key.now iv.now q self.old.entries))
            result block.new self.old self.new }
        ensures unchanged { OnErr result (block.new ≡ block.old) }

        // What every suite promises.
        ensures asked { IsAskedAtMost 1 calls_made self.old self.new }
        ensures fills { Fills (λ s. meant K.known s.entries) (λ s. min s.faults (2 ^ 64 - 1))
            ((meant K.known self.old.entries).cbc_seal key.now iv.now block.old) result block.old block.new self.old self.new }
    {
        self.ask_seal(key, iv, block)
    }

    fn cbc_open(&mut self, key: &[u8], iv: &[u8; 16], block: &mut [u8]) -> Result<(), Failed>
        ensures looks { let q = asked_question (heads.CbcOpen key.now iv.now) block.old in
            LooksUp q (in_turn q self.old.used self.old.entries (exchange modes.Cbc key.now iv.now q self.old.entries))
            result block.new self.old self.new }
        ensures unchanged { OnErr result (block.new ≡ block.old) }

        // What every suite promises.
        ensures asked { IsAskedAtMost 1 calls_made self.old self.new }
        ensures fills { Fills (λ s. meant K.known s.entries) (λ s. min s.faults (2 ^ 64 - 1))
            ((meant K.known self.old.entries).cbc_open key.now iv.now block.old) result block.old block.new self.old self.new }
    {
        self.ask_open(key, iv, block)
    }

    fn ctr(&mut self, key: &[u8], iv: &[u8; 16], block: &mut [u8]) -> Result<(), Failed>
        ensures looks { let q = asked_question (heads.Ctr key.now iv.now) block.old in
            LooksUp q (in_turn q self.old.used self.old.entries (exchange modes.Ctr key.now iv.now q self.old.entries))
            result block.new self.old self.new }
        ensures unchanged { OnErr result (block.new ≡ block.old) }

        // What every suite promises.
        ensures asked { IsAskedAtMost 1 calls_made self.old self.new }
        ensures fills { Fills (λ s. meant K.known s.entries) (λ s. min s.faults (2 ^ 64 - 1))
            ((meant K.known self.old.entries).ctr key.now iv.now block.old) result block.old block.new self.old self.new }
    {
        self.ask_ctr(key, iv, block)
    }
}

// Why a question that the table doesn't answer has no answer: it is asked, or can't be.
fn missing_answer(alloc: Global, head: &HeadView<'_>, text: &[u8]) -> Missing
    ensures { IsAskedFor (asked_question (head_seen head.now) text.now) result }
{
    if !is_short(head, text) {
        return Missing::TooLong;
    }
    match question_copy(alloc, head, text) {
        Ok(question) => Missing::Asked(question),
        Err(NoMemory) => Missing::NoMemory,
    }
}
