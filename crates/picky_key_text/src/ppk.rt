//! The key in PuTTY's private key file.

ghost use Rattle.std.specs.Prelude.{◌≡◌, ◌≢◌, Ok, Err};
ghost use Rattle.std.specs.Option.{option_copied};
ghost use Rattle.picky_suite.specs.Asked.{GivesAsked, IsAskedAtMost, LeavesSuite};
ghost use Rattle.picky_wire_base.specs.Outcome.{and_then};
ghost use Rattle.picky_wire.specs.Count.{Rose};
ghost use Rattle.picky_wire_base.specs.Gives.{Gives};
ghost use Rattle.picky_ppk_file.specs.File.{is_sealed};
ghost use Rattle.picky_ppk.specs.Opened.{is_openable};
ghost use Rattle.picky_key_text.specs.Order.{file_key, opened_ppk, ppk_key as key_of_ppk, ppk_asks, file_asks};

use crate::meaning::{Key, Meaning};
use picky_ppk::{Ppk, PuttyError};
use picky_suite::Suite;
use std::alloc::Global;

/// The key and the comment of a file's text. Refuses, in order: what `Ppk::from_str` refuses; where it is sealed
/// `Encrypted` without a passphrase, and what `Ppk::decrypt` refuses; what `Ppk::base_key` refuses.
#[tactic(auto, unfolding(crate::specs::Order::ppk_key, crate::specs::Order::ppk_asks), using(crate::proofs::ReadingLaws::file_texts, crate::proofs::RefusalLaws::no_fault))]
pub fn ppk_key<S: Suite>(
    alloc: Global,
    suite: &mut S,
    text: &str,
    pass: Option<&str>,
) -> Result<Meaning, PuttyError>
    ensures gives { GivesAsked PuttyError.NoMemory PuttyError.SuiteFault (λ meaning. meaning) result
        (key_of_ppk (record { meanings = S.meanings suite.old; pass = option_copied pass.entry }) text.now)
        (ppk_asks (option_copied pass.entry) text.now) (Rose (S.faults suite.old) (S.faults suite.new)) }
    ensures suite { LeavesSuite S.meanings S.faults PuttyError.SuiteFault (ppk_asks (option_copied pass.entry) text.now) result
        suite.old suite.new }
    ensures asked { IsAskedAtMost 2 S.calls suite.old suite.new }
{
    match Ppk::from_str(alloc, suite, text) {
        Ok(ppk) => key_of_file(alloc, suite, ppk, pass),
        Err(e) => Err(e),
    }
}

/// The key of a file, opened where it is sealed.
fn key_of_file<S: Suite>(
    alloc: Global,
    suite: &mut S,
    ppk: Ppk,
    pass: Option<&str>,
) -> Result<Meaning, PuttyError>
    ensures gives { GivesAsked PuttyError.NoMemory PuttyError.SuiteFault (λ meaning. meaning) result
        (and_then (opened_ppk (record { meanings = S.meanings suite.old; pass = option_copied pass.entry }) ppk) file_key)
        (file_asks (option_copied pass.entry) (Ok ppk)) (Rose (S.faults suite.old) (S.faults suite.new)) }
    ensures suite { LeavesSuite S.meanings S.faults PuttyError.SuiteFault (file_asks (option_copied pass.entry) (Ok ppk)) result
        suite.old suite.new }
    ensures asked { IsAskedAtMost 2 S.calls suite.old suite.new }
{
    match opened(alloc, suite, ppk, pass) {
        Ok(ppk) => meaning_of_opened_file(alloc, ppk),
        Err(e) => Err(e),
    }
}

/// The file, opened where it is sealed.
fn opened<S: Suite>(
    alloc: Global,
    suite: &mut S,
    ppk: Ppk,
    pass: Option<&str>,
) -> Result<Ppk, PuttyError>
    ensures gives { GivesAsked PuttyError.NoMemory PuttyError.SuiteFault (λ ppk. ppk) result
        (opened_ppk (record { meanings = S.meanings suite.old; pass = option_copied pass.entry }) ppk)
        (file_asks (option_copied pass.entry) (Ok ppk)) (Rose (S.faults suite.old) (S.faults suite.new)) }
    ensures suite { LeavesSuite S.meanings S.faults PuttyError.SuiteFault (file_asks (option_copied pass.entry) (Ok ppk)) result
        suite.old suite.new }
    ensures asked { IsAskedAtMost 2 S.calls suite.old suite.new }
{
    if !ppk.is_encrypted() {
        return Ok(ppk);
    }
    match pass {
        Some(pass) => ppk.into_decrypted(alloc, suite, pass),
        None => {
            drop(ppk);
            Err(PuttyError::Encrypted)
        }
    }
}

/// The key of a file that isn't sealed, and the comment.
#[tactic(auto, using(crate::proofs::FileKeyLemmas::file_keys, crate::proofs::RefusalLaws::no_fault))]
fn meaning_of_opened_file(alloc: Global, ppk: Ppk) -> Result<Meaning, PuttyError>
    ensures gives { Gives PuttyError.NoMemory (λ meaning. meaning) result (file_key ppk) }
    ensures no_fault { result ≢ Err PuttyError.SuiteFault }
{
    match ppk.into_base_key(alloc) {
        Ok((key, comment)) => Ok(Meaning {
            key: Key::Private(key),
            comment,
        }),
        Err(e) => Err(e),
    }
}
