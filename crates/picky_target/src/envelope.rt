//! A key written as OpenSSH's private key.

ghost use Rattle.std.specs.Prelude.{◌≡◌, IfOk, IfErr, Ok, Err, take};
ghost use Rattle.std.specs.Option.{option_copied};
ghost use Rattle.picky_suite.specs.Asked.{GivesAsked, IsAskedAtMost, LeavesSuite};
ghost use Rattle.picky_wire.specs.Count.{Rose};
ghost use Rattle.picky_wire_base.specs.Gives.{Gives};
ghost use Rattle.picky_sshkey.specs.Made.{made_option};
ghost use Rattle.picky_sshkey.specs.Written.{text_writing_asks};
ghost use Rattle.picky_target.specs.Drafts.{with_rounds as with_rounds_of};
ghost use Rattle.picky_target.specs.inner.Envelope.{salt_judged, envelope_output_refusal};
ghost use Rattle.picky_target.specs.inner.Envelope.{made as made_of, envelope_drafted as drafted_of};
ghost use Rattle.picky_target.specs.inner.Envelope.{text_of_key as text_of_key_of, envelope_written, envelope_asks};

use crate::comment::carries_comment;
use crate::error::ConvertError;
use crate::target::KeyTarget;
use picky_sshkey::{SshBasePrivateKey, SshPrivateKey, SshPrivateKeyError};
use picky_suite::{Suite, bcrypt_ok};
use picky_wire::Text;
use std::alloc::Global;

/// How many fresh bytes a salt takes.
const SALT_LEN: usize = 16;

/// OpenSSH's text of a key and a comment, sealed where there is a passphrase.
/// Refuses as `write_text` for `OpenSsh` and a private key.
#[tactic(auto, using(crate::proofs::EnvelopeLemmas::drafted_no_fault))]
pub fn write_envelope<S: Suite>(
    alloc: Global,
    suite: &mut S,
    rounds: u32,
    key: SshBasePrivateKey,
    comment: &str,
    pass: Option<&str>,
    fresh: &[u8],
) -> Result<Text, ConvertError>
    ensures gives { GivesAsked ConvertError.NoMemory (ConvertError.Private SshPrivateKeyError.SuiteFault) (λ text. text) result
        (envelope_written (S.meanings suite.old) (record { pass = option_copied pass.entry; fresh = fresh.now }) rounds key comment.now)
        (envelope_asks (record { pass = option_copied pass.entry; fresh = fresh.now }) rounds key comment.now)
        (Rose (S.faults suite.old) (S.faults suite.new)) }
    ensures suite { LeavesSuite S.meanings S.faults (ConvertError.Private SshPrivateKeyError.SuiteFault)
        (envelope_asks (record { pass = option_copied pass.entry; fresh = fresh.now }) rounds key comment.now) result
        suite.old suite.new }
    ensures asked { IsAskedAtMost 2 S.calls suite.old suite.new }
{
    match drafted(alloc, rounds, key, comment, pass, fresh) {
        Ok(key) => {
            let text = text_of_key(alloc, suite, &key);
            drop(key);
            text
        }
        Err(e) => Err(e),
    }
}

/// OpenSSH's key. Refuses, in order: `CommentNotCarried`; where it is to be sealed `Private(HashingError)` and
/// `FreshTooShort`; `TooLong`.
fn drafted(
    alloc: Global,
    rounds: u32,
    key: SshBasePrivateKey,
    comment: &str,
    pass: Option<&str>,
    fresh: &[u8],
) -> Result<SshPrivateKey, ConvertError>
    ensures { Gives ConvertError.NoMemory (λ key. key) result
        (drafted_of (record { pass = option_copied pass.entry; fresh = fresh.now }) rounds key comment.now) }
{
    if !carries_comment(KeyTarget::OpenSsh(rounds), comment) {
        drop(key);
        return Err(ConvertError::CommentNotCarried);
    }
    match salt_under(rounds, pass, fresh) {
        Ok(salt) => made(alloc, rounds, key, comment, pass, &salt),
        Err(e) => {
            drop(key);
            Err(e)
        }
    }
}

/// The salt of an envelope; one that isn't sealed has none, whatever it is given. Refuses, in order: `Private(HashingError)`,
/// `FreshTooShort`.
fn salt_under(rounds: u32, pass: Option<&str>, fresh: &[u8]) -> Result<[u8; SALT_LEN], ConvertError>
    ensures ok { IfOk result (λ salt. (salt_judged rounds (option_copied pass.entry) fresh.now ≡ Ok tt)
        × (made_option (option_copied pass.entry) salt ≡ made_option (option_copied pass.entry) (take 16 fresh.now))) }
    ensures err { IfErr result (λ e. salt_judged rounds (option_copied pass.entry) fresh.now ≡ Err e) }
{
    let mut salt = [0; SALT_LEN];
    match pass {
        Some(pass) => {
            if !bcrypt_ok(pass.len(), SALT_LEN, rounds) {
                return Err(ConvertError::Private(SshPrivateKeyError::HashingError));
            }
            if fresh.len() < SALT_LEN {
                return Err(ConvertError::FreshTooShort);
            }
            let (front, _) = fresh.split_at(SALT_LEN);
            salt.copy_from_slice(front);
            Ok(salt)
        }
        None => Ok(salt),
    }
}

/// The key of these parts. Refuses, in order: `TooLong`.
fn made(
    alloc: Global,
    rounds: u32,
    key: SshBasePrivateKey,
    comment: &str,
    pass: Option<&str>,
    salt: &[u8; SALT_LEN],
) -> Result<SshPrivateKey, ConvertError>
    ensures { Gives ConvertError.NoMemory (λ key. key) result
        (made_of rounds (option_copied pass.entry) key comment.now salt.now) }
{
    match SshPrivateKey::from_base(alloc, key, pass, comment, salt) {
        Ok(key) => Ok(with_rounds(key, rounds)),
        Err(e) => Err(envelope_refusal(e)),
    }
}

/// The key with these rounds.
fn with_rounds(key: SshPrivateKey, rounds: u32) -> SshPrivateKey
    ensures { result ≡ with_rounds_of rounds key }
{
    let mut key = key;
    key.kdf.option.rounds = rounds;
    key
}

/// The text of a key, sealed where it has a passphrase.
fn text_of_key<S: Suite>(
    alloc: Global,
    suite: &mut S,
    key: &SshPrivateKey,
) -> Result<Text, ConvertError>
    ensures gives { GivesAsked ConvertError.NoMemory (ConvertError.Private SshPrivateKeyError.SuiteFault) (λ text. text) result
        (text_of_key_of (S.meanings suite.old) key.now) (text_writing_asks key.now)
        (Rose (S.faults suite.old) (S.faults suite.new)) }
    ensures suite { LeavesSuite S.meanings S.faults (ConvertError.Private SshPrivateKeyError.SuiteFault)
        (text_writing_asks key.now) result suite.old suite.new }
    ensures asked { IsAskedAtMost 2 S.calls suite.old suite.new }
{
    match key.to_string(alloc, suite) {
        Ok(text) => Ok(text),
        Err(e) => Err(envelope_refusal(e)),
    }
}

/// A refusal of OpenSSH's key as the conversion's: what is too long is the text.
fn envelope_refusal(e: SshPrivateKeyError) -> ConvertError
    ensures { result ≡ envelope_output_refusal e }
{
    match e {
        SshPrivateKeyError::NoMemory => {
            drop(e);
            ConvertError::NoMemory
        }
        SshPrivateKeyError::TooLong => {
            drop(e);
            ConvertError::TooLong
        }
        e => ConvertError::Private(e),
    }
}
