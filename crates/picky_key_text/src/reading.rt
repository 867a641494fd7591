//! What a key text means.

ghost use Rattle.std.specs.Prelude.{◌≡◌, ◌≢◌, ◌⊎◌, Ok, Err, IfOk};
ghost use Rattle.std.specs.Option.{option_copied, IfSome};
ghost use Rattle.picky_wire_base.specs.Numbers.{IsBytes};
ghost use Rattle.picky_suite.specs.Asked.{GivesAsked, IsAskedAtMost, LeavesSuite};
ghost use Rattle.picky_suite.specs.Failures.{IsAskedFault};
ghost use Rattle.picky_wire.specs.Count.{Rose};
ghost use Rattle.picky_wire_base.specs.Gives.{Gives};
ghost use Rattle.picky_wire_base.specs.Outcome.{and_then, map_err};
ghost use Rattle.picky_ppk_file.specs.PuttyRefusal.{putty_meaning, putty_to_openssh};
ghost use Rattle.picky_cert.specs.LineRefusal.{cert_line_meaning};
ghost use Rattle.picky_key_text.specs.Key.{certificate_meaning, private_meaning as private_meaning_of};
ghost use Rattle.picky_key_text.specs.Key.{public_meaning as public_meaning_of};
ghost use Rattle.picky_key_text.specs.Order.{asks, asks_as, fault_of, fault_as, reading, reading_as};
ghost use Rattle.picky_key_text.specs.Reads.{Reads};
ghost use Rattle.picky_key_text.specs.inner.Refusals.{certificate_refusal as certificate_refusal_of};
ghost use Rattle.picky_key_text.specs.inner.Refusals.{envelope_refusal as envelope_refusal_of};
ghost use Rattle.picky_key_text.specs.inner.Refusals.{putty_refusal as putty_refusal_of};
ghost use Rattle.picky_key_text.specs.inner.Refusals.{line_refusal as line_refusal_of};

use crate::error::ReadError;
use crate::form::{Form, form_of};
use crate::meaning::{Key, Meaning};
use crate::ppk::ppk_key;
use picky_cert::{SshCertificate, SshCertificateError};
use picky_keys::{SshPublicKey, SshPublicKeyError};
use picky_ppk::{PuttyError, PuttyPublicKey};
use picky_sshkey::{SshBasePrivateKey, SshPrivateKey, SshPrivateKeyError};
use picky_suite::Suite;
use picky_wire::Text;
use std::alloc::Global;

/// The key and the comment that a text means: a private key where it is OpenSSH's or PuTTY's private key, a certificate's
/// subject's key where it is one, and else a public one. A text that isn't sealed is read whatever the passphrase, but that an envelope keeps it, and so refuses one of 2^32
/// bytes or more.
///
/// The form is chosen by the text's beginning (docs/FORMATS.md, "Key text"). Refuses, in order: by the form `Private` with
/// `SshPrivateKey::from_pem_str`'s refusals; `Putty` with those of `Ppk::from_str`, for a sealed file `Encrypted` without a
/// passphrase and those of `Ppk::decrypt`, and then those of `Ppk::base_key`; `Putty` with those of
/// `PuttyPublicKey::from_str` and `to_openssh`; `Certificate` with `SshCertificate::from_str`'s; `Public` with `SshPublicKey::from_str`'s.
pub fn read_text<S: Suite>(
    alloc: Global,
    suite: &mut S,
    input: &str,
    pass: Option<&str>,
) -> Result<Meaning, ReadError>
    ensures gives { GivesAsked ReadError.NoMemory (fault_of input.now) (λ meaning. meaning) result
        (reading (record { meanings = S.meanings suite.old; pass = option_copied pass.entry }) input.now)
        (asks (option_copied pass.entry) input.now) (Rose (S.faults suite.old) (S.faults suite.new)) }
    ensures suite { LeavesSuite S.meanings S.faults (fault_of input.now) (asks (option_copied pass.entry) input.now) result
        suite.old suite.new }
    ensures means { IfOk result (λ meaning. Reads (record { meanings = S.meanings suite.old; pass = option_copied pass.entry }) input.now meaning) }
    ensures complete { (meaning : Meaning) → Reads (record { meanings = S.meanings suite.old; pass = option_copied pass.entry }) input.now meaning
        → (result ≡ Ok meaning) ⊎ (result ≡ Err ReadError.NoMemory)
        ⊎ ((result ≡ Err (fault_of input.now))
        × IsAskedFault (asks (option_copied pass.entry) input.now) (Rose (S.faults suite.old) (S.faults suite.new))) }
    ensures asked { IsAskedAtMost 2 S.calls suite.old suite.new }
{
    pass_is_bytes(pass);
    read_as(alloc, suite, form_of(input), input, pass)
}

/// What is passed as text is bytes. This does nothing: it states for `means` what the type says.
fn pass_is_bytes(pass: Option<&str>)
    ensures { IfSome (option_copied pass.entry) IsBytes }
{
    if let Some(pass) = pass {
        text_is_bytes(pass);
    }
}

/// The same of any text.
fn text_is_bytes(_text: &str)
    ensures { IsBytes _text.now }
{}

/// What the text means in a form.
#[tactic(auto, using(crate::proofs::EnvelopeLemmas::base_means))]
fn read_as<S: Suite>(
    alloc: Global,
    suite: &mut S,
    form: Form,
    input: &str,
    pass: Option<&str>,
) -> Result<Meaning, ReadError>
    ensures gives { GivesAsked ReadError.NoMemory (fault_as form) (λ meaning. meaning) result
        (reading_as form (record { meanings = S.meanings suite.old; pass = option_copied pass.entry }) input.now)
        (asks_as form (option_copied pass.entry) input.now) (Rose (S.faults suite.old) (S.faults suite.new)) }
    ensures suite { LeavesSuite S.meanings S.faults (fault_as form) (asks_as form (option_copied pass.entry) input.now) result
        suite.old suite.new }
    ensures asked { IsAskedAtMost 2 S.calls suite.old suite.new }
{
    match form {
        Form::Envelope => match SshPrivateKey::base_key_from_pem_str(alloc, suite, input, pass) {
            Ok((base_key, comment)) => Ok(private_meaning(base_key, comment)),
            Err(e) => Err(envelope_refusal(e)),
        },
        Form::Ppk => match ppk_key(alloc, suite, input, pass) {
            Ok(meaning) => Ok(meaning),
            Err(e) => Err(putty_refusal(e)),
        },
        Form::PuttyPublic => match putty_public_key(alloc, input) {
            Ok(key) => Ok(public_meaning(key)),
            Err(e) => Err(putty_refusal(e)),
        },
        Form::Certificate => match certificate_key(alloc, input) {
            Ok(meaning) => Ok(meaning),
            Err(e) => Err(e),
        },
        Form::PublicLine => match SshPublicKey::from_str(alloc, input) {
            Ok(key) => Ok(public_meaning(key)),
            Err(e) => Err(line_refusal(e)),
        },
    }
}

/// The public key that PuTTY's text says.
#[tactic(auto, using(crate::proofs::RefusalLaws::no_fault))]
fn putty_public_key(alloc: Global, input: &str) -> Result<SshPublicKey, PuttyError>
    ensures gives { Gives PuttyError.NoMemory (λ key. key) result (and_then (putty_meaning input.now) putty_to_openssh) }
    ensures no_fault { result ≢ Err PuttyError.SuiteFault }
{
    match PuttyPublicKey::from_str(alloc, input) {
        Ok(key) => key.into_openssh(alloc),
        Err(e) => Err(e),
    }
}

/// The key of a certificate's subject, and the certificate's comment.
#[tactic(auto, using(crate::proofs::SubjectLemmas::subjects))]
fn certificate_key(alloc: Global, input: &str) -> Result<Meaning, ReadError>
    ensures { Gives ReadError.NoMemory (λ meaning. meaning) result
        (and_then (map_err ReadError.Certificate (cert_line_meaning input.now)) (λ c. Ok (certificate_meaning c))) }
{
    match SshCertificate::subject_from_str(alloc, input) {
        Ok(key) => Ok(public_meaning(key)),
        Err(e) => Err(certificate_refusal(e)),
    }
}

/// The key of an envelope and its comment.
fn private_meaning(base_key: SshBasePrivateKey, comment: Text) -> Meaning
    ensures { result ≡ private_meaning_of base_key comment }
{
    Meaning {
        key: Key::Private(base_key),
        comment,
    }
}

/// The key and the comment of a line.
fn public_meaning(key: SshPublicKey) -> Meaning
    ensures { result ≡ public_meaning_of key }
{
    let SshPublicKey { inner_key, comment } = key;
    Meaning {
        key: Key::Public(inner_key),
        comment,
    }
}

/// An envelope's refusal as the text's, where want of memory is the outer want.
fn envelope_refusal(e: SshPrivateKeyError) -> ReadError
    ensures { result ≡ envelope_refusal_of e }
{
    match e {
        SshPrivateKeyError::NoMemory => {
            drop(e);
            ReadError::NoMemory
        }
        e => ReadError::Private(e),
    }
}

/// The same of PuTTY's texts.
fn putty_refusal(e: PuttyError) -> ReadError
    ensures { result ≡ putty_refusal_of e }
{
    match e {
        PuttyError::NoMemory => ReadError::NoMemory,
        e => ReadError::Putty(e),
    }
}

/// And of a public key line.
fn line_refusal(e: SshPublicKeyError) -> ReadError
    ensures { result ≡ line_refusal_of e }
{
    match e {
        SshPublicKeyError::NoMemory => {
            drop(e);
            ReadError::NoMemory
        }
        e => ReadError::Public(e),
    }
}

/// And of a certificate.
fn certificate_refusal(e: SshCertificateError) -> ReadError
    ensures { result ≡ certificate_refusal_of e }
{
    match e {
        SshCertificateError::NoMemory => {
            drop(e);
            ReadError::NoMemory
        }
        e => ReadError::Certificate(e),
    }
}
