//! The commands.

ghost use Rattle.std.specs.Prelude.{◌≡◌, ◌≤◌, ◌∷◌, false, length, string_bytes, Err, IfOk};
ghost use Rattle.std.specs.Option.{option_copied};
ghost use Rattle.picky_wire.specs.Count.{Rose};
ghost use Rattle.picky_suite.specs.Asked.{IsAskedAtMost};
ghost use Rattle.picky_ppk_parts.specs.Config.{default_config};
ghost use Rattle.picky_key_text.specs.Order.{asks};
ghost use Rattle.picky_conversion.specs.Certify.{IsInputFault};
ghost use Rattle.picky_convert.specs.Command.{IsFaultFor, answer, answering_asks, command_of as command_named};
ghost use Rattle.picky_convert.specs.Command.{command_of_word, fingerprints, reads_source as reads_source_of};
ghost use Rattle.picky_convert.specs.Command.{sample_size as sample_size_of, with_size};
ghost use Rattle.picky_conversion.specs.Convert.{LeavesAskedSuite};
ghost use Rattle.picky_conversion.specs.Made.{AnswersMade, AnswersPlain, LeavesAskedSigner, is_signed};
ghost use Rattle.picky_convert.specs.Run.{input_limit, outcome_asks, outcome_signs, Devices};
ghost use Rattle.picky_conversion.specs.Outside.{outside};
ghost use Rattle.picky_convert.specs.inner.Causes.{refusal_status, Comes};

use crate::error::Status;
use crate::fingerprint::fingerprint_text;
use crate::summary::sample;
use picky_cert_builder::SshCertificateGenerationError;
use picky_conversion::{ConversionGiven, convert_key_text, input_refusal, issue, print_signed};
use picky_input::as_text;
use picky_issuing::{CertOptions, number_of, options_of};
use picky_key_text::{ReadError, public_key, read_text};
use picky_ppk::{PpkEncryptionConfig, PpkLayout, PpkVersion, PuttyError};
use picky_sshkey::SshPrivateKeyError;
use picky_suite::{Signer, Suite};
use picky_target::{ConvertError, DEFAULT_ROUNDS, KeyTarget};
use picky_wire::{NoMemory, Text};
use std::alloc::Global;

const OPENSSH: &str = "openssh";

const PPK2: &str = "ppk2";

const PPK3: &str = "ppk3";

const SSH_PUB: &str = "ssh-pub";

const PUTTY_PUB: &str = "putty-pub";

const FINGERPRINT: &str = "fingerprint";

const CERT: &str = "cert";

const TBS: &str = "tbs";

const SAMPLE: &str = "sample";

/// The most keys that a sample has.
const MOST_KEYS: u64 = 1000;

/// What a command line names.
#[derive(Drop)]
pub enum Command {
    Convert(KeyTarget),
    /// The line of a certificate.
    Certify(CertOptions),
    /// What is signed of it, in hex.
    PrintSigned(CertOptions),
    Fingerprint,
    /// The summary of so many sample keys.
    Sample(u16),
}

/// The command that the words name. Refuses: `NoMemory`.
pub fn command_of(alloc: Global, words: &[Text]) -> Result<Option<Command>, NoMemory>
    ensures { IfOk result (λ command. command ≡ command_named words.now) }
{
    match words.split_first() {
        Some((word, more)) => command_with(alloc, word.as_str(), more),
        None => Ok(None),
    }
}

/// The command of a word, and what follows it. Refuses: `NoMemory`.
#[tactic(auto, unfolding(crate::specs::Command::cert, crate::specs::Command::tbs, crate::specs::Command::sample))]
fn command_with(alloc: Global, word: &str, more: &[Text]) -> Result<Option<Command>, NoMemory>
    ensures { IfOk result (λ command. command ≡ command_named (word.now ∷ more.now)) }
{
    if word == CERT {
        return match options_of(alloc, more)? {
            Some(options) => Ok(Some(Command::Certify(options))),
            None => Ok(None),
        };
    }
    if word == TBS {
        return match options_of(alloc, more)? {
            Some(options) => Ok(Some(Command::PrintSigned(options))),
            None => Ok(None),
        };
    }
    if word == SAMPLE {
        return Ok(command_with_size(more));
    }
    if more.is_empty() {
        return Ok(command_of_text(word));
    }
    Ok(None)
}

/// The command of a word alone.
#[tactic(auto, unfolding(crate::specs::Command::openssh, crate::specs::Command::ppk2, crate::specs::Command::ppk3, crate::specs::Command::ssh_pub, crate::specs::Command::putty_pub, crate::specs::Command::fingerprint))]
fn command_of_text(word: &str) -> Option<Command>
    ensures { result ≡ command_of_word word.now }
{
    if word == OPENSSH {
        return Some(Command::Convert(KeyTarget::OpenSsh(DEFAULT_ROUNDS)));
    }
    if word == PPK2 {
        return Some(Command::Convert(file_of(PpkVersion::V2)));
    }
    if word == PPK3 {
        return Some(Command::Convert(file_of(PpkVersion::V3)));
    }
    if word == SSH_PUB {
        return Some(Command::Convert(KeyTarget::OpenSshPublic));
    }
    if word == PUTTY_PUB {
        return Some(Command::Convert(KeyTarget::PuttyPublic));
    }
    if word == FINGERPRINT {
        return Some(Command::Fingerprint);
    }
    None
}

/// The command of a sample, by how many keys it has.
fn command_with_size(words: &[Text]) -> Option<Command>
    ensures { result ≡ with_size words.now }
{
    match words {
        [word] => match sample_size(word.as_str()) {
            Some(keys) => Some(Command::Sample(keys)),
            None => None,
        },
        _ => None,
    }
}

/// How many keys a sample has.
fn sample_size(word: &str) -> Option<u16>
    ensures { result ≡ sample_size_of word.now }
{
    match number_of(word) {
        Some(keys) => {
            if keys < 1 || keys > MOST_KEYS {
                return None;
            }
            Some(keys as u16)
        }
        None => None,
    }
}

/// Whether the command reads the source.
pub fn reads_source(command: &Command) -> bool
    ensures { result ≡ reads_source_of command.now }
{
    match command {
        Command::Convert(_)
        | Command::Certify(_)
        | Command::PrintSigned(_)
        | Command::Fingerprint => true,
        Command::Sample(_) => false,
    }
}

/// PuTTY's file in a version, sealed with the default configuration.
pub(crate) fn file_of(version: PpkVersion) -> KeyTarget
    ensures { result ≡ KeyTarget.Ppk version default_config PpkLayout.Number }
{
    KeyTarget::Ppk(version, PpkEncryptionConfig::default(), PpkLayout::Number)
}

/// The text that the command writes for these bytes, or the status that says why it writes none.
///
/// Refuses, in order: `InputNotUtf8`; `Refused` or, in place of the suite's or the signer's fault, `OutsideFault`.
pub fn perform<S: Suite, G: Signer>(
    alloc: Global,
    command: Command,
    given: ConversionGiven<'_>,
    suite: &mut S,
    signer: &mut G,
    input: &[u8],
) -> Result<String, Status>
    requires { length input.now ≤ input_limit }
    ensures comes { Comes (G.signs signer.old) string_bytes (outside (S.meanings suite.old) given.entry) command input.now
        ⊥ (Rose (S.faults suite.old) (S.faults suite.new)) (Rose (G.faults signer.old) (G.faults signer.new)) result }
    ensures devices { Devices S.meanings S.faults G.signs G.faults (result ≡ Err Status.OutsideFault)
        (outcome_asks (outside (S.meanings suite.old) given.entry) command input.now ≡ false)
        (outcome_signs (outside (S.meanings suite.old) given.entry) command input.now ≡ false)
        suite.old suite.new signer.old signer.new }
    ensures suite_asked { IsAskedAtMost 4 S.calls suite.old suite.new }
    ensures signer_asked { IsAskedAtMost 1 G.calls signer.old signer.new }
{
    match as_text(input) {
        Some(text) => match answer_to(alloc, command, given, suite, signer, text) {
            Ok(text) => Ok(text),
            Err(e) => Err(status_of(e)),
        },
        None => {
            drop(command);
            Err(Status::InputNotUtf8)
        }
    }
}

/// The status of a command that refuses.
fn status_of(e: ConvertError) -> Status
    ensures { result ≡ refusal_status e }
{
    match e {
        ConvertError::NoMemory => {
            drop(e);
            Status::NoMemory
        }
        ConvertError::Input(ReadError::Private(SshPrivateKeyError::SuiteFault))
        | ConvertError::Input(ReadError::Putty(PuttyError::SuiteFault))
        | ConvertError::Issuer(ReadError::Private(SshPrivateKeyError::SuiteFault))
        | ConvertError::Issuer(ReadError::Putty(PuttyError::SuiteFault))
        | ConvertError::Request(SshCertificateGenerationError::SignatureError)
        | ConvertError::Private(SshPrivateKeyError::SuiteFault)
        | ConvertError::Putty(PuttyError::SuiteFault) => {
            drop(e);
            Status::OutsideFault
        }
        e => Status::Refused(e),
    }
}

/// The text that the command writes for a source's text.
fn answer_to<S: Suite, G: Signer>(
    alloc: Global,
    command: Command,
    given: ConversionGiven<'_>,
    suite: &mut S,
    signer: &mut G,
    text: &str,
) -> Result<String, ConvertError>
    ensures gives { AnswersMade (G.signs signer.old) string_bytes (answer (outside (S.meanings suite.old) given.entry) command text.now)
        (λ e. IsFaultFor (outside (S.meanings suite.old) given.entry) command text.now e (Rose (S.faults suite.old) (S.faults suite.new)))
        (Rose (G.faults signer.old) (G.faults signer.new)) result }
    ensures suite { LeavesAskedSuite S.meanings S.faults
        (answering_asks (outside (S.meanings suite.old) given.entry) command text.now) result suite.old suite.new }
    ensures signer { LeavesAskedSigner G.signs G.faults
        (is_signed (answer (outside (S.meanings suite.old) given.entry) command text.now)) result signer.old signer.new }
    ensures suite_asked { IsAskedAtMost 4 S.calls suite.old suite.new }
    ensures signer_asked { IsAskedAtMost 1 G.calls signer.old signer.new }
{
    match command {
        Command::Convert(target) => match convert_key_text(alloc, suite, text, target, given) {
            Ok(text) => Ok(text.into_string()),
            Err(e) => Err(e),
        },
        Command::Certify(options) => match issue(alloc, suite, signer, options, text, given) {
            Ok(text) => Ok(text.into_string()),
            Err(e) => Err(e),
        },
        Command::PrintSigned(options) => print_signed(alloc, suite, options, text, given),
        Command::Fingerprint => fingerprint(alloc, suite, text, given),
        Command::Sample(keys) => match sample(alloc, suite, keys) {
            Ok(text) => Ok(text),
            Err(NoMemory) => Err(ConvertError::NoMemory),
        },
    }
}

/// The fingerprints of the key that a text means.
fn fingerprint<S: Suite>(
    alloc: Global,
    suite: &mut S,
    text: &str,
    given: ConversionGiven<'_>,
) -> Result<String, ConvertError>
    ensures gives { AnswersPlain string_bytes (fingerprints (outside (S.meanings suite.old) given.entry) text.now)
        (λ e. IsInputFault (outside (S.meanings suite.old) given.entry) text.now e (Rose (S.faults suite.old) (S.faults suite.new))) result }
    ensures suite { LeavesAskedSuite S.meanings S.faults (asks (option_copied given.entry.pass_in) text.now) result suite.old suite.new }
    ensures asked { IsAskedAtMost 2 S.calls suite.old suite.new }
{
    match read_text(alloc, suite, text, given.pass_in) {
        Ok(meaning) => {
            let key = public_key(meaning);
            let text = fingerprint_text(alloc, &key);
            drop(key);
            match text {
                Ok(text) => Ok(text),
                Err(_) => Err(ConvertError::NoMemory),
            }
        }
        Err(e) => Err(input_refusal(e)),
    }
}
