//! The options of a command line, as what is asked of a certificate.

ghost use Rattle.std.specs.Prelude.{◌≡◌, IfOk};
ghost use Rattle.picky_issuing.specs.OptionWord.{option_of_word};
ghost use Rattle.picky_issuing.specs.Steps.{some_then};
ghost use Rattle.picky_issuing.specs.Options.{no_options, options_named, with_option as with_option_of};

use crate::named_payload::{critical_option_of, extension_of};
use crate::option_word::OptionWord;
use crate::value::{algorithm_of, cert_type_of, number_of};
use picky_cert_parts::{SshCertKeyType, SshCertType, SshCriticalOption, SshExtension};
use picky_keys::SignatureAlgorithm;
use picky_wire::{List, NoMemory, Text, Timestamp, TryClone};
use std::alloc::Global;

/// What is asked of a certificate beside its issuer, its subject's key and its comment.
#[derive(Debug, Drop, PartialEq, Eq)]
pub struct CertOptions {
    /// The type of certificates.
    pub cert_key_type: Option<SshCertKeyType>,
    /// Whether it is a user's or a host's.
    pub cert_type: Option<SshCertType>,
    /// The serial number; 0 where none is given.
    pub serial: Option<u64>,
    /// The name by which the issuer logs it; empty where none is given.
    pub key_id: Option<Text>,
    /// The user or host names that it is for; where none are given, it is for all.
    pub principals: List<Text>,
    pub valid_after: Option<Timestamp>,
    pub valid_before: Option<Timestamp>,
    pub critical_options: List<SshCriticalOption>,
    /// What it permits; a user's certificate without any gets the five permits.
    pub extensions: List<SshExtension>,
    /// The algorithm to sign by, where it isn't the type's own.
    pub signature_algo: Option<SignatureAlgorithm>,
}

impl CertOptions {
    /// Nothing is asked for. It takes no memory.
    fn new(alloc: Global) -> CertOptions
        ensures { result ≡ no_options }
    {
        CertOptions {
            cert_key_type: None,
            cert_type: None,
            serial: None,
            key_id: None,
            principals: List::new(alloc),
            valid_after: None,
            valid_before: None,
            critical_options: List::new(alloc),
            extensions: List::new(alloc),
            signature_algo: None,
        }
    }
}

/// What the words ask for. `None` where they are no options with their values, or ask for what there isn't.
///
/// Each option is a word before its value, in any order; a value may begin with a dash. `--type`, `--algorithm`, `--kind`,
/// `--serial`, `--after`, `--before` and `--id` are given at most once; `--principal`, `--critical` and `--extension` add to
/// what is asked for. Refuses: `NoMemory`.
pub fn options_of(alloc: Global, words: &[Text]) -> Result<Option<CertOptions>, NoMemory>
    ensures { IfOk result (λ options. options ≡ options_named words.now) }
{
    let mut options = CertOptions::new(alloc);
    let mut rest = words;
    'words: while let [word, value, more @ ..] = rest {
        match with_word(alloc, options, word.as_str(), value)? {
            Some(with) => options = with,
            None => return Ok(None),
        }
        rest = more;
    }
    match rest {
        [] => Ok(Some(options)),
        _ => Ok(None),
    }
}

/// What is asked for with the option of a word and its value.
fn with_word(
    alloc: Global,
    options: CertOptions,
    word: &str,
    value: &Text,
) -> Result<Option<CertOptions>, NoMemory>
    ensures { IfOk result (λ with. with ≡ some_then (option_of_word word.now) (λ option. with_option_of option value.now options)) }
{
    match OptionWord::of_word(word) {
        Some(option) => with_option(alloc, options, option, value),
        None => Ok(None),
    }
}

/// What is asked for with one more option and its value.
fn with_option(
    alloc: Global,
    options: CertOptions,
    option: OptionWord,
    value: &Text,
) -> Result<Option<CertOptions>, NoMemory>
    ensures { IfOk result (λ with. with ≡ with_option_of option value.now options) }
{
    match option {
        OptionWord::CertKeyType => Ok(with_cert_key_type(options, value.as_str())),
        OptionWord::SignatureAlgo => Ok(with_signature_algo(options, value.as_str())),
        OptionWord::CertType => Ok(with_cert_type(options, value.as_str())),
        OptionWord::Serial => Ok(with_serial(options, value.as_str())),
        OptionWord::ValidAfter => Ok(with_valid_after(options, value.as_str())),
        OptionWord::ValidBefore => Ok(with_valid_before(options, value.as_str())),
        OptionWord::KeyId => with_key_id(alloc, options, value),
        OptionWord::Principal => with_principal(alloc, options, value),
        OptionWord::CriticalOption => with_critical_option(alloc, options, value.as_str()),
        OptionWord::Extension => with_extension(alloc, options, value.as_str()),
    }
}

/// `--type`: the name of a type of certificates.
#[tactic(auto, unfolding(crate::specs::Options::with_option))]
fn with_cert_key_type(mut options: CertOptions, value: &str) -> Option<CertOptions>
    ensures { result ≡ with_option_of OptionWord.CertKeyType value.now options }
{
    if options.cert_key_type.is_some() {
        return None;
    }
    options.cert_key_type = Some(SshCertKeyType::of_name(value)?);
    Some(options)
}

/// `--algorithm`: the name of the algorithm to sign by.
#[tactic(auto, unfolding(crate::specs::Options::with_option))]
fn with_signature_algo(mut options: CertOptions, value: &str) -> Option<CertOptions>
    ensures { result ≡ with_option_of OptionWord.SignatureAlgo value.now options }
{
    if options.signature_algo.is_some() {
        return None;
    }
    options.signature_algo = Some(algorithm_of(value)?);
    Some(options)
}

/// `--kind`: whether it is a user's or a host's.
#[tactic(auto, unfolding(crate::specs::Options::with_option))]
fn with_cert_type(mut options: CertOptions, value: &str) -> Option<CertOptions>
    ensures { result ≡ with_option_of OptionWord.CertType value.now options }
{
    if options.cert_type.is_some() {
        return None;
    }
    options.cert_type = Some(cert_type_of(value)?);
    Some(options)
}

/// `--serial`: the serial number.
#[tactic(auto, unfolding(crate::specs::Options::with_option))]
fn with_serial(mut options: CertOptions, value: &str) -> Option<CertOptions>
    ensures { result ≡ with_option_of OptionWord.Serial value.now options }
{
    if options.serial.is_some() {
        return None;
    }
    options.serial = Some(number_of(value)?);
    Some(options)
}

/// `--after`: the first second at which it is valid.
#[tactic(auto, unfolding(crate::specs::Options::with_option))]
fn with_valid_after(mut options: CertOptions, value: &str) -> Option<CertOptions>
    ensures { result ≡ with_option_of OptionWord.ValidAfter value.now options }
{
    if options.valid_after.is_some() {
        return None;
    }
    options.valid_after = Some(Timestamp(number_of(value)?));
    Some(options)
}

/// `--before`: the first second at which it isn't valid any more.
#[tactic(auto, unfolding(crate::specs::Options::with_option))]
fn with_valid_before(mut options: CertOptions, value: &str) -> Option<CertOptions>
    ensures { result ≡ with_option_of OptionWord.ValidBefore value.now options }
{
    if options.valid_before.is_some() {
        return None;
    }
    options.valid_before = Some(Timestamp(number_of(value)?));
    Some(options)
}

/// `--id`: any text, by which the issuer logs it.
#[tactic(auto, unfolding(crate::specs::Options::with_option))]
fn with_key_id(
    alloc: Global,
    mut options: CertOptions,
    value: &Text,
) -> Result<Option<CertOptions>, NoMemory>
    ensures { IfOk result (λ with. with ≡ with_option_of OptionWord.KeyId value.now options) }
{
    if options.key_id.is_some() {
        return Ok(None);
    }
    options.key_id = Some(value.try_clone(alloc)?);
    Ok(Some(options))
}

/// `--principal`: any text, one more user or host that it is for.
#[tactic(auto, unfolding(crate::specs::Options::with_option))]
fn with_principal(
    alloc: Global,
    mut options: CertOptions,
    value: &Text,
) -> Result<Option<CertOptions>, NoMemory>
    ensures { IfOk result (λ with. with ≡ with_option_of OptionWord.Principal value.now options) }
{
    let name = value.try_clone(alloc)?;
    match options.principals.push(name) {
        Ok(()) => Ok(Some(options)),
        Err(_) => Err(NoMemory),
    }
}

/// `--critical`: one more critical option, NAME or NAME=TEXT.
#[tactic(auto, unfolding(crate::specs::Options::with_option))]
fn with_critical_option(
    alloc: Global,
    mut options: CertOptions,
    value: &str,
) -> Result<Option<CertOptions>, NoMemory>
    ensures { IfOk result (λ with. with ≡ with_option_of OptionWord.CriticalOption value.now options) }
{
    match critical_option_of(alloc, value)? {
        Some(option) => match options.critical_options.push(option) {
            Ok(()) => Ok(Some(options)),
            Err(_) => Err(NoMemory),
        },
        None => Ok(None),
    }
}

/// `--extension`: one more extension, NAME or NAME=TEXT.
#[tactic(auto, unfolding(crate::specs::Options::with_option))]
fn with_extension(
    alloc: Global,
    mut options: CertOptions,
    value: &str,
) -> Result<Option<CertOptions>, NoMemory>
    ensures { IfOk result (λ with. with ≡ with_option_of OptionWord.Extension value.now options) }
{
    match extension_of(alloc, value)? {
        Some(extension) => match options.extensions.push(extension) {
            Ok(()) => Ok(Some(options)),
            Err(_) => Err(NoMemory),
        },
        None => Ok(None),
    }
}
