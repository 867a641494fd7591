//! What a certificate demands by its critical options.

ghost use Rattle.std.specs.Prelude.{◌≡◌};
ghost use Rattle.std.specs.Option.{option_copied, option_map};
ghost use Rattle.picky_policy.specs.Demands.{demands_in, flag_in, is_type as is_type_of, no_demands};
ghost use Rattle.picky_policy.specs.Demands.{one_of as one_of_payloads, payloads_of, text_demanded};
ghost use Rattle.picky_policy.specs.Demands.{text_of_payload as payload_text};
ghost use Rattle.picky_policy.specs.inner.Payload.{with_payload};
ghost use Rattle.picky_policy.specs.inner.Shown.{demands_shown};

use picky_cert::{SshCriticalOption, SshCriticalOptionType};
use picky_wire::word_at;

/// What a certificate demands, seen in its payloads.
#[derive(Clone, Copy)]
pub struct Demanded<'a> {
    pub force_command: Option<&'a str>,
    pub source_address: Option<&'a str>,
    pub verify_required: bool,
}

impl<'a> Demanded<'a> {
    /// Nothing is demanded.
    pub fn nothing() -> Demanded<'a>
        ensures { demands_shown result ≡ no_demands }
    {
        Demanded {
            force_command: None,
            source_address: None,
            verify_required: false,
        }
    }
}

/// What the options demand, where none occurs twice and each payload fits.
#[tactic(auto, unfolding(crate::specs::Demands::demands_in))]
pub fn demands_of(options: &[SshCriticalOption]) -> Option<Demanded<'_>>
    ensures { option_map demands_shown result ≡ demands_in options.now }
{
    let force_command = text_of(options, SshCriticalOptionType::ForceCommand)?;
    let source_address = text_of(options, SshCriticalOptionType::SourceAddress)?;
    let verify_required = flag_of(options, SshCriticalOptionType::VerifyRequired)?;
    Some(Demanded {
        force_command,
        source_address,
        verify_required,
    })
}

/// The text of the one option of a type, where there is one; none where there are two, or its payload doesn't fit.
fn text_of(options: &[SshCriticalOption], wanted: SshCriticalOptionType) -> Option<Option<&str>>
    ensures { option_map option_copied result ≡ text_demanded wanted options.now }
{
    match one_of(options, wanted)? {
        Some(payload) => match text_of_payload(payload) {
            Some(text) => Some(Some(text)),
            None => None,
        },
        None => Some(None),
    }
}

/// Whether there is an option of a type; none where there are two, or its payload doesn't fit.
fn flag_of(options: &[SshCriticalOption], wanted: SshCriticalOptionType) -> Option<bool>
    ensures { result ≡ flag_in wanted options.now }
{
    match one_of(options, wanted)? {
        Some(payload) => {
            if payload.is_empty() {
                return Some(true);
            }
            None
        }
        None => Some(false),
    }
}

/// The payload of the one option of a type, where there is one; none where there are two.
#[tactic(auto, using(crate::proofs::DemandLaws::one_is))]
fn one_of(options: &[SshCriticalOption], wanted: SshCriticalOptionType) -> Option<Option<&[u8]>>
    ensures { option_map option_copied result ≡ one_of_payloads (payloads_of wanted options.now) }
{
    let mut found = None;
    let mut rest = options;
    'options: while let [option, more @ ..] = rest {
        match with_option(found, wanted, option) {
            Some(next) => found = next,
            None => return None,
        }
        rest = more;
    }
    Some(found)
}

/// The payload so far, with one option more; none where there are two.
fn with_option<'a>(
    found: Option<&'a [u8]>,
    wanted: SshCriticalOptionType,
    option: &'a SshCriticalOption,
) -> Option<Option<&'a [u8]>>
    ensures { option_map option_copied result ≡ with_payload wanted (option_copied found.entry) option.now }
{
    if !is_type(wanted, option.option_type) {
        return Some(found);
    }
    match found {
        Some(_) => None,
        None => Some(Some(option.payload.as_slice())),
    }
}

/// The types are one.
fn is_type(wanted: SshCriticalOptionType, given: SshCriticalOptionType) -> bool
    ensures { result ≡ is_type_of wanted given }
{
    match wanted {
        SshCriticalOptionType::ForceCommand => {
            matches!(given, SshCriticalOptionType::ForceCommand)
        }
        SshCriticalOptionType::SourceAddress => {
            matches!(given, SshCriticalOptionType::SourceAddress)
        }
        SshCriticalOptionType::VerifyRequired => {
            matches!(given, SshCriticalOptionType::VerifyRequired)
        }
    }
}

/// The text whose string the payload is, and nothing more.
fn text_of_payload(payload: &[u8]) -> Option<&str>
    ensures { option_copied result ≡ payload_text payload.now }
{
    match word_at(payload, 0) {
        Ok((word, next)) => {
            if next < payload.len() {
                return None;
            }
            Some(word.text)
        }
        Err(_) => None,
    }
}
