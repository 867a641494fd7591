//! What is printed of a decision, and of what is signed of an offer.

ghost use Rattle.std.specs.Prelude.{◌≡◌, ◌++◌, flat_map, IfOk, OnOk, string_bytes};
ghost use Rattle.picky_policy.specs.Printed.{decision_text as decision_text_of, denial_name as name_of_denial, flag_line};
ghost use Rattle.picky_policy.specs.Printed.{grant_text as grant_text_of, message_text as message_text_of};
ghost use Rattle.picky_policy.specs.Printed.{option_line, text_line};
ghost use Rattle.picky_policy.specs.Printed.{value_part, word_line};

use crate::decision::{Decision, Denial, Grant};
use picky_authorized::AuthOption;
use picky_text::encode;
use picky_wire::{NoMemory, Text};
use std::alloc::{AllocError, Global};

impl Denial {
    /// The name of the rule.
    #[tactic(auto, unfolding(crate::specs::Printed::denial_name))]
    pub fn name(self) -> &'static str
        ensures { result.now ≡ name_of_denial self }
    {
        match self {
            Denial::NoLine => "NoLine",
            Denial::NoAuthority => "NoAuthority",
            Denial::NotClient => "NotClient",
            Denial::NotYet => "NotYet",
            Denial::Expired => "Expired",
            Denial::Principal => "Principal",
            Denial::CriticalOption => "CriticalOption",
            Denial::BadSignature => "BadSignature",
        }
    }
}

/// The line of a denial, or the lines of a grant. Refuses: `NoMemory`.
pub fn decision_text(alloc: Global, decision: &Decision) -> Result<String, NoMemory>
    ensures { IfOk result (λ text. string_bytes text ≡ decision_text_of decision.now) }
{
    let text = match decision {
        Decision::Granted(grant) => grant_text(alloc, grant),
        Decision::Denied(denial) => denial_text(alloc, *denial),
    };
    match text {
        Ok(text) => Ok(text),
        Err(_) => Err(NoMemory),
    }
}

/// What is signed, in hex of lower case, and LF. Refuses: `NoMemory`.
pub fn message_text(alloc: Global, message: &[u8]) -> Result<String, NoMemory>
    ensures { IfOk result (λ text. string_bytes text ≡ message_text_of message.now) }
{
    match hex_line(alloc, message) {
        Ok(text) => Ok(text),
        Err(_) => Err(NoMemory),
    }
}

fn hex_line(alloc: Global, message: &[u8]) -> Result<String, AllocError>
    ensures { IfOk result (λ text. string_bytes text ≡ message_text_of message.now) }
{
    let mut text = hex::encode(alloc, message)?;
    text.push_str("\n")?;
    Ok(text)
}

/// The line of a denial.
fn denial_text(alloc: Global, denial: Denial) -> Result<String, AllocError>
    ensures { IfOk result (λ text. string_bytes text ≡ decision_text_of (Decision.Denied denial)) }
{
    let mut text = String::from_str(alloc, "deny ")?;
    text.push_str(denial.name())?;
    text.push_str("\n")?;
    Ok(text)
}

/// The lines of a grant.
fn grant_text(alloc: Global, grant: &Grant) -> Result<String, AllocError>
    ensures { IfOk result (λ text. string_bytes text ≡ grant_text_of grant.now) }
{
    let number = format!(in alloc; "{}", grant.line)?;
    let mut text = String::from_str(alloc, "grant ")?;
    text.push_str(number.as_str())?;
    text.push_str("\n")?;
    push_text_line(alloc, &mut text, "command", &grant.force_command)?;
    push_text_line(alloc, &mut text, "source", &grant.source_address)?;
    push_flag_line(&mut text, grant.verify_required)?;
    push_options(alloc, &mut text, grant.options.as_slice())?;
    Ok(text)
}

/// Adds the line of a text, where there is one.
fn push_text_line(
    alloc: Global,
    text: &mut String,
    word: &str,
    value: &Option<Text>,
) -> Result<(), AllocError>
    ensures { OnOk result (string_bytes text.new ≡ string_bytes text.old ++ text_line word.now value.now) }
{
    match value {
        Some(value) => {
            let value = encode(alloc, value.as_str().as_bytes())?;
            push_line(text, word, value.as_str())
        }
        None => Ok(()),
    }
}

/// Adds the line of the flag, where it is set.
fn push_flag_line(text: &mut String, verify_required: bool) -> Result<(), AllocError>
    ensures { OnOk result (string_bytes text.new ≡ string_bytes text.old ++ flag_line verify_required) }
{
    if verify_required {
        return text.push_str("verify-required\n");
    }
    Ok(())
}

/// Adds a line for each option.
fn push_options(alloc: Global, text: &mut String, options: &[AuthOption]) -> Result<(), AllocError>
    ensures { OnOk result (string_bytes text.new ≡ string_bytes text.old ++ flat_map option_line options.now) }
{
    let mut rest = options;
    'options: while let [option, more @ ..] = rest {
        push_option_line(alloc, text, option)?;
        rest = more;
    }
    Ok(())
}

/// Adds the line of an option.
fn push_option_line(alloc: Global, text: &mut String, option: &AuthOption) -> Result<(), AllocError>
    ensures { OnOk result (string_bytes text.new ≡ string_bytes text.old ++ option_line option.now) }
{
    text.push_str("option ")?;
    text.push_str(option.name.as_str())?;
    push_value_part(alloc, text, &option.value)?;
    text.push_str("\n")
}

/// Adds a space and the value, where there is one.
fn push_value_part(alloc: Global, text: &mut String, value: &Option<Text>) -> Result<(), AllocError>
    ensures { OnOk result (string_bytes text.new ≡ string_bytes text.old ++ value_part value.now) }
{
    match value {
        Some(value) => {
            let value = encode(alloc, value.as_str().as_bytes())?;
            text.push_str(" ")?;
            text.push_str(value.as_str())
        }
        None => Ok(()),
    }
}

/// Adds a word, a space, a value and LF.
fn push_line(text: &mut String, word: &str, value: &str) -> Result<(), AllocError>
    ensures { OnOk result (string_bytes text.new ≡ string_bytes text.old ++ word_line word.now value.now) }
{
    text.push_str(word)?;
    text.push_str(" ")?;
    text.push_str(value)?;
    text.push_str("\n")
}
