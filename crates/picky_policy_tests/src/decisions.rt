//! What is decided, in short lines that a row can hold, by verifiers that say yes, say no or fail.

use crate::row_texts::row_text;
use picky_authorized::AuthOption;
use picky_policy::{
    DecideError, Decision, Grant, MemoryVerifier, Offer, Verifier, decide, read_keys,
};
use picky_wire::{Text, Timestamp};
use std::alloc::{AllocError, Global};
use std::mem::ManuallyDrop;
use std::test::Fail;

/// Who asks to get in, and when.
pub type Asked = (&'static str, u64);

// Calls of a verifier: all of these, and all but the first.
const EACH: &[u64] = &[0, 1, 2, 3];

const BEHIND: &[u64] = &[1, 2, 3];

/// Adds the name and the value, where there is one.
fn push_value(text: &mut String, name: &str, value: &Option<Text>) -> Result<(), AllocError> {
    if let Some(value) = value {
        text.push_str(name)?;
        text.push_str(value.as_str())?;
    }
    Ok(())
}

fn push_option(text: &mut String, option: &AuthOption) -> Result<(), AllocError> {
    text.push_str(" [")?;
    text.push_str(option.name.as_str())?;
    push_value(text, "=", &option.value)?;
    text.push_str("]")
}

/// The line, what the certificate demands, and the line's options in brackets.
fn push_grant(text: &mut String, grant: &Grant) -> Result<(), AllocError> {
    write!(text, "grant {}", grant.line)?;
    push_value(text, " command=", &grant.force_command)?;
    push_value(text, " source=", &grant.source_address)?;
    if grant.verify_required {
        text.push_str(" verify")?;
    }
    for option in grant.options.as_slice() {
        push_option(text, option)?;
    }
    Ok(())
}

/// `grant` with what is granted, `deny` with the rule, or the name of the error.
fn answer_text(
    alloc: Global,
    answer: &Result<Decision, DecideError>,
) -> Result<String, AllocError> {
    let mut text = String::new(alloc);
    match answer {
        Ok(Decision::Granted(grant)) => push_grant(&mut text, grant)?,
        Ok(Decision::Denied(why)) => {
            text.push_str("deny ")?;
            text.push_str(why.name())?;
        }
        Err(e) => write!(text, "{e}")?,
    }
    Ok(text)
}

/// What is decided by the verifier is this.
pub fn is_decided_by<V: Verifier>(
    alloc: Global,
    verifier: &mut V,
    file: &str,
    offer: &Offer,
    asked: Asked,
    wanted: &str,
) -> Result<bool, Fail> {
    let (user, moment) = asked;
    let entries = ManuallyDrop::new(read_keys(alloc, file)?);
    let answer = ManuallyDrop::new(decide(
        alloc,
        &entries,
        offer,
        user,
        Timestamp(moment),
        verifier,
    ));
    let text = ManuallyDrop::new(answer_text(alloc, &answer)?);
    Ok(text.as_str() == wanted)
}

/// The same by the verifier for tests, which says so of each signature, and whose calls of these numbers fail.
fn is_decided_in_memory(
    alloc: Global,
    yes: bool,
    failing: &[u64],
    file: &str,
    offer: &Offer,
    asked: Asked,
    wanted: &str,
) -> Result<bool, Fail> {
    let mut verifier = ManuallyDrop::new(MemoryVerifier::new(alloc, yes, failing)?);
    is_decided_by(alloc, &mut *verifier, file, offer, asked, wanted)
}

/// Over the row's file this is decided of the offer by a verifier that says yes, of which no second call passes. Where a
/// certificate is let in, one that says no denies it, and one that fails ends in its fault; else both decide the same.
pub fn is_decided(
    alloc: Global,
    row: &str,
    offer: &Offer,
    asked: Asked,
    wanted: &str,
) -> Result<bool, Fail> {
    let file = ManuallyDrop::new(row_text(alloc, row)?);
    let file = file.as_str();
    let is_verified = !offer.message().is_empty() && wanted.starts_with("grant");
    let refused = if is_verified {
        "deny BadSignature"
    } else {
        wanted
    };
    let failed = if is_verified { "VerifierFault" } else { wanted };
    Ok(
        is_decided_in_memory(alloc, true, BEHIND, file, offer, asked, wanted)?
            && is_decided_in_memory(alloc, false, BEHIND, file, offer, asked, refused)?
            && is_decided_in_memory(alloc, true, EACH, file, offer, asked, failed)?,
    )
}
