//! Offers: those of rows, and certificates with other terms than the row's.

use crate::row_texts::row_text;
use picky_cert::{SshCertType, SshCertificate, SshCriticalOption, SshCriticalOptionType};
use picky_policy::Offer;
use picky_wire::{Bytes, List, Text, Timestamp};
use std::alloc::Global;
use std::mem::ManuallyDrop;
use std::test::Fail;

/// The offer of a row. It isn't dropped.
pub fn offer_of(alloc: Global, row: &str) -> Result<ManuallyDrop<Offer>, Fail> {
    let text = ManuallyDrop::new(row_text(alloc, row)?);
    Ok(ManuallyDrop::new(Offer::from_str(alloc, text.as_str())?))
}

/// The type of a critical option, and its payload.
pub type Demand<'a> = (SshCriticalOptionType, &'a [u8]);

/// What a certificate says beside its keys.
#[derive(Clone, Copy)]
pub struct Terms<'a> {
    pub cert_type: SshCertType,
    /// From when on, and until when.
    pub valid: (u64, u64),
    pub principals: &'a [&'a str],
    pub demands: &'a [Demand<'a>],
}

fn texts_of(alloc: Global, words: &[&str]) -> Result<List<Text>, Fail> {
    let mut texts = ManuallyDrop::new(Vec::new(alloc));
    for word in words {
        texts.push(Text::new(alloc, word)?)?;
    }
    Ok(List::from_vec(ManuallyDrop::into_inner(texts)))
}

fn options_of(alloc: Global, demands: &[Demand<'_>]) -> Result<List<SshCriticalOption>, Fail> {
    let mut options = ManuallyDrop::new(Vec::new(alloc));
    for (option_type, payload) in demands {
        options.push(SshCriticalOption {
            option_type: *option_type,
            payload: Bytes::new(alloc, payload)?,
        })?;
    }
    Ok(List::from_vec(ManuallyDrop::into_inner(options)))
}

fn put_terms(
    alloc: Global,
    certificate: &mut SshCertificate,
    terms: &Terms<'_>,
) -> Result<(), Fail> {
    let (after, before) = terms.valid;
    certificate.cert_type = terms.cert_type;
    certificate.valid_after = Timestamp(after);
    certificate.valid_before = Timestamp(before);
    certificate.valid_principals = texts_of(alloc, terms.principals)?;
    certificate.critical_options = options_of(alloc, terms.demands)?;
    Ok(())
}

/// The plain certificate with these terms.
pub fn offer_with(alloc: Global, terms: &Terms<'_>) -> Result<ManuallyDrop<Offer>, Fail> {
    let mut offer = offer_of(alloc, "<plain>")?;
    match &mut *offer {
        Offer::Certificate(certificate, _) => put_terms(alloc, certificate, terms)?,
        Offer::Key(_) => {}
    }
    Ok(offer)
}
