//! Certificates of `ssh-keygen`, of each kind of subject and issuer: what is signed of them, and what is decided.

use crate::decisions::is_decided;
use picky_cert::SshCertType;
use picky_cert_rows::{CertRow, Grant, ROW_COUNT, cert_row};
use picky_policy::Offer;
use picky_text::decode;
use std::alloc::{AllocError, Global};
use std::mem::ManuallyDrop;
use std::str;
use std::test::Fail;

/// The offer of a row's line. It isn't dropped.
fn offer_of_row(alloc: Global, row: &CertRow) -> Result<ManuallyDrop<Offer>, Fail> {
    Ok(ManuallyDrop::new(Offer::from_str(alloc, row.line)?))
}

/// The second word of a line.
fn second_word(line: &str) -> &str {
    match line.split_once(' ') {
        Some((_, rest)) => match rest.split_once(' ') {
            Some((word, _)) => word,
            None => rest,
        },
        None => "",
    }
}

/// As many bytes are signed as the row says, from the first on.
fn has_message(alloc: Global, row: &CertRow) -> Result<bool, Fail> {
    let offer = offer_of_row(alloc, row)?;
    let bytes = ManuallyDrop::new(decode(alloc, second_word(row.line).as_bytes())?);
    Ok(bytes.as_slice().get(..row.signed_len) == Some(offer.message()))
}

#[test]
fn takes_what_is_signed_as_it_stands(rt: HostRuntime) -> Result<(), Fail> {
    for number in 0..ROW_COUNT {
        let row = cert_row(number);
        assert!(rt; has_message(rt.alloc(), row)?, "{}", row.name);
    }
    Ok(())
}

/// The text in a string, whose length is its first four bytes (RFC 4251, section 5).
fn text_in(payload: &[u8]) -> &str {
    let (_, bytes) = payload.split_at(payload.len().min(4));
    str::from_utf8(bytes).unwrap_or("?")
}

/// The row's options by their names, in the order of the names.
fn push_demands(text: &mut String, options: &[Grant]) -> Result<(), AllocError> {
    for (name, payload) in options {
        if *name == "force-command" {
            write!(text, " command={}", text_in(payload))?;
        } else if *name == "source-address" {
            write!(text, " source={}", text_in(payload))?;
        } else {
            text.push_str(" verify")?;
        }
    }
    Ok(())
}

/// What is decided of the row by its issuer's line.
fn wanted_of(alloc: Global, row: &CertRow) -> Result<String, AllocError> {
    if row.cert_type == SshCertType::Host {
        return String::from_str(alloc, "deny NotClient");
    }
    let mut text = String::from_str(alloc, "grant 2")?;
    push_demands(&mut text, row.options)?;
    Ok(text)
}

/// A line of the issuer's as a user, and one as an authority.
fn file_of(alloc: Global, row: &CertRow) -> Result<String, AllocError> {
    let mut text = String::new(alloc);
    let issuer = row.issuer;
    write!(text, "{issuer} k\ncert-authority {issuer} k\n")?;
    Ok(text)
}

fn user_of(row: &CertRow) -> &'static str {
    match row.principals.first() {
        Some(user) => *user,
        None => "anyone",
    }
}

fn is_decided_of(alloc: Global, row: &CertRow) -> Result<bool, Fail> {
    let offer = offer_of_row(alloc, row)?;
    let file = ManuallyDrop::new(file_of(alloc, row)?);
    let wanted = ManuallyDrop::new(wanted_of(alloc, row)?);
    let asked = (user_of(row), row.valid.0);
    is_decided(alloc, file.as_str(), &offer, asked, wanted.as_str())
}

#[test]
fn decides_on_certificates_of_each_kind(rt: HostRuntime) -> Result<(), Fail> {
    for number in 0..ROW_COUNT {
        let row = cert_row(number);
        assert!(rt; is_decided_of(rt.alloc(), row)?, "{}", row.name);
    }
    Ok(())
}
