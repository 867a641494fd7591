//! Certificates of `ssh-keygen`: what each says, seen in its bytes and copied from them, and written again.

use crate::answers::{gives, gives_text};
use picky_cert::{CertView, SshCertificate, SshCriticalOption, SshExtension};
use picky_cert_rows::{CertRow, Grant, ROW_COUNT, cert_row};
use picky_text::decode;
use picky_wire::{Bytes, Text};
use std::alloc::Global;
use std::mem::ManuallyDrop;
use std::test::Fail;

fn are_texts(texts: &[Text], wanted: &[&str]) -> bool {
    let mut is_so = texts.len() == wanted.len();
    for (text, word) in texts.iter().zip(wanted) {
        is_so = is_so && text.as_str() == *word;
    }
    is_so
}

fn are_options(options: &[SshCriticalOption], wanted: &[Grant]) -> bool {
    let mut is_so = options.len() == wanted.len();
    for (option, (name, payload)) in options.iter().zip(wanted) {
        is_so = is_so
            && option.option_type.as_str() == *name
            && option.payload.as_slice() == *payload;
    }
    is_so
}

fn are_extensions(extensions: &[SshExtension], wanted: &[Grant]) -> bool {
    let mut is_so = extensions.len() == wanted.len();
    for (extension, (name, payload)) in extensions.iter().zip(wanted) {
        is_so = is_so
            && extension.extension_type.as_str() == *name
            && extension.payload.as_slice() == *payload;
    }
    is_so
}

/// For what the certificate is, and how long.
fn has_terms(cert: &SshCertificate, row: &CertRow) -> bool {
    cert.serial == row.serial
        && cert.cert_type == row.cert_type
        && cert.key_id.as_str() == row.key_id
        && are_texts(cert.valid_principals.as_slice(), row.principals)
        && cert.valid_after.secs() == row.valid.0
        && cert.valid_before.secs() == row.valid.1
}

/// What it grants, how it is signed, its type and its comment.
fn has_grants(cert: &SshCertificate, row: &CertRow) -> bool {
    are_options(cert.critical_options.as_slice(), row.options)
        && are_extensions(cert.extensions.as_slice(), row.extensions)
        && cert.signature.format.as_str() == row.format
        && row.line.starts_with(cert.cert_key_type.as_str())
        && cert.comment.as_str() == row.comment
}

/// The keys have no comments, and each is written as its two words.
fn has_keys(alloc: Global, cert: &SshCertificate, row: &CertRow) -> bool {
    gives_text(cert.public_key.to_string(alloc), row.public_key, " \r\n")
        && gives_text(cert.signature_key.to_string(alloc), row.issuer, " \r\n")
}

/// The line is written for the certificate, and CR LF after it.
pub fn prints(alloc: Global, cert: &SshCertificate, line: &str) -> bool {
    gives_text(cert.to_string(alloc), line, "\r\n")
}

/// The certificate of the line.
pub fn cert_of(alloc: Global, line: &str) -> Result<SshCertificate, Fail> {
    Ok(SshCertificate::from_str(alloc, line)?)
}

/// The row's line says what the row says, and is written again.
fn is_read(alloc: Global, row: &CertRow) -> Result<bool, Fail> {
    let cert = ManuallyDrop::new(cert_of(alloc, row.line)?);
    Ok(
        has_terms(&cert, row)
            && has_grants(&cert, row)
            && has_keys(alloc, &cert, row)
            && prints(alloc, &cert, row.line),
    )
}

#[test]
fn reads_the_certificates_of_ssh_keygen(rt: HostRuntime) -> Result<(), Fail> {
    for number in 0..ROW_COUNT {
        let row = cert_row(number);
        assert!(rt; is_read(rt.alloc(), row)?, "{}", row.name);
    }
    Ok(())
}

/// The second word of a line.
fn body_of(line: &str) -> &str {
    match line.split_once(' ') {
        Some((_, rest)) => match rest.split_once(' ') {
            Some((body, _)) => body,
            None => rest,
        },
        None => "",
    }
}

/// The bytes that it stands for.
pub fn blob_of(alloc: Global, line: &str) -> Result<Bytes, Fail> {
    let bytes = ManuallyDrop::new(decode(alloc, body_of(line).as_bytes())?);
    Ok(Bytes::new(alloc, bytes.as_slice())?)
}

/// The bytes are signed for the certificate.
fn signs(alloc: Global, cert: &SshCertificate, bytes: &[u8]) -> bool {
    let signed = ManuallyDrop::new(cert.signed_bytes(alloc));
    match &*signed {
        Ok(signed) => signed.as_slice() == bytes,
        Err(_) => false,
    }
}

/// The bytes are seen as the certificate, of which so many are signed, and copied.
fn shows(alloc: Global, blob: &Bytes, cert: &SshCertificate, signed_len: usize) -> bool {
    match CertView::read(blob.as_slice()) {
        Ok((view, len)) => {
            len == blob.as_slice().len()
                && view.signed.bytes.len() == signed_len
                && signs(alloc, cert, view.signed.bytes)
                && gives(view.to_certificate(alloc), cert)
        }
        Err(_) => false,
    }
}

/// The bytes of the row's line show its certificate without its comment.
fn is_seen(alloc: Global, row: &CertRow) -> Result<bool, Fail> {
    let line = row.line.strip_suffix(row.comment).ok_or("another comment")?;
    let cert = ManuallyDrop::new(cert_of(alloc, line)?);
    let blob = ManuallyDrop::new(blob_of(alloc, row.line)?);
    Ok(shows(alloc, &blob, &cert, row.signed_len))
}

#[test]
fn sees_the_certificates_of_ssh_keygen(rt: HostRuntime) -> Result<(), Fail> {
    for number in 0..ROW_COUNT {
        let row = cert_row(number);
        assert!(rt; is_seen(rt.alloc(), row)?, "{}", row.name);
    }
    Ok(())
}
