//! The line of an entry, read and written.

ghost use Rattle.std.specs.Prelude.{◌≡◌, ◌≢◌, ◌+◌, ◌^◌, ◌<◌, ◌≤◌, ◌++◌, ◌∷◌, ℕ, List, [], bytes_eq, length};
ghost use Rattle.std.specs.Prelude.{string_bytes, vec_len};
ghost use Rattle.std.specs.Prelude.{Err, IfOk, MatchBool, OnOk};
ghost use Rattle.picky_text.specs.Base64.{base64_of};
ghost use Rattle.picky_cert.specs.Line.{IsReadBackCertificate};
ghost use Rattle.picky_cert.specs.Spelled.{cert_line_of};
ghost use Rattle.picky_request.specs.Request.{request_in};
ghost use Rattle.picky_ledger.specs.Entry.{certificate_in, entry_in, entry_line, front_of, if_text, is_named};
ghost use Rattle.picky_ledger.specs.Entry.{request_under, base64_text_in, IsEntry};

use crate::entry::Entry;
use base64::engine::general_purpose::STANDARD;
use picky_cert::{SshCertificate, SshCertificateError};
use picky_request::CertRequestLine;
use picky_text::{Base64Error, decode};
use picky_wire::{NoMemory, SizeError, Text};
use std::alloc::{AllocError, Global};

/// What a line says, which stands before its LF. Refuses: `NoMemory`.
#[tactic(auto, unfolding(crate::specs::Entry::entry_in))]
pub fn entry_of(alloc: Global, line: &str) -> Result<Option<Entry>, NoMemory>
    requires { length line.now < 2 ^ 32 }
    ensures { IfOk result (λ entry. entry ≡ entry_in line.now) }
{
    let Some((id, rest)) = line.split_once(' ') else {
        return Ok(None);
    };
    let Some((word, text)) = rest.split_once(' ') else {
        return Ok(None);
    };
    let Some(request) = request_of(alloc, id, word)? else {
        return Ok(None);
    };
    let Some(certificate) = certificate_of(alloc, text)? else {
        return Ok(None);
    };
    let id = text_of(alloc, id)?;
    Ok(Some(Entry {
        id,
        serial: certificate.serial,
        request,
        certificate,
    }))
}

/// The request line with this id that the word says in base64. Refuses: `NoMemory`.
#[tactic(auto, unfolding(crate::specs::Entry::request_under))]
fn request_of(alloc: Global, id: &str, word: &str) -> Result<Option<Text>, NoMemory>
    requires { length word.now < 2 ^ 32 }
    ensures { IfOk result (λ request. request ≡ request_under id.now word.now) }
{
    let Some(text) = decoded_text(alloc, word)? else {
        return Ok(None);
    };
    if has_id(alloc, text.as_str(), id)? {
        return Ok(Some(text));
    }
    Ok(None)
}

/// The text that a word says in base64. Refuses: `NoMemory`.
#[tactic(auto, unfolding(crate::specs::Entry::base64_text_in), using(picky_cert::proofs::LineLemmas::no_longer_than_base64))]
fn decoded_text(alloc: Global, word: &str) -> Result<Option<Text>, NoMemory>
    requires { length word.now < 2 ^ 32 }
    ensures { IfOk result (λ text. text ≡ base64_text_in word.now) }
{
    match decode(alloc, word.as_bytes()) {
        Ok(bytes) => Ok(into_text(bytes)),
        Err(Base64Error::NotBase64) => Ok(None),
        Err(Base64Error::NoMemory) => Err(NoMemory),
    }
}

/// The bytes as a text, where they are UTF-8.
#[tactic(auto, using(picky_wire_base::proofs::ViewLemmas::tests))]
fn into_text(bytes: Vec<u8>) -> Option<Text>
    requires { vec_len bytes < 2 ^ 32 }
    ensures { result ≡ if_text bytes.items }
{
    match String::from_utf8(bytes) {
        Ok(string) => Some(Text::from_string(string)),
        Err(_) => None,
    }
}

/// Whether the line is a request with this id. Refuses: `NoMemory`.
fn has_id(alloc: Global, line: &str, id: &str) -> Result<bool, NoMemory>
    ensures { IfOk result (λ has. has ≡ is_named id.now (request_in line.now)) }
{
    match CertRequestLine::from_str(alloc, line)? {
        Some(request) => Ok(request.id.as_str() == id),
        None => Ok(false),
    }
}

/// The certificate that the text says in the one spelling. Refuses: `NoMemory`.
#[tactic(auto, unfolding(crate::specs::Entry::certificate_in), using(picky_cert::proofs::CanonicalLaws::text_is_kept))]
fn certificate_of(alloc: Global, text: &str) -> Result<Option<SshCertificate>, NoMemory>
    requires { length text.now + 2 < 2 ^ 32 }
    ensures { IfOk result (λ certificate. certificate ≡ certificate_in text.now) }
{
    match SshCertificate::from_str(alloc, text) {
        Ok(certificate) => {
            if is_line(alloc, &certificate, text)? {
                return Ok(Some(certificate));
            }
            drop(certificate);
            Ok(None)
        }
        Err(e) => {
            if is_no_memory(e) {
                return Err(NoMemory);
            }
            Ok(None)
        }
    }
}

/// Whether the text is the certificate's line without its CR LF. Refuses: `NoMemory`.
#[tactic(auto, using(crate::proofs::CertificateLineLemmas::lines))]
fn is_line(alloc: Global, certificate: &SshCertificate, text: &str) -> Result<bool, NoMemory>
    requires kept { length (cert_line_of certificate.now) < 2 ^ 32 → IsReadBackCertificate certificate.now }
    requires short { length text.now + 2 < 2 ^ 32 }
    ensures { IfOk result (λ is. is ≡ bytes_eq (front_of certificate.now) text.now) }
{
    match certificate_line(alloc, certificate) {
        Ok(line) => Ok(without_end(line.as_str()) == text),
        Err(SizeError::TooLong) => Ok(false),
        Err(SizeError::NoMemory) => Err(NoMemory),
    }
}

/// Adds the line of an entry. Refuses: `TooLong`, where the certificate's line has 2^32 bytes or more.
#[tactic(auto, unfolding(crate::specs::Entry::entry_line, crate::specs::Entry::entry_front), using(crate::proofs::CertificateLineLemmas::lines))]
pub fn push_entry(alloc: Global, text: &mut String, entry: &Entry) -> Result<(), SizeError>
    requires { IsEntry entry.now }
    ensures pushed { OnOk result (string_bytes text.new ≡ string_bytes text.old ++ entry_line entry.now) }
    ensures too_long { result ≡ Err SizeError.TooLong → 2 ^ 32 ≤ length (entry_line entry.now) }
{
    let line = certificate_line(alloc, &entry.certificate)?;
    match push_words(text, entry, without_end(line.as_str())) {
        Ok(()) => Ok(()),
        Err(_) => Err(SizeError::NoMemory),
    }
}

/// The certificate's line. Refuses: `TooLong`, where that has 2^32 bytes or more.
#[tactic(auto, using(crate::proofs::CertificateLineLemmas::lines))]
fn certificate_line(alloc: Global, certificate: &SshCertificate) -> Result<Text, SizeError>
    requires { length (cert_line_of certificate.now) < 2 ^ 32 → IsReadBackCertificate certificate.now }
    ensures line { IfOk result (λ line. line ≡ cert_line_of certificate.now) }
    ensures too_long { result ≡ Err SizeError.TooLong → 2 ^ 32 ≤ length (cert_line_of certificate.now) }
{
    match certificate.to_string(alloc) {
        Ok(line) => Ok(line),
        Err(e) => {
            if is_no_memory(e) {
                return Err(SizeError::NoMemory);
            }
            Err(SizeError::TooLong)
        }
    }
}

/// Whether memory ran out.
fn is_no_memory(e: SshCertificateError) -> bool
    ensures { MatchBool result (e ≡ SshCertificateError.NoMemory) (e ≢ SshCertificateError.NoMemory) }
{
    match e {
        SshCertificateError::NoMemory => {
            drop(e);
            true
        }
        e => {
            drop(e);
            false
        }
    }
}

/// What stands before the CR LF at the end.
fn without_end(line: &str) -> &str
    ensures { (front : List ℕ) → line.now ≡ front ++ 13 ∷ 10 ∷ [] → result.now ≡ front }
{
    match line.strip_suffix("\r\n") {
        Some(front) => front,
        None => line,
    }
}

/// Adds the id, the request line in base64 and the certificate's line, parted by spaces, and LF. Refuses: want of memory.
#[tactic(auto, unfolding(picky_text::specs::Base64::base64_of))]
fn push_words(text: &mut String, entry: &Entry, certificate: &str) -> Result<(), AllocError>
    ensures { OnOk result (string_bytes text.new ≡ string_bytes text.old
        ++ ((entry.now.id ++ 32 ∷ (base64_of entry.now.request ++ 32 ∷ certificate.now)) ++ 10 ∷ [])) }
{
    text.push_str(entry.id.as_str())?;
    text.push_str(" ")?;
    STANDARD.encode_string(entry.request.as_str().as_bytes(), text)?;
    text.push_str(" ")?;
    text.push_str(certificate)?;
    text.push_str("\n")?;
    Ok(())
}

/// A copy of a text that stands in a line. Refuses: `NoMemory`.
fn text_of(alloc: Global, text: &str) -> Result<Text, NoMemory>
    ensures { IfOk result (λ copy. copy ≡ text.now) }
{
    match Text::new(alloc, text) {
        Ok(copy) => Ok(copy),
        Err(_) => Err(NoMemory),
    }
}
