//! A request line.

ghost use Rattle.std.specs.Prelude.{◌≡◌, ◌^◌, ◌<◌, length, IfOk};
ghost use Rattle.std.specs.Result.{result_ok};
ghost use Rattle.picky_keys.specs.LineRefusal.{line_meaning};
ghost use Rattle.picky_request.specs.Request.{request_named, request_in, said_by};
ghost use Rattle.picky_request.specs.inner.Shown.{words_shown};

use crate::names::{is_id, principals_of, text_of};
use crate::words::{LineWords, words_of};
use picky_cert_parts::SshCertType;
use picky_issuing::{cert_type_of, number_of};
use picky_keys::{SshPublicKey, SshPublicKeyError};
use picky_wire::{List, MAX_LEN, NoMemory, Text, Timestamp};
use std::alloc::Global;

/// What a line asks of a certificate authority.
#[derive(Debug, Drop, PartialEq, Eq)]
pub struct CertRequestLine {
    /// The name of the request, which the certificate has as its key id.
    pub id: Text,
    /// Whether a user's certificate is asked for or a host's.
    pub cert_type: SshCertType,
    /// The user or host names that it is for; none are for all.
    pub principals: List<Text>,
    pub valid_after: Timestamp,
    pub valid_before: Timestamp,
    /// The subject's key. Its comment becomes the certificate's.
    pub key: SshPublicKey,
}

impl CertRequestLine {
    /// What a line asks for, which is `ID KIND PRINCIPALS AFTER BEFORE` and a public key line, parted by single spaces, in fewer
    /// than 2^32 bytes. `None` for any other.
    ///
    /// ID has one character or more, and no white space. KIND is `client` or `host`. PRINCIPALS is `-` for none, or names of one
    /// character or more, parted by commas. The times are seconds in decimal. Refuses: `NoMemory`.
    #[tactic(auto, unfolding(crate::specs::Request::request_in))]
    pub fn from_str(alloc: Global, line: &str) -> Result<Option<CertRequestLine>, NoMemory>
        ensures { IfOk result (λ request. request ≡ request_in line.now) }
    {
        if line.len() > MAX_LEN {
            return Ok(None);
        }
        match words_of(line) {
            Some(words) => request_of(alloc, words),
            None => Ok(None),
        }
    }
}

/// The request of the words. Refuses: `NoMemory`.
fn request_of(alloc: Global, words: LineWords<'_>) -> Result<Option<CertRequestLine>, NoMemory>
    ensures { IfOk result (λ request. request ≡ request_named (words_shown words.entry)) }
{
    if !is_id(words.id) {
        return Ok(None);
    }
    said_of(alloc, words)
}

/// The same where the id is one. Refuses: `NoMemory`.
#[tactic(auto, unfolding(crate::specs::Request::said_by))]
fn said_of(alloc: Global, words: LineWords<'_>) -> Result<Option<CertRequestLine>, NoMemory>
    ensures { IfOk result (λ request. request ≡ said_by (words_shown words.entry)) }
{
    let Some(cert_type) = cert_type_of(words.kind) else {
        return Ok(None);
    };
    let Some(principals) = principals_of(alloc, words.principals)? else {
        return Ok(None);
    };
    let (Some(after), Some(before)) = (number_of(words.after), number_of(words.before)) else {
        return Ok(None);
    };
    let Some(key) = key_of_public_line(alloc, words.key)? else {
        return Ok(None);
    };
    let id = text_of(alloc, words.id)?;
    Ok(Some(CertRequestLine {
        id,
        cert_type,
        principals,
        valid_after: Timestamp(after),
        valid_before: Timestamp(before),
        key,
    }))
}

/// The key of a public line, where that is one. Refuses: `NoMemory`.
fn key_of_public_line(alloc: Global, line: &str) -> Result<Option<SshPublicKey>, NoMemory>
    ensures { IfOk result (λ key. key ≡ result_ok (line_meaning line.now)) }
{
    match SshPublicKey::from_str(alloc, line) {
        Ok(key) => Ok(Some(key)),
        Err(SshPublicKeyError::NoMemory) => Err(NoMemory),
        Err(_) => Ok(None),
    }
}
