//! What a source asks for.

ghost use Rattle.std.specs.Prelude.{◌≡◌, length};
ghost use Rattle.std.specs.Option.{option_map};
ghost use Rattle.picky_wire_base.specs.Outcome.{map_err};
ghost use Rattle.picky_wire_base.specs.Gives.{Gives};
ghost use Rattle.picky_keys.specs.LineRefusal.{line_meaning};
ghost use Rattle.picky_ledger.specs.Run.{of_parts, of_text, parts_in, requests_in};
ghost use Rattle.picky_ledger.specs.declared.status.LedgerStatus.TheVariants as statuses;
ghost use Rattle.picky_ledger.specs.inner.Shown.{given_shown, parts_shown};

use crate::ledger::Ledger;
use crate::status::{LedgerStatus, text_status};
use picky_issuing::parts_of;
use picky_keys::{SshPublicKey, SshPublicKeyError};
use picky_text::LineReader;
use std::alloc::Global;

/// How many fresh bytes each request has.
pub(crate) const NONCE_LEN: usize = 32;

/// The parts before the first two lines that are exactly `%%`, and what follows these.
#[derive(Clone, Copy)]
pub struct LedgerParts<'a> {
    pub ledger: &'a str,
    pub issuer: &'a str,
    pub requests: &'a str,
}

/// A ledger, who issues, and the text of the requests.
#[derive(Drop)]
pub struct LedgerInput<'a> {
    pub ledger: Ledger,
    pub issuer: SshPublicKey,
    pub requests: &'a str,
}

/// What a text asks for. Refuses, in order: `BadInput`, `BadLedger`, `BadIssuer`, `FreshTooShort`.
pub fn given_in<'a>(
    alloc: Global,
    fresh: &[u8],
    text: &'a str,
) -> Result<LedgerInput<'a>, LedgerStatus>
    ensures { Gives LedgerStatus.NoMemory given_shown result (of_text fresh.now text.now) }
{
    match ledger_parts(text) {
        Some(parts) => given_of(alloc, fresh, parts),
        None => Err(LedgerStatus::BadInput),
    }
}

/// The three parts of a text, where two lines of it are the mark.
fn ledger_parts(text: &str) -> Option<LedgerParts<'_>>
    ensures { option_map parts_shown result ≡ parts_in text.now }
{
    let first = parts_of(text);
    let ledger = first.issuer?;
    let second = parts_of(first.key);
    let issuer = second.issuer?;
    Some(LedgerParts {
        ledger,
        issuer,
        requests: second.key,
    })
}

/// What the parts ask for. Refuses, in order: `BadLedger`, `BadIssuer`, `FreshTooShort`.
fn given_of<'a>(
    alloc: Global,
    fresh: &[u8],
    parts: LedgerParts<'a>,
) -> Result<LedgerInput<'a>, LedgerStatus>
    ensures { Gives LedgerStatus.NoMemory given_shown result (of_parts fresh.now (parts_shown parts.entry)) }
{
    let ledger = match Ledger::from_str(alloc, parts.ledger) {
        Ok(ledger) => ledger,
        Err(e) => return Err(text_status(e)),
    };
    let issuer = match issuer_of(alloc, parts.issuer) {
        Ok(issuer) => issuer,
        Err(status) => return Err(status),
    };
    if fresh.len() / NONCE_LEN < count_of(parts.requests) {
        return Err(LedgerStatus::FreshTooShort);
    }
    Ok(LedgerInput {
        ledger,
        issuer,
        requests: parts.requests,
    })
}

/// The issuer's public key. Refuses: `BadIssuer`.
fn issuer_of(alloc: Global, line: &str) -> Result<SshPublicKey, LedgerStatus>
    ensures { Gives LedgerStatus.NoMemory (λ key. key) result (map_err statuses.BadIssuer (line_meaning line.now)) }
{
    match SshPublicKey::from_str(alloc, line) {
        Ok(key) => Ok(key),
        Err(SshPublicKeyError::NoMemory) => Err(LedgerStatus::NoMemory),
        Err(e) => Err(LedgerStatus::BadIssuer(e)),
    }
}

/// How many lines of a text aren't empty.
pub fn count_of(text: &str) -> usize
    ensures { result ≡ length (requests_in text.now) }
{
    let mut lines = LineReader::new(text);
    let mut count = 0;
    'lines: while let Some(line) = lines.next_line() {
        if !line.is_empty() {
            count += 1;
        }
    }
    count
}
