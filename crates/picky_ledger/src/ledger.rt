//! A ledger, its text, and what it keeps.

ghost use Rattle.std.specs.Prelude.{◌≡◌, ◌≢◌, ◌≤◌, ◌<◌, ◌^◌, ◌++◌, List, length, string_bytes, Err, IfOk, OnOk};
ghost use Rattle.picky_wire_base.specs.Gives.{Gives};
ghost use Rattle.picky_ledger.specs.LedgerText.{ledger_text, next_line, read, ledger_written};
ghost use Rattle.picky_ledger.specs.State.{IsLedger, State};

use crate::entry::Entry;
use crate::entry_line::push_entry;
use crate::reading::ledger_of;
use picky_wire::{List, MAX_LEN, NoMemory, SizeError, Text};
use std::alloc::Global;
use std::marker::Model;
use thiserror::Error;

/// Why a text is no ledger's.
#[derive(Debug, Drop, PartialEq, Eq, Error)]
pub enum LedgerTextError {
    /// This line, counted from 1, is the first at which it isn't.
    #[error("BadLine({0})")]
    BadLine(usize),
    /// It has 2^32 bytes or more.
    #[error("TooLong")]
    TooLong,
    /// Memory ran out.
    #[error("NoMemory")]
    NoMemory,
}

/// The serial that is next, and the requests that certificates were issued for, in the order of their serials.
#[derive(Debug, Drop)]
pub struct Ledger {
    pub(crate) next: u64,
    pub(crate) entries: List<Entry>,
}

impl Model for Ledger {
    ghost Value = { State };

    ghost view = { λ l. record { next = l.next; entries = l.entries } };

    ghost invariant = { λ l. IsLedger (record { next = l.next; entries = l.entries }) };
}

impl Ledger {
    /// The ledger of a text: `next N`, and a line for each entry, `ID BASE64 CERTIFICATE`, with the request line in base64 and the
    /// certificate's line as `SshCertificate::to_string` writes it, without CR LF. Each line ends in LF.
    ///
    /// Refuses, in order: `TooLong`, where the text has 2^32 bytes or more; `BadLine`, with the first line at which it is no
    /// ledger's.
    pub fn from_str(alloc: Global, text: &str) -> Result<Ledger, LedgerTextError>
        ensures { Gives LedgerTextError.NoMemory (λ ledger. ledger) result (read text.now) }
    {
        if text.len() > MAX_LEN {
            return Err(LedgerTextError::TooLong);
        }
        ledger_of(alloc, text)
    }

    /// Its text. Refuses: `TooLong`, where that has 2^32 bytes or more.
    pub fn to_string(&self, alloc: Global) -> Result<Text, SizeError>
        ensures { Gives SizeError.NoMemory (λ text. text) result (ledger_written self.now) }
    {
        match self.text(alloc) {
            Ok(text) => {
                if text.len() > MAX_LEN {
                    return Err(SizeError::TooLong);
                }
                Ok(Text::from_string(text))
            }
            Err(e) => Err(e),
        }
    }

    /// Its entries, in the order of their serials.
    pub fn entries(&self) -> &[Entry]
        ensures are { result.now ≡ self.now.entries }
        ensures is { IsLedger self.now }
    {
        self.entries.as_slice()
    }

    /// The serial of the next certificate.
    pub fn next_serial(&self) -> u64
        ensures is { result ≡ self.now.next }
        ensures some { 0 < result }
    {
        self.next
    }

    /// The same as a string. Refuses: `TooLong`, where an entry's line has 2^32 bytes or more.
    #[tactic(auto, unfolding(crate::specs::LedgerText::ledger_text))]
    fn text(&self, alloc: Global) -> Result<String, SizeError>
        ensures text { IfOk result (λ text. string_bytes text ≡ ledger_text self.now) }
        ensures too_long { result ≡ Err SizeError.TooLong → 2 ^ 32 ≤ length (ledger_text self.now) }
    {
        let mut text = String::new(alloc);
        push_next(&mut text, self.next)?;
        'entries: for entry in self.entries.as_slice() {
            match push_entry(alloc, &mut text, entry) {
                Ok(()) => {}
                Err(e) => return Err(e),
            }
        }
        Ok(text)
    }
}

/// Adds the line of the next serial. Refuses: `NoMemory`.
#[tactic(auto, unfolding(crate::specs::LedgerText::next_word))]
fn push_next(text: &mut String, next: u64) -> Result<(), SizeError>
    ensures pushed { OnOk result (string_bytes text.new ≡ string_bytes text.old ++ next_line next) }
    ensures no_length { result ≢ Err SizeError.TooLong }
{
    match write!(text, "next {next}\n") {
        Ok(()) => Ok(()),
        Err(_) => Err(SizeError::NoMemory),
    }
}
