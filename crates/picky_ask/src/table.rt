//! A table of answers, read from the bytes that the caller gives.

ghost use Rattle.std.specs.Prelude.{◌≡◌, [], None, Some, MatchOption, IfOk, IfErr};
ghost use Rattle.picky_wire_base.specs.Gives.{Gives};
ghost use Rattle.picky_ask.specs.Head.{head as head_layout};
ghost use Rattle.picky_ask.specs.Lookup.{answer_to as answer_in};
ghost use Rattle.picky_ask.specs.Table.{entry as entry_layout, made_entry, string_whole, table_of};
ghost use Rattle.picky_ask.specs.Whole.{whole_only};

use crate::head_read::head_at;
use crate::head_view::{copy, head_copy, head_view};
use crate::lookup::answer_to;
use crate::question::{Entry, Head, Question};
use picky_wire::{both, uint32_at};
use std::alloc::Global;
use std::marker::Model;
use thiserror::Error;

/// Why bytes are no table of answers.
#[derive(Debug, Drop, PartialEq, Eq, Error)]
pub enum TableError {
    /// The bytes end where a string of an entry should begin, or in the four bytes of its length.
    #[error("EndsInEntry")]
    EndsInEntry,
    /// A length says more bytes than are left.
    #[error("LengthPastEnd")]
    LengthPastEnd,
    /// A head is none of a known question.
    #[error("NoQuestion")]
    NoQuestion,
    /// Memory ran out.
    #[error("NoMemory")]
    NoMemory,
}

/// Answers, the oldest first: the first answer to a question counts.
#[derive(Debug, Drop)]
pub struct Table {
    entries: Vec<Entry>,
}

impl Model for Table {
    ghost use Rattle.std.specs.Prelude.{List};
    ghost use Rattle.picky_ask.specs.declared.question.Entry.{Entry as AnEntry};

    ghost Value = { List AnEntry };

    ghost view = { λ t. t.entries.items };
}

impl Table {
    /// A table that answers nothing.
    pub fn new(alloc: Global) -> Table
        ensures { result ≡ [] }
    {
        Table {
            entries: Vec::new(alloc),
        }
    }

    /// The table of these entries.
    pub fn from_entries(entries: Vec<Entry>) -> Table
        ensures { result ≡ entries.items }
    {
        Table { entries }
    }

    /// Its entries.
    pub fn entries(&self) -> &[Entry]
        ensures { result.now ≡ self.now }
    {
        self.entries.as_slice()
    }

    /// The first answer to a question, for a device that this crate doesn't have.
    pub fn answer(&self, question: &Question) -> Option<&[u8]>
        ensures { MatchOption result (answer_in question.now self.now ≡ None)
            (λ answer. answer_in question.now self.now ≡ Some answer.now) }
    {
        answer_to(
            self.entries.as_slice(),
            &head_view(&question.head),
            question.text.as_slice(),
        )
    }

    /// The table that the bytes are: entries one after another, each the strings head, text and answer.
    ///
    /// Refuses, at the first entry where one is wrong, in order: `EndsInEntry` or `LengthPastEnd` in the head, `NoQuestion`,
    /// and the first two in the text and the answer. Nothing past the end is read.
    pub fn read(alloc: Global, bytes: &[u8]) -> Result<Table, TableError>
        ensures { Gives TableError.NoMemory (λ table. table) result (table_of bytes.now) }
    {
        match entries_of(alloc, bytes) {
            Ok(entries) => Ok(Table { entries }),
            Err(e) => Err(e),
        }
    }
}

fn entries_of(alloc: Global, bytes: &[u8]) -> Result<Vec<Entry>, TableError>
    ensures { Gives TableError.NoMemory (λ entries. entries.items) result (table_of bytes.now) }
{
    let mut entries = Vec::new(alloc);
    let mut rest = bytes;
    'entries: while rest.len() > 0 {
        let (entry, more) = match entry_in(alloc, rest) {
            Ok(found) => found,
            Err(e) => return Err(e),
        };
        match entries.push(entry) {
            Ok(()) => {}
            Err(_) => return Err(TableError::NoMemory),
        }
        rest = more;
    }
    Ok(entries)
}

/// The entry in front, and what follows it.
#[tactic(auto, unfolding(crate::specs::Table::entry))]
fn entry_in(alloc: Global, bytes: &[u8]) -> Result<(Entry, &[u8]), TableError>
    ensures { Gives TableError.NoMemory (λ found. (found.0, found.1.now)) result (entry_layout.read bytes.now) }
{
    let (head, rest) = match string_in(bytes) {
        Ok(found) => found,
        Err(e) => return Err(e),
    };
    let head = match one_head(alloc, head) {
        Ok(head) => head,
        Err(e) => return Err(e),
    };
    let (text, rest) = match string_in(rest) {
        Ok(found) => found,
        Err(e) => return Err(e),
    };
    let (answer, rest) = match string_in(rest) {
        Ok(found) => found,
        Err(e) => return Err(e),
    };
    match entry_of_parts(alloc, head, text, answer) {
        Ok(entry) => Ok((entry, rest)),
        Err(e) => Err(e),
    }
}

/// The entry of its parts. Refuses: `NoMemory`.
fn entry_of_parts(
    alloc: Global,
    head: Head,
    text: &[u8],
    answer: &[u8],
) -> Result<Entry, TableError>
    ensures ok { IfOk result (λ entry. entry ≡ made_entry head text.now answer.now) }
    ensures err { IfErr result (λ e. e ≡ TableError.NoMemory) }
{
    match both(copy(alloc, text), copy(alloc, answer)) {
        Ok((text, answer)) => Ok(Entry {
            question: Question { head, text },
            answer,
        }),
        Err(_) => Err(TableError::NoMemory),
    }
}

/// The head that the bytes are, all of them. Refuses: `NoQuestion`.
#[tactic(auto, using(crate::proofs::TableLemmas::whole_heads))]
fn one_head(alloc: Global, bytes: &[u8]) -> Result<Head, TableError>
    ensures { Gives TableError.NoMemory (λ head. head) result (whole_only TableError.NoQuestion (head_layout.read bytes.now)) }
{
    match head_at(bytes, 0) {
        Ok((view, end)) => {
            if end < bytes.len() {
                return Err(TableError::NoQuestion);
            }
            match head_copy(alloc, &view) {
                Ok(head) => Ok(head),
                Err(_) => Err(TableError::NoMemory),
            }
        }
        Err(_) => Err(TableError::NoQuestion),
    }
}

/// The string in front, and what follows it. Refuses, in order: `EndsInEntry`, `LengthPastEnd`.
#[tactic(auto, unfolding(crate::specs::Table::string_whole))]
fn string_in(bytes: &[u8]) -> Result<(&[u8], &[u8]), TableError>
    ensures { Gives TableError.NoMemory (λ found. (found.0.now, found.1.now)) result (string_whole.read bytes.now) }
{
    let (len, next) = match uint32_at(bytes, 0) {
        Ok(found) => found,
        Err(_) => return Err(TableError::EndsInEntry),
    };
    let (_, rest) = bytes.split_at(next);
    let len = len as usize;
    if rest.len() < len {
        return Err(TableError::LengthPastEnd);
    }
    Ok(rest.split_at(len))
}
