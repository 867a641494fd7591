//! A ledger's text, read line by line.

ghost use Rattle.std.specs.Prelude.{◌≡◌, ◌^◌, ◌<◌, ◌++◌, ◌∷◌, ◌&&◌, [], length, nat_lt, IfOk, IfSome};
ghost use Rattle.picky_wire_base.specs.Outcome.{map_err};
ghost use Rattle.picky_wire_base.specs.Gives.{Gives};
ghost use Rattle.picky_issuing.specs.Parts.{lines_with_ends};
ghost use Rattle.std.specs.List.{before_first};
ghost use Rattle.picky_request.specs.Request.{is_space};
ghost use Rattle.picky_ledger.specs.LedgerText.{entries_from, entry_said, last_serial, ledger_in, next_said};
ghost use Rattle.picky_ledger.specs.inner.Ids.{HasIds};
ghost use Rattle.picky_ledger.specs.declared.ledger.LedgerTextError.TheVariants as errors;

use crate::entry::Entry;
use crate::entry_line::entry_of;
use crate::ledger::{Ledger, LedgerTextError};
use picky_issuing::number_of;
use picky_wire::{List, NoMemory};
use std::alloc::Global;
use std::collections::BTreeSet;

/// The ledger of a text. Refuses: `BadLine`.
pub fn ledger_of(alloc: Global, text: &str) -> Result<Ledger, LedgerTextError>
    requires { length text.now < 2 ^ 32 }
    ensures { Gives LedgerTextError.NoMemory (λ ledger. ledger) result (map_err errors.BadLine (ledger_in text.now)) }
{
    let Some((line, rest)) = text.split_once('\n') else {
        return Err(LedgerTextError::BadLine(1));
    };
    let Some(next) = next_of(line) else {
        return Err(LedgerTextError::BadLine(1));
    };
    match entries_of(alloc, next, rest) {
        Ok(entries) => Ok(Ledger { next, entries }),
        Err(e) => Err(e),
    }
}

/// The number behind `next `, which isn't 0.
#[tactic(auto, unfolding(crate::specs::LedgerText::next_word))]
fn next_of(line: &str) -> Option<u64>
    ensures { result ≡ next_said line.now }
{
    let number = number_of(line.strip_prefix("next ")?)?;
    if number == 0 {
        return None;
    }
    Some(number)
}

/// The entries of the lines behind the first, whose serials are below the next. Refuses: `BadLine`.
fn entries_of(alloc: Global, next: u64, text: &str) -> Result<List<Entry>, LedgerTextError>
    requires { length text.now < 2 ^ 32 }
    ensures { Gives LedgerTextError.NoMemory (λ entries. entries) result
        (map_err errors.BadLine (entries_from next 2 [] (lines_with_ends text.now))) }
{
    let mut entries = List::new(alloc);
    let mut ids = BTreeSet::new(alloc);
    let mut number = 2;
    let mut rest = text;
    'lines: while let Some((line, after)) = rest.split_once('\n') {
        match entry_after(alloc, next, entries.as_slice(), &mut ids, line) {
            Ok(Some(entry)) => match entries.push(entry) {
                Ok(()) => {}
                Err(_) => return Err(LedgerTextError::NoMemory),
            },
            Ok(None) => return Err(LedgerTextError::BadLine(number)),
            Err(NoMemory) => return Err(LedgerTextError::NoMemory),
        }
        number += 1;
        rest = after;
    }
    if rest.is_empty() {
        return Ok(entries);
    }
    Err(LedgerTextError::BadLine(number))
}

/// The entry of a line, where it may come after these, whose ids the set has; then that has its id too. Refuses: `NoMemory`.
fn entry_after<'a>(
    alloc: Global,
    next: u64,
    before: &[Entry],
    ids: &mut BTreeSet<&'a str>,
    line: &'a str,
) -> Result<Option<Entry>, NoMemory>
    requires short { length line.now < 2 ^ 32 }
    requires ids { HasIds ids.old before.now }
    ensures entry { IfOk result (λ entry. entry ≡ entry_said next before.now line.entry.now) }
    ensures ids { IfOk result (λ entry. IfSome entry (λ e. HasIds ids.new (before.now ++ e ∷ []))) }
{
    let Some(entry) = entry_of(alloc, line)? else {
        return Ok(None);
    };
    if !is_between(before, entry.serial, next) {
        drop(entry);
        return Ok(None);
    }
    match ids.insert(id_of(line)) {
        Ok(true) => Ok(Some(entry)),
        Ok(false) => {
            drop(entry);
            Ok(None)
        }
        Err(_) => {
            drop(entry);
            Err(NoMemory)
        }
    }
}

/// Whether a serial is above the last of these, and below the next.
fn is_between(before: &[Entry], serial: u64, next: u64) -> bool
    ensures { result ≡ (nat_lt (last_serial 0 before.now) serial && nat_lt serial next) }
{
    last_of(before) < serial && serial < next
}

/// The serial of the last of these, or 0.
fn last_of(entries: &[Entry]) -> u64
    ensures { result ≡ last_serial 0 entries.now }
{
    match entries.last() {
        Some(entry) => entry.serial,
        None => 0,
    }
}

/// What stands before the first space.
pub fn id_of(line: &str) -> &str
    ensures { result.now ≡ before_first is_space line.now }
{
    match line.split_once(' ') {
        Some((id, _)) => id,
        None => line,
    }
}
