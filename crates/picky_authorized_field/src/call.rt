//! A field of authorized keys.

ghost use Rattle.picky_wire_base.specs.Gives.{Gives};
ghost use Rattle.picky_authorized_field.specs.Call.{entries_field as entries_field_of, entries_of, field_in};

use crate::entry::entry_field;
use crate::error::{AuthFieldError, keys_refusal};
use crate::field::AuthField;
use crate::key::digits;
use crate::layout::entries_bytes;
use picky_authorized::{AuthEntry, read_keys};
use picky_utf8::as_text;
use picky_wire::List;
use std::alloc::Global;

/// The field of authorized keys: of an entry, that of the one at `place`, and of an option of its, that of the one at `item`.
///
/// Entries and options are counted from 0, and other fields don't heed `place` and `item`. `AllEntries` and `OptionList` are
/// laid out as `specs/Layout.antt` says. Refuses, in order: `NotUtf8`; `TooLong`, as `read_keys`; of `AllEntries`, `TooLong`,
/// where the number of a line or the length of a blob is 2^32 or more; `NoSuchPlace`, `NoKey`, `NoSuchItem`.
pub fn authorized_field(
    alloc: Global,
    text: &[u8],
    field: AuthField,
    place: usize,
    item: usize,
) -> Result<Vec<u8>, AuthFieldError>
    ensures { Gives AuthFieldError.NoMemory (λ bytes. bytes.items) result (field_in field place item text.now) }
{
    match entries_in(alloc, text) {
        Ok(entries) => {
            let bytes = entries_field(alloc, field, place, item, entries.as_slice());
            drop(entries);
            bytes
        }
        Err(e) => Err(e),
    }
}

/// The entries of authorized keys. Refuses, in order: `NotUtf8`, `TooLong`.
fn entries_in(alloc: Global, text: &[u8]) -> Result<List<AuthEntry>, AuthFieldError>
    ensures { Gives AuthFieldError.NoMemory (λ entries. entries) result (entries_of text.now) }
{
    let text = match as_text(text) {
        Some(text) => text,
        None => return Err(AuthFieldError::NotUtf8),
    };
    match read_keys(alloc, text) {
        Ok(entries) => Ok(entries),
        Err(e) => Err(keys_refusal(e)),
    }
}

/// The field of these entries.
///
/// Refuses, in order: `TooLong`; `NoSuchPlace`, `NoKey`, `NoSuchItem`.
fn entries_field(
    alloc: Global,
    field: AuthField,
    place: usize,
    item: usize,
    entries: &[AuthEntry],
) -> Result<Vec<u8>, AuthFieldError>
    ensures { Gives AuthFieldError.NoMemory (λ bytes. bytes.items) result (entries_field_of field place item entries.now) }
{
    match field {
        AuthField::Entries => digits(alloc, entries.len()),
        AuthField::AllEntries => entries_bytes(alloc, entries),
        AuthField::OfEntry(field) => match entries.get(place) {
            Some(entry) => entry_field(alloc, field, item, entry),
            None => Err(AuthFieldError::NoSuchPlace),
        },
    }
}
