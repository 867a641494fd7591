//! The fields of an entry.

ghost use Rattle.picky_wire_base.specs.Gives.{Gives};
ghost use Rattle.picky_authorized_field.specs.Call.{content_field as content_field_of, entry_field as entry_field_of};

use crate::error::AuthFieldError;
use crate::field::{EntryField, KeyField};
use crate::key::{copy_of, digits, key_field};
use crate::state::state_name;
use picky_authorized::{AuthContent, AuthEntry};
use std::alloc::Global;

/// The field of an entry.
///
/// Refuses, in order: `NoKey`, `NoSuchItem`.
pub fn entry_field(
    alloc: Global,
    field: EntryField,
    item: usize,
    entry: &AuthEntry,
) -> Result<Vec<u8>, AuthFieldError>
    ensures { Gives AuthFieldError.NoMemory (λ bytes. bytes.items) result (entry_field_of field item entry.now) }
{
    match field {
        EntryField::LineNumber => digits(alloc, entry.line),
        EntryField::State => copy_of(alloc, state_name(&entry.content).as_bytes()),
        EntryField::OfKey(field) => content_field(alloc, field, item, &entry.content),
    }
}

/// The field of its key.
///
/// Refuses, in order: `NoKey`, `NoSuchItem`.
fn content_field(
    alloc: Global,
    field: KeyField,
    item: usize,
    content: &AuthContent,
) -> Result<Vec<u8>, AuthFieldError>
    ensures { Gives AuthFieldError.NoMemory (λ bytes. bytes.items) result (content_field_of field item content.now) }
{
    match content {
        AuthContent::Key { options, key } => {
            key_field(alloc, field, item, options.as_slice(), key)
        }
        AuthContent::BadOptions | AuthContent::Unread(_) => Err(AuthFieldError::NoKey),
    }
}
