//! Several things at once, as fields of the wire.

ghost use Rattle.std.specs.Prelude.{◌≡◌, ◌++◌, ◌^◌, ◌<◌, Err, IfOk, OnOk, false, length, true};
ghost use Rattle.std.specs.Int.{to_be_bytes, w32};
ghost use Rattle.picky_wire_base.specs.Gives.{Gives};
ghost use Rattle.picky_wire_base.specs.Wire.{string_of};
ghost use Rattle.picky_authorized_field.specs.Layout.{comment_in as comment_of, entries_bytes as entries_bytes_of, entry_bytes};
ghost use Rattle.picky_authorized_field.specs.Layout.{blob_in as blob_of_content, is_sayable as is_sayable_entry};
ghost use Rattle.picky_authorized_field.specs.Layout.{option_bytes, options_bytes as options_bytes_of, value_flag as flag_of, value_or_none};

use crate::error::AuthFieldError;
use crate::state::state_name;
use picky_authorized::{AuthContent, AuthEntry, AuthOption};
use picky_keys::bytes_of;
use picky_wire::{MAX_LEN, NoMemory, Piece, SizeError, Text, push_pieces};
use std::alloc::{AllocError, Global};

/// All options, one after another.
pub fn options_bytes(alloc: Global, options: &[AuthOption]) -> Result<Vec<u8>, AllocError>
    ensures { IfOk result (λ bytes. bytes.items ≡ options_bytes_of options.now) }
{
    let mut bytes = Vec::new(alloc);
    let mut rest = options;
    'options: while let [option, more @ ..] = rest {
        push_option(&mut bytes, option)?;
        rest = more;
    }
    Ok(bytes)
}

/// Adds an option: its name, whether it has a value, and the value.
fn push_option(bytes: &mut Vec<u8>, option: &AuthOption) -> Result<(), AllocError>
    ensures { OnOk result (bytes.new.items ≡ bytes.old.items ++ option_bytes option.now) }
{
    let (flag, value) = value_of(&option.value);
    push_pieces(
        bytes,
        &[
            Piece::text(&option.name),
            Piece::byte(flag),
            Piece::string(value),
        ],
    )
}

/// Whether there is a value, as a number, and the value; no bytes where there is none.
fn value_of(value: &Option<Text>) -> (u8, &[u8])
    ensures flag { result.0 ≡ flag_of value.now }
    ensures value { result.1.now ≡ value_or_none value.now }
    ensures short { length result.1.now < 2 ^ 32 }
{
    match value {
        Some(value) => (1, value.as_str().as_bytes()),
        None => (0, &[]),
    }
}

/// All entries, one after another.
///
/// Refuses, in order: `TooLong`, where the number of a line or the length of a blob is 2^32 or more.
pub fn entries_bytes(alloc: Global, entries: &[AuthEntry]) -> Result<Vec<u8>, AuthFieldError>
    ensures { Gives AuthFieldError.NoMemory (λ bytes. bytes.items) result (entries_bytes_of entries.now) }
{
    let mut bytes = Vec::new(alloc);
    let mut rest = entries;
    'entries: while let [entry, more @ ..] = rest {
        match push_entry(alloc, &mut bytes, entry) {
            Ok(()) => rest = more,
            Err(SizeError::TooLong) => return Err(AuthFieldError::TooLong),
            Err(SizeError::NoMemory) => return Err(AuthFieldError::NoMemory),
        }
    }
    Ok(bytes)
}

/// Adds an entry: the number of its line, its state, its key's blob and the comment.
///
/// Refuses, in order: `TooLong`, where that number or the blob's length is 2^32 or more.
fn push_entry(alloc: Global, bytes: &mut Vec<u8>, entry: &AuthEntry) -> Result<(), SizeError>
    ensures said { OnOk result (bytes.new.items ≡ bytes.old.items ++ entry_bytes entry.now) }
    ensures sayable { OnOk result (is_sayable_entry entry.now ≡ true) }
    ensures too_long { result ≡ Err SizeError.TooLong → is_sayable_entry entry.now ≡ false }
{
    let blob = match blob_in(alloc, &entry.content) {
        Ok(blob) => blob,
        Err(NoMemory) => return Err(SizeError::NoMemory),
    };
    if entry.line > MAX_LEN || blob.len() > MAX_LEN {
        return Err(SizeError::TooLong);
    }
    let state = state_name(&entry.content).as_bytes();
    let comment = comment_in(&entry.content);
    match push_fields(bytes, entry.line as u32, state, blob.as_slice(), comment) {
        Ok(()) => Ok(()),
        Err(_) => Err(SizeError::NoMemory),
    }
}

/// Adds a number and three strings.
fn push_fields<'a>(
    bytes: &mut Vec<u8>,
    line: u32,
    state: &'a [u8],
    blob: &'a [u8],
    comment: &'a [u8],
) -> Result<(), AllocError>
    requires state { length state.now < 2 ^ 32 }
    requires blob { length blob.now < 2 ^ 32 }
    requires comment { length comment.now < 2 ^ 32 }
    ensures { OnOk result (bytes.new.items ≡ bytes.old.items
        ++ (to_be_bytes w32 line ++ string_of state.now ++ string_of blob.now ++ string_of comment.now)) }
{
    push_pieces(
        bytes,
        &[
            Piece::uint32(line),
            Piece::string(state),
            Piece::string(blob),
            Piece::string(comment),
        ],
    )
}

/// The blob of the entry's key; no bytes where it has none. Refuses: `NoMemory`.
fn blob_in(alloc: Global, content: &AuthContent) -> Result<Vec<u8>, NoMemory>
    ensures { IfOk result (λ blob. blob.items ≡ blob_of_content content.now) }
{
    match content {
        AuthContent::Key { key, .. } => bytes_of(alloc, &key.inner_key),
        AuthContent::BadOptions | AuthContent::Unread(_) => Ok(Vec::new(alloc)),
    }
}

/// The comment beside it.
fn comment_in(content: &AuthContent) -> &[u8]
    ensures comment { result.now ≡ comment_of content.now }
    ensures short { length result.now < 2 ^ 32 }
{
    match content {
        AuthContent::Key { key, .. } => key.comment.as_str().as_bytes(),
        AuthContent::BadOptions | AuthContent::Unread(_) => &[],
    }
}
