//! Inventories of key texts.

ghost use Rattle.std.specs.Prelude.{◌≡◌};
ghost use Rattle.picky_wire_base.specs.Gives.{Gives};
ghost use Rattle.picky_c.specs.Given.{bytes_given};
ghost use Rattle.picky_c.specs.Inventory.{cause_refusal as refusal_of_cause, check_told, list_told, merge_told};
ghost use Rattle.picky_c.specs.Told.{AnswersTold, seen};

use crate::answer::PickyAnswer;
use crate::error::{PickyError, refusal};
use crate::given::{PickyBytes, bytes_of};
use crate::told::{Told, hand_told, told_of, whole};
use picky_conversion::input_refusal;
use picky_inventory_texts::{
    CheckError, ListError, MergeError, TextCause, check_piece, list_texts, merge_two,
};
use std::alloc::Global;

/// The inventory of texts, each its own, under the word `sealed` with the encrypted private keys, unless `sealed` is 0.
///
/// Refuses the first text that isn't listed, with its place, counted from 0, in decimal: `TextNotUtf8`, or as
/// `picky_inventory_texts::list_texts`; and `BufferTooSmall`, also where a place has no room.
#[unsafe(no_mangle)]
pub extern "C" fn picky_inventory_list(
    alloc: Global,
    texts: &[PickyBytes<'_>],
    sealed: u32,
    out: &mut [u8],
) -> PickyAnswer
    ensures { AnswersTold (list_told (bytes_given texts.now) sealed) result out.old out.new }
{
    hand_told(listed(alloc, texts, sealed), out)
}

/// Two inventories, merged.
///
/// Refuses, in order: `LeftNotUtf8`, `RightNotUtf8`, `BadLine` with the line's number, counted from 1 over both, in decimal;
/// `BufferTooSmall`.
#[unsafe(no_mangle)]
pub extern "C" fn picky_inventory_merge(
    alloc: Global,
    left: PickyBytes<'_>,
    right: PickyBytes<'_>,
    out: &mut [u8],
) -> PickyAnswer
    ensures { AnswersTold (merge_told left.entry.bytes.now right.entry.bytes.now) result out.old out.new }
{
    hand_told(merged(alloc, left.bytes, right.bytes), out)
}

/// The last line of a piece of an inventory that is in order behind the line `before`; no bytes are none.
///
/// Refuses, in order: `TextNotUtf8`, `BadLine` with the line's number, counted from 1 in the piece, in decimal; `BufferTooSmall`.
#[unsafe(no_mangle)]
pub extern "C" fn picky_inventory_check(
    alloc: Global,
    piece: PickyBytes<'_>,
    before: PickyBytes<'_>,
    out: &mut [u8],
) -> PickyAnswer
    ensures { AnswersTold (check_told piece.entry.bytes.now before.entry.bytes.now) result out.old out.new }
{
    hand_told(checked(alloc, piece.bytes, before.bytes), out)
}

/// The inventory of what the caller gives. Refuses as `picky_inventory_list`.
fn listed(alloc: Global, given: &[PickyBytes<'_>], sealed: u32) -> Result<Told, PickyError>
    ensures { Gives PickyError.NoMemory seen result (list_told (bytes_given given.now) sealed) }
{
    let texts = match bytes_of(alloc, given) {
        Ok(texts) => texts,
        Err(e) => return Err(e),
    };
    match list_texts(alloc, texts.as_slice(), sealed != 0) {
        Ok(written) => Ok(whole(written)),
        Err(ListError::Text(place, cause)) => told_of(alloc, cause_refusal(cause), place),
        Err(ListError::NoMemory) => Err(PickyError::NoMemory),
    }
}

/// Why a text isn't listed, as a call's refusal.
fn cause_refusal(cause: TextCause) -> PickyError
    ensures { result ≡ refusal_of_cause cause }
{
    match cause {
        TextCause::NotUtf8 => PickyError::TextNotUtf8,
        TextCause::Unread(e) => refusal(input_refusal(e)),
    }
}

/// Two inventories, merged. Refuses as `picky_inventory_merge`.
fn merged(alloc: Global, left: &[u8], right: &[u8]) -> Result<Told, PickyError>
    ensures { Gives PickyError.NoMemory seen result (merge_told left.now right.now) }
{
    match merge_two(alloc, left, right) {
        Ok(written) => Ok(whole(written)),
        Err(MergeError::LeftNotUtf8) => Err(PickyError::LeftNotUtf8),
        Err(MergeError::RightNotUtf8) => Err(PickyError::RightNotUtf8),
        Err(MergeError::BadLine(line)) => told_of(alloc, PickyError::BadLine, line),
        Err(MergeError::NoMemory) => Err(PickyError::NoMemory),
    }
}

/// The last line of a piece. Refuses as `picky_inventory_check`.
fn checked(alloc: Global, piece: &[u8], before: &[u8]) -> Result<Told, PickyError>
    ensures { Gives PickyError.NoMemory seen result (check_told piece.now before.now) }
{
    match check_piece(alloc, piece, before) {
        Ok(last) => Ok(whole(last)),
        Err(CheckError::NotUtf8) => Err(PickyError::TextNotUtf8),
        Err(CheckError::BadLine(line)) => told_of(alloc, PickyError::BadLine, line),
        Err(CheckError::NoMemory) => Err(PickyError::NoMemory),
    }
}
