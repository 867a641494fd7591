//! A field of authorized keys, by its number.

ghost use Rattle.std.specs.Prelude.{◌≡◌};
ghost use Rattle.picky_wire_base.specs.Gives.{Gives};
ghost use Rattle.picky_c.specs.AuthorizedPart.{authorized_part_in, keys_refusal as keys_refusal_of};

use crate::error::PickyError;
use picky_authorized_field::{AuthFieldError, authorized_field, field_by_number};
use picky_target::ConvertError;
use std::alloc::Global;

/// The field with a number of authorized keys: of an entry, that of the one at the place, and of an option, that of the one at
/// its place.
///
/// Refuses, in order: `NoSuchPart`, and as `picky_authorized_field::authorized_field`.
pub fn authorized_part(
    alloc: Global,
    text: &[u8],
    part: u32,
    place: usize,
    option: usize,
) -> Result<Vec<u8>, PickyError>
    ensures { Gives PickyError.NoMemory (λ bytes. bytes.items) result (authorized_part_in text.now part place option) }
{
    let field = match field_by_number(part) {
        Some(field) => field,
        None => return Err(PickyError::NoSuchPart),
    };
    match authorized_field(alloc, text, field, place, option) {
        Ok(bytes) => Ok(bytes),
        Err(e) => Err(keys_refusal(e)),
    }
}

/// A field's refusal as a call's.
fn keys_refusal(e: AuthFieldError) -> PickyError
    ensures { result ≡ keys_refusal_of e }
{
    match e {
        AuthFieldError::NotUtf8 => PickyError::TextNotUtf8,
        AuthFieldError::TooLong => PickyError::Refused(ConvertError::TooLong),
        AuthFieldError::NoSuchPlace => PickyError::NoSuchPlace,
        AuthFieldError::NoKey => PickyError::NoKey,
        AuthFieldError::NoSuchItem => PickyError::NoSuchOption,
        AuthFieldError::NoMemory => PickyError::NoMemory,
    }
}
