//! What a caller gives: bytes, and texts among them.

ghost use Rattle.std.specs.Prelude.{◌≡◌, true, false, map, Ok, MatchOption};
ghost use Rattle.std.specs.Option.{option_copied};
ghost use Rattle.std.specs.Str.{is_utf8};
ghost use Rattle.picky_wire_base.specs.Gives.{Gives};
ghost use Rattle.picky_c.specs.Given.{bytes_given, pass_of};

use crate::error::PickyError;
use picky_utf8::as_text;
use std::alloc::Global;

/// Bytes that the caller keeps.
#[repr(C)]
#[derive(Clone, Copy)]
pub struct PickyBytes<'a> {
    pub bytes: &'a [u8],
}

/// The bytes of each. Refuses: `NoMemory`.
pub fn bytes_of<'a>(alloc: Global, given: &[PickyBytes<'a>]) -> Result<Vec<&'a [u8]>, PickyError>
    ensures { Gives PickyError.NoMemory (λ list. map (λ bytes. bytes.now) list.items) result (Ok (bytes_given given.now)) }
{
    let mut list = Vec::new(alloc);
    'given: for it in given.iter() {
        match list.push(it.bytes) {
            Ok(()) => {}
            Err(_) => return Err(PickyError::NoMemory),
        }
    }
    Ok(list)
}

/// What a conversion has beside its target, as bytes.
#[derive(Clone, Copy)]
pub struct Given<'a> {
    pub text: &'a [u8],
    pub pass_in: &'a [u8],
    pub pass_out: &'a [u8],
    pub fresh: &'a [u8],
    pub answers: &'a [u8],
}

/// The bytes as a passphrase, where they are UTF-8; no bytes are none.
pub fn as_pass(bytes: &[u8]) -> Option<Option<&str>>
    ensures { MatchOption result (is_utf8 bytes.now ≡ false)
        (λ pass. (option_copied pass ≡ pass_of bytes.now) × (is_utf8 bytes.now ≡ true)) }
{
    match as_text(bytes) {
        Some(text) if text.is_empty() => Some(None),
        Some(text) => Some(Some(text)),
        None => None,
    }
}
