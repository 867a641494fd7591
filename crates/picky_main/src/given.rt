//! What a program is given beside its standard streams.

ghost use Rattle.std.specs.Prelude.{◌≡◌, ◌^◌, ◌≤◌, [], List, ℕ, Some, None, Ok, length, unwrap_or, IfOk, IsErrOf};
ghost use Rattle.std.specs.Prelude.{MatchOption};
ghost use Rattle.hex.specs.Hex.{decode_of};

use hex::FromHexError;
use picky_wire_base::{Bytes, MAX_LEN, SizeError, Text};
use std::alloc::Global;
use std::env;
use std::env::VarError;
use std::io::ErrorKind;
use std::rt::Env;

/// Why a word or a variable can't be taken.
#[derive(Debug, Drop, PartialEq, Eq)]
pub enum GivenError {
    /// It isn't UTF-8, has 2^32 bytes or more, or isn't hex where that is wanted.
    Unfit,
    /// Memory ran out.
    NoMemory,
}

/// The words of the command line behind the program's name. Refuses: `Unfit`.
pub fn words(rt: &(impl Env + AllocGlobal)) -> Result<Vec<Text>, GivenError> {
    let mut words = Vec::new(rt.alloc());
    let args = match env::args(rt) {
        Ok(args) => args,
        Err(e) if e.kind() == ErrorKind::OutOfMemory => return Err(GivenError::NoMemory),
        Err(_) => return Err(GivenError::Unfit),
    };
    for arg in args.skip(1) {
        let word = match Text::new(rt.alloc(), arg.as_str()) {
            Ok(word) => word,
            Err(SizeError::TooLong) => return Err(GivenError::Unfit),
            Err(SizeError::NoMemory) => return Err(GivenError::NoMemory),
        };
        if words.push(word).is_err() {
            return Err(GivenError::NoMemory);
        }
    }
    Ok(words)
}

/// The value of a variable of the environment, where it has one. Refuses: `Unfit`.
pub fn variable(rt: &(impl Env + AllocGlobal), name: &str) -> Result<Option<Text>, GivenError> {
    match env::var(rt, name) {
        Ok(value) if value.len() > MAX_LEN => Err(GivenError::Unfit),
        Ok(value) => Ok(Some(Text::from_string(value))),
        Err(VarError::NotPresent) => Ok(None),
        Err(VarError::NotUnicode) => Err(GivenError::Unfit),
        Err(VarError::OutOfMemory) => Err(GivenError::NoMemory),
    }
}

/// The bytes that a variable of the environment says in hex, where it has a value. Refuses: `Unfit`.
pub fn hex_variable(
    rt: &(impl Env + AllocGlobal),
    name: &str,
) -> Result<Option<Bytes>, GivenError> {
    match variable(rt, name) {
        Ok(Some(digits)) => match bytes_of_hex(rt.alloc(), digits.as_str()) {
            Ok(bytes) => Ok(Some(bytes)),
            Err(e) => Err(e),
        },
        Ok(None) => Ok(None),
        Err(e) => Err(e),
    }
}

/// The bytes that the digits say, two digits a byte, of either case (RFC 4648, section 8). Refuses: `Unfit`.
pub fn bytes_of_hex(alloc: Global, digits: &str) -> Result<Bytes, GivenError>
    ensures ok { IfOk result (λ bytes. decode_of digits.now ≡ Ok bytes) }
    ensures unfit { IsErrOf result GivenError.Unfit → (bytes : List ℕ) → decode_of digits.now ≡ Ok bytes → 2 ^ 32 ≤ length bytes }
{
    match hex::decode(alloc, digits) {
        Ok(bytes) if bytes.len() > MAX_LEN => Err(GivenError::Unfit),
        Ok(bytes) => Ok(Bytes::from_vec(bytes)),
        Err(FromHexError::OutOfMemory) => Err(GivenError::NoMemory),
        Err(FromHexError::OddLength)
        | Err(FromHexError::InvalidHexCharacter { .. })
        | Err(FromHexError::InvalidStringLength) => Err(GivenError::Unfit),
    }
}

/// The text, where one is given.
pub fn text_given(value: &Option<Text>) -> Option<&str>
    ensures { MatchOption result (value.now ≡ None) (λ text. value.now ≡ Some text.now) }
{
    match value {
        Some(text) => Some(text.as_str()),
        None => None,
    }
}

/// The bytes: none where none are given.
pub fn bytes_given(value: &Option<Bytes>) -> &[u8]
    ensures { result.now ≡ unwrap_or value.now [] }
{
    match value {
        Some(bytes) => bytes.as_slice(),
        None => &[],
    }
}
