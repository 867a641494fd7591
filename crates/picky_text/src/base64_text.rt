//! Base64 as RFC 4648, section 4, writes it: padded, and nothing else.

ghost use Rattle.std.specs.Prelude.{◌≡◌, IfOk, IsErrOf, string_bytes};
ghost use Rattle.picky_text.specs.Base64.{base64_of, decoded};

use base64::DecodeAllocError;
use base64::engine::general_purpose::STANDARD;
use std::alloc::{AllocError, Global};

/// Why a body gives no bytes.
#[derive(Clone, Copy, Debug, PartialEq, Eq)]
pub enum Base64Error {
    /// The body is no canonical, padded base64.
    NotBase64,
    /// No memory was left.
    NoMemory,
}

/// The base64 text of the bytes. Refuses: want of memory.
#[tactic(auto, unfolding(crate::specs::Base64::base64_of))]
pub fn encode(alloc: Global, bytes: &[u8]) -> Result<String, AllocError>
    ensures text { IfOk result (λ t. string_bytes t ≡ base64_of bytes.now) }
{
    STANDARD.encode(alloc, bytes)
}

/// The bytes whose base64 text the body is. Refuses, in order: `NotBase64`, where it is no bytes' padded text
/// (RFC 4648, section 4); `NoMemory`.
#[tactic(auto, unfolding(crate::specs::Base64::decoded, base64::specs::GeneralPurpose::decoded_of))]
pub fn decode(alloc: Global, body: &[u8]) -> Result<Vec<u8>, Base64Error>
    ensures ok { IfOk result (λ v. decoded body.now ≡ Some v.items) }
    ensures not_base64 { IsErrOf result Base64Error.NotBase64 → decoded body.now ≡ None }
{
    match STANDARD.decode(alloc, body) {
        Ok(bytes) => Ok(bytes),
        Err(DecodeAllocError::OutOfMemory) => Err(Base64Error::NoMemory),
        Err(DecodeAllocError::DecodeError(_)) => Err(Base64Error::NotBase64),
    }
}
