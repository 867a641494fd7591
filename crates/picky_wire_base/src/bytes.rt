//! Byte strings and texts short enough for the wire, which contracts see as lists of bytes.

ghost use Rattle.std.specs.Prelude.{◌≡◌, ◌^◌, ◌<◌, ◌≤◌, ◌↔◌, ℕ, List, Some, length, nat_eq, refl, IfOk, IsErrOf};
ghost use Rattle.std.specs.Prelude.{IsUtf8, vec_len, string_bytes, string_len};
ghost use Rattle.std.specs.Cmp.{partial_equiv_from_equiv};
ghost use Rattle.std.specs.Cmp.Lexicographic.{pointwise, slice_cmp, nat_list_eq_equiv, nat_list_cmp_total, texts_po};
ghost use Rattle.std.specs.Cmp.Lexicographic.{texts_ties};
ghost use Rattle.std.specs.Ordering.{nat_cmp};

use crate::copy::TryClone;
use crate::error::{NoMemory, SizeError};
use std::alloc::Global;
use std::cmp::Ordering;
use std::marker::Model;

/// How many bytes a length of the wire can say at most (RFC 4251, section 5).
pub const MAX_LEN: usize = (1 << 32) - 1;

/// Fewer than 2^32 bytes.
#[derive(Debug, Drop)]
pub struct Bytes {
    vec: Vec<u8>,
}

impl Model for Bytes {
    ghost Value = { List ℕ };

    ghost view = { λ b. b.vec.items };

    ghost invariant = { λ b. vec_len b.vec < 2 ^ 32 };
}

impl Bytes {
    /// A copy of the bytes. Refuses, in order: `TooLong`, where there are 2^32 or more.
    pub fn new(alloc: Global, from: &[u8]) -> Result<Bytes, SizeError>
        ensures ok { IfOk result (λ bytes. bytes ≡ from.now) }
        ensures too_long { IsErrOf result SizeError.TooLong ↔ (2 ^ 32 ≤ length from.now) }
    {
        if from.len() > MAX_LEN {
            return Err(SizeError::TooLong);
        }
        match Vec::from_slice(alloc, from) {
            Ok(vec) => Ok(Bytes { vec }),
            Err(_) => Err(SizeError::NoMemory),
        }
    }

    /// The same bytes, without a copy.
    pub fn from_vec(vec: Vec<u8>) -> Bytes
        requires { vec_len vec < 2 ^ 32 }
        ensures { result ≡ vec.items }
    {
        Bytes { vec }
    }

    /// The same bytes, without a copy.
    pub fn into_vec(self) -> Vec<u8>
        ensures bytes { result.items ≡ self }
        ensures short { vec_len result < 2 ^ 32 }
    {
        let Bytes { vec } = self;
        vec
    }

    /// Its bytes.
    pub fn as_slice(&self) -> &[u8]
        ensures bytes { result.now ≡ self.now }
        ensures short { length result.now < 2 ^ 32 }
    {
        self.vec.as_slice()
    }
}

impl TryClone for Bytes {
    fn try_clone(&self, alloc: Global) -> Result<Bytes, NoMemory> {
        match Vec::from_slice(alloc, self.vec.as_slice()) {
            Ok(vec) => Ok(Bytes { vec }),
            Err(_) => Err(NoMemory),
        }
    }
}

impl PartialEq for Bytes {
    ghost eq = { pointwise nat_eq };

    ghost laws = { partial_equiv_from_equiv nat_list_eq_equiv };

    fn eq(&self, other: &Bytes) -> bool {
        self.vec.as_slice() == other.vec.as_slice()
    }
}

impl Eq for Bytes {
    ghost laws = { nat_list_eq_equiv };
}

impl PartialOrd for Bytes {
    ghost partial_cmp = { λ a b. Some (slice_cmp nat_cmp a b) };

    ghost laws = { texts_po };

    fn partial_cmp(&self, other: &Bytes) -> Option<Ordering> {
        Some(self.cmp(other))
    }
}

impl Ord for Bytes {
    ghost cmp = { slice_cmp nat_cmp };

    ghost total = { nat_list_cmp_total };

    ghost matches_partial_cmp = { λ a b. refl };

    ghost matches_eq = { texts_ties };

    fn cmp(&self, other: &Bytes) -> Ordering {
        self.vec.as_slice().cmp(other.vec.as_slice())
    }
}

/// A text of fewer than 2^32 bytes.
#[derive(Debug, Drop)]
pub struct Text {
    string: String,
}

impl Model for Text {
    ghost Value = { List ℕ };

    ghost view = { λ t. string_bytes t.string };

    ghost invariant = { λ t. string_len t.string < 2 ^ 32 };
}

impl Text {
    /// A copy of the text. Refuses, in order: `TooLong`, where it has 2^32 bytes or more.
    pub fn new(alloc: Global, from: &str) -> Result<Text, SizeError>
        ensures ok { IfOk result (λ text. text ≡ from.now) }
        ensures too_long { IsErrOf result SizeError.TooLong ↔ (2 ^ 32 ≤ length from.now) }
    {
        if from.len() > MAX_LEN {
            return Err(SizeError::TooLong);
        }
        match String::from_str(alloc, from) {
            Ok(string) => Ok(Text { string }),
            Err(_) => Err(SizeError::NoMemory),
        }
    }

    /// The same text, without a copy.
    pub fn from_string(string: String) -> Text
        requires { string_len string < 2 ^ 32 }
        ensures { result ≡ string_bytes string }
    {
        Text { string }
    }

    /// The same text, without a copy.
    pub fn into_string(self) -> String
        ensures bytes { string_bytes result ≡ self }
        ensures short { string_len result < 2 ^ 32 }
    {
        let Text { string } = self;
        string
    }

    /// Its text.
    pub fn as_str(&self) -> &str
        ensures bytes { result.now ≡ self.now }
        ensures short { length result.now < 2 ^ 32 }
        ensures utf8 { IsUtf8 self.now }
    {
        self.string.as_str()
    }
}

impl TryClone for Text {
    fn try_clone(&self, alloc: Global) -> Result<Text, NoMemory> {
        match String::from_str(alloc, self.string.as_str()) {
            Ok(string) => Ok(Text { string }),
            Err(_) => Err(NoMemory),
        }
    }
}

impl PartialEq for Text {
    ghost eq = { pointwise nat_eq };

    ghost laws = { partial_equiv_from_equiv nat_list_eq_equiv };

    fn eq(&self, other: &Text) -> bool {
        self.string.as_str() == other.string.as_str()
    }
}

impl Eq for Text {
    ghost laws = { nat_list_eq_equiv };
}

impl PartialOrd for Text {
    ghost partial_cmp = { λ a b. Some (slice_cmp nat_cmp a b) };

    ghost laws = { texts_po };

    fn partial_cmp(&self, other: &Text) -> Option<Ordering> {
        Some(self.cmp(other))
    }
}

impl Ord for Text {
    ghost cmp = { slice_cmp nat_cmp };

    ghost total = { nat_list_cmp_total };

    ghost matches_partial_cmp = { λ a b. refl };

    ghost matches_eq = { texts_ties };

    fn cmp(&self, other: &Text) -> Ordering {
        self.string.as_str().cmp(other.string.as_str())
    }
}
