//! Multiple precision integers that aren't negative (RFC 4251, section 5).

ghost use Rattle.std.specs.Prelude.{◌≡◌, ◌^◌, ◌-◌, ◌<◌, ◌≤◌, ◌↔◌, ℕ, List, length, nat_eq, IfOk, IfErr, IsErrOf, vec_len};
ghost use Rattle.std.specs.Cmp.{partial_equiv_from_equiv};
ghost use Rattle.std.specs.Cmp.Lexicographic.{pointwise, nat_list_eq_equiv};
ghost use Rattle.picky_wire_base.specs.Zeros.{without_zeros};
ghost use Rattle.picky_wire_base.specs.Magnitude.{IsMagnitude};

use crate::bytes::MAX_LEN;
use crate::copy::TryClone;
use crate::error::{NoMemory, SizeError};
use std::alloc::Global;
use std::marker::Model;

/// A number, as its bytes: most significant first, none of them a leading zero, fewer than 2^32 - 1.
#[derive(Debug, Drop)]
pub struct Mpint {
    vec: Vec<u8>,
}

impl Model for Mpint {
    ghost Value = { List ℕ };

    ghost view = { λ m. m.vec.items };

    ghost invariant = { λ m. IsMagnitude m.vec.items };
}

impl Mpint {
    /// The number of these bytes. Refuses, in order: `TooLong`, where 2^32 - 1 or more are left
    /// without the leading zeros.
    #[tactic(auto, using(crate::proofs::MpintLemmas::rest_is_mpint))]
    pub fn from_be(alloc: Global, from: &[u8]) -> Result<Mpint, SizeError>
        ensures ok { IfOk result (λ number. number ≡ without_zeros from.now) }
        ensures mpint { IfOk result IsMagnitude }
        ensures too_long { IsErrOf result SizeError.TooLong
            ↔ (2 ^ 32 - 1 ≤ length (without_zeros from.now)) }
    {
        let number = after_zeros(from);
        if number.len() >= MAX_LEN {
            return Err(SizeError::TooLong);
        }
        match Vec::from_slice(alloc, number) {
            Ok(vec) => Ok(Mpint { vec }),
            Err(_) => Err(SizeError::NoMemory),
        }
    }

    /// The number of these bytes, which takes no memory. Refuses as `from_be`, and nothing else.
    pub fn from_vec(vec: Vec<u8>) -> Result<Mpint, SizeError>
        ensures ok { IfOk result (λ number. number ≡ without_zeros vec.items) }
        ensures mpint { IfOk result IsMagnitude }
        ensures too_long { IsErrOf result SizeError.TooLong
            ↔ (2 ^ 32 - 1 ≤ length (without_zeros vec.items)) }
        ensures no_other { IfErr result (λ e. e ≡ SizeError.TooLong) }
    {
        let kept = after_zeros(vec.as_slice()).len();
        if kept >= MAX_LEN {
            return Err(SizeError::TooLong);
        }
        let mut vec = vec;
        vec.rotate_left(vec.len() - kept);
        vec.truncate(kept);
        Ok(Mpint { vec })
    }

    /// Its bytes. Zero has none.
    pub fn bytes(&self) -> &[u8]
        ensures bytes { result.now ≡ self.now }
        ensures mpint { IsMagnitude self.now }
    {
        self.vec.as_slice()
    }

    /// Its bytes, which are given back.
    pub fn into_vec(self) -> Vec<u8>
        ensures bytes { result.items ≡ self }
        ensures mpint { IsMagnitude self }
    {
        self.vec
    }
}

impl TryClone for Mpint {
    fn try_clone(&self, alloc: Global) -> Result<Mpint, NoMemory> {
        match Vec::from_slice(alloc, self.vec.as_slice()) {
            Ok(vec) => Ok(Mpint { vec }),
            Err(_) => Err(NoMemory),
        }
    }
}

impl PartialEq for Mpint {
    ghost eq = { pointwise nat_eq };

    ghost laws = { partial_equiv_from_equiv nat_list_eq_equiv };

    fn eq(&self, other: &Mpint) -> bool {
        self.vec.as_slice() == other.vec.as_slice()
    }
}

impl Eq for Mpint {
    ghost laws = { nat_list_eq_equiv };
}

/// The bytes from the first that isn't zero.
pub(crate) fn after_zeros(bytes: &[u8]) -> &[u8]
    ensures { result.now ≡ without_zeros bytes.now }
{
    let mut rest = bytes;
    'zeros: while let Some((0, more)) = rest.split_first() {
        rest = more;
    }
    rest
}
