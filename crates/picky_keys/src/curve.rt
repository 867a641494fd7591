//! The curves and the Edwards algorithm, with the names that SSH has for them.

ghost use Rattle.std.specs.Prelude.{◌≡◌, ◌≤◌, IfOk, IsOk, length};

use crate::{key_identifier, key_type};
use picky_wire::{NoMemory, TryClone};
use std::alloc::Global;

/// A curve of ECDSA (RFC 5656, section 10.1).
#[derive(Clone, Copy, Debug, PartialEq, Eq)]
pub enum EcCurve {
    NistP256,
    NistP384,
    NistP521,
}

impl TryClone for EcCurve {
    fn try_clone(&self, _alloc: Global) -> Result<EcCurve, NoMemory>
        ensures ok { IfOk result (λ copy. copy ≡ self.now) }
        ensures always { IsOk result }
    {
        Ok(*self)
    }
}

/// A signature algorithm on an Edwards curve (RFC 8709).
#[derive(Clone, Copy, Debug, PartialEq, Eq)]
pub enum EdAlgorithm {
    Ed25519,
}

impl TryClone for EdAlgorithm {
    fn try_clone(&self, _alloc: Global) -> Result<EdAlgorithm, NoMemory>
        ensures ok { IfOk result (λ copy. copy ≡ self.now) }
        ensures always { IsOk result }
    {
        Ok(*self)
    }
}

/// A curve's names.
pub trait EcCurveSshExt {
    // the name of the key type, and of the curve
    ghost use Rattle.std.specs.Prelude.{ℕ, List};

    ghost key_type_name: { Self → List ℕ };

    ghost identifier_name: { Self → List ℕ };

    /// The name of the key type on this curve (RFC 5656, section 6.2).
    fn to_ecdsa_ssh_key_type(&self) -> &'static str
        ensures name { result.now ≡ key_type_name self.now }
        ensures short { length result.now ≤ 64 };

    /// The name of the curve (RFC 5656, section 6.1).
    fn to_ecdsa_ssh_key_identifier(&self) -> &'static str
        ensures name { result.now ≡ identifier_name self.now }
        ensures short { length result.now ≤ 64 };
}

/// An Edwards algorithm's name.
pub trait EdAlgorithmSshExt {
    ghost use Rattle.std.specs.Prelude.{ℕ, List};

    ghost key_type_name: { Self → List ℕ };

    /// The name of the key type (RFC 8709, section 4).
    fn to_ed_ssh_key_type(&self) -> &'static str
        ensures name { result.now ≡ key_type_name self.now }
        ensures short { length result.now ≤ 64 };
}

#[tactic(auto, unfolding(crate::specs::KeyNames::curve_key_type, crate::specs::KeyNames::curve_identifier))]
impl EcCurveSshExt for EcCurve {
    ghost use Rattle.picky_keys.specs.KeyNames.{curve_key_type, curve_identifier};

    ghost key_type_name = { curve_key_type };

    ghost identifier_name = { curve_identifier };

    fn to_ecdsa_ssh_key_type(&self) -> &'static str {
        match self {
            EcCurve::NistP256 => key_type::ECDSA_SHA2_NIST_P256,
            EcCurve::NistP384 => key_type::ECDSA_SHA2_NIST_P384,
            EcCurve::NistP521 => key_type::ECDSA_SHA2_NIST_P521,
        }
    }

    fn to_ecdsa_ssh_key_identifier(&self) -> &'static str {
        match self {
            EcCurve::NistP256 => key_identifier::ECDSA_SHA2_NIST_P256,
            EcCurve::NistP384 => key_identifier::ECDSA_SHA2_NIST_P384,
            EcCurve::NistP521 => key_identifier::ECDSA_SHA2_NIST_P521,
        }
    }
}

#[tactic(auto, unfolding(crate::specs::KeyNames::ed_key_type))]
impl EdAlgorithmSshExt for EdAlgorithm {
    ghost use Rattle.picky_keys.specs.KeyNames.{ed_key_type};

    ghost key_type_name = { ed_key_type };

    fn to_ed_ssh_key_type(&self) -> &'static str {
        match self {
            EdAlgorithm::Ed25519 => key_type::ED25519,
        }
    }
}
