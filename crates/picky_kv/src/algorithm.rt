//! The key's algorithm, by its name in SSH.

ghost use Rattle.std.specs.Prelude.{◌≡◌, IfOk, IsOk};
ghost use Rattle.picky_kv.specs.Algorithm.{algorithm_row, mpint_values_count};
ghost use Rattle.picky_kv.specs.AlgorithmField.{algorithm_field};

use crate::literals::{
    ANY_ALGORITHM, ECDSA_SHA2_NISTP256, ECDSA_SHA2_NISTP384, ECDSA_SHA2_NISTP521,
    PPK_KEY_ALGORITHM_VALUE, SSH_DSS, SSH_ED448, SSH_ED25519, SSH_RSA,
};
use picky_kv_words::{PpkField, PpkLiteral, PpkValueError, refused};
use picky_wire_base::{NoMemory, SizeError, Text, TryClone};
use std::alloc::Global;

/// The algorithm of the key.
#[derive(Clone, Copy, Debug, PartialEq, Eq)]
pub enum PpkKeyAlgorithmValue {
    Rsa,
    Dss,
    EcdsaSha2Nistp256,
    EcdsaSha2Nistp384,
    EcdsaSha2Nistp521,
    Ed25519,
    Ed448,
}

impl PpkKeyAlgorithmValue {
    /// How many mpints a private key of this algorithm has in a file.
    pub fn key_mpint_values_count(&self) -> usize
        ensures { result ≡ mpint_values_count self.now }
    {
        match self {
            PpkKeyAlgorithmValue::Rsa => 4,
            PpkKeyAlgorithmValue::Dss
            | PpkKeyAlgorithmValue::EcdsaSha2Nistp256
            | PpkKeyAlgorithmValue::EcdsaSha2Nistp384
            | PpkKeyAlgorithmValue::EcdsaSha2Nistp521
            | PpkKeyAlgorithmValue::Ed25519
            | PpkKeyAlgorithmValue::Ed448 => 1,
        }
    }
}

#[tactic(auto, unfolding(crate::specs::AlgorithmField::algorithm_field))]
impl PpkField for PpkKeyAlgorithmValue {
    ghost field = { algorithm_field };

    fn read(alloc: Global, text: &str) -> Result<PpkKeyAlgorithmValue, PpkValueError> {
        if text == SSH_RSA {
            return Ok(PpkKeyAlgorithmValue::Rsa);
        }
        if text == SSH_DSS {
            return Ok(PpkKeyAlgorithmValue::Dss);
        }
        if text == ECDSA_SHA2_NISTP256 {
            return Ok(PpkKeyAlgorithmValue::EcdsaSha2Nistp256);
        }
        if text == ECDSA_SHA2_NISTP384 {
            return Ok(PpkKeyAlgorithmValue::EcdsaSha2Nistp384);
        }
        if text == ECDSA_SHA2_NISTP521 {
            return Ok(PpkKeyAlgorithmValue::EcdsaSha2Nistp521);
        }
        if text == SSH_ED25519 {
            return Ok(PpkKeyAlgorithmValue::Ed25519);
        }
        if text == SSH_ED448 {
            return Ok(PpkKeyAlgorithmValue::Ed448);
        }
        Err(refused(alloc, ANY_ALGORITHM, text))
    }

    fn write(&self, alloc: Global) -> Result<Text, SizeError> {
        Text::new(alloc, self.as_static_str())
    }
}

#[tactic(auto, unfolding(crate::specs::AlgorithmField::algorithm_field))]
impl PpkLiteral for PpkKeyAlgorithmValue {
    ghost name = { algorithm_row.name };

    ghost literal = { algorithm_field.spelling };

    fn context() -> &'static str {
        PPK_KEY_ALGORITHM_VALUE
    }

    fn as_static_str(&self) -> &'static str {
        match self {
            PpkKeyAlgorithmValue::Rsa => SSH_RSA,
            PpkKeyAlgorithmValue::Dss => SSH_DSS,
            PpkKeyAlgorithmValue::EcdsaSha2Nistp256 => ECDSA_SHA2_NISTP256,
            PpkKeyAlgorithmValue::EcdsaSha2Nistp384 => ECDSA_SHA2_NISTP384,
            PpkKeyAlgorithmValue::EcdsaSha2Nistp521 => ECDSA_SHA2_NISTP521,
            PpkKeyAlgorithmValue::Ed25519 => SSH_ED25519,
            PpkKeyAlgorithmValue::Ed448 => SSH_ED448,
        }
    }
}

impl TryClone for PpkKeyAlgorithmValue {
    fn try_clone(&self, _alloc: Global) -> Result<PpkKeyAlgorithmValue, NoMemory>
        ensures ok { IfOk result (λ copy. copy ≡ self.now) }
        ensures always { IsOk result }
    {
        Ok(*self)
    }
}
