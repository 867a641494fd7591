//! The public key that an algorithm names.

ghost use Rattle.std.specs.Prelude.{◌≡◌};
ghost use Rattle.picky_wire_base.specs.Gives.{Gives};
ghost use Rattle.picky_ppk_parts.specs.Algorithm.{same_curve as same_curve_of, key_under as key_under_of};
ghost use Rattle.picky_ppk_parts.specs.Algorithm.{rsa_of as rsa_from, ec_of as ec_from, ed_of as ed_from};
ghost use Rattle.picky_ppk_parts.specs.Algorithm.{curve_algorithm as curve_algorithm_of};

use crate::error::PuttyError;
use crate::names::PpkKeyAlgorithm;
use crate::unsupported::no_such_algorithm;
use picky_keys::{EcCurve, PublicKey, SshBasePublicKey};
use std::alloc::Global;

/// The key, where it is of the algorithm's kind and curve.
///
/// Refuses, in order: `NotSupported` (`unsupported key algorithm`) for DSS and Ed448; `PublicAndPrivateKeyMismatch`.
pub fn key_under(
    alloc: Global,
    algorithm: PpkKeyAlgorithm,
    key: SshBasePublicKey,
) -> Result<PublicKey, PuttyError>
    ensures { Gives PuttyError.NoMemory (λ key. key) result (key_under_of algorithm key) }
{
    match algorithm {
        PpkKeyAlgorithm::Rsa => rsa_of(key),
        PpkKeyAlgorithm::EcdsaSha2Nistp256 => ec_of(EcCurve::NistP256, key),
        PpkKeyAlgorithm::EcdsaSha2Nistp384 => ec_of(EcCurve::NistP384, key),
        PpkKeyAlgorithm::EcdsaSha2Nistp521 => ec_of(EcCurve::NistP521, key),
        PpkKeyAlgorithm::Ed25519 => ed_of(key),
        PpkKeyAlgorithm::Dss | PpkKeyAlgorithm::Ed448 => {
            drop(key);
            Err(no_such_algorithm(alloc))
        }
    }
}

/// The algorithm that names the keys on a curve.
pub fn curve_algorithm(curve: EcCurve) -> PpkKeyAlgorithm
    ensures { result ≡ curve_algorithm_of curve }
{
    match curve {
        EcCurve::NistP256 => PpkKeyAlgorithm::EcdsaSha2Nistp256,
        EcCurve::NistP384 => PpkKeyAlgorithm::EcdsaSha2Nistp384,
        EcCurve::NistP521 => PpkKeyAlgorithm::EcdsaSha2Nistp521,
    }
}

fn rsa_of(key: SshBasePublicKey) -> Result<PublicKey, PuttyError>
    ensures { result ≡ rsa_from key }
{
    match key {
        SshBasePublicKey::Rsa { e, n } => Ok(PublicKey::Rsa { e, n }),
        SshBasePublicKey::Ec { .. }
        | SshBasePublicKey::Ed { .. }
        | SshBasePublicKey::SkEcdsaSha2NistP256 { .. }
        | SshBasePublicKey::SkEd25519 { .. } => {
            drop(key);
            Err(PuttyError::PublicAndPrivateKeyMismatch)
        }
    }
}

fn ec_of(curve: EcCurve, key: SshBasePublicKey) -> Result<PublicKey, PuttyError>
    ensures { result ≡ ec_from curve key }
{
    match key {
        SshBasePublicKey::Ec {
            curve: other,
            point,
        } => {
            if !is_same_curve(curve, other) {
                return Err(PuttyError::PublicAndPrivateKeyMismatch);
            }
            Ok(PublicKey::Ec { curve, point })
        }
        SshBasePublicKey::Rsa { .. }
        | SshBasePublicKey::Ed { .. }
        | SshBasePublicKey::SkEcdsaSha2NistP256 { .. }
        | SshBasePublicKey::SkEd25519 { .. } => {
            drop(key);
            Err(PuttyError::PublicAndPrivateKeyMismatch)
        }
    }
}

fn ed_of(key: SshBasePublicKey) -> Result<PublicKey, PuttyError>
    ensures { result ≡ ed_from key }
{
    match key {
        SshBasePublicKey::Ed { key } => Ok(PublicKey::Ed { key }),
        SshBasePublicKey::Rsa { .. }
        | SshBasePublicKey::Ec { .. }
        | SshBasePublicKey::SkEcdsaSha2NistP256 { .. }
        | SshBasePublicKey::SkEd25519 { .. } => {
            drop(key);
            Err(PuttyError::PublicAndPrivateKeyMismatch)
        }
    }
}

fn is_same_curve(curve: EcCurve, other: EcCurve) -> bool
    ensures { result ≡ same_curve_of curve other }
{
    match curve {
        EcCurve::NistP256 => matches!(other, EcCurve::NistP256),
        EcCurve::NistP384 => matches!(other, EcCurve::NistP384),
        EcCurve::NistP521 => matches!(other, EcCurve::NistP521),
    }
}
