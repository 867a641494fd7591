//! How many bits a public key has.

ghost use Rattle.std.specs.Prelude.{◌≡◌, ◌^◌, ◌<◌, length};
ghost use Rattle.picky_shown.specs.Bits.{bit_len as bit_len_of, curve_bits as curve_bits_of, key_bits as key_bits_of};

use picky_keys::{EcCurve, SshBasePublicKey};

/// How many bits the key has: of RSA those of the modulus n, and else those of the curve's field, which are 256 of Ed25519 and of
/// security keys.
pub fn key_bits(key: &SshBasePublicKey) -> usize
    ensures { result ≡ key_bits_of key.now }
{
    match key {
        SshBasePublicKey::Rsa { n, .. } => bit_len(n.bytes()),
        SshBasePublicKey::Ec { curve, .. } => curve_bits(*curve),
        SshBasePublicKey::Ed { .. }
        | SshBasePublicKey::SkEcdsaSha2NistP256 { .. }
        | SshBasePublicKey::SkEd25519 { .. } => 256,
    }
}

/// How many bits the number of these bytes has, which begin with no zero.
fn bit_len(bytes: &[u8]) -> usize
    requires { length bytes.now < 2 ^ 32 }
    ensures { result ≡ bit_len_of bytes.now }
{
    match bytes.split_first() {
        Some((first, more)) => (8 - first.leading_zeros()) as usize + 8 * more.len(),
        None => 0,
    }
}

/// How many bits the curve's field has.
fn curve_bits(curve: EcCurve) -> usize
    ensures { result ≡ curve_bits_of curve }
{
    match curve {
        EcCurve::NistP256 => 256,
        EcCurve::NistP384 => 384,
        EcCurve::NistP521 => 521,
    }
}
