//! What a caller chooses to seal a private key under.

ghost use Rattle.std.specs.Prelude.{◌≡◌};
ghost use Rattle.picky_c.specs.Calls.{sealed_target};
ghost use Rattle.picky_c.specs.Sealing.{flavour_numbered, sealing_config as config_of, sealing_target as sealing_target_of};

use crate::error::PickyError;
use picky_ppk::{Argon2Flavour, PpkEncryptionConfig, PpkLayout, PpkVersion};
use picky_target::KeyTarget;

/// A private key's text, and what it is sealed under where there is a passphrase.
#[repr(C)]
#[derive(Clone, Copy)]
pub struct PickySealing {
    /// The number of a target that keeps the secret.
    pub target: u32,
    /// bcrypt-pbkdf's rounds, of an OpenSSH private key.
    pub rounds: u32,
    /// Argon2d, Argon2i or Argon2id, as 0, 1 or 2, of PuTTY's file of version 3; so are the numbers below.
    pub flavour: u32,
    /// KiB.
    pub memory: u32,
    pub passes: u32,
    pub lanes: u32,
    /// Bytes of salt.
    pub salt_len: u32,
}

/// The target that is sealed so. Refuses: `NoSuchSealing`.
pub fn target_of_sealing(sealing: &PickySealing) -> Result<KeyTarget, PickyError>
    ensures { result ≡ sealed_target sealing.now }
{
    match sealing_target(sealing) {
        Some(target) => Ok(target),
        None => Err(PickyError::NoSuchSealing),
    }
}

/// The same where there is one.
fn sealing_target(sealing: &PickySealing) -> Option<KeyTarget>
    ensures { result ≡ sealing_target_of sealing.now }
{
    if sealing.target == 1 {
        return Some(KeyTarget::OpenSsh(sealing.rounds));
    }
    let config = sealing_config(sealing)?;
    if sealing.target == 2 {
        return Some(KeyTarget::Ppk(PpkVersion::V2, config, PpkLayout::Number));
    }
    if sealing.target == 3 {
        return Some(KeyTarget::Ppk(PpkVersion::V3, config, PpkLayout::Number));
    }
    if sealing.target == 6 {
        return Some(KeyTarget::Ppk(PpkVersion::V2, config, PpkLayout::Putty));
    }
    if sealing.target == 7 {
        return Some(KeyTarget::Ppk(PpkVersion::V3, config, PpkLayout::Putty));
    }
    None
}

/// What Argon2 is run with.
fn sealing_config(sealing: &PickySealing) -> Option<PpkEncryptionConfig>
    ensures { result ≡ config_of sealing.now }
{
    let flavour = flavour_of(sealing.flavour)?;
    Some(PpkEncryptionConfig {
        argon2_flavour: flavour,
        argon2_memory: sealing.memory,
        argon2_passes: sealing.passes,
        argon2_parallelism: sealing.lanes,
        argon2_salt_size: sealing.salt_len,
    })
}

/// The kind of Argon2 with a number.
fn flavour_of(number: u32) -> Option<Argon2Flavour>
    ensures { result ≡ flavour_numbered number }
{
    if number == 0 {
        return Some(Argon2Flavour::Argon2d);
    }
    if number == 1 {
        return Some(Argon2Flavour::Argon2i);
    }
    if number == 2 {
        return Some(Argon2Flavour::Argon2id);
    }
    None
}
