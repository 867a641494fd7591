//! What a key text is converted to, by number.

ghost use Rattle.std.specs.Prelude.{◌≡◌};
ghost use Rattle.picky_ppk_parts.specs.Config.{default_config};
ghost use Rattle.picky_c.specs.Calls.{numbered_target};
ghost use Rattle.picky_c.specs.Target.{target_numbered as target_numbered_of};

use crate::error::PickyError;
use picky_ppk::{PpkEncryptionConfig, PpkLayout, PpkVersion};
use picky_target::{DEFAULT_ROUNDS, KeyTarget};

/// The target of a number. Refuses: `NoSuchTarget`.
pub fn target_of(number: u32) -> Result<KeyTarget, PickyError>
    ensures { result ≡ numbered_target number }
{
    match target_numbered(number) {
        Some(target) => Ok(target),
        None => Err(PickyError::NoSuchTarget),
    }
}

/// The same where there is one; OpenSSH's key is sealed with 16 rounds, and PuTTY's files with the default configuration.
fn target_numbered(number: u32) -> Option<KeyTarget>
    ensures { result ≡ target_numbered_of number }
{
    if number == 1 {
        return Some(KeyTarget::OpenSsh(DEFAULT_ROUNDS));
    }
    if number == 2 {
        return Some(file_of(PpkVersion::V2, PpkLayout::Number));
    }
    if number == 3 {
        return Some(file_of(PpkVersion::V3, PpkLayout::Number));
    }
    if number == 4 {
        return Some(KeyTarget::OpenSshPublic);
    }
    if number == 5 {
        return Some(KeyTarget::PuttyPublic);
    }
    if number == 6 {
        return Some(file_of(PpkVersion::V2, PpkLayout::Putty));
    }
    if number == 7 {
        return Some(file_of(PpkVersion::V3, PpkLayout::Putty));
    }
    None
}

/// PuTTY's private key file of a version, in a layout.
fn file_of(version: PpkVersion, layout: PpkLayout) -> KeyTarget
    ensures { result ≡ KeyTarget.Ppk version default_config layout }
{
    KeyTarget::Ppk(version, PpkEncryptionConfig::default(), layout)
}
