//! Texts that a key keeps.

ghost use Rattle.std.specs.Prelude.{◌≡◌, ◌^◌, ◌<◌, Ok, Err, length, IfOk, if◌then◌else◌};
ghost use Rattle.std.specs.Option.{option_copied};
ghost use Rattle.picky_wire_base.specs.Gives.{Gives};
ghost use Rattle.picky_keys.specs.LineRefusal.{is_short, is_short_text};

use picky_sshkey_blob::SshPrivateKeyError;
use picky_wire::{NoMemory, SizeError, Text};
use std::alloc::Global;

/// A text that is kept. Refuses, in order: `TooLong`, where it has 2^32 bytes or more.
pub fn kept_text(alloc: Global, text: &str) -> Result<Text, SshPrivateKeyError>
    ensures { Gives SshPrivateKeyError.NoMemory (λ text. text) result
        (if is_short text.now then Ok text.now else Err SshPrivateKeyError.TooLong) }
{
    match Text::new(alloc, text) {
        Ok(text) => Ok(text),
        Err(SizeError::TooLong) => Err(SshPrivateKeyError::TooLong),
        Err(SizeError::NoMemory) => Err(SshPrivateKeyError::NoMemory),
    }
}

/// The same of a passphrase, where there is one. Refuses as `kept_text`.
pub fn kept_pass(alloc: Global, pass: Option<&str>) -> Result<Option<Text>, SshPrivateKeyError>
    ensures { Gives SshPrivateKeyError.NoMemory (λ pass. pass) result
        (if is_short_text (option_copied pass.entry) then Ok (option_copied pass.entry) else Err SshPrivateKeyError.TooLong) }
{
    match pass {
        Some(pass) => match kept_text(alloc, pass) {
            Ok(pass) => Ok(Some(pass)),
            Err(e) => Err(e),
        },
        None => Ok(None),
    }
}

/// A text that is short. Refuses: `NoMemory`.
pub fn name_text(alloc: Global, name: &str) -> Result<Text, NoMemory>
    requires { length name.now < 2 ^ 32 }
    ensures { IfOk result (λ text. text ≡ name.now) }
{
    match Text::new(alloc, name) {
        Ok(text) => Ok(text),
        Err(_) => Err(NoMemory),
    }
}
