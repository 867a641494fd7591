//! The error of a blob that is stopped at a field.

ghost use Rattle.std.specs.Prelude.{◌≡◌, ◌⊎◌};
ghost use Rattle.picky_sshkey_blob.specs.BlobRefusal.{private_error};
ghost use Rattle.picky_wire_base.specs.View.{reason_of};
ghost use Rattle.picky_sshkey_blob.specs.View.{IsPrivateRefusal};

use crate::error::SshPrivateKeyError;
use picky_wire::{IoKind, NoMemory, Stopped, Stuck};
use std::alloc::Global;

/// The error of the reader where a view is stopped, with a copy of a refused name, or `NoMemory`.
pub fn private_view_refusal(alloc: Global, stopped: &Stopped<'_, usize>) -> SshPrivateKeyError
    requires { IsPrivateRefusal stopped.now }
    ensures { (result ≡ private_error (reason_of stopped.now)) ⊎ (result ≡ SshPrivateKeyError.NoMemory) }
{
    match stopped.stuck {
        Stuck::Short => SshPrivateKeyError::IoError(IoKind::UnexpectedEnd),
        Stuck::NotUtf8 => SshPrivateKeyError::FromUtf8Error,
        Stuck::Name(name) => match name.to_text(alloc) {
            Ok(name) => SshPrivateKeyError::UnsupportedKeyType(name),
            Err(NoMemory) => SshPrivateKeyError::NoMemory,
        },
        Stuck::Length if stopped.place == 2 => SshPrivateKeyError::InvalidKeyFormat,
        Stuck::Length | Stuck::Number(_) => SshPrivateKeyError::KeyError,
    }
}
