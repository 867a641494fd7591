//! A private key written as a PuTTY private key file.

ghost use Rattle.std.specs.Prelude.{◌≡◌, ◌⊎◌, Ok, Err, IfErr, IfOk};
ghost use Rattle.picky.specs.Changed.{of_openssh};
ghost use Rattle.picky.specs.Outcome.{and_then};
ghost use Rattle.picky.specs.PpkFileWritten.{file_spelled};
ghost use Rattle.picky.specs.SshPrivateKey.{IsPrivateKey};
ghost use Rattle.picky.specs.TextLines.{IsLine};
ghost use Rattle.picky.specs.declared.putty.LineEnd.TheVariants.{Lf};
ghost use Rattle.picky_callers.specs.PuttyFile.{IsFileOf};

use picky::putty::laws::file::openssh_key_comes_back;
use picky::putty::{Ppk, PuttyError};
use picky::ssh::{SshPrivateKey, Suite};
use picky::wire::Text;
use std::alloc::Global;

/// The key and its comment as a PuTTY private key file of version 3 that isn't encrypted.
pub fn putty_file_of<S: Suite>(
    alloc: Global,
    suite: &S,
    key: &SshPrivateKey,
) -> Result<Text, PuttyError>
    // It is the one text of the file that the key has.
    ensures text { IfOk result (λ text. and_then (of_openssh (S.meanings suite.now) key.now) file_spelled ≡ Ok text) }

    // Read again it is the same key and comment, unless the comment has a line end, which no such file holds.
    ensures ok { IsPrivateKey key.now.base_key → IsLine Lf key.now.comment
        → IfOk result (λ text. IsFileOf (S.meanings suite.now) key.now text) }

    // Else the key has no such file, or the file no such text.
    ensures refused { IfErr result (λ e. (e ≡ PuttyError.NoMemory)
        ⊎ (and_then (of_openssh (S.meanings suite.now) key.now) file_spelled ≡ Err e)) }
{
    openssh_key_comes_back();
    match Ppk::from_openssh_private_key(alloc, suite, key) {
        Ok(file) => {
            let text = file.to_string(alloc);
            drop(file);
            text
        }
        Err(e) => Err(e),
    }
}
