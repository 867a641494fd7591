//! A file with another comment, and in another version.

ghost use Rattle.std.specs.Prelude.{◌≡◌, IfOk, Ok, false};
ghost use Rattle.picky_wire_base.specs.Gives.{Gives};
ghost use Rattle.picky_ppk_file.specs.declared.file.PpkSealing.TheVariants.{Unsealed};
ghost use Rattle.picky_ppk_file.specs.File.{is_sealed};
ghost use Rattle.picky_ppk.specs.Mac.{CarriesMac, with_own_mac as with_own_mac_of};
ghost use Rattle.picky_ppk.specs.Changed.{commented, in_version};

use crate::ppk::{Ppk, with_own_mac};
use picky_ppk_file::{PpkFile, PpkSealing};
use picky_ppk_parts::{PpkVersion, PuttyError};
use picky_suite::Suite;
use picky_wire::{NoMemory, SizeError, Text, TryClone, both};
use std::alloc::Global;

impl Ppk {
    /// The same key with another comment. Refuses, in order: `Encrypted`; `TooLong`, where the comment has 2^32 bytes or
    /// more.
    #[tactic(auto, unfolding(crate::specs::Changed::commented))]
    pub fn with_comment<S: Suite>(
        &self,
        alloc: Global,
        suite: &S,
        comment: &str,
    ) -> Result<Ppk, PuttyError>
        ensures gives { Gives PuttyError.NoMemory (λ ppk. ppk) result (commented (S.meanings suite.now) comment.now self.now) }
        ensures mac { IfOk result (λ ppk. CarriesMac (S.meanings suite.now) ppk) }
    {
        if self.is_encrypted() {
            return Err(PuttyError::Encrypted);
        }
        match Text::new(alloc, comment) {
            Ok(comment) => {
                let file = commented_file(alloc, self.file(), comment)?;
                remade(alloc, suite, file)
            }
            Err(SizeError::TooLong) => Err(PuttyError::TooLong),
            Err(SizeError::NoMemory) => Err(PuttyError::NoMemory),
        }
    }

    /// The same key in another version. Refuses, in order: `Encrypted`.
    #[tactic(auto, unfolding(crate::specs::Changed::in_version))]
    pub fn to_version<S: Suite>(
        &self,
        alloc: Global,
        suite: &S,
        version: PpkVersion,
    ) -> Result<Ppk, PuttyError>
        ensures gives { Gives PuttyError.NoMemory (λ ppk. ppk) result (in_version (S.meanings suite.now) version self.now) }
        ensures mac { IfOk result (λ ppk. CarriesMac (S.meanings suite.now) ppk) }
    {
        if self.is_encrypted() {
            return Err(PuttyError::Encrypted);
        }
        let unsealed = unsealed_file(alloc, self.file(), version)?;
        remade(alloc, suite, unsealed)
    }
}

/// A copy of the fields with another comment.
fn commented_file(alloc: Global, file: &PpkFile, comment: Text) -> Result<PpkFile, NoMemory>
    ensures { IfOk result (λ copy. copy ≡ record file.now { comment = comment }) }
{
    let front = both(
        file.sealing.try_clone(alloc),
        file.public_key.try_clone(alloc),
    );
    let back = both(
        file.private_bytes.try_clone(alloc),
        file.mac.try_clone(alloc),
    );
    let ((sealing, public_key), (private_bytes, mac)) = both(front, back)?;
    Ok(PpkFile {
        sealing,
        algorithm: file.algorithm,
        comment,
        public_key,
        private_bytes,
        mac,
    })
}

/// A copy of the fields in another version, where nothing seals them.
fn unsealed_file(alloc: Global, file: &PpkFile, version: PpkVersion) -> Result<PpkFile, NoMemory>
    ensures { IfOk result (λ copy. copy ≡ record file.now { sealing = Unsealed version }) }
{
    let front = both(
        file.comment.try_clone(alloc),
        file.public_key.try_clone(alloc),
    );
    let back = both(
        file.private_bytes.try_clone(alloc),
        file.mac.try_clone(alloc),
    );
    let ((comment, public_key), (private_bytes, mac)) = both(front, back)?;
    Ok(PpkFile {
        sealing: PpkSealing::Unsealed(version),
        algorithm: file.algorithm,
        comment,
        public_key,
        private_bytes,
        mac,
    })
}

/// The file with its own MAC. Refuses: `NoMemory`.
#[tactic(auto, using(crate::proofs::CheckedLaws::mac_laws))]
pub fn remade<S: Suite>(alloc: Global, suite: &S, file: PpkFile) -> Result<Ppk, PuttyError>
    requires { is_sealed file.sealing ≡ false }
    ensures gives { Gives PuttyError.NoMemory (λ ppk. ppk) result (Ok (with_own_mac_of (S.meanings suite.now) file)) }
    ensures mac { IfOk result (λ ppk. CarriesMac (S.meanings suite.now) ppk) }
{
    Ok(with_own_mac(alloc, suite, file)?)
}
