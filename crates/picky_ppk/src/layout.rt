//! A key's file in each layout of an Ed25519 secret.

ghost use Rattle.std.specs.Prelude.{◌≡◌, IfOk};
ghost use Rattle.picky_wire_base.specs.Gives.{Gives};
ghost use Rattle.picky_sshkey_blob.specs.declared.key.SshBasePrivateKey.TheVariants.{Ed};
ghost use Rattle.picky_ppk.specs.declared.layout.PpkLayout.TheVariants.{Putty};
ghost use Rattle.picky_ppk.specs.PpkLayout.{laid_file, laid_parts as laid_parts_of};
ghost use Rattle.picky_ppk.specs.Mac.{CarriesMac};

use crate::for_putty::secret_string;
use crate::openssh::file_of_parts;
use crate::ppk::Ppk;
use picky_keys::SshBasePublicKey;
use picky_ppk_parts::{KeyParts, PpkKeyAlgorithm, PpkVersion, PuttyError, blob_of_public};
use picky_sshkey::SshBasePrivateKey;
use picky_suite::Suite;
use picky_wire::Text;
use std::alloc::Global;

/// How a file has an Ed25519 secret; the files of other keys are the same in both.
#[derive(Clone, Copy, Debug, PartialEq, Eq)]
pub enum PpkLayout {
    /// A number, most significant byte first, as `Ppk::from_base_key` writes it. PuTTY 0.78 takes it for another secret in
    /// about half of all cases.
    Number,
    /// A string of its 32 bytes, as PuTTY's own programs have it (PuTTY's manual, Appendix C).
    Putty,
}

impl Ppk {
    /// A key and a comment as a file of this version and layout that isn't sealed. Refuses as `from_base_key`.
    #[tactic(auto, unfolding(crate::specs::PpkLayout::laid_file))]
    pub fn from_base_key_in<S: Suite>(
        alloc: Global,
        suite: &S,
        version: PpkVersion,
        layout: PpkLayout,
        key: &SshBasePrivateKey,
        comment: Text,
    ) -> Result<Ppk, PuttyError>
        ensures gives { Gives PuttyError.NoMemory (λ ppk. ppk) result
            (laid_file (S.meanings suite.now) version layout key.now comment) }
        ensures mac { IfOk result (λ ppk. CarriesMac (S.meanings suite.now) ppk) }
    {
        match laid_parts(alloc, layout, key) {
            Ok(parts) => file_of_parts(alloc, suite, version, comment, parts),
            Err(e) => Err(e),
        }
    }
}

/// The parts of a key in a layout. Refuses as `KeyParts::of_key`.
#[tactic(auto, unfolding(crate::specs::PpkLayout::laid_parts, crate::specs::PpkLayout::laid_secret, picky_ppk_parts::specs::KeyParts::key_parts))]
fn laid_parts(
    alloc: Global,
    layout: PpkLayout,
    key: &SshBasePrivateKey,
) -> Result<KeyParts, PuttyError>
    ensures { Gives PuttyError.NoMemory (λ parts. parts) result (laid_parts_of layout key.now) }
{
    match layout {
        PpkLayout::Number => KeyParts::of_key(alloc, key),
        PpkLayout::Putty => parts_for_putty(alloc, key),
    }
}

/// The parts of a key as PuTTY has them.
#[tactic(auto, unfolding(crate::specs::PpkLayout::laid_parts, crate::specs::PpkLayout::laid_secret, picky_ppk_parts::specs::KeyParts::key_parts))]
fn parts_for_putty(alloc: Global, key: &SshBasePrivateKey) -> Result<KeyParts, PuttyError>
    ensures { Gives PuttyError.NoMemory (λ parts. parts) result (laid_parts_of Putty key.now) }
{
    match key {
        SshBasePrivateKey::Ed { secret, public } => ed_parts(alloc, secret, public),
        SshBasePrivateKey::Rsa { .. }
        | SshBasePrivateKey::Ec { .. }
        | SshBasePrivateKey::SkEcdsaSha2NistP256 { .. }
        | SshBasePrivateKey::SkEd25519 { .. } => KeyParts::of_key(alloc, key),
    }
}

/// The parts of an Ed25519 key, with the string of its secret.
#[tactic(auto, unfolding(crate::specs::PpkLayout::laid_parts, crate::specs::PpkLayout::laid_secret), using(crate::proofs::LayoutLaws::short_string))]
fn ed_parts(alloc: Global, secret: &[u8; 32], public: &[u8; 32]) -> Result<KeyParts, PuttyError>
    ensures { Gives PuttyError.NoMemory (λ parts. parts) result (laid_parts_of Putty (Ed secret.now public.now)) }
{
    let blob = match blob_of_public(alloc, &SshBasePublicKey::Ed { key: *public }) {
        Ok(blob) => blob,
        Err(e) => return Err(e),
    };
    let private_bytes = secret_string(alloc, secret)?;
    Ok(KeyParts {
        algorithm: PpkKeyAlgorithm::Ed25519,
        blob,
        private_bytes,
    })
}
