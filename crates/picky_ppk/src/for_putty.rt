//! A file as PuTTY's own programs read and write it.

ghost use Rattle.std.specs.Prelude.{◌≡◌, ◌<◌, ◌^◌, ◌+◌, ◌++◌, true, length, IfOk};
ghost use Rattle.picky_keys.specs.LineRefusal.{is_short};
ghost use Rattle.picky_wire_base.specs.Gives.{Gives};
ghost use Rattle.picky_wire_base.specs.Wire.{string_of};
ghost use Rattle.picky_ppk_file.specs.File.{version_of};
ghost use Rattle.picky_ppk.specs.Mac.{CarriesMac};
ghost use Rattle.picky_ppk.specs.KeyOf.{base_key_of};
ghost use Rattle.picky_ppk.specs.ForPutty.{HasPuttySecret, for_putty as for_putty_of, is_ed25519 as is_ed25519_of};
ghost use Rattle.picky_ppk.specs.ForPutty.{putty_fields, with_putty_secret as with_putty_secret_of};

use crate::changing::remade;
use crate::ppk::Ppk;
use picky_ppk_file::PpkFile;
use picky_ppk_parts::{PpkKeyAlgorithm, PuttyError};
use picky_sshkey::SshBasePrivateKey;
use picky_suite::Suite;
use picky_wire::{Bytes, NoMemory, TryClone, both};
use std::alloc::{AllocError, Global};
use std::mem::replace;

impl Ppk {
    /// The same key and comment in a file whose Ed25519 secret is a string of its 32 bytes, as PuTTY has it. The other
    /// calls write it as a number, which PuTTY 0.78 takes for another secret in about half of all cases.
    ///
    /// PuTTY's manual, Appendix C. Refuses, in order: `Encrypted`; for Ed25519 what the key in the file is refused for, as
    /// `base_key`.
    #[tactic(auto, unfolding(crate::specs::ForPutty::for_putty))]
    pub fn for_putty<S: Suite>(&self, alloc: Global, suite: &S) -> Result<Ppk, PuttyError>
        ensures gives { Gives PuttyError.NoMemory (λ ppk. ppk) result (for_putty_of (S.meanings suite.now) self.now) }
        ensures mac { IfOk result (λ ppk. CarriesMac (S.meanings suite.now) ppk) }

        // It is read as the same key, or refused for the same reason, and its comment and version are the same.
        ensures key { IfOk result (λ ppk. base_key_of ppk ≡ base_key_of self.now) }
        ensures comment { IfOk result (λ ppk. ppk.comment ≡ self.now.comment) }
        ensures version { IfOk result (λ ppk. version_of ppk.sealing ≡ version_of self.now.sealing) }

        // A file that has PuTTY's layout and its own MAC, as each of RSA and ECDSA has, is the result itself.
        ensures layout { IfOk result (λ ppk. HasPuttySecret ppk) }
        ensures unchanged { HasPuttySecret self.now → CarriesMac (S.meanings suite.now) self.now
            → IfOk result (λ ppk. ppk ≡ self.now) }
    {
        if self.is_encrypted() {
            return Err(PuttyError::Encrypted);
        }
        match fields_for_putty(alloc, self) {
            Ok(file) => remade(alloc, suite, file),
            Err(e) => Err(e),
        }
    }
}

/// The file's fields, with an Ed25519 secret as PuTTY has it. Refuses as `base_key`, for Ed25519.
#[tactic(auto, unfolding(crate::specs::ForPutty::putty_fields))]
fn fields_for_putty(alloc: Global, ppk: &Ppk) -> Result<PpkFile, PuttyError>
    ensures gives { Gives PuttyError.NoMemory (λ file. file) result (putty_fields ppk.now) }
    ensures sealing { IfOk result (λ file. file.sealing ≡ ppk.now.sealing) }
{
    if !is_ed25519(ppk.algorithm()) {
        return Ok(ppk.file().try_clone(alloc)?);
    }
    match ppk.base_key(alloc) {
        Ok(key) => {
            let fields = with_putty_secret(alloc, ppk.file(), &key);
            drop(key);
            Ok(fields?)
        }
        Err(e) => Err(e),
    }
}

/// Whether the algorithm is the one whose secret PuTTY lays out otherwise.
fn is_ed25519(algorithm: PpkKeyAlgorithm) -> bool
    ensures { result ≡ is_ed25519_of algorithm }
{
    match algorithm {
        PpkKeyAlgorithm::Ed25519 => true,
        PpkKeyAlgorithm::Rsa
        | PpkKeyAlgorithm::Dss
        | PpkKeyAlgorithm::EcdsaSha2Nistp256
        | PpkKeyAlgorithm::EcdsaSha2Nistp384
        | PpkKeyAlgorithm::EcdsaSha2Nistp521
        | PpkKeyAlgorithm::Ed448 => false,
    }
}

/// The fields with the secret of this key as PuTTY has it, where it is Ed25519's. Refuses: `NoMemory`.
fn with_putty_secret(
    alloc: Global,
    file: &PpkFile,
    key: &SshBasePrivateKey,
) -> Result<PpkFile, NoMemory>
    ensures { IfOk result (λ fields. fields ≡ with_putty_secret_of file.now key.now) }
{
    match key {
        SshBasePrivateKey::Ed { secret, .. } => with_secret_string(alloc, file, secret),
        SshBasePrivateKey::Rsa { .. }
        | SshBasePrivateKey::Ec { .. }
        | SshBasePrivateKey::SkEcdsaSha2NistP256 { .. }
        | SshBasePrivateKey::SkEd25519 { .. } => file.try_clone(alloc),
    }
}

/// The fields with the string of this secret for their private bytes. Refuses: `NoMemory`.
fn with_secret_string(alloc: Global, file: &PpkFile, secret: &[u8; 32]) -> Result<PpkFile, NoMemory>
    ensures { IfOk result (λ fields. fields ≡ record file.now { private_bytes = string_of secret.now }) }
{
    let (fields, bytes) = both(file.try_clone(alloc), secret_string(alloc, secret))?;
    let mut fields = fields;
    drop(replace(&mut fields.private_bytes, bytes));
    Ok(fields)
}

/// The string of a secret. Refuses: `NoMemory`.
#[tactic(auto, unfolding(picky_wire_base::specs::Wire::string_of))]
pub fn secret_string(alloc: Global, secret: &[u8; 32]) -> Result<Bytes, NoMemory>
    ensures { IfOk result (λ bytes. bytes ≡ string_of secret.now) }
{
    joined(alloc, &32u32.to_be_bytes(), secret)
}

/// The front and then the back. Refuses: `NoMemory`.
fn joined(alloc: Global, front: &[u8], back: &[u8]) -> Result<Bytes, NoMemory>
    requires { is_short (front.now ++ back.now) ≡ true }
    ensures { IfOk result (λ bytes. bytes ≡ front.now ++ back.now) }
{
    match joined_bytes(alloc, front, back) {
        Ok(bytes) => Ok(Bytes::from_vec(bytes)),
        Err(_) => Err(NoMemory),
    }
}

fn joined_bytes(alloc: Global, front: &[u8], back: &[u8]) -> Result<Vec<u8>, AllocError>
    requires { length front.now + length back.now < 2 ^ 32 }
    ensures { IfOk result (λ bytes. bytes.items ≡ front.now ++ back.now) }
{
    let mut bytes = Vec::with_capacity(alloc, front.len() + back.len())?;
    bytes.extend_from_slice(front)?;
    bytes.extend_from_slice(back)?;
    Ok(bytes)
}
