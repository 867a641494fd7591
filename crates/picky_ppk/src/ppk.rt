//! A PuTTY private key file.

ghost use Rattle.std.specs.Prelude.{◌≡◌, ◌⊎◌, ◌++◌, ◌<◌, ◌^◌, List, ℕ, true, false, length, None, Some, Ok, IfOk};
ghost use Rattle.std.specs.Prelude.{IfNone, IfSome};
ghost use Rattle.picky_text.specs.Lines.{IsLine};
ghost use Rattle.picky_suite.specs.Meanings.{Meanings};
ghost use Rattle.picky_wire_base.specs.Gives.{Gives};
ghost use Rattle.picky_ppk_file.specs.declared.file.PpkFile.{PpkFile as File};
ghost use Rattle.picky_ppk_parts.specs.Mac.{mac_bytes as mac_bytes_of};
ghost use Rattle.picky_ppk_file.specs.File.{version_of, is_sealed, params_of};
ghost use Rattle.picky_ppk_file.specs.Written.{line_end_of, file_spelled};
ghost use Rattle.picky_ppk.specs.Mac.{CarriesMac, covered as covered_of, own_mac as own_mac_of};
ghost use Rattle.picky_ppk.specs.Mac.{with_own_mac as with_own_mac_of};
ghost use Rattle.picky_ppk.specs.Checked.{checked as checked_of, ppk_meaning};
ghost use Rattle.picky_ppk.specs.Sealed.{padding_len as padding_len_of};

use crate::aes::lacking_len;
use picky_kv::PpkLiteral;
use picky_ppk_file::PpkFile;
use picky_ppk_parts::{Argon2Params, Mac, PpkKeyAlgorithm, PpkVersion, PuttyError, mac_input};
use picky_suite::Suite;
use picky_wire::{Bytes, NoMemory, Text, TryClone};
use std::alloc::Global;
use std::marker::Model;
use std::mem::replace;

/// A PuTTY private key file, sealed or not. One that isn't carries the MAC of the suite that it was made with.
#[derive(Debug, Drop, PartialEq, Eq)]
pub struct Ppk {
    file: PpkFile,
}

impl Model for Ppk {
    ghost Value = { File };

    ghost view = { λ ppk. ppk.file };

    ghost inverse = { λ file. record { file = file } };
}

impl Ppk {
    /// The file of a text. What follows the line of the MAC says nothing.
    ///
    /// PuTTY's manual, Appendix C. Refuses, in order: by the first line that doesn't fit `EndOfInput`,
    /// `InvalidKeyValueFormat`, `InvalidInput`, `TooLong`; `MacValidation`, where it isn't sealed.
    #[tactic(auto, unfolding(crate::specs::Checked::ppk_meaning))]
    pub fn from_str<S: Suite>(alloc: Global, suite: &S, text: &str) -> Result<Ppk, PuttyError>
        ensures gives { Gives PuttyError.NoMemory (λ ppk. ppk) result (ppk_meaning (S.meanings suite.now) text.now) }

        // A file that isn't sealed carries the MAC of its own version and fields.
        ensures mac { IfOk result (λ ppk. is_sealed ppk.sealing ≡ false → CarriesMac (S.meanings suite.now) ppk) }
    {
        match PpkFile::from_str(alloc, text) {
            Ok(file) => checked(alloc, suite, file),
            Err(e) => Err(e),
        }
    }

    /// The text, with CR LF in version 2 and LF in version 3.
    ///
    /// Refuses, in order: `TooLong`, where it has 2^32 bytes or more; `TooManyLines`, where the blob or the private bytes
    /// have more than 3,145,680 bytes.
    #[tactic(auto, using(crate::proofs::CheckedLaws::read_texts))]
    pub fn to_string(&self, alloc: Global) -> Result<Text, PuttyError>
        ensures gives { Gives PuttyError.NoMemory (λ text. text) result (file_spelled self.now) }

        // The text of a file that is sealed, or carries its own MAC under a suite, is read back, whatever follows it,
        // unless its comment breaks the line.
        ensures read_back { IsLine (line_end_of (version_of self.now.sealing)) self.now.comment
            → IfOk result (λ text. (m : Meanings) (more : List ℕ)
            → (is_sealed self.now.sealing ≡ true) ⊎ CarriesMac m self.now → ppk_meaning m (text ++ more) ≡ Ok self.now) }
    {
        self.file.to_string(alloc)
    }

    /// Whether its private bytes are sealed.
    pub fn is_encrypted(&self) -> bool
        ensures { result ≡ is_sealed self.now.sealing }
    {
        self.file.sealing.is_sealed()
    }

    /// What Argon2 is run with, in a sealed file of version 3.
    pub fn argon2_params(&self) -> Option<&Argon2Params>
        ensures none { IfNone result (params_of self.now.sealing ≡ None) }
        ensures some { IfSome result (λ params. params_of self.now.sealing ≡ Some params.now) }
    {
        self.file.sealing.argon2_params()
    }

    /// Its version.
    pub fn version(&self) -> PpkVersion
        ensures { result ≡ version_of self.now.sealing }
    {
        self.file.sealing.version()
    }

    /// The algorithm of its key.
    pub fn algorithm(&self) -> PpkKeyAlgorithm
        ensures { result ≡ self.now.algorithm }
    {
        self.file.algorithm
    }

    /// Its comment.
    pub fn comment(&self) -> &str
        ensures { result.now ≡ self.now.comment }
    {
        self.file.comment.as_str()
    }

    /// How many bytes of padding sealing it takes: 0 to 15.
    pub fn padding_len(&self) -> usize
        ensures len { result ≡ padding_len_of self.now }
        ensures short { result < 16 }
    {
        lacking_len(self.file.private_bytes.as_slice().len())
    }

    /// The file's fields.
    pub fn file(&self) -> &PpkFile
        ensures { result.now ≡ self.now }
    {
        &self.file
    }

    /// The file's fields, without a copy.
    pub(crate) fn into_file(self) -> PpkFile
        ensures { result ≡ self }
    {
        self.file
    }
}

impl TryClone for Ppk {
    fn try_clone(&self, alloc: Global) -> Result<Ppk, NoMemory> {
        let file = self.file.try_clone(alloc)?;
        Ok(Ppk { file })
    }
}

/// A file of these fields.
pub fn of_file(file: PpkFile) -> Ppk
    ensures { result ≡ file }
{
    Ppk { file }
}

/// The file, where it is sealed, or carries its own MAC.
#[tactic(auto, unfolding(crate::specs::Checked::checked), using(crate::proofs::CheckedLaws::mac_laws))]
fn checked<S: Suite>(alloc: Global, suite: &S, file: PpkFile) -> Result<Ppk, PuttyError>
    ensures gives { Gives PuttyError.NoMemory (λ ppk. ppk) result (checked_of (S.meanings suite.now) file) }
    ensures mac { IfOk result (λ ppk. is_sealed ppk.sealing ≡ false → CarriesMac (S.meanings suite.now) ppk) }
{
    if file.sealing.is_sealed() {
        return Ok(Ppk { file });
    }
    match own_mac(alloc, suite, &file) {
        Ok(mac) => {
            if mac.as_slice() != file.mac.as_slice() {
                drop(file);
                return Err(PuttyError::MacValidation);
            }
            Ok(Ppk { file })
        }
        Err(NoMemory) => {
            drop(file);
            Err(PuttyError::NoMemory)
        }
    }
}

/// The file, which isn't sealed, with its own MAC in place of the one that it has. Refuses: `NoMemory`.
pub fn with_own_mac<S: Suite>(alloc: Global, suite: &S, file: PpkFile) -> Result<Ppk, NoMemory>
    requires { is_sealed file.sealing ≡ false }
    ensures { IfOk result (λ ppk. ppk ≡ with_own_mac_of (S.meanings suite.now) file) }
{
    match own_mac_bytes(alloc, suite, &file) {
        Ok(mac) => {
            let mut file = file;
            drop(replace(&mut file.mac, mac));
            Ok(Ppk { file })
        }
        Err(NoMemory) => {
            drop(file);
            Err(NoMemory)
        }
    }
}

/// The bytes of the MAC of a file that isn't sealed.
fn own_mac_bytes<S: Suite>(alloc: Global, suite: &S, file: &PpkFile) -> Result<Bytes, NoMemory>
    ensures { IfOk result (λ mac. mac ≡ own_mac_of (S.meanings suite.now) file.now) }
{
    let mac = own_mac(alloc, suite, file)?;
    mac_bytes(alloc, &mac)
}

/// The MAC of a file that isn't sealed.
#[tactic(auto, unfolding(crate::specs::Mac::own_mac))]
fn own_mac<S: Suite>(alloc: Global, suite: &S, file: &PpkFile) -> Result<Mac, NoMemory>
    ensures { IfOk result (λ mac. mac_bytes_of mac ≡ own_mac_of (S.meanings suite.now) file.now) }
{
    let input = covered(alloc, file, file.private_bytes.as_slice())?;
    Ok(Mac::of_plain(suite, file.sealing.version(), input.as_slice()))
}

/// What a file's MAC covers, with these private bytes, which aren't sealed. Refuses: `NoMemory`.
pub fn covered(alloc: Global, file: &PpkFile, private: &[u8]) -> Result<Vec<u8>, NoMemory>
    requires { length private.now < 2 ^ 32 }
    ensures { IfOk result (λ input. input.items ≡ covered_of file.now private.now) }
{
    let algorithm = file.algorithm.as_static_str();
    let encryption = file.sealing.encryption().as_static_str();
    match mac_input(
        alloc,
        algorithm,
        encryption,
        file.comment.as_str(),
        file.public_key.as_slice(),
        private,
    ) {
        Ok(input) => Ok(input),
        Err(e) => {
            drop(e);
            Err(NoMemory)
        }
    }
}

/// A MAC's bytes, kept. Refuses: `NoMemory`.
pub fn mac_bytes(alloc: Global, mac: &Mac) -> Result<Bytes, NoMemory>
    ensures { IfOk result (λ bytes. bytes ≡ mac_bytes_of mac.now) }
{
    match Bytes::new(alloc, mac.as_slice()) {
        Ok(bytes) => Ok(bytes),
        Err(_) => Err(NoMemory),
    }
}
