//! A PuTTY private key file read from its lines.

ghost use Rattle.std.specs.Prelude.{◌≡◌, List, ℕ};
ghost use Rattle.picky_wire_base.specs.Gives.{Gives};
ghost use Rattle.picky_ppk_file.specs.FileRefusal.{file_meaning, file_in as file_in_lines, front_in as front_in_lines};
ghost use Rattle.picky_ppk_file.specs.FileRefusal.{sealing_in as sealing_in_lines, argon2_in as argon2_in_lines};
ghost use Rattle.picky_ppk_file.specs.FileRefusal.{line_error as line_error_of};

use crate::file::{PpkFile, PpkSealing};
use picky_kv::{
    KvError, PpkArgon2Memory, PpkArgon2Parallelism, PpkArgon2Passes, PpkArgon2Salt, PpkComment,
    PpkEncryption, PpkEncryptionValue, PpkHeader, PpkKeyDerivation, PpkPrivateLines, PpkPrivateMac,
    PpkPublicLines, PuttyKvReader,
};
use picky_ppk_parts::{Argon2Params, PpkKeyAlgorithm, PpkVersion, PuttyError};
use picky_wire::{Bytes, Text};
use std::alloc::Global;

/// What stands before the lines of a derivation.
#[derive(Drop)]
pub struct Front {
    pub version: PpkVersion,
    pub algorithm: PpkKeyAlgorithm,
    pub encryption: PpkEncryptionValue,
    pub comment: Text,
    pub public_key: Bytes,
}

impl PpkFile {
    /// The fields that a text's lines have. What follows the line of the MAC says nothing, and the MAC isn't judged.
    ///
    /// PuTTY's manual, Appendix C. Refuses, by the first line that doesn't fit: `EndOfInput`, where it is missing,
    /// `InvalidKeyValueFormat`, `InvalidInput`, `TooLong`.
    #[tactic(auto, unfolding(crate::specs::FileRefusal::file_meaning))]
    pub fn from_str(alloc: Global, text: &str) -> Result<PpkFile, PuttyError>
        ensures { Gives PuttyError.NoMemory (λ file. file) result (file_meaning text.now) }
    {
        let mut reader = PuttyKvReader::from_str(text);
        match file_in(alloc, &mut reader) {
            Ok(file) => Ok(file),
            Err(e) => Err(line_error(e)),
        }
    }
}

/// The file that the lines begin with.
#[tactic(auto, unfolding(crate::specs::FileRefusal::file_in))]
fn file_in(alloc: Global, reader: &mut PuttyKvReader<'_>) -> Result<PpkFile, KvError>
    ensures { Gives KvError.NoMemory (λ file. (file, reader.new)) result (file_in_lines reader.old) }
{
    let front = front_in(alloc, reader)?;
    let sealing = sealing_in(alloc, reader, front.version, front.encryption)?;
    let private = reader.next_multiline_value::<PpkPrivateLines>(alloc)?;
    let mac = reader.next_value::<PpkPrivateMac>(alloc)?;
    let Front {
        algorithm,
        comment,
        public_key,
        ..
    } = front;
    Ok(PpkFile {
        sealing,
        algorithm,
        comment,
        public_key,
        private_bytes: Bytes::from(private),
        mac: Bytes::from(mac),
    })
}

/// The first lines of a file.
#[tactic(auto, unfolding(crate::specs::FileRefusal::front_in))]
fn front_in(alloc: Global, reader: &mut PuttyKvReader<'_>) -> Result<Front, KvError>
    ensures { Gives KvError.NoMemory (λ front. (front, reader.new)) result (front_in_lines reader.old) }
{
    let (version, algorithm) = reader.next_key_value::<PpkHeader>(alloc)?;
    let encryption = reader.next_value::<PpkEncryption>(alloc)?;
    let comment = reader.next_value::<PpkComment>(alloc)?;
    let public = reader.next_multiline_value::<PpkPublicLines>(alloc)?;
    Ok(Front {
        version,
        algorithm,
        encryption,
        comment: Text::from(comment),
        public_key: Bytes::from(public),
    })
}

/// What seals the file: its version and encryption say it, and in a sealed file of version 3 five lines more.
fn sealing_in(
    alloc: Global,
    reader: &mut PuttyKvReader<'_>,
    version: PpkVersion,
    encryption: PpkEncryptionValue,
) -> Result<PpkSealing, KvError>
    ensures { Gives KvError.NoMemory (λ sealing. (sealing, reader.new)) result (sealing_in_lines version encryption reader.old) }
{
    match encryption {
        PpkEncryptionValue::None => Ok(PpkSealing::Unsealed(version)),
        PpkEncryptionValue::Aes256Cbc => match version {
            PpkVersion::V2 => Ok(PpkSealing::SealedV2),
            PpkVersion::V3 => {
                let params = argon2_in(alloc, reader)?;
                Ok(PpkSealing::SealedV3(params))
            }
        },
    }
}

/// The lines of a derivation by Argon2.
#[tactic(auto, unfolding(crate::specs::FileRefusal::argon2_in))]
fn argon2_in(alloc: Global, reader: &mut PuttyKvReader<'_>) -> Result<Argon2Params, KvError>
    ensures { Gives KvError.NoMemory (λ params. (params, reader.new)) result (argon2_in_lines reader.old) }
{
    let flavor = reader.next_value::<PpkKeyDerivation>(alloc)?;
    let memory = reader.next_value::<PpkArgon2Memory>(alloc)?;
    let passes = reader.next_value::<PpkArgon2Passes>(alloc)?;
    let parallelism = reader.next_value::<PpkArgon2Parallelism>(alloc)?;
    let salt = reader.next_value::<PpkArgon2Salt>(alloc)?;
    Ok(Argon2Params {
        flavor,
        memory: u32::from(memory),
        passes: u32::from(passes),
        parallelism: u32::from(parallelism),
        salt: Bytes::from(salt),
    })
}

/// The error of a line, as a file's.
fn line_error(e: KvError) -> PuttyError
    ensures { result ≡ line_error_of e }
{
    match e {
        KvError::EndOfInput => {
            drop(e);
            PuttyError::EndOfInput
        }
        KvError::InvalidKeyValueFormat => {
            drop(e);
            PuttyError::InvalidKeyValueFormat
        }
        KvError::InvalidInput {
            context,
            expected,
            actual,
        } => PuttyError::InvalidInput {
            context,
            expected,
            actual,
        },
        KvError::TooManyLines => {
            drop(e);
            PuttyError::TooManyLines
        }
        KvError::TooLong => {
            drop(e);
            PuttyError::TooLong
        }
        KvError::NoMemory => {
            drop(e);
            PuttyError::NoMemory
        }
    }
}
