//! The formats of signatures.

ghost use Rattle.std.specs.Prelude.{◌≡◌, ◌≤◌, IfOk, IsOk, bytes_eq, length};
ghost use Rattle.picky_wire_base.specs.Table.{find_entry};
ghost use Rattle.picky_wire_base.specs.Gives.{Gives};
ghost use Rattle.picky_cert_parts.specs.declared.error.SshSignatureError.TheVariants as errors;

use crate::error::SshSignatureError;
use crate::names;
use picky_wire::{NoMemory, SizeError, Text, TryClone};
use std::alloc::Global;

/// A format of signatures (RFC 4253, section 6.6; RFC 8332, section 3; RFC 5656, section 3.1.2; RFC 8709, section 6;
/// PROTOCOL.u2f).
#[derive(Clone, Copy, Debug, PartialEq, Eq)]
pub enum SshSignatureFormat {
    SshRsa,
    RsaSha256,
    RsaSha512,
    EcdsaSha2Nistp256,
    EcdsaSha2Nistp384,
    EcdsaSha2Nistp521,
    SshEd25519,
    SkEcdsaSha2NistP256,
    SkEd25519,
}

impl SshSignatureFormat {
    ghost use Rattle.picky_cert_parts.specs.CertNames.{format_name, is_sk};
    ghost use Rattle.picky_cert_parts.specs.CertNameTables.{signature_formats};
    ghost use Rattle.picky_cert_parts.specs.CertNamed.{of_table};

    /// Its name.
    #[tactic(auto, unfolding(crate::specs::CertNames::format_name))]
    pub fn as_str(&self) -> &'static str
        ensures name { result.now ≡ format_name self.now }
        ensures short { length result.now ≤ 64 }
    {
        match self {
            SshSignatureFormat::SshRsa => names::SSH_RSA,
            SshSignatureFormat::RsaSha256 => names::RSA_SHA2_256,
            SshSignatureFormat::RsaSha512 => names::RSA_SHA2_512,
            SshSignatureFormat::EcdsaSha2Nistp256 => names::ECDSA_SHA2_NISTP256,
            SshSignatureFormat::EcdsaSha2Nistp384 => names::ECDSA_SHA2_NISTP384,
            SshSignatureFormat::EcdsaSha2Nistp521 => names::ECDSA_SHA2_NISTP521,
            SshSignatureFormat::SshEd25519 => names::SSH_ED25519,
            SshSignatureFormat::SkEcdsaSha2NistP256 => names::SK_ECDSA_SHA2_NISTP256,
            SshSignatureFormat::SkEd25519 => names::SK_SSH_ED25519,
        }
    }

    /// Whether a security key signs in it, so that flags and a counter follow the signature's string (PROTOCOL.u2f).
    pub fn is_sk(self) -> bool
        ensures { result ≡ is_sk self }
    {
        match self {
            SshSignatureFormat::SshRsa
            | SshSignatureFormat::RsaSha256
            | SshSignatureFormat::RsaSha512
            | SshSignatureFormat::EcdsaSha2Nistp256
            | SshSignatureFormat::EcdsaSha2Nistp384
            | SshSignatureFormat::EcdsaSha2Nistp521
            | SshSignatureFormat::SshEd25519 => false,
            SshSignatureFormat::SkEcdsaSha2NistP256 | SshSignatureFormat::SkEd25519 => true,
        }
    }

    /// The format with this name, where one has it.
    #[tactic(auto, unfolding(crate::specs::CertNameTables::signature_formats))]
    pub fn of_name(name: &str) -> Option<SshSignatureFormat>
        ensures { result ≡ find_entry signature_formats name.now }
    {
        ROWS.iter().copied().find(
            |row| -> bool
                ensures { result ≡ bytes_eq name.entry.now (format_name row.now) }
            { name == row.as_str() },
        )
    }

    /// The format with this name. RFC 8332, section 3; RFC 8709, section 6; PROTOCOL.u2f.
    ///
    /// Refuses, in order: `UnsupportedSignatureFormat`, for any other name, with it; in its place `TooLong`, where that name has 2^32
    /// bytes or more.
    pub fn new(alloc: Global, format: &str) -> Result<SshSignatureFormat, SshSignatureError>
        ensures { Gives SshSignatureError.NoMemory (λ row. row) result (of_table signature_formats errors.UnsupportedSignatureFormat errors.TooLong format.now) }
    {
        match SshSignatureFormat::of_name(format) {
            Some(row) => Ok(row),
            None => match Text::new(alloc, format) {
                Ok(format) => Err(SshSignatureError::UnsupportedSignatureFormat(format)),
                Err(SizeError::TooLong) => Err(SshSignatureError::TooLong),
                Err(SizeError::NoMemory) => Err(SshSignatureError::NoMemory),
            },
        }
    }
}

impl TryClone for SshSignatureFormat {
    fn try_clone(&self, _alloc: Global) -> Result<SshSignatureFormat, NoMemory>
        ensures ok { IfOk result (λ copy. copy ≡ self.now) }
        ensures always { IsOk result }
    {
        Ok(*self)
    }
}

/// The formats, in the order in which their names are tried.
const ROWS: [SshSignatureFormat; 9] = [
    SshSignatureFormat::SshRsa,
    SshSignatureFormat::RsaSha256,
    SshSignatureFormat::RsaSha512,
    SshSignatureFormat::EcdsaSha2Nistp256,
    SshSignatureFormat::EcdsaSha2Nistp384,
    SshSignatureFormat::EcdsaSha2Nistp521,
    SshSignatureFormat::SshEd25519,
    SshSignatureFormat::SkEcdsaSha2NistP256,
    SshSignatureFormat::SkEd25519,
];
