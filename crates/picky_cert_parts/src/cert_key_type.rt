//! The types of certificates by the kind of their subject's key.

ghost use Rattle.std.specs.Prelude.{◌≡◌, ◌≤◌, IfOk, IsOk, bytes_eq, length};
ghost use Rattle.picky_wire_base.specs.Table.{find_entry};
ghost use Rattle.picky_wire_base.specs.Gives.{Gives};
ghost use Rattle.picky_cert_parts.specs.declared.error.SshCertificateError.TheVariants as errors;

use crate::error::SshCertificateError;
use crate::names;
use picky_wire::{NoMemory, Text, TryClone};
use std::alloc::Global;

/// A type of certificates by the kind of its subject's key (OpenSSH's PROTOCOL.certkeys).
#[derive(Clone, Copy, Debug, PartialEq, Eq)]
pub enum SshCertKeyType {
    SshRsaV01,
    SshDssV01,
    RsaSha2_256V01,
    RsaSha2_512v01,
    EcdsaSha2Nistp256V01,
    EcdsaSha2Nistp384V01,
    EcdsaSha2Nistp521V01,
    SshEd25519V01,
    SkSshSha2Nistp256V01,
    SkSshEd25519V01,
}

impl SshCertKeyType {
    ghost use Rattle.picky_cert_parts.specs.CertNames.{cert_key_type_name};
    ghost use Rattle.picky_cert_parts.specs.CertNameTables.{cert_key_types};
    ghost use Rattle.picky_cert_parts.specs.CertNamed.{of_table};

    /// Its name.
    #[tactic(auto, unfolding(crate::specs::CertNames::cert_key_type_name))]
    pub fn as_str(&self) -> &'static str
        ensures name { result.now ≡ cert_key_type_name self.now }
        ensures short { length result.now ≤ 64 }
    {
        match self {
            SshCertKeyType::SshRsaV01 => names::CERT_SSH_RSA,
            SshCertKeyType::SshDssV01 => names::CERT_SSH_DSS,
            SshCertKeyType::RsaSha2_256V01 => names::CERT_RSA_SHA2_256,
            SshCertKeyType::RsaSha2_512v01 => names::CERT_RSA_SHA2_512,
            SshCertKeyType::EcdsaSha2Nistp256V01 => names::CERT_ECDSA_SHA2_NISTP256,
            SshCertKeyType::EcdsaSha2Nistp384V01 => names::CERT_ECDSA_SHA2_NISTP384,
            SshCertKeyType::EcdsaSha2Nistp521V01 => names::CERT_ECDSA_SHA2_NISTP521,
            SshCertKeyType::SshEd25519V01 => names::CERT_SSH_ED25519,
            SshCertKeyType::SkSshSha2Nistp256V01 => names::CERT_SK_ECDSA_SHA2_NISTP256,
            SshCertKeyType::SkSshEd25519V01 => names::CERT_SK_SSH_ED25519,
        }
    }

    /// The type with this name, where one has it.
    #[tactic(auto, unfolding(crate::specs::CertNameTables::cert_key_types))]
    pub fn of_name(name: &str) -> Option<SshCertKeyType>
        ensures { result ≡ find_entry cert_key_types name.now }
    {
        ROWS.iter().copied().find(
            |row| -> bool
                ensures { result ≡ bytes_eq name.entry.now (cert_key_type_name row.now) }
            { name == row.as_str() },
        )
    }

    /// The type with this name. OpenSSH's PROTOCOL.certkeys.
    ///
    /// Refuses, in order: `InvalidCertificateKeyType`, for any other name, with it; in its place `TooLong`, where that name has 2^32
    /// bytes or more.
    pub fn try_from_name(alloc: Global, name: &str) -> Result<SshCertKeyType, SshCertificateError>
        ensures { Gives SshCertificateError.NoMemory (λ row. row) result (of_table cert_key_types errors.InvalidCertificateKeyType errors.TooLong name.now) }
    {
        match SshCertKeyType::of_name(name) {
            Some(row) => Ok(row),
            None => {
                let name = Text::new(alloc, name)?;
                Err(SshCertificateError::InvalidCertificateKeyType(name))
            }
        }
    }
}

impl TryClone for SshCertKeyType {
    fn try_clone(&self, _alloc: Global) -> Result<SshCertKeyType, NoMemory>
        ensures ok { IfOk result (λ copy. copy ≡ self.now) }
        ensures always { IsOk result }
    {
        Ok(*self)
    }
}

/// The types, in the order in which their names are tried.
const ROWS: [SshCertKeyType; 10] = [
    SshCertKeyType::SshRsaV01,
    SshCertKeyType::SshDssV01,
    SshCertKeyType::RsaSha2_256V01,
    SshCertKeyType::RsaSha2_512v01,
    SshCertKeyType::EcdsaSha2Nistp256V01,
    SshCertKeyType::EcdsaSha2Nistp384V01,
    SshCertKeyType::EcdsaSha2Nistp521V01,
    SshCertKeyType::SshEd25519V01,
    SshCertKeyType::SkSshSha2Nistp256V01,
    SshCertKeyType::SkSshEd25519V01,
];
