//! The critical options by name.

ghost use Rattle.std.specs.Prelude.{◌≡◌, ◌≤◌, IfOk, IsOk, bytes_eq, length};
ghost use Rattle.picky_wire_base.specs.Table.{find_entry};
ghost use Rattle.picky_wire_base.specs.Gives.{Gives};
ghost use Rattle.picky_cert_parts.specs.declared.error.SshCriticalOptionError.TheVariants as errors;

use crate::error::SshCriticalOptionError;
use crate::names;
use picky_wire::{NoMemory, SizeError, Text, TryClone};
use std::alloc::Global;
use std::hash::Hash;

/// What a critical option demands (OpenSSH's PROTOCOL.certkeys, "Critical options").
#[derive(Clone, Copy, Debug, PartialEq, Eq, Hash)]
pub enum SshCriticalOptionType {
    ForceCommand,
    SourceAddress,
    VerifyRequired,
}

impl SshCriticalOptionType {
    ghost use Rattle.picky_cert_parts.specs.CertNames.{option_name};
    ghost use Rattle.picky_cert_parts.specs.CertNameTables.{option_types};
    ghost use Rattle.picky_cert_parts.specs.CertNamed.{of_table};

    /// Its name.
    #[tactic(auto, unfolding(crate::specs::CertNames::option_name))]
    pub fn as_str(&self) -> &'static str
        ensures name { result.now ≡ option_name self.now }
        ensures short { length result.now ≤ 64 }
    {
        match self {
            SshCriticalOptionType::ForceCommand => names::FORCE_COMMAND,
            SshCriticalOptionType::SourceAddress => names::SOURCE_ADDRESS,
            SshCriticalOptionType::VerifyRequired => names::VERIFY_REQUIRED,
        }
    }

    /// The option with this name, where one has it.
    #[tactic(auto, unfolding(crate::specs::CertNameTables::option_types))]
    pub fn of_name(name: &str) -> Option<SshCriticalOptionType>
        ensures { result ≡ find_entry option_types name.now }
    {
        ROWS.iter().copied().find(
            |row| -> bool
                ensures { result ≡ bytes_eq name.entry.now (option_name row.now) }
            { name == row.as_str() },
        )
    }

    /// The option with this name. PROTOCOL.certkeys, "Critical options".
    ///
    /// Refuses, in order: `UnsupportedCriticalOptionType`, for any other name, with it; in its place `TooLong`, where that name has 2^32
    /// bytes or more.
    pub fn try_from_name(
        alloc: Global,
        name: &str,
    ) -> Result<SshCriticalOptionType, SshCriticalOptionError>
        ensures { Gives SshCriticalOptionError.NoMemory (λ row. row) result (of_table option_types errors.UnsupportedCriticalOptionType errors.TooLong name.now) }
    {
        match SshCriticalOptionType::of_name(name) {
            Some(row) => Ok(row),
            None => match Text::new(alloc, name) {
                Ok(name) => Err(SshCriticalOptionError::UnsupportedCriticalOptionType(name)),
                Err(SizeError::TooLong) => Err(SshCriticalOptionError::TooLong),
                Err(SizeError::NoMemory) => Err(SshCriticalOptionError::NoMemory),
            },
        }
    }
}

impl TryClone for SshCriticalOptionType {
    fn try_clone(&self, _alloc: Global) -> Result<SshCriticalOptionType, NoMemory>
        ensures ok { IfOk result (λ copy. copy ≡ self.now) }
        ensures always { IsOk result }
    {
        Ok(*self)
    }
}

/// The options, in the order in which their names are tried.
const ROWS: [SshCriticalOptionType; 3] = [
    SshCriticalOptionType::ForceCommand,
    SshCriticalOptionType::SourceAddress,
    SshCriticalOptionType::VerifyRequired,
];
