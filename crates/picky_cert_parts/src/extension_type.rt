//! Extensions by name. One that isn't known is kept by its name.

ghost use Rattle.std.specs.Prelude.{◌≡◌, ◌<◌, ◌^◌, None, IsUtf8, length, nat_eq, nat_lt, if◌then◌else◌};
ghost use Rattle.std.specs.Prelude.{Ok, Err, IsOk, IsSome};
ghost use Rattle.std.specs.Cmp.{partial_equiv_from_equiv};
ghost use Rattle.std.specs.Cmp.Lexicographic.{pointwise, nat_list_eq_equiv};
ghost use Rattle.picky_wire_base.specs.Table.{find_entry};
ghost use Rattle.picky_wire_base.specs.Gives.{Gives};
ghost use Rattle.picky_cert_parts.specs.CertNameTables.{known_extensions};
ghost use Rattle.picky_cert_parts.specs.ExtensionType.{IsExtensionType};

use crate::error::SshExtensionError;
use crate::known_extension::KnownExtension;
use picky_wire::{NoMemory, SizeError, Text, TryClone};
use std::alloc::Global;
use std::marker::Model;

/// A name of fewer than 2^32 bytes that is no known extension's.
#[derive(Debug, Drop)]
pub struct OtherName {
    name: Text,
}

impl Model for OtherName {
    ghost use Rattle.std.specs.Prelude.{◌≡◌, ℕ, List, None};
    ghost use Rattle.picky_wire_base.specs.Table.{find_entry};
    ghost use Rattle.picky_cert_parts.specs.CertNameTables.{known_extensions};

    ghost Value = { List ℕ };

    ghost view = { λ o. o.name };

    ghost invariant = { λ o. find_entry known_extensions o.name ≡ None };
}

impl OtherName {
    /// The name.
    pub fn as_str(&self) -> &str
        ensures name { result.now ≡ self.now }
        ensures short { length result.now < 2 ^ 32 }
        ensures utf8 { IsUtf8 self.now }
        ensures other { find_entry known_extensions self.now ≡ None }
    {
        self.name.as_str()
    }
}

impl TryClone for OtherName {
    fn try_clone(&self, alloc: Global) -> Result<OtherName, NoMemory> {
        let name = self.name.try_clone(alloc)?;
        Ok(OtherName { name })
    }
}

impl PartialEq for OtherName {
    ghost eq = { pointwise nat_eq };

    ghost laws = { partial_equiv_from_equiv nat_list_eq_equiv };

    fn eq(&self, other: &OtherName) -> bool {
        self.name.as_str() == other.name.as_str()
    }
}

impl Eq for OtherName {
    ghost laws = { nat_list_eq_equiv };
}

/// What an extension permits (OpenSSH's PROTOCOL.certkeys, "Extensions"). A name that isn't known is kept.
#[derive(Debug, Drop, PartialEq, Eq)]
pub enum SshExtensionType {
    NoTouchRequired,
    PermitX11Forwarding,
    PermitAgentForwarding,
    PermitPortForwarding,
    PermitPty,
    PermitUserPc,
    Other(OtherName),
}

impl SshExtensionType {
    ghost use Rattle.picky_cert_parts.specs.ExtensionType.{extension_name, extension_named, type_of};
    ghost use Rattle.picky_cert_parts.specs.declared.error.SshExtensionError.TheVariants as errors;

    /// Its name.
    pub fn as_str(&self) -> &str
        ensures name { result.now ≡ extension_name self.now }
        ensures short { length result.now < 2 ^ 32 }
        ensures keeps { IsExtensionType self.now }
    {
        match self {
            SshExtensionType::NoTouchRequired => KnownExtension::NoTouchRequired.as_str(),
            SshExtensionType::PermitX11Forwarding => KnownExtension::PermitX11Forwarding.as_str(),
            SshExtensionType::PermitAgentForwarding => {
                KnownExtension::PermitAgentForwarding.as_str()
            }
            SshExtensionType::PermitPortForwarding => KnownExtension::PermitPortForwarding.as_str(),
            SshExtensionType::PermitPty => KnownExtension::PermitPty.as_str(),
            SshExtensionType::PermitUserPc => KnownExtension::PermitUserPc.as_str(),
            SshExtensionType::Other(name) => name.as_str(),
        }
    }

    /// The extension with this name, `Other` for one that isn't known, with a copy. PROTOCOL.certkeys, "Extensions".
    ///
    /// Refuses: `TooLong`, for such a name of 2^32 bytes or more.
    pub fn try_from_name(alloc: Global, name: &str) -> Result<SshExtensionType, SshExtensionError>
        ensures gives { Gives SshExtensionError.NoMemory (λ t. t) result
            (if nat_lt (length name.now) (2 ^ 32) then Ok (extension_named name.now) else Err errors.TooLong) }

        // A known name takes no memory.
        ensures known { IsSome (find_entry known_extensions name.now) → IsOk result }
    {
        match KnownExtension::of_name(name) {
            Some(row) => Ok(SshExtensionType::of_known(row)),
            None => match Text::new(alloc, name) {
                Ok(name) => Ok(SshExtensionType::Other(OtherName { name })),
                Err(SizeError::TooLong) => Err(SshExtensionError::TooLong),
                Err(SizeError::NoMemory) => Err(SshExtensionError::NoMemory),
            },
        }
    }

    /// A known extension.
    fn of_known(row: KnownExtension) -> SshExtensionType
        ensures { result ≡ type_of row }
    {
        match row {
            KnownExtension::NoTouchRequired => SshExtensionType::NoTouchRequired,
            KnownExtension::PermitX11Forwarding => SshExtensionType::PermitX11Forwarding,
            KnownExtension::PermitAgentForwarding => SshExtensionType::PermitAgentForwarding,
            KnownExtension::PermitPortForwarding => SshExtensionType::PermitPortForwarding,
            KnownExtension::PermitPty => SshExtensionType::PermitPty,
            KnownExtension::PermitUserPc => SshExtensionType::PermitUserPc,
        }
    }
}

impl TryClone for SshExtensionType {
    fn try_clone(&self, alloc: Global) -> Result<SshExtensionType, NoMemory> {
        match self {
            SshExtensionType::NoTouchRequired => Ok(SshExtensionType::NoTouchRequired),
            SshExtensionType::PermitX11Forwarding => Ok(SshExtensionType::PermitX11Forwarding),
            SshExtensionType::PermitAgentForwarding => Ok(SshExtensionType::PermitAgentForwarding),
            SshExtensionType::PermitPortForwarding => Ok(SshExtensionType::PermitPortForwarding),
            SshExtensionType::PermitPty => Ok(SshExtensionType::PermitPty),
            SshExtensionType::PermitUserPc => Ok(SshExtensionType::PermitUserPc),
            SshExtensionType::Other(name) => {
                let name = name.try_clone(alloc)?;
                Ok(SshExtensionType::Other(name))
            }
        }
    }
}
