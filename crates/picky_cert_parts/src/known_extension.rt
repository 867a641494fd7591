//! The extensions that are known here, by name.

ghost use Rattle.std.specs.Prelude.{◌≡◌, ◌≤◌, bytes_eq, length};
ghost use Rattle.picky_wire_base.specs.Table.{find_entry};

use crate::names;

/// An extension that is known here (OpenSSH's PROTOCOL.certkeys, "Extensions").
#[derive(Clone, Copy, Debug, PartialEq, Eq)]
pub enum KnownExtension {
    NoTouchRequired,
    PermitX11Forwarding,
    PermitAgentForwarding,
    PermitPortForwarding,
    PermitPty,
    PermitUserPc,
}

impl KnownExtension {
    ghost use Rattle.picky_cert_parts.specs.CertNames.{known_name};
    ghost use Rattle.picky_cert_parts.specs.CertNameTables.{known_extensions};

    /// Its name.
    #[tactic(auto, unfolding(crate::specs::CertNames::known_name))]
    pub fn as_str(&self) -> &'static str
        ensures name { result.now ≡ known_name self.now }
        ensures short { length result.now ≤ 64 }
    {
        match self {
            KnownExtension::NoTouchRequired => names::NO_TOUCH_REQUIRED,
            KnownExtension::PermitX11Forwarding => names::PERMIT_X11_FORWARDING,
            KnownExtension::PermitAgentForwarding => names::PERMIT_AGENT_FORWARDING,
            KnownExtension::PermitPortForwarding => names::PERMIT_PORT_FORWARDING,
            KnownExtension::PermitPty => names::PERMIT_PTY,
            KnownExtension::PermitUserPc => names::PERMIT_USER_RC,
        }
    }

    /// The extension with this name, where one has it.
    #[tactic(auto, unfolding(crate::specs::CertNameTables::known_extensions))]
    pub fn of_name(name: &str) -> Option<KnownExtension>
        ensures { result ≡ find_entry known_extensions name.now }
    {
        ROWS.iter().copied().find(
            |row| -> bool
                ensures { result ≡ bytes_eq name.entry.now (known_name row.now) }
            { name == row.as_str() },
        )
    }
}

/// The extensions, in the order in which their names are tried.
const ROWS: [KnownExtension; 6] = [
    KnownExtension::NoTouchRequired,
    KnownExtension::PermitX11Forwarding,
    KnownExtension::PermitAgentForwarding,
    KnownExtension::PermitPortForwarding,
    KnownExtension::PermitPty,
    KnownExtension::PermitUserPc,
];
