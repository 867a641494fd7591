//! What a user's certificate permits where nothing else is asked for.

ghost use Rattle.std.specs.Prelude.{◌≡◌, ◌∷◌, [], IfOk, OnOk, ◌++◌};
ghost use Rattle.picky_cert_builder.specs.Permits.{permit, permits};

use picky_cert_parts::{SshExtension, SshExtensionType};
use picky_wire::{Bytes, List, NoMemory};
use std::alloc::Global;

/// The five permits of a user's certificate, each without data (OpenSSH's PROTOCOL.certkeys, "Extensions"; ssh-keygen(1)).
///
/// Refuses: `NoMemory`.
pub fn default_permits(alloc: Global) -> Result<List<SshExtension>, NoMemory>
    ensures { IfOk result (λ list. list ≡ permits) }
{
    let mut list = List::new(alloc);
    push_permit(alloc, &mut list, SshExtensionType::PermitX11Forwarding)?;
    push_permit(alloc, &mut list, SshExtensionType::PermitAgentForwarding)?;
    push_permit(alloc, &mut list, SshExtensionType::PermitPortForwarding)?;
    push_permit(alloc, &mut list, SshExtensionType::PermitPty)?;
    push_permit(alloc, &mut list, SshExtensionType::PermitUserPc)?;
    Ok(list)
}

/// Appends an extension without data.
fn push_permit(
    alloc: Global,
    list: &mut List<SshExtension>,
    extension_type: SshExtensionType,
) -> Result<(), NoMemory>
    ensures { OnOk result (list.new ≡ list.old ++ permit extension_type ∷ []) }
{
    let payload = Bytes::from_vec(Vec::new(alloc));
    match list.push(SshExtension::new(extension_type, payload)) {
        Ok(()) => Ok(()),
        Err(_) => Err(NoMemory),
    }
}
