//! Extensions with their data. One that isn't known is kept by its name.

ghost use Rattle.std.specs.Prelude.{◌≡◌, None, IfErr, refl};
ghost use Rattle.std.specs.List.{concat};
ghost use Rattle.picky_wire.specs.Count.{Rose};
ghost use Rattle.picky_wire.specs.Takes.{Takes, HasCause, causes_of};
ghost use Rattle.picky_cert_parts.specs.CertFromWire.{extension_error};
ghost use Rattle.picky_cert_parts.specs.Extension.{extension_type, extension, extension_of, IsExtension};
ghost use Rattle.picky_cert_parts.specs.carried.Extension.{extension_spells, extension_solid, extension_own};

use crate::error::SshExtensionError;
use crate::extension_type::SshExtensionType;
use crate::fields::{bytes_field, text_field};
use picky_wire::{
    Bytes, NoMemory, Piece, Sink, Source, SshComplexTypeDecode, SshComplexTypeEncode, SshElement,
    SshLayout, Text, TryClone, WireError, pieces_len, write_pieces,
};
use std::alloc::Global;

/// An extension: its name and its data (OpenSSH's PROTOCOL.certkeys, "Extensions").
#[derive(Debug, Drop, PartialEq, Eq)]
pub struct SshExtension {
    pub extension_type: SshExtensionType,
    pub payload: Bytes,
}

impl SshExtension {
    /// The extension with this name and data.
    pub fn new(extension_type: SshExtensionType, payload: Bytes) -> SshExtension
        ensures { result ≡ record { extension_type = extension_type; payload = payload } }
    {
        SshExtension {
            extension_type,
            payload,
        }
    }
}

impl TryClone for SshExtension {
    fn try_clone(&self, alloc: Global) -> Result<SshExtension, NoMemory> {
        let extension_type = self.extension_type.try_clone(alloc)?;
        let payload = self.payload.try_clone(alloc)?;
        Ok(SshExtension {
            extension_type,
            payload,
        })
    }
}

/// The fields of the extension's one spelling.
#[tactic(auto, unfolding(crate::specs::Extension::extension_of))]
pub fn extension_pieces(extension: &SshExtension) -> [Piece<'_>; 2]
    ensures spelled { concat result ≡ extension_of extension.now }
    ensures keeps { IsExtension extension.now }
{
    [
        Piece::string(extension.extension_type.as_str().as_bytes()),
        Piece::bytes(&extension.payload),
    ]
}

impl SshComplexTypeEncode for SshExtension {
    type Error = SshExtensionError;

    ghost spelling = { extension_of };

    ghost write_reason = { λ _. None };

    ghost keeps = { IsExtension };

    ghost reason_is_no_want = { λ extension same. Prim.cc same };

    /// Writes the strings of its name and its data. Refuses: `IoError(WriteFault)`.
    fn encode<S: Sink>(&self, stream: &mut S) -> Result<(), SshExtensionError> {
        match write_pieces(stream, &extension_pieces(self)) {
            Ok(()) => Ok(()),
            Err(e) => Err(SshExtensionError::from(e)),
        }
    }

    fn spelling_len(&self) -> u64 {
        pieces_len(&extension_pieces(self))
    }
}

/// The name of an extension.
#[tactic(auto, unfolding(crate::specs::Extension::extension_type), using(crate::proofs::ExtensionLemmas::extension_names))]
fn take_type<S: Source>(
    alloc: Global,
    stream: &mut S,
) -> Result<SshExtensionType, SshExtensionError>
    ensures takes { Takes S.tells S.left S.known S.faults (causes_of extension_error) extension_type.read extension_type.used result stream.old stream.new }
    ensures cause { IfErr result (HasCause (causes_of extension_error) extension_type.read (Rose (S.faults stream.old) (S.faults stream.new))) }
{
    let name: Text = match text_field::<SshExtensionError, S>(alloc, stream) {
        Ok(name) => name,
        Err(e) => return Err(e),
    };
    match SshExtensionType::try_from_name(alloc, name.as_str()) {
        Ok(extension_type) => Ok(extension_type),
        Err(e) => Err(e),
    }
}

impl SshComplexTypeDecode for SshExtension {
    type Error = SshExtensionError;

    ghost reads = { extension.read };

    ghost used = { extension.used };

    ghost own = { extension_own };

    /// `string name` and `string data` of PROTOCOL.certkeys, "Extensions".
    ///
    /// Refuses, in order, at each of the two: `IoError(ReadFault)`; `IoError(UnexpectedEnd)`; for the name `InvalidUtf8`.
    #[tactic(auto, unfolding(crate::specs::Extension::extension, crate::specs::Extension::extension_payload), using(crate::proofs::ExtensionLemmas::extension_causes))]
    fn decode<S: Source>(alloc: Global, stream: &mut S) -> Result<SshExtension, SshExtensionError> {
        let extension_type = match take_type(alloc, stream) {
            Ok(extension_type) => extension_type,
            Err(e) => return Err(e),
        };
        match bytes_field::<SshExtensionError, S>(alloc, stream) {
            Ok(payload) => Ok(SshExtension {
                extension_type,
                payload,
            }),
            Err(e) => Err(e),
        }
    }
}

impl SshLayout for SshExtension {
    ghost layout = { extension };

    ghost reads_layout = { λ bytes. refl };

    ghost used_layout = { λ bytes. refl };

    ghost solid = { extension_solid };

    fn refusal(error: WireError) -> SshExtensionError {
        SshExtensionError::from(error)
    }
}

impl SshElement for SshExtension {
    ghost spelled = { λ extension is _. extension_spells extension is };
}
