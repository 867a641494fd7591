//! Critical options.

ghost use Rattle.std.specs.Prelude.{◌≡◌, None, IfErr, refl};
ghost use Rattle.std.specs.List.{concat};
ghost use Rattle.picky_wire.specs.Count.{Rose};
ghost use Rattle.picky_wire.specs.Takes.{Takes, HasCause, causes_of};
ghost use Rattle.picky_cert_parts.specs.CertFromWire.{option_error};
ghost use Rattle.picky_cert_parts.specs.CriticalOption.{option_type, critical_option, option_of, IsCriticalOption};
ghost use Rattle.picky_cert_parts.specs.carried.CriticalOption.{option_spells, option_solid, option_own};

use crate::error::SshCriticalOptionError;
use crate::fields::{bytes_field, text_field};
use crate::option_type::SshCriticalOptionType;
use picky_wire::{
    Bytes, NoMemory, Piece, Sink, Source, SshComplexTypeDecode, SshComplexTypeEncode, SshElement,
    SshLayout, Text, TryClone, WireError, pieces_len, write_pieces,
};
use std::alloc::Global;

/// A critical option: its name and its data (OpenSSH's PROTOCOL.certkeys, "Critical options").
#[derive(Debug, Drop, PartialEq, Eq)]
pub struct SshCriticalOption {
    pub option_type: SshCriticalOptionType,
    pub payload: Bytes,
}

impl TryClone for SshCriticalOption {
    fn try_clone(&self, alloc: Global) -> Result<SshCriticalOption, NoMemory> {
        let payload = self.payload.try_clone(alloc)?;
        Ok(SshCriticalOption {
            option_type: self.option_type,
            payload,
        })
    }
}

/// The fields of the option's one spelling.
#[tactic(auto, unfolding(crate::specs::CriticalOption::option_of))]
pub fn option_pieces(option: &SshCriticalOption) -> [Piece<'_>; 2]
    ensures spelled { concat result ≡ option_of option.now }
    ensures keeps { IsCriticalOption option.now }
{
    [
        Piece::string(option.option_type.as_str().as_bytes()),
        Piece::bytes(&option.payload),
    ]
}

impl SshComplexTypeEncode for SshCriticalOption {
    type Error = SshCriticalOptionError;

    ghost spelling = { option_of };

    ghost write_reason = { λ _. None };

    ghost keeps = { IsCriticalOption };

    ghost reason_is_no_want = { λ option same. Prim.cc same };

    /// Writes the strings of its name and its data. Refuses: `IoError(WriteFault)`.
    fn encode<S: Sink>(&self, stream: &mut S) -> Result<(), SshCriticalOptionError> {
        match write_pieces(stream, &option_pieces(self)) {
            Ok(()) => Ok(()),
            Err(e) => Err(SshCriticalOptionError::from(e)),
        }
    }

    fn spelling_len(&self) -> u64 {
        pieces_len(&option_pieces(self))
    }
}

/// The name of an option; another is refused with itself.
#[tactic(auto, unfolding(crate::specs::CriticalOption::option_type), using(crate::proofs::OptionLemmas::option_names))]
fn take_type<S: Source>(
    alloc: Global,
    stream: &mut S,
) -> Result<SshCriticalOptionType, SshCriticalOptionError>
    ensures takes { Takes S.tells S.left S.known S.faults (causes_of option_error) option_type.read option_type.used result stream.old stream.new }
    ensures cause { IfErr result (HasCause (causes_of option_error) option_type.read (Rose (S.faults stream.old) (S.faults stream.new))) }
{
    let name: Text = match text_field::<SshCriticalOptionError, S>(alloc, stream) {
        Ok(name) => name,
        Err(e) => return Err(e),
    };
    match SshCriticalOptionType::of_name(name.as_str()) {
        Some(option_type) => Ok(option_type),
        None => Err(SshCriticalOptionError::UnsupportedCriticalOptionType(name)),
    }
}

impl SshComplexTypeDecode for SshCriticalOption {
    type Error = SshCriticalOptionError;

    ghost reads = { critical_option.read };

    ghost used = { critical_option.used };

    ghost own = { option_own };

    /// `string name` and `string data` of PROTOCOL.certkeys, "Critical options".
    ///
    /// Refuses, in order, at each of the two: `IoError(ReadFault)`; `IoError(UnexpectedEnd)`; for the name `InvalidUtf8`, and
    /// `UnsupportedCriticalOptionType`, where it is no critical option's, with it.
    #[tactic(auto, unfolding(crate::specs::CriticalOption::critical_option, crate::specs::CriticalOption::option_payload), using(crate::proofs::OptionLemmas::option_causes))]
    fn decode<S: Source>(
        alloc: Global,
        stream: &mut S,
    ) -> Result<SshCriticalOption, SshCriticalOptionError> {
        let option_type = match take_type(alloc, stream) {
            Ok(option_type) => option_type,
            Err(e) => return Err(e),
        };
        match bytes_field::<SshCriticalOptionError, S>(alloc, stream) {
            Ok(payload) => Ok(SshCriticalOption {
                option_type,
                payload,
            }),
            Err(e) => Err(e),
        }
    }
}

impl SshLayout for SshCriticalOption {
    ghost layout = { critical_option };

    ghost reads_layout = { λ bytes. refl };

    ghost used_layout = { λ bytes. refl };

    ghost solid = { option_solid };

    fn refusal(error: WireError) -> SshCriticalOptionError {
        SshCriticalOptionError::from(error)
    }
}

impl SshElement for SshCriticalOption {
    ghost spelled = { λ option is _. option_spells option is };
}
