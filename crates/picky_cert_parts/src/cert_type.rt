//! The types of certificates: a user's and a host's.

ghost use Rattle.std.specs.Prelude.{◌≡◌, ◌≢◌, None, IfOk, IfErr, IsOk, refl};
ghost use Rattle.std.specs.Int.{w32, to_be_bytes};
ghost use Rattle.std.specs.Prelude.{ok_or};
ghost use Rattle.picky_wire_base.specs.Table.{find_entry};
ghost use Rattle.picky_wire.specs.Count.{Rose};
ghost use Rattle.picky_wire.specs.Takes.{Takes, HasCause, causes_of};
ghost use Rattle.picky_cert_parts.specs.CertType.{cert_type, cert_type_of};
ghost use Rattle.picky_cert_parts.specs.carried.CertType.{cert_type_spells, cert_type_solid, cert_type_own};
ghost use Rattle.picky_cert_parts.specs.CertNumber.{cert_type_number};
ghost use Rattle.picky_cert_parts.specs.NumberTable.{cert_types};
ghost use Rattle.picky_cert_parts.specs.declared.error.SshCertTypeError.TheVariants as errors;
ghost use Rattle.picky_cert_parts.specs.CertFromWire.{cert_type_error};

use crate::error::SshCertTypeError;
use crate::fields::uint32_field;
use picky_wire::{
    NoMemory, Piece, Sink, Source, SshComplexTypeDecode, SshComplexTypeEncode, SshElement,
    SshLayout, TryClone, WireError, write_piece,
};
use std::alloc::Global;

/// Whose certificate it is: a user's or a host's (OpenSSH's PROTOCOL.certkeys, "type").
#[derive(Clone, Copy, Debug, PartialEq, Eq)]
pub enum SshCertType {
    Client,
    Host,
}

impl SshCertType {
    /// The type with this number (PROTOCOL.certkeys, "type").
    ///
    /// Refuses: `InvalidCertificateType`, for a number other than 1 and 2, with it.
    #[tactic(auto, unfolding(crate::specs::NumberTable::cert_types))]
    pub fn try_from_number(value: u32) -> Result<SshCertType, SshCertTypeError>
        ensures { result ≡ ok_or (find_entry cert_types value) (errors.InvalidCertificateType value) }
    {
        match value {
            1 => Ok(SshCertType::Client),
            2 => Ok(SshCertType::Host),
            _ => Err(SshCertTypeError::InvalidCertificateType(value)),
        }
    }

    /// Its number: 1 of a user's and 2 of a host's (PROTOCOL.certkeys, "type").
    pub fn number(self) -> u32
        ensures { result ≡ cert_type_number self }
    {
        match self {
            SshCertType::Client => 1,
            SshCertType::Host => 2,
        }
    }
}

impl TryClone for SshCertType {
    fn try_clone(&self, _alloc: Global) -> Result<SshCertType, NoMemory>
        ensures ok { IfOk result (λ copy. copy ≡ self.now) }
        ensures always { IsOk result }
    {
        Ok(*self)
    }
}

impl SshComplexTypeEncode for SshCertType {
    type Error = SshCertTypeError;

    ghost spelling = { cert_type_of };

    ghost write_reason = { λ _. None };

    ghost keeps = { λ _. Unit {0} };

    ghost reason_is_no_want = { λ t same. Prim.cc same };

    /// Writes its number, as `number` says. Refuses: `IoError(WriteFault)`.
    #[tactic(auto, unfolding(crate::specs::CertType::cert_type_of))]
    fn encode<S: Sink>(&self, stream: &mut S) -> Result<(), SshCertTypeError> {
        match write_piece(stream, &Piece::uint32(self.number())) {
            Ok(()) => Ok(()),
            Err(e) => Err(SshCertTypeError::from(e)),
        }
    }

    #[tactic(auto, unfolding(crate::specs::CertType::cert_type_of))]
    fn spelling_len(&self) -> u64 {
        4
    }
}

impl SshComplexTypeDecode for SshCertType {
    type Error = SshCertTypeError;

    ghost reads = { cert_type.read };

    ghost used = { cert_type.used };

    ghost own = { cert_type_own };

    /// `uint32 type` of PROTOCOL.certkeys.
    ///
    /// Refuses, in order: `IoError(ReadFault)`; `IoError(UnexpectedEnd)`; `InvalidCertificateType`, as `try_from_number`.
    #[tactic(auto, unfolding(crate::specs::CertType::cert_type), using(crate::proofs::CertTypeLemmas::cert_type_causes))]
    fn decode<S: Source>(_alloc: Global, stream: &mut S) -> Result<SshCertType, SshCertTypeError>
        // It takes no memory.
        ensures no_want { IfErr result (λ e. e ≢ SshCertTypeError.NoMemory) }

        // What every element promises.
        ensures takes { Takes S.tells S.left S.known S.faults (causes_of cert_type_error) cert_type.read cert_type.used
            result stream.old stream.new }
        ensures cause { IfErr result (HasCause (causes_of cert_type_error) cert_type.read
            (Rose (S.faults stream.old) (S.faults stream.new))) }
    {
        match uint32_field::<SshCertTypeError, S>(stream) {
            Ok(number) => match SshCertType::try_from_number(number) {
                Ok(cert_type) => Ok(cert_type),
                Err(e) => Err(e),
            },
            Err(e) => Err(e),
        }
    }
}

impl SshLayout for SshCertType {
    ghost layout = { cert_type };

    ghost reads_layout = { λ bytes. refl };

    ghost used_layout = { λ bytes. refl };

    ghost solid = { cert_type_solid };

    fn refusal(error: WireError) -> SshCertTypeError {
        SshCertTypeError::from(error)
    }
}

impl SshElement for SshCertType {
    ghost spelled = { λ t is _. cert_type_spells t };
}
