//! A moment, as certificates have it.

ghost use Rattle.std.specs.Prelude.{◌≡◌, ◌≢◌, ◌^◌, ◌<◌, None, IfOk, IfErr, IsOk, refl};
ghost use Rattle.std.specs.Int.{w64, to_be_bytes};
ghost use Rattle.picky_wire.specs.Count.{Rose};
ghost use Rattle.picky_wire.specs.Takes.{Takes, HasCause, causes_of};
ghost use Rattle.picky_wire.specs.Moment.{timestamp};
ghost use Rattle.picky_wire.specs.carried.Moment.{timestamp_spells, timestamp_own, timestamp_solid};

use crate::element::{SshComplexTypeDecode, SshComplexTypeEncode, SshElement, SshLayout};
use crate::error::WireError;
use crate::piece::write_piece;
use crate::read::read_uint64;
use crate::sink::Sink;
use crate::source::Source;
use picky_wire_base::{NoMemory, Piece, TryClone};
use std::alloc::Global;

/// The seconds since 1970-01-01T00:00:00Z.
#[derive(Clone, Copy, Debug, PartialEq, Eq, PartialOrd, Ord)]
pub struct Timestamp(pub u64);

impl Timestamp {
    /// The seconds.
    pub fn secs(self) -> u64
        ensures { result ≡ self.0 }
    {
        self.0
    }
}

impl From<u64> for Timestamp {
    ghost from_gives = { λ secs result. result.0 ≡ secs };

    fn from(secs: u64) -> Timestamp {
        Timestamp(secs)
    }
}

impl TryClone for Timestamp {
    fn try_clone(&self, _alloc: Global) -> Result<Timestamp, NoMemory>
        ensures ok { IfOk result (λ copy. copy ≡ self.now) }
        ensures always { IsOk result }
    {
        Ok(*self)
    }
}

impl SshComplexTypeEncode for Timestamp {
    type Error = WireError;

    ghost spelling = { λ t. to_be_bytes w64 t.0 };

    ghost write_reason = { λ _. None };

    ghost keeps = { λ t. t.0 < 2 ^ 64 };

    ghost reason_is_no_want = { λ v same. Prim.cc same };

    /// Writes its seconds as a number of eight bytes. Refuses: `WriteFault`.
    fn encode<S: Sink>(&self, stream: &mut S) -> Result<(), WireError> {
        write_piece(stream, &Piece::uint64(self.0))
    }

    fn spelling_len(&self) -> u64 {
        let _secs = self.0;
        8
    }
}

impl SshComplexTypeDecode for Timestamp {
    type Error = WireError;

    ghost reads = { timestamp.read };

    ghost used = { timestamp.used };

    ghost own = { timestamp_own };

    /// The moment of a number of eight bytes (PROTOCOL.certkeys, "valid after"). Refuses as `read_uint64`.
    #[tactic(auto, unfolding(crate::specs::Moment::timestamp))]
    fn decode<S: Source>(_alloc: Global, stream: &mut S) -> Result<Timestamp, WireError>
        // It takes no memory.
        ensures no_want { IfErr result (λ e. e ≢ WireError.NoMemory) }

        // What every element promises.
        ensures takes { Takes S.tells S.left S.known S.faults (causes_of (λ e. e)) timestamp.read timestamp.used
            result stream.old stream.new }
        ensures cause { IfErr result (HasCause (causes_of (λ e. e)) timestamp.read
            (Rose (S.faults stream.old) (S.faults stream.new))) }
    {
        match read_uint64(stream) {
            Ok(secs) => Ok(Timestamp(secs)),
            Err(e) => Err(e),
        }
    }
}

impl SshLayout for Timestamp {
    ghost layout = { timestamp };

    ghost reads_layout = { λ bytes. refl };

    ghost used_layout = { λ bytes. refl };

    ghost solid = { timestamp_solid };

    fn refusal(error: WireError) -> WireError {
        error
    }
}

impl SshElement for Timestamp {
    ghost spelled = { λ v keeps _. timestamp_spells v keeps };
}
