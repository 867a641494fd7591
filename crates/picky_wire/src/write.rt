//! The fields of the wire, written to a sink.

ghost use Rattle.std.specs.Prelude.{◌≡◌, ◌^◌, ◌<◌, ◌≤◌, ◌++◌, ◌↔◌, ℕ, true, false, take, length, slice_index, Err};
ghost use Rattle.std.specs.Prelude.{OnOk, OnErr};
ghost use Rattle.picky_wire_base.specs.Wire.{string_of};
ghost use Rattle.picky_wire_base.specs.Mpint.{mpint_of};
ghost use Rattle.picky_wire.specs.Puts.{Puts};

use crate::error::WireError;
use crate::piece::write_piece;
use crate::sink::Sink;
use picky_wire_base::{MAX_LEN, Mpint, Piece};

/// The fields that are written to a sink.
pub trait SshWriteExt: Sink {
    /// The text as a string field: its length in four bytes, and then its bytes.
    ///
    /// `string` of RFC 4251, section 5. Refuses, in order: `TooLong`, `WriteFault`.
    final fn write_ssh_string(&mut self, text: &str) -> Result<(), WireError>
    where
        Self: Sized,
        ensures puts { length text.now < 2 ^ 32
            → Puts Self.tells Self.written Self.faults WireError.WriteFault (string_of text.now) result self.old self.new }
        ensures too_long { 2 ^ 32 ≤ length text.now → (result ≡ Err WireError.TooLong) × (self.new ≡ self.old) }
    {
        write_string(self, text.as_bytes())
    }

    /// The bytes as a string field: their number in four bytes, and then they.
    ///
    /// `string` of RFC 4251, section 5. Refuses, in order: `TooLong`, `WriteFault`.
    final fn write_ssh_bytes(&mut self, bytes: &[u8]) -> Result<(), WireError>
    where
        Self: Sized,
        ensures puts { length bytes.now < 2 ^ 32
            → Puts Self.tells Self.written Self.faults WireError.WriteFault (string_of bytes.now) result self.old self.new }
        ensures too_long { 2 ^ 32 ≤ length bytes.now → (result ≡ Err WireError.TooLong) × (self.new ≡ self.old) }
    {
        write_string(self, bytes)
    }

    /// The number as an mpint field, with one zero byte before a first byte of 128 or more.
    ///
    /// `mpint` of RFC 4251, section 5. Refuses, in order: `WriteFault`.
    final fn write_ssh_mpint(&mut self, value: &Mpint) -> Result<(), WireError>
    where
        Self: Sized,
        ensures { Puts Self.tells Self.written Self.faults WireError.WriteFault (mpint_of value.now) result self.old self.new }
    {
        write_piece(self, &Piece::mpint(value))
    }
}

impl<S: Sink> SshWriteExt for S {}

fn write_string<S: Sink>(sink: &mut S, bytes: &[u8]) -> Result<(), WireError>
    ensures puts { length bytes.now < 2 ^ 32
        → Puts S.tells S.written S.faults WireError.WriteFault (string_of bytes.now) result sink.old sink.new }
    ensures too_long { 2 ^ 32 ≤ length bytes.now → (result ≡ Err WireError.TooLong) × (sink.new ≡ sink.old) }
{
    if bytes.len() > MAX_LEN {
        return Err(WireError::TooLong);
    }
    write_piece(sink, &Piece::string(bytes))
}

/// Writes all of the bytes, or a front of them up to a fault. Refuses: `WriteFault`.
pub fn write_all<S: Sink>(sink: &mut S, bytes: &[u8]) -> Result<(), WireError>
    ensures { Puts S.tells S.written S.faults WireError.WriteFault bytes.now result sink.old sink.new }
{
    let mut at = 0;
    'bytes: while at < bytes.len() {
        match sink.write(&bytes[at..]) {
            Ok(n) => at += n,
            Err(_) => return Err(WireError::WriteFault),
        }
    }
    Ok(())
}
