//! The fields of a layout, read from a source.

ghost use Rattle.std.specs.Prelude.{IfErr};
ghost use Rattle.picky_wire_base.specs.Wire.{string, text, uint32};
ghost use Rattle.picky_wire_base.specs.Numbers.{byte, uint64};
ghost use Rattle.picky_wire_base.specs.Mpint.{mpint};
ghost use Rattle.picky_wire.specs.Count.{Rose};
ghost use Rattle.picky_wire.specs.Flaws.{TakesLayout, StopHasCause, StopIsShort, StopsUnread, flaw_stop};

use crate::read::{SshReadExt, read_byte, read_uint32, read_uint64};
use crate::source::Source;
use crate::stop::Stop;
use picky_wire_base::{Bytes, Mpint, Text};
use std::alloc::Global;

/// A number, as `read_ssh_mpint` reads it. Refuses, in order: `Fault`, `Short`, `TooLong`.
#[tactic(auto, using(crate::proofs::FieldLemmas::field_stops))]
pub fn take_mpint<S: Source>(alloc: Global, stream: &mut S) -> Result<Mpint, Stop>
    ensures takes { TakesLayout S.tells S.left S.known S.faults flaw_stop mpint result stream.old stream.new }
    ensures unread { StopsUnread S.tells S.left S.known result stream.old stream.new }
    ensures cause { IfErr result (StopHasCause mpint (Rose (S.faults stream.old) (S.faults stream.new))) }
{
    match stream.read_ssh_mpint(alloc) {
        Ok(number) => Ok(number),
        Err(e) => Err(Stop::from(e)),
    }
}

/// A string's bytes, as `read_ssh_bytes` reads them. Refuses, in order: `Fault`, `Short`.
#[tactic(auto, using(crate::proofs::FieldLemmas::field_stops))]
pub fn take_bytes<S: Source>(alloc: Global, stream: &mut S) -> Result<Bytes, Stop>
    ensures takes { TakesLayout S.tells S.left S.known S.faults flaw_stop string result stream.old stream.new }
    ensures unread { StopsUnread S.tells S.left S.known result stream.old stream.new }
    ensures cause { IfErr result (StopHasCause string (Rose (S.faults stream.old) (S.faults stream.new))) }
{
    match stream.read_ssh_bytes(alloc) {
        Ok(bytes) => Ok(bytes),
        Err(e) => Err(Stop::from(e)),
    }
}

/// A text, as `read_ssh_string` reads it. Refuses, in order: `Fault`, `Short`, `NotUtf8`.
#[tactic(auto, using(crate::proofs::FieldLemmas::field_stops))]
pub fn take_text<S: Source>(alloc: Global, stream: &mut S) -> Result<Text, Stop>
    ensures takes { TakesLayout S.tells S.left S.known S.faults flaw_stop text result stream.old stream.new }
    ensures unread { StopsUnread S.tells S.left S.known result stream.old stream.new }
    ensures cause { IfErr result (StopHasCause text (Rose (S.faults stream.old) (S.faults stream.new))) }
{
    match stream.read_ssh_string(alloc) {
        Ok(text) => Ok(text),
        Err(e) => Err(Stop::from(e)),
    }
}

/// A number of one byte. Refuses, in order: `Fault`, `Short`.
#[tactic(auto, using(crate::proofs::FieldLemmas::field_stops))]
pub fn take_byte<S: Source>(stream: &mut S) -> Result<u8, Stop>
    ensures takes { TakesLayout S.tells S.left S.known S.faults flaw_stop byte result stream.old stream.new }
    ensures cause { IfErr result (StopIsShort (Rose (S.faults stream.old) (S.faults stream.new))) }
{
    match read_byte(stream) {
        Ok(number) => Ok(number),
        Err(e) => Err(Stop::from(e)),
    }
}

/// A number of four bytes. Refuses, in order: `Fault`, `Short`.
#[tactic(auto, using(crate::proofs::FieldLemmas::field_stops))]
pub fn take_uint32<S: Source>(stream: &mut S) -> Result<u32, Stop>
    ensures takes { TakesLayout S.tells S.left S.known S.faults flaw_stop uint32 result stream.old stream.new }
    ensures cause { IfErr result (StopIsShort (Rose (S.faults stream.old) (S.faults stream.new))) }
{
    match read_uint32(stream) {
        Ok(number) => Ok(number),
        Err(e) => Err(Stop::from(e)),
    }
}

/// A number of eight bytes. Refuses, in order: `Fault`, `Short`.
#[tactic(auto, using(crate::proofs::FieldLemmas::field_stops))]
pub fn take_uint64<S: Source>(stream: &mut S) -> Result<u64, Stop>
    ensures takes { TakesLayout S.tells S.left S.known S.faults flaw_stop uint64 result stream.old stream.new }
    ensures cause { IfErr result (StopIsShort (Rose (S.faults stream.old) (S.faults stream.new))) }
{
    match read_uint64(stream) {
        Ok(number) => Ok(number),
        Err(e) => Err(Stop::from(e)),
    }
}
