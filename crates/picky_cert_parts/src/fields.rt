//! The fields of a layout, read from a source with the layer's own error, which may carry what stood there.

ghost use Rattle.std.specs.Prelude.{IfErr, ◌≢◌};
ghost use Rattle.picky_wire.specs.declared.error.WireError.TheVariants as wire_errors;
ghost use Rattle.picky_wire_base.specs.Numbers.{byte};
ghost use Rattle.picky_wire_base.specs.Wire.{string, text, uint32};
ghost use Rattle.picky_wire.specs.Count.{Rose};
ghost use Rattle.picky_wire.specs.Takes.{Takes, HasCause, causes_of};
ghost use Rattle.picky_cert_parts.specs.Field.{field};

use picky_wire::{Bytes, CodecError, Source, SshReadExt, Text, read_byte, read_uint32};
use std::alloc::Global;

/// A text, as `read_ssh_string` reads it.
/// Refuses, in order: `E`'s error for `ReadFault`, `UnexpectedEnd`, `InvalidUtf8`.
#[tactic(auto, using(crate::proofs::FieldLemmas::layer_fields))]
pub fn text_field<E: CodecError, S: Source>(alloc: Global, stream: &mut S) -> Result<Text, E>
    ensures takes { Takes S.tells S.left S.known S.faults (causes_of E.of_wire) (field E.of_wire text).read text.used result stream.old stream.new }
    ensures cause { IfErr result (HasCause (causes_of E.of_wire) (field E.of_wire text).read (Rose (S.faults stream.old) (S.faults stream.new))) }
{
    match stream.read_ssh_string(alloc) {
        Ok(text) => Ok(text),
        Err(e) => Err(E::from_wire(e)),
    }
}

/// A string's bytes, as `read_ssh_bytes` reads them. Refuses, in order: `E`'s error for `ReadFault`, `UnexpectedEnd`.
#[tactic(auto, using(crate::proofs::FieldLemmas::layer_fields))]
pub fn bytes_field<E: CodecError, S: Source>(alloc: Global, stream: &mut S) -> Result<Bytes, E>
    ensures takes { Takes S.tells S.left S.known S.faults (causes_of E.of_wire) (field E.of_wire string).read string.used result stream.old stream.new }
    ensures cause { IfErr result (HasCause (causes_of E.of_wire) (field E.of_wire string).read (Rose (S.faults stream.old) (S.faults stream.new))) }
{
    match stream.read_ssh_bytes(alloc) {
        Ok(bytes) => Ok(bytes),
        Err(e) => Err(E::from_wire(e)),
    }
}

/// A number of four bytes. Refuses, in order: `E`'s error for `ReadFault`, `UnexpectedEnd`.
#[tactic(auto, using(crate::proofs::FieldLemmas::layer_fields))]
pub fn uint32_field<E: CodecError, S: Source>(stream: &mut S) -> Result<u32, E>
    ensures takes { Takes S.tells S.left S.known S.faults (causes_of E.of_wire) (field E.of_wire uint32).read uint32.used result stream.old stream.new }
    ensures no_want { IfErr result (λ e. e ≢ E.of_wire wire_errors.NoMemory) }
    ensures cause { IfErr result (HasCause (causes_of E.of_wire) (field E.of_wire uint32).read (Rose (S.faults stream.old) (S.faults stream.new))) }
{
    match read_uint32(stream) {
        Ok(number) => Ok(number),
        Err(e) => Err(E::from_wire(e)),
    }
}

/// A number of one byte. Refuses, in order: `E`'s error for `ReadFault`, `UnexpectedEnd`.
#[tactic(auto, using(crate::proofs::FieldLemmas::layer_fields))]
pub fn byte_field<E: CodecError, S: Source>(stream: &mut S) -> Result<u8, E>
    ensures takes { Takes S.tells S.left S.known S.faults (causes_of E.of_wire) (field E.of_wire byte).read byte.used result stream.old stream.new }
    ensures no_want { IfErr result (λ e. e ≢ E.of_wire wire_errors.NoMemory) }
    ensures cause { IfErr result (HasCause (causes_of E.of_wire) (field E.of_wire byte).read (Rose (S.faults stream.old) (S.faults stream.new))) }
{
    match read_byte(stream) {
        Ok(number) => Ok(number),
        Err(e) => Err(E::from_wire(e)),
    }
}
