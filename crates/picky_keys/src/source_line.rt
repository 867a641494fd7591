//! A public key line taken from a source.

ghost use Rattle.std.specs.Prelude.{◌≡◌, ◌≢◌, ◌^◌, ◌<◌, ◌≤◌, ◌∷◌, [], Err, length, IfOk, IfErr, OnOk, OnErr};
ghost use Rattle.std.specs.Prelude.{MatchOption, IsSome};
ghost use Rattle.picky_wire_base.specs.Outcome.{map_ok};
ghost use Rattle.picky_text.specs.Words.{ends_line};
ghost use Rattle.picky_wire.specs.Count.{Keeps, Rose};
ghost use Rattle.picky_wire.specs.Takes.{Takes, HasCause, causes_of};
ghost use Rattle.picky_wire.specs.declared.error.IoKind.TheVariants as io_kinds;
ghost use Rattle.picky_wire.specs.declared.error.WireError.TheVariants as wire;
ghost use Rattle.picky_keys.specs.FromWire.{public_key_error};
ghost use Rattle.picky_keys.specs.LineRefusal.{line_meaning};
ghost use Rattle.picky_keys.specs.SourceLine.{after_line, line_used, read_line, source_meaning, HasLine, Stays};

use crate::error::SshPublicKeyError;
use crate::key::SshPublicKey;
use crate::line::key_of_line;
use picky_wire::{CodecError, Failed, MAX_LEN, Source, SshComplexTypeDecode, WireError};
use std::alloc::Global;

impl SshComplexTypeDecode for SshPublicKey {
    ghost use Rattle.picky_keys.specs.carried.SourceLine.{source_own};

    type Error = SshPublicKeyError;

    ghost reads = { source_meaning };

    ghost used = { line_used };

    ghost own = { source_own };

    /// The key and the comment of the line in front, which is taken with the one CR or LF that ends it.
    ///
    /// Refuses, in order: `IoError(ReadFault)`, `TooLong`, where 2^32 bytes came without CR or LF,
    /// `UnknownKeyType`, `Base64DecodeError`, the blob's, `InvalidUtf8` for the comment.
    fn decode<S: Source>(alloc: Global, stream: &mut S) -> Result<SshPublicKey, SshPublicKeyError>
        ensures takes { Takes S.tells S.left S.known S.faults (causes_of public_key_error) source_meaning line_used
            result stream.old stream.new }
        ensures cause { IfErr result (HasCause (causes_of public_key_error) source_meaning
            (Rose (S.faults stream.old) (S.faults stream.new))) }

        // Whatever the source tells, some line means the key.
        ensures meant { IfOk result (HasLine line_meaning) }

        // A line that is refused for what it says was taken, a cut blob's too.
        ensures taken { S.tells stream.old → IfErr result (λ e. e ≢ SshPublicKeyError.IoError io_kinds.ReadFault
            → e ≢ SshPublicKeyError.NoMemory → S.left stream.new ≡ after_line (S.left stream.old)) }
    {
        match take_line::<SshPublicKeyError, S>(alloc, stream) {
            Ok(line) => key_of_line(alloc, line.as_slice()),
            Err(e) => Err(e),
        }
    }
}

/// The line in front of the source's bytes, without the one CR or LF that ends it, which is taken too.
///
/// Refuses, in order: `ReadFault`; `TooLong`, where 2^32 bytes came without CR or LF; `NoMemory`. Each is the error's own.
pub fn take_line<E: CodecError, S: Source>(alloc: Global, stream: &mut S) -> Result<Vec<u8>, E>
    ensures takes { Takes S.tells S.left S.known S.faults (causes_of E.of_wire) (read_line E.of_wire) line_used
        (map_ok (λ line. line.items) result) stream.old stream.new }
    ensures cause { IfErr result (HasCause (causes_of E.of_wire) (read_line E.of_wire)
        (Rose (S.faults stream.old) (S.faults stream.new))) }
    ensures taken { S.tells stream.old → IfErr result (λ e. e ≢ E.of_wire wire.ReadFault
        → e ≢ E.of_wire wire.NoMemory → S.left stream.new ≡ after_line (S.left stream.old)) }
    ensures line { IfOk result (λ line. Stays line.items × (length line.items < 2 ^ 32)) }
{
    let mut line = Vec::new(alloc);
    'bytes: while line.len() <= MAX_LEN {
        match next_byte(stream) {
            Ok(None) => return Ok(line),
            Ok(Some(byte)) => {
                if ends_the_line(byte) {
                    return Ok(line);
                }
                match line.push(byte) {
                    Ok(()) => {}
                    Err(_) => return Err(E::from_wire(WireError::NoMemory)),
                }
            }
            Err(_) => return Err(E::from_wire(WireError::ReadFault)),
        }
    }
    Err(E::from_wire(WireError::TooLong))
}

fn ends_the_line(byte: u8) -> bool
    ensures { result ≡ ends_line byte }
{
    byte == b'\r' || byte == b'\n'
}

/// The next byte of a source, where there is one.
fn next_byte<S: Source>(stream: &mut S) -> Result<Option<u8>, Failed>
    ensures byte { S.tells stream.old → IfOk result (λ next. MatchOption next
        ((S.left stream.old ≡ []) × (S.left stream.new ≡ [])) (λ b. S.left stream.old ≡ b ∷ S.left stream.new)) }
    ensures kept { S.tells stream.old → OnErr result (S.left stream.new ≡ S.left stream.old) }
    ensures keeps { Keeps S.tells S.faults result stream.old stream.new }
    ensures knows_on { IsSome (S.known stream.old) → IsSome (S.known stream.new) }
{
    let mut buffer = [0u8; 1];
    match stream.read(&mut buffer) {
        Ok(0) => Ok(None),
        Ok(_) => {
            let [byte] = buffer;
            Ok(Some(byte))
        }
        Err(e) => Err(e),
    }
}
