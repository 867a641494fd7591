//! Texts as elements, and lists of them.

ghost use Rattle.std.specs.Prelude.{◌≡◌, ◌^◌, ◌<◌, ◌≤◌, List, None, refl, Err, length, IfErr};
ghost use Rattle.std.specs.List.{flat_map};
ghost use Rattle.picky_wire_base.specs.Many.{read_many};
ghost use Rattle.picky_wire_base.specs.Wire.{string, string_of};
ghost use Rattle.picky_wire.specs.Count.{Rose};
ghost use Rattle.picky_wire.specs.Flaws.{wire_causes, wire_error};
ghost use Rattle.picky_wire.specs.Unread.{Unread};
ghost use Rattle.picky_wire.specs.Takes.{Takes, TakesString, HasCause, causes_of};
ghost use Rattle.picky_wire.specs.Principals.{principal, IsPrincipal};
ghost use Rattle.picky_wire.specs.carried.Principals.{principal_spells, principal_own, principal_solid};
ghost use Rattle.picky_wire.specs.Puts.{Puts};

use crate::element::{SshComplexTypeDecode, SshComplexTypeEncode, SshElement, SshLayout};
use crate::error::WireError;
use crate::list_codec::{decode_list, encode_list};
use crate::piece::write_piece;
use crate::read::SshReadExt;
use crate::sink::Sink;
use crate::source::Source;
use picky_wire_base::{List, Piece, Text};
use std::alloc::Global;

/// Writes the texts' string fields, joined, as a string field.
///
/// `valid principals` of PROTOCOL.certkeys. Refuses, in order: `TooLong`, where they have 2^32 bytes
/// or more, `WriteFault`.
pub fn encode_principals<S: Sink>(items: &[Text], stream: &mut S) -> Result<(), WireError>
    ensures puts { length (flat_map string_of items.now) < 2 ^ 32
        → Puts S.tells S.written S.faults WireError.WriteFault (string_of (flat_map string_of items.now))
        result stream.old stream.new }
    ensures too_long { 2 ^ 32 ≤ length (flat_map string_of items.now)
        → (result ≡ Err WireError.TooLong) × (stream.new ≡ stream.old) }
{
    encode_list(items, stream)
}

/// The texts that a string field is made of, with nothing left over.
///
/// `valid principals` of PROTOCOL.certkeys. Refuses, in order: `ReadFault`, `UnexpectedEnd`, where
/// the string or a text in it is cut, `InvalidUtf8`.
pub fn decode_principals<S: Source>(alloc: Global, stream: &mut S) -> Result<List<Text>, WireError>
    ensures takes { Takes S.tells S.left S.known S.faults wire_causes (read_many wire_error principal)
        string.used result stream.old stream.new }
    ensures unread { Unread S.tells S.left S.known wire_causes result stream.old stream.new }
    ensures taken { S.tells stream.old → TakesString wire_causes result (S.left stream.old) (S.left stream.new) }
    ensures cause { IfErr result (HasCause wire_causes (read_many wire_error principal)
        (Rose (S.faults stream.old) (S.faults stream.new))) }
{
    decode_list(alloc, stream)
}

impl SshComplexTypeEncode for Text {
    type Error = WireError;

    ghost spelling = { string_of };

    ghost write_reason = { λ _. None };

    ghost keeps = { IsPrincipal };

    ghost reason_is_no_want = { λ v same. Prim.cc same };

    /// Writes the text as a string field (RFC 4251, section 5). Refuses: `WriteFault`.
    fn encode<S: Sink>(&self, stream: &mut S) -> Result<(), WireError> {
        write_piece(stream, &Piece::text(self))
    }

    fn spelling_len(&self) -> u64 {
        self.as_str().len() as u64 + 4
    }
}

impl SshComplexTypeDecode for Text {
    type Error = WireError;

    ghost reads = { principal.read };

    ghost used = { principal.used };

    ghost own = { principal_own };

    /// The text of a string field (RFC 4251, section 5). Refuses as `read_ssh_string`.
    #[tactic(auto, unfolding(crate::specs::Principals::principal))]
    fn decode<S: Source>(alloc: Global, stream: &mut S) -> Result<Text, WireError>
        ensures unread { Unread S.tells S.left S.known wire_causes result stream.old stream.new }

        // What every element promises.
        ensures takes { Takes S.tells S.left S.known S.faults (causes_of (λ e. e)) principal.read principal.used
            result stream.old stream.new }
        ensures cause { IfErr result (HasCause (causes_of (λ e. e)) principal.read
            (Rose (S.faults stream.old) (S.faults stream.new))) }
    {
        match stream.read_ssh_string(alloc) {
            Ok(text) => Ok(text),
            Err(e) => Err(e),
        }
    }
}

impl SshLayout for Text {
    ghost layout = { principal };

    ghost reads_layout = { λ bytes. refl };

    ghost used_layout = { λ bytes. refl };

    ghost solid = { principal_solid };

    fn refusal(error: WireError) -> WireError {
        error
    }
}

impl SshElement for Text {
    ghost spelled = { λ v keeps _. principal_spells v keeps };
}
