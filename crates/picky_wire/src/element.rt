//! Values that have a spelling of their own on the wire.

ghost use Rattle.std.specs.Prelude.{◌≡◌, ◌^◌, ◌↔◌, ℕ, List, Option, Some, None, Result, Err, length, min, IsTrue};
ghost use Rattle.std.specs.Prelude.{IfErr, MatchOption};
ghost use Rattle.picky_wire_base.specs.Grammar.{Grammar};
ghost use Rattle.picky_wire_base.specs.Row.{Solid};
ghost use Rattle.picky_wire.specs.declared.error.WireError.{WireError};
ghost use Rattle.picky_wire.specs.declared.error.WireError.TheVariants as errors;
ghost use Rattle.picky_wire.specs.Count.{Rose};
ghost use Rattle.picky_wire.specs.OfWire.{IsErrorOfBytes};
ghost use Rattle.picky_wire.specs.Takes.{Takes, HasCause, causes_of};
ghost use Rattle.picky_wire.specs.Puts.{Puts};

use crate::error::WireError;
use crate::sink::Sink;
use crate::source::Source;
use std::alloc::Global;

/// An error in which each of the wire's errors has a place of its own.
pub trait CodecError: From<WireError> + Drop {
    // the error that says what the wire's error says
    ghost of_wire: { WireError → Self };

    /// Whether it is want of memory.
    fn is_no_memory(&self) -> bool
        ensures { IsTrue result ↔ (self.now ≡ of_wire errors.NoMemory) };

    /// The error that says what the wire's error says.
    final fn from_wire(e: WireError) -> Self
        ensures { result ≡ of_wire e }
    {
        Self::from(e)
    }

    ghost from_alike: { (e : WireError) (x : Self) → Self.from_gives e x → x ≡ of_wire e };

    ghost apart: { (d e : WireError) → of_wire d ≡ of_wire e → d ≡ e };
}

/// A value that is written as one spelling.
pub trait SshComplexTypeEncode {
    type Error: CodecError;

    // the value's canonical spelling
    ghost spelling: { Self → List ℕ };

    // why the value isn't written, where it isn't
    ghost write_reason: { Self → Option Self.Error };

    // what each value of the type keeps: the ranges of its numbers, and what its parts keep
    ghost keeps: { Self → Type 0 };

    /// Writes the value's spelling. Where the type refuses the value, nothing is written.
    /// Refuses, in order: the type's own; its error for `WriteFault`.
    fn encode<S: Sink>(&self, stream: &mut S) -> Result<(), Self::Error>
        ensures { MatchOption (write_reason self.now)
            (Puts S.tells S.written S.faults (Self.Error.of_wire errors.WriteFault) (spelling self.now)
            result stream.old stream.new)
            (λ e. (result ≡ Err e) × (stream.new ≡ stream.old)) };

    /// The length of the spelling, or 2^40 where it is longer.
    fn spelling_len(&self) -> u64
        ensures len { result ≡ min (length (spelling self.now)) (2 ^ 40) }
        ensures keeps { keeps self.now };

    /// The error of writing that says what the wire's error says.
    final fn write_refusal(error: WireError) -> Self::Error
    where
        Self: Sized,
        ensures { result ≡ Self.Error.of_wire error }
    {
        Self::Error::from_wire(error)
    }

    // a value is not refused for want of memory, since writing takes none
    ghost reason_is_no_want: { (v : Self) → write_reason v ≡ Some (Self.Error.of_wire errors.NoMemory) → ⊥ };
}

/// A value that is read from its spelling.
pub trait SshComplexTypeDecode: Sized {
    type Error: CodecError;

    // the value that the bytes begin with and what follows it, or why they begin with none
    ghost reads: { List ℕ → Result (Self × List ℕ) Self.Error };

    // how many bytes it takes, or how many there are up to the end of the field that is refused
    ghost used: { List ℕ → ℕ };

    /// The value that the source's bytes begin with. Exactly what follows it is left.
    /// Refuses: the type's error for `ReadFault`; the type's own, where the bytes begin with no value.
    fn decode<S: Source>(alloc: Global, stream: &mut S) -> Result<Self, Self::Error>
        ensures takes { Takes S.tells S.left S.known S.faults (causes_of Self.Error.of_wire) reads used
            result stream.old stream.new }

        // Over a source that doesn't tell its bytes, too, each error is one that some bytes have.
        ensures cause { IfErr result (HasCause (causes_of Self.Error.of_wire) reads
            (Rose (S.faults stream.old) (S.faults stream.new))) };

    /// Whether the error is want of memory.
    final fn no_memory(error: &Self::Error) -> bool
        ensures { IsTrue result ↔ (error.now ≡ Self.Error.of_wire errors.NoMemory) }
    {
        error.is_no_memory()
    }

    // no bytes are refused for a fault or for want of memory
    ghost own: { (bytes : List ℕ) (e : Self.Error) → reads bytes ≡ Err e → IsErrorOfBytes Self.Error.of_wire e };
}

/// A value that is read by a layout, which says where its spelling ends.
pub trait SshLayout: SshComplexTypeDecode + Drop {
    // which bytes spell which value, and how the value in front is read
    ghost layout: { Grammar Self.Error Self };

    /// The error of reading that says what the wire's error says.
    fn refusal(error: WireError) -> Self::Error
        ensures { result ≡ Self.Error.of_wire error };

    // `decode` reads the layout
    ghost reads_layout: { (bytes : List ℕ) → Self.reads bytes ≡ layout.read bytes };

    ghost used_layout: { (bytes : List ℕ) → Self.used bytes ≡ layout.used bytes };

    // a spelling has at least one byte
    ghost solid: { Solid layout.piece };
}

/// A value that is read and written, so that a list can be made of them.
pub trait SshElement: SshComplexTypeEncode + SshLayout {
    // the canonical spelling of a value that is written is one of its spellings
    ghost spelled: { (v : Self) → Self.keeps v → Self.write_reason v ≡ None
        → Self.layout.piece v (Self.spelling v) };
}
