//! The laws of the wire's elements, and of what is read from a source, each as the contract of a function that does nothing.

ghost use Rattle.std.specs.Prelude.{◌≡◌, ◌^◌, ◌<◌, ◌++◌, ℕ, List, All, None, Ok, Err, length, IsUtf8};
ghost use Rattle.std.specs.Ordering.{nat_cmp};
ghost use Rattle.std.specs.Int.{w8, w32, w64, to_be_bytes};
ghost use Rattle.std.specs.List.{flat_map};
ghost use Rattle.picky_wire_base.specs.Wire.{uint32, string, string_of, text};
ghost use Rattle.picky_wire_base.specs.Numbers.{byte, uint64};
ghost use Rattle.picky_wire_base.specs.Mpint.{IsMpintPiece, mpint};
ghost use Rattle.picky_wire_base.specs.When.{HasOneFront};
ghost use Rattle.picky_wire_base.specs.Equality.{IsEquality, IsOrder};
ghost use Rattle.picky_wire_base.specs.Reading.{IsReading, IsStuck};
ghost use Rattle.picky_wire_base.specs.Inside.{SubPiece, sub};
ghost use Rattle.picky_wire_base.specs.Many.{ManyPiece, read_many};
ghost use Rattle.picky_wire_base.specs.Row.{read_all};
ghost use Rattle.picky_wire.specs.Flaws.{wire_error};

use crate::element::{SshElement, SshLayout};
use crate::error::{IoKind, WireError};
use crate::source::Source;
use crate::stop::Stop;
use crate::timestamp::Timestamp;

/// Each element, each list of one kind of elements, and each element inside a string is read one way or refused for
/// one reason, and no piece is a proper front of another.
pub fn elements_are_read_one_way<T: SshLayout>()
    ensures element { IsReading T.reads T.layout.piece }
    ensures list { IsReading (read_many (λ flaw. T.Error.of_wire (wire_error flaw)) T.layout)
        (ManyPiece T.layout.piece) }
    ensures inside { IsReading (sub (λ flaw. T.Error.of_wire (wire_error flaw)) T.layout).read
        (SubPiece T.layout.piece) }
{}

/// The canonical spelling of an element, and of a list, is read back, whatever follows it.
pub fn elements_are_read_back<T: SshElement>()
    ensures element { (v : T) (rest : List ℕ) → T.keeps v → T.write_reason v ≡ None
        → T.reads (T.spelling v ++ rest) ≡ Ok (v, rest) }
    ensures list { (vs : List T) (rest : List ℕ) → All T.keeps vs
        → All (λ v. T.write_reason v ≡ None) vs → length (flat_map T.spelling vs) < 2 ^ 32
        → (cut : _) → read_many cut T.layout (string_of (flat_map T.spelling vs) ++ rest) ≡ Ok (vs, rest) }
{}

/// A block that is no list of elements begins with spellings of some, after which none is spelled: its
/// error is the element's there.
pub fn blocks_are_refused_at_one_place<T: SshLayout>()
    ensures { (block : List ℕ) (e : _) → read_all T.layout block ≡ Err e
        → IsStuck T.layout.read T.layout.piece block e }
{}

/// A field that is read from a source that tells its bytes is the standard's piece, and no byte more was
/// taken (RFC 4251, section 5). The second premise is what a field read says of its Ok, in `field`.
pub fn fields_take_the_standards_pieces<S: Source>()
    ensures byte { (before after : S) (n : ℕ) → S.tells before
        → byte.read (S.left before) ≡ Ok (n, S.left after)
        → (S.left before ≡ to_be_bytes w8 n ++ S.left after) × (n < 2 ^ 8) }
    ensures uint32 { (before after : S) (n : ℕ) → S.tells before
        → uint32.read (S.left before) ≡ Ok (n, S.left after)
        → (S.left before ≡ to_be_bytes w32 n ++ S.left after) × (n < 2 ^ 32) }
    ensures uint64 { (before after : S) (n : ℕ) → S.tells before
        → uint64.read (S.left before) ≡ Ok (n, S.left after)
        → (S.left before ≡ to_be_bytes w64 n ++ S.left after) × (n < 2 ^ 64) }
    ensures string { (before after : S) (v : List ℕ) → S.tells before
        → string.read (S.left before) ≡ Ok (v, S.left after)
        → (S.left before ≡ string_of v ++ S.left after) × (length v < 2 ^ 32) }
    ensures text { (before after : S) (v : List ℕ) → S.tells before
        → text.read (S.left before) ≡ Ok (v, S.left after)
        → (S.left before ≡ string_of v ++ S.left after) × (length v < 2 ^ 32) × IsUtf8 v }

    // An mpint's piece is the string of its bytes after any zeros.
    ensures mpint { (before after : S) (v : List ℕ) → S.tells before
        → mpint.read (S.left before) ≡ Ok (v, S.left after)
        → (piece : List ℕ) × IsMpintPiece v piece × (S.left before ≡ piece ++ S.left after) }
{}

/// No piece is a proper front of another, and one front spells one value: of an element, of a list of elements, and
/// of an element inside a string.
pub fn no_piece_is_a_front_of_another<T: SshLayout>()
    ensures element { HasOneFront T.layout.piece }
    ensures list { HasOneFront (ManyPiece T.layout.piece) }
    ensures inside { HasOneFront (SubPiece T.layout.piece) }
{}

/// Two moments are equal exactly where their contents are, and so are two refusals.
pub fn equality_is_of_contents()
    ensures moment { IsEquality ⟦<Timestamp as PartialEq>⟧.eq }
    ensures io_kind { IsEquality ⟦<IoKind as PartialEq>⟧.eq }
    ensures error { IsEquality ⟦<WireError as PartialEq>⟧.eq }
    ensures stop { IsEquality ⟦<Stop as PartialEq>⟧.eq }
{}

/// Two moments are ordered by their seconds.
pub fn order_is_of_contents()
    ensures moment { IsOrder (λ (a b : Timestamp). nat_cmp a.0 b.0) ⟦<Timestamp as PartialOrd>⟧.partial_cmp
        ⟦<Timestamp as Ord>⟧.cmp }
{}
