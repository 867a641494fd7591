//! The laws of the wire's layouts and values, each as the contract of a function that does nothing.

ghost use Rattle.std.specs.Prelude.{◌≡◌, ◌≢◌, ◌^◌, ◌-◌, ◌<◌, ◌≤◌, ◌++◌, ◌∷◌, ◌↔◌, ◌⊎◌, ℕ, List, Ok, Err, length};
ghost use Rattle.std.specs.Prelude.{take, drop, slice_index, IsTrue, IsUtf8};
ghost use Rattle.std.specs.Cmp.Lexicographic.{slice_cmp};
ghost use Rattle.std.specs.Ordering.{nat_cmp};
ghost use Rattle.std.specs.Int.{w8, w32, w64, from_be_bytes, to_be_bytes};
ghost use Rattle.picky_wire_base.specs.Flaw.{Flaw, Short, NotUtf8, Big, Flawed, Length, Magic, Name, Number, Reason};
ghost use Rattle.picky_wire_base.specs.Grammar.{Grammar, Fits};
ghost use Rattle.picky_wire_base.specs.Narrowed.{Narrowing};
ghost use Rattle.picky_wire_base.specs.Combine.{narrow};
ghost use Rattle.picky_wire_base.specs.Wire.{byte_array, uint32, string, string_of, text};
ghost use Rattle.picky_wire_base.specs.Numbers.{IsBytes, byte, uint64};
ghost use Rattle.picky_wire_base.specs.Short.{EndsInString};
ghost use Rattle.picky_wire_base.specs.Fixed.{raw, sized, fixed_uint32};
ghost use Rattle.picky_wire_base.specs.Table.{Table};
ghost use Rattle.picky_wire_base.specs.Named.{named};
ghost use Rattle.picky_wire_base.specs.Zeros.{without_zeros};
ghost use Rattle.picky_wire_base.specs.Magnitude.{IsMagnitude};
ghost use Rattle.picky_wire_base.specs.Mpint.{IsMpintPiece, mpint, mpint_of};
ghost use Rattle.picky_wire_base.specs.When.{IsShortWhere, HoldsString, HasOneFront, followed_by};
ghost use Rattle.picky_wire_base.specs.Equality.{HasEqualItems, IsEquality, IsEqualityOf, IsOrder};
ghost use Rattle.picky_wire_base.specs.View.{part_shown, word_shown, stuck_shown};
ghost use Rattle.picky_wire_base.specs.Reading.{IsReading};

use crate::bytes::{Bytes, Text};
use crate::error::SizeError;
use crate::list::List as Values;
use crate::mpint::Mpint;
use crate::view::{Part, Stuck, Word};

/// Each field is read one way or refused for one reason, and no piece is a proper front of another.
pub fn fields_are_read_one_way()
    ensures byte { IsReading byte.read byte.piece }
    ensures uint32 { IsReading uint32.read uint32.piece }
    ensures uint64 { IsReading uint64.read uint64.piece }
    ensures string { IsReading string.read string.piece }
    ensures text { IsReading text.read text.piece }
    ensures mpint { IsReading mpint.read mpint.piece }
{}

/// The canonical piece is read back, whatever follows it.
pub fn fields_are_read_back()
    ensures uint32 { (n : ℕ) (rest : List ℕ) → n < 2 ^ 32
        → uint32.read (to_be_bytes w32 n ++ rest) ≡ Ok (n, rest) }
    ensures uint64 { (n : ℕ) (rest : List ℕ) → n < 2 ^ 64
        → uint64.read (to_be_bytes w64 n ++ rest) ≡ Ok (n, rest) }
    ensures string { (v rest : List ℕ) → length v < 2 ^ 32
        → string.read (string_of v ++ rest) ≡ Ok (v, rest) }
    ensures text { (v rest : List ℕ) → length v < 2 ^ 32 → IsUtf8 v
        → text.read (string_of v ++ rest) ≡ Ok (v, rest) }
    ensures mpint { (v rest : List ℕ) → IsMagnitude v
        → mpint.read (mpint_of v ++ rest) ≡ Ok (v, rest) }
{}

/// A string's pieces are its four bytes of length and then its bytes (RFC 4251, section 5).
pub fn string_pieces_are_the_standards()
    ensures string { (v bytes : List ℕ) → IsBytes bytes → string.piece v bytes
        ↔ ((bytes ≡ to_be_bytes w32 (length v) ++ v) × (length v < 2 ^ 32)) }
    ensures text { (v bytes : List ℕ) → IsBytes bytes → text.piece v bytes
        ↔ ((bytes ≡ to_be_bytes w32 (length v) ++ v) × (length v < 2 ^ 32) × IsUtf8 v) }
{}

/// An mpint's pieces are the strings of its bytes after any zeros. In the canonical one a zero byte
/// stands exactly before a first byte of 128 or more (RFC 4251, section 5).
pub fn mpint_pieces_are_the_standards()
    ensures pieces { (v bytes : List ℕ) → IsBytes bytes
        → mpint.piece v bytes ↔ IsMpintPiece v bytes }
    ensures canonical { (v : List ℕ) → IsMagnitude v → mpint.piece v (mpint_of v) }
    ensures high { (v : List ℕ) → 128 ≤ slice_index v 0 → mpint_of v ≡ string_of (0 ∷ v) }
    ensures low { (v : List ℕ) → slice_index v 0 < 128 → mpint_of v ≡ string_of v }
{}

/// A number is refused exactly where fewer bytes are left than it has, and always as short.
pub fn numbers_are_refused_exactly()
    ensures byte { IsShortWhere byte.read (λ bytes. length bytes < 1) }
    ensures uint32 { IsShortWhere uint32.read (λ bytes. length bytes < 4) }
    ensures uint64 { IsShortWhere uint64.read (λ bytes. length bytes < 8) }
    ensures byte_array { (n : ℕ) → IsShortWhere (byte_array n).read (λ bytes. length bytes < n) }
{}

/// A string is refused exactly where the bytes end inside it; a text also where its whole string
/// isn't UTF-8 (RFC 4251, section 5).
pub fn strings_are_refused_exactly()
    ensures string { IsShortWhere string.read EndsInString }
    ensures text_short { (bytes : List ℕ) → text.read bytes ≡ Err Short ↔ EndsInString bytes }
    ensures text_not_utf8 { (bytes : List ℕ) → text.read bytes ≡ Err NotUtf8
        ↔ HoldsString bytes (λ v. IsUtf8 v → ⊥) }
    ensures text_only { (bytes : List ℕ) (e : Flaw) → text.read bytes ≡ Err e
        → (e ≡ Short) ⊎ (e ≡ NotUtf8) }
{}

/// An mpint is refused exactly where the bytes end inside its string, or where its whole string has
/// 2^32 - 1 bytes or more after its zeros; fewer than 2^32 bytes hold none of those.
pub fn mpints_are_refused_exactly()
    ensures short { (bytes : List ℕ) → mpint.read bytes ≡ Err Short ↔ EndsInString bytes }
    ensures big { (bytes : List ℕ) → mpint.read bytes ≡ Err Big
        ↔ HoldsString bytes (λ v. 2 ^ 32 - 1 ≤ length (without_zeros v)) }
    ensures only { (bytes : List ℕ) (e : Flaw) → mpint.read bytes ≡ Err e
        → (e ≡ Short) ⊎ (e ≡ Big) }
    ensures not_big { (bytes : List ℕ) → length bytes < 2 ^ 32 → mpint.read bytes ≢ Err Big }
{}

/// Where the bytes don't end inside a field, it is read; a text and an mpint where what their
/// string holds is allowed.
pub fn whole_fields_are_read()
    ensures byte { (bytes : List ℕ) → 1 ≤ length bytes
        → byte.read bytes ≡ Ok (from_be_bytes w8 (take 1 bytes), drop 1 bytes) }
    ensures uint32 { (bytes : List ℕ) → 4 ≤ length bytes
        → uint32.read bytes ≡ Ok (from_be_bytes w32 (take 4 bytes), drop 4 bytes) }
    ensures uint64 { (bytes : List ℕ) → 8 ≤ length bytes
        → uint64.read bytes ≡ Ok (from_be_bytes w64 (take 8 bytes), drop 8 bytes) }
    ensures byte_array { (n : ℕ) (bytes : List ℕ) → n ≤ length bytes
        → (byte_array n).read bytes ≡ Ok (take n bytes, drop n bytes) }
    ensures string { (bytes : List ℕ) → (EndsInString bytes → ⊥)
        → string.read bytes ≡ Ok (
          take (from_be_bytes w32 (take 4 bytes)) (drop 4 bytes),
          drop (from_be_bytes w32 (take 4 bytes)) (drop 4 bytes),
        ) }
    ensures text { (bytes v rest : List ℕ) → string.read bytes ≡ Ok (v, rest) → IsUtf8 v
        → text.read bytes ≡ Ok (v, rest) }
    ensures mpint { (bytes v rest : List ℕ) → string.read bytes ≡ Ok (v, rest)
        → length (without_zeros v) < 2 ^ 32 - 1 → mpint.read bytes ≡ Ok (without_zeros v, rest) }
{}

/// Bytes that a layout fixes are refused as short where fewer are left, and else exactly where they
/// differ.
pub fn fixed_bytes_are_refused_exactly()
    ensures short { (i : ℕ) (fixed bytes : List ℕ)
        → (raw i fixed).read bytes ≡ Err (i, Flawed Short) ↔ length bytes < length fixed }
    ensures magic { (i : ℕ) (fixed bytes : List ℕ)
        → (raw i fixed).read bytes ≡ Err (i, Magic)
        ↔ ((length fixed ≤ length bytes) × (take (length fixed) bytes ≢ fixed)) }
    ensures only { (i : ℕ) (fixed bytes : List ℕ) (r : Reason)
        → (raw i fixed).read bytes ≡ Err r
        → (r ≡ (i, Flawed Short)) ⊎ (r ≡ (i, Magic)) }
{}

/// So is a number that a layout fixes, with the number that stands in its place.
pub fn fixed_numbers_are_refused_exactly()
    ensures short { (i n : ℕ) (bytes : List ℕ)
        → (fixed_uint32 i n).read bytes ≡ Err (i, Flawed Short) ↔ length bytes < 4 }
    ensures number { (i n m : ℕ) (bytes : List ℕ)
        → (fixed_uint32 i n).read bytes ≡ Err (i, Number m)
        ↔ ((4 ≤ length bytes) × (from_be_bytes w32 (take 4 bytes) ≡ m) × (m ≢ n)) }
    ensures only { (i n : ℕ) (bytes : List ℕ) (r : Reason)
        → (fixed_uint32 i n).read bytes ≡ Err r
        → (r ≡ (i, Flawed Short)) ⊎ ((m : ℕ) × (r ≡ (i, Number m))) }
{}

/// A string whose length a layout fixes is refused as short where the bytes end inside it, and else
/// exactly where it has another length.
pub fn sized_strings_are_refused_exactly()
    ensures short { (i n : ℕ) (bytes : List ℕ)
        → (sized i n).read bytes ≡ Err (i, Flawed Short) ↔ EndsInString bytes }
    ensures length { (i n : ℕ) (bytes : List ℕ)
        → (sized i n).read bytes ≡ Err (i, Length) ↔ HoldsString bytes (λ v. length v ≢ n) }
    ensures only { (i n : ℕ) (bytes : List ℕ) (r : Reason) → (sized i n).read bytes ≡ Err r
        → (r ≡ (i, Flawed Short)) ⊎ (r ≡ (i, Length)) }
{}

/// A name of a table is refused as a text is, and else exactly where no entry has it.
pub fn names_are_refused_exactly<A>()
    ensures short { (i : ℕ) (table : Table (List ℕ) A) (bytes : List ℕ)
        → (named i table).read bytes ≡ Err (i, Flawed Short) ↔ EndsInString bytes }
    ensures not_utf8 { (i : ℕ) (table : Table (List ℕ) A) (bytes : List ℕ)
        → (named i table).read bytes ≡ Err (i, Flawed NotUtf8)
        ↔ HoldsString bytes (λ v. IsUtf8 v → ⊥) }
    ensures name { (i : ℕ) (table : Table (List ℕ) A) (n bytes : List ℕ)
        → (named i table).read bytes ≡ Err (i, Name n)
        ↔ HoldsString bytes (λ v. (v ≡ n) × IsUtf8 v × ((a : A) → table.key a ≢ v)) }
    ensures only { (i : ℕ) (table : Table (List ℕ) A) (bytes : List ℕ) (r : Reason)
        → (named i table).read bytes ≡ Err r
        → (r ≡ (i, Flawed Short)) ⊎ (r ≡ (i, Flawed NotUtf8))
        ⊎ ((n : List ℕ) × (r ≡ (i, Name n))) }
{}

/// Any layout, and the layout that its value decides.
pub trait TwoLayouts {
    type Error;

    type First;

    type Second;

    ghost first: { Grammar Self.Error Self.First };

    ghost second: { Self.First → Grammar Self.Error Self.Second };
}

/// One layout and then another is read exactly where the first is and then the second. It is
/// refused exactly where the first is, or where a piece of the first stands in front and what
/// follows it is refused by the second; and with the same error.
pub fn layouts_are_refused_at_one_field<L: TwoLayouts>()
    ensures read { (bytes : List ℕ) (w : L.Second) (rest : List ℕ)
        → (followed_by L.first L.second).read bytes ≡ Ok (w, rest)
        ↔ ((v : L.First) × (mid : List ℕ) × (L.first.read bytes ≡ Ok (v, mid))
        × ((L.second v).read mid ≡ Ok (w, rest))) }
    ensures refused { (bytes : List ℕ) (e : L.Error)
        → (followed_by L.first L.second).read bytes ≡ Err e
        ↔ ((L.first.read bytes ≡ Err e)
        ⊎ ((v : L.First) × (rest : List ℕ) × Fits L.first.piece v bytes rest
        × ((L.second v).read rest ≡ Err e))) }
{}

/// Any layout, and what its values stand for where they stand for something.
pub trait NarrowedLayout {
    type Error;

    type Field;

    type Value;

    ghost field: { Grammar Self.Error Self.Field };

    ghost meaning: { Narrowing Self.Error Self.Field Self.Value };
}

/// A layout that may say less is read exactly where its value stands for something. It is refused
/// exactly where it is by itself, or where a piece of it stands in front whose value is refused;
/// and with the same error.
pub fn narrowed_layouts_are_refused_at_one_place<L: NarrowedLayout>()
    ensures read { (bytes : List ℕ) (w : L.Value) (rest : List ℕ)
        → (narrow L.field L.meaning).read bytes ≡ Ok (w, rest)
        ↔ ((v : L.Field) × (L.field.read bytes ≡ Ok (v, rest)) × L.meaning.means v w) }
    ensures refused { (bytes : List ℕ) (e : L.Error) → (narrow L.field L.meaning).read bytes ≡ Err e
        ↔ ((L.field.read bytes ≡ Err e)
        ⊎ ((v : L.Field) × (rest : List ℕ) × Fits L.field.piece v bytes rest
        × (L.meaning.decide v ≡ Err e))) }
{}

/// A string that stands in front of what another string begins is that string.
pub fn no_string_is_a_front_of_another()
    ensures { (a b x y z : List ℕ) → length a < 2 ^ 32 → length b < 2 ^ 32
        → string_of b ++ y ≡ string_of a ++ x ++ z → a ≡ b }
{}

/// No piece of a field is a proper front of another, and one front spells one value.
pub fn no_field_is_a_front_of_another()
    ensures byte { HasOneFront byte.piece }
    ensures uint32 { HasOneFront uint32.piece }
    ensures uint64 { HasOneFront uint64.piece }
    ensures string { HasOneFront string.piece }
    ensures text { HasOneFront text.piece }
    ensures mpint { HasOneFront mpint.piece }
{}

/// Two values are equal exactly where their contents are, and so are two refusals. Lists have a law of their
/// own below.
pub fn equality_is_of_contents()
    ensures bytes { IsEquality ⟦<Bytes as PartialEq>⟧.eq }
    ensures text { IsEquality ⟦<Text as PartialEq>⟧.eq }
    ensures number { IsEquality ⟦<Mpint as PartialEq>⟧.eq }
    ensures size_error { IsEquality ⟦<SizeError as PartialEq>⟧.eq }
    ensures part { IsEqualityOf part_shown ⟦<Part<'static> as PartialEq>⟧.eq }
    ensures word { IsEqualityOf word_shown ⟦<Word<'static> as PartialEq>⟧.eq }
    ensures stuck { IsEqualityOf stuck_shown ⟦<Stuck<'static> as PartialEq>⟧.eq }
{}

/// Two lists are equal exactly where they are as long and at each place their items are equal. So where the
/// items' equality is of contents, the lists' is.
#[tactic(auto, using(crate::proofs::EqualityLaws::equality_laws))]
pub fn lists_are_equal_by_items<T: PartialEq>()
    ensures items { (a b : List T)
        → IsTrue (⟦<Values<T> as PartialEq>⟧.eq a b) ↔ HasEqualItems T.eq a b }
    ensures contents { IsEquality T.eq → IsEquality ⟦<Values<T> as PartialEq>⟧.eq }
{}

/// Two byte strings, and two texts, are ordered by their bytes: the first two that differ decide, and where one is a
/// front of the other, it is the smaller.
pub fn order_is_of_contents()
    ensures bytes { IsOrder (slice_cmp nat_cmp) ⟦<Bytes as PartialOrd>⟧.partial_cmp ⟦<Bytes as Ord>⟧.cmp }
    ensures text { IsOrder (slice_cmp nat_cmp) ⟦<Text as PartialOrd>⟧.partial_cmp ⟦<Text as Ord>⟧.cmp }
{}
