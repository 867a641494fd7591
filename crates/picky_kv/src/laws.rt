//! The laws of a file's lines, each as the contract of a function that does nothing.

ghost use Rattle.std.specs.Prelude.{◌≡◌, ◌↔◌, ◌<◌, ℕ, List, [], ◌∷◌, length, Ok, Err};
ghost use Rattle.std.specs.List.{AllByRecursion};
ghost use Rattle.picky_wire_base.specs.Numbers.{IsBytes};
ghost use Rattle.picky_text.specs.Rows.{rows_of};
ghost use Rattle.picky_kv_words.specs.Argon2Keys.{argon2_memory_key_row, argon2_parallelism_key_row};
ghost use Rattle.picky_kv_words.specs.Argon2Keys.{argon2_passes_key_row, argon2_salt_key_row};
ghost use Rattle.picky_kv_words.specs.Argon2Keys.{key_derivation_key_row};
ghost use Rattle.picky_kv.specs.Algorithm.{algorithm_row};
ghost use Rattle.picky_kv_words.specs.Choices.{encryption_row, flavour_row, version_row};
ghost use Rattle.picky_wire_base.specs.Equality.{IsEquality};
ghost use Rattle.picky_kv_words.specs.Field.{IsOfRow, field_value};
ghost use Rattle.picky_kv_words.specs.Blocks.{IsBlockText};
ghost use Rattle.picky_kv_words.specs.Keys.{comment_key_row, encryption_key_row, private_lines_key_row};
ghost use Rattle.picky_kv_words.specs.Keys.{private_mac_key_row, public_lines_key_row};
ghost use Rattle.picky_kv.specs.Lines.{key_and_value, first_joined, next_pair, next_block};
ghost use Rattle.picky_kv_words.specs.Literal.{IsOfLiterals, LiteralRow};
ghost use Rattle.picky_kv.specs.NumberFields.{count_field};
ghost use Rattle.picky_kv.specs.Numbers.{count_row, u32_row};
ghost use Rattle.picky_kv.specs.Parts.{HasNoSeparator, AreKeyAndValue, AreJoined, PairsAreRead};
ghost use Rattle.picky_kv.specs.Parts.{BlocksAreRead, HasNoLineEnd, AreOneLine};
ghost use Rattle.picky_kv.specs.ReadBack.{PairIsReadBack, BlockIsReadBack};
ghost use Rattle.picky_kv_words.specs.Values.{base64_row, comment_row, hex_row, padded_base64};
ghost use Rattle.picky_kv_words.specs.Values.{AreHexPairs, IsLowerDigit};

use crate::algorithm::PpkKeyAlgorithmValue;
use crate::error::KvError;
use crate::numbers::{PpkArgon2MemoryValue, PpkArgon2ParallelismValue, PpkArgon2PassesValue};
use crate::pairs::{
    PpkArgon2Memory, PpkArgon2Parallelism, PpkArgon2Passes, PpkArgon2Salt, PpkComment,
    PpkEncryption, PpkHeader, PpkKeyDerivation, PpkKeyValue, PpkMultilineKeyValue, PpkPrivateLines,
    PpkPrivateMac, PpkPublicLines,
};
use picky_kv_words::{
    Argon2FlavourValue, Base64PpkValue, HexPpkValue, PpkArgon2MemoryKey, PpkArgon2ParallelismKey,
    PpkArgon2PassesKey, PpkArgon2SaltKey, PpkBlock, PpkCommentKey, PpkCommentValue,
    PpkEncryptionKey, PpkEncryptionValue, PpkField, PpkKeyDerivationKey, PpkLiteral,
    PpkPrivateLinesKey, PpkPrivateMacKey, PpkPublicLinesKey, PpkValueError, PpkValueParsingError,
    PpkVersionKey,
};

/// The type of a line's key.
type KeyOf<T> = <T as PpkKeyValue>::Key;

/// The type of a line's value.
type ValueOf<T> = <T as PpkKeyValue>::Value;

/// The type of a block's key.
type BlockKeyOf<T> = <T as PpkMultilineKeyValue>::Key;

/// The type of a block's value.
type BlockValueOf<T> = <T as PpkMultilineKeyValue>::Value;

/// What the laws below say of a type whose values have one literal each.
pub trait Literals: PpkField + PpkLiteral {
    // the type is the row's: how it is read and written, each literal, and the name
    ghost AreOf: { LiteralRow Self → Type 0 };
}

impl<T: PpkField + PpkLiteral> Literals for T {
    ghost AreOf = { IsOfLiterals T.field T.literal T.name };
}

/// Each line's key: its literal alone stands for it, is written and is expected. Refusals give its
/// type's name.
pub fn keys_have_their_literals()
    ensures header { ⟦<KeyOf<PpkHeader> as Literals>⟧.AreOf version_row }
    ensures encryption { ⟦<KeyOf<PpkEncryption> as Literals>⟧.AreOf encryption_key_row }
    ensures comment { ⟦<KeyOf<PpkComment> as Literals>⟧.AreOf comment_key_row }
    ensures key_derivation { ⟦<KeyOf<PpkKeyDerivation> as Literals>⟧.AreOf key_derivation_key_row }
    ensures memory { ⟦<KeyOf<PpkArgon2Memory> as Literals>⟧.AreOf argon2_memory_key_row }
    ensures passes { ⟦<KeyOf<PpkArgon2Passes> as Literals>⟧.AreOf argon2_passes_key_row }
    ensures parallelism { ⟦<KeyOf<PpkArgon2Parallelism> as Literals>⟧.AreOf argon2_parallelism_key_row }
    ensures salt { ⟦<KeyOf<PpkArgon2Salt> as Literals>⟧.AreOf argon2_salt_key_row }
    ensures mac { ⟦<KeyOf<PpkPrivateMac> as Literals>⟧.AreOf private_mac_key_row }
    ensures public_lines { ⟦<BlockKeyOf<PpkPublicLines> as Literals>⟧.AreOf public_lines_key_row }
    ensures private_lines { ⟦<BlockKeyOf<PpkPrivateLines> as Literals>⟧.AreOf private_lines_key_row }
{}

/// Each line's value, and a block's count: which texts stand for it, which is written, and what is
/// expected.
pub fn values_have_their_texts()
    ensures header { ⟦<ValueOf<PpkHeader> as Literals>⟧.AreOf algorithm_row }
    ensures encryption { ⟦<ValueOf<PpkEncryption> as Literals>⟧.AreOf encryption_row }
    ensures comment { IsOfRow ⟦<ValueOf<PpkComment> as PpkField>⟧.field comment_row }
    ensures key_derivation { ⟦<ValueOf<PpkKeyDerivation> as Literals>⟧.AreOf flavour_row }
    ensures memory { IsOfRow ⟦<ValueOf<PpkArgon2Memory> as PpkField>⟧.field u32_row }
    ensures passes { IsOfRow ⟦<ValueOf<PpkArgon2Passes> as PpkField>⟧.field u32_row }
    ensures parallelism { IsOfRow ⟦<ValueOf<PpkArgon2Parallelism> as PpkField>⟧.field u32_row }
    ensures salt { IsOfRow ⟦<ValueOf<PpkArgon2Salt> as PpkField>⟧.field hex_row }
    ensures mac { IsOfRow ⟦<ValueOf<PpkPrivateMac> as PpkField>⟧.field hex_row }
    ensures public_lines { IsOfRow ⟦<BlockValueOf<PpkPublicLines> as PpkField>⟧.field base64_row }
    ensures private_lines { IsOfRow ⟦<BlockValueOf<PpkPrivateLines> as PpkField>⟧.field base64_row }
    ensures count { IsOfRow count_field count_row }

    // Bytes are written in hex by two digits each, in lower case.
    ensures lower { (bytes : List ℕ) → IsBytes bytes
        → AreHexPairs IsLowerDigit (⟦<HexPpkValue as PpkField>⟧.field.spelling bytes) bytes }
{}

/// The key and the value of a line.
type PairOf<T> = (KeyOf<T>, ValueOf<T>);

/// The key and the value of a block.
type BlockOf<T> = (BlockKeyOf<T>, BlockValueOf<T>);

/// The table of the lines: which key stands before which value. Each is given back as it is.
pub fn pairs_have_their_types(
    header: PairOf<PpkHeader>,
    encryption: PairOf<PpkEncryption>,
    comment: PairOf<PpkComment>,
    key_derivation: PairOf<PpkKeyDerivation>,
    memory: PairOf<PpkArgon2Memory>,
    passes: PairOf<PpkArgon2Passes>,
    parallelism: PairOf<PpkArgon2Parallelism>,
    salt: PairOf<PpkArgon2Salt>,
    mac: PairOf<PpkPrivateMac>,
    public_lines: BlockOf<PpkPublicLines>,
    private_lines: BlockOf<PpkPrivateLines>,
) -> (
    (PpkVersionKey, PpkKeyAlgorithmValue),
    (PpkEncryptionKey, PpkEncryptionValue),
    (PpkCommentKey, PpkCommentValue),
    (PpkKeyDerivationKey, Argon2FlavourValue),
    (PpkArgon2MemoryKey, PpkArgon2MemoryValue),
    (PpkArgon2PassesKey, PpkArgon2PassesValue),
    (PpkArgon2ParallelismKey, PpkArgon2ParallelismValue),
    (PpkArgon2SaltKey, HexPpkValue),
    (PpkPrivateMacKey, HexPpkValue),
    (PpkPublicLinesKey, Base64PpkValue),
    (PpkPrivateLinesKey, Base64PpkValue),
)
    ensures { result ≡ (
      header,
      encryption,
      comment,
      key_derivation,
      memory,
      passes,
      parallelism,
      salt,
      mac,
      public_lines,
      private_lines,
    ) }
{
    (
        header,
        encryption,
        comment,
        key_derivation,
        memory,
        passes,
        parallelism,
        salt,
        mac,
        public_lines,
        private_lines,
    )
}

/// A line's key and value stand before and after its first `: `, in one way; a line without one has
/// none.
pub fn lines_are_cut_at_their_first_separator()
    ensures parts { (line front rest : List ℕ)
        → key_and_value line ≡ Some (front, rest) ↔ AreKeyAndValue line front rest }
    ensures none { (line : List ℕ) → key_and_value line ≡ None ↔ HasNoSeparator line }
    ensures unique { (line front rest other more : List ℕ) → AreKeyAndValue line front rest
        → AreKeyAndValue line other more → (front ≡ other) × (rest ≡ more) }
{}

/// A block's text is that of its counted lines, joined; there is none where fewer lines are left.
pub fn blocks_are_their_lines_joined()
    ensures joined { (count : ℕ) (lines : List (List ℕ)) (text : List ℕ) (after : List (List ℕ))
        → first_joined count lines ≡ Some (text, after) ↔ AreJoined count lines text after }
    ensures none { (count : ℕ) (lines : List (List ℕ))
        → first_joined count lines ≡ None ↔ length lines < count }
{}

/// A pair and a block are read exactly where they stand first, with the lines after them left. A
/// read is refused for want of a line exactly where none is left, and for want of a separator
/// exactly where the first has none.
pub fn pairs_and_blocks_are_read_where_they_stand<T: PpkKeyValue, B: PpkMultilineKeyValue>()
    ensures pair { PairsAreRead T.Key.field T.Value.field T.Key.name }
    ensures block { BlocksAreRead B.Key.field B.Value.field B.Key.name }
    ensures ended { (lines : List (List ℕ))
        → next_pair T.Key.field T.Value.field T.Key.name lines ≡ Err KvError.EndOfInput
        ↔ (lines ≡ []) }
    ensures unseparated { (line : List ℕ) (lines : List (List ℕ))
        → next_pair T.Key.field T.Value.field T.Key.name (line ∷ lines)
        ≡ Err KvError.InvalidKeyValueFormat ↔ HasNoSeparator line }
{}

/// What is written has no CR and no LF, unless it is a comment: a key, a value, a count, and each
/// line of a block.
pub fn written_texts_are_one_line<T: PpkKeyValue, B: PpkMultilineKeyValue>()
    ensures key { (k : T.Key) → HasNoLineEnd (T.Key.field.spelling k) }
    ensures block_key { (k : B.Key) → HasNoLineEnd (B.Key.field.spelling k) }
    ensures algorithm { AreOneLine ⟦<PpkKeyAlgorithmValue as PpkField>⟧.field }
    ensures encryption { AreOneLine ⟦<PpkEncryptionValue as PpkField>⟧.field }
    ensures flavour { AreOneLine ⟦<Argon2FlavourValue as PpkField>⟧.field }
    ensures memory { AreOneLine ⟦<PpkArgon2MemoryValue as PpkField>⟧.field }
    ensures passes { AreOneLine ⟦<PpkArgon2PassesValue as PpkField>⟧.field }
    ensures parallelism { AreOneLine ⟦<PpkArgon2ParallelismValue as PpkField>⟧.field }
    ensures hex { AreOneLine ⟦<HexPpkValue as PpkField>⟧.field }
    ensures base64 { AreOneLine ⟦<Base64PpkValue as PpkField>⟧.field }
    ensures count { AreOneLine count_field }
    ensures lines { (bytes : List ℕ) → IsBytes bytes
        → AllByRecursion HasNoLineEnd (rows_of (padded_base64 bytes)) }
{}

/// Two values are equal exactly where their contents are, and so are two refusals.
pub fn equality_is_of_contents()
    ensures version { IsEquality ⟦<PpkVersionKey as PartialEq>⟧.eq }
    ensures algorithm { IsEquality ⟦<PpkKeyAlgorithmValue as PartialEq>⟧.eq }
    ensures encryption { IsEquality ⟦<PpkEncryptionValue as PartialEq>⟧.eq }
    ensures flavour { IsEquality ⟦<Argon2FlavourValue as PartialEq>⟧.eq }
    ensures memory { IsEquality ⟦<PpkArgon2MemoryValue as PartialEq>⟧.eq }
    ensures passes { IsEquality ⟦<PpkArgon2PassesValue as PartialEq>⟧.eq }
    ensures parallelism { IsEquality ⟦<PpkArgon2ParallelismValue as PartialEq>⟧.eq }
    ensures comment { IsEquality ⟦<PpkCommentValue as PartialEq>⟧.eq }
    ensures base64 { IsEquality ⟦<Base64PpkValue as PartialEq>⟧.eq }
    ensures hex { IsEquality ⟦<HexPpkValue as PartialEq>⟧.eq }
    ensures parsing_error { IsEquality ⟦<PpkValueParsingError as PartialEq>⟧.eq }
    ensures value_error { IsEquality ⟦<PpkValueError as PartialEq>⟧.eq }
    ensures error { IsEquality ⟦<KvError as PartialEq>⟧.eq }
{}

/// Where no line is left, as after each refused read, each later read answers `EndOfInput`.
pub fn refused_reader_stays_at_its_end<T: PpkKeyValue, B: PpkMultilineKeyValue>()
    ensures pair { next_pair T.Key.field T.Value.field T.Key.name [] ≡ Err KvError.EndOfInput }
    ensures block { next_block B.Key.field B.Value.field B.Key.name [] ≡ Err KvError.EndOfInput }
{}

/// A pair that is written is read back, whatever follows.
pub fn pair_is_read_back<T: PpkKeyValue>()
    ensures { PairIsReadBack T.Key.field T.Value.field T.Key.name }
{}

/// A block that is written is read back, whatever follows.
pub fn block_is_read_back<T: PpkMultilineKeyValue>()
    ensures { BlockIsReadBack T.Key.field T.Value.field T.Key.name }
{}

/// A value of a block is read exactly from the base64 of fewer than 2^32 bytes, and it is what `from_block` gives for
/// those.
pub fn block_values_are_of_their_bytes<B: PpkBlock>()
    ensures { (text : List ℕ) (v : B) → IsBytes text
        → field_value B.field text ≡ Ok v ↔ IsBlockText B.made text v }
{}
