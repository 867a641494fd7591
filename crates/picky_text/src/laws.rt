//! The laws of the rules of text, each as the contract of a function that does nothing.

ghost use Rattle.std.specs.Prelude.{◌≡◌, ◌≢◌, ◌≤◌, ◌↔◌, ℕ, Bool, false, IsTrue, Option, List, ◌++◌, length};
ghost use Rattle.std.specs.List.{All, AllByRecursion};
ghost use Rattle.std.specs.Str.{IsAscii, IsUtf8, trim_end};
ghost use Rattle.base64.specs.GeneralPurpose.{IsBytes};
ghost use Rattle.picky_text.specs.Base64.{base64_of, decoded};
ghost use Rattle.picky_text.specs.Base64.{is_base64_symbol as is_symbol, AreBase64Symbols};
ghost use Rattle.picky_text.specs.Lines.{HasNo, lines, text_of};
ghost use Rattle.picky_text.specs.Lines.{AreLines, AreReadFirst};
ghost use Rattle.picky_text.specs.Quote.{quote, unquote};
ghost use Rattle.picky_text.specs.Rows.{IsRowsOf, rows_of};
ghost use Rattle.picky_text.specs.declared.base64_text.Base64Error.{Base64Error as NoBase64};
ghost use Rattle.picky_text.specs.declared.lines.LineEnd.{LineEnd as End};
ghost use Rattle.picky_text.specs.Words.{first_word, behind_word, line_in_front, rest_of_line};
ghost use Rattle.picky_text.specs.Words.{AreParts, IsRead, IsWord};

use crate::base64_text::Base64Error;
use crate::lines::LineEnd;

/// Bytes are read back from their base64 text.
#[tactic(auto, using(crate::proofs::Base64Laws::base64_laws))]
pub fn base64_is_read_back()
    ensures { (x : List ℕ) → IsBytes x → decoded (base64_of x) ≡ Some x }
{}

/// A text that is read as `x` is the base64 text of `x`, which are bytes: there is one spelling.
#[tactic(auto, using(crate::proofs::Base64Laws::base64_laws))]
pub fn base64_has_one_spelling()
    ensures text { (body x : List ℕ) → IsBytes body → decoded body ≡ Some x → body ≡ base64_of x }
    ensures bytes { (body x : List ℕ) → IsBytes body → decoded body ≡ Some x → IsBytes x }
{}

/// Two lists of bytes with one base64 text are one list.
#[tactic(auto, using(crate::proofs::Base64Laws::base64_laws))]
pub fn base64_is_injective()
    ensures { (x y : List ℕ) → IsBytes x → IsBytes y → base64_of x ≡ base64_of y → x ≡ y }
{}

/// A base64 text has letters, digits, `+`, `/` and `=` alone: so no LF, CR, dash or space.
#[tactic(auto, using(crate::proofs::Base64Laws::base64_laws))]
pub fn base64_has_its_symbols_alone()
    ensures symbols { (x : List ℕ) → IsBytes x → AreBase64Symbols (base64_of x) }
    ensures other { (b : ℕ) (x : List ℕ) → IsBytes x → is_symbol b ≡ false → HasNo b (base64_of x) }
    ensures ascii { (x : List ℕ) → IsAscii (base64_of x) }
{}

/// A base64 text may stand as a word of a key line.
#[tactic(auto, using(crate::proofs::WordLaws::word_laws))]
pub fn base64_is_a_word()
    ensures { (x : List ℕ) → IsBytes x → IsWord (base64_of x) }
{}

/// The rest of a line of UTF-8 has no LF and no CR, and no white space is left at its end.
#[tactic(auto, using(crate::proofs::WordLaws::word_laws))]
pub fn rest_of_line_is_one_line()
    ensures no_lf { (t : List ℕ) → IsUtf8 (line_in_front t) → HasNo 10 (rest_of_line t) }
    ensures no_cr { (t : List ℕ) → IsUtf8 (line_in_front t) → HasNo 13 (rest_of_line t) }
    ensures trimmed { (t : List ℕ) → IsUtf8 (line_in_front t)
        → trim_end (rest_of_line t) ≡ rest_of_line t }
{}

/// Each part of a text is a text.
#[tactic(auto, using(crate::proofs::WordLaws::word_laws))]
pub fn words_are_text()
    ensures first { (text : List ℕ) → IsUtf8 text → IsUtf8 (first_word text) }
    ensures after { (text : List ℕ) → IsUtf8 text → IsUtf8 (behind_word text) }
    ensures line { (text : List ℕ) → IsUtf8 text → IsUtf8 (line_in_front text) }
    ensures rest { (text : List ℕ) → IsUtf8 (line_in_front text) → IsUtf8 (rest_of_line text) }
{}

/// A line of a name, a body and a comment, with a space between them, is read as these three.
pub fn key_line_is_read_back()
    ensures { (name body comment : List ℕ) → AreParts name body comment → IsRead name body comment }
{}

/// The rows of a text, and no others, are of 64 characters, the last of one to 64, and join to it.
#[tactic(auto, using(crate::proofs::RowLaws::row_laws))]
pub fn text_has_its_rows_alone()
    ensures rows { (text : List ℕ) → IsRowsOf text (rows_of text) }
    ensures one { (t : List ℕ) (xs ys : List (List ℕ)) → IsRowsOf t xs → IsRowsOf t ys → xs ≡ ys }
    ensures has_no { (b : ℕ) (t : List ℕ) → HasNo b t → AllByRecursion (HasNo b) (rows_of t) }
{}

/// Lines that are written are read back, whatever follows.
#[tactic(auto, using(crate::proofs::LineLaws::line_laws))]
pub fn lines_are_read_back()
    ensures alone { (e : End) (ls : List (List ℕ)) → AreLines e ls → lines (text_of e ls) ≡ ls }
    ensures first { (e : End) (ls : List (List ℕ)) → AreLines e ls → AreReadFirst e ls }
{}

/// A text has no more lines than bytes, and none of its lines is longer than the text.
#[tactic(auto, using(crate::proofs::LineLaws::line_laws))]
pub fn lines_are_within_their_text()
    ensures count { (text : List ℕ) → length (lines text) ≤ length text }
    ensures each { (text : List ℕ) → All (λ line. length line ≤ length text) (lines text) }
{}

/// What was quoted is read back, and quoting adds backslashes alone: so no LF and no CR.
#[tactic(auto, using(crate::proofs::QuoteLaws::quote_laws))]
pub fn quote_is_read_back()
    ensures back { (x : List ℕ) → unquote (quote x) ≡ x }
    ensures has_no { (b : ℕ) (x : List ℕ) → b ≢ 92 → HasNo b x → HasNo b (quote x) }
{}

/// Two line ends and two refusals of base64 are equal exactly where they are the same.
pub fn equality_is_of_contents()
    ensures end { (a b : End) → IsTrue (⟦<LineEnd as PartialEq>⟧.eq a b) ↔ (a ≡ b) }
    ensures error { (a b : NoBase64) → IsTrue (⟦<Base64Error as PartialEq>⟧.eq a b) ↔ (a ≡ b) }
{}
