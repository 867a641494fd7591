//! The laws of this crate, each as the contract of a function that does no more than it says.

ghost use Rattle.std.specs.Prelude.{◌≡◌, ◌++◌, ◌∷◌, ◌<◌, ◌^◌, List, ℕ, Result, Ok, Err, IsUtf8, drop, length};
ghost use Rattle.picky_wire_base.specs.Numbers.{IsBytes};
ghost use Rattle.picky_wire_base.specs.Outcome.{and_then};
ghost use Rattle.picky_wire_base.specs.Grammar.{Fits};
ghost use Rattle.picky_text.specs.Words.{after_body, line_in_front};
ghost use Rattle.picky_wire_base.specs.Equality.{IsEquality, IsEqualityOf};
ghost use Rattle.picky_wire_base.specs.View.{Sees, why_in};
ghost use Rattle.picky_wire_base.specs.declared.view.Stuck.{Stuck};
ghost use Rattle.picky_wire.specs.OfWire.{IsErrorOfBytes};
ghost use Rattle.picky_keys.specs.FromWire.{public_key_error};
ghost use Rattle.picky_keys.specs.View.{answer_of, key_seen, view_shown};
ghost use Rattle.picky_keys.specs.declared.view.PublicView.{PublicView as View};
ghost use Rattle.picky_keys.specs.declared.error.SshPublicKeyError.{SshPublicKeyError as Refusal};
ghost use Rattle.picky_keys.specs.declared.key.SshBasePublicKey.{SshBasePublicKey as BaseKey};
ghost use Rattle.picky_keys.specs.declared.key.SshPublicKey.{SshPublicKey as Key};
ghost use Rattle.picky_keys.specs.Key.{IsKey};
ghost use Rattle.picky_keys.specs.Blob.{blob, blob_of};
ghost use Rattle.picky_keys.specs.BlobSpelled.{BlobSpelled};
ghost use Rattle.picky_keys.specs.BlobRefusal.{read_blob};
ghost use Rattle.picky_keys.specs.Line.{IsPublicLine, line_of};
ghost use Rattle.picky_keys.specs.LineRefusal.{line_meaning, line_text};
ghost use Rattle.picky_keys.specs.Line.{IsReadBackPublicKey};
ghost use Rattle.picky_keys.specs.SourceLine.{after_line, source_meaning};

use crate::error::SshPublicKeyError;
use crate::key::{SshBasePublicKey, SshPublicKey};
use crate::view::PublicView;

/// A blob that is written is read back, and exactly what follows it is left.
#[tactic(auto, using(crate::proofs::LawLemmas::blob_laws))]
pub fn blob_is_read_back()
    ensures { (key : BaseKey) (rest : List ℕ) → IsKey key → read_blob (blob_of key ++ rest) ≡ Ok (key, rest) }
{}

/// A key is read exactly where its spelling stands in front, and only these bytes are its spellings.
#[tactic(auto, using(crate::proofs::LawLemmas::blob_laws))]
pub fn blob_is_read_where_it_is_spelled()
    ensures read { (bytes : List ℕ) (key : BaseKey) (rest : List ℕ) → read_blob bytes ≡ Ok (key, rest) → Fits blob.piece key bytes rest }
    ensures fits { (key : BaseKey) (front rest : List ℕ) → blob.piece key front → read_blob (front ++ rest) ≡ Ok (key, rest) }
    ensures exact { (key : BaseKey) (bytes : List ℕ) → IsBytes bytes → blob.piece key bytes → BlobSpelled key bytes }
    ensures canonical { (key : BaseKey) → IsKey key → blob.piece key (blob_of key) }
{}

/// What a view answers is what the reader answers: the same key and rest, or the error of the same reason.
#[tactic(auto, using(crate::proofs::LawLemmas::blob_laws))]
pub fn view_is_the_reader()
    ensures { (bytes : List ℕ) (from : ℕ) (r : Result (View × ℕ) Stuck)
        → Sees key_seen why_in blob bytes from r → read_blob (drop from bytes) ≡ answer_of bytes r }
{}

/// No blob and no line is refused for a fault of a source or for want of memory, which are a call's alone.
#[tactic(auto, using(crate::proofs::LawLemmas::own_laws))]
pub fn bytes_are_refused_for_themselves()
    ensures blob { (bytes : List ℕ) (e : Refusal) → read_blob bytes ≡ Err e → IsErrorOfBytes public_key_error e }
    ensures line { (text : List ℕ) (e : Refusal) → line_meaning text ≡ Err e → IsErrorOfBytes public_key_error e }
{}

/// A line means a key exactly where it says it, and it says one. The comment of a text is UTF-8.
#[tactic(auto, using(crate::proofs::LawLemmas::line_laws))]
pub fn line_means_what_it_says()
    ensures says { (text : List ℕ) (key : Key) → IsBytes text → line_meaning text ≡ Ok key → IsPublicLine text key }
    ensures means { (text : List ℕ) (key : Key) → IsPublicLine text key → line_meaning text ≡ Ok key }
    ensures one { (text : List ℕ) (k l : Key) → IsPublicLine text k → IsPublicLine text l → k ≡ l }
    ensures comment { (text : List ℕ) → IsUtf8 text → IsUtf8 (line_in_front (after_body text)) }
{}

/// A line that is written is read back: as a text, and from a source, where LF and what follows are left.
#[tactic(auto, using(crate::proofs::LawLemmas::line_laws))]
pub fn line_is_read_back()
    ensures text { (key : Key) (more : List ℕ) → IsReadBackPublicKey key → line_meaning (line_of key ++ more) ≡ Ok key }
    ensures source { (key : Key) (more : List ℕ) → IsReadBackPublicKey key
        → source_meaning (line_of key ++ more) ≡ Ok (key, 10 ∷ more) }
{}

/// A blob that was read, however it was spelled, is written in its one spelling, which is read back as the same key.
pub fn blob_is_written_canonically()
    ensures key { (bytes : List ℕ) (key : BaseKey) (rest : List ℕ) → IsBytes bytes
        → read_blob bytes ≡ Ok (key, rest) → IsKey key }
    ensures again { (bytes : List ℕ) (key : BaseKey) (rest more : List ℕ) → IsBytes bytes
        → read_blob bytes ≡ Ok (key, rest) → read_blob (blob_of key ++ more) ≡ Ok (key, more) }
{}

/// So is a line, from a text and from a source, where LF and what follows are left.
pub fn line_is_written_canonically()
    ensures text { (text : List ℕ) (key : Key) (line more : List ℕ) → IsBytes text
        → line_meaning text ≡ Ok key → line_text key ≡ Ok line → line_meaning (line ++ more) ≡ Ok key }
    ensures source { (bytes : List ℕ) (key : Key) (rest line more : List ℕ) → IsBytes bytes
        → source_meaning bytes ≡ Ok (key, rest) → line_text key ≡ Ok line
        → source_meaning (line ++ more) ≡ Ok (key, 10 ∷ more) }
{}

/// A source is answered as the line in front of it is.
#[tactic(auto, using(crate::proofs::LawLemmas::line_laws))]
pub fn source_is_answered_as_its_line()
    ensures { (bytes : List ℕ) → length (line_in_front bytes) < 2 ^ 32
        → source_meaning bytes ≡ and_then (line_meaning (line_in_front bytes)) (λ key. Ok (key, after_line bytes)) }
{}

/// Two keys are equal exactly where their contents are, and so are keys with comments, and refusals.
pub fn equality_is_of_contents()
    ensures key { IsEquality ⟦<SshBasePublicKey as PartialEq>⟧.eq }
    ensures line { IsEquality ⟦<SshPublicKey as PartialEq>⟧.eq }
    ensures error { IsEquality ⟦<SshPublicKeyError as PartialEq>⟧.eq }
    ensures view { IsEqualityOf view_shown ⟦<PublicView<'static> as PartialEq>⟧.eq }
{}
