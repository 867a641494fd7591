//! The laws of a run, each as the contract of a function that does nothing.

ghost use Rattle.std.specs.Prelude.{◌≡◌, ◌<◌, ℕ, List, false, length, true, Ok, Err};
ghost use Rattle.std.specs.Str.{IsUtf8};
ghost use Rattle.picky_wire_base.specs.Equality.{IsEquality};
ghost use Rattle.picky_issuing.specs.declared.options.CertOptions.{CertOptions as Options};
ghost use Rattle.picky_target.specs.declared.error.ConvertError.{ConvertError};
ghost use Rattle.picky_conversion.specs.Chain.{IsGiven};
ghost use Rattle.picky_conversion.specs.Made.{Made, Whole, WritesMade};
ghost use Rattle.picky_conversion.specs.Outside.{Outside};
ghost use Rattle.picky_conversion.specs.Want.{IsFault, IsSignerFault, WantsMemory};
ghost use Rattle.picky_convert.specs.declared.command.Command.{Command as Named};
ghost use Rattle.picky_convert.specs.Command.{reads_source, IsAnswer, Names};
ghost use Rattle.picky_convert.specs.Run.{input_for, input_limit, outcome, outcome_asks, outcome_signs, IsValid};
ghost use Rattle.picky_convert.specs.Run.{RefusesInput};

use crate::error::Status;
use picky_suite::Signer;

// One meaning, and what conversions keep and bind.
pub use picky_conversion::laws::{
    conversions_through_any_targets_keep_public_parts,
    conversions_through_private_targets_lose_nothing, texts_bind_what_is_kept,
    written_text_is_kept,
};
pub use picky_key_text::laws::text_has_one_meaning;

// What a run is given has the ranges of its types, as some laws want it.
pub use picky_conversion::is_given;

/// For each valid input of a command there is something that it comes to before a device signs.
pub fn outcome_is_the_answer_to_its_input()
    ensures { (o : Outside) (c : Named) (input : List ℕ) → IsValid o c input → (made : Made) × (outcome o c input ≡ Ok made) }
{}

/// The text that is written of a command's outcome is its answer: what the formats say of the bytes and the text.
pub fn written_text_is_the_answer<G: Signer>()
    ensures { (device : G) (o : Outside) (words : List (List ℕ)) (c : Named) (input text : List ℕ) → IsGiven o → Names words c
        → WritesMade (G.signs device) (outcome o c input) text → IsAnswer (G.signs device) o c input text }
{}

/// Bytes are too many, or no text, only where those that the source has left are.
pub fn bytes_are_refused_for_what_they_are()
    ensures too_long { (o : Outside) (c : Named) (left : List ℕ) → outcome o c (input_for c left) ≡ Err Status.InputTooLong
        → input_limit < length left }
    ensures not_utf8 { (o : Outside) (c : Named) (left : List ℕ) → outcome o c (input_for c left) ≡ Err Status.InputNotUtf8
        → IsUtf8 left → ⊥ }
{}

/// A refusal says at no depth that memory ran out, or that the suite or the signer failed.
pub fn refusals_tell_of_no_device<G: Signer>()
    ensures { (device : G) (o : Outside) (c : Named) (input : List ℕ) (e : ConvertError) → RefusesInput (G.signs device) (outcome o c input) e
        → (WantsMemory e → ⊥) × (IsFault e → ⊥) × (IsSignerFault e → ⊥) }
{}

/// A command that doesn't read the source comes to a text, whatever that has left, and asks no suite for it.
pub fn what_reads_nothing_is_answered()
    ensures text { (o : Outside) (c : Named) (left : List ℕ) → reads_source c ≡ false
        → (text : List ℕ) × (outcome o c (input_for c left) ≡ Ok (Whole text)) }
    ensures unasked { (o : Outside) (c : Named) (left : List ℕ) → reads_source c ≡ false → outcome_asks o c (input_for c left) ≡ false }
{}

/// A device is asked to sign for no command but that of a certificate's line.
pub fn certificates_alone_are_signed()
    ensures { (o : Outside) (c : Named) (input : List ℕ) → outcome_signs o c input ≡ true → (options : Options) × (c ≡ Named.Certify options) }
{}

/// Two statuses are equal exactly where their contents are.
pub fn equality_is_of_contents()
    ensures status { IsEquality ⟦<Status as PartialEq>⟧.eq }
{}
