//! The laws of what a key text means, each as the contract of a function that does nothing.

ghost use Rattle.std.specs.Prelude.{◌≡◌, List, ℕ, None, Ok, Err, false};
ghost use Rattle.std.specs.Option.{IfSome};
ghost use Rattle.std.specs.Str.{IsUtf8};
ghost use Rattle.picky_wire_base.specs.Numbers.{IsBytes};
ghost use Rattle.picky_wire_base.specs.Equality.{IsEquality};
ghost use Rattle.picky_key_text.specs.declared.error.ReadError.{ReadError as Refused};
ghost use Rattle.picky_key_text.specs.declared.meaning.Meaning.{Meaning as Meant};
ghost use Rattle.picky_key_text.specs.Kept.{IsKeptMeaning};
ghost use Rattle.picky_key_text.specs.Order.{asks, reading};
ghost use Rattle.picky_key_text.specs.Reader.{Reader};
ghost use Rattle.picky_key_text.specs.Reads.{Reads};
ghost use Rattle.picky_key_text.specs.Want.{WantsMemory, IsFault};

use crate::error::ReadError;
use crate::form::Form;
use crate::meaning::{Key, Meaning};

/// The order of refusals ends in a meaning exactly where the text has it, and it has one at most.
pub fn text_has_one_meaning()
    ensures says { (r : Reader) (t : List ℕ) (m : Meant) → IsUtf8 t → IfSome r.pass IsBytes → reading r t ≡ Ok m → Reads r t m }
    ensures read { (r : Reader) (t : List ℕ) (m : Meant) → Reads r t m → reading r t ≡ Ok m }
    ensures one { (r : Reader) (t : List ℕ) (m n : Meant) → Reads r t m → Reads r t n → m ≡ n }
{}

/// A meaning that is read keeps the ranges of a key and a comment; so it can be written and read back.
pub fn meaning_keeps_its_ranges()
    ensures { (r : Reader) (t : List ℕ) (m : Meant) → IsUtf8 t → IfSome r.pass IsUtf8 → reading r t ≡ Ok m → IsKeptMeaning m }
{}

/// The order of refusals answers no fault of the suite, and at no depth want of memory: these are answers of the calls alone.
pub fn order_answers_no_fault()
    ensures { (r : Reader) (t : List ℕ) (e : Refused) → reading r t ≡ Err e → (IsFault e → ⊥) × (WantsMemory e → ⊥) }
{}

/// Without a passphrase no text asks the suite.
pub fn no_passphrase_asks_no_suite()
    ensures { (t : List ℕ) → asks None t ≡ false }
{}

/// Two meanings are equal exactly where their contents are, and so are keys, forms and refusals.
pub fn equality_is_of_contents()
    ensures key { IsEquality ⟦<Key as PartialEq>⟧.eq }
    ensures meaning { IsEquality ⟦<Meaning as PartialEq>⟧.eq }
    ensures form { IsEquality ⟦<Form as PartialEq>⟧.eq }
    ensures error { IsEquality ⟦<ReadError as PartialEq>⟧.eq }
{}
