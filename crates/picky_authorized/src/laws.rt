//! The laws of this crate, each as the contract of a function that does nothing.

ghost use Rattle.std.specs.Prelude.{◌≡◌, ◌↔◌, ℕ, Bool, List, Contains, Some};
ghost use Rattle.picky_wire_base.specs.Numbers.{IsBytes};
ghost use Rattle.picky_wire_base.specs.Equality.{IsEquality};
ghost use Rattle.picky_wire.specs.OfWire.{IsErrorOfBytes};
ghost use Rattle.picky_keys.specs.FromWire.{public_key_error};
ghost use Rattle.picky_keys.specs.declared.error.SshPublicKeyError.{SshPublicKeyError as Refusal};
ghost use Rattle.picky_authorized.specs.declared.auth_option.AuthOption.{AuthOption as AnOption};
ghost use Rattle.picky_authorized.specs.declared.entry.AuthContent.{AuthContent as Content};
ghost use Rattle.picky_authorized.specs.declared.entry.AuthContent.TheVariants as contents;
ghost use Rattle.picky_authorized.specs.declared.entry.AuthEntry.{AuthEntry as Entry};
ghost use Rattle.picky_authorized.specs.Entries.{entries_in, AreFit};
ghost use Rattle.picky_authorized.specs.Lines.{content_of, IsContentSaid};
ghost use Rattle.picky_authorized.specs.Options.{options_in, AreOptions};
ghost use Rattle.picky_authorized.specs.OptionText.{option_in, IsOptionText};
ghost use Rattle.picky_authorized.specs.Quotes.{front_outside, rest_outside, IsFront};

use crate::auth_option::AuthOption;
use crate::keys::PolicyError;

/// A text has one longest front in which each byte of a sort stands between quotes, and this is what is split off.
pub fn front_is_the_longest()
    ensures { (ends : ℕ → Bool) (text front rest : List ℕ) → IsFront ends text front rest
        ↔ ((front_outside ends text ≡ front) × (rest_outside ends text ≡ rest)) }
{}

/// A text says an option exactly where it is one, and says options exactly where it is a list of them; so it says one list.
pub fn options_have_one_meaning()
    ensures option { (text : List ℕ) (o : AnOption) → (option_in text ≡ Some o) ↔ IsOptionText text o }
    ensures options { (text : List ℕ) (os : List AnOption) → (options_in text ≡ Some os) ↔ AreOptions text os }
{}

/// The content of a line is what it says, and a line says one.
pub fn line_says_its_content()
    ensures { (line : List ℕ) (content : Content) → IsBytes line → (content_of line ≡ content) ↔ IsContentSaid line content }
{}

/// The options of each key that a text has fit.
#[tactic(auto, using(crate::proofs::LineLemmas::fit_entries))]
pub fn entries_fit()
    ensures { (text : List ℕ) → AreFit (entries_in text) }
{}

/// A key line that isn't read is refused for itself: for no fault of a source, and never for want of memory.
pub fn lines_are_refused_for_themselves()
    ensures line { (line : List ℕ) (e : Refusal) → content_of line ≡ contents.Unread e → IsErrorOfBytes public_key_error e }
    ensures entry { (text : List ℕ) (entry : Entry) (e : Refusal) → Contains (entries_in text) entry
        → entry.content ≡ contents.Unread e → IsErrorOfBytes public_key_error e }
{}

/// Two values are equal exactly where their contents are.
pub fn equality_is_of_contents()
    ensures option { IsEquality ⟦<AuthOption as PartialEq>⟧.eq }
    ensures error { IsEquality ⟦<PolicyError as PartialEq>⟧.eq }
{}
