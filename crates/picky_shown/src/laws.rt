//! The laws of what a text shows, each as the contract of a function that does nothing.

ghost use Rattle.std.specs.Prelude.{◌≡◌, List, ℕ, None, Ok, Err};
ghost use Rattle.picky_wire_base.specs.Equality.{IsEquality};
ghost use Rattle.picky_suite.specs.Meanings.{Meanings};
ghost use Rattle.picky_keys.specs.Key.{IsNumber};
ghost use Rattle.picky_key_text.specs.declared.error.ReadError.{ReadError as Refused};
ghost use Rattle.picky_key_text.specs.declared.meaning.Meaning.{Meaning as Meant};
ghost use Rattle.picky_key_text.specs.Order.{reading};
ghost use Rattle.picky_key_text.specs.Reader.{Reader};
ghost use Rattle.picky_key_text.specs.Reads.{Reads};
ghost use Rattle.picky_key_text.specs.Want.{IsFault, WantsMemory};
ghost use Rattle.picky_shown.specs.Bits.{HasBits, bit_len, number_of};
ghost use Rattle.picky_shown.specs.Shown.{IsShownOf, meaning_shown, shows};
ghost use Rattle.picky_shown.specs.declared.sealing.ShownSealing.TheVariants.{Unsealed};
ghost use Rattle.picky_shown.specs.declared.showing.Shown.{Shown as IsSeen};

use crate::sealing::ShownSealing;
use crate::showing::Shown;

/// A text that means a key under some passphrase shows that key's public part, and the comment where it stands open. One that
/// means it without a passphrase shows it as unsealed, and nothing else is shown so.
pub fn text_shows_the_key_that_it_means()
    ensures read { (r : Reader) (t : List ℕ) (meaning : Meant) → Reads r t meaning
        → (seen : IsSeen) × (shows r.meanings t ≡ Ok seen) × IsShownOf meaning seen }
    ensures bare { (m : Meanings) (t : List ℕ) (meaning : Meant) → Reads (record { meanings = m; pass = None }) t meaning
        → shows m t ≡ Ok (meaning_shown meaning) }
    ensures unsealed { (m : Meanings) (t : List ℕ) (seen : IsSeen) → shows m t ≡ Ok seen → seen.sealing ≡ Unsealed
        → (meaning : Meant) × (reading (record { meanings = m; pass = None }) t ≡ Ok meaning)
        × (seen ≡ meaning_shown meaning) }
{}

/// The order of refusals answers no fault of a suite, and at no depth want of memory: the latter is an answer of the call alone.
pub fn order_answers_no_fault()
    ensures { (m : Meanings) (t : List ℕ) (e : Refused) → shows m t ≡ Err e → (IsFault e → ⊥) × (WantsMemory e → ⊥) }
{}

/// The bits that are counted of the bytes of a number are the number's.
pub fn bits_are_the_numbers()
    ensures { (v : List ℕ) → IsNumber v → HasBits (number_of v) (bit_len v) }
{}

/// What is shown is equal exactly where its contents are.
pub fn equality_is_of_contents()
    ensures sealing { IsEquality ⟦<ShownSealing as PartialEq>⟧.eq }
    ensures seen { IsEquality ⟦<Shown as PartialEq>⟧.eq }
{}
