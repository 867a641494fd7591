//! The laws of this crate, each as the contract of a function that does nothing.

ghost use Rattle.std.specs.Prelude.{◌≡◌, ◌<◌, ◌≤◌, ◌^◌, ◌++◌, List, ℕ, Ok, length};
ghost use Rattle.std.specs.Str.{IsAscii};
ghost use Rattle.picky_wire_base.specs.Numbers.{IsBytes};
ghost use Rattle.picky_text.specs.Base64.{base64_of};
ghost use Rattle.picky_wire_base.specs.Equality.{IsEquality};
ghost use Rattle.picky_sshkey_blob.specs.Pem.{header, footer, pem_lines, pem_text, IsPem};
ghost use Rattle.picky_sshkey_blob.specs.PemRefusal.{pem_content};

use crate::pem::Pem;
use crate::pem_error::PemError;

/// A text has a content exactly where it says it, and it says one.
#[tactic(auto, using(crate::proofs::PemLawLemmas::meaning_laws))]
pub fn pem_means_what_it_says()
    ensures says { (text content : List ℕ) → IsBytes text → pem_content text ≡ Ok content → IsPem text content }
    ensures means { (text content : List ℕ) → IsPem text content → pem_content text ≡ Ok content }
    ensures one { (text x y : List ℕ) → IsPem text x → IsPem text y → x ≡ y }
{}

/// A text that is written is read back, whatever follows it, and so it is without its line breaks.
#[tactic(auto, using(crate::proofs::PemLawLemmas::read_back_laws))]
pub fn pem_is_read_back()
    ensures text { (content more : List ℕ) → IsBytes content → length content < 2 ^ 32
        → pem_content (pem_text content ++ more) ≡ Ok content }
    ensures lines { (content more : List ℕ) → IsBytes content → length content < 2 ^ 32
        → pem_content (pem_lines content ++ more) ≡ Ok content }
    ensures unbroken { (content more : List ℕ) → IsBytes content → length content < 2 ^ 32
        → pem_content (header ++ base64_of content ++ footer ++ more) ≡ Ok content }
{}

/// A text that is written is ASCII.
#[tactic(auto, using(crate::proofs::PemLawLemmas::text_laws))]
pub fn pem_is_text()
    ensures { (content : List ℕ) → IsAscii (pem_text content) }
{}

/// A text has no fewer bytes than its content.
#[tactic(auto, using(crate::proofs::PemLawLemmas::text_laws))]
pub fn pem_is_long()
    ensures { (content : List ℕ) → length content ≤ length (pem_text content) }
{}

/// Two contents are equal exactly where their bytes are, and two refusals where they are the same.
pub fn equality_is_of_contents()
    ensures pem { IsEquality ⟦<Pem as PartialEq>⟧.eq }
    ensures error { IsEquality ⟦<PemError as PartialEq>⟧.eq }
{}
