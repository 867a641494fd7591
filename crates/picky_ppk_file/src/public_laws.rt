//! The laws of this crate, each as the contract of a function that does nothing.

ghost use Rattle.std.specs.Prelude.{◌≡◌, ◌<◌, ◌^◌, List, ℕ, Ok, length};
ghost use Rattle.picky_wire_base.specs.Numbers.{IsBytes};
ghost use Rattle.picky_wire_base.specs.Outcome.{and_then};
ghost use Rattle.picky_text.specs.Lines.{HasNo};
ghost use Rattle.picky_wire_base.specs.Equality.{IsEquality};
ghost use Rattle.picky_keys.specs.declared.key.SshPublicKey.{SshPublicKey as SshKey};
ghost use Rattle.picky_keys.specs.Key.{IsKey};
ghost use Rattle.picky_keys.specs.Blob.{blob_of};
ghost use Rattle.picky_ppk_file.specs.declared.putty_public.PuttyPublicKey.{PuttyPublicKey as Key};
ghost use Rattle.picky_ppk_file.specs.PuttyPublic.{putty_public, IsPuttyPublic, SaysPuttyPublic, SpellsPuttyPublic};
ghost use Rattle.picky_ppk_file.specs.PuttyRefusal.{putty_meaning, putty_of_openssh, putty_to_openssh};

use crate::putty_public::PuttyPublicKey;

/// A text means a blob and a comment exactly where it says them, and it says one of each.
#[tactic(auto, using(crate::proofs::LawLemmas::meaning_laws))]
pub fn text_means_what_it_says()
    ensures says { (text : List ℕ) (key : Key) → IsBytes text → putty_meaning text ≡ Ok key
        → SaysPuttyPublic text key.blob key.comment }
    ensures means { (text blob comment : List ℕ) → SaysPuttyPublic text blob comment
        → putty_meaning text ≡ Ok (record { blob = blob; comment = comment }) }
    ensures one { (text : List ℕ) (k l : Key) → SaysPuttyPublic text k.blob k.comment
        → SaysPuttyPublic text l.blob l.comment → k ≡ l }
{}

/// A blob and a comment have one spelling, which is what is written.
#[tactic(auto, using(crate::proofs::LawLemmas::spelling_laws))]
pub fn text_is_the_one_spelling()
    ensures spells { (blob comment : List ℕ) → SpellsPuttyPublic blob comment (putty_public blob comment) }
    ensures one { (blob comment other : List ℕ) → SpellsPuttyPublic blob comment other → other ≡ putty_public blob comment }
{}

/// A text that is written is read back, where the comment has no LF.
#[tactic(auto, using(crate::proofs::LawLemmas::meaning_laws))]
pub fn text_is_read_back()
    ensures { (key : Key) → IsBytes key.blob → HasNo 10 key.comment → length key.blob < 2 ^ 32 → length key.comment < 2 ^ 32
        → putty_meaning (putty_public key.blob key.comment) ≡ Ok key }
{}

/// An OpenSSH key is read back from PuTTY's key for it.
#[tactic(auto, using(crate::proofs::LawLemmas::key_laws))]
pub fn openssh_key_is_read_back()
    ensures { (key : SshKey) (putty : Key) → IsKey key.inner_key → putty_of_openssh key ≡ Ok putty → putty_to_openssh putty ≡ Ok key }
{}

/// What is written for a key means that key, and a text means a key exactly where it is read as it.
#[tactic(auto, using(crate::proofs::LawLemmas::key_laws))]
pub fn written_text_means_its_key()
    ensures written { (key : SshKey) → IsKey key.inner_key → HasNo 10 key.comment
        → length (blob_of key.inner_key) < 2 ^ 32 → length key.comment < 2 ^ 32
        → IsPuttyPublic (putty_public (blob_of key.inner_key) key.comment) key }
    ensures means { (text : List ℕ) (key : SshKey) → IsPuttyPublic text key → and_then (putty_meaning text) putty_to_openssh ≡ Ok key }
    ensures says { (text : List ℕ) (key : SshKey) → IsBytes text → and_then (putty_meaning text) putty_to_openssh ≡ Ok key
        → IsPuttyPublic text key }
{}

/// Two keys are equal exactly where their contents are.
pub fn equality_is_of_contents()
    ensures { IsEquality ⟦<PuttyPublicKey as PartialEq>⟧.eq }
{}
