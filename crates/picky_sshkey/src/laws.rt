//! The laws of this crate, each as the contract of a function that does no more than it says.

ghost use Rattle.std.specs.Prelude.{◌≡◌, ◌≢◌, ◌++◌, List, ℕ, Option, Ok, Err, length};
ghost use Rattle.std.specs.Option.{IfSome};
ghost use Rattle.picky_wire_base.specs.Numbers.{IsBytes};
ghost use Rattle.picky_sshkey_blob.specs.declared.pem_error.PemError.TheVariants as pem_errors;
ghost use Rattle.picky_suite.specs.Meanings.{Meanings};
ghost use Rattle.picky_wire_base.specs.Equality.{IsEquality, IsEqualityOf};
ghost use Rattle.picky_sshkey_blob.specs.declared.error.SshPrivateKeyError.TheVariants as errors;
ghost use Rattle.picky_sshkey.specs.declared.kdf.KdfOption.{KdfOption as Salted};
ghost use Rattle.picky_sshkey.specs.declared.private_key.SshPrivateKey.{SshPrivateKey as Key};
ghost use Rattle.picky_sshkey.specs.Kept.{IsSshPrivateKey, read_again};
ghost use Rattle.picky_sshkey.specs.Made.{made_of, private_shown};
ghost use Rattle.picky_keys.specs.Key.{IsString, IsText};
ghost use Rattle.picky_sshkey_blob.specs.Key.{IsPrivateKey};
ghost use Rattle.picky_sshkey_blob.specs.declared.key.SshBasePrivateKey.{SshBasePrivateKey as BaseKey};
ghost use Rattle.picky_sshkey.specs.Opened.{Lock, opened};
ghost use Rattle.picky_sshkey.specs.PrivateRefusal.{content_key, text_key};
ghost use Rattle.picky_sshkey.specs.PrivateText.{IsPrivateContent, IsPrivateText, IsShortPass};
ghost use Rattle.picky_sshkey.specs.Written.{envelope_of, key_content, key_text};

use crate::kdf::{Kdf, KdfOption};
use crate::private_key::{PrivateKeyRef, SshPrivateKey};

/// A content and a text mean a key exactly where they say it, under a passphrase and what a suite's calls mean, and they
/// say one.
pub fn private_key_means_what_it_says()
    ensures says_content { (m : Meanings) (given : Option (List ℕ)) (content : List ℕ) (key : Key) → IsBytes content
        → IfSome given IsBytes → content_key m given content ≡ Ok key → IsPrivateContent m given content key }
    ensures means_content { (m : Meanings) (given : Option (List ℕ)) (content : List ℕ) (key : Key) → IsShortPass given
        → IsPrivateContent m given content key → content_key m given content ≡ Ok key }
    ensures says { (m : Meanings) (given : Option (List ℕ)) (text : List ℕ) (key : Key) → IsBytes text
        → IfSome given IsBytes → text_key m given text ≡ Ok key → IsPrivateText m given text key }
    ensures means { (m : Meanings) (given : Option (List ℕ)) (text : List ℕ) (key : Key)
        → IsPrivateText m given text key → text_key m given text ≡ Ok key }
    ensures one { (m : Meanings) (given : Option (List ℕ)) (text : List ℕ) (k l : Key)
        → IsPrivateText m given text k → IsPrivateText m given text l → k ≡ l }
{}

/// What is written of a key is read back, whatever follows it, sealed or not, under the key's own passphrase: with the
/// names and options that are written, and without the white space at the comment's end. A key so read stays as it is.
pub fn private_key_is_read_back()
    ensures content { (m : Meanings) (key : Key) (content more : List ℕ) → IsSshPrivateKey key → key_content m key ≡ Ok content
        → content_key m key.passphrase (content ++ more) ≡ Ok (read_again key) }
    ensures text { (m : Meanings) (key : Key) (text more : List ℕ) → IsSshPrivateKey key → key_text m key ≡ Ok text
        → text_key m key.passphrase (text ++ more) ≡ Ok (read_again key) }
    ensures kept { (key : Key) → IsSshPrivateKey key → IsSshPrivateKey (read_again key) }
    ensures again { (key : Key) → IsSshPrivateKey key → read_again (read_again key) ≡ read_again key }
{}

/// A key that is read under a passphrase, or made of its parts, keeps what a key keeps; so what is written of it is read back.
pub fn key_keeps_its_ranges()
    ensures content { (m : Meanings) (given : Option (List ℕ)) (content : List ℕ) (key : Key) → IsBytes content
        → IfSome given IsText → content_key m given content ≡ Ok key → IsSshPrivateKey key }
    ensures text { (m : Meanings) (given : Option (List ℕ)) (text : List ℕ) (key : Key) → IsBytes text
        → IfSome given IsText → text_key m given text ≡ Ok key → IsSshPrivateKey key }
    ensures made { (base : BaseKey) (given : Option (List ℕ)) (comment salt : List ℕ) → IsPrivateKey base
        → IfSome given IsText → IsText comment → IsString salt → IsSshPrivateKey (made_of base given comment salt) }
{}

/// Sealing a block changes no length of its envelope.
pub fn sealing_changes_no_length()
    ensures { (m : Meanings) (key : Key) (lock : Lock) (option : Salted) (block : List ℕ)
        → length (envelope_of key (opened m lock option block)) ≡ length (envelope_of key block) }
{}

/// No order of refusals answers a fault of the suite or want of memory: these are answers of the calls alone.
pub fn orders_answer_no_fault()
    ensures content { (m : Meanings) (given : Option (List ℕ)) (content : List ℕ)
        → (content_key m given content ≢ Err errors.SuiteFault) × (content_key m given content ≢ Err errors.NoMemory) }
    ensures text { (m : Meanings) (given : Option (List ℕ)) (text : List ℕ)
        → (text_key m given text ≢ Err errors.SuiteFault) × (text_key m given text ≢ Err errors.NoMemory)
        × (text_key m given text ≢ Err (errors.PemError pem_errors.NoMemory)) }
    ensures written_content { (m : Meanings) (key : Key)
        → (key_content m key ≢ Err errors.SuiteFault) × (key_content m key ≢ Err errors.NoMemory) }
    ensures written_text { (m : Meanings) (key : Key)
        → (key_text m key ≢ Err errors.SuiteFault) × (key_text m key ≢ Err errors.NoMemory) }
{}

/// Two keys are equal exactly where their contents are, and so are derivations, their options and borrowed keys.
pub fn equality_is_of_contents()
    ensures option { IsEquality ⟦<KdfOption as PartialEq>⟧.eq }
    ensures kdf { IsEquality ⟦<Kdf as PartialEq>⟧.eq }
    ensures key { IsEquality ⟦<SshPrivateKey as PartialEq>⟧.eq }
    ensures borrowed { IsEqualityOf private_shown ⟦<PrivateKeyRef<'static> as PartialEq>⟧.eq }
{}
