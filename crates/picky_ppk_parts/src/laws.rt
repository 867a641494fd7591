//! The laws of this crate, each as the contract of a function that does nothing.

ghost use Rattle.std.specs.Prelude.{◌≡◌, ◌≤◌, ◌++◌, List, ℕ, length, take, Ok};
ghost use Rattle.picky_kv.specs.declared.algorithm.PpkKeyAlgorithmValue.{PpkKeyAlgorithmValue as Algorithm};
ghost use Rattle.picky_wire_base.specs.Equality.{IsEquality};
ghost use Rattle.picky_sshkey_blob.specs.declared.key.SshBasePrivateKey.{SshBasePrivateKey as Key};
ghost use Rattle.picky_sshkey_blob.specs.Key.{IsPrivateKey};
ghost use Rattle.picky_ppk_parts.specs.declared.key_parts.KeyParts.{KeyParts as Parts};
ghost use Rattle.picky_ppk_parts.specs.MacFields.{MacFields, AreShort, input_of};
ghost use Rattle.picky_ppk_parts.specs.Parts.{StandsForKey};
ghost use Rattle.picky_ppk_parts.specs.PartsRefusal.{parts_key};
ghost use Rattle.picky_ppk_parts.specs.KeyParts.{key_parts};
ghost use Rattle.picky_ppk_parts.specs.Counted.{counted};

use crate::aes::{BLOCK_SIZE, KEY_SIZE};
use crate::config::{PpkEncryptionConfig, PpkEncryptionConfigBuilder};
use crate::error::PuttyError;
use crate::key_parts::KeyParts;
use crate::mac::MAC_SIZE_V3;
use crate::material::{Argon2Params, KeyMaterialV2, KeyMaterialV3};

/// AES-256 has keys of 32 bytes and blocks of 16 (FIPS 197, section 5), and HMAC-SHA-256 gives the 32 bytes of a MAC of
/// version 3.
pub fn sizes_are_those_of_the_ciphers()
    ensures key { KEY_SIZE ≡ 32 }
    ensures block { BLOCK_SIZE ≡ 16 }
    ensures mac { MAC_SIZE_V3 ≡ 32 }
{}

/// What the MAC covers is no front of what the MAC of other fields covers.
#[tactic(auto, using(crate::proofs::MacLaws::input_has_one_front))]
pub fn no_mac_input_is_a_front_of_another()
    ensures { (f g : MacFields) (x y : List ℕ) → AreShort f → AreShort g → input_of f ++ x ≡ input_of g ++ y → f ≡ g }
{}

/// An algorithm, a blob and private bytes are read as a key exactly where they stand for it, and they stand for one.
#[tactic(auto, using(crate::proofs::PartsLaws::parts_sound))]
pub fn parts_are_read_where_they_stand()
    ensures says { (algorithm : Algorithm) (blob private : List ℕ) (key : Key)
        → parts_key algorithm blob private ≡ Ok key → StandsForKey algorithm blob private key }
    ensures means { (algorithm : Algorithm) (blob private : List ℕ) (key : Key)
        → StandsForKey algorithm blob private key → parts_key algorithm blob private ≡ Ok key }
    ensures one { (algorithm : Algorithm) (blob private : List ℕ) (k l : Key)
        → StandsForKey algorithm blob private k → StandsForKey algorithm blob private l → k ≡ l }
{}

/// The parts that a key makes are read back as it, also where its secret begins with zeros, or is zero.
pub fn key_is_read_back()
    ensures { (key : Key) (parts : Parts) → IsPrivateKey key → key_parts key ≡ Ok parts
        → parts_key parts.algorithm parts.blob parts.private_bytes ≡ Ok key }
{}

/// The counted strings are a front of the private bytes, and what follows them says nothing: cut after them, the bytes
/// stand for the same key. A key's own private bytes are its counted strings and nothing more.
#[tactic(auto, using(crate::proofs::CountedLaws::cut_stands))]
pub fn padding_says_nothing()
    ensures front { (algorithm : Algorithm) (private more : List ℕ) (n : ℕ) → counted algorithm private ≡ Ok n
        → (n ≤ length private) × (counted algorithm (take n private ++ more) ≡ Ok n) }
    ensures stands { (algorithm : Algorithm) (blob private more : List ℕ) (key : Key) (n : ℕ)
        → StandsForKey algorithm blob private key → counted algorithm private ≡ Ok n
        → StandsForKey algorithm blob (take n private ++ more) key }
    ensures own { (key : Key) (parts : Parts) → IsPrivateKey key → key_parts key ≡ Ok parts
        → counted parts.algorithm parts.private_bytes ≡ Ok (length parts.private_bytes) }
{}

/// Two refusals are equal exactly where their contents are, and so are parts, parameters, keys of a passphrase and
/// configurations.
pub fn equality_is_of_contents()
    ensures error { IsEquality ⟦<PuttyError as PartialEq>⟧.eq }
    ensures parts { IsEquality ⟦<KeyParts as PartialEq>⟧.eq }
    ensures params { IsEquality ⟦<Argon2Params as PartialEq>⟧.eq }
    ensures material_v2 { IsEquality ⟦<KeyMaterialV2 as PartialEq>⟧.eq }
    ensures material_v3 { IsEquality ⟦<KeyMaterialV3 as PartialEq>⟧.eq }
    ensures config { IsEquality ⟦<PpkEncryptionConfig as PartialEq>⟧.eq }
    ensures builder { IsEquality ⟦<PpkEncryptionConfigBuilder as PartialEq>⟧.eq }
{}
