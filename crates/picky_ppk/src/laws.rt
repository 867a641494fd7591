//! The laws of this crate, each as the contract of a function that does nothing.

ghost use Rattle.std.specs.Prelude.{◌≡◌, ◌⊎◌, ◌++◌, ◌<◌, ◌^◌, List, ℕ, true, false, Ok, length};
ghost use Rattle.picky_text.specs.Lines.{IsLine};
ghost use Rattle.picky_kv.specs.declared.PpkVersionKey.{PpkVersionKey as Version};
ghost use Rattle.picky_suite.specs.Meanings.{Meanings};
ghost use Rattle.picky_sshkey.specs.declared.private_key.SshPrivateKey.{SshPrivateKey as OpenSshKey};
ghost use Rattle.picky_sshkey_blob.specs.declared.key.SshBasePrivateKey.{SshBasePrivateKey as Key};
ghost use Rattle.picky_sshkey_blob.specs.Key.{IsPrivateKey};
ghost use Rattle.picky_wire_base.specs.Equality.{IsEquality};
ghost use Rattle.picky_ppk_parts.specs.declared.config.PpkEncryptionConfig.{PpkEncryptionConfig as Config};
ghost use Rattle.picky_ppk_parts.specs.Counted.{counted};
ghost use Rattle.picky_ppk_parts.specs.Parts.{StandsForKey};
ghost use Rattle.picky_ppk_file.specs.declared.file.PpkFile.{PpkFile as File};
ghost use Rattle.picky_ppk_file.specs.File.{IsFile, version_of, is_sealed};
ghost use Rattle.picky_ppk_file.specs.Written.{line_end_of, file_spelled};
ghost use Rattle.picky_ppk.specs.Mac.{CarriesMac, covered};
ghost use Rattle.picky_ppk.specs.Accepted.{HaveOneMac, IsAccepted, SayTheSame, mac_key_under};
ghost use Rattle.picky_ppk.specs.Checked.{ppk_meaning};
ghost use Rattle.picky_ppk.specs.Opened.{decrypted};
ghost use Rattle.picky_ppk.specs.Sealed.{padding_len, encrypted};
ghost use Rattle.picky_ppk.specs.Changed.{of_base_key, of_openssh};
ghost use Rattle.picky_ppk.specs.ForPutty.{HasPuttySecret, for_putty};
ghost use Rattle.picky_ppk.specs.KeyOf.{base_key_of};
ghost use Rattle.picky_ppk.specs.PpkLayout.{laid_file};
ghost use Rattle.picky_ppk.specs.declared.layout.PpkLayout.{PpkLayout as Layout};
ghost use Rattle.picky_ppk.specs.declared.layout.PpkLayout.TheVariants.{Number, Putty};
ghost use Rattle.picky_ppk.specs.Wrappers.{base_of_openssh, base_to_openssh};
ghost use Rattle.picky_ppk.specs.declared.wrappers.PuttyBasePrivateKey.{PuttyBasePrivateKey as Base};

use crate::MAC_SIZE_V3;
use crate::aes::{BLOCK_SIZE, KEY_SIZE};
use crate::ppk::Ppk;
use crate::wrappers::{PuttyBasePrivateKey, PuttyBasePublicKey, PuttyPrivateKey};
pub use picky_ppk_parts::laws::no_mac_input_is_a_front_of_another;

/// AES-256 has keys of 32 bytes and blocks of 16 (FIPS 197, section 5), and HMAC-SHA-256 gives the 32 bytes of a MAC of
/// version 3.
pub fn sizes_are_those_of_the_ciphers()
    ensures key { KEY_SIZE ≡ 32 }
    ensures block { BLOCK_SIZE ≡ 16 }
    ensures mac { MAC_SIZE_V3 ≡ 32 }
{}

/// What is written of a file that is sealed, or carries its own MAC, is read back, whatever follows it, where the comment
/// has no LF, and in version 3 no CR at its end.
pub fn file_is_read_back()
    ensures { (m : Meanings) (f : File) (text more : List ℕ) → IsFile f
        → IsLine (line_end_of (version_of f.sealing)) f.comment → (is_sealed f.sealing ≡ true) ⊎ CarriesMac m f
        → file_spelled f ≡ Ok text → ppk_meaning m (text ++ more) ≡ Ok f }
{}

/// A file that is sealed and opened under the same passphrase is the same, where it carries its own MAC and its private
/// bytes are its counted strings.
pub fn sealed_file_is_opened()
    ensures { (m : Meanings) (pass salt padding : List ℕ) (config : Config) (f sealed : File) → CarriesMac m f
        → counted f.algorithm f.private_bytes ≡ Ok (length f.private_bytes) → length padding ≡ padding_len f
        → encrypted m pass config salt padding f ≡ Ok sealed → decrypted m pass sealed ≡ Ok f }
{}

/// A key of OpenSSH's that is put into a file of either version, or into a key without one, comes back whole, secrets with
/// leading zeros and of all zeros too.
pub fn openssh_key_comes_back()
    ensures file { (m : Meanings) (key : OpenSshKey) (f : File) → IsPrivateKey key.base_key → of_openssh m key ≡ Ok f
        → (base_key_of f ≡ Ok key.base_key) × (f.comment ≡ key.comment) }
    ensures versions { (m : Meanings) (version : Version) (key : Key) (comment : List ℕ) (f : File) → IsPrivateKey key
        → of_base_key m version key comment ≡ Ok f → (base_key_of f ≡ Ok key) × (f.comment ≡ comment) }
    ensures base { (key : Key) (base : Base) → IsPrivateKey key → base_of_openssh key ≡ Ok base
        → base_to_openssh base ≡ Ok key }
{}

/// A key's file has the key in each layout. With the number it is that of `Ppk::from_base_key`; in PuTTY's own it is what
/// `Ppk::for_putty` makes of that, and has PuTTY's secret.
pub fn layouts_have_the_same_key()
    ensures key { (m : Meanings) (version : Version) (layout : Layout) (key : Key) (comment : List ℕ) (f : File) → IsPrivateKey key
        → laid_file m version layout key comment ≡ Ok f → (base_key_of f ≡ Ok key) × (f.comment ≡ comment) }
    ensures number { (m : Meanings) (version : Version) (key : Key) (comment : List ℕ)
        → laid_file m version Number key comment ≡ of_base_key m version key comment }
    ensures putty { (m : Meanings) (version : Version) (key : Key) (comment : List ℕ) (f g : File) → IsPrivateKey key
        → of_base_key m version key comment ≡ Ok f → laid_file m version Putty key comment ≡ Ok g → for_putty m f ≡ Ok g }
    ensures secret { (m : Meanings) (version : Version) (key : Key) (comment : List ℕ) (f : File) → IsPrivateKey key
        → laid_file m version Putty key comment ≡ Ok f → HasPuttySecret f }
{}

/// A file that isn't sealed has a key exactly where its parts stand for it.
pub fn key_is_where_it_stands()
    ensures says { (f : File) (key : Key) → base_key_of f ≡ Ok key
        → (is_sealed f.sealing ≡ false) × StandsForKey f.algorithm f.public_key f.private_bytes key }
    ensures means { (f : File) (key : Key) → is_sealed f.sealing ≡ false
        → StandsForKey f.algorithm f.public_key f.private_bytes key → base_key_of f ≡ Ok key }
{}

/// What a MAC covers is no front of what the MAC of another file covers, but where the algorithm, whether it is sealed, the
/// comment, the blob and the private bytes are the same.
pub fn mac_binds_its_fields()
    ensures { (f g : File) (a b x y : List ℕ) → IsFile f → IsFile g → length a < 2 ^ 32 → length b < 2 ^ 32
        → covered f a ++ x ≡ covered g b ++ y
        → (f.algorithm ≡ g.algorithm) × (is_sealed f.sealing ≡ is_sealed g.sealing) × (f.comment ≡ g.comment)
        × (f.public_key ≡ g.public_key) × (a ≡ b) }
{}

/// Two texts that are accepted, whose MACs are equal under equal keys, and that differ in algorithm, encryption, comment, public
/// blob or opened private bytes, have two different messages with one MAC.
pub fn accepted_texts_with_one_mac_have_two_messages()
    ensures { (m : Meanings) (pass other s t : List ℕ) (f g : File) → IsAccepted m pass s f → IsAccepted m other t g
        → mac_key_under m pass f ≡ mac_key_under m other g → f.mac ≡ g.mac → (SayTheSame m pass other f g → ⊥)
        → HaveOneMac m pass other f g }
{}

/// Two files are equal exactly where their fields are, and so are keys without a file.
pub fn equality_is_of_contents()
    ensures ppk { IsEquality ⟦<Ppk as PartialEq>⟧.eq }
    ensures public { IsEquality ⟦<PuttyBasePublicKey as PartialEq>⟧.eq }
    ensures base { IsEquality ⟦<PuttyBasePrivateKey as PartialEq>⟧.eq }
    ensures private { IsEquality ⟦<PuttyPrivateKey as PartialEq>⟧.eq }
{}
