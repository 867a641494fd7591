//! The keys that each file has, one literal each.

ghost use Rattle.std.specs.Prelude.{◌≡◌, IfOk, IsOk, refl};
ghost use Rattle.picky_kv_words.specs.Literal.{word_of};
ghost use Rattle.picky_kv_words.specs.Keys.{encryption_key, comment_key, public_lines_key};
ghost use Rattle.picky_kv_words.specs.Keys.{private_lines_key, private_mac_key};
ghost use Rattle.picky_kv_words.specs.Keys.{encryption_key_row, comment_key_row, public_lines_key_row};
ghost use Rattle.picky_kv_words.specs.Keys.{private_lines_key_row, private_mac_key_row};

use crate::literals::{
    COMMENT, ENCRYPTION, PPK_COMMENT_KEY, PPK_ENCRYPTION_KEY, PPK_PRIVATE_LINES_KEY,
    PPK_PRIVATE_MAC_KEY, PPK_PUBLIC_LINES_KEY, PRIVATE_LINES, PRIVATE_MAC, PUBLIC_LINES,
};
use crate::word::{PpkWord, WordTexts};
use picky_wire_base::{NoMemory, TryClone};
use std::alloc::Global;

/// The key of the line that names the encryption.
#[derive(Clone, Copy, Debug, Default, PartialEq, Eq)]
pub struct PpkEncryptionKey;

#[tactic(auto, unfolding(crate::specs::Keys::encryption_key))]
impl PpkWord for PpkEncryptionKey {
    ghost word = { word_of encryption_key_row encryption_key (record {}) (λ _. refl) };

    fn texts() -> WordTexts {
        WordTexts::new(ENCRYPTION, PPK_ENCRYPTION_KEY)
    }
}

impl TryClone for PpkEncryptionKey {
    fn try_clone(&self, _alloc: Global) -> Result<PpkEncryptionKey, NoMemory>
        ensures ok { IfOk result (λ copy. copy ≡ self.now) }
        ensures always { IsOk result }
    {
        Ok(*self)
    }
}

/// The key of the comment's line.
#[derive(Clone, Copy, Debug, Default, PartialEq, Eq)]
pub struct PpkCommentKey;

#[tactic(auto, unfolding(crate::specs::Keys::comment_key))]
impl PpkWord for PpkCommentKey {
    ghost word = { word_of comment_key_row comment_key (record {}) (λ _. refl) };

    fn texts() -> WordTexts {
        WordTexts::new(COMMENT, PPK_COMMENT_KEY)
    }
}

impl TryClone for PpkCommentKey {
    fn try_clone(&self, _alloc: Global) -> Result<PpkCommentKey, NoMemory>
        ensures ok { IfOk result (λ copy. copy ≡ self.now) }
        ensures always { IsOk result }
    {
        Ok(*self)
    }
}

/// The key of the block of the public key.
#[derive(Clone, Copy, Debug, Default, PartialEq, Eq)]
pub struct PpkPublicLinesKey;

#[tactic(auto, unfolding(crate::specs::Keys::public_lines_key))]
impl PpkWord for PpkPublicLinesKey {
    ghost word = { word_of public_lines_key_row public_lines_key (record {}) (λ _. refl) };

    fn texts() -> WordTexts {
        WordTexts::new(PUBLIC_LINES, PPK_PUBLIC_LINES_KEY)
    }
}

impl TryClone for PpkPublicLinesKey {
    fn try_clone(&self, _alloc: Global) -> Result<PpkPublicLinesKey, NoMemory>
        ensures ok { IfOk result (λ copy. copy ≡ self.now) }
        ensures always { IsOk result }
    {
        Ok(*self)
    }
}

/// The key of the block of the private key.
#[derive(Clone, Copy, Debug, Default, PartialEq, Eq)]
pub struct PpkPrivateLinesKey;

#[tactic(auto, unfolding(crate::specs::Keys::private_lines_key))]
impl PpkWord for PpkPrivateLinesKey {
    ghost word = { word_of private_lines_key_row private_lines_key (record {}) (λ _. refl) };

    fn texts() -> WordTexts {
        WordTexts::new(PRIVATE_LINES, PPK_PRIVATE_LINES_KEY)
    }
}

impl TryClone for PpkPrivateLinesKey {
    fn try_clone(&self, _alloc: Global) -> Result<PpkPrivateLinesKey, NoMemory>
        ensures ok { IfOk result (λ copy. copy ≡ self.now) }
        ensures always { IsOk result }
    {
        Ok(*self)
    }
}

/// The key of the line of the MAC.
#[derive(Clone, Copy, Debug, Default, PartialEq, Eq)]
pub struct PpkPrivateMacKey;

#[tactic(auto, unfolding(crate::specs::Keys::private_mac_key))]
impl PpkWord for PpkPrivateMacKey {
    ghost word = { word_of private_mac_key_row private_mac_key (record {}) (λ _. refl) };

    fn texts() -> WordTexts {
        WordTexts::new(PRIVATE_MAC, PPK_PRIVATE_MAC_KEY)
    }
}

impl TryClone for PpkPrivateMacKey {
    fn try_clone(&self, _alloc: Global) -> Result<PpkPrivateMacKey, NoMemory>
        ensures ok { IfOk result (λ copy. copy ≡ self.now) }
        ensures always { IsOk result }
    {
        Ok(*self)
    }
}
