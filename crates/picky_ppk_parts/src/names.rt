//! The names that PuTTY's files have for some types of their lines.

use picky_kv::{Argon2FlavourValue, PpkKeyAlgorithmValue, PpkVersionKey};

/// The version of a file.
pub type PpkVersion = PpkVersionKey;

/// The algorithm of a key.
pub type PpkKeyAlgorithm = PpkKeyAlgorithmValue;

/// The flavour of Argon2.
pub type Argon2Flavour = Argon2FlavourValue;
