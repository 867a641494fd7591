//! What a PuTTY private key file is made of: the bytes of its secret, its MAC, and what seals it (PuTTY's manual,
//! Appendix C, "PPK file format").
//!
//! Read first: `specs/Secret.antt` and `specs/Mac.antt`; then `src/laws.rt` and `src/parts.rt`.
#![tactic(auto)]

pub mod aes;
mod algorithm;
mod config;
mod counted;
mod error;
mod joined;
mod key_parts;
pub mod laws;
mod mac;
mod material;
mod names;
mod parts;
mod secret;
mod unsupported;

pub use config::{PpkEncryptionConfig, PpkEncryptionConfigBuilder};
pub use counted::counted_len;
pub use error::PuttyError;
pub use key_parts::{KeyParts, blob_of_public};
pub use mac::{MAC_SIZE_V3, Mac, mac_input, mac_key_v2};
pub use material::{Argon2Params, KeyMaterialV2, KeyMaterialV3, flavour_of};
pub use names::{Argon2Flavour, PpkKeyAlgorithm, PpkVersion};
pub use parts::{key_in_blob, private_key_of};
pub use unsupported::no_security_keys;
