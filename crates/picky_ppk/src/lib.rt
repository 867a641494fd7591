//! PuTTY's files (PuTTY's manual, Appendix C): private keys of versions 2 and 3, sealed under a passphrase or not, and the
//! public keys that PuTTYgen saves.
//!
//! Read first: `specs/Accepted.antt`, what a text means, and `specs/Sealed.antt`; then `src/ppk.rt`.
#![tactic(auto)]

pub mod aes;
mod changing;
mod draft;
mod drawing;
mod for_putty;
mod keys;
pub mod laws;
mod layout;
mod opening;
mod openssh;
mod ppk;
mod sealing;
mod wrappers;

pub use drawing::salt_len;
pub use layout::PpkLayout;
pub use picky_ppk_file::{PpkFile, PpkSealing, PuttyPublicKey};
pub use picky_ppk_parts::{
    Argon2Flavour, Argon2Params, KeyMaterialV2, KeyMaterialV3, MAC_SIZE_V3, PpkEncryptionConfig,
    PpkEncryptionConfigBuilder, PpkKeyAlgorithm, PpkVersion, PuttyError, flavour_of,
};
pub use ppk::Ppk;
pub use sealing::can_derive_by;
pub use wrappers::{PuttyBasePrivateKey, PuttyBasePublicKey, PuttyPrivateKey};
