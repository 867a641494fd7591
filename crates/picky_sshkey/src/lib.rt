//! SSH private keys in OpenSSH's envelope (OpenSSH's PROTOCOL.key), sealed under a passphrase or not.
//!
//! Read first: `specs/PrivateText.antt`, what a text means, and `specs/Written.antt`; then `src/private_key.rt`.
#![tactic(auto)]

mod block;
mod cipher;
mod draft;
mod envelope;
mod found;
mod kdf;
mod kdf_wire;
mod kept;
mod key_of_block;
pub mod laws;
mod private_key;
mod reading;
mod sealing;
mod writing;

pub use kdf::{Kdf, KdfOption};
pub use picky_sshkey_blob::{
    Pem, PemError, PrivateView, SshBasePrivateKey, SshPrivateKeyError, parse_pem,
};
pub use private_key::{PrivateKeyRef, SshPrivateKey};
