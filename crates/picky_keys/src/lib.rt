//! SSH public keys: their kinds and names, their blobs, lines and fingerprints, and the lines that a source gives one after
//! another (RFC 4253, section 6.6; sshd(8)).
//!
//! Read first: `specs/Blob.antt` and `specs/Line.antt`; then `src/laws.rt` and `src/key.rt`.
#![tactic(auto)]

mod algorithm;
mod blob;
mod blob_bytes;
mod curve;
mod error;
mod fingerprint;
mod key;
pub mod key_identifier;
pub mod key_name_laws;
pub mod key_type;
mod kind;
pub mod laws;
mod line;
mod private_key;
mod public_key;
mod read;
mod source_line;
mod view;

pub use algorithm::{HashAlgorithm, SignatureAlgorithm};
pub use blob::pieces_behind;
pub use blob_bytes::bytes_of;
pub use curve::{EcCurve, EcCurveSshExt, EdAlgorithm, EdAlgorithmSshExt};
pub use error::SshPublicKeyError;
pub use key::{SshBasePublicKey, SshPublicKey};
pub use kind::KeyKind;
pub use line::{line_of_words, names_key_type};
pub use private_key::{Issuer, PrivateKey};
pub use public_key::{PublicKey, PublicKeyRef};
pub use source_line::take_line;
pub use view::{PublicView, ed_key_at, ed_key_of, fields_at, key_at, kind_at};
