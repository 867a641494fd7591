//! The blobs of SSH private keys: read, seen in a buffer and written; and the armour of a private key file (OpenSSH's
//! PROTOCOL.key and PROTOCOL.u2f; RFC 7468).
//!
//! Read first: `specs/Blob.antt` and `specs/Pem.antt`; then `src/laws.rt` and `src/key.rt`.
#![tactic(auto)]

mod blob;
mod error;
mod key;
pub mod laws;
mod pem;
mod pem_error;
pub mod pem_laws;
mod pieces;
mod public_blob;
mod read;
mod refuse;
mod view;
mod view_fields;
mod view_read;

pub use error::SshPrivateKeyError;
pub use key::SshBasePrivateKey;
pub use pem::{Pem, parse_pem, pem_text, pem_text_len};
pub use pem_error::PemError;
pub use pieces::secret_pieces;
pub use public_blob::public_bytes;
pub use refuse::private_view_refusal;
pub use view::PrivateView;
pub use view_read::private_at;
