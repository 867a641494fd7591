//! What a key text means, in each of its forms: OpenSSH's private key, PuTTY's private and public key, a certificate,
//! and a public key line.
//!
//! Read first: `specs/Form.antt` and `specs/Reads.antt`; then `src/reading.rt`.
#![tactic(auto)]

mod error;
mod form;
pub mod laws;
mod meaning;
mod ppk;
mod reading;

pub use error::ReadError;
pub use form::{Form, form_of};
pub use meaning::{Key, Meaning, public_key};
pub use reading::read_text;
