//! One field of a certificate's line, as bytes (OpenSSH's PROTOCOL.certkeys; sshd(8)).
//!
//! Read first: `specs/Fields.antt`; then `src/reading.rt` and `src/laws.rt`.
#![tactic(auto)]

mod error;
mod field;
pub mod laws;
mod lists;
mod parts;
mod reading;
mod signed;

pub use error::CertFieldError;
pub use field::{CertField, field_by_number};
pub use reading::certificate_field;
