//! Certificates from an issuer's text and a key text, signed by a table of answers.
//!
//! Read first: `specs/Certify.antt` and `specs/Certified.antt`; then `src/certifying.rt` and `src/laws.rt`.
#![tactic(auto)]

mod asked;
mod certifying;
mod error;
pub mod laws;
mod signing;
mod texts;

pub use certifying::{certificate_draft, certify_by};
pub use error::CertifyError;
pub use signing::Certified;
