//! Requests for certificates, a line each, and the certificates that they ask for.
//!
//! Read first: `specs/Request.antt`; then `src/request.rt`.
#![tactic(auto)]

mod asked;
pub mod laws;
mod names;
mod request;
mod words;

pub use asked::{algorithm_by, type_for};
pub use request::CertRequestLine;
