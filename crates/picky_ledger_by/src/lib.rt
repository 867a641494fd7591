//! Requests at a ledger by question and answer: the caller has the issuer's device sign, for all requests at once.
//!
//! Read first: `specs/Lacked.antt` and `specs/Applied.antt`; then `src/apply.rt` and `src/laws.rt`.
#![tactic(auto)]

mod apply;
mod asked;
pub mod laws;
mod line;
mod requests;
mod signature;

pub use apply::{Applied, LedgerByError, apply_requests};
