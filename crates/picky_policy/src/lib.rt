//! Who gets in: authorized keys decide on a key or a certificate that is offered.
//!
//! Read first: `specs/Decided.antt` and `specs/Run.antt`; then `src/run.rt`.
#![tactic(auto)]

mod answer;
mod command;
mod deciding;
mod decision;
mod demands;
mod handed_verifier;
mod key_line;
pub mod laws;
mod memory_verifier;
mod offer;
mod printed;
mod rules;
mod run;
mod status;
mod verifier;

pub use deciding::{DecideError, decide};
pub use decision::{Decision, Denial, Grant};
pub use handed_verifier::HandedVerifier;
pub use memory_verifier::MemoryVerifier;
pub use offer::Offer;
pub use picky_authorized::{AuthContent, AuthEntry, AuthOption, PolicyError, read_keys};
pub use printed::decision_text;
pub use run::run_policy;
pub use status::PolicyStatus;
pub use verifier::Verifier;
