//! A filter for PuTTY's private key files: a file that isn't sealed in, the same file as PuTTY's own programs write it out
//! (PuTTY's manual, Appendix C).
//!
//! Read first: `specs/PuttyText.antt` and `specs/Run.antt`; then `src/run.rt`.
#![tactic(auto)]

mod run;
mod status;
mod text;

pub use run::run_puttyppk;
pub use status::PuttyPpkStatus;
pub use text::text_for_putty;
