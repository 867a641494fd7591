//! The run of the program, over the conversion of key texts.
//!
//! Read first: `specs/Run.antt`; then `run` in `src/program.rt`.
#![tactic(auto)]

mod command;
mod error;
mod fingerprint;
mod generator;
mod keys;
pub mod laws;
mod program;
mod reports;
pub mod sample_laws;
mod summary;
mod texts;

pub use error::Status;
pub use picky_conversion::{CertRequest, Target, convert};
pub use picky_key_text::{Key, Meaning, ReadError, read_text};
pub use picky_target::ConvertError;
pub use program::run;
pub use reports::{StatusWord, word};
pub use summary::sample;
