//! The texts that a key and a comment are written as, target by target.
//!
//! Read first: `specs/Carried.antt` and `specs/Texts.antt`; then `src/laws.rt` and `src/writing.rt`.
#![tactic(auto)]

mod comment;
mod envelope;
mod error;
mod file;
pub mod laws;
mod lengths;
mod public;
mod target;
mod writing;

pub use comment::carries_comment;
pub use error::ConvertError;
pub use target::{DEFAULT_ROUNDS, KeyTarget};
pub use writing::write_text;
