//! A source that is read to its end, of at most 16,777,216 bytes, and its text.
//!
//! Read first: `specs/Input.antt` and `specs/Extent.antt`; then `src/input.rt`.
#![tactic(auto)]

mod input;
pub mod laws;
mod source_text;

pub use input::{InputError, read_input};
pub use source_text::{SourceError, as_text, take_text};
