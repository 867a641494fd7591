//! What the commands that issue certificates are given: their options in words, and the two parts of their source.
//!
//! Read first: `specs/Options.antt` and `specs/Parts.antt`; then `src/options.rt`.
#![tactic(auto)]

pub mod laws;
mod named_payload;
mod option_word;
mod options;
mod parts;
mod value;

pub use options::{CertOptions, options_of};
pub use parts::{Parts, parts_of};
pub use value::{cert_type_of, number_of};
