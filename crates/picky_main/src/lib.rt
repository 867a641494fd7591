//! What the `main`s of the programs share: the words of the command line and the variables of the environment.
//!
//! Read first: `src/given.rt`.
#![tactic(auto)]

mod given;

pub use given::{GivenError, bytes_given, bytes_of_hex, hex_variable, text_given, variable, words};
