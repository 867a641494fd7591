//! The library from C: a static library, whose functions and numbers `include/picky.h` declares.
//!
//! Read first: `include/picky.h` and `specs/Answer.antt`; then `src/exports.rt`.
#![tactic(auto)]

mod agent;
mod answer;
mod authorized_part;
mod certificate_part;
mod certify;
mod comment;
mod conversion;
mod error;
mod exports;
mod given;
mod inventory;
pub mod laws;
mod ledger;
mod name;
mod number;
mod part;
mod policy;
mod public;
mod round;
mod sealing;
mod shown;
mod shown_part;
mod target;
mod told;
