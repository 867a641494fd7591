//! Inventories of texts that a caller has as bytes, each its own: listed, merged, and checked piece by piece.
//!
//! Read first: `specs/Listed.antt`, `specs/Texts.antt` and `specs/Pieces.antt`; then `src/listing.rt` and `src/laws.rt`.
#![tactic(auto)]

mod good_lines;
pub mod laws;
mod line;
mod listing;
mod merging;
mod piece;

pub use line::is_listed_line;
pub use listing::{ListError, TextCause, list_texts};
pub use merging::{MergeError, merge_two};
pub use piece::{CheckError, check_piece};
