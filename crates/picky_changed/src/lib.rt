//! A key text changed in one thing: with another comment.
//!
//! Read first: `specs/Comment.antt`; then `src/comment.rt`.
#![tactic(auto)]

mod comment;
pub mod laws;

pub use comment::with_comment;
pub use picky_target::ConvertError;
