//! The rules of text that SSH and PuTTY files share: base64, rows, lines, words, quoting.
//!
//! Read first: `specs/Words.antt` and `specs/Base64.antt`; then `src/laws.rt`.
#![tactic(auto)]

mod base64_text;
pub mod laws;
mod lines;
mod quote;
mod rows;
mod words;

pub use base64_text::{Base64Error, decode, encode};
pub use lines::{LineEnd, LineReader};
pub use quote::{push_quoted, unquoted};
pub use rows::{LINE_LEN, push_rows};
pub use words::{rest_of_line, rest_of_text, split_word};
