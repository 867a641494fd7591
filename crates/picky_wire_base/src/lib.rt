//! SSH's wire without streams: its layouts, as grammars that carry their laws, values, pieces of fields, and fields seen in a
//! buffer (RFC 4251, section 5).
//!
//! Read first: `specs/Grammar.antt`, which says what a layout is, `specs/Wire.antt`, the fields, and `src/laws.rt`.
#![tactic(auto)]

mod bytes;
mod copy;
mod error;
pub mod laws;
mod list;
mod mpint;
mod piece;
mod stopped;
mod view;

pub use bytes::{Bytes, MAX_LEN, Text};
pub use copy::{TryClone, both};
pub use error::{NoMemory, SizeError};
pub use list::List;
pub use mpint::Mpint;
pub use piece::{Piece, pieces_len, push_pieces};
pub use stopped::{Stopped, byte_in, mpint_in, string_in, text_in, uint32_in, uint64_in, word_in};
pub use view::{
    Part, Stuck, Word, byte_at, mpint_at, sized_at, string_at, text_at, uint32_at, uint64_at,
    word_at,
};
