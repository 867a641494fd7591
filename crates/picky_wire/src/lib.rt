//! The wire of SSH: sources and sinks that may fail, and the fields that are read from one (RFC 4251, section 5).
//!
//! Read first: `specs/Takes.antt` and `specs/Puts.antt`, what reading and writing leave; then `src/source.rt` and
//! `src/read.rt`.
#![tactic(auto)]

mod calls;
mod element;
mod error;
mod fields;
pub mod laws;
mod list_codec;
mod piece;
mod principals;
mod read;
mod sink;
mod source;
mod std_io;
mod stop;
mod timestamp;
mod write;

pub use calls::FailingCalls;
pub use element::{CodecError, SshComplexTypeDecode, SshComplexTypeEncode, SshElement, SshLayout};
pub use error::{Failed, IoKind, WireError};
pub use fields::{take_byte, take_bytes, take_mpint, take_text, take_uint32, take_uint64};
pub use list_codec::{decode_items, decode_list, encode_list};
pub use picky_wire_base::{
    Bytes, List, MAX_LEN, Mpint, NoMemory, Part, Piece, SizeError, Stopped, Stuck, Text, TryClone,
    Word, both, byte_at, byte_in, mpint_at, mpint_in, pieces_len, push_pieces, sized_at, string_at,
    string_in, text_at, text_in, uint32_at, uint32_in, uint64_at, uint64_in, word_at, word_in,
};
pub use piece::{write_piece, write_pieces};
pub use principals::{decode_principals, encode_principals};
pub use read::{SshReadExt, fill, read_byte, read_chunks, read_uint32, read_uint64};
pub use sink::{MemorySink, Sink};
pub use source::{MemorySource, SliceSource, Source};
pub use std_io::{StdSink, StdSource};
pub use stop::Stop;
pub use timestamp::Timestamp;
pub use write::{SshWriteExt, write_all};
