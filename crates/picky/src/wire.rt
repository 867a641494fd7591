//! The wire of SSH (RFC 4251, section 5): sources and sinks that may fail, values, fields and lists, and fields seen in a buffer.

pub mod laws;

pub use picky_wire::{
    Bytes, CodecError, Failed, FailingCalls, IoKind, List, MAX_LEN, MemorySink, MemorySource,
    Mpint, NoMemory, Part, Piece, Sink, SizeError, SliceSource, Source, SshComplexTypeDecode,
    SshComplexTypeEncode, SshElement, SshLayout, SshReadExt, SshWriteExt, StdSink, StdSource, Stop,
    Stuck, Text, Timestamp, TryClone, WireError, Word, byte_at, decode_list, decode_principals,
    encode_list, encode_principals, fill, mpint_at, read_byte, read_chunks, read_uint32,
    read_uint64, sized_at, string_at, text_at, uint32_at, uint64_at, word_at, write_all,
    write_piece, write_pieces,
};
