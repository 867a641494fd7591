//! The values of the rows, read and written a few bytes at a time.

use crate::wire_rows::{Kind, READ_ROWS, ReadRow, WRITE_ROWS, WriteRow};
use picky_wire::{
    List, MemorySink, MemorySource, Mpint, Sink, SliceSource, Source, SshReadExt, SshWriteExt,
    Timestamp, WireError, decode_list, decode_principals, encode_list, encode_principals,
};
use std::alloc::Global;
use std::mem::ManuallyDrop;
use std::test::Fail;

// Bytes in a vector of their own.
fn vec_of(alloc: Global, bytes: &[u8]) -> Result<Vec<u8>, WireError> {
    match Vec::from_slice(alloc, bytes) {
        Ok(vec) => Ok(vec),
        Err(_) => Err(WireError::NoMemory),
    }
}

fn push_bytes(to: &mut Vec<u8>, bytes: &[u8]) -> Result<(), WireError> {
    match to.extend_from_slice(bytes) {
        Ok(()) => Ok(()),
        Err(_) => Err(WireError::NoMemory),
    }
}

// The moments' bytes, joined.
fn read_moments<S: Source>(alloc: Global, source: &mut S) -> Result<Vec<u8>, WireError> {
    let moments: List<Timestamp> = decode_list(alloc, source)?;
    let mut joined = Vec::new(alloc);
    for moment in moments.as_slice() {
        push_bytes(&mut joined, &moment.secs().to_be_bytes())?;
    }
    Ok(joined)
}

// The texts, each with a semicolon after it.
fn read_principals<S: Source>(alloc: Global, source: &mut S) -> Result<Vec<u8>, WireError> {
    let texts = decode_principals(alloc, source)?;
    let mut joined = Vec::new(alloc);
    for text in texts.as_slice() {
        push_bytes(&mut joined, text.as_str().as_bytes())?;
        push_bytes(&mut joined, b";")?;
    }
    Ok(joined)
}

/// The value that the source's bytes begin with, as bytes.
pub fn read_value<S: Source>(
    alloc: Global,
    kind: Kind,
    source: &mut S,
) -> Result<Vec<u8>, WireError> {
    match kind {
        Kind::Text => vec_of(alloc, source.read_ssh_string(alloc)?.as_str().as_bytes()),
        Kind::Bytes => vec_of(alloc, source.read_ssh_bytes(alloc)?.as_slice()),
        Kind::Mpint => vec_of(alloc, source.read_ssh_mpint(alloc)?.bytes()),
        Kind::Moments => read_moments(alloc, source),
        Kind::Principals => read_principals(alloc, source),
    }
}

/// Whether what was read is what was wanted.
pub fn is_wanted(read: Result<Vec<u8>, WireError>, wanted: &Result<&'static [u8], u8>) -> bool {
    match (read, wanted) {
        (Ok(read), Ok(wanted)) => read.as_slice() == *wanted,
        (Err(error), Err(wanted)) => error as u8 == *wanted,
        (Ok(_), Err(_)) | (Err(_), Ok(_)) => false,
    }
}

fn number_of(alloc: Global, value: &[u8]) -> Result<Mpint, WireError> {
    match Mpint::from_be(alloc, value) {
        Ok(number) => Ok(number),
        Err(_) => Err(WireError::NoMemory),
    }
}

/// Writes the value that the bytes say.
pub fn write_value<S: Sink>(
    alloc: Global,
    kind: Kind,
    value: &'static [u8],
    sink: &mut S,
) -> Result<(), WireError> {
    match kind {
        Kind::Text => sink.write_ssh_string(std::str::from_utf8(value).unwrap_or("")),
        Kind::Bytes => sink.write_ssh_bytes(value),
        Kind::Mpint => sink.write_ssh_mpint(&number_of(alloc, value)?),
        Kind::Moments => {
            let moments: List<Timestamp> = decode_list(alloc, &mut SliceSource::new(value))?;
            encode_list(moments.as_slice(), sink)
        }
        Kind::Principals => {
            let texts = decode_principals(alloc, &mut SliceSource::new(value))?;
            encode_principals(texts.as_slice(), sink)
        }
    }
}

/// The row is read of a slice, which has so many bytes left.
fn is_read(alloc: Global, row: &ReadRow) -> bool {
    let mut slice = SliceSource::new(row.bytes);
    let read = read_value(alloc, row.kind, &mut slice);
    is_wanted(read, &row.wanted) && slice.rest().len() == row.left
}

/// The row is read where a call gives one byte and so many more.
fn is_read_in_calls(alloc: Global, row: &ReadRow, more: u8) -> Result<bool, Fail> {
    let step = more as usize + 1;
    let mut source = ManuallyDrop::new(MemorySource::new(alloc, row.bytes, step, &[])?);
    Ok(is_wanted(read_value(alloc, row.kind, &mut *source), &row.wanted))
}

#[test]
fn reads_the_rows(rt: HostRuntime) -> Result<(), Fail> {
    for row in &READ_ROWS {
        assert!(rt; is_read(rt.alloc(), row), "{}", row.name);
        for more in [0u8, 6, 99] {
            assert!(rt;
                is_read_in_calls(rt.alloc(), row, more)?,
                "{}, a byte and {more} a call",
                row.name
            );
        }
    }
    Ok(())
}

/// The row is written where a call takes one byte and so many more.
fn is_written(alloc: Global, row: &WriteRow, more: u8) -> Result<bool, Fail> {
    let mut sink = ManuallyDrop::new(MemorySink::new(alloc, 100, more as usize + 1, &[])?);
    write_value(alloc, row.kind, row.value, &mut *sink)?;
    Ok(sink.written() == row.wanted)
}

#[test]
fn writes_the_rows(rt: HostRuntime) -> Result<(), Fail> {
    for row in &WRITE_ROWS {
        for more in [0u8, 6, 99] {
            assert!(rt;
                is_written(rt.alloc(), row, more)?,
                "{}, a byte and {more} a call",
                row.name
            );
        }
    }
    Ok(())
}
