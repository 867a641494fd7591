//! Sources and sinks that fail in mid-stream, and what a source is asked for.

use crate::fakes::Asked;
use crate::keys::{KEY_ROWS, key_of};
use crate::read_and_write::{is_wanted, read_value, write_value};
use crate::wire_rows::{READ_ROWS, ReadRow, WRITE_ROWS, WriteRow};
use picky_keys::{SshBasePublicKey, SshPublicKey, SshPublicKeyError};
use picky_wire::{
    FailingCalls, IoKind, MemorySink, MemorySource, NoMemory, SliceSource, SshComplexTypeDecode,
    SshComplexTypeEncode, SshReadExt, WireError,
};
use std::alloc::Global;
use std::mem::ManuallyDrop;
use std::test::Fail;

#[test]
fn calls_fail_by_their_number(rt: HostRuntime) -> Result<(), Fail> {
    let mut calls = FailingCalls::new(rt.alloc(), &[1])?;
    assert!(rt; !calls.next_fails());
    calls.count_passed();
    assert!(rt; calls.next_fails());
    calls.count_failed();
    Ok(())
}

/// Where the call fails, this is read of the row's bytes.
fn is_read(
    alloc: Global,
    row: &ReadRow,
    call: u64,
    wanted: &Result<&'static [u8], u8>,
) -> Result<bool, NoMemory> {
    let mut source = ManuallyDrop::new(MemorySource::new(alloc, row.bytes, 1, &[call])?);
    Ok(is_wanted(read_value(alloc, row.kind, &mut *source), wanted))
}

#[test]
fn reads_fail_where_a_call_fails(rt: HostRuntime) -> Result<(), Fail> {
    for row in &READ_ROWS {
        let name = row.name;
        for call in 0..row.taken {
            assert!(rt;
                is_read(rt.alloc(), row, call, &Err(2))?,
                "{name}, call {call} fails"
            );
        }
        assert!(rt;
            is_read(rt.alloc(), row, row.taken + 1, &row.wanted)?,
            "{name}, a later call would fail"
        );
    }
    Ok(())
}

/// Where the call fails, writing the row fails, and these bytes stay.
fn is_cut(alloc: Global, row: &WriteRow, call: u64, bytes: &[u8]) -> Result<bool, NoMemory> {
    let mut sink = ManuallyDrop::new(MemorySink::new(alloc, 100, 1, &[call])?);
    let written = write_value(alloc, row.kind, row.value, &mut *sink);
    Ok(written == Err(WireError::WriteFault) && sink.written() == bytes)
}

#[test]
fn writes_fail_where_a_call_fails(rt: HostRuntime) -> Result<(), Fail> {
    for row in &WRITE_ROWS {
        for call in 0..row.wanted.len() {
            assert!(rt;
                is_cut(rt.alloc(), row, call as u64, &row.wanted[..call])?,
                "{}, call {call} fails",
                row.name
            );
        }
    }
    Ok(())
}

/// Writing and reading the key's blob, and taking its line, stop where call 9 fails.
fn stops(alloc: Global, line: &str) -> Result<bool, Fail> {
    let key = ManuallyDrop::new(key_of(alloc, line)?);
    let mut whole = ManuallyDrop::new(MemorySink::new(alloc, 999, 999, &[])?);
    key.encode(&mut *whole)?;
    Ok(
        key.spelling_len() == whole.written().len() as u64
            && stops_writing(alloc, &key)?
            && stops_reading(alloc, whole.written())?
            && stops_taking(alloc, line)?,
    )
}

fn stops_writing(alloc: Global, key: &SshBasePublicKey) -> Result<bool, NoMemory> {
    let mut sink = MemorySink::new(alloc, 999, 1, &[9])?;
    let stopped = key.encode(&mut sink).err();
    let fault = SshPublicKeyError::IoError(IoKind::WriteFault);
    Ok(stopped == Some(fault) && sink.written().len() == 9)
}

fn stops_reading(alloc: Global, blob: &[u8]) -> Result<bool, NoMemory> {
    let mut source = MemorySource::new(alloc, blob, 1, &[9])?;
    let stopped = SshBasePublicKey::decode(alloc, &mut source).err();
    Ok(stopped == Some(SshPublicKeyError::IoError(IoKind::ReadFault)))
}

fn stops_taking(alloc: Global, line: &str) -> Result<bool, NoMemory> {
    let mut source = MemorySource::new(alloc, line.as_bytes(), 1, &[9])?;
    let stopped = SshPublicKey::decode(alloc, &mut source).err();
    Ok(stopped == Some(SshPublicKeyError::IoError(IoKind::ReadFault)))
}

#[test]
fn stops_at_faults(rt: HostRuntime) -> Result<(), Fail> {
    for row in &KEY_ROWS {
        assert!(rt; stops(rt.alloc(), row.line)?, "{}", row.name);
    }
    Ok(())
}

/// The longest buffer that reading a string of these bytes asks for, where it answers so.
fn most_asked(alloc: Global, bytes: &[u8], wanted: Option<&[u8]>) -> Option<usize> {
    let mut source = Asked {
        bytes: SliceSource::new(bytes),
        most: 0,
    };
    let is_wanted = match source.read_ssh_bytes(alloc) {
        Ok(read) => wanted == Some(read.as_slice()),
        Err(e) => wanted.is_none() && e == WireError::UnexpectedEnd,
    };
    if is_wanted { Some(source.most) } else { None }
}

#[test]
fn asks_for_few_bytes_ahead(rt: HostRuntime) -> Result<(), Fail> {
    let alloc = rt.alloc();
    let short = b"\xff\xff\xff\xff\x01\x02\x03";
    assert!(rt; most_asked(alloc, short, None) == Some(4096));
    let mut long = Vec::from_slice(alloc, &10_000u32.to_be_bytes())?;
    long.extend_from_slice(&[7u8; 10_000])?;
    let wanted = Some([7u8; 10_000].as_slice());
    assert!(rt; most_asked(alloc, long.as_slice(), wanted) == Some(4096));
    Ok(())
}
