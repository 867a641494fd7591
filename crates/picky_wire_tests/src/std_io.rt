//! The adapters over std's streams: a call of the stream for each call, and none that is tried again.

use crate::fakes::{Turn, TurnReader, TurnWriter, Turns};
use picky_wire::{
    Sink, Source, SshReadExt, StdSink, StdSource, WireError, read_byte, read_uint32, read_uint64,
    write_all,
};
use std::alloc::{AllocError, Global};
use std::io::ErrorKind;
use std::mem::ManuallyDrop;
use std::test::Fail;

/// The turns of a stream, how many bytes the adapter is handed in each call, how many each call moves,
/// where it doesn't fail, and the bytes that are moved in all.
struct Row {
    name: &'static str,
    turns: &'static [Turn],
    handed: &'static [usize],
    moved: &'static [Option<usize>],
    bytes: &'static [u8],
}

// What one call of the stream does, and no more: by hand of the turns. A call that is interrupted is one
// that std's own read_exact and write_all try again.
static ROWS: [Row; 6] = [
    Row {
        name: "a stream that fails once",
        turns: &[
            Turn::Moves(8),
            Turn::Fails(ErrorKind::ConnectionReset),
            Turn::Moves(8),
        ],
        handed: &[2, 3, 3],
        moved: &[Some(2), None, Some(3)],
        bytes: b"abcde",
    },
    Row {
        name: "a call that is interrupted",
        turns: &[Turn::Fails(ErrorKind::Interrupted), Turn::Moves(8)],
        handed: &[4, 4],
        moved: &[None, Some(4)],
        bytes: b"abcd",
    },
    Row {
        name: "a stream that would block twice",
        turns: &[
            Turn::Fails(ErrorKind::WouldBlock),
            Turn::Fails(ErrorKind::WouldBlock),
            Turn::Moves(8),
        ],
        handed: &[1, 1, 1],
        moved: &[None, None, Some(1)],
        bytes: b"a",
    },
    Row {
        name: "a stream that moves in pieces",
        turns: &[Turn::Moves(1), Turn::Moves(2), Turn::Moves(3)],
        handed: &[6, 5, 3],
        moved: &[Some(1), Some(2), Some(3)],
        bytes: b"abcdef",
    },
    Row {
        name: "no bytes, and then some",
        turns: &[Turn::Moves(8), Turn::Moves(8)],
        handed: &[0, 2],
        moved: &[Some(0), Some(2)],
        bytes: b"ab",
    },
    Row {
        name: "no bytes of a stream that fails",
        turns: &[Turn::Fails(ErrorKind::Interrupted), Turn::Moves(8)],
        handed: &[0, 2],
        moved: &[None, Some(2)],
        bytes: b"ab",
    },
];

const TEXT: &[u8; 8] = b"abcdefgh";

/// A reader of the text that takes these turns.
fn reader_of(alloc: Global, turns: &[Turn]) -> TurnReader<'_> {
    TurnReader {
        turns: Turns::new(alloc, turns),
        rest: TEXT,
    }
}

/// A writer that takes these turns, and has nothing yet.
fn writer_of(alloc: Global, turns: &[Turn]) -> TurnWriter<'_> {
    TurnWriter {
        turns: Turns::new(alloc, turns),
        written: Vec::new(alloc),
    }
}

/// How many bytes a call for so many reads, where it doesn't fail; they go behind the bytes.
fn read_once<S: Source>(
    source: &mut S,
    len: usize,
    bytes: &mut Vec<u8>,
) -> Result<Option<usize>, AllocError> {
    let mut buffer = [0u8; 8];
    let read = source.read(&mut buffer[..len.min(8)]).ok();
    bytes.extend_from_slice(&buffer[..read.unwrap_or(0).min(8)])?;
    Ok(read)
}

/// How many bytes each call for so many reads, where it doesn't fail, and all of them.
fn read_each<S: Source>(
    source: &mut S,
    handed: &[usize],
    moved: &mut Vec<Option<usize>>,
    bytes: &mut Vec<u8>,
) -> Result<(), AllocError> {
    for len in handed {
        moved.push(read_once(source, *len, bytes)?)?;
    }
    Ok(())
}

/// The calls read what the row says.
fn reads(alloc: Global, row: &Row, reader: &mut TurnReader<'_>) -> Result<bool, AllocError> {
    let mut moved = ManuallyDrop::new(Vec::new(alloc));
    let mut bytes = ManuallyDrop::new(Vec::new(alloc));
    read_each(
        &mut StdSource::new(reader),
        row.handed,
        &mut moved,
        &mut bytes,
    )?;
    Ok(moved.as_slice() == row.moved && bytes.as_slice() == row.bytes)
}

/// The reader was handed so many bytes in each call.
fn was_handed(reader: &TurnReader<'_>, handed: &[usize]) -> bool {
    reader.turns.handed.as_slice() == handed
}

/// So they do, and each hands the reader what the row says.
fn is_read(alloc: Global, row: &Row) -> Result<bool, AllocError> {
    let mut reader = ManuallyDrop::new(reader_of(alloc, row.turns));
    Ok(reads(alloc, row, &mut reader)? && was_handed(&reader, row.handed))
}

#[test]
fn reads_by_one_call_each(rt: HostRuntime) -> Result<(), Fail> {
    for row in &ROWS {
        assert!(rt; is_read(rt.alloc(), row)?, "{}", row.name);
    }
    Ok(())
}

/// How many bytes each call for so many writes, where it doesn't fail.
fn write_each<S: Sink>(
    sink: &mut S,
    handed: &[usize],
    moved: &mut Vec<Option<usize>>,
) -> Result<(), AllocError> {
    let mut rest = TEXT.as_slice();
    for len in handed {
        let written = sink.write(&rest[..(*len).min(rest.len())]).ok();
        rest = &rest[written.unwrap_or(0).min(rest.len())..];
        moved.push(written)?;
    }
    Ok(())
}

/// The calls write as many bytes as the row says.
fn writes(alloc: Global, row: &Row, writer: &mut TurnWriter<'_>) -> Result<bool, AllocError> {
    let mut moved = ManuallyDrop::new(Vec::new(alloc));
    write_each(&mut StdSink::new(writer), row.handed, &mut moved)?;
    Ok(moved.as_slice() == row.moved)
}

/// The writer was handed so many bytes in each call, and has these.
fn has(writer: &TurnWriter<'_>, handed: &[usize], bytes: &[u8]) -> bool {
    writer.turns.handed.as_slice() == handed && writer.written.as_slice() == bytes
}

/// The writer takes what the row says.
fn is_written(alloc: Global, row: &Row) -> Result<bool, AllocError> {
    let mut writer = ManuallyDrop::new(writer_of(alloc, row.turns));
    Ok(writes(alloc, row, &mut writer)? && has(&writer, row.handed, row.bytes))
}

#[test]
fn writes_by_one_call_each(rt: HostRuntime) -> Result<(), Fail> {
    for row in &ROWS {
        assert!(rt; is_written(rt.alloc(), row)?, "{}", row.name);
    }
    Ok(())
}

/// The first call fails, and the second takes both bytes.
fn takes_once_failed<S: Sink>(sink: &mut S) -> bool {
    sink.write(b"ab").is_err() && sink.write(b"ab").ok() == Some(2)
}

#[test]
fn fails_where_a_writer_takes_nothing(rt: HostRuntime) -> Result<(), Fail> {
    let turns = [Turn::Moves(0), Turn::Moves(8)];
    let mut writer = ManuallyDrop::new(writer_of(rt.alloc(), &turns));
    assert!(rt; takes_once_failed(&mut StdSink::new(&mut *writer)));
    assert!(rt; has(&writer, &[2, 2], b"ab"));
    Ok(())
}

// The second call of a stream fails here.
static FAULT: [Turn; 3] = [
    Turn::Moves(2),
    Turn::Fails(ErrorKind::Interrupted),
    Turn::Moves(8),
];

/// A field is read no further than its fault, and the next one from there.
fn reads_on<S: Source>(source: &mut S) -> bool {
    read_uint32(source) == Err(WireError::ReadFault) && read_byte(source) == Ok(b'c')
}

#[test]
fn reads_no_field_on_past_a_fault(rt: HostRuntime) -> Result<(), Fail> {
    let mut reader = ManuallyDrop::new(reader_of(rt.alloc(), &FAULT));
    assert!(rt; reads_on(&mut StdSource::new(&mut *reader)));
    assert!(rt; was_handed(&reader, &[4, 2, 1]));
    Ok(())
}

/// A piece is written no further than its fault, and the next one after that.
fn writes_on<S: Sink>(sink: &mut S) -> bool {
    write_all(sink, b"abcd") == Err(WireError::WriteFault) && write_all(sink, b"ef") == Ok(())
}

#[test]
fn writes_no_piece_on_past_a_fault(rt: HostRuntime) -> Result<(), Fail> {
    let mut writer = ManuallyDrop::new(writer_of(rt.alloc(), &FAULT));
    assert!(rt; writes_on(&mut StdSink::new(&mut *writer)));
    assert!(rt; has(&writer, &[4, 2, 2], b"abef"));
    Ok(())
}

#[test]
fn reads_a_slice_of_std(rt: HostRuntime) -> Result<(), Fail> {
    let bytes = b"\x05\0\0\0\x06\0\0\0\0\0\0\0\x07\0\0\0\x01a";
    let mut source = StdSource::new(bytes.as_slice());
    assert!(rt; source.known_left() == None);
    assert!(rt; read_byte(&mut source)? == 5);
    assert!(rt; read_uint32(&mut source)? == 6);
    assert!(rt; read_uint64(&mut source)? == 7);
    assert!(rt; source.read_ssh_string(rt.alloc())?.as_str() == "a");
    assert!(rt; read_byte(&mut source) == Err(WireError::UnexpectedEnd));
    Ok(())
}

/// The first bytes are written. A slice of std takes nothing where it has no room.
fn fills<S: Sink>(sink: &mut S) -> bool {
    write_all(sink, b"ab") == Ok(()) && write_all(sink, b"cde") == Err(WireError::WriteFault)
}

#[test]
fn writes_a_slice_of_std(rt: HostRuntime) -> Result<(), Fail> {
    let mut room = [0u8; 4];
    assert!(rt; fills(&mut StdSink::new(room.as_mut_slice())));
    assert!(rt; room.as_slice() == b"abcd".as_slice());
    Ok(())
}
