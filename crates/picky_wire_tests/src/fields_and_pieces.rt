//! The fields of a layout, taken from a source and written as pieces.

use picky_wire::{
    Bytes, MemorySink, Mpint, Piece, Sink, SliceSource, Stop, Text, WireError, pieces_len,
    take_byte, take_bytes, take_mpint, take_text, take_uint32, take_uint64, write_piece,
    write_pieces,
};
use std::alloc::Global;
use std::mem::ManuallyDrop;
use std::test::Fail;

// RFC 4251, section 5: a uint32, a string, a name-list, and the mpints 0, 9a378f9b2e332a7 and 80.
pub static FIELDS: [u8; 50] =
    *b"\x29\xb7\xf4\xaa\0\0\0\x07testing\0\0\0\x09zlib,none\0\0\0\0\0\0\0\x08\x09\xa3\x78\xf9\xb2\xe3\x32\xa7\0\0\0\x02\0\x80";

static NUMBERS: [&[u8]; 3] = [b"", b"\x09\xa3\x78\xf9\xb2\xe3\x32\xa7", b"\x80"];

/// The source gives these numbers, and then ends.
fn gives_numbers(alloc: Global, source: &mut SliceSource<'_>) -> Result<bool, Stop> {
    for number in NUMBERS {
        if take_mpint(alloc, source)?.bytes() != number {
            return Ok(false);
        }
    }
    Ok(take_byte(source) == Err(Stop::Short))
}

#[test]
fn takes_the_fields_of_a_layout(rt: HostRuntime) -> Result<(), Fail> {
    let alloc = rt.alloc();
    let mut source = SliceSource::new(FIELDS.as_slice());
    assert!(rt; take_uint32(&mut source)? == 699921578);
    assert!(rt; take_text(alloc, &mut source)?.as_str() == "testing");
    assert!(rt; take_bytes(alloc, &mut source)?.as_slice() == b"zlib,none".as_slice());
    assert!(rt; gives_numbers(alloc, &mut source)?);
    Ok(())
}

#[test]
fn takes_a_byte_and_eight(rt: HostRuntime) -> Result<(), Fail> {
    let mut numbers = SliceSource::new(b"\x05\0\0\0\0\0\0\x01\x02");
    assert!(rt; take_byte(&mut numbers)? == 5);
    assert!(rt; take_uint64(&mut numbers)? == 258);
    Ok(())
}

/// The text, the bytes and the numbers are written as `FIELDS`.
fn is_written(
    alloc: Global,
    text: &Text,
    bytes: &Bytes,
    numbers: [&Mpint; 3],
) -> Result<bool, Fail> {
    let [zero, number, high] = numbers;
    let pieces = [
        Piece::uint32(699921578),
        Piece::text(text),
        Piece::bytes(bytes),
        Piece::mpint(zero),
        Piece::mpint(number),
        Piece::mpint(high),
        Piece::none(),
    ];
    are_fields(alloc, pieces.as_slice())
}

fn are_fields(alloc: Global, pieces: &[Piece<'_>]) -> Result<bool, Fail> {
    let mut sink = ManuallyDrop::new(MemorySink::new(alloc, 100, 7, &[])?);
    write_pieces(&mut *sink, pieces)?;
    Ok(sink.written() == FIELDS.as_slice() && pieces_len(pieces) == 50)
}

#[test]
fn joins_pieces(rt: HostRuntime) -> Result<(), Fail> {
    let alloc = rt.alloc();
    let text = ManuallyDrop::new(Text::new(alloc, "testing")?);
    let bytes = ManuallyDrop::new(Bytes::new(alloc, b"zlib,none")?);
    let zero = ManuallyDrop::new(Mpint::from_be(alloc, NUMBERS[0])?);
    let number = ManuallyDrop::new(Mpint::from_be(alloc, NUMBERS[1])?);
    let high = ManuallyDrop::new(Mpint::from_be(alloc, NUMBERS[2])?);
    assert!(rt; is_written(alloc, &text, &bytes, [&zero, &number, &high])?);
    Ok(())
}

fn write_three<S: Sink>(sink: &mut S) -> Result<(), WireError> {
    write_piece(sink, &Piece::byte(5))?;
    write_piece(sink, &Piece::uint64(258))?;
    write_piece(sink, &Piece::string(b"ab"))
}

#[test]
fn writes_a_piece(rt: HostRuntime) -> Result<(), Fail> {
    let mut sink = ManuallyDrop::new(MemorySink::new(rt.alloc(), 100, 7, &[])?);
    write_three(&mut *sink)?;
    assert!(rt; sink.written() == b"\x05\0\0\0\0\0\0\x01\x02\0\0\0\x02ab".as_slice());
    Ok(())
}

#[test]
fn parts_a_string_from_its_length(rt: HostRuntime) {
    let piece = Piece::string(b"ab");
    let (head, body) = piece.parts();
    assert!(rt; head == b"\0\0\0\x02".as_slice());
    assert!(rt; body == b"ab".as_slice());
}
