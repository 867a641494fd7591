//! Sources that are read to their end.

use picky_input::{InputError, SourceError, as_text, read_input, take_text};
use picky_wire::{MemorySource, NoMemory, SliceSource, Text};
use std::alloc::Global;
use std::mem::ManuallyDrop;
use std::test::Fail;

/// How many bytes a source may have.
const LIMIT: usize = 16_777_216;

/// What is taken of these bytes, where each call gives one and one call fails.
fn taken(alloc: Global, bytes: &[u8], failing: u64) -> Result<Result<Text, SourceError>, NoMemory> {
    let mut source = ManuallyDrop::new(MemorySource::new(alloc, bytes, 1, &[failing])?);
    Ok(take_text(alloc, &mut *source))
}

fn gives(taken: Result<Text, SourceError>, wanted: &str) -> bool {
    match taken {
        Ok(text) => text.as_str() == wanted,
        Err(_) => false,
    }
}

fn refuses(taken: Result<Text, SourceError>, wanted: SourceError) -> bool {
    match taken {
        Ok(_) => false,
        Err(e) => e == wanted,
    }
}

#[test]
fn takes_a_source_as_a_text(rt: HostRuntime) -> Result<(), Fail> {
    for text in ["", "key", "ké\r\n"] {
        assert!(rt;
            gives(taken(rt.alloc(), text.as_bytes(), 99)?, text),
            "{text}"
        );
        assert!(rt; as_text(text.as_bytes()) == Some(text), "{text}");
    }
    Ok(())
}

#[test]
fn refuses_bytes_that_are_no_text(rt: HostRuntime) -> Result<(), Fail> {
    // RFC 3629, section 3: a sequence that is cut off, one that is longer than needed, half a pair of UTF-16.
    for bytes in [&b"k\xc3"[..], b"\xc0\x80", b"\xed\xa0\x80"] {
        let taken = taken(rt.alloc(), bytes, 99)?;
        assert!(rt; refuses(taken, SourceError::InputNotUtf8), "{bytes:?}");
        assert!(rt; as_text(bytes) == None, "{bytes:?}");
    }
    Ok(())
}

#[test]
fn fails_where_a_call_fails(rt: HostRuntime) -> Result<(), Fail> {
    for call in 0u64..4 {
        assert!(rt;
            refuses(taken(rt.alloc(), b"key", call)?, SourceError::ReadFault),
            "call {call}"
        );
    }
    assert!(rt; gives(taken(rt.alloc(), b"key", 4)?, "key"));
    Ok(())
}

/// How many bytes are read of so many.
fn read(alloc: Global, count: usize) -> Result<Option<usize>, Fail> {
    let bytes = vec![in alloc; 0u8; count]?;
    match read_input(alloc, &mut SliceSource::new(bytes.as_slice())) {
        Ok(input) => Ok(Some(input.len())),
        Err(InputError::TooLong) => Ok(None),
        Err(InputError::ReadFault) | Err(InputError::NoMemory) => Err(Fail::from(NoMemory)),
    }
}

#[test]
fn reads_up_to_the_limit(rt: HostRuntime) -> Result<(), Fail> {
    assert!(rt; read(rt.alloc(), LIMIT)? == Some(LIMIT));
    assert!(rt; read(rt.alloc(), LIMIT + 1)? == None);
    let bytes = vec![in rt.alloc(); 0u8; LIMIT + 1]?;
    let taken = take_text(rt.alloc(), &mut SliceSource::new(bytes.as_slice()));
    assert!(rt; refuses(taken, SourceError::InputTooLong));
    Ok(())
}
