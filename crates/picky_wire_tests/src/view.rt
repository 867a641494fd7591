//! Fields and keys, seen in a buffer at their places.

use crate::fields_and_pieces::FIELDS;
use crate::keys::{KEY_ROWS, key_of};
use picky_keys::{PublicView, SshBasePublicKey};
use picky_wire::{Part, Stuck, mpint_at, sized_at, string_at, text_at, uint32_at, word_at};
use std::alloc::Global;
use std::mem::ManuallyDrop;
use std::test::Fail;

/// A call that sees a part of a buffer.
#[derive(Clone, Copy)]
enum Call {
    String,
    Text,
    Sized(usize),
    Mpint,
}

/// What the call sees in `FIELDS` from this place on: a part and the next place, or why none.
struct PartRow {
    name: &'static str,
    call: Call,
    from: usize,
    wanted: Result<(Part<'static>, usize), Stuck<'static>>,
}

// The places are counted by hand.
static PART_ROWS: [PartRow; 9] = [
    PartRow {
        name: "a string",
        call: Call::String,
        from: 44,
        wanted: Ok((
            Part {
                at: 48,
                bytes: b"\0\x80",
            },
            50,
        )),
    },
    PartRow {
        name: "a string whose length is a number's bytes",
        call: Call::String,
        from: 0,
        wanted: Err(Stuck::Short),
    },
    PartRow {
        name: "a text",
        call: Call::Text,
        from: 15,
        wanted: Ok((
            Part {
                at: 19,
                bytes: b"zlib,none",
            },
            28,
        )),
    },
    PartRow {
        name: "a text that is no UTF-8",
        call: Call::Text,
        from: 32,
        wanted: Err(Stuck::NotUtf8),
    },
    PartRow {
        name: "a string of nine bytes",
        call: Call::Sized(9),
        from: 15,
        wanted: Ok((
            Part {
                at: 19,
                bytes: b"zlib,none",
            },
            28,
        )),
    },
    PartRow {
        name: "no string of eight bytes",
        call: Call::Sized(8),
        from: 15,
        wanted: Err(Stuck::Length),
    },
    PartRow {
        name: "zero",
        call: Call::Mpint,
        from: 28,
        wanted: Ok((Part { at: 32, bytes: b"" }, 32)),
    },
    PartRow {
        name: "a number",
        call: Call::Mpint,
        from: 32,
        wanted: Ok((
            Part {
                at: 36,
                bytes: b"\x09\xa3\x78\xf9\xb2\xe3\x32\xa7",
            },
            44,
        )),
    },
    PartRow {
        name: "a number without its sign",
        call: Call::Mpint,
        from: 44,
        wanted: Ok((
            Part {
                at: 49,
                bytes: b"\x80",
            },
            50,
        )),
    },
];

fn part_of(row: &PartRow) -> Result<(Part<'static>, usize), Stuck<'static>> {
    let blob = FIELDS.as_slice();
    match row.call {
        Call::String => string_at(blob, row.from),
        Call::Text => text_at(blob, row.from),
        Call::Sized(len) => sized_at(blob, row.from, len),
        Call::Mpint => mpint_at(blob, row.from),
    }
}

#[test]
fn sees_parts_at_their_places(rt: HostRuntime) {
    for row in &PART_ROWS {
        assert!(rt; part_of(row) == row.wanted, "{}", row.name);
    }
}

#[test]
fn sees_numbers(rt: HostRuntime) {
    let blob = FIELDS.as_slice();
    for (from, wanted) in [
        (0, Ok((699921578, 4))),
        (47, Err(Stuck::Short)),
        (51, Err(Stuck::Short)),
    ] {
        assert!(rt; uint32_at(blob, from) == wanted, "from {from}");
    }
}

#[test]
fn sees_the_text_of_a_word(rt: HostRuntime) -> Result<(), Fail> {
    let (word, next) = word_at(FIELDS.as_slice(), 4)?;
    assert!(rt; word.text == "testing");
    let part = Part {
        at: 8,
        bytes: b"testing",
    };
    assert!(rt; word.part == part);
    assert!(rt; part.as_str() == Some("testing"));
    assert!(rt; next == 15);
    Ok(())
}

#[test]
fn sees_no_text_where_there_is_no_utf_8(rt: HostRuntime) {
    let part = Part {
        at: 36,
        bytes: b"\x09\xa3",
    };
    assert!(rt; part.as_str() == None);
}

/// The whole blob of the line's key is seen, and its copy is the key.
fn is_seen(alloc: Global, line: &str) -> Result<bool, Fail> {
    let key = ManuallyDrop::new(key_of(alloc, line)?);
    let blob = ManuallyDrop::new(key.to_blob(alloc)?);
    let (view, len) = PublicView::read(blob.as_slice())?;
    Ok(len == blob.as_slice().len() && view.to_key(alloc)? == *key)
}

#[test]
fn sees_the_keys_of_ssh_keygen(rt: HostRuntime) -> Result<(), Fail> {
    for row in &KEY_ROWS {
        assert!(rt; is_seen(rt.alloc(), row.line)?, "{}", row.name);
    }
    Ok(())
}

// printf 'AAAAC3NzaC1lZDI1NTE5AAAAI%043d' 0 | tr 0 A | base64 -d, and one byte more.
const ZEROS: &[u8; 52] =
    b"\0\0\0\x0bssh-ed25519\0\0\0 \0\0\0\0\0\0\0\0\0\0\0\0\0\0\0\0\0\0\0\0\0\0\0\0\0\0\0\0\0\0\0\0\x07";

/// A copy of the key that the bytes begin with.
fn copied(alloc: Global, blob: &[u8; 52]) -> Option<SshBasePublicKey> {
    match PublicView::read(blob) {
        Ok((view, _)) => view.to_key(alloc).ok(),
        Err(_) => None,
    }
}

#[test]
fn sees_the_parts_of_a_blob_at_their_places(rt: HostRuntime) -> Result<(), Fail> {
    let key = Part {
        at: 19,
        bytes: &[0; 32],
    };
    assert!(rt; PublicView::read(ZEROS) == Ok((PublicView::Ed { key }, 51)));
    assert!(rt; PublicView::read(&ZEROS[..50]) == Err(Stuck::Short));
    let copy = copied(rt.alloc(), ZEROS);
    assert!(rt; copy == Some(SshBasePublicKey::Ed { key: [0; 32] }));
    Ok(())
}
