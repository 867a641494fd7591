//! The blobs of private keys, seen in a buffer: their parts at their places, and the field at which one is stuck.

use picky_sshkey::{PrivateView, SshBasePrivateKey};
use picky_wire::{Bytes, Part, SliceSource, SshComplexTypeDecode, Stuck};
use std::alloc::Global;
use std::mem::ManuallyDrop;
use std::test::Fail;

/// A blob with a word behind it, what is seen of it, and how many bytes it takes.
struct SeenRow {
    name: &'static str,
    blob: &'static [u8],
    view: PrivateView<'static>,
    len: usize,
}

// OpenSSH's PROTOCOL.key and PROTOCOL.u2f, by hand. The places are counted by hand.
static SEEN_ROWS: [SeenRow; 2] = [
    SeenRow {
        name: "an ECDSA key of a device",
        blob: DEVICE_BLOB,
        view: PrivateView::SkEcdsaSha2NistP256 {
            point: Part {
                at: 54,
                bytes: b"\x04\x05",
            },
            application: Part {
                at: 60,
                bytes: b"ssh:",
            },
            flags: 1,
            handle: Part {
                at: 69,
                bytes: b"hh",
            },
        },
        len: 75,
    },
    SeenRow {
        name: "an Ed25519 key",
        blob: b"\0\0\0\x0bssh-ed25519\0\0\0 kkkkkkkkkkkkkkkkkkkkkkkkkkkkkkkk\0\0\0@sssssssssssssssssssssssssssssssskkkkkkkkkkkkkkkkkkkkkkkkkkkkkkkkmore",
        view: PrivateView::Ed {
            secret: Part {
                at: 55,
                bytes: &[b's'; 32],
            },
            public: Part {
                at: 19,
                bytes: &[b'k'; 32],
            },
        },
        len: 119,
    },
];

const DEVICE_BLOB: &[u8] =
    b"\0\0\0\x22sk-ecdsa-sha2-nistp256@openssh.com\0\0\0\x08nistp256\0\0\0\x02\x04\x05\0\0\0\x04ssh:\x01\0\0\0\x02hh\0\0\0\0more";

/// The row's blob is seen so, and is stuck nowhere.
fn is_seen(alloc: Global, row: &SeenRow) -> Result<bool, Fail> {
    let blob = ManuallyDrop::new(Bytes::new(alloc, row.blob)?);
    let (view, len) = PrivateView::read(blob.as_slice())?;
    let is_whole = len == row.len && PrivateView::stuck_at(blob.as_slice()).is_none();
    Ok(is_whole && view == row.view)
}

/// A copy of the key that the bytes begin with is what the owned reader reads.
fn is_copied(alloc: Global, bytes: &[u8]) -> Result<bool, Fail> {
    let blob = ManuallyDrop::new(Bytes::new(alloc, bytes)?);
    let (view, _) = PrivateView::read(blob.as_slice())?;
    let mut source = SliceSource::new(bytes);
    let copy = ManuallyDrop::new(view.to_key(alloc)?);
    let read = ManuallyDrop::new(SshBasePrivateKey::decode(alloc, &mut source)?);
    Ok(*copy == *read)
}

#[test]
fn sees_the_parts_of_a_private_blob_at_their_places(rt: HostRuntime) -> Result<(), Fail> {
    for row in &SEEN_ROWS {
        assert!(rt; is_seen(rt.alloc(), row)?, "{}", row.name);
        assert!(rt; is_copied(rt.alloc(), row.blob)?, "{}", row.name);
    }
    Ok(())
}

/// A blob, the number of the field at which it is stuck, and why.
struct StuckRow {
    name: &'static str,
    blob: &'static [u8],
    field: usize,
    why: Stuck<'static>,
}

static STUCK_ROWS: [StuckRow; 4] = [
    StuckRow {
        name: "a name outside the table",
        blob: b"\0\0\0\x07ssh-dss",
        field: 0,
        why: Stuck::Name(Part {
            at: 4,
            bytes: b"ssh-dss",
        }),
    },
    StuckRow {
        name: "an identifier that isn't UTF-8",
        blob: b"\0\0\0\x13ecdsa-sha2-nistp256\0\0\0\x02\xc3(",
        field: 1,
        why: Stuck::NotUtf8,
    },
    StuckRow {
        name: "a public key of three bytes",
        blob: b"\0\0\0\x0bssh-ed25519\0\0\0\x03kkk",
        field: 1,
        why: Stuck::Length,
    },
    StuckRow {
        name: "a secret without a copy",
        blob: b"\0\0\0\x0bssh-ed25519\0\0\0 kkkkkkkkkkkkkkkkkkkkkkkkkkkkkkkk\0\0\0 ssssssssssssssssssssssssssssssss",
        field: 2,
        why: Stuck::Length,
    },
];

/// The bytes are stuck there, for this reason.
fn is_stuck(alloc: Global, bytes: &[u8], field: usize, why: Stuck<'_>) -> Result<bool, Fail> {
    let blob = ManuallyDrop::new(Bytes::new(alloc, bytes)?);
    let is_so = PrivateView::stuck_at(blob.as_slice()) == Some(field);
    Ok(is_so && PrivateView::read(blob.as_slice()) == Err(why))
}

/// The first bytes of the device's blob are stuck there.
fn is_cut(alloc: Global, len: usize, field: usize) -> Result<bool, Fail> {
    match DEVICE_BLOB.get(..len) {
        Some(cut) => is_stuck(alloc, cut, field, Stuck::Short),
        None => Ok(false),
    }
}

#[test]
fn sees_the_field_that_a_private_blob_is_stuck_at(rt: HostRuntime) -> Result<(), Fail> {
    for (field, len) in [
        (0, 37),
        (1, 49),
        (2, 55),
        (3, 63),
        (4, 64),
        (5, 70),
        (6, 74),
    ] {
        assert!(rt; is_cut(rt.alloc(), len, field)?, "field {field}");
    }
    for row in &STUCK_ROWS {
        let is_so = is_stuck(rt.alloc(), row.blob, row.field, row.why)?;
        assert!(rt; is_so, "{}", row.name);
    }
    Ok(())
}
