//! Authorized keys taken apart by numbers: each field, and each refusal.

use picky_authorized_field::{AuthFieldError, authorized_field, field_by_number};
use std::alloc::Global;
use std::mem::ManuallyDrop;
use std::test::Fail;

// base64.b64encode(s(b"ssh-ed25519") + s(bytes(32))), with s = lambda b: len(b).to_bytes(4, "big") + b of python3.
const B0: &str = "AAAAC3NzaC1lZDI1NTE5AAAAIAAAAAAAAAAAAAAAAAAAAAAAAAAAAAAAAAAAAAAAAAAA";

/// The bytes of a field of the row's text, in which `B0` stands for that blob.
fn field_of(
    alloc: Global,
    row: &str,
    number: u32,
    place: usize,
    item: usize,
) -> Result<Result<Vec<u8>, AuthFieldError>, Fail> {
    let text = ManuallyDrop::new(row.replace(alloc, "B0", B0)?);
    let field = field_by_number(number).ok_or("no such number")?;
    Ok(authorized_field(alloc, text.as_bytes(), field, place, item))
}

/// The field is this text, or the refusal's name.
fn is_field(alloc: Global, row: &Row) -> Result<bool, Fail> {
    let (text, number, place, item, wanted) = row;
    let wanted = ManuallyDrop::new(wanted.replace(alloc, "B0", B0)?);
    match field_of(alloc, text, *number, *place, *item)? {
        Ok(bytes) => Ok(bytes.as_slice() == wanted.as_bytes()),
        Err(e) => {
            let name = ManuallyDrop::new(format!(in alloc; "{e}")?);
            Ok(name.as_str() == wanted.as_str())
        }
    }
}

/// A text, the number of a field, a place and an item, and the field or the refusal's name.
type Row = (&'static str, u32, usize, usize, &'static str);

// An entry of each state: its line stands second, fourth, fifth and sixth.
const KEYS: &str =
    "# c\nssh-ed25519 B0 k\n\nno-pty,Command=\"ls\",x=\"\" ssh-ed25519 B0 two words \nno-pty=x ssh-ed25519 B0\nssh-ed25519 !\n";

// docs/FORMATS.md, "Authorized keys", has the rules.
static FIELDS: [Row; 35] = [
    ("", 1, 0, 0, "0"),
    (KEYS, 1, 9, 9, "4"),
    (KEYS, 2, 0, 9, "2"),
    (KEYS, 2, 3, 9, "6"),
    (KEYS, 2, 4, 0, "NoSuchPlace"),
    (KEYS, 3, 0, 0, "key"),
    (KEYS, 3, 1, 0, "key"),
    (KEYS, 3, 2, 0, "bad-options"),
    (KEYS, 3, 3, 0, "Base64DecodeError"),
    ("ssh-dss B0", 3, 0, 0, "UnknownKeyType"),
    ("ssh-ed25519", 3, 0, 0, "IoError"),
    (KEYS, 4, 0, 0, "ssh-ed25519 B0 k"),
    (KEYS, 4, 1, 0, "ssh-ed25519 B0 two words"),
    (KEYS, 4, 2, 0, "NoKey"),
    (KEYS, 4, 4, 0, "NoSuchPlace"),
    ("ssh-ed25519 B0", 4, 0, 0, "ssh-ed25519 B0"),
    ("ssh-ed25519 B0 ", 4, 0, 0, "ssh-ed25519 B0"),
    ("ssh-rsa B0 k", 4, 0, 0, "ssh-ed25519 B0 k"),
    (KEYS, 5, 1, 0, "ssh-ed25519"),
    (KEYS, 5, 3, 0, "NoKey"),
    (KEYS, 7, 1, 0, "two words"),
    ("ssh-ed25519 B0", 7, 0, 0, ""),
    (KEYS, 8, 0, 0, "0"),
    (KEYS, 8, 1, 0, "3"),
    (KEYS, 8, 2, 0, "NoKey"),
    (KEYS, 9, 1, 1, "command"),
    (KEYS, 9, 1, 3, "NoSuchItem"),
    (KEYS, 9, 0, 0, "NoSuchItem"),
    (KEYS, 9, 3, 3, "NoKey"),
    (KEYS, 10, 1, 0, ""),
    (KEYS, 10, 1, 1, "ls"),
    (KEYS, 11, 1, 0, "0"),
    (KEYS, 11, 1, 1, "1"),
    (KEYS, 11, 1, 2, "1"),
    (KEYS, 12, 0, 0, ""),
];

#[test]
fn takes_authorized_keys_apart(rt: HostRuntime) -> Result<(), Fail> {
    for row in &FIELDS {
        assert!(rt; is_field(rt.alloc(), row)?, "{} of {}", row.1, row.2);
    }
    Ok(())
}

// By python3, with s as above; of the blob s(b"ssh-ed25519") + s(bytes(32)).
const BLOB: &[u8] =
    b"\0\0\0\x0bssh-ed25519\0\0\0\x20\0\0\0\0\0\0\0\0\0\0\0\0\0\0\0\0\0\0\0\0\0\0\0\0\0\0\0\0\0\0\0\0";

// s(b"no-pty") + b"\0" + s(b"") + s(b"command") + b"\1" + s(b"ls") + s(b"x") + b"\1" + s(b"")
const OPTIONS: &[u8] =
    b"\0\0\0\x06no-pty\0\0\0\0\0\0\0\0\x07command\x01\0\0\0\x02ls\0\0\0\x01x\x01\0\0\0\0";

// b"\0\0\0\2" + s(b"key") + s(BLOB) + s(b"k") + b"\0\0\0\4" + s(b"key") + s(BLOB) + s(b"two words")
// + b"\0\0\0\5" + s(b"bad-options") + s(b"") + s(b"") + b"\0\0\0\6" + s(b"Base64DecodeError") + s(b"") + s(b"")
const ENTRIES: &[u8] =
    b"\0\0\0\x02\0\0\0\x03key\0\0\0\x33\0\0\0\x0bssh-ed25519\0\0\0 \0\0\0\0\0\0\0\0\0\0\0\0\0\0\0\0\0\0\0\0\0\0\0\0\0\0\0\0\0\0\0\0\0\0\0\x01k\0\0\0\x04\0\0\0\x03key\0\0\0\x33\0\0\0\x0bssh-ed25519\0\0\0 \0\0\0\0\0\0\0\0\0\0\0\0\0\0\0\0\0\0\0\0\0\0\0\0\0\0\0\0\0\0\0\0\0\0\0\x09two words\0\0\0\x05\0\0\0\x0bbad-options\0\0\0\0\0\0\0\0\0\0\0\x06\0\0\0\x11Base64DecodeError\0\0\0\0\0\0\0\0";

// A number, a place, and the bytes.
static BYTES: [(u32, usize, &[u8]); 3] = [(6, 1, BLOB), (12, 1, OPTIONS), (13, 9, ENTRIES)];

fn is_bytes(alloc: Global, number: u32, place: usize, wanted: &[u8]) -> Result<bool, Fail> {
    match field_of(alloc, KEYS, number, place, 0)? {
        Ok(bytes) => Ok(bytes.as_slice() == wanted),
        Err(e) => {
            drop(e);
            Ok(false)
        }
    }
}

#[test]
fn lays_out_several_things_at_once(rt: HostRuntime) -> Result<(), Fail> {
    for (number, place, wanted) in &BYTES {
        assert!(rt; is_bytes(rt.alloc(), *number, *place, wanted)?, "{number}");
    }
    Ok(())
}

#[test]
fn refuses_bytes_that_are_no_text(rt: HostRuntime) -> Result<(), Fail> {
    let field = field_by_number(1).ok_or("no such number")?;
    let refused = ManuallyDrop::new(authorized_field(rt.alloc(), b"\xff", field, 0, 0));
    assert!(rt; matches!(&*refused, Err(AuthFieldError::NotUtf8)));
    assert!(rt; field_by_number(0).is_none() && field_by_number(14).is_none());
    Ok(())
}
