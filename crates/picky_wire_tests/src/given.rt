//! What a program is given, as it is taken.

use picky_main::{GivenError, bytes_given, bytes_of_hex, text_given};
use picky_wire::{Bytes, Text};
use std::test::Fail;

fn is_wanted(read: Result<Bytes, GivenError>, wanted: Option<&[u8]>) -> bool {
    match read {
        Ok(bytes) => wanted == Some(bytes.as_slice()),
        Err(e) => e == GivenError::Unfit && wanted.is_none(),
    }
}

#[test]
fn reads_hex_of_either_case(rt: HostRuntime) {
    for (digits, wanted) in [
        // RFC 4648, section 10
        ("", Some(&b""[..])),
        ("66", Some(b"f")),
        ("666F6F626172", Some(b"foobar")),
        ("666f6F626172", Some(b"foobar")),
        ("6", None),
        ("6g", None),
        (" 66", None),
    ] {
        assert!(rt;
            is_wanted(bytes_of_hex(rt.alloc(), digits), wanted),
            "{digits}"
        );
    }
}

#[test]
fn lends_what_is_given(rt: HostRuntime) -> Result<(), Fail> {
    assert!(rt; text_given(&Some(Text::new(rt.alloc(), "pass")?)) == Some("pass"));
    assert!(rt; text_given(&None) == None);
    assert!(rt; bytes_given(&Some(Bytes::new(rt.alloc(), b"\x00\xff")?)) == b"\x00\xff".as_slice());
    assert!(rt; bytes_given(&None).is_empty());
    Ok(())
}
