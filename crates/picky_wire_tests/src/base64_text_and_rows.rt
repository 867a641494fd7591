//! Base64, and the rows that PuTTY breaks it into.

use picky_text::{Base64Error, LineEnd, decode, encode, push_rows};
use std::alloc::Global;
use std::mem::ManuallyDrop;
use std::test::Fail;

/// The text is the base64 of the plain one, and is read as it.
fn agrees(alloc: Global, plain: &str, body: &str) -> Result<bool, Fail> {
    let text = ManuallyDrop::new(encode(alloc, plain.as_bytes())?);
    let bytes = ManuallyDrop::new(decode(alloc, body.as_bytes())?);
    Ok(text.as_str() == body && bytes.as_slice() == plain.as_bytes())
}

// RFC 4648, section 10.
#[test]
fn agrees_with_the_vectors_of_rfc_4648(rt: HostRuntime) -> Result<(), Fail> {
    let vectors = [
        ("", ""),
        ("f", "Zg=="),
        ("fo", "Zm8="),
        ("foo", "Zm9v"),
        ("foob", "Zm9vYg=="),
        ("fooba", "Zm9vYmE="),
        ("foobar", "Zm9vYmFy"),
    ];
    for (plain, body) in vectors {
        assert!(rt; agrees(rt.alloc(), plain, body)?, "{plain}");
    }
    Ok(())
}

// RFC 4648, sections 3.2, 3.3 and 3.5: no padding, a line end, bits that are not zero.
#[test]
fn refuses_what_is_not_canonical(rt: HostRuntime) {
    for body in ["Zg", "Zg==\n", "Zh=="] {
        match decode(rt.alloc(), body.as_bytes()) {
            Ok(_) => assert!(rt; false, "{body} was read"),
            Err(why) => assert!(rt; why == Base64Error::NotBase64, "{body}"),
        }
    }
}

/// The base64 of the text is ASCII, and broken into these rows.
fn is_broken(alloc: Global, plain: &str, end: LineEnd, wanted: &str) -> Result<bool, Fail> {
    let body = ManuallyDrop::new(encode(alloc, plain.as_bytes())?);
    let mut out = ManuallyDrop::new(String::new(alloc));
    if !body.as_str().is_ascii() {
        return Ok(false);
    }
    push_rows(&mut out, body.as_str(), end)?;
    Ok(out.as_str() == wanted)
}

// printf %s 'The quick brown fox jumps over the lazy dog. 0123456789 abcd' | base64 -w64
// printf %s 'The quick brown fox jumps over the lazy dog. 012' | base64 -w64 | sed 's/$/\r/'
#[test]
fn breaks_base64_as_coreutils_does(rt: HostRuntime) -> Result<(), Fail> {
    let rows = [
        ("", LineEnd::Lf, ""),
        (
            "The quick brown fox jumps over the lazy dog. 0123456789 abcd",
            LineEnd::Lf,
            "VGhlIHF1aWNrIGJyb3duIGZveCBqdW1wcyBvdmVyIHRoZSBsYXp5IGRvZy4gMDEy\nMzQ1Njc4OSBhYmNk\n",
        ),
        (
            "The quick brown fox jumps over the lazy dog. 012",
            LineEnd::CrLf,
            "VGhlIHF1aWNrIGJyb3duIGZveCBqdW1wcyBvdmVyIHRoZSBsYXp5IGRvZy4gMDEy\r\n",
        ),
    ];
    for (plain, end, wanted) in rows {
        assert!(rt; is_broken(rt.alloc(), plain, end, wanted)?, "of {plain}");
    }
    Ok(())
}
