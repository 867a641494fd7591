//! The words of a key line, PuTTY's quoting, and lines.

use picky_text::{LineReader, push_quoted, rest_of_line, rest_of_text, split_word, unquoted};
use std::test::Fail;

// 'ssh-ed25519 AAAAC3Nz my key \t\r\n'.split(' ', 2) of Python, the last part by its rstrip
#[test]
fn reads_the_words_of_a_line(rt: HostRuntime) {
    let text = "ssh-ed25519 AAAAC3Nz my key \t\r\nssh-rsa";
    let (name, after_name) = split_word(text.as_bytes());
    assert!(rt; name == b"ssh-ed25519".as_slice());
    let (body, after_body) = split_word(after_name);
    assert!(rt; body == b"AAAAC3Nz".as_slice());
    assert!(rt; rest_of_line(after_body) == Some("my key"));
    assert!(rt; rest_of_text(text, 21) == "my key");
}

// ssh-keygen -t ed25519 -C 'a "b" c:\d', then the comment that puttygen -p shows of the key
#[test]
fn quotes_as_puttygen_does(rt: HostRuntime) -> Result<(), Fail> {
    let mut out = String::new(rt.alloc());
    push_quoted(&mut out, "a \"b\" c:\\d")?;
    assert!(rt; out.as_str() == "a \\\"b\\\" c:\\\\d");
    let back = unquoted(rt.alloc(), out.as_str())?;
    assert!(rt; back.as_str() == "a \"b\" c:\\d");
    Ok(())
}

// the example of Rust's documentation of str::lines
#[test]
fn splits_lines_as_rust_does(rt: HostRuntime) {
    let mut reader = LineReader::new("foo\r\nbar\n\nbaz\r");
    for line in ["foo", "bar", "", "baz\r"] {
        assert!(rt; reader.next_line() == Some(line));
    }
    assert!(rt; reader.next_line() == None);
}
