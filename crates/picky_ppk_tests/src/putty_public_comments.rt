//! The comment lines of PuTTY's public keys.

use crate::answers::{is_text, kept, refuses};
use crate::putty_public::{ED25519, commented, text_with};
use picky_ppk::{PuttyError, PuttyPublicKey};
use std::alloc::Global;
use std::mem::ManuallyDrop;
use std::test::Fail;

// A comment, and its line: echo "ssh-ed25519 BODY COMMENT" >key.pub
// puttygen key.pub -O public | sed -n 2p
static WRITTEN_COMMENTS: [(&str, &str, &str); 7] = [
    ("none", "", r#"Comment: """#),
    ("quote and backslash", r#"a"b\c"#, r#"Comment: "a\"b\\c""#),
    ("three backslashes", r#"a\\\b"#, r#"Comment: "a\\\\\\b""#),
    ("three backslashes alone", r#"\\\"#, r#"Comment: "\\\\\\""#),
    ("a backslash alone", r#"\"#, r#"Comment: "\\""#),
    ("two quotes alone", r#""""#, r#"Comment: "\"\"""#),
    ("another script", "é  鍵", r#"Comment: "é  鍵""#),
];

// puttygen text -O public-openssh | cut -d' ' -f3- for the first three. Of the fourth it takes the whole,
// and in the last it leaves the backslash out; docs/FORMATS.md, "PuTTY public key", says what is read.
static READ_COMMENTS: [(&str, &str, &str); 5] = [
    ("quotes inside", r#"x" y "z"#, r#"Comment: "x" y "z""#),
    ("three backslashes at the end", r#"\\"#, r#"Comment: "\\\""#),
    ("a backslash at the end", r#"\"#, r#"Comment: "\""#),
    ("words around the quotes", "y", r#"Comment: x "y" z"#),
    ("a backslash before a letter", r#"a\b"#, r#"Comment: "a\b""#),
];

/// The row's line says its comment.
fn is_read(alloc: Global, comment: &str, line: &str) -> Result<bool, Fail> {
    let text = kept(text_with(alloc, line, ED25519))?;
    let key = kept(PuttyPublicKey::from_str(alloc, text.as_str()))?;
    let wanted = commented(alloc, ED25519, comment)?;
    Ok(key.comment() == comment && *key == *wanted)
}

/// The row's line is written for its comment.
fn is_quoted(alloc: Global, comment: &str, line: &str) -> Result<bool, Fail> {
    let text = kept(text_with(alloc, line, ED25519))?;
    let key = commented(alloc, ED25519, comment)?;
    is_text(key.to_string(alloc), text.as_str())
}

#[test]
fn quotes_a_comment(rt: HostRuntime) -> Result<(), Fail> {
    for (name, comment, line) in &WRITTEN_COMMENTS {
        assert!(rt; is_quoted(rt.alloc(), *comment, *line)?, "{name}");
        assert!(rt; is_read(rt.alloc(), *comment, *line)?, "{name}");
    }
    Ok(())
}

#[test]
fn reads_what_stands_between_the_first_and_the_last_quote(rt: HostRuntime) -> Result<(), Fail> {
    for (name, comment, line) in &READ_COMMENTS {
        assert!(rt; is_read(rt.alloc(), *comment, *line)?, "{name}");
    }
    Ok(())
}

#[test]
fn does_not_read_back_a_comment_with_lf(rt: HostRuntime) -> Result<(), Fail> {
    let line = "Comment: \"two\nlines\"";
    assert!(rt; is_quoted(rt.alloc(), "two\nlines", line)?);
    let text = kept(text_with(rt.alloc(), line, ED25519))?;
    let wanted = ManuallyDrop::new(PuttyError::InvalidPublicKeyComment);
    let read = PuttyPublicKey::from_str(rt.alloc(), text.as_str());
    assert!(rt; refuses(read, &*wanted));
    Ok(())
}
