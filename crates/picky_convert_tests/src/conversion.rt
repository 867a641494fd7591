//! Lines converted: what puttygen and ssh-keygen write for the same key.

use crate::runs::{answer_for, converts, refuses, writes};
use picky_convert::{ConvertError, Target};
use picky_key_rows::{KEY_ROWS, KeyRow};
use picky_ppk::PuttyError;
use picky_wire::Text;
use std::alloc::Global;
use std::mem::ManuallyDrop;
use std::test::Fail;

const KEY_WORD: &str = "AAAAC3NzaC1lZDI1NTE5AAAAIPaSiDKIdwa2ceSmAajZPTAKx5U9jncB9LlE67abXQ2F";

// The name, what follows the key in the line, and the comment in PuTTY's text.
//
// Up to "white space alone*" `ssh-keygen -q -c -C COMMENT -P '' -f KEY` made the lines, and the
// others were edited by hand. What is wanted is `puttygen -p KEY.pub` with CRLF for LF, but for the
// rows with a star: there PuTTYgen keeps the white space or the CR, or writes no comment line.
static COMMENTS: [(&str, &str, &str); 18] = [
    ("a word", " me@example.org\n", "me@example.org"),
    ("spaces", " two  words\n", "two  words"),
    ("quotes", " a \"quoted\" word\n", "a \\\"quoted\\\" word"),
    ("backslashes", " C:\\keys\\me\n", "C:\\\\keys\\\\me"),
    ("one of each", " a\"b\\c\n", "a\\\"b\\\\c"),
    ("three backslashes", " \\\\\\\n", "\\\\\\\\\\\\"),
    (
        "both at the end",
        " both \\\" at the end\\\n",
        "both \\\\\\\" at the end\\\\",
    ),
    ("not ASCII", " ünïcödé 日本 🔑\n", "ünïcödé 日本 🔑"),
    ("empty", " \n", ""),
    ("white space at the end*", " k  \t\u{a0}\n", "k"),
    ("white space alone*", "  \t\n", ""),
    ("CRLF", " k\r\n", "k"),
    ("no line end", " k", "k"),
    ("a second line", " k\nssh-rsa more\n", "k"),
    ("a space in front", "  k\n", " k"),
    ("none*", "\n", ""),
    ("none and no line end*", "", ""),
    ("a CR inside*", " a\rb\n", "a"),
];

// The name, a line whose key is 32 zero bytes, and the comment in PuTTY's text. PuTTYgen writes no
// comment line for the first two and AAAAAA== for the third, the byte after the key in it, and it
// refuses the fourth.
static ZERO_KEYS: [(&str, &str, &str); 4] = [
    (
        "no comment",
        "ssh-ed25519 AAAAC3NzaC1lZDI1NTE5AAAAIAAAAAAAAAAAAAAAAAAAAAAAAAAAAAAAAAAAAAAAAAAA",
        "",
    ),
    (
        "no comment and LF",
        "ssh-ed25519 AAAAC3NzaC1lZDI1NTE5AAAAIAAAAAAAAAAAAAAAAAAAAAAAAAAAAAAAAAAAAAAAAAAA\n",
        "",
    ),
    (
        "a byte after the key",
        "ssh-ed25519 AAAAC3NzaC1lZDI1NTE5AAAAIAAAAAAAAAAAAAAAAAAAAAAAAAAAAAAAAAAAAAAAAAAAAA== k",
        "k",
    ),
    (
        "another first word",
        "ssh-rsa AAAAC3NzaC1lZDI1NTE5AAAAIAAAAAAAAAAAAAAAAAAAAAAAAAAAAAAAAAAAAAAAAAAA k\n",
        "k",
    ),
];

/// For the line PuTTY's text with this quoted comment and these rows is written.
fn converts_to_putty(alloc: Global, line: &str, quoted: &str, rows: &str) -> Result<bool, Fail> {
    let text = ManuallyDrop::new(format!(in alloc;
        "---- BEGIN SSH2 PUBLIC KEY ----\r\nComment: \"{quoted}\"\r\n{rows}\r\n\
         ---- END SSH2 PUBLIC KEY ----\r\n"
    )?);
    converts(alloc, line, Target::PuttyPublic, "putty-pub", text.as_str())
}

/// So it is for the key and what follows it in the line.
fn quotes(alloc: Global, comment: &str, quoted: &str) -> Result<bool, Fail> {
    let line = ManuallyDrop::new(format!(in alloc; "ssh-ed25519 {KEY_WORD}{comment}")?);
    let rows = "AAAAC3NzaC1lZDI1NTE5AAAAIPaSiDKIdwa2ceSmAajZPTAKx5U9jncB9LlE67ab\r\nXQ2F";
    converts_to_putty(alloc, line.as_str(), quoted, rows)
}

#[test]
fn quotes_a_comment_as_puttygen_does(rt: HostRuntime) -> Result<(), Fail> {
    for (name, comment, quoted) in &COMMENTS {
        assert!(rt; quotes(rt.alloc(), comment, quoted)?, "{name}");
    }
    let rows = "AAAAC3NzaC1lZDI1NTE5AAAAIAAAAAAAAAAAAAAAAAAAAAAAAAAAAAAAAAAAAAAA\r\nAAAA";
    for (name, line, quoted) in &ZERO_KEYS {
        assert!(rt;
            converts_to_putty(rt.alloc(), line, quoted, rows)?,
            "{name}"
        );
    }
    Ok(())
}

/// The command `ssh-pub` writes the row's line, with CR LF.
fn keeps_line(alloc: Global, row: &KeyRow) -> Result<bool, Fail> {
    let line = ManuallyDrop::new(format!(in alloc; "{}\n", row.line)?);
    let text = ManuallyDrop::new(format!(in alloc; "{}\r\n", row.line)?);
    writes(alloc, "ssh-pub", line.as_str(), text.as_str())
}

#[test]
fn keeps_the_line_of_ssh_keygen(rt: HostRuntime) -> Result<(), Fail> {
    for row in &KEY_ROWS {
        assert!(rt; keeps_line(rt.alloc(), row)?, "{}", row.name);
    }
    Ok(())
}

/// The command `putty-pub` writes PuTTYgen's text, or says that PuTTY has none.
fn writes_putty(alloc: Global, row: &KeyRow) -> Result<bool, Fail> {
    let line = ManuallyDrop::new(format!(in alloc; "{}\n", row.line)?);
    let refusal = (1, "keyconv: refused: output.putty.NotSupported\n");
    match row.putty {
        Some(text) => writes(alloc, "putty-pub", line.as_str(), text),
        None => refuses(alloc, "putty-pub", line.as_bytes(), refusal),
    }
}

#[test]
fn writes_the_text_of_puttygen(rt: HostRuntime) -> Result<(), Fail> {
    for row in &KEY_ROWS {
        assert!(rt; writes_putty(rt.alloc(), row)?, "{}", row.name);
    }
    Ok(())
}

/// The call refuses PuTTY's text for the line as that of a key of a device.
fn is_lacked(alloc: Global, line: &str) -> Result<bool, Fail> {
    let wanted = ManuallyDrop::new(ConvertError::Putty(PuttyError::NotSupported {
        feature: Text::new(alloc, "SK keys")?,
    }));
    match &*answer_for(alloc, line, Target::PuttyPublic) {
        Ok(_) => Ok(false),
        Err(why) => Ok(*why == *wanted),
    }
}

#[test]
fn has_no_putty_text_for_a_device(rt: HostRuntime) -> Result<(), Fail> {
    for row in &KEY_ROWS {
        assert!(rt;
            is_lacked(rt.alloc(), row.line)? == row.putty.is_none(),
            "{}",
            row.name
        );
    }
    Ok(())
}
