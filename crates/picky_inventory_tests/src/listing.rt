//! What is listed of the parts of a text: each key once for each kind and comment, in the order of bytes.

use crate::row_texts::row_text;
use crate::runs::{LIST, writes};
use picky_cert_rows::ZERO_LINE;
use picky_key_rows::{KEY_ROWS, PPK_ROWS, PRIVATE_ROWS, VERSIONS, ZERO_TEXT, text_of};
use std::alloc::{AllocError, Global};
use std::mem::ManuallyDrop;
use std::test::Fail;

/// A name, a text, and the lines that are listed of it.
type Listing = (&'static str, &'static str, &'static str);

// A comment in base64 is what `printf COMMENT | base64` prints, and lines stand as LC_ALL=C sort has them. White space is what
// has Unicode's property White_Space. What follows the line of a public key is ignored (docs/FORMATS.md, "Public key line").
static LISTINGS: [Listing; 18] = [
    (
        "a private key twice, and a public one",
        "E0%%\nssh-ed25519 B0 k\n%%\nE0",
        "private B0 aGVsbG8=\npublic B0 aw==\n",
    ),
    ("no bytes", "", ""),
    ("marks alone", "%%\n%%\r\n%%", ""),
    (
        "white space between the marks",
        "\n%%\nE0%%\n \t\r\n\u{b}\u{c}\u{85}\u{a0}\u{1680}\u{2028}\u{3000}\n%%\n%%\nssh-ed25519 B0 k\n%%\n  ",
        "private B0 aGVsbG8=\npublic B0 aw==\n",
    ),
    (
        "a mark with CR",
        "E0%%\r\nssh-ed25519 B0 k\r\n",
        "private B0 aGVsbG8=\npublic B0 aw==\n",
    ),
    (
        "a mark as the first and the last line",
        "%%\nssh-ed25519 B0 k\n%%",
        "public B0 aw==\n",
    ),
    (
        "a space behind",
        "ssh-ed25519 B0 k\n%% \nE0",
        "public B0 aw==\n",
    ),
    (
        "a space before",
        "ssh-ed25519 B0 k\n %%\nE0",
        "public B0 aw==\n",
    ),
    (
        "three of them",
        "ssh-ed25519 B0 k\n%%%\nE0",
        "public B0 aw==\n",
    ),
    (
        "two CR behind",
        "ssh-ed25519 B0 k\n%%\r\r\nE0",
        "public B0 aw==\n",
    ),
    (
        "two comments of one key",
        "ssh-ed25519 B0 k\n%%\nssh-ed25519 B0 hello\n%%\nssh-ed25519 B0 k\n",
        "public B0 aGVsbG8=\npublic B0 aw==\n",
    ),
    (
        "both kinds of one key",
        "ssh-ed25519 B0 hello\n%%\nE0",
        "private B0 aGVsbG8=\npublic B0 aGVsbG8=\n",
    ),
    (
        "no comment",
        "ssh-ed25519 B0\n%%\nssh-ed25519 B0 \t\r\n%%\nssh-ed25519 B0",
        "public B0 \n",
    ),
    (
        "white space around the comment of a line, of which the last is none of it",
        "ssh-ed25519 B0  k \t\n",
        "public B0 IGs=\n",
    ),
    (
        "white space around a comment of PuTTY",
        "---- BEGIN SSH2 PUBLIC KEY ----\nComment: \" k \"\nB0\n---- END SSH2 PUBLIC KEY ----\n",
        "public B0 IGsg\n",
    ),
    // s(b"ssh-rsa") + s(b"\0\3") + s(b"\x81"), and s(b"ssh-rsa") + s(b"\3") + s(b"\0\x81"): docs/FORMATS.md, "Fields
    // of the wire", says which mpint is read.
    (
        "two spellings of one key",
        "ssh-rsa AAAAB3NzaC1yc2EAAAACAAMAAAABgQ== k\n%%\nssh-rsa AAAAB3NzaC1yc2EAAAABAwAAAAIAgQ== k\n",
        "public AAAAB3NzaC1yc2EAAAABAwAAAAIAgQ== aw==\n",
    ),
    (
        "the order of lines",
        "ssh-ed25519 B0 k\n%%\nssh-ed25519 B0 a\n%%\nssh-ed25519 B0\n%%\nssh-ed25519 B0 Z\n",
        "public B0 \npublic B0 Wg==\npublic B0 YQ==\npublic B0 aw==\n",
    ),
    (
        "the order of lines, where that of comments is another",
        "ssh-ed25519 B0 k\n%%\nssh-ed25519 B0 \u{414}\n",
        "public B0 0JQ=\npublic B0 aw==\n",
    ),
];

/// The row's lines are listed of the text.
fn lists(alloc: Global, text: &str, row: &str) -> Result<bool, Fail> {
    let lines = ManuallyDrop::new(row_text(alloc, row)?);
    writes(alloc, LIST, text, lines.as_str())
}

fn lists_row(alloc: Global, row: &str, lines: &str) -> Result<bool, Fail> {
    let text = ManuallyDrop::new(row_text(alloc, row)?);
    lists(alloc, text.as_str(), lines)
}

#[test]
fn lists_the_keys_of_the_parts(rt: HostRuntime) -> Result<(), Fail> {
    for (name, row, lines) in &LISTINGS {
        assert!(rt; lists_row(rt.alloc(), row, lines)?, "{name}");
    }
    Ok(())
}

// The certificate's subject has 32 zero bytes too.
#[test]
fn lists_other_texts(rt: HostRuntime) -> Result<(), Fail> {
    assert!(rt; lists(rt.alloc(), ZERO_LINE, "public B0 aG9zdA==\n")?);
    assert!(rt; lists(rt.alloc(), ZERO_TEXT, "private B0 aGVsbG8=\n")?);
    Ok(())
}

/// The place of a key in KEY_ROWS and of another in PRIVATE_ROWS, and their comments in base64.
type Place = (usize, &'static str, &'static str);

// In the order of their lines in LC_ALL=C sort, with the private ones in front.
static ORDER: [Place; 7] = [
    (0, "cnNhLTEwMjRAZXhhbXBsZS5jb20=", "YSBjb21tZW50"),
    (4, "ZWQyNTUxOUBleGFtcGxlLmNvbQ==", ""),
    (3, "ZWNkc2EtNTIxQGV4YW1wbGUuY29t", "YSBjb21tZW50"),
    (1, "ZWNkc2EtMjU2QGV4YW1wbGUuY29t", "YSBjb21tZW50"),
    (2, "ZWNkc2EtMzg0QGV4YW1wbGUuY29t", "YSBjb21tZW50"),
    (6, "dG9rZW4=", "dG9rZW4="),
    (5, "dG9rZW4=", "dG9rZW4="),
];

/// The second word of a line.
fn second_word(line: &str) -> &str {
    match line.split_once(' ') {
        Some((_, rest)) => match rest.split_once(' ') {
            Some((word, _)) => word,
            None => rest,
        },
        None => "",
    }
}

fn public_blob(place: usize) -> &'static str {
    match KEY_ROWS.get(place) {
        Some(row) => second_word(row.line),
        None => "",
    }
}

fn private_blob(place: usize) -> &'static str {
    match PRIVATE_ROWS.get(place) {
        Some(row) => second_word(row.line),
        None => "",
    }
}

fn lines_of_keys(alloc: Global) -> Result<String, AllocError> {
    let mut text = String::new(alloc);
    for (place, _, comment) in &ORDER {
        write!(text, "private {} {comment}\n", private_blob(*place))?;
    }
    for (place, comment, _) in &ORDER {
        write!(text, "public {} {comment}\n", public_blob(*place))?;
    }
    Ok(text)
}

/// Adds a part, and the mark that ends it.
fn add_part(text: &mut String, part: &str) -> Result<(), AllocError> {
    text.push_str(part)?;
    text.push_str("\n%%\n")
}

/// What both programs write of the keys, as parts.
fn texts_of_keys(alloc: Global) -> Result<String, Fail> {
    let mut text = ManuallyDrop::new(String::new(alloc));
    for row in KEY_ROWS.iter().take(7) {
        add_part(&mut text, row.line)?;
        add_part(&mut text, row.putty.unwrap_or(""))?;
    }
    for row in &PRIVATE_ROWS {
        add_part(&mut text, row.text)?;
    }
    for row in &PPK_ROWS {
        for version in VERSIONS {
            let file = ManuallyDrop::new(text_of(alloc, row, version)?);
            add_part(&mut text, file.as_str())?;
        }
    }
    Ok(ManuallyDrop::into_inner(text))
}

fn lists_keys(alloc: Global) -> Result<bool, Fail> {
    let text = ManuallyDrop::new(texts_of_keys(alloc)?);
    let lines = ManuallyDrop::new(lines_of_keys(alloc)?);
    writes(alloc, LIST, text.as_str(), lines.as_str())
}

#[test]
fn lists_keys_of_both_programs_once(rt: HostRuntime) -> Result<(), Fail> {
    assert!(rt; lists_keys(rt.alloc())?);
    Ok(())
}
