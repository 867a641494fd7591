//! Which lines of a text have an entry, and their numbers.

use crate::entry_texts::{entries_text, has_entries};
use picky_authorized::read_keys;
use std::alloc::{AllocError, Global};
use std::mem::ManuallyDrop;
use std::test::Fail;

// sshd(8), "AUTHORIZED_KEYS FILE FORMAT": empty lines and those that begin with `#` are ignored. Lines end at LF, and one CR
// before it is no part of them (docs/FORMATS.md, "Authorized keys").
static LINES: [(&str, &str, &str); 24] = [
    ("no text", "", ""),
    ("a key", "ssh-ed25519 B0 k\n", "1 B0 k\n"),
    ("no LF at the end", "ssh-ed25519 B0 k", "1 B0 k\n"),
    ("no comment", "ssh-ed25519 B0\n", "1 B0 \n"),
    (
        "two keys",
        "ssh-ed25519 B0 k\nssh-ed25519 B0 l\n",
        "1 B0 k\n2 B0 l\n",
    ),
    (
        "CR LF",
        "no-pty ssh-ed25519 B0 k\r\n\r\nssh-ed25519 B0 l\r\n",
        "1 [no-pty] B0 k\n3 B0 l\n",
    ),
    ("CR at the end", "ssh-ed25519 B0 k\r", "1 B0 k\n"),
    (
        "CR alone, which ends no line, but the comment",
        "ssh-ed25519 B0 k\rssh-ed25519 B0 l\n",
        "1 B0 k\n",
    ),
    ("a line of CR", "\r\r\nssh-ed25519 B0 k", "1 bad\n2 B0 k\n"),
    ("empty lines", "\n\n\nssh-ed25519 B0 k\n\n", "4 B0 k\n"),
    ("blank lines", " \n\t\r\n \t ", ""),
    (
        "lines of other white space",
        "\u{b}\n\u{c}\n\u{a0}\n\u{85}\nssh-ed25519 B0 k",
        "1 bad\n2 bad\n3 bad\n4 bad\n5 B0 k\n",
    ),
    (
        "white space that ends no line",
        "ssh-ed25519 B0 k\u{2028}l\u{85}m\u{b}n\n",
        "1 B0 k\u{2028}l\u{85}m\u{b}n\n",
    ),
    (
        "comments",
        "#\n# ssh-ed25519 B0 k\n#ssh-ed25519 B0 k\nssh-ed25519 B0 k\n",
        "4 B0 k\n",
    ),
    (
        "comments behind spaces and tabs",
        " #\n\t# ssh-ed25519 B0 k\n \t \tssh-ed25519 B0 k",
        "3 B0 k\n",
    ),
    (
        "a comment that goes on in no second line",
        "# one\\\nssh-ed25519 B0 k",
        "2 B0 k\n",
    ),
    (
        "a number sign elsewhere",
        "ssh-ed25519 B0 # k\nno-pty # k\na#b ssh-ed25519 B0 k\n",
        "1 B0 # k\n2 unread UnknownKeyType\n3 bad\n",
    ),
    (
        "spaces and tabs in front",
        " ssh-ed25519 B0 k\n\tssh-ed25519 B0 l\n \t no-pty ssh-ed25519 B0 m\n",
        "1 B0 k\n2 B0 l\n3 [no-pty] B0 m\n",
    ),
    (
        "a byte order mark",
        "\u{feff}ssh-ed25519 B0 k\nssh-ed25519 B0 l\n",
        "1 bad\n2 B0 l\n",
    ),
    (
        "a byte order mark before a comment",
        "\u{feff}# k\n",
        "1 bad\n",
    ),
    (
        "one key twice",
        "ssh-ed25519 B0 k\nssh-ed25519 B0 k\n",
        "1 B0 k\n2 B0 k\n",
    ),
    (
        "a line that is no key's between two that are",
        "ssh-ed25519 B0 k\na,,b ssh-ed25519 B0 k\nssh-dss\nssh-ed25519 B0 l\n",
        "1 B0 k\n2 bad\n3 unread UnknownKeyType\n4 B0 l\n",
    ),
    (
        "an open quote, which ends with its line",
        "x=\"a ssh-ed25519 B0 k\nssh-ed25519 B0 l\" m\n",
        "1 bad\n2 B0 l\" m\n",
    ),
    (
        "a line %%, which is no mark here",
        "ssh-ed25519 B0 k\n%%\nssh-ed25519 B0 l\n",
        "1 B0 k\n2 bad\n3 B0 l\n",
    ),
];

#[test]
fn reads_each_line_by_its_number(rt: HostRuntime) -> Result<(), Fail> {
    for (name, text, entries) in &LINES {
        assert!(rt; has_entries(rt.alloc(), text, entries)?, "{name}");
    }
    Ok(())
}

/// Of 999 lines each third is a comment, and the line before it is empty.
fn long_text(alloc: Global) -> Result<String, AllocError> {
    let mut text = String::new(alloc);
    for number in 0..333u32 {
        write!(text, "a{number} \n\n# {number}\n")?;
    }
    Ok(text)
}

fn long_entries(alloc: Global) -> Result<String, AllocError> {
    let mut text = String::new(alloc);
    for number in 0..333u32 {
        write!(text, "{} unread UnknownKeyType\n", 3 * number + 1)?;
    }
    Ok(text)
}

fn counts_lines(alloc: Global) -> Result<bool, Fail> {
    let text = ManuallyDrop::new(long_text(alloc)?);
    let wanted = ManuallyDrop::new(long_entries(alloc)?);
    let entries = ManuallyDrop::new(read_keys(alloc, text.as_str())?);
    let shown = ManuallyDrop::new(entries_text(alloc, entries.as_slice())?);
    Ok(shown.as_str() == wanted.as_str())
}

#[test]
fn counts_999_lines(rt: HostRuntime) -> Result<(), Fail> {
    assert!(rt; counts_lines(rt.alloc())?);
    Ok(())
}
