//! Each call of the library once, with memory enough.

use crate::row_texts::{LINE, PUBLIC_K, row_text};
use crate::runs::texts_of;
use picky_inventory::{
    Command, bad_line, command_of, ended_lines, is_blank, joined_lines, line_of, list_lines,
    list_text, merge_texts, parts, sorted_lines,
};
use picky_key_rows::ZERO_KEY;
use picky_key_text::{ReadError, read_text};
use picky_keys::SshPublicKeyError;
use picky_suite::PlainSuite;
use std::alloc::Global;
use std::mem::ManuallyDrop;
use std::test::Fail;

// The key's line without a comment, and what is listed of it.
const EMPTY: &str =
    "ssh-ed25519 AAAAC3NzaC1lZDI1NTE5AAAAIAAAAAAAAAAAAAAAAAAAAAAAAAAAAAAAAAAAAAAAAAAA";

const PUBLIC_EMPTY: &str =
    "public AAAAC3NzaC1lZDI1NTE5AAAAIAAAAAAAAAAAAAAAAAAAAAAAAAAAAAAAAAAAAAAAAAAA \n";

fn are_texts(found: &[&str], wanted: &[&str]) -> bool {
    let mut is_so = found.len() == wanted.len();
    for (text, other) in found.iter().zip(wanted) {
        is_so = is_so && *text == *other;
    }
    is_so
}

fn are_lines(found: &[Vec<u8>], wanted: &[&str]) -> bool {
    let mut is_so = found.len() == wanted.len();
    for (line, text) in found.iter().zip(wanted) {
        is_so = is_so && line.as_slice() == text.as_bytes();
    }
    is_so
}

/// A text, and what it is cut into.
type Cut = (&'static str, &'static [&'static str]);

// docs/FORMATS.md, "Commands", has what a mark is.
static PARTED: [Cut; 6] = [
    ("", &[""]),
    ("a", &["a"]),
    ("a%%\n", &["a%%\n"]),
    ("a\n%%\n\nb\r\n%%\r\n", &["a\n", "\nb\r\n", ""]),
    ("%%", &["", ""]),
    ("%%\n%% \n%%\r", &["", "%% \n%%\r"]),
];

static ENDED: [Cut; 3] = [
    ("", &[]),
    ("a\n", &["a\n"]),
    ("a\n\nb\r\nc\r", &["a\n", "\n", "b\r\n", "c\r"]),
];

fn is_parted(alloc: Global, text: &str, wanted: &[&str]) -> Result<bool, Fail> {
    let found = ManuallyDrop::new(parts(alloc, text)?);
    Ok(are_texts(found.as_slice(), wanted))
}

fn has_lines(alloc: Global, text: &str, wanted: &[&str]) -> Result<bool, Fail> {
    let found = ManuallyDrop::new(ended_lines(alloc, text)?);
    Ok(are_texts(found.as_slice(), wanted))
}

#[test]
fn cuts_a_text(rt: HostRuntime) -> Result<(), Fail> {
    for (text, wanted) in &PARTED {
        assert!(rt; is_parted(rt.alloc(), text, wanted)?, "{text}");
    }
    for (text, wanted) in &ENDED {
        assert!(rt; has_lines(rt.alloc(), text, wanted)?, "{text}");
    }
    Ok(())
}

// Unicode's White_Space.
#[test]
fn tells_what_is_blank(rt: HostRuntime) {
    for text in ["", "\n", " \t\r\n\u{b}\u{c}\u{85}\u{a0}\u{2003}\u{3000}"] {
        assert!(rt; is_blank(text), "{text:?}");
    }
    for text in ["k", " k ", "\u{200b}", "\u{feff}", "\0"] {
        assert!(rt; !is_blank(text), "{text:?}");
    }
}

fn has_line(alloc: Global, text: &str, row: &str) -> Result<bool, Fail> {
    let wanted = ManuallyDrop::new(row_text(alloc, row)?);
    let meaning = ManuallyDrop::new(read_text(alloc, &mut PlainSuite::new(), text, None)?);
    let line = ManuallyDrop::new(line_of(alloc, &meaning)?);
    Ok(line.as_slice() == wanted.as_bytes())
}

#[test]
fn writes_the_line_of_a_key(rt: HostRuntime) -> Result<(), Fail> {
    assert!(rt; has_line(rt.alloc(), LINE, PUBLIC_K)?);
    assert!(rt; has_line(rt.alloc(), ZERO_KEY, "private B0 aGVsbG8=\n")?);
    Ok(())
}

fn are_listed(alloc: Global, parts: &[&str], wanted: &[&str]) -> Result<bool, Fail> {
    let lines = ManuallyDrop::new(list_lines(alloc, &mut PlainSuite::new(), parts, None)?);
    Ok(are_lines(lines.as_slice(), wanted))
}

fn is_listed(alloc: Global, text: &str, wanted: &str) -> Result<bool, Fail> {
    let listed = ManuallyDrop::new(list_text(alloc, &mut PlainSuite::new(), text, None)?);
    Ok(listed.as_slice() == wanted.as_bytes())
}

fn refuses_part(alloc: Global, text: &str, part: usize) -> bool {
    let listed = ManuallyDrop::new(list_text(alloc, &mut PlainSuite::new(), text, None));
    let unknown = ManuallyDrop::new(ReadError::Public(SshPublicKeyError::UnknownKeyType));
    match &*listed {
        Ok(_) => false,
        Err(unread) => unread.part == part && unread.error == *unknown,
    }
}

#[test]
fn lists_parts(rt: HostRuntime) -> Result<(), Fail> {
    let alloc = rt.alloc();
    let lines = [PUBLIC_K, PUBLIC_EMPTY, PUBLIC_K];
    assert!(rt; are_listed(alloc, &["", LINE, " \n", EMPTY, LINE], &lines)?);
    assert!(rt; is_listed(alloc, LINE, PUBLIC_K)?);
    assert!(rt; refuses_part(alloc, "\n%%\n%%\nssh-dss\n%%\n?\n", 2));
    Ok(())
}

fn copies_of(alloc: Global, lines: &[&str]) -> Result<Vec<Vec<u8>>, Fail> {
    let mut copies = ManuallyDrop::new(Vec::new(alloc));
    for line in lines {
        copies.push(Vec::from_slice(alloc, line.as_bytes())?)?;
    }
    Ok(ManuallyDrop::into_inner(copies))
}

fn is_sorted(alloc: Global, lines: &[&str], wanted: &[&str]) -> Result<bool, Fail> {
    let sorted = ManuallyDrop::new(sorted_lines(copies_of(alloc, lines)?));
    Ok(are_lines(sorted.as_slice(), wanted))
}

fn is_joined(alloc: Global, lines: &[&str], wanted: &str) -> Result<bool, Fail> {
    let copies = ManuallyDrop::new(copies_of(alloc, lines)?);
    let text = ManuallyDrop::new(joined_lines(alloc, copies.as_slice())?);
    Ok(text.as_slice() == wanted.as_bytes())
}

fn is_merged(alloc: Global, left: &str, right: &str, wanted: &str) -> Result<bool, Fail> {
    let merged = ManuallyDrop::new(merge_texts(alloc, left, right)?);
    Ok(merged.as_slice() == wanted.as_bytes())
}

// printf 'b\nB\na\nb\nab\n' | LC_ALL=C sort -u; printf 'b\nc\na\nb\n' | LC_ALL=C sort -u
#[test]
fn sorts_lines(rt: HostRuntime) -> Result<(), Fail> {
    let alloc = rt.alloc();
    assert!(rt;
        is_sorted(
            alloc,
            &["b\n", "B\n", "a\n", "b\n", "ab\n"],
            &["B\n", "a\n", "ab\n", "b\n"]
        )?
    );
    assert!(rt; is_joined(alloc, &["a\n", "", "b"], "a\nb")?);
    assert!(rt; is_merged(alloc, "b\nc\n", "a\nb\n", "a\nb\nc\n")?);
    Ok(())
}

fn has_bad(alloc: Global, left: &str, right: &str, wanted: Option<usize>) -> Result<bool, Fail> {
    Ok(bad_line(alloc, left, right)? == wanted)
}

#[test]
fn finds_a_bad_line(rt: HostRuntime) -> Result<(), Fail> {
    let alloc = rt.alloc();
    assert!(rt; has_bad(alloc, PUBLIC_K, PUBLIC_EMPTY, None)?);
    assert!(rt; has_bad(alloc, PUBLIC_K, "public\n", Some(2))?);
    assert!(rt; has_bad(alloc, "public\n", "", Some(1))?);
    Ok(())
}

fn name_of(alloc: Global, words: &[&str]) -> Result<&'static str, Fail> {
    let texts = ManuallyDrop::new(texts_of(alloc, words)?);
    match command_of(texts.as_slice()) {
        Some(Command::Listing) => Ok("listing"),
        Some(Command::Merging) => Ok("merging"),
        None => Ok("none"),
    }
}

#[test]
fn reads_a_command(rt: HostRuntime) -> Result<(), Fail> {
    let alloc = rt.alloc();
    assert!(rt; name_of(alloc, &["list"])? == "listing");
    assert!(rt; name_of(alloc, &["merge"])? == "merging");
    assert!(rt; name_of(alloc, &["merge", "merge"])? == "none");
    Ok(())
}
