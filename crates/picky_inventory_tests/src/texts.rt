//! Inventories of texts, each its own: encrypted private keys under the word `sealed`, and pieces of inventories.

use crate::row_texts::{LINE, row_text};
use crate::sealed_parts::SEALED_ENVELOPE;
use picky_inventory_texts::{
    CheckError, ListError, MergeError, TextCause, check_piece, is_listed_line, list_texts,
    merge_two,
};
use picky_key_rows::{SEALED_V2, SEALED_V3, ZERO_KEY};
use std::alloc::Global;
use std::mem::ManuallyDrop;
use std::test::Fail;

// The second word of `ssh-keygen -y -f` of the key in SEALED_V2 and SEALED_V3.
const P256: &str =
    "AAAAE2VjZHNhLXNoYTItbmlzdHAyNTYAAAAIbmlzdHAyNTYAAABBBEnNK8hhGGvZjrP1wGQ9f9R5lpHKWcdWam3ehifGfqZu+aesi+nkcfRccckMkFl/OAhENMIgzOi3EeFITf5XxLQ=";

// The same of SEALED_ENVELOPE.
const ED: &str = "AAAAC3NzaC1lZDI1NTE5AAAAIHbDcmTKyCxX7YbYzHsBsNysxVHc0dmjMNv3AU39t4qE";

/// The lines of a row, in which `<p256>` and `<ed>` stand for these blobs too.
fn lines_of(alloc: Global, row: &str) -> Result<String, Fail> {
    let row = ManuallyDrop::new(row_text(alloc, row)?);
    let row = ManuallyDrop::new(row.as_str().replace(alloc, "<p256>", P256)?);
    Ok(row.as_str().replace(alloc, "<ed>", ED)?)
}

/// The text of a letter.
fn text_of(letter: char) -> &'static [u8] {
    match letter {
        'l' => LINE.as_bytes(),
        // A line `%%` is in a text as any other.
        'm' =>
            b"ssh-ed25519 AAAAC3NzaC1lZDI1NTE5AAAAIAAAAAAAAAAAAAAAAAAAAAAAAAAAAAAAAAAAAAAAAAAA\n%%\nssh-dss\n",
        'z' => ZERO_KEY.as_bytes(),
        '2' => SEALED_V2.as_bytes(),
        '3' => SEALED_V3.as_bytes(),
        'e' => SEALED_ENVELOPE.as_bytes(),
        'b' => b" \n",
        'x' => b"k\xff",
        'u' => b"ssh-dss\n",
        _ => b"",
    }
}

fn texts_of(alloc: Global, letters: &str) -> Result<Vec<&'static [u8]>, Fail> {
    let mut texts = ManuallyDrop::new(Vec::new(alloc));
    for letter in letters.chars() {
        texts.push(text_of(letter))?;
    }
    Ok(ManuallyDrop::into_inner(texts))
}

/// The texts of the letters are listed so.
fn lists(alloc: Global, letters: &str, sealed: bool, row: &str) -> Result<bool, Fail> {
    let wanted = ManuallyDrop::new(lines_of(alloc, row)?);
    let texts = ManuallyDrop::new(texts_of(alloc, letters)?);
    let listed = ManuallyDrop::new(list_texts(alloc, texts.as_slice(), sealed));
    match &*listed {
        Ok(bytes) => Ok(bytes.as_slice() == wanted.as_bytes()),
        Err(_) => Ok(false),
    }
}

// docs/FORMATS.md, "Inventories", has the lines; what an encrypted text shows is its public key and the comment that stands open. The
// comments are those of picky_key_rows, by base64.
static LISTED: [(&str, bool, &str); 8] = [
    ("", false, ""),
    ("_b", true, ""),
    ("lzl", false, "private B0 aGVsbG8=\npublic B0 aw==\n"),
    ("lmb", false, "public B0 \npublic B0 aw==\n"),
    ("lz", true, "private B0 aGVsbG8=\npublic B0 aw==\n"),
    ("23", true, "sealed <p256> YSBjb21tZW50\n"),
    ("e", true, "sealed <ed> \n"),
    (
        "2lez",
        true,
        "private B0 aGVsbG8=\npublic B0 aw==\nsealed <ed> \nsealed <p256> YSBjb21tZW50\n",
    ),
];

#[test]
fn lists_texts_of_their_own(rt: HostRuntime) -> Result<(), Fail> {
    for (letters, sealed, row) in &LISTED {
        assert!(rt; lists(rt.alloc(), letters, *sealed, row)?, "{letters}");
    }
    Ok(())
}

/// The texts aren't listed, for the text at this place, which isn't UTF-8 or isn't read.
fn is_unlisted(
    alloc: Global,
    letters: &str,
    sealed: bool,
    place: usize,
    is_text: bool,
) -> Result<bool, Fail> {
    let texts = ManuallyDrop::new(texts_of(alloc, letters)?);
    let listed = ManuallyDrop::new(list_texts(alloc, texts.as_slice(), sealed));
    match &*listed {
        Err(ListError::Text(at, TextCause::NotUtf8)) => Ok(*at == place && !is_text),
        Err(ListError::Text(at, TextCause::Unread(_))) => Ok(*at == place && is_text),
        _ => Ok(false),
    }
}

static UNLISTED: [(&str, bool, usize, bool); 7] = [
    ("x", false, 0, false),
    ("u", false, 0, true),
    ("lbux", true, 2, true),
    ("lbxu", true, 2, false),
    ("l2", false, 1, true),
    ("lz3", false, 2, true),
    ("e", false, 0, true),
];

#[test]
fn refuses_the_first_text_that_is_not_listed(rt: HostRuntime) -> Result<(), Fail> {
    for (letters, sealed, place, is_text) in &UNLISTED {
        assert!(rt;
            is_unlisted(rt.alloc(), letters, *sealed, *place, *is_text)?,
            "{letters}"
        );
    }
    Ok(())
}

/// Both are merged to this.
fn merges(alloc: Global, left: &str, right: &str, wanted: &str) -> Result<bool, Fail> {
    let left = ManuallyDrop::new(lines_of(alloc, left)?);
    let right = ManuallyDrop::new(lines_of(alloc, right)?);
    let wanted = ManuallyDrop::new(lines_of(alloc, wanted)?);
    let merged = ManuallyDrop::new(merge_two(alloc, left.as_bytes(), right.as_bytes()));
    match &*merged {
        Ok(bytes) => Ok(bytes.as_slice() == wanted.as_bytes()),
        Err(_) => Ok(false),
    }
}

// The lines of both through LC_ALL=C sort -u.
static MERGED: [(&str, &str, &str); 4] = [
    ("", "", ""),
    ("sealed B0 aw==\n", "", "sealed B0 aw==\n"),
    (
        "private B0 aw==\nsealed B0 \n",
        "public B0 aw==\nsealed B0 \nsealed B0 aw==\n",
        "private B0 aw==\npublic B0 aw==\nsealed B0 \nsealed B0 aw==\n",
    ),
    (
        "sealed <p256> aw==\n",
        "sealed <ed> \n",
        "sealed <ed> \nsealed <p256> aw==\n",
    ),
];

#[test]
fn merges_inventories_of_texts(rt: HostRuntime) -> Result<(), Fail> {
    for (left, right, wanted) in &MERGED {
        assert!(rt; merges(rt.alloc(), left, right, wanted)?, "{wanted}");
    }
    Ok(())
}

/// The piece is in order behind a line, and ends in this one.
fn ends_in(alloc: Global, piece: &str, before: &str, wanted: &str) -> Result<bool, Fail> {
    let piece = ManuallyDrop::new(lines_of(alloc, piece)?);
    let before = ManuallyDrop::new(lines_of(alloc, before)?);
    let wanted = ManuallyDrop::new(lines_of(alloc, wanted)?);
    let checked = ManuallyDrop::new(check_piece(alloc, piece.as_bytes(), before.as_bytes()));
    match &*checked {
        Ok(line) => Ok(line.as_slice() == wanted.as_bytes()),
        Err(_) => Ok(false),
    }
}

// A piece, the line before it, and its last line.
static PIECES: [(&str, &str, &str); 4] = [
    ("", "", ""),
    ("", "public B0 aw==\n", "public B0 aw==\n"),
    ("public B0 \npublic B0 aw==\n", "", "public B0 aw==\n"),
    (
        "public B0 aw==\nsealed B0 \n",
        "public B0 \n",
        "sealed B0 \n",
    ),
];

#[test]
fn checks_pieces(rt: HostRuntime) -> Result<(), Fail> {
    for (piece, before, wanted) in &PIECES {
        assert!(rt;
            ends_in(rt.alloc(), piece, before, wanted)?,
            "{piece} behind {before}"
        );
    }
    Ok(())
}

/// The number of the bad line of the left and the right text; 0 where the left one isn't UTF-8, and 999 where the right one isn't.
fn bad_of_two(alloc: Global, left: &[u8], right: &[u8]) -> Option<usize> {
    match &*ManuallyDrop::new(merge_two(alloc, left, right)) {
        Err(MergeError::LeftNotUtf8) => Some(0),
        Err(MergeError::RightNotUtf8) => Some(999),
        Err(MergeError::BadLine(line)) => Some(*line),
        Err(MergeError::NoMemory) | Ok(_) => None,
    }
}

/// The number of the bad line of the second text as a piece behind the first; 0 where it isn't UTF-8.
fn bad_of_piece(alloc: Global, before: &[u8], piece: &[u8]) -> Option<usize> {
    match &*ManuallyDrop::new(check_piece(alloc, piece, before)) {
        Err(CheckError::NotUtf8) => Some(0),
        Err(CheckError::BadLine(line)) => Some(*line),
        Err(CheckError::NoMemory) | Ok(_) => None,
    }
}

const SEALED: &[u8] =
    b"sealed AAAAC3NzaC1lZDI1NTE5AAAAIAAAAAAAAAAAAAAAAAAAAAAAAAAAAAAAAAAAAAAAAAAA \n";

/// A name, two texts, what is bad of both as inventories, and what of the second as a piece behind the first.
type Bad = (
    &'static str,
    &'static [u8],
    &'static [u8],
    Option<usize>,
    Option<usize>,
);

static BAD: [Bad; 7] = [
    ("two that aren't UTF-8", b"\xff", b"\xff", Some(0), Some(0)),
    ("the right one isn't", b"", b"\xff", Some(999), Some(0)),
    ("LF alone", b"\n", b"\n", Some(1), Some(1)),
    ("a word alone", SEALED, b"sealed\n", Some(2), Some(1)),
    ("one line twice", SEALED, SEALED, None, Some(1)),
    ("no LF", b"", b"public AAAA aw==", Some(1), Some(1)),
    ("nothing", SEALED, b"", None, None),
];

fn is_bad(alloc: Global, row: &Bad) -> bool {
    let (_, first, second, of_two, of_piece) = row;
    bad_of_two(alloc, first, second) == *of_two && bad_of_piece(alloc, first, second) == *of_piece
}

#[test]
fn refuses_bad_lines(rt: HostRuntime) {
    for row in &BAD {
        assert!(rt; is_bad(rt.alloc(), row), "{}", row.0);
    }
}

// Whether a line is one of an inventory of texts.
static LINES: [(&str, bool); 10] = [
    ("private B0 aw==\n", true),
    ("public B0 \n", true),
    ("sealed B0 aw==\n", true),
    ("sealed B0 \n", true),
    ("sealed <p256> YSBjb21tZW50\n", true),
    ("sealed B0 aw==", false),
    ("sealed B0\n", false),
    ("sealed  aw==\n", false),
    ("Sealed B0 aw==\n", false),
    ("", false),
];

fn is_line(alloc: Global, row: &str) -> Result<bool, Fail> {
    let line = ManuallyDrop::new(lines_of(alloc, row)?);
    Ok(is_listed_line(alloc, line.as_str())?)
}

#[test]
fn knows_listed_lines(rt: HostRuntime) -> Result<(), Fail> {
    for (row, wanted) in &LINES {
        assert!(rt; is_line(rt.alloc(), row)? == *wanted, "{row}");
    }
    Ok(())
}
