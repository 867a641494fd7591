//! Which line of two inventories is refused, counted from 1 over the left and then the right one.

use crate::row_texts::row_text;
use crate::runs::{MERGE, ends_over};
use picky_inventory::{InventoryStatus, Unmerged, is_item_line, merge};
use std::alloc::Global;
use std::mem::ManuallyDrop;
use std::test::Fail;

// A line with LF that is no item's.
static NO_ITEMS: [(&str, &str); 25] = [
    ("LF alone", "\n"),
    ("another kind", "secret B0 aw==\n"),
    ("another case", "Public B0 aw==\n"),
    ("a space before the kind", " public B0 aw==\n"),
    ("two spaces before the blob", "public  B0 aw==\n"),
    ("two spaces before the comment", "public B0  aw==\n"),
    ("tabs", "public\tB0\taw==\n"),
    ("a space behind the comment", "public B0 aw== \n"),
    ("two comments", "public B0 aw== aw==\n"),
    ("no comment", "public B0\n"),
    ("a kind alone", "public\n"),
    ("CR before LF", "public B0 aw==\r\n"),
    ("a comment that is no base64", "public B0 k\n"),
    ("a comment without padding", "public B0 aw\n"),
    ("a comment with bits left over", "public B0 ax==\n"),
    // printf 'k\351' | base64, which is Latin-1
    ("a comment that isn't UTF-8", "public B0 a+k=\n"),
    ("no blob", "public  aw==\n"),
    ("a blob that is no base64", "public B0A aw==\n"),
    // s(b"ssh-rsa") + s(b"\3") + s(b"\0\x81") ends in IAgQ==
    (
        "a blob with bits left over",
        "public AAAAB3NzaC1yc2EAAAABAwAAAAIAgR== aw==\n",
    ),
    // s(b"ssh-ed25519") + s(bytes(32)) + b"\0"
    ("a byte behind the key", "public B0AA== aw==\n"),
    // s(b"ssh-ed25519") + s(bytes(31))
    (
        "a key of 31 bytes",
        "public AAAAC3NzaC1lZDI1NTE5AAAAHwAAAAAAAAAAAAAAAAAAAAAAAAAAAAAAAAAAAAAAAAA= aw==\n",
    ),
    // s(b"ssh-dss")
    ("another key type", "public AAAAB3NzaC1kc3M= aw==\n"),
    // s(b"ssh-rsa") + s(b"\0\3") + s(b"\0\x81")
    (
        "a number with a zero too many",
        "public AAAAB3NzaC1yc2EAAAACAAMAAAACAIE= aw==\n",
    ),
    // s(b"ssh-rsa") + s(b"\3") + s(b"\x81")
    (
        "a number with a zero too few",
        "public AAAAB3NzaC1yc2EAAAABAwAAAAGB aw==\n",
    ),
    // s(b"ecdsa-sha2-nistp256") + s(b"nistp384") + s(b"\4")
    (
        "another curve's identifier",
        "public AAAAE2VjZHNhLXNoYTItbmlzdHAyNTYAAAAIbmlzdHAzODQAAAABBA== aw==\n",
    ),
];

fn is_unmerged(alloc: Global, text: &str, line: usize) -> bool {
    let merged = ManuallyDrop::new(merge(alloc, text));
    match &*merged {
        Err(Unmerged::BadLine(number)) => *number == line,
        Err(Unmerged::NoMemory) | Ok(_) => false,
    }
}

/// The line of this number is refused in the row's text, by the call and by the run.
fn is_bad(alloc: Global, row: &str, line: usize) -> Result<bool, Fail> {
    let text = ManuallyDrop::new(row_text(alloc, row)?);
    let status = ManuallyDrop::new(InventoryStatus::BadLine(line));
    Ok(
        is_unmerged(alloc, text.as_str(), line)
            && ends_over(alloc, MERGE, text.as_str(), &status, "")?,
    )
}

// Where a line may stand, here a tilde, and its number.
static PLACES: [(&str, usize); 5] = [
    ("~", 1),
    ("~%%\npublic B0 aw==\n", 1),
    ("%%\n~", 1),
    ("private B0 aGVsbG8=\n~public B0 aw==\n", 2),
    ("private B0 aGVsbG8=\npublic B0 aw==\n%%\n~", 3),
];

/// The line is refused in this place.
fn is_bad_at(alloc: Global, place: &str, line: &str, number: usize) -> Result<bool, Fail> {
    let row = ManuallyDrop::new(place.replace(alloc, "~", line)?);
    is_bad(alloc, row.as_str(), number)
}

fn is_no_item(alloc: Global, row: &str) -> Result<bool, Fail> {
    let line = ManuallyDrop::new(row_text(alloc, row)?);
    Ok(!is_item_line(alloc, line.as_str())?)
}

#[test]
fn refuses_what_is_no_line_of_an_item(rt: HostRuntime) -> Result<(), Fail> {
    for (name, line) in &NO_ITEMS {
        assert!(rt; is_no_item(rt.alloc(), line)?, "{name}");
        for (place, number) in &PLACES {
            assert!(rt;
                is_bad_at(rt.alloc(), place, line, *number)?,
                "{name}: {place}"
            );
        }
    }
    Ok(())
}

// A text, and the number of its first bad line. LC_ALL=C sort has the order of the lines. A left text ends before a line `%%`, so
// its last line has LF.
static BAD_LINES: [(&str, &str, usize); 21] = [
    ("a line twice", "public B0 aw==\npublic B0 aw==\n", 2),
    (
        "twice on the left",
        "public B0 \npublic B0 aw==\npublic B0 aw==\n%%\npublic B0 aw==\n",
        3,
    ),
    (
        "twice on the right",
        "%%\npublic B0 aw==\npublic B0 aw==\n",
        2,
    ),
    ("a line less", "public B0 aw==\nprivate B0 aGVsbG8=\n", 2),
    (
        "a line less than one before",
        "public B0 \npublic B0 aw==\npublic B0 aGVsbG8=\n",
        3,
    ),
    (
        "a shorter line",
        "public B0 aw==\npublic B0 \n%%\nprivate B0 aGVsbG8=\n",
        2,
    ),
    (
        "less on the right",
        "public B0 \npublic B0 aw==\n%%\npublic B0 aw==\npublic B0 \n",
        4,
    ),
    ("both texts", "public B0 aw==\npublic B0 \n%%\npublic\n", 2),
    (
        "less, and then no item's",
        "public B0 aw==\npublic B0 \npublic\n",
        2,
    ),
    (
        "no item's, and then less",
        "private B0 aGVsbG8=\npublic\nprivate B0 aGVsbG8=\n",
        2,
    ),
    (
        "less, and no item's",
        "private B0 aGVsbG8=\npublic B0 aw==\npublic\n",
        3,
    ),
    ("greater, and no item's", "private B0 aGVsbG8=\npublic\n", 2),
    ("no LF", "public B0 aw==", 1),
    (
        "no LF on the right",
        "private B0 aGVsbG8=\npublic B0 aw==\n%%\npublic B0 \npublic B0 aw==",
        4,
    ),
    (
        "no LF, and less",
        "%%\r\npublic B0 aw==\npublic B0 aGVsbG8=",
        2,
    ),
    (
        "a second mark",
        "public B0 \n%%\npublic B0 \n%%\npublic B0 aw==\n",
        3,
    ),
    (
        "a space behind percent signs",
        "private B0 aGVsbG8=\n%% \npublic B0 aw==\n",
        2,
    ),
    ("percent signs and CR", "private B0 aGVsbG8=\n%%\r", 2),
    ("a blank line at the end", "public B0 aw==\n\n", 2),
    ("a blank line before the mark", "public B0 aw==\n\n%%\n", 2),
    ("a byte order mark", "\u{feff}public B0 aw==\n", 1),
];

#[test]
fn says_which_line_is_refused(rt: HostRuntime) -> Result<(), Fail> {
    for (name, row, line) in &BAD_LINES {
        assert!(rt; is_bad(rt.alloc(), row, *line)?, "{name}");
    }
    Ok(())
}
