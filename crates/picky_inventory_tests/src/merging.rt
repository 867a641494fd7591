//! Inventories that are merged: the lines of both, each once, in the order of bytes.

use crate::row_texts::row_text;
use crate::runs::{MERGE, writes};
use picky_inventory::{is_item_line, merge};
use std::alloc::Global;
use std::mem::ManuallyDrop;
use std::test::Fail;

// A text, and the lines of both inventories in it through LC_ALL=C sort -u.
static UNIONS: [(&str, &str); 14] = [
    (
        "private B0 aGVsbG8=\npublic B0 aGVsbG8=\n%%\npublic B0 \npublic B0 aw==\n",
        "private B0 aGVsbG8=\npublic B0 \npublic B0 aGVsbG8=\npublic B0 aw==\n",
    ),
    (
        "public B0 \npublic B0 aw==\n%%\nprivate B0 aGVsbG8=\npublic B0 aGVsbG8=\n",
        "private B0 aGVsbG8=\npublic B0 \npublic B0 aGVsbG8=\npublic B0 aw==\n",
    ),
    (
        "private B0 aGVsbG8=\npublic B0 aw==\n%%\nprivate B0 aGVsbG8=\npublic B0 aw==\n",
        "private B0 aGVsbG8=\npublic B0 aw==\n",
    ),
    (
        "private B0 aGVsbG8=\npublic B0 aGVsbG8=\n%%\npublic B0 aGVsbG8=\npublic B0 aw==\n",
        "private B0 aGVsbG8=\npublic B0 aGVsbG8=\npublic B0 aw==\n",
    ),
    (
        "public B0 aw==\n%%\nprivate B0 aGVsbG8=\n",
        "private B0 aGVsbG8=\npublic B0 aw==\n",
    ),
    (
        "public B0 aw==\n%%\r\nprivate B0 aGVsbG8=\n",
        "private B0 aGVsbG8=\npublic B0 aw==\n",
    ),
    (
        "private B0 aGVsbG8=\npublic B0 aw==\n%%\n",
        "private B0 aGVsbG8=\npublic B0 aw==\n",
    ),
    (
        "private B0 aGVsbG8=\npublic B0 aw==\n%%",
        "private B0 aGVsbG8=\npublic B0 aw==\n",
    ),
    (
        "%%\nprivate B0 aGVsbG8=\npublic B0 aw==\n",
        "private B0 aGVsbG8=\npublic B0 aw==\n",
    ),
    (
        "private B0 aGVsbG8=\npublic B0 aw==\n",
        "private B0 aGVsbG8=\npublic B0 aw==\n",
    ),
    ("public B0 \n", "public B0 \n"),
    ("%%\n", ""),
    ("%%", ""),
    ("", ""),
];

fn is_merged(alloc: Global, text: &str, wanted: &str) -> Result<bool, Fail> {
    let merged = ManuallyDrop::new(merge(alloc, text)?);
    Ok(merged.as_slice() == wanted.as_bytes() && writes(alloc, MERGE, text, wanted)?)
}

/// The row's lines are those of the union, for the call and for the run.
fn is_union(alloc: Global, text: &str, wanted: &str) -> Result<bool, Fail> {
    let text = ManuallyDrop::new(row_text(alloc, text)?);
    let wanted = ManuallyDrop::new(row_text(alloc, wanted)?);
    is_merged(alloc, text.as_str(), wanted.as_str())
}

#[test]
fn merges_two_texts(rt: HostRuntime) -> Result<(), Fail> {
    for (text, wanted) in &UNIONS {
        assert!(rt; is_union(rt.alloc(), text, wanted)?, "{text}");
    }
    Ok(())
}

// Any text is a comment, as LF, a space and two percent signs: printf '\n' | base64 and so on. Each blob is canonical:
// s(b"ssh-rsa") + s(b"\3") + s(b"\0\x81"), s(b"ecdsa-sha2-nistp256") + s(b"nistp256") + s(b"\4") and
// s(b"sk-ssh-ed25519@openssh.com") + s(bytes(32)) + s(b"").
static ITEMS: [&str; 6] = [
    "public B0 Cg==\n",
    "private B0 IA==\n",
    "public B0 JSU=\n",
    "private AAAAB3NzaC1yc2EAAAABAwAAAAIAgQ== \n",
    "public AAAAE2VjZHNhLXNoYTItbmlzdHAyNTYAAAAIbmlzdHAyNTYAAAABBA== aw==\n",
    "private AAAAGnNrLXNzaC1lZDI1NTE5QG9wZW5zc2guY29tAAAAIAAAAAAAAAAAAAAAAAAAAAAAAAAAAAAAAAAAAAAAAAAAAAAAAA== aw==\n",
];

/// The row is the line of an item, and its own union.
fn is_item(alloc: Global, row: &str) -> Result<bool, Fail> {
    let line = ManuallyDrop::new(row_text(alloc, row)?);
    Ok(is_item_line(alloc, line.as_str())? && is_merged(alloc, line.as_str(), line.as_str())?)
}

#[test]
fn takes_each_line_of_an_item(rt: HostRuntime) -> Result<(), Fail> {
    for row in &ITEMS {
        assert!(rt; is_item(rt.alloc(), row)?, "{row}");
    }
    Ok(())
}
