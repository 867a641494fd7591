//! Texts that are no ledger's, and the first line at which they are none.

use crate::row_texts::row_text;
use picky_ledger::{Ledger, LedgerTextError};
use std::alloc::Global;
use std::mem::ManuallyDrop;
use std::test::Fail;

/// The text's first line, from 1, at which it is no ledger's, is this one.
fn breaks_at(alloc: Global, row: &str, line: usize) -> Result<bool, Fail> {
    let text = ManuallyDrop::new(row_text(alloc, row)?);
    match &*ManuallyDrop::new(Ledger::from_str(alloc, text.as_str())) {
        Ok(_) => Ok(false),
        Err(e) => Ok(*e == LedgerTextError::BadLine(line)),
    }
}

// First lines that don't say which serial is next: decimal, without a needless zero, from 1 to 2^64 - 1.
static FIRST: [&str; 24] = [
    "",
    "\n",
    "\nnext 1\n",
    "next\n",
    "next \n",
    "next 1",
    "next 1\r\n",
    "next 1 \n",
    " next 1\n",
    "next  1\n",
    "next\t1\n",
    "Next 1\n",
    "next1\n",
    "1\n",
    "next 0\n",
    "next 00\n",
    "next 01\n",
    "next +1\n",
    "next -1\n",
    "next 0x1\n",
    "next 1.0\n",
    "next \u{661}\n",
    "next 18446744073709551616\n",
    "next 1844674407370955161500\n",
];

#[test]
fn begins_with_the_next_serial(rt: HostRuntime) -> Result<(), Fail> {
    for row in &FIRST {
        assert!(rt; breaks_at(rt.alloc(), row, 1)?, "{row}");
    }
    Ok(())
}

// Lines behind the first that are no entries.
static SECOND: [&str; 46] = [
    "\n",
    " \n",
    "r1\n",
    "r1 <r1>\n",
    "r1 <r1> \n",
    "next 9\n",
    "%%\n",
    // No LF, or more in front of it.
    "r1 <r1> <n> <c1> host",
    "r1 <r1> <n> <c1> host\r\n",
    "r1 <r1> <n> <c1> host \n",
    "r1 <r1> <n> <c1> host\t\n",
    // A serial that is 0, or the last number.
    "r1 <r1> <n> <c0> host\n",
    "r1 <r1> <n> <past> host\n",
    // Another id than the request's.
    "r2 <r1> <n> <c1> host\n",
    "r <r1> <n> <c1> host\n",
    " <r1> <n> <c1> host\n",
    "r1\t <r1> <n> <c1> host\n",
    // Words that are parted otherwise.
    " r1 <r1> <n> <c1> host\n",
    "r1  <r1> <n> <c1> host\n",
    "r1 <r1>  <n> <c1> host\n",
    "r1 <r1> <n>  <c1> host\n",
    "r1\t<r1> <n> <c1> host\n",
    "r1 <n> <c1> host <r1>\n",
    "<r1> r1 <n> <c1> host\n",
    // The request isn't in base64, or in another spelling: RFC 4648, sections 3.2, 3.5 and 5.
    "r1 r1 <n> <c1> host\n",
    "r2 <r2>bw= <n> <c1> host\n",
    "r2 <r2>bw <n> <c1> host\n",
    "r2 <r2>bx== <n> <c1> host\n",
    "r2 <r2>bw== == <n> <c1> host\n",
    "r2 <r2>b_== <n> <c1> host\n",
    "r2 =<r2>bw== <n> <c1> host\n",
    // What `printf 'r1 Host - 0 0 ssh-ed25519 k' | base64 -w 0` and so on print: no request, none, and no text.
    "r1 cjEgSG9zdCAtIDAgMCBzc2gtZWQyNTUxOSBr <n> <c1> host\n",
    "r1 cjE= <n> <c1> host\n",
    "r1 cjEgaG9zdCAtIDAgMCD/ <n> <c1> host\n",
    "r1 /w== <n> <c1> host\n",
    // No certificate, or one in another spelling.
    "r1 <r1> ssh-ed25519 B0 host\n",
    "r1 <r1> <n> B0 host\n",
    "r1 <r1> <n> ? host\n",
    "r1 <r1> <n>\n",
    "r1 <r1> <n> <c1>\n",
    "r1 <r1> <c1> host\n",
    "r1 <r1> <n> <c1>AAAA host\n",
    "r1 <r1> ssh-ed25519-cert-v01 <c1> host\n",
    "r1 <r1> ssh-rsa-cert-v01@openssh.com <c1> host\n",
    "r1 <r1> <n> =<c1> host\n",
    "r1 <r1> <r1> <n> <c1> host\n",
];

fn breaks_second(alloc: Global, line: &str, more: &str) -> Result<bool, Fail> {
    let text = ManuallyDrop::new(format!(in alloc; "next 18446744073709551615\n{line}{more}")?);
    breaks_at(alloc, text.as_str(), 2)
}

#[test]
fn has_entries_alone_behind_it(rt: HostRuntime) -> Result<(), Fail> {
    for line in &SECOND {
        assert!(rt; breaks_second(rt.alloc(), line, "")?, "{line}");
    }
    Ok(())
}

// Entries that don't fit those before them, and the line of each.
static FURTHER: [(&str, usize); 13] = [
    // The serial is the next, or past it.
    ("next 1\nr1 <r1> <n> <c1> host\n", 2),
    ("next 7\nr2 <r2>bw== <n> <c7> user two\n", 2),
    ("next 6\nr2 <r2>bw== <n> <c7> user two\n", 2),
    ("next 18446744073709551614\nr1 <r1> <n> <last> host\n", 2),
    (
        "next 7\nr1 <r1> <n> <c1> host\nr2 <r2>bw== <n> <c7> user two\n",
        3,
    ),
    // It isn't above the one before.
    (
        "next 9\nr2 <r2>bw== <n> <c7> user two\nr1 <r1> <n> <c1> host\n",
        3,
    ),
    (
        "next 9\nr2 <r2>bw== <n> <c7> user two\nr1 <r1> <n> <c7> user two\n",
        3,
    ),
    ("next 9\nr1 <r1> <n> <c1> host\nr1 <r1> <n> <c1> host\n", 3),
    // The id is there.
    ("next 9\nr1 <r1> <n> <c1> host\nr1 <r1> <n> <c7> host\n", 3),
    (
        "next 9\nr1 <r1> <n> <c1> host\nr2 <r2>bw== <n> <c7> host\nr1 <r1> <n> <c8> host\n",
        4,
    ),
    // A line between them, or behind them.
    (
        "next 9\nr1 <r1> <n> <c1> host\n\nr2 <r2>bw== <n> <c7> user two\n",
        3,
    ),
    ("next 9\nr1 <r1> <n> <c1> host\n\n", 3),
    (
        "next 9\nr1 <r1> <n> <c1> host\nr2 <r2>bw== <n> <c7> user two",
        3,
    ),
];

#[test]
fn has_each_id_and_serial_once(rt: HostRuntime) -> Result<(), Fail> {
    for (row, line) in &FURTHER {
        assert!(rt; breaks_at(rt.alloc(), row, *line)?, "{row}");
    }
    Ok(())
}

// The first line of all counts, whatever follows it.
#[test]
fn names_the_first_such_line(rt: HostRuntime) -> Result<(), Fail> {
    assert!(rt; breaks_second(rt.alloc(), "r1 <r1> <n> <c0> host\n", "\n")?);
    assert!(rt; breaks_second(rt.alloc(), "\n", "r1 <r1> <n> <c1> host\n")?);
    assert!(rt; breaks_at(rt.alloc(), "next 0\n\n\n", 1)?);
    Ok(())
}
