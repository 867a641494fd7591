//! Which lines are requests, and what they ask for.

use crate::row_texts::row_text;
use picky_cert_parts::SshCertType;
use picky_key_rows::KEY_ROWS;
use picky_keys::SshPublicKey;
use picky_request::CertRequestLine;
use picky_wire::Text;
use std::alloc::Global;
use std::mem::ManuallyDrop;
use std::test::Fail;

/// A line, and what it says.
struct RequestRow {
    line: &'static str,
    id: &'static str,
    kind: SshCertType,
    principals: &'static [&'static str],
    valid: (u64, u64),
    comment: &'static str,
}

// docs/FORMATS.md, "Ledgers", by hand.
static REQUESTS: [RequestRow; 10] = [
    RequestRow {
        line: "r1 host - 0 0 ssh-ed25519 B0 host",
        id: "r1",
        kind: SshCertType::Host,
        principals: &[],
        valid: (0, 0),
        comment: "host",
    },
    RequestRow {
        line: "r2 client me,root 5 10 ssh-ed25519 B0 user two",
        id: "r2",
        kind: SshCertType::Client,
        principals: &["me", "root"],
        valid: (5, 10),
        comment: "user two",
    },
    RequestRow {
        line: "0 client me 18446744073709551615 1 ssh-ed25519 B0",
        id: "0",
        kind: SshCertType::Client,
        principals: &["me"],
        valid: (u64::MAX, 1),
        comment: "",
    },
    // Only the whole word `-` stands for none.
    RequestRow {
        line: "- host -- 1 2 ssh-ed25519 B0 -",
        id: "-",
        kind: SshCertType::Host,
        principals: &["--"],
        valid: (1, 2),
        comment: "-",
    },
    RequestRow {
        line: "a,b host -,- 1 2 ssh-ed25519 B0",
        id: "a,b",
        kind: SshCertType::Host,
        principals: &["-", "-"],
        valid: (1, 2),
        comment: "",
    },
    RequestRow {
        line: "host host client 1 2 ssh-ed25519 B0",
        id: "host",
        kind: SshCertType::Host,
        principals: &["client"],
        valid: (1, 2),
        comment: "",
    },
    // Of Unicode's characters white space is no part of an id; a name has any byte but a space and a comma.
    RequestRow {
        line: "\u{e9}\0\u{200b}\u{feff} client \t,\u{e9},\u{a0},\n 1 2 ssh-ed25519 B0",
        id: "\u{e9}\0\u{200b}\u{feff}",
        kind: SshCertType::Client,
        principals: &["\t", "\u{e9}", "\u{a0}", "\n"],
        valid: (1, 2),
        comment: "",
    },
    RequestRow {
        line: "r1 client b,a,b,A 1 2 ssh-ed25519 B0",
        id: "r1",
        kind: SshCertType::Client,
        principals: &["b", "a", "b", "A"],
        valid: (1, 2),
        comment: "",
    },
    // What follows the first line of a public key is ignored ("Public key line").
    RequestRow {
        line: "r1 host - 0 0 ssh-ed25519 B0 host\nr2 host - 0 0 ssh-ed25519 B0",
        id: "r1",
        kind: SshCertType::Host,
        principals: &[],
        valid: (0, 0),
        comment: "host",
    },
    // The name in front counts for nothing there, nor does white space at the end.
    RequestRow {
        line: "r1 host - 0 0 ssh-rsa B0  host \t\r\n",
        id: "r1",
        kind: SshCertType::Host,
        principals: &[],
        valid: (0, 0),
        comment: " host",
    },
];

fn are_texts(texts: &[Text], wanted: &[&str]) -> bool {
    if texts.len() != wanted.len() {
        return false;
    }
    for (text, wanted) in texts.iter().zip(wanted) {
        if text.as_str() != *wanted {
            return false;
        }
    }
    true
}

fn says(request: &CertRequestLine, row: &RequestRow) -> bool {
    let valid = (request.valid_after.0, request.valid_before.0);
    request.id.as_str() == row.id
        && request.cert_type == row.kind
        && are_texts(request.principals.as_slice(), row.principals)
        && valid == row.valid
        && request.key.comment.as_str() == row.comment
}

/// What the line asks for, where it is a request. It isn't dropped.
type Request = ManuallyDrop<Option<CertRequestLine>>;

fn request_of(alloc: Global, line: &str) -> Result<Request, Fail> {
    Ok(ManuallyDrop::new(CertRequestLine::from_str(alloc, line)?))
}

fn request_of_row(alloc: Global, row: &str) -> Result<Request, Fail> {
    let line = ManuallyDrop::new(row_text(alloc, row)?);
    request_of(alloc, line.as_str())
}

fn is_read(alloc: Global, row: &RequestRow) -> Result<bool, Fail> {
    match &*request_of_row(alloc, row.line)? {
        Some(request) => Ok(says(request, row)),
        None => Ok(false),
    }
}

#[test]
fn reads_what_is_asked_for(rt: HostRuntime) -> Result<(), Fail> {
    for row in &REQUESTS {
        assert!(rt; is_read(rt.alloc(), row)?, "{}", row.line);
    }
    Ok(())
}

/// The key that is asked for is that of the public key line.
fn asks_for(alloc: Global, line: &str) -> Result<bool, Fail> {
    let key = ManuallyDrop::new(SshPublicKey::from_str(alloc, line)?);
    let text = ManuallyDrop::new(format!(in alloc; "id host - 0 0 {line}")?);
    match &*request_of(alloc, text.as_str())? {
        Some(request) => Ok(request.key == *key),
        None => Ok(false),
    }
}

#[test]
fn reads_keys_of_each_kind(rt: HostRuntime) -> Result<(), Fail> {
    for row in &KEY_ROWS {
        assert!(rt; asks_for(rt.alloc(), row.line)?, "{}", row.name);
    }
    Ok(())
}

// Lines that are no requests.
static NONE: [&str; 48] = [
    "",
    " ",
    "r1",
    "r1 host - 0 0",
    "r1 host - 0 0 ",
    "r1 host - 0 0 ssh-ed25519",
    "r1 host - 0 0 ssh-ed25519 ",
    "r1 host - 0 ssh-ed25519 B0 host",
    "r1 host 0 0 ssh-ed25519 B0 host",
    "r1 - 0 0 ssh-ed25519 B0 host",
    "host - 0 0 ssh-ed25519 B0 host",
    // An empty word, or another white space.
    " host - 0 0 ssh-ed25519 B0 host",
    " r1 host - 0 0 ssh-ed25519 B0 host",
    "r1  host - 0 0 ssh-ed25519 B0 host",
    "r1 host  - 0 0 ssh-ed25519 B0 host",
    "r1 host -  0 0 ssh-ed25519 B0 host",
    "r1 host - 0  0 ssh-ed25519 B0 host",
    "r1 host - 0 0  ssh-ed25519 B0 host",
    "r1\thost - 0 0 ssh-ed25519 B0 host",
    "r1 host\t- 0 0 ssh-ed25519 B0 host",
    "r1 host - 0 0\tssh-ed25519 B0 host",
    "r1 host - 0 0 \tssh-ed25519 B0 host",
    // The kind.
    "r1 Host - 0 0 ssh-ed25519 B0 host",
    "r1 user - 0 0 ssh-ed25519 B0 host",
    "r1 hosts - 0 0 ssh-ed25519 B0 host",
    "r1 1 - 0 0 ssh-ed25519 B0 host",
    // The principals.
    "r1 host , 0 0 ssh-ed25519 B0 host",
    "r1 host ,a 0 0 ssh-ed25519 B0 host",
    "r1 host a, 0 0 ssh-ed25519 B0 host",
    "r1 host a,,b 0 0 ssh-ed25519 B0 host",
    "r1 host -, 0 0 ssh-ed25519 B0 host",
    "r1 host a, b 0 0 ssh-ed25519 B0 host",
    // The times.
    "r1 host - 00 0 ssh-ed25519 B0 host",
    "r1 host - 0 05 ssh-ed25519 B0 host",
    "r1 host - +0 0 ssh-ed25519 B0 host",
    "r1 host - 0 -1 ssh-ed25519 B0 host",
    "r1 host - 0x0 0 ssh-ed25519 B0 host",
    "r1 host - 0 5.0 ssh-ed25519 B0 host",
    "r1 host - 0 18446744073709551616 ssh-ed25519 B0 host",
    "r1 host - \u{665} 5 ssh-ed25519 B0 host",
    // The key.
    "r1 host - 0 0 ssh-dss B0 host",
    "r1 host - 0 0 ssh-ed25519 ? host",
    "r1 host - 0 0 ssh-ED25519 B0 host",
    "r1 host - 0 0 ssh-ed25519-cert-v01@openssh.com B0 host",
    "r1 host - 0 0 <n> <c1> host",
    "r1 host - 0 0 no-pty ssh-ed25519 B0 host",
    "r1 host - 0 0 B0 host",
    "r1 host - 0 0 0 ssh-ed25519 B0 host",
];

fn is_none(alloc: Global, line: &str) -> Result<bool, Fail> {
    let request = request_of_row(alloc, line)?;
    Ok(request.is_none())
}

#[test]
fn takes_no_other_line(rt: HostRuntime) -> Result<(), Fail> {
    for line in &NONE {
        assert!(rt; is_none(rt.alloc(), line)?, "{line}");
    }
    Ok(())
}

// White_Space of Unicode's PropList.txt.
static WHITE: [char; 25] = [
    '\t', '\n', '\u{b}', '\u{c}', '\r', ' ', '\u{85}', '\u{a0}', '\u{1680}', '\u{2000}',
    '\u{2001}', '\u{2002}', '\u{2003}', '\u{2004}', '\u{2005}', '\u{2006}', '\u{2007}', '\u{2008}',
    '\u{2009}', '\u{200a}', '\u{2028}', '\u{2029}', '\u{202f}', '\u{205f}', '\u{3000}',
];

fn is_no_id(alloc: Global, front: &str, white: char, end: &str) -> Result<bool, Fail> {
    let line = ManuallyDrop::new(format!(in alloc;
        "{front}{white}{end} host - 0 0 ssh-ed25519 B0 host"
    )?);
    is_none(alloc, line.as_str())
}

#[test]
fn takes_no_white_space_in_an_id(rt: HostRuntime) -> Result<(), Fail> {
    for white in &WHITE {
        for (front, end) in [("", ""), ("r1", ""), ("", "r1"), ("r", "1")] {
            assert!(rt; is_no_id(rt.alloc(), front, *white, end)?, "{white:?}");
        }
    }
    Ok(())
}
