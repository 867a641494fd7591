//! Why a PuTTY public key's text, or the blob that it holds, is refused.

use crate::answers::{kept, refuses};
use crate::putty_public::{key_with, spelled};
use picky_keys::SshPublicKeyError;
use picky_ppk::{PuttyError, PuttyPublicKey};
use picky_wire::IoKind;
use std::alloc::{AllocGlobal, Global};
use std::mem::ManuallyDrop;
use std::process::Abort;
use std::test::Fail;

// docs/FORMATS.md, "PuTTY public key", has the lines, and RFC 4648, section 3.5, canonical base64.
static OTHER_HEADERS: [(&str, &str); 4] = [
    ("a line of OpenSSH", "ssh-ed25519 AAAA me"),
    ("an empty line first", "\nBEGIN\nME\nAAAA\nEND\n"),
    ("a space more", "BEGIN \nME\nAAAA\nEND\n"),
    ("CR and no LF", "BEGIN\r"),
];

static OTHER_COMMENT_LINES: [(&str, &str); 5] = [
    ("none, as PuTTYgen has it", "BEGIN\nAAAA\nEND\n"),
    ("another case", "BEGIN\ncomment: \"me\"\nAAAA\nEND\n"),
    ("no space", "BEGIN\nComment:\"me\"\nAAAA\nEND\n"),
    ("no quote", "BEGIN\nComment: me\nAAAA\nEND\n"),
    ("one quote alone", "BEGIN\nComment: \"me\nAAAA\nEND\n"),
];

static CUT_TEXTS: [(&str, &str); 7] = [
    ("no line", ""),
    ("a header alone", "BEGIN\r\n"),
    ("no line after the comment line", "BEGIN\nME"),
    ("no footer", "BEGIN\nME\nAAAA\n"),
    ("no footer and no base64", "BEGIN\nME\n?\n"),
    ("a footer with CR and no LF", "BEGIN\nME\nAAAA\nEND\r"),
    ("a footer with a space more", "BEGIN\nME\nAAAA\nEND \n"),
];

static OTHER_ROWS: [(&str, &str); 3] = [
    ("another character", "BEGIN\nME\nAA?A\nEND\n"),
    ("bits that are not canonical", "BEGIN\nME\nZh==\nEND\n"),
    ("a space at the end", "BEGIN\nME\nAAAA \nEND\n"),
];

fn is_refused(alloc: Global, short: &str, why: &PuttyError) -> Result<bool, Fail> {
    let text = kept(spelled(alloc, short))?;
    Ok(refuses(PuttyPublicKey::from_str(alloc, text.as_str()), why))
}

/// Each row's text is refused for this.
fn are_refused(
    rt: &(impl Abort + AllocGlobal),
    rows: &[(&str, &str)],
    why: PuttyError,
) -> Result<(), Fail> {
    let why = ManuallyDrop::new(why);
    for (name, short) in rows {
        assert!(rt; is_refused(rt.alloc(), *short, &why)?, "{name}");
    }
    Ok(())
}

#[test]
fn refuses_texts_in_order(rt: HostRuntime) -> Result<(), Fail> {
    are_refused(&rt, &OTHER_HEADERS, PuttyError::InvalidPublicKeyContainer)?;
    are_refused(
        &rt,
        &OTHER_COMMENT_LINES,
        PuttyError::InvalidPublicKeyComment,
    )?;
    are_refused(&rt, &CUT_TEXTS, PuttyError::EndOfInput)?;
    are_refused(&rt, &OTHER_ROWS, PuttyError::InvalidPublicKeyData)
}

// RFC 4251, section 5, has strings, and RFC 8709, section 4, the 32 bytes: printf BLOB | base64 -w0.
static REFUSED_BLOBS: [(&str, &str, SshPublicKeyError); 6] = [
    (
        "no byte",
        "",
        SshPublicKeyError::IoError(IoKind::UnexpectedEnd),
    ),
    (
        "a key that is cut",
        "AAAAC3NzaC1lZDI1NTE5AAAAIAEC",
        SshPublicKeyError::IoError(IoKind::UnexpectedEnd),
    ),
    (
        "a name that is no UTF-8",
        "AAAAAsMo",
        SshPublicKeyError::InvalidUtf8,
    ),
    (
        "another name",
        "AAAAB3NzaC1kc3M=",
        SshPublicKeyError::UnknownKeyType,
    ),
    (
        "a key of 31 bytes",
        "AAAAC3NzaC1lZDI1NTE5AAAAH2tra2tra2tra2tra2tra2tra2tra2tra2tra2tra2s=",
        SshPublicKeyError::KeyError,
    ),
    (
        "a key of a device that is cut",
        "AAAAGnNrLXNzaC1lZDI1NTE5QG9wZW5zc2guY29tAAAAIAE=",
        SshPublicKeyError::IoError(IoKind::UnexpectedEnd),
    ),
];

/// The answer's error wraps this one.
fn wraps<T: Drop>(answer: Result<T, PuttyError>, wanted: &SshPublicKeyError) -> bool {
    let answer = ManuallyDrop::new(answer);
    match &*answer {
        Err(PuttyError::SshPublicKey(why)) => *why == *wanted,
        Ok(_) | Err(_) => false,
    }
}

#[test]
fn refuses_blobs_for_their_reason(rt: HostRuntime) -> Result<(), Fail> {
    for (name, rows, why) in &REFUSED_BLOBS {
        let key = key_with(rt.alloc(), *rows)?;
        assert!(rt; wraps(key.to_openssh(rt.alloc()), why), "{name}");
        assert!(rt; wraps(key.to_inner_key(rt.alloc()), why), "{name}");
    }
    Ok(())
}
