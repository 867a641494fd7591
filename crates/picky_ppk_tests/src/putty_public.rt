//! PuTTY's public keys: texts of PuTTYgen, and other spellings of a key.

use crate::answers::{gives, is_text, kept};
use crate::reading::is_named;
use picky_key_rows::KEY_ROWS;
use picky_keys::{PublicKey, PublicKeyRef, SshPublicKey};
use picky_ppk::PuttyPublicKey;
use picky_wire::TryClone;
use std::alloc::{AllocError, Global};
use std::mem::ManuallyDrop;
use std::test::Fail;

/// The body of the first Ed25519 key of the table, in rows.
pub static ED25519: &str =
    "AAAAC3NzaC1lZDI1NTE5AAAAIIW5ErFsW9CIpb/ceM1WtA5ZFaU4t08o4uVN3ER9\r\nqDA9";

/// A text with this comment line and these rows.
pub fn text_with(alloc: Global, comment_line: &str, rows: &str) -> Result<String, AllocError> {
    let head = "---- BEGIN SSH2 PUBLIC KEY ----";
    let foot = "---- END SSH2 PUBLIC KEY ----";
    format!(in alloc; "{head}\r\n{comment_line}\r\n{rows}\r\n{foot}\r\n")
}

/// A key whose comment is `old`.
pub fn key_with(alloc: Global, rows: &str) -> Result<ManuallyDrop<PuttyPublicKey>, Fail> {
    let text = kept(text_with(alloc, "Comment: \"old\"", rows))?;
    kept(PuttyPublicKey::from_str(alloc, text.as_str()))
}

/// The key with this comment.
pub fn commented(
    alloc: Global,
    rows: &str,
    comment: &str,
) -> Result<ManuallyDrop<PuttyPublicKey>, Fail> {
    let key = key_with(alloc, rows)?;
    kept(key.with_comment(alloc, comment))
}

/// PuTTY's key of the line is made of OpenSSH's and gives it back, and the text spells it.
fn agrees(alloc: Global, line: &str, text: &str) -> Result<bool, Fail> {
    let key = kept(SshPublicKey::from_str(alloc, line))?;
    let putty = kept(PuttyPublicKey::from_openssh(alloc, &key))?;
    Ok(
        is_spelled(alloc, &putty, text)?
            && is_taken(alloc, &putty, &key)?
            && means(alloc, &putty, &key)?,
    )
}

/// The text with CR LF and with LF says the key, and the one with CR LF is written for it.
fn is_spelled(alloc: Global, putty: &PuttyPublicKey, text: &str) -> Result<bool, Fail> {
    let with_lf = kept(text.replace(alloc, "\r\n", "\n"))?;
    Ok(
        gives(PuttyPublicKey::from_str(alloc, text), putty)?
            && gives(PuttyPublicKey::from_str(alloc, with_lf.as_str()), putty)?
            && is_text(putty.to_string(alloc), text)?,
    )
}

/// PuTTY's key is made of OpenSSH's, which is taken, and is equal to its copy.
fn is_taken(alloc: Global, putty: &PuttyPublicKey, key: &SshPublicKey) -> Result<bool, Fail> {
    let copy = key.try_clone(alloc)?;
    Ok(
        gives(PuttyPublicKey::take_openssh(alloc, copy), putty)?
            && gives(putty.try_clone(alloc), putty)?,
    )
}

/// PuTTY's key gives OpenSSH's back, and its parts.
fn means(alloc: Global, putty: &PuttyPublicKey, key: &SshPublicKey) -> Result<bool, Fail> {
    let inner = kept(putty.to_inner_key(alloc))?;
    let copy = putty.try_clone(alloc)?;
    Ok(
        gives(putty.to_openssh(alloc), key)?
            && gives(copy.into_openssh(alloc), key)?
            && shown(&inner) == key.inner_key()
            && putty.comment() == key.comment.as_str(),
    )
}

/// The key's parts, borrowed.
pub fn shown(key: &PublicKey) -> PublicKeyRef<'_> {
    match key {
        PublicKey::Rsa { e, n } => PublicKeyRef::Rsa { e, n },
        PublicKey::Ec { curve, point } => PublicKeyRef::Ec {
            curve: *curve,
            point,
        },
        PublicKey::Ed { key } => PublicKeyRef::Ed { key },
    }
}

#[test]
fn reads_and_writes_the_texts_of_puttygen(rt: HostRuntime) -> Result<(), Fail> {
    for row in &KEY_ROWS {
        if let Some(text) = row.putty {
            assert!(rt; agrees(rt.alloc(), row.line, text)?, "{}", row.name);
        }
    }
    Ok(())
}

/// The text with whole lines in place of `BEGIN`, `ME` and `END`.
pub fn spelled(alloc: Global, short: &str) -> Result<String, AllocError> {
    let text = short.replace(alloc, "BEGIN", "---- BEGIN SSH2 PUBLIC KEY ----")?;
    let text = ManuallyDrop::new(text);
    let text = ManuallyDrop::new(text.replace(alloc, "ME", "Comment: \"me\"")?);
    text.replace(alloc, "END", "---- END SSH2 PUBLIC KEY ----")
}

// puttygen text -O public-openssh gives the same for each.
static SPELLINGS: [(&str, &str); 7] = [
    ("CR LF once", "BEGIN\r\nME\nROW\nqDA9\nEND\n"),
    ("a footer without LF", "BEGIN\nME\nROW\nqDA9\nEND"),
    ("a row alone", "BEGIN\nME\nROWqDA9\nEND\n"),
    ("shorter rows", "BEGIN\nME\nROW\nq\nD\nA9\nEND\n"),
    ("an empty row", "BEGIN\nME\nROW\n\nqDA9\nEND\n"),
    ("a line more", "BEGIN\nME\nROW\nqDA9\nEND\n?"),
    ("a second footer", "BEGIN\nME\nROW\nqDA9\nEND\nAAAA\nEND\n"),
];

/// The spelling is read as the key.
fn is_read(alloc: Global, short: &str, key: &PuttyPublicKey) -> Result<bool, Fail> {
    let row = "AAAAC3NzaC1lZDI1NTE5AAAAIIW5ErFsW9CIpb/ceM1WtA5ZFaU4t08o4uVN3ER9";
    let text = kept(spelled(alloc, short))?;
    let text = kept(text.replace(alloc, "ROW", row))?;
    gives(PuttyPublicKey::from_str(alloc, text.as_str()), key)
}

#[test]
fn reads_other_spellings_of_a_key(rt: HostRuntime) -> Result<(), Fail> {
    let key = commented(rt.alloc(), ED25519, "me")?;
    for (name, short) in &SPELLINGS {
        assert!(rt; is_read(rt.alloc(), *short, &key)?, "{name}");
    }
    Ok(())
}

/// The rows are written as they are read.
fn is_rewritten(alloc: Global, rows: &str) -> Result<bool, Fail> {
    let text = kept(text_with(alloc, "Comment: \"old\"", rows))?;
    let key = key_with(alloc, rows)?;
    is_text(key.to_string(alloc), text.as_str())
}

/// The key of the rows is the same for OpenSSH as the Ed25519 key.
fn is_ed25519(alloc: Global, rows: &str) -> Result<bool, Fail> {
    let key = key_with(alloc, rows)?;
    let other = key_with(alloc, ED25519)?;
    let wanted = kept(other.to_openssh(alloc))?;
    gives(key.to_openssh(alloc), &*wanted)
}

// The Ed25519 key, and `more` after it: base64 -w0.
#[test]
fn keeps_bytes_after_the_last_field(rt: HostRuntime) -> Result<(), Fail> {
    let rows = "AAAAC3NzaC1lZDI1NTE5AAAAIIW5ErFsW9CIpb/ceM1WtA5ZFaU4t08o4uVN3ER9\r\nqDA9bW9yZQ==";
    assert!(rt; is_rewritten(rt.alloc(), rows)?);
    assert!(rt; is_ed25519(rt.alloc(), rows)?);
    Ok(())
}

/// PuTTY has no key of the line, whose blob its text may hold.
fn is_security_key(alloc: Global, line: &str) -> Result<bool, Fail> {
    let wanted = "NotSupported: SK keys";
    let key = kept(SshPublicKey::from_str(alloc, line))?;
    let body = line.split(' ').nth(1).ok_or("one word")?;
    let putty = commented(alloc, body, key.comment.as_str())?;
    Ok(
        is_named(alloc, PuttyPublicKey::from_openssh(alloc, &key), wanted)?
            && is_named(alloc, putty.to_inner_key(alloc), wanted)?
            && gives(putty.to_openssh(alloc), &*key)?,
    )
}

#[test]
fn has_no_security_keys(rt: HostRuntime) -> Result<(), Fail> {
    for row in &KEY_ROWS {
        if row.putty.is_none() {
            assert!(rt; is_security_key(rt.alloc(), row.line)?, "{}", row.name);
        }
    }
    Ok(())
}
