//! Keys of each kind, with options before them and without.

use picky_authorized::{AuthContent, AuthEntry, AuthOption, read_keys};
use picky_key_rows::KEY_ROWS;
use picky_keys::{SshPublicKey, SshPublicKeyError};
use std::alloc::Global;
use std::mem::ManuallyDrop;
use std::test::Fail;

/// The key is written as this line, whose end is CR LF.
fn is_line(alloc: Global, key: &SshPublicKey, line: &str) -> Result<bool, SshPublicKeyError> {
    let written = ManuallyDrop::new(key.to_string(alloc)?);
    Ok(written.as_str().strip_suffix("\r\n") == Some(line))
}

/// The entry has one option of this name, where there is a name, and the line's key.
fn is_entry(
    alloc: Global,
    entry: &AuthEntry,
    name: Option<&str>,
    line: &str,
) -> Result<bool, SshPublicKeyError> {
    match &entry.content {
        AuthContent::Key { options, key } => {
            Ok(are_named(options.as_slice(), name) && is_line(alloc, key, line)?)
        }
        AuthContent::BadOptions | AuthContent::Unread(_) => Ok(false),
    }
}

fn are_named(options: &[AuthOption], name: Option<&str>) -> bool {
    match (options, name) {
        ([], None) => true,
        ([option], Some(name)) => option.is_named(name) && option.value.is_none(),
        _ => false,
    }
}

/// The line's key is read without options and with one, of the lines 1 and 2.
fn is_read(alloc: Global, line: &str) -> Result<bool, Fail> {
    let mut text = ManuallyDrop::new(String::from_str(alloc, line)?);
    text.push_str("\nno-pty ")?;
    text.push_str(line)?;
    let entries = ManuallyDrop::new(read_keys(alloc, text.as_str())?);
    match entries.as_slice() {
        [one, two] => Ok(
            one.line == 1
                && is_entry(alloc, one, None, line)?
                && two.line == 2
                && is_entry(alloc, two, Some("no-pty"), line)?,
        ),
        _ => Ok(false),
    }
}

// The lines of ssh-keygen, each of which is the one spelling of its key.
#[test]
fn reads_keys_of_each_kind(rt: HostRuntime) -> Result<(), Fail> {
    for row in &KEY_ROWS {
        assert!(rt; is_read(rt.alloc(), row.line)?, "{}", row.name);
    }
    Ok(())
}
