//! What the entries of a text say, in short lines that a row can hold.

use picky_authorized::{AuthContent, AuthEntry, AuthOption, read_keys};
use picky_keys::SshBasePublicKey;
use std::alloc::{AllocError, Global};
use std::mem::ManuallyDrop;
use std::test::Fail;

// base64.b64encode(s(b"ssh-ed25519") + s(bytes(32))), with s = lambda b: len(b).to_bytes(4, "big") + b of python3. So are the
// blobs of rows, of the bytes beside them.
const B0: &str = "AAAAC3NzaC1lZDI1NTE5AAAAIAAAAAAAAAAAAAAAAAAAAAAAAAAAAAAAAAAAAAAAAAAA";

/// The row's text has these entries: `B0` in the text stands for the blob of the key of 32 zero bytes, and in what is wanted
/// for that key.
pub fn has_entries(alloc: Global, row: &str, wanted: &str) -> Result<bool, Fail> {
    let text = ManuallyDrop::new(row.replace(alloc, "B0", B0)?);
    let entries = ManuallyDrop::new(read_keys(alloc, text.as_str())?);
    let shown = ManuallyDrop::new(entries_text(alloc, entries.as_slice())?);
    Ok(shown.as_str() == wanted)
}

/// A line for each entry: its number, and then its options in brackets, its key and its comment; or `bad`; or `unread` and the
/// refusal.
pub fn entries_text(alloc: Global, entries: &[AuthEntry]) -> Result<String, AllocError> {
    let mut text = String::new(alloc);
    for entry in entries {
        write!(text, "{} ", entry.line)?;
        push_content(&mut text, &entry.content)?;
        text.push_str("\n")?;
    }
    Ok(text)
}

fn push_content(text: &mut String, content: &AuthContent) -> Result<(), AllocError> {
    match content {
        AuthContent::Key { options, key } => {
            push_options(text, options.as_slice())?;
            let name = key_name(&key.inner_key);
            write!(text, "{name} {}", key.comment.as_str())?;
            Ok(())
        }
        AuthContent::BadOptions => text.push_str("bad"),
        AuthContent::Unread(e) => {
            write!(text, "unread {e:?}")?;
            Ok(())
        }
    }
}

fn push_options(text: &mut String, options: &[AuthOption]) -> Result<(), AllocError> {
    for option in options {
        text.push_str("[")?;
        text.push_str(option.name.as_str())?;
        if let Some(value) = &option.value {
            text.push_str("=")?;
            text.push_str(value.as_str())?;
        }
        text.push_str("] ")?;
    }
    Ok(())
}

fn key_name(key: &SshBasePublicKey) -> &'static str {
    let zero = ManuallyDrop::new(SshBasePublicKey::Ed { key: [0; 32] });
    if *key == *zero {
        return "B0";
    }
    "another"
}
