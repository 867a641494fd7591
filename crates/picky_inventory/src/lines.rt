//! The line of what a text means.

ghost use Rattle.std.specs.Prelude.{◌≡◌, ◌∷◌, ◌++◌, [], IfOk, OnOk};
ghost use Rattle.picky_text.specs.Base64.{base64_of};
ghost use Rattle.picky_keys.specs.Blob.{blob_of};
ghost use Rattle.picky_key_text.specs.Key.{public_part};
ghost use Rattle.picky_inventory.specs.Items.{is_blank as is_blank_part, item_line, item_of, kind_of_key, kind_word};

use picky_key_text::{Key, Meaning};
use picky_keys::bytes_of;
use picky_sshkey_blob::public_bytes;
use picky_text::encode;
use picky_wire::NoMemory;
use std::alloc::Global;

/// The part is white space alone.
pub fn is_blank(part: &str) -> bool
    ensures { result ≡ is_blank_part part.now }
{
    part.trim_end().len() == 0
}

/// The line of what a text means: `private` or `public`, the base64 of the public part's blob and that of the comment,
/// parted by spaces, and LF. Refuses: `NoMemory`.
pub fn line_of(alloc: Global, meaning: &Meaning) -> Result<Vec<u8>, NoMemory>
    ensures { IfOk result (λ line. line.items ≡ item_line (item_of meaning.now)) }
{
    let blob = public_blob(alloc, &meaning.key)?;
    words_line(
        alloc,
        kind_text(&meaning.key),
        blob.as_slice(),
        meaning.comment.as_str().as_bytes(),
    )
}

/// The word of a key's kind.
fn kind_text(key: &Key) -> &'static str
    ensures { result.now ≡ kind_word (kind_of_key key.now) }
{
    match key {
        Key::Private(_) => "private",
        Key::Public(_) => "public",
    }
}

/// The blob of a key's public part. Refuses: `NoMemory`.
fn public_blob(alloc: Global, key: &Key) -> Result<Vec<u8>, NoMemory>
    ensures { IfOk result (λ blob. blob.items ≡ blob_of (public_part key.now)) }
{
    match key {
        Key::Private(key) => public_bytes(alloc, key),
        Key::Public(key) => bytes_of(alloc, key),
    }
}

/// A word, and two byte strings in base64, parted by spaces, and LF. Refuses: `NoMemory`.
pub fn words_line(
    alloc: Global,
    word: &str,
    blob: &[u8],
    comment: &[u8],
) -> Result<Vec<u8>, NoMemory>
    ensures { IfOk result (λ line. line.items ≡ word.now ++ 32 ∷ (base64_of blob.now ++ 32 ∷ (base64_of comment.now ++ 10 ∷ []))) }
{
    let mut line = Vec::new(alloc);
    push(&mut line, word.as_bytes())?;
    push_base64(alloc, &mut line, blob)?;
    push_base64(alloc, &mut line, comment)?;
    push(&mut line, b"\n")?;
    Ok(line)
}

/// Adds a space and the base64 of bytes. Refuses: `NoMemory`.
fn push_base64(alloc: Global, line: &mut Vec<u8>, bytes: &[u8]) -> Result<(), NoMemory>
    ensures { OnOk result (line.new.items ≡ line.old.items ++ 32 ∷ base64_of bytes.now) }
{
    match encode(alloc, bytes) {
        Ok(text) => {
            push(line, b" ")?;
            push(line, text.as_bytes())
        }
        Err(_) => Err(NoMemory),
    }
}

/// Adds bytes. Refuses: `NoMemory`.
fn push(line: &mut Vec<u8>, bytes: &[u8]) -> Result<(), NoMemory>
    ensures { OnOk result (line.new.items ≡ line.old.items ++ bytes.now) }
{
    match line.extend_from_slice(bytes) {
        Ok(()) => Ok(()),
        Err(_) => Err(NoMemory),
    }
}
