//! The lines of an inventory of texts.

ghost use Rattle.std.specs.Prelude.{◌≡◌, ◌∷◌, ◌++◌, codes, string_bytes, IfOk, MatchOption, None, Some, OnOk};
ghost use Rattle.picky_text.specs.Base64.{base64_of};
ghost use Rattle.picky_inventory.specs.ItemLine.{cut_at, is_key_end};
ghost use Rattle.picky_inventory_texts.specs.Listed.{is_listed_line as is_line_of, listed_line, sealed_item};

use picky_inventory::{is_item_line, words_line};
use picky_keys::{SshPublicKey, bytes_of};
use picky_wire::NoMemory;
use std::alloc::Global;

/// The word of an encrypted private key.
const SEALED: &str = "sealed";

/// The word of a public key.
const PUBLIC: &str = "public";

/// Whether a line is one of an inventory of texts: `private`, `public` or `sealed`, the base64 of a canonical public blob
/// and that of a text, parted by single spaces, and LF. Refuses: `NoMemory`.
pub fn is_listed_line(alloc: Global, line: &str) -> Result<bool, NoMemory>
    ensures exactly { IfOk result (λ is. is ≡ is_line_of line.now) }
{
    match at_space(line) {
        Some((word, rest)) => {
            if word == SEALED {
                return ends_as_item(alloc, rest);
            }
            is_item_line(alloc, line)
        }
        None => is_item_line(alloc, line),
    }
}

/// What stands before the first space, and what follows it.
fn at_space(text: &str) -> Option<(&str, &str)>
    ensures { MatchOption result (cut_at 32 text.now ≡ None) (λ cut. cut_at 32 text.now ≡ Some (cut.0.now, cut.1.now)) }
{
    text.split_once(' ')
}

/// What follows the word is as in an item's line. Refuses: `NoMemory`.
fn ends_as_item(alloc: Global, rest: &str) -> Result<bool, NoMemory>
    ensures { IfOk result (λ is. is ≡ is_key_end rest.now) }
{
    let line = public_line(alloc, rest)?;
    is_item_line(alloc, line.as_str())
}

/// The line of a public key, whose word this follows. Refuses: `NoMemory`.
fn public_line(alloc: Global, rest: &str) -> Result<String, NoMemory>
    ensures { IfOk result (λ line. string_bytes line ≡ codes "public" ++ 32 ∷ rest.now) }
{
    match String::from_str(alloc, PUBLIC) {
        Ok(mut line) => match line.push(' ') {
            Ok(()) => match line.push_str(rest) {
                Ok(()) => Ok(line),
                Err(_) => Err(NoMemory),
            },
            Err(_) => Err(NoMemory),
        },
        Err(_) => Err(NoMemory),
    }
}

/// The line of what an encrypted private key shows: `sealed`, the base64 of the public key's blob and that of the comment
/// that stands open, parted by spaces, and LF. Refuses: `NoMemory`.
pub fn sealed_line(alloc: Global, key: &SshPublicKey) -> Result<Vec<u8>, NoMemory>
    ensures { IfOk result (λ line. line.items ≡ listed_line (sealed_item key.now)) }
{
    let blob = bytes_of(alloc, &key.inner_key)?;
    words_line(
        alloc,
        SEALED,
        blob.as_slice(),
        key.comment.as_str().as_bytes(),
    )
}
