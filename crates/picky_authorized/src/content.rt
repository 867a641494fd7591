//! What one line says.

ghost use Rattle.std.specs.Prelude.{◌≡◌, ◌≢◌, ◌^◌, ◌<◌, true, false, Some, None, IfOk, IfSome, IfNone, length};
ghost use Rattle.picky_keys.specs.LineRefusal.{line_meaning};
ghost use Rattle.picky_authorized.specs.Lines.{begins_with_key as begins_so, content_in};
ghost use Rattle.picky_authorized.specs.Lines.{content_of as content_of_line, key_content};
ghost use Rattle.picky_authorized.specs.Lines.{optioned_line as optioned_line_of, without_blanks};

use crate::auth_option::AuthOption;
use crate::entry::AuthContent;
use crate::known::are_fit;
use crate::options::options_of;
use crate::quotes::{PartEnd, split_outside};
use picky_keys::{SshPublicKey, SshPublicKeyError, names_key_type};
use picky_text::split_word;
use picky_wire::{List, NoMemory};
use std::alloc::Global;

/// The text without the spaces and tabs in front.
pub fn strip_blanks(text: &str) -> &str
    ensures { result.now ≡ without_blanks text.now }
{
    let mut rest = text;
    'blanks: while let Some(more) = strip_blank(rest) {
        rest = more;
    }
    rest
}

/// What follows the space or tab in front.
fn strip_blank(text: &str) -> Option<&str>
    ensures none { IfNone result (without_blanks text.now ≡ text.now) }
    ensures some { IfSome result (λ rest. without_blanks text.now ≡ without_blanks rest.now) }
    ensures shorter { IfSome result (λ rest. length rest.now < length text.now) }
{
    match text.strip_prefix(' ') {
        Some(rest) => Some(rest),
        None => text.strip_prefix('\t'),
    }
}

/// What a line says, whose spaces and tabs in front are dropped. An empty line and one that begins with `#` say nothing.
/// Refuses: `NoMemory`.
pub fn content_of(alloc: Global, line: &str) -> Result<Option<AuthContent>, NoMemory>
    requires { length line.now < 2 ^ 32 }
    ensures { IfOk result (λ content. content ≡ content_in line.now) }
{
    if says_nothing(line.as_bytes()) {
        return Ok(None);
    }
    let content = content_said(alloc, line)?;
    Ok(Some(content))
}

/// The line is empty, or begins with `#`.
fn says_nothing(line: &[u8]) -> bool
    ensures nothing { result ≡ true → content_in line.now ≡ None }
    ensures something { result ≡ false → content_in line.now ≡ Some (content_of_line line.now) }
{
    match line {
        [] => true,
        [byte, ..] => *byte == b'#',
    }
}

/// What another line says. Refuses: `NoMemory`.
#[tactic(auto, unfolding(crate::specs::Lines::content_of))]
fn content_said(alloc: Global, line: &str) -> Result<AuthContent, NoMemory>
    requires { length line.now < 2 ^ 32 }
    ensures { IfOk result (λ content. content ≡ content_of_line line.now) }
{
    if begins_with_key(line) {
        return key_behind(alloc, List::new(alloc), line);
    }
    optioned_line(alloc, line)
}

/// The line begins with the name of a key type.
fn begins_with_key(line: &str) -> bool
    ensures { result ≡ begins_so line.now }
{
    let (word, _) = split_word(line.as_bytes());
    names_key_type(word)
}

/// What a line says that begins with options. Refuses: `NoMemory`.
fn optioned_line(alloc: Global, line: &str) -> Result<AuthContent, NoMemory>
    requires { length line.now < 2 ^ 32 }
    ensures { IfOk result (λ content. content ≡ optioned_line_of line.now) }
{
    let (front, rest) = split_outside(line, PartEnd::Blank);
    match options_of(alloc, front)? {
        Some(options) => {
            if !are_fit(options.as_slice()) {
                return Ok(AuthContent::BadOptions);
            }
            key_behind(alloc, options, strip_blanks(rest))
        }
        None => Ok(AuthContent::BadOptions),
    }
}

/// The key of a public line, with its options, or the line's refusal. Refuses: `NoMemory`.
fn key_behind(alloc: Global, options: List<AuthOption>, line: &str) -> Result<AuthContent, NoMemory>
    ensures { IfOk result (λ content. content ≡ key_content options (line_meaning line.now)) }
{
    match SshPublicKey::from_str(alloc, line) {
        Ok(key) => Ok(AuthContent::Key { options, key }),
        Err(e) => {
            drop(options);
            unread(e)
        }
    }
}

/// The refusal of a public line. Refuses: `NoMemory`, in place of the line's.
fn unread(e: SshPublicKeyError) -> Result<AuthContent, NoMemory>
    ensures own { IfOk result (λ content. (content ≡ AuthContent.Unread e) × (e ≢ SshPublicKeyError.NoMemory)) }
{
    match e {
        SshPublicKeyError::NoMemory => Err(NoMemory),
        e => Ok(AuthContent::Unread(e)),
    }
}
