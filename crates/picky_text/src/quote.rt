//! The quoting of a PuTTY public key's comment.

ghost use Rattle.std.specs.Prelude.{◌≡◌, ◌<◌, ◌≤◌, [], ◌++◌, length, OnOk, OnErr, IfNone, IfSome, IfOk};
ghost use Rattle.std.specs.Prelude.{string_bytes};
ghost use Rattle.std.specs.List.{position_or_len};
ghost use Rattle.picky_text.specs.Appended.{AppendsAll, AppendsFront};
ghost use Rattle.picky_text.specs.Quote.{is_special, quote, unquote};
ghost use Rattle.picky_text.specs.inner.Quote.{is_backslash, IsPieceQuoted};

use memchr::{memchr, memchr2};
use std::alloc::{AllocError, Global};

/// Sixteen quotes: where many stand in a row, so many are quoted at once.
const QUOTES: &str = "\"\"\"\"\"\"\"\"\"\"\"\"\"\"\"\"";

const QUOTES_QUOTED: &str = "\\\"\\\"\\\"\\\"\\\"\\\"\\\"\\\"\\\"\\\"\\\"\\\"\\\"\\\"\\\"\\\"";

/// Appends the text, a backslash before each backslash and quote; on an error, a front of that.
/// Refuses: want of memory.
pub fn push_quoted(out: &mut String, text: &str) -> Result<(), AllocError>
    ensures ok { OnOk result (AppendsAll out.old out.new (quote text.now)) }
    ensures err { OnErr result (AppendsFront out.old out.new (quote text.now)) }
{
    let mut rest = text;
    'pieces: while !rest.is_empty() {
        rest = push_piece(out, rest)?;
    }
    Ok(())
}

/// The text that was quoted. Refuses: want of memory.
pub fn unquoted(alloc: Global, text: &str) -> Result<String, AllocError>
    ensures { IfOk result (λ t. string_bytes t ≡ unquote text.now) }
{
    let mut out = String::new(alloc);
    let mut rest = text;
    'pieces: while let Some((kept, more)) = unquoted_piece(rest) {
        out.push_str(kept)?;
        rest = more;
    }
    Ok(out)
}

/// Appends the quoting of the text's front, and gives what follows that.
///
/// The front is sixteen quotes, a quote, a backslash or all before the next of these.
fn push_piece<'t>(out: &mut String, text: &'t str) -> Result<&'t str, AllocError>
    requires { 0 < length text.now }
    ensures ok { IfOk result (λ more. IsPieceQuoted out.old out.new text.now more.now) }
    ensures less { IfOk result (λ more. length more.now < length text.now) }
    ensures err { OnErr result (string_bytes out.new ≡ string_bytes out.old) }
{
    match text.as_bytes()[0] {
        b'"' => {
            if let Some(more) = text.strip_prefix(QUOTES) {
                out.push_str(QUOTES_QUOTED)?;
                return Ok(more);
            }
            let (_, more) = text.split_at(1);
            out.push_str("\\\"")?;
            Ok(more)
        }
        b'\\' => {
            let (_, more) = text.split_at(1);
            out.push_str("\\\\")?;
            Ok(more)
        }
        _ => {
            let (plain, more) = text.split_at(plain_len(text.as_bytes()));
            out.push_str(plain)?;
            Ok(more)
        }
    }
}

/// How many bytes stand before the first backslash or quote.
#[tactic(auto, using(crate::proofs::SearchLemmas::first_or_len))]
fn plain_len(bytes: &[u8]) -> usize
    ensures place { result ≡ position_or_len is_special bytes.now }
    ensures within { result ≤ length bytes.now }
{
    memchr2(b'\\', b'"', bytes).unwrap_or(bytes.len())
}

/// What the text's first backslash stands for, or all before it; and the text after that.
fn unquoted_piece(text: &str) -> Option<(&str, &str)>
    ensures none { IfNone result (unquote text.now ≡ []) }
    ensures parts { IfSome result (λ p. unquote text.now ≡ p.0.now ++ unquote p.1.now) }
    ensures less { IfSome result (λ p. length p.1.now < length text.now) }
{
    match text.as_bytes().split_first() {
        Some((b'\\', after)) => match after.split_first() {
            Some((b'"', _)) => {
                let (_, more) = text.split_at(2);
                Some(("\"", more))
            }
            Some((b'\\', _)) => {
                let (_, more) = text.split_at(2);
                Some(("\\", more))
            }
            Some(_) | None => {
                let (_, more) = text.split_at(1);
                Some(("\\", more))
            }
        },
        Some(_) => Some(text.split_at(unescaped_len(text.as_bytes()))),
        None => None,
    }
}

/// How many bytes stand before the first backslash.
#[tactic(auto, using(crate::proofs::SearchLemmas::first_or_len))]
fn unescaped_len(bytes: &[u8]) -> usize
    ensures place { result ≡ position_or_len is_backslash bytes.now }
    ensures within { result ≤ length bytes.now }
{
    memchr(b'\\', bytes).unwrap_or(bytes.len())
}
