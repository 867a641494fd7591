//! A key text with another comment.

ghost use Rattle.std.specs.Prelude.{IfOk};
ghost use Rattle.picky_wire_base.specs.Gives.{Gives};
ghost use Rattle.picky_suite.specs.Meanings.{plain};
ghost use Rattle.picky_changed.specs.Comment.{IsCommented};
ghost use Rattle.picky_c.specs.Comment.{commented as commented_of};

use crate::error::{PickyError, refusal};
use picky_changed::with_comment;
use picky_suite::PlainSuite;
use picky_utf8::as_text;
use std::alloc::Global;

/// The text with another comment.
///
/// Refuses, in order: `TextNotUtf8`, `CommentNotUtf8`, and as `picky_changed::with_comment`.
pub fn commented(alloc: Global, text: &[u8], comment: &[u8]) -> Result<Vec<u8>, PickyError>
    ensures gives { Gives PickyError.NoMemory (λ bytes. bytes.items) result (commented_of text.now comment.now) }
    ensures means { IfOk result (λ bytes. IsCommented plain comment.now text.now bytes.items) }
{
    let text = match as_text(text) {
        Some(text) => text,
        None => return Err(PickyError::TextNotUtf8),
    };
    let comment = match as_text(comment) {
        Some(comment) => comment,
        None => return Err(PickyError::CommentNotUtf8),
    };
    let mut suite = PlainSuite::new();
    match with_comment(alloc, &mut suite, text, comment) {
        Ok(text) => Ok(text.into_string().into_bytes()),
        Err(e) => Err(refusal(e)),
    }
}
