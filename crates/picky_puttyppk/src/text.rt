//! The text of a file as PuTTY's own programs write it.

ghost use Rattle.std.specs.Prelude.{◌≡◌, ◌++◌, List, ℕ, IfErr, IfOk};
ghost use Rattle.picky_wire_base.specs.Gives.{Gives};
ghost use Rattle.picky_suite.specs.Meanings.{Meanings};
ghost use Rattle.picky_ppk_file.specs.File.{version_of};
ghost use Rattle.picky_ppk_file.specs.Written.{line_end_of};
ghost use Rattle.picky_ppk.specs.Checked.{ppk_meaning};
ghost use Rattle.picky_ppk.specs.Mac.{CarriesMac};
ghost use Rattle.picky_puttyppk.specs.PuttyText.{IsForPutty, IsOf, ends_in_cr as ends_in_cr_of};
ghost use Rattle.picky_puttyppk.specs.PuttyText.{file_for_putty as file_for_putty_of};
ghost use Rattle.picky_puttyppk.specs.PuttyText.{has_lf as has_lf_in, is_line as is_line_of};
ghost use Rattle.picky_puttyppk.specs.PuttyText.{text_for_putty as text_for_putty_of};
ghost use Rattle.picky_puttyppk.specs.PuttyText.{text_in_lines as text_in_lines_of};
ghost use Rattle.picky_puttyppk.specs.inner.Comes.{IsOfText};

use crate::status::{PuttyPpkStatus, refusal_status};
use picky_ppk::{Ppk, PpkVersion};
use picky_suite::Suite;
use picky_wire::Text;
use std::alloc::Global;

/// The text of the same file as PuTTY's own programs write it: an Ed25519 secret is a string of its 32 bytes.
///
/// Refuses, in order: `Refused` with what the text is refused for, as `Ppk::from_str`, and with what `Ppk::for_putty` refuses;
/// `CommentNotCarried`; `Refused` as `Ppk::to_string`.
#[tactic(auto, unfolding(crate::specs::PuttyText::text_for_putty))]
pub fn text_for_putty<S: Suite>(
    alloc: Global,
    suite: &S,
    text: &str,
) -> Result<Text, PuttyPpkStatus>
    ensures gives { Gives PuttyPpkStatus.NoMemory (λ made. made) result (text_for_putty_of (S.meanings suite.now) text.now) }
    ensures means { IfOk result (λ made. IsOf (S.meanings suite.now) text.now made) }
    ensures of_text { IfErr result IsOfText }
{
    match Ppk::from_str(alloc, suite, text) {
        Ok(ppk) => {
            let made = file_for_putty(alloc, suite, &ppk);
            drop(ppk);
            made
        }
        Err(e) => Err(refusal_status(e)),
    }
}

/// The text of the file for PuTTY. Refuses as above.
#[tactic(auto, using(crate::proofs::VersionLemmas::version_stays))]
fn file_for_putty<S: Suite>(alloc: Global, suite: &S, ppk: &Ppk) -> Result<Text, PuttyPpkStatus>
    ensures gives { Gives PuttyPpkStatus.NoMemory (λ made. made) result (file_for_putty_of (S.meanings suite.now) ppk.now) }
    ensures means { IfOk result (λ made. IsForPutty (S.meanings suite.now) ppk.now made) }
    ensures of_text { IfErr result IsOfText }
{
    match ppk.for_putty(alloc, suite) {
        Ok(made) => {
            let text = text_in_lines(alloc, &made);
            drop(made);
            text
        }
        Err(e) => Err(refusal_status(e)),
    }
}

/// The text of a file, whose comment has to be a line. Refuses, in order: `CommentNotCarried`; `Refused`.
#[tactic(auto, unfolding(crate::specs::PuttyText::text_in_lines), using(crate::proofs::LineLemmas::lines))]
fn text_in_lines(alloc: Global, ppk: &Ppk) -> Result<Text, PuttyPpkStatus>
    ensures gives { Gives PuttyPpkStatus.NoMemory (λ text. text) result (text_in_lines_of ppk.now) }
    ensures read_back { IfOk result (λ text. (m : Meanings) (more : List ℕ) → CarriesMac m ppk.now
        → ppk_meaning m (text ++ more) ≡ Ok ppk.now) }
    ensures of_text { IfErr result IsOfText }
{
    if !is_line(ppk.version(), ppk.comment()) {
        return Err(PuttyPpkStatus::CommentNotCarried);
    }
    match ppk.to_string(alloc) {
        Ok(text) => Ok(text),
        Err(e) => Err(refusal_status(e)),
    }
}

/// Whether the comment is a line: it has no LF, and in version 3 no CR at its end.
fn is_line(version: PpkVersion, comment: &str) -> bool
    ensures { result ≡ is_line_of (line_end_of version) comment.now }
{
    match version {
        PpkVersion::V2 => !has_lf(comment),
        PpkVersion::V3 => !has_lf(comment) && !ends_in_cr(comment),
    }
}

fn has_lf(text: &str) -> bool
    ensures { result ≡ has_lf_in text.now }
{
    text.as_bytes().contains(&b'\n')
}

fn ends_in_cr(text: &str) -> bool
    ensures { result ≡ ends_in_cr_of text.now }
{
    match text.as_bytes().last() {
        Some(last) => *last == b'\r',
        None => false,
    }
}
