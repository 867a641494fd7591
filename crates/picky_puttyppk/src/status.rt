//! How a run ends.

ghost use Rattle.std.specs.Prelude.{◌≡◌};
ghost use Rattle.picky_puttyppk.specs.PuttyText.{refusal_status as status_of_refusal};
ghost use Rattle.picky_puttyppk.specs.Run.{source_status as status_of_source};
ghost use Rattle.picky_puttyppk.specs.inner.Comes.{IsOfText};

use picky_input::SourceError;
use picky_ppk::PuttyError;

/// How a run ends.
#[derive(Debug, Drop, PartialEq, Eq)]
pub enum PuttyPpkStatus {
    /// The whole text was written.
    Done,
    /// The text of the source has no file for PuTTY.
    Refused(PuttyError),
    /// The comment is no line: in version 3 it ends in CR.
    CommentNotCarried,
    /// The source failed.
    ReadFault,
    /// `out` failed.
    WriteFault,
    /// Memory ran out.
    NoMemory,
    /// The source has more than 16,777,216 bytes.
    InputTooLong,
    /// The bytes of the source aren't UTF-8.
    InputNotUtf8,
}

impl PuttyPpkStatus {
    ghost use Rattle.picky_puttyppk.specs.Run.{exit_code as exit_code_of};

    /// The number with which the program ends: 0 for Done.
    pub fn exit_code(&self) -> u8
        ensures { result ≡ exit_code_of self.now }
    {
        match self {
            PuttyPpkStatus::Done => 0,
            PuttyPpkStatus::Refused(_) | PuttyPpkStatus::CommentNotCarried => 1,
            PuttyPpkStatus::ReadFault => 3,
            PuttyPpkStatus::WriteFault => 4,
            PuttyPpkStatus::NoMemory => 6,
            PuttyPpkStatus::InputTooLong => 7,
            PuttyPpkStatus::InputNotUtf8 => 8,
        }
    }
}

/// The status of a source that has no text.
pub(crate) fn source_status(e: SourceError) -> PuttyPpkStatus
    ensures { result ≡ status_of_source e }
{
    match e {
        SourceError::ReadFault => PuttyPpkStatus::ReadFault,
        SourceError::InputTooLong => PuttyPpkStatus::InputTooLong,
        SourceError::InputNotUtf8 => PuttyPpkStatus::InputNotUtf8,
        SourceError::NoMemory => PuttyPpkStatus::NoMemory,
    }
}

/// The status of a text that has no file for PuTTY.
pub(crate) fn refusal_status(e: PuttyError) -> PuttyPpkStatus
    ensures status { result ≡ status_of_refusal e }
    ensures of_text { IsOfText result }
{
    match e {
        PuttyError::NoMemory => {
            drop(e);
            PuttyPpkStatus::NoMemory
        }
        e => PuttyPpkStatus::Refused(e),
    }
}
