//! How a run ends.

ghost use Rattle.std.specs.Prelude.{◌≡◌};
ghost use Rattle.picky_ledger.specs.Run.{source_status as status_of_source, text_status as status_of_text};

use crate::ledger::LedgerTextError;
use picky_input::SourceError;
use picky_keys::SshPublicKeyError;

/// How a run ends.
#[derive(Debug, Drop, PartialEq, Eq)]
pub enum LedgerStatus {
    /// The new ledger and all replies were written.
    Done,
    /// The source has fewer than two lines that are exactly `%%`.
    BadInput,
    /// This line of the ledger's text, counted from 1, is the first at which that is none.
    BadLedger(usize),
    /// The issuer's public key line is refused.
    BadIssuer(SshPublicKeyError),
    /// There are fewer than 32 fresh bytes for each request.
    FreshTooShort,
    /// The new ledger's text has 2^32 bytes or more.
    TooLong,
    /// The source failed.
    ReadFault,
    /// `out` failed.
    WriteFault,
    /// The device that signs failed.
    OutsideFault,
    /// Memory ran out.
    NoMemory,
    /// The source has more than 16,777,216 bytes.
    InputTooLong,
    /// The bytes of the source aren't UTF-8.
    InputNotUtf8,
}

impl LedgerStatus {
    ghost use Rattle.picky_ledger.specs.Run.{exit_code as exit_code_of};

    /// The number with which the program ends: 0 for Done.
    pub fn exit_code(&self) -> u8
        ensures { result ≡ exit_code_of self.now }
    {
        match self {
            LedgerStatus::Done => 0,
            LedgerStatus::BadInput => 1,
            LedgerStatus::BadLedger(_) => 2,
            LedgerStatus::BadIssuer(_) => 3,
            LedgerStatus::FreshTooShort => 4,
            LedgerStatus::TooLong => 5,
            LedgerStatus::ReadFault => 6,
            LedgerStatus::WriteFault => 7,
            LedgerStatus::OutsideFault => 8,
            LedgerStatus::NoMemory => 9,
            LedgerStatus::InputTooLong => 10,
            LedgerStatus::InputNotUtf8 => 11,
        }
    }
}

/// The status of a source that has no text.
pub(crate) fn source_status(e: SourceError) -> LedgerStatus
    ensures { result ≡ status_of_source e }
{
    match e {
        SourceError::ReadFault => LedgerStatus::ReadFault,
        SourceError::InputTooLong => LedgerStatus::InputTooLong,
        SourceError::InputNotUtf8 => LedgerStatus::InputNotUtf8,
        SourceError::NoMemory => LedgerStatus::NoMemory,
    }
}

/// The status of a text that is no ledger's.
pub(crate) fn text_status(e: LedgerTextError) -> LedgerStatus
    ensures { result ≡ status_of_text e }
{
    match e {
        LedgerTextError::BadLine(line) => LedgerStatus::BadLedger(line),
        LedgerTextError::TooLong => LedgerStatus::TooLong,
        LedgerTextError::NoMemory => LedgerStatus::NoMemory,
    }
}
