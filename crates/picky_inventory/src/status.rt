//! How a run ends.

ghost use Rattle.std.specs.Prelude.{◌≡◌};
ghost use Rattle.picky_inventory.specs.Run.{source_status as status_of_source};
ghost use Rattle.picky_inventory.specs.inner.Comes.{unread_status as status_of_unread};

use crate::listing::Unread;
use picky_input::SourceError;
use picky_key_text::ReadError;
use picky_ppk_parts::PuttyError;
use picky_sshkey::SshPrivateKeyError;

/// How a run ends.
#[derive(Debug, Drop, PartialEq, Eq)]
pub enum InventoryStatus {
    /// The whole text was written.
    Done,
    /// This part, counted from 0, isn't read.
    Refused(usize, ReadError),
    /// The words are neither `list` alone nor `merge` alone.
    Usage,
    /// The source failed.
    ReadFault,
    /// `out` failed.
    WriteFault,
    /// The suite failed, which was asked for the first part that isn't read.
    OutsideFault,
    /// Memory ran out.
    NoMemory,
    /// The source has more than 16,777,216 bytes.
    InputTooLong,
    /// The bytes of the source aren't UTF-8.
    InputNotUtf8,
    /// This line, counted from 1 over the left text and then the right one, is no item's, doesn't follow the line before
    /// it in its text, or lacks its LF.
    BadLine(usize),
}

impl InventoryStatus {
    ghost use Rattle.picky_inventory.specs.Run.{exit_code as exit_code_of};

    /// The number with which the program ends: 0 for Done.
    pub fn exit_code(&self) -> u8
        ensures { result ≡ exit_code_of self.now }
    {
        match self {
            InventoryStatus::Done => 0,
            InventoryStatus::Refused(_, _) | InventoryStatus::BadLine(_) => 1,
            InventoryStatus::Usage => 2,
            InventoryStatus::ReadFault => 3,
            InventoryStatus::WriteFault => 4,
            InventoryStatus::OutsideFault => 5,
            InventoryStatus::NoMemory => 6,
            InventoryStatus::InputTooLong => 7,
            InventoryStatus::InputNotUtf8 => 8,
        }
    }
}

/// The status of a source that has no text.
pub(crate) fn source_status(e: SourceError) -> InventoryStatus
    ensures { result ≡ status_of_source e }
{
    match e {
        SourceError::ReadFault => InventoryStatus::ReadFault,
        SourceError::InputTooLong => InventoryStatus::InputTooLong,
        SourceError::InputNotUtf8 => InventoryStatus::InputNotUtf8,
        SourceError::NoMemory => InventoryStatus::NoMemory,
    }
}

/// The status of a part that isn't read.
pub(crate) fn unread_status(part: usize, error: ReadError) -> InventoryStatus
    ensures { result ≡ status_of_unread part error }
{
    match error {
        ReadError::NoMemory => {
            drop(error);
            InventoryStatus::NoMemory
        }
        ReadError::Private(SshPrivateKeyError::SuiteFault)
        | ReadError::Putty(PuttyError::SuiteFault) => {
            drop(error);
            InventoryStatus::OutsideFault
        }
        error => InventoryStatus::Refused(part, error),
    }
}
