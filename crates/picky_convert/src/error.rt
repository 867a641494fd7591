//! How a run ends.

ghost use Rattle.std.specs.Prelude.{◌≡◌};

use picky_target::ConvertError;

/// How a run ends.
#[derive(Debug, Drop, PartialEq, Eq)]
pub enum Status {
    /// The whole text was written.
    Done,
    /// The source's text comes to nothing, for this reason.
    Refused(ConvertError),
    /// The words name no command.
    Usage,
    /// The source failed.
    ReadFault,
    /// `out` failed.
    WriteFault,
    /// The suite failed, which was asked to open the key text or to seal what is written; or the signer.
    OutsideFault,
    /// Memory ran out.
    NoMemory,
    /// The source has more than 16,777,216 bytes.
    InputTooLong,
    /// The bytes of the source aren't UTF-8.
    InputNotUtf8,
}

impl Status {
    ghost use Rattle.picky_convert.specs.Report.{exit_code as exit_code_of};

    /// The number with which the program ends: 0 for Done.
    pub fn exit_code(&self) -> u8
        ensures { result ≡ exit_code_of self.now }
    {
        match self {
            Status::Done => 0,
            Status::Refused(_) => 1,
            Status::Usage => 2,
            Status::ReadFault => 3,
            Status::WriteFault => 4,
            Status::OutsideFault => 5,
            Status::NoMemory => 6,
            Status::InputTooLong => 7,
            Status::InputNotUtf8 => 8,
        }
    }
}
