//! How a run ends.

ghost use Rattle.std.specs.Prelude.{◌≡◌};
ghost use Rattle.picky_policy.specs.Run.{source_status as status_of_source};
ghost use Rattle.picky_policy.specs.declared.status.PolicyStatus.TheVariants as statuses;

use picky_input::SourceError;
use picky_wire::NoMemory;

/// How a run ends.
#[derive(Clone, Copy, Debug, PartialEq, Eq)]
pub enum PolicyStatus {
    /// The offer gets in, and the lines of the grant were written.
    Granted,
    /// It doesn't, and the line of the rule was written.
    Denied,
    /// The line of what is signed was written.
    Message,
    /// The words are neither `decide USER MOMENT` nor `message`.
    Usage,
    /// The offer isn't read.
    BadOffer,
    /// The source failed.
    ReadFault,
    /// `out` failed.
    WriteFault,
    /// The verifier failed, which was asked.
    OutsideFault,
    /// Memory ran out.
    NoMemory,
    /// The source has more than 16,777,216 bytes.
    InputTooLong,
    /// The bytes of the source aren't UTF-8.
    InputNotUtf8,
}

impl PolicyStatus {
    ghost use Rattle.picky_policy.specs.Run.{exit_code as exit_code_of};

    /// The number with which the program ends: 0 for `Granted` and `Message`, 1 for `Denied`.
    pub fn exit_code(self) -> u8
        ensures { result ≡ exit_code_of self }
    {
        match self {
            PolicyStatus::Granted | PolicyStatus::Message => 0,
            PolicyStatus::Denied => 1,
            PolicyStatus::Usage => 2,
            PolicyStatus::BadOffer => 3,
            PolicyStatus::ReadFault => 4,
            PolicyStatus::WriteFault => 5,
            PolicyStatus::OutsideFault => 6,
            PolicyStatus::NoMemory => 7,
            PolicyStatus::InputTooLong => 8,
            PolicyStatus::InputNotUtf8 => 9,
        }
    }
}

impl From<NoMemory> for PolicyStatus {
    ghost from_gives = { λ _ status. status ≡ statuses.NoMemory };

    fn from(_e: NoMemory) -> PolicyStatus {
        PolicyStatus::NoMemory
    }
}

/// The status of a source that has no text.
pub(crate) fn source_status(e: SourceError) -> PolicyStatus
    ensures { result ≡ status_of_source e }
{
    match e {
        SourceError::ReadFault => PolicyStatus::ReadFault,
        SourceError::InputTooLong => PolicyStatus::InputTooLong,
        SourceError::InputNotUtf8 => PolicyStatus::InputNotUtf8,
        SourceError::NoMemory => PolicyStatus::NoMemory,
    }
}
