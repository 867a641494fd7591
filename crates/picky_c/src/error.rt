//! Why a call hands out no bytes.

ghost use Rattle.std.specs.Prelude.{◌≡◌};
ghost use Rattle.picky_c.specs.Calls.{table_refusal as table_refusal_of};
ghost use Rattle.picky_c.specs.Refusal.{refusal_of};

use picky_agent_bytes::AgentBytesError;
use picky_ask::TableError;
use picky_key_text::ReadError;
use picky_policy::Denial;
use picky_ppk::PuttyError;
use picky_sshkey::SshPrivateKeyError;
use picky_target::ConvertError;

/// Why a call hands out no bytes.
#[derive(Drop)]
pub enum PickyError {
    /// The buffer has no room for the bytes and a zero behind them.
    BufferTooSmall,
    /// Memory ran out.
    NoMemory,
    /// The key text isn't UTF-8.
    TextNotUtf8,
    /// A passphrase isn't UTF-8.
    PassNotUtf8,
    /// The comment isn't UTF-8.
    CommentNotUtf8,
    /// The number names no target.
    NoSuchTarget,
    /// The number names no part.
    NoSuchPart,
    /// The key text is to be opened, or what is written to be sealed: that takes a cipher, and there is none.
    NoCipher,
    /// The answers lack one.
    Asked,
    /// The numbers name no way to seal.
    NoSuchSealing,
    /// The list ends before the place.
    NoSuchPlace,
    /// The key has no option at the place.
    NoSuchOption,
    /// The line has no key.
    NoKey,
    /// The issuer's text isn't UTF-8.
    IssuerNotUtf8,
    /// A word isn't UTF-8.
    WordNotUtf8,
    /// The words are no options with their values, or ask for what there isn't.
    BadWords,
    /// The authorized keys aren't UTF-8.
    AuthorizedNotUtf8,
    /// The offer isn't UTF-8.
    OfferNotUtf8,
    /// The user's name isn't UTF-8.
    UserNotUtf8,
    /// The message has no bytes.
    NoMessage,
    /// The message has more than 262,144 bytes.
    MessageTooLong,
    /// The message adds no identity.
    NotAdd,
    /// The signature has 2^32 bytes or more.
    SignatureTooLong,
    /// The ledger isn't UTF-8.
    LedgerNotUtf8,
    /// The requests aren't UTF-8.
    RequestsNotUtf8,
    /// A line is refused.
    BadLine,
    /// The left inventory isn't UTF-8.
    LeftNotUtf8,
    /// The right inventory isn't UTF-8.
    RightNotUtf8,
    /// The answers are none.
    Answers(AnswersError),
    /// The key text is refused, or has no text for the target.
    Refused(ConvertError),
    /// The offer is denied.
    Denied(Denial),
    /// The bytes are no state of an agent.
    State(AgentBytesError),
}

/// Why answers are none.
#[derive(Clone, Copy)]
pub enum AnswersError {
    /// They end where a string of an entry should begin, or in the four bytes of its length.
    EndsInEntry,
    /// A length says more bytes than are left.
    LengthPastEnd,
    /// A head is none of a known question.
    NoQuestion,
    /// An answer has another length than its question wants.
    WrongLength,
    /// An answer contradicts another entry.
    Contradiction,
    /// The next entry answers another question than the one that is asked.
    Misplaced,
    /// A part of the question that is asked has 2^32 bytes or more, so no bytes say it.
    TooLong,
    /// A verdict is one byte, and neither 0 nor 1.
    UnknownByte,
}

/// The refusal of answers that are no table, where want of memory is the outer want.
pub fn table_refusal(e: TableError) -> PickyError
    ensures { result ≡ table_refusal_of e }
{
    match e {
        TableError::EndsInEntry => PickyError::Answers(AnswersError::EndsInEntry),
        TableError::LengthPastEnd => PickyError::Answers(AnswersError::LengthPastEnd),
        TableError::NoQuestion => PickyError::Answers(AnswersError::NoQuestion),
        TableError::NoMemory => PickyError::NoMemory,
    }
}

/// A refusal of the conversion as the call's, where want of memory is the outer want, and the suite's fault that of a cipher.
pub fn refusal(e: ConvertError) -> PickyError
    ensures { result ≡ refusal_of e }
{
    match e {
        ConvertError::NoMemory => {
            drop(e);
            PickyError::NoMemory
        }
        ConvertError::Input(ReadError::Private(SshPrivateKeyError::SuiteFault))
        | ConvertError::Input(ReadError::Putty(PuttyError::SuiteFault))
        | ConvertError::Private(SshPrivateKeyError::SuiteFault)
        | ConvertError::Putty(PuttyError::SuiteFault) => {
            drop(e);
            PickyError::NoCipher
        }
        e => PickyError::Refused(e),
    }
}
