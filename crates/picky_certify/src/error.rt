//! Why no certificate is made.

ghost use Rattle.std.specs.Prelude.{◌≡◌};
ghost use Rattle.picky_certify.specs.Refusal.{conversion_refusal as conversion_refusal_of, table_refusal as table_refusal_of};

use picky_ask::TableError;
use picky_target::ConvertError;

/// Why no certificate is made.
#[derive(Debug, Drop)]
pub enum CertifyError {
    /// A word isn't UTF-8.
    WordNotUtf8,
    /// The issuer's text isn't UTF-8.
    IssuerNotUtf8,
    /// The key text isn't UTF-8.
    KeyNotUtf8,
    /// The answers are no table.
    Answers(TableError),
    /// The words are no options with their values, or ask for what there isn't.
    Words,
    /// A text is refused, or what is asked for is.
    Refused(ConvertError),
    /// A word has 2^32 bytes or more, or no bytes say the question.
    TooLong,
    /// Memory ran out.
    NoMemory,
}

/// The refusal of a conversion, where want of memory is the outer want.
pub fn conversion_refusal(e: ConvertError) -> CertifyError
    ensures { result ≡ conversion_refusal_of e }
{
    match e {
        ConvertError::NoMemory => {
            drop(e);
            CertifyError::NoMemory
        }
        e => CertifyError::Refused(e),
    }
}

/// The refusal of answers that are no table, where want of memory is the outer want.
pub fn table_refusal(e: TableError) -> CertifyError
    ensures { result ≡ table_refusal_of e }
{
    match e {
        TableError::NoMemory => {
            drop(e);
            CertifyError::NoMemory
        }
        e => CertifyError::Answers(e),
    }
}
