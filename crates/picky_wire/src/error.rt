//! What the calls of this crate can refuse.

use crate::element::CodecError;
use thiserror::Error;

/// A source, a sink or a suite failed, and counted it.
#[derive(Debug, Drop, PartialEq, Eq, Error)]
#[error("Failed")]
pub struct Failed;

/// What went wrong with the bytes of a stream.
#[derive(Clone, Copy, Debug, PartialEq, Eq, Error)]
pub enum IoKind {
    /// The bytes end inside a field.
    #[error("UnexpectedEnd")]
    UnexpectedEnd,
    /// The source failed.
    #[error("ReadFault")]
    ReadFault,
    /// The sink failed.
    #[error("WriteFault")]
    WriteFault,
}

/// Why a field is not read or written.
#[derive(Debug, Drop, PartialEq, Eq, Error)]
pub enum WireError {
    /// The bytes end inside the field.
    #[error("UnexpectedEnd")]
    UnexpectedEnd = 1,
    /// The source failed.
    #[error("ReadFault")]
    ReadFault = 2,
    /// The sink failed.
    #[error("WriteFault")]
    WriteFault = 3,
    /// A string that must be UTF-8 isn't.
    #[error("InvalidUtf8")]
    InvalidUtf8 = 4,
    /// There are more bytes than a length of the wire can say.
    #[error("TooLong")]
    TooLong = 5,
    /// Memory ran out.
    #[error("NoMemory")]
    NoMemory = 6,
}

impl CodecError for WireError {
    ghost of_wire = { λ e. e };

    ghost from_alike = { λ e x same. same };

    ghost apart = { λ d e same. same };

    fn is_no_memory(&self) -> bool {
        matches!(self, WireError::NoMemory)
    }
}

/// The error of a type with the wire's causes that says what the wire's error says: of its variants, one has
/// an `IoKind`, and one is for a string that isn't UTF-8.
#[macro_export]
macro_rules! error_of_wire {
    ($e:expr, $error:ident, $io:ident, $not_utf8:ident) => {
        match $e {
            $crate::WireError::UnexpectedEnd => $error::$io($crate::IoKind::UnexpectedEnd),
            $crate::WireError::ReadFault => $error::$io($crate::IoKind::ReadFault),
            $crate::WireError::WriteFault => $error::$io($crate::IoKind::WriteFault),
            $crate::WireError::InvalidUtf8 => $error::$not_utf8,
            $crate::WireError::TooLong => $error::TooLong,
            $crate::WireError::NoMemory => $error::NoMemory,
        }
    };
}
