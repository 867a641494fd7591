//! Why a text holds no content, or can't be made.

use thiserror::Error;

/// Why a text holds no content, or can't be made.
#[derive(Clone, Copy, Debug, PartialEq, Eq, Error)]
pub enum PemError {
    /// The text doesn't begin with the header.
    #[error("HeaderNotFound")]
    HeaderNotFound,
    /// No footer follows the header.
    #[error("FooterNotFound")]
    FooterNotFound,
    /// What stands between them is no canonical, padded base64.
    #[error("BadBase64")]
    BadBase64,
    /// There are more bytes than a length of the wire can say.
    #[error("TooLong")]
    TooLong,
    /// Memory ran out.
    #[error("NoMemory")]
    NoMemory,
}
