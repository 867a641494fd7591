//! What a request is answered.

use picky_cert_builder::SshCertificateGenerationError;

/// What a request line is answered.
#[derive(Debug, Drop, PartialEq, Eq)]
pub enum Reply {
    /// A certificate was issued, with this serial.
    Issued(u64),
    /// The ledger has this line, with this serial.
    Again(u64),
    /// The ledger has another line with this id, with this serial.
    Conflict(u64),
    /// There is no serial left.
    Full,
    /// No certificate is made for it.
    Refused(SshCertificateGenerationError),
    /// The line is no request.
    BadRequest,
}
