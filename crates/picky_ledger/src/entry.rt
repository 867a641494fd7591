//! An entry of a ledger.

use picky_cert::SshCertificate;
use picky_wire::Text;

/// A request that a certificate was issued for.
#[derive(Debug, Drop, PartialEq, Eq)]
pub struct Entry {
    /// The request's name, which no other entry has.
    pub id: Text,
    /// The certificate's serial, which no other entry has.
    pub serial: u64,
    /// The request line.
    pub request: Text,
    pub certificate: SshCertificate,
}
