//! The parts of a certificate.

/// A part of a certificate's bytes, in the order in which they stand (OpenSSH's PROTOCOL.certkeys). `IssuerString` is the
/// string round the issuer's blob, and `Issuer` that blob.
#[derive(Clone, Copy, Debug, PartialEq, Eq)]
pub enum CertPart {
    Name,
    Nonce,
    Subject,
    Serial,
    CertType,
    KeyId,
    Principals,
    After,
    Before,
    Options,
    Extensions,
    Reserved,
    IssuerString,
    Issuer,
    Signature,
}
