//! Why a line has no such field.

ghost use Rattle.std.specs.Prelude.{◌≡◌};
ghost use Rattle.picky_cert_field.specs.Fields.{certificate_refusal as certificate_refusal_of};

use picky_cert::SshCertificateError;

/// Why a line has no such field.
#[derive(Debug, Drop)]
pub enum CertFieldError {
    /// The line isn't UTF-8.
    NotUtf8,
    /// The line says no certificate.
    Certificate(SshCertificateError),
    /// The list ends before the place.
    NoSuchPlace,
    /// Memory ran out.
    NoMemory,
}

/// The refusal of a certificate, where want of memory is the outer want.
pub fn certificate_refusal(e: SshCertificateError) -> CertFieldError
    ensures { result ≡ certificate_refusal_of e }
{
    match e {
        SshCertificateError::NoMemory => {
            drop(e);
            CertFieldError::NoMemory
        }
        e => CertFieldError::Certificate(e),
    }
}
