//! Why a certificate is not made.

ghost use Rattle.std.specs.Prelude.{◌≡◌};
ghost use Rattle.picky_cert_builder.specs.RefusalName.{request_name};
ghost use Rattle.picky_cert_builder.specs.declared.error.SshCertificateGenerationError.TheVariants as errors;

use picky_cert_parts::SshCertKeyType;
use picky_wire::NoMemory;
use thiserror::Error;

/// Why a certificate is not made.
#[derive(Debug, Drop, PartialEq, Eq, Error)]
pub enum SshCertificateGenerationError {
    /// The type of certificates isn't made here: that of DSS and that of NIST P-521. Or it isn't for the subject's key.
    #[error("UnsupportedCertificateKeyType")]
    UnsupportedCertificateKeyType(SshCertKeyType),
    /// The issuer's key doesn't sign by the algorithm. A security key signs by none.
    #[error("IncorrectSignatureAlgorithm")]
    IncorrectSignatureAlgorithm,
    /// No subject's key is given.
    #[error("MissingPublicKey")]
    MissingPublicKey,
    /// It isn't said whether the certificate is a user's or a host's.
    #[error("MissingCertificateType")]
    MissingCertificateType,
    /// A time is missing, or the certificate would begin to be valid after its end.
    #[error("InvalidTime")]
    InvalidTime,
    /// No issuer's key is given.
    #[error("MissingSignatureKey")]
    MissingSignatureKey,
    /// A host's certificate has no extensions.
    #[error("HostCertificateExtensions")]
    HostCertificateExtensions,
    /// A host's certificate has no critical options.
    #[error("HostCertificateCriticalOptions")]
    HostCertificateCriticalOptions,
    /// No type of certificates is given.
    #[error("NoKeyType")]
    NoKeyType,
    /// The device that signs failed, and counted it.
    #[error("SignatureError")]
    SignatureError,
    /// There are more bytes to sign than a length of the wire can say.
    #[error("TooLong")]
    TooLong,
    /// Memory ran out.
    #[error("NoMemory")]
    NoMemory,
}

impl SshCertificateGenerationError {
    /// The variant's name, without what it carries.
    pub fn name(&self) -> &'static str
        ensures { result.now ≡ request_name self.now }
    {
        match self {
            SshCertificateGenerationError::UnsupportedCertificateKeyType(_) => {
                "UnsupportedCertificateKeyType"
            }
            SshCertificateGenerationError::IncorrectSignatureAlgorithm => {
                "IncorrectSignatureAlgorithm"
            }
            SshCertificateGenerationError::MissingPublicKey => "MissingPublicKey",
            SshCertificateGenerationError::MissingCertificateType => "MissingCertificateType",
            SshCertificateGenerationError::InvalidTime => "InvalidTime",
            SshCertificateGenerationError::MissingSignatureKey => "MissingSignatureKey",
            SshCertificateGenerationError::HostCertificateExtensions => "HostCertificateExtensions",
            SshCertificateGenerationError::HostCertificateCriticalOptions => {
                "HostCertificateCriticalOptions"
            }
            SshCertificateGenerationError::NoKeyType => "NoKeyType",
            SshCertificateGenerationError::SignatureError => "SignatureError",
            SshCertificateGenerationError::TooLong => "TooLong",
            SshCertificateGenerationError::NoMemory => "NoMemory",
        }
    }
}

impl From<NoMemory> for SshCertificateGenerationError {
    ghost from_gives = { λ _ e. e ≡ errors.NoMemory };

    fn from(_e: NoMemory) -> SshCertificateGenerationError {
        SshCertificateGenerationError::NoMemory
    }
}
