//! The parts of OpenSSH's certificates: their names, types, critical options, extensions and signatures, and the errors of
//! each (PROTOCOL.certkeys).
//!
//! Read first: `specs/CertNames.antt` and `specs/Signature.antt`; then `src/laws.rt`.
#![tactic(auto)]

mod cert_key_type;
pub mod cert_name_laws;
mod cert_type;
mod critical_option;
mod error;
mod extension;
mod extension_type;
mod fields;
mod known_extension;
pub mod laws;
pub mod names;
mod option_type;
mod signature;
mod signature_codec;
mod signature_format;

pub use cert_key_type::SshCertKeyType;
pub use cert_type::SshCertType;
pub use critical_option::{SshCriticalOption, option_pieces};
pub use error::{
    SshCertTypeError, SshCertificateError, SshCriticalOptionError, SshExtensionError,
    SshSignatureError,
};
pub use extension::{SshExtension, extension_pieces};
pub use extension_type::{OtherName, SshExtensionType};
pub use option_type::SshCriticalOptionType;
pub use signature::{SshSignature, SshSignatureBlob};
pub use signature_codec::{signature_pieces, written_total};
pub use signature_format::SshSignatureFormat;
