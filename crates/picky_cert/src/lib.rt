//! OpenSSH certificates: their bytes seen where they stand, as values, and in lines (PROTOCOL.certkeys; sshd(8)).
//!
//! Read first: `specs/Certificate.antt` and `specs/Line.antt`; then `src/laws.rt` and `src/certificate.rt`.
#![tactic(auto)]

mod blob_bytes;
mod certificate;
mod copy;
pub mod laws;
mod line;
mod lists;
mod ranges;
mod refusal;
mod source_line;
mod view;
mod written;

pub use certificate::SshCertificate;
pub use picky_cert_blob::CertPart;
pub use picky_cert_parts::{
    OtherName, SshCertKeyType, SshCertType, SshCertTypeError, SshCertificateError,
    SshCriticalOption, SshCriticalOptionError, SshCriticalOptionType, SshExtension,
    SshExtensionError, SshExtensionType, SshSignature, SshSignatureBlob, SshSignatureError,
    SshSignatureFormat, names,
};
pub use ranges::{certificate_keeps_its_ranges, items_keep_their_ranges};
pub use view::CertView;
