//! OpenSSH certificates made and signed by a device that is handed in (PROTOCOL.certkeys).
//!
//! Read first: `specs/Fit.antt`, what fits, and `specs/Draft.antt`; then `src/builder.rt`.
#![tactic(auto)]

mod algorithm;
mod build;
mod builder;
mod copy;
mod defaults;
mod draft;
mod error;
mod issuer;
pub mod laws;
mod permits;
mod ranges;
mod sort;
mod terms;

pub use algorithm::{default_algorithm, format_of};
pub use builder::{BuildCertificate, SshCertificateBuilder};
pub use draft::CertificateDraft;
pub use error::SshCertificateGenerationError;
pub use issuer::{IssuerKey, private_issuer};
pub use ranges::{request_keeps_its_ranges, signature_keeps_its_ranges};
pub use terms::{FitTerms, RequestTerms};
