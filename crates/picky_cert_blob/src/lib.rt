//! All parts of an OpenSSH certificate, seen where they stand in its bytes (PROTOCOL.certkeys).
//!
//! Read first: `specs/Layout.antt` and `specs/View.antt`; then `src/body.rt`.
#![tactic(auto)]

mod body;
mod grants;
mod head;
mod items;
mod kinds;
pub mod laws;
mod part;
mod signature;
mod subject;
mod terms;

pub use body::{BodyView, body_at};
pub use grants::GrantsView;
pub use head::HeadView;
pub use part::CertPart;
pub use signature::{SignatureView, signature_at};
pub use subject::{fits_subject, subject_kind};
pub use terms::TermsView;
