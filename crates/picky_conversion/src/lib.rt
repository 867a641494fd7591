//! The conversion of key texts to any target, and certificates issued from one source.
//!
//! Read first: `specs/To.antt` and `specs/Made.antt`; then `src/conversion.rt`.
#![tactic(auto)]

mod certificate;
pub mod certificate_laws;
mod conversion;
mod drafting;
mod given;
mod issuing;
pub mod laws;
mod request;
mod target;

pub use certificate::write_certificate;
pub use conversion::{
    bytes_to_sign, convert, convert_key_text, convert_owned, input_refusal, is_given,
};
pub use drafting::{draft_line, write_signed_bytes};
pub use given::ConversionGiven;
pub use issuing::{issue, print_signed};
pub use picky_target::{DEFAULT_ROUNDS, KeyTarget};
pub use request::CertRequest;
pub use target::Target;
