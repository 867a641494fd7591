//! Authorized keys taken apart, for a caller that has bytes alone: their entries one by one, field by field.
//!
//! Read first: `specs/Call.antt`, and `specs/Layout.antt` for the fields that say several things at once; then `src/laws.rt`.
#![tactic(auto)]

mod call;
mod entry;
mod error;
mod field;
mod key;
pub mod laws;
mod layout;
mod state;

pub use call::authorized_field;
pub use error::AuthFieldError;
pub use field::{AuthField, EntryField, KeyField, OptionField, field_by_number};
