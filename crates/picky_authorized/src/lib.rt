//! Authorized keys: public key lines with options before them (sshd(8), "AUTHORIZED_KEYS FILE FORMAT").
//!
//! Read first: `specs/Lines.antt` and `specs/Entries.antt`; then `src/laws.rt` and `src/keys.rt`.
#![tactic(auto)]

mod auth_option;
mod content;
mod entry;
mod keys;
mod known;
pub mod laws;
mod options;
mod quotes;

pub use auth_option::AuthOption;
pub use entry::{AuthContent, AuthEntry};
pub use keys::{PolicyError, read_keys};
pub use known::{CERT_AUTHORITY, PRINCIPALS, are_fit};
