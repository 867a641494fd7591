//! PuTTY's private key files, line by line (PuTTY's manual, Appendix C, "PPK file format"): which fields a text has, and
//! which text is written for them; and PuTTY's public key files (RFC 4716). What a MAC or a sealed block holds is judged by
//! the crates above.
//!
//! Read first: `specs/FileText.antt` and `specs/PuttyPublic.antt`; then `src/file.rt`.
#![tactic(auto)]

mod file;
pub mod laws;
pub mod public_laws;
mod putty_public;
mod reading;
mod writing;

pub use file::{PpkFile, PpkSealing};
pub use picky_ppk_parts::PuttyError;
pub use putty_public::{PuttyPublicKey, is_security_key, plain_key};
pub use writing::{MAX_BLOCK_LEN, end_of};
