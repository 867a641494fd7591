//! The cryptography that callers hand in, as two traits: MACs, key derivations and ciphers, and signatures.
//!
//! The MACs that PuTTY's key files carry, HMAC over SHA-1 and SHA-256 (RFC 2104), are this crate's own. Ciphers,
//! derivations and signatures come from outside, and may fail; `MemorySuite` and `MemorySigner` stand in for them
//! in tests.
//!
//! Read first: `specs/Meanings.antt` and `specs/Signs.antt`; then the traits in `src/suite.rt` and `src/signer.rt`.
#![tactic(auto)]

mod flavour;
mod handed;
mod hmac;
pub mod laws;
mod memory;
mod memory_signer;
mod plain;
mod ranges;
mod signer;
mod suite;
mod toy;

pub use flavour::Flavour;
pub use handed::HandedSigner;
pub use hmac::{hmac_sha1, hmac_sha256};
pub use memory::MemorySuite;
pub use memory_signer::MemorySigner;
pub use plain::PlainSuite;
pub use ranges::{argon2_ok, bcrypt_ok};
pub use signer::{SignError, Signer};
pub use suite::Suite;
