//! Authorized keys, and who gets in by them with a key or a certificate.

pub mod laws;

// The lines.
pub use picky_authorized::{
    AuthContent, AuthEntry, AuthOption, CERT_AUTHORITY, PRINCIPALS, PolicyError, are_fit, read_keys,
};

// The decision.
pub use picky_policy::{
    DecideError, Decision, Denial, Grant, HandedVerifier, MemoryVerifier, Offer, Verifier, decide,
};

// The program.
pub use picky_policy::{PolicyStatus, run_policy};
