//! SSH keys, certificates and PuTTY's key files: what a caller of this repository's crates needs, under one name.
//!
//! It has no function of its own: its modules re-export those of the crates below, under the original crate's names where it
//! has them, and its specs/ the words of their contracts. CALLING.md, beside src/, has a proved caller for each task.
#![tactic(auto)]

pub mod agent;
pub mod ask;
pub mod convert;
pub mod inventory;
pub mod ledger;
pub mod policy;
pub mod putty;
pub mod request;
pub mod ssh;
pub mod wire;

pub use base64;
pub use rand_core;
