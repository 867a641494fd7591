//! What a key text shows without a passphrase: its public key, its comment where that stands open, and what it is encrypted
//! by; and how many bits a key has.
//!
//! Read first: `specs/Shown.antt` and `src/laws.rt`; then `src/showing.rt`.
#![tactic(auto)]

mod bits;
mod envelope;
pub mod laws;
mod sealing;
mod showing;

pub use bits::key_bits;
pub use sealing::ShownSealing;
pub use showing::{Shown, show_text};
