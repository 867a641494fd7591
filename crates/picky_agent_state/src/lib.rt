//! What an SSH agent keeps, and how it answers a message (draft-miller-ssh-agent-04).
//!
//! Read first: `specs/Step.antt` and `specs/Failure.antt`; then `src/agent.rt`.
#![tactic(auto)]

mod agent;
mod asked;
mod held;
mod identity;
mod keep;
mod keyring;
pub mod laws;
mod message_type;
mod question;
mod reply;
mod signing;

pub use agent::Agent;
pub use identity::Identity;
pub use keep::KeepError;
pub use question::Question;
