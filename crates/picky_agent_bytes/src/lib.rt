//! What an SSH agent keeps, as bytes, and the calls of an agent whose state is bytes (draft-miller-ssh-agent-04).
//!
//! A state is a stream of messages to an agent: those that bring a new one there. Read first: `specs/State.antt`; then
//! `src/laws.rt`.
#![tactic(auto)]

mod add;
mod algorithm_name;
mod call;
mod error;
pub mod laws;
mod read;
mod secret;
mod signature;
mod write;

pub use add::agent_public_add;
pub use call::{agent_next, agent_question, agent_reply};
pub use error::{AgentBytesError, AgentCallError};
pub use read::read_agent;
pub use secret::{AgentSecret, EcPart, EdPart, RsaPart, SkPart, agent_secret};
pub use write::write_agent;
