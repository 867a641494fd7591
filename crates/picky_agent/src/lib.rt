//! An SSH agent: the messages of a stream, each answered in turn (draft-miller-ssh-agent-04).
//!
//! Read first: `specs/Served.antt`; then `src/serving.rt`.
#![tactic(auto)]

mod frame;
mod serving;
mod status;

pub use frame::{FrameError, take_message};
pub use picky_agent_state::{Agent, Identity};
pub use serving::serve;
pub use status::AgentStatus;
