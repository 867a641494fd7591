//! An SSH agent: what it keeps, how it answers a message, and the messages of a stream, each answered in turn.

pub use picky_agent::{Agent, FrameError, Identity, take_message};
pub use picky_agent_state::{KeepError, Question, laws};

// An agent whose state is bytes.
pub use picky_agent_bytes::{
    AgentBytesError, AgentCallError, AgentSecret, EcPart, EdPart, RsaPart, SkPart, agent_next,
    agent_public_add, agent_question, agent_reply, agent_secret, laws as bytes_laws, read_agent,
    write_agent,
};

// The program.
pub use picky_agent::{AgentStatus, serve};
