//! Why bytes are no state, and why a call has no answer.

ghost use Rattle.std.specs.Prelude.{◌≡◌};
ghost use Rattle.picky_agent_bytes.specs.State.{keep_refusal as keep_refusal_of};
ghost use Rattle.picky_agent_bytes.specs.Call.{state_refusal as state_refusal_of};

use picky_agent_state::KeepError;
use thiserror::Error;

/// Why bytes are no state of an agent.
#[derive(Clone, Copy, Debug, PartialEq, Eq, Error)]
pub enum AgentBytesError {
    /// They have more than 2^30 bytes.
    #[error("TooLong")]
    TooLong,
    /// They end inside a message, or inside the four bytes of its length.
    #[error("Short")]
    Short,
    /// A message is none that adds an identity or locks.
    #[error("NotKept")]
    NotKept,
    /// There are more than 1,024 identities.
    #[error("TooMany")]
    TooMany,
    /// The state has another spelling.
    #[error("NotCanonical")]
    NotCanonical,
    /// Memory ran out.
    #[error("NoMemory")]
    NoMemory,
}

/// Why a message brings nothing, as the state's refusal.
pub(crate) fn keep_refusal(e: KeepError) -> AgentBytesError
    ensures { result ≡ keep_refusal_of e }
{
    match e {
        KeepError::NotKept => AgentBytesError::NotKept,
        KeepError::TooMany => AgentBytesError::TooMany,
        KeepError::NoMemory => AgentBytesError::NoMemory,
    }
}

/// Why a call has no answer.
#[derive(Clone, Copy, Debug, PartialEq, Eq, Error)]
pub enum AgentCallError {
    /// The message has no bytes.
    #[error("NoMessage")]
    NoMessage,
    /// The message has more than 262,144 bytes.
    #[error("MessageTooLong")]
    MessageTooLong,
    /// The message adds no identity.
    #[error("NotAdd")]
    NotAdd,
    /// The key is of a kind that has no such part.
    #[error("NoSuchPart")]
    NoSuchPart,
    /// The bytes are no state.
    #[error("State")]
    State(AgentBytesError),
    /// The signature has 2^32 bytes or more.
    #[error("SignatureTooLong")]
    SignatureTooLong,
    /// The bytes that are asked for would be too many.
    #[error("TooLong")]
    TooLong,
    /// Memory ran out.
    #[error("NoMemory")]
    NoMemory,
}

/// Why the bytes are no state, as a call's refusal.
pub(crate) fn state_refusal(e: AgentBytesError) -> AgentCallError
    ensures { result ≡ state_refusal_of e }
{
    match e {
        AgentBytesError::NoMemory => AgentCallError::NoMemory,
        AgentBytesError::TooLong => AgentCallError::State(AgentBytesError::TooLong),
        AgentBytesError::Short => AgentCallError::State(AgentBytesError::Short),
        AgentBytesError::NotKept => AgentCallError::State(AgentBytesError::NotKept),
        AgentBytesError::TooMany => AgentCallError::State(AgentBytesError::TooMany),
        AgentBytesError::NotCanonical => AgentCallError::State(AgentBytesError::NotCanonical),
    }
}
