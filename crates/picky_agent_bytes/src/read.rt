//! An agent, read from the bytes of its state.

ghost use Rattle.std.specs.Prelude.{◌≡◌, ◌<◌, ◌≤◌, length, IfOk};
ghost use Rattle.picky_wire_base.specs.Gives.{Gives};
ghost use Rattle.picky_agent_state.specs.Keep.{keep_limit};
ghost use Rattle.picky_agent_state.specs.Kept.{new_agent};
ghost use Rattle.picky_agent_bytes.specs.State.{brought as brought_by, canonical as canonical_of, cut_string, state_read};

use crate::error::{AgentBytesError, keep_refusal};
use crate::write::{STATE_LIMIT, write_agent};
use picky_agent_state::Agent;
use picky_wire::{SizeError, string_at};
use std::alloc::Global;

/// The agent whose state the bytes are. No bytes are that of a new agent.
///
/// Refuses, in order: `TooLong`; at the first message that brings nothing `Short`, `NotKept`, `TooMany`; `NotCanonical`.
pub fn read_agent(alloc: Global, bytes: &[u8]) -> Result<Agent, AgentBytesError>
    ensures { Gives AgentBytesError.NoMemory (λ agent. agent) result (state_read bytes.now) }
{
    if bytes.len() > STATE_LIMIT {
        return Err(AgentBytesError::TooLong);
    }
    match brought(alloc, bytes) {
        Ok(agent) => canonical(alloc, agent, bytes),
        Err(e) => Err(e),
    }
}

/// The agent, where the bytes are its state's one spelling. Refuses: `NotCanonical`.
fn canonical(alloc: Global, agent: Agent, bytes: &[u8]) -> Result<Agent, AgentBytesError>
    requires { length bytes.now ≤ keep_limit }
    ensures { Gives AgentBytesError.NoMemory (λ agent. agent) result (canonical_of bytes.now agent) }
{
    match write_agent(alloc, &agent) {
        Ok(written) => {
            if written.as_slice() == bytes {
                return Ok(agent);
            }
            Err(AgentBytesError::NotCanonical)
        }
        Err(SizeError::TooLong) => Err(AgentBytesError::NotCanonical),
        Err(SizeError::NoMemory) => Err(AgentBytesError::NoMemory),
    }
}

/// The agent that the messages bring. Refuses, at the first that brings nothing: `Short`, `NotKept`, `TooMany`.
fn brought(alloc: Global, bytes: &[u8]) -> Result<Agent, AgentBytesError>
    requires { length bytes.now ≤ keep_limit }
    ensures { Gives AgentBytesError.NoMemory (λ agent. agent) result (brought_by new_agent bytes.now) }
{
    let mut agent = Agent::new(alloc);
    let mut rest = bytes;
    'messages: while rest.len() > 0 {
        let (message, more) = match message_in(rest) {
            Ok(found) => found,
            Err(e) => return Err(e),
        };
        match agent.keep(message) {
            Ok(()) => {}
            Err(e) => return Err(keep_refusal(e)),
        }
        rest = more;
    }
    Ok(agent)
}

/// The message in front, and what follows it. Refuses: `Short`.
fn message_in(bytes: &[u8]) -> Result<(&[u8], &[u8]), AgentBytesError>
    ensures gives { Gives AgentBytesError.NoMemory (λ found. (found.0.now, found.1.now)) result (cut_string bytes.now) }
    ensures within { IfOk result (λ found. length found.0.now ≤ length bytes.now) }
    ensures shorter { IfOk result (λ found. length found.1.now < length bytes.now) }
{
    match string_at(bytes, 0) {
        Ok((message, next)) => {
            let (_, rest) = bytes.split_at(next);
            Ok((message.bytes, rest))
        }
        Err(_) => Err(AgentBytesError::Short),
    }
}
