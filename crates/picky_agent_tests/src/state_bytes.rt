//! States of agents as bytes: read, written, and carried from message to message.

use crate::keys::{KEYS, KeyRow, key_of, numbered_key};
use crate::question::{ASKED, Asked, MESSAGE, sign_of};
use crate::talks::{
    FAILURE, LIST, NONE, REMOVE_ALL, add, list_of, lock, push_string, remove, signed, unlock,
};
use picky_agent_bytes::{
    AgentBytesError, AgentCallError, agent_next, agent_question, agent_reply, read_agent,
    write_agent,
};
use picky_agent_state::Agent;
use std::alloc::Global;
use std::mem::ManuallyDrop;
use std::test::Fail;

fn push_key(alloc: Global, state: &mut Vec<u8>, row: &KeyRow) -> Result<(), Fail> {
    let key = ManuallyDrop::new(key_of(alloc, row)?);
    let add = ManuallyDrop::new(add(alloc, key.private.as_slice(), row.name.as_bytes())?);
    push_string(state, add.as_slice())
}

/// The state with the key of each row (docs/FORMATS.md, "States of an agent").
fn all_keys(alloc: Global) -> Result<Vec<u8>, Fail> {
    let mut state = ManuallyDrop::new(Vec::new(alloc));
    for row in &KEYS {
        push_key(alloc, &mut *state, row)?;
    }
    Ok(ManuallyDrop::into_inner(state))
}

/// The same, and locked.
fn all_locked(alloc: Global) -> Result<Vec<u8>, Fail> {
    let mut state = ManuallyDrop::new(all_keys(alloc)?);
    let lock = ManuallyDrop::new(lock(alloc, b"pass")?);
    push_string(&mut *state, lock.as_slice())?;
    Ok(ManuallyDrop::into_inner(state))
}

/// The agent has the keys of the rows, and this passphrase.
fn has_keys(agent: &Agent, pass: Option<&[u8]>) -> bool {
    let mut is_so = agent.identities().len() == KEYS.len() && agent.pass() == pass;
    for (identity, row) in agent.identities().iter().zip(&KEYS) {
        is_so = is_so && identity.comment.as_str() == row.name;
    }
    is_so
}

/// The bytes are written of the agent.
fn is_written(alloc: Global, agent: &Agent, state: &[u8]) -> Result<bool, Fail> {
    let bytes = ManuallyDrop::new(write_agent(alloc, agent)?);
    Ok(bytes.as_slice() == state)
}

/// The bytes are an agent's with the keys of the rows and this passphrase, and are written of it.
fn is_state(alloc: Global, state: &[u8], pass: Option<&[u8]>) -> Result<bool, Fail> {
    let agent = ManuallyDrop::new(read_agent(alloc, state)?);
    Ok(has_keys(&*agent, pass) && is_written(alloc, &*agent, state)?)
}

fn are_states(alloc: Global) -> Result<bool, Fail> {
    let open = ManuallyDrop::new(all_keys(alloc)?);
    let locked = ManuallyDrop::new(all_locked(alloc)?);
    Ok(
        is_state(alloc, open.as_slice(), None)?
            && is_state(alloc, locked.as_slice(), Some(b"pass"))?,
    )
}

#[test]
fn reads_and_writes_states(rt: HostRuntime) -> Result<(), Fail> {
    assert!(rt; are_states(rt.alloc())?);
    Ok(())
}

// By hand: cut, of another type, with a byte behind the passphrase, and locked twice.
static NO_STATES: [(&[u8], AgentBytesError); 7] = [
    (b"\0\0\0", AgentBytesError::Short),
    (b"\0\0\0\x01", AgentBytesError::Short),
    (b"\0\0\0\0", AgentBytesError::NotKept),
    (b"\0\0\0\x01\x0b", AgentBytesError::NotKept),
    (b"\0\0\0\x01\x0b\0", AgentBytesError::NotKept),
    (
        b"\0\0\0\x07\x16\0\0\0\x01a\0",
        AgentBytesError::NotCanonical,
    ),
    (
        b"\0\0\0\x05\x16\0\0\0\0\0\0\0\x05\x16\0\0\0\0",
        AgentBytesError::NotCanonical,
    ),
];

fn is_no_state(alloc: Global, bytes: &[u8], why: AgentBytesError) -> bool {
    let agent = ManuallyDrop::new(read_agent(alloc, bytes));
    let reply = ManuallyDrop::new(agent_reply(alloc, bytes, LIST, b""));
    match (&*agent, &*reply) {
        (Err(e), Err(AgentCallError::State(other))) => *e == why && *other == why,
        _ => false,
    }
}

#[test]
fn refuses_bytes_that_are_no_state(rt: HostRuntime) {
    for (bytes, why) in &NO_STATES {
        assert!(rt; is_no_state(rt.alloc(), bytes, *why), "{why}");
    }
}

/// Whether the call gives these bytes.
fn gives(answer: Result<Vec<u8>, AgentCallError>, wanted: &[u8]) -> bool {
    match &*ManuallyDrop::new(answer) {
        Ok(bytes) => bytes.as_slice() == wanted,
        Err(_) => false,
    }
}

/// The question of a row: the key's place, its public blob, the names, and the message.
fn question_of(alloc: Global, row: &Asked) -> Result<Vec<u8>, Fail> {
    let (place, _, _, algorithm, format) = row;
    let key = KEYS.get(*place).ok_or("no such key")?;
    let key = ManuallyDrop::new(key_of(alloc, key)?);
    let [_, _, _, _, a, b, c, d] = place.to_be_bytes();
    let mut question = ManuallyDrop::new(Vec::from_slice(alloc, &[a, b, c, d])?);
    push_string(&mut *question, key.public.as_slice())?;
    push_string(&mut *question, algorithm.as_bytes())?;
    push_string(&mut *question, format.as_bytes())?;
    push_string(&mut *question, MESSAGE)?;
    Ok(ManuallyDrop::into_inner(question))
}

/// In this state the row's question is asked, and its reply has the signature; none is the failure.
fn is_signed(alloc: Global, state: &[u8], row: &Asked) -> Result<bool, Fail> {
    let asked = ManuallyDrop::new(sign_of(alloc, row.0, row.1)?);
    let question = ManuallyDrop::new(question_of(alloc, row)?);
    let reply = ManuallyDrop::new(signed(alloc, row.4, b"sig")?);
    let asked = asked.as_slice();
    Ok(
        gives(agent_question(alloc, state, asked), question.as_slice())
            && gives(agent_reply(alloc, state, asked, b"sig"), reply.as_slice())
            && gives(agent_reply(alloc, state, asked, b""), FAILURE)
            && gives(agent_next(alloc, state, asked), state),
    )
}

fn are_signed(alloc: Global) -> Result<bool, Fail> {
    let state = ManuallyDrop::new(all_keys(alloc)?);
    let mut is_so = true;
    for row in &ASKED {
        is_so = is_so && is_signed(alloc, state.as_slice(), row)?;
    }
    Ok(is_so)
}

#[test]
fn asks_for_signatures_and_replies_them(rt: HostRuntime) -> Result<(), Fail> {
    assert!(rt; are_signed(rt.alloc())?);
    Ok(())
}

/// In this state nothing is asked of the message, which has the reply.
fn replies(alloc: Global, state: &[u8], message: &[u8], reply: &[u8]) -> bool {
    gives(agent_question(alloc, state, message), b"")
        && gives(agent_reply(alloc, state, message, b"sig"), reply)
}

/// The list is the one key's, and of a locked agent none.
fn lists(alloc: Global) -> Result<bool, Fail> {
    let key = ManuallyDrop::new(numbered_key(alloc, 1)?);
    let one = ManuallyDrop::new(state_of(alloc, "1")?);
    let locked = ManuallyDrop::new(state_of(alloc, "1L")?);
    let list = ManuallyDrop::new(list_of(alloc, key.public.as_slice(), b"k")?);
    Ok(
        replies(alloc, b"", LIST, NONE)
            && replies(alloc, one.as_slice(), LIST, list.as_slice())
            && replies(alloc, locked.as_slice(), LIST, NONE),
    )
}

#[test]
fn replies_without_a_signature(rt: HostRuntime) -> Result<(), Fail> {
    assert!(rt; lists(rt.alloc())?);
    Ok(())
}

fn add_numbered(alloc: Global, number: u32) -> Result<Vec<u8>, Fail> {
    let key = ManuallyDrop::new(numbered_key(alloc, number)?);
    add(alloc, key.private.as_slice(), b"k")
}

fn remove_numbered(alloc: Global, number: u32) -> Result<Vec<u8>, Fail> {
    let key = ManuallyDrop::new(numbered_key(alloc, number)?);
    remove(alloc, key.public.as_slice())
}

/// The message of a letter.
fn message_of(alloc: Global, letter: char) -> Result<Vec<u8>, Fail> {
    match letter {
        '1' => add_numbered(alloc, 1),
        '2' => add_numbered(alloc, 2),
        'r' => remove_numbered(alloc, 1),
        'R' => Ok(Vec::from_slice(alloc, REMOVE_ALL)?),
        'L' => lock(alloc, b"pass"),
        'U' => unlock(alloc, b"pass"),
        'u' => unlock(alloc, b"other"),
        _ => Ok(Vec::from_slice(alloc, LIST)?),
    }
}

/// The state of the letters' messages.
fn state_of(alloc: Global, letters: &str) -> Result<Vec<u8>, Fail> {
    let mut state = ManuallyDrop::new(Vec::new(alloc));
    for letter in letters.chars() {
        let message = ManuallyDrop::new(message_of(alloc, letter)?);
        push_string(&mut *state, message.as_slice())?;
    }
    Ok(ManuallyDrop::into_inner(state))
}

// A state, a message, and the state behind it. docs/FORMATS.md, "Messages of an agent", says what a message does.
static NEXT: [(&str, char, &str); 14] = [
    ("", 'l', ""),
    ("", '1', "1"),
    ("1", '2', "12"),
    ("12", '1', "12"),
    ("12", 'r', "2"),
    ("2", 'r', "2"),
    ("12", 'R', ""),
    ("12", 'L', "12L"),
    ("", 'L', "L"),
    ("12L", '1', "12L"),
    ("12L", 'R', "12L"),
    ("12L", 'u', "12L"),
    ("12L", 'U', "12"),
    ("12", 'U', "12"),
];

fn comes_to(alloc: Global, row: &(&str, char, &str)) -> Result<bool, Fail> {
    let (before, letter, behind) = row;
    let before = ManuallyDrop::new(state_of(alloc, before)?);
    let message = ManuallyDrop::new(message_of(alloc, *letter)?);
    let behind = ManuallyDrop::new(state_of(alloc, behind)?);
    Ok(gives(
        agent_next(alloc, before.as_slice(), message.as_slice()),
        behind.as_slice(),
    ))
}

#[test]
fn carries_states_from_message_to_message(rt: HostRuntime) -> Result<(), Fail> {
    for row in &NEXT {
        assert!(rt; comes_to(rt.alloc(), row)?, "{} {}", row.0, row.1);
    }
    Ok(())
}
