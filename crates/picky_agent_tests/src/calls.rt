//! Each call of the library once, with memory enough.

use crate::keys::{Key, numbered_key};
use crate::talks::{
    FAILURE, LIST, LOCKED, LOCKING, NONE, SUCCESS, add, list_of, lock, push_string, unlock,
};
use picky_agent::{Agent, AgentStatus, FrameError, serve, take_message};
use picky_keys::KeyKind;
use picky_suite::HandedSigner;
use picky_wire::{Bytes, MemorySink, SliceSource};
use std::alloc::Global;
use std::mem::ManuallyDrop;
use std::test::Fail;

// docs/FORMATS.md, "Messages of an agent".
static CODES: [(AgentStatus, u8); 7] = [
    (AgentStatus::Done, 0),
    (AgentStatus::BadFrame, 1),
    (AgentStatus::Cut, 2),
    (AgentStatus::ReadFault, 3),
    (AgentStatus::WriteFault, 4),
    (AgentStatus::NoMemory, 5),
    (AgentStatus::TooMany, 6),
];

#[test]
fn has_a_number_for_each_status(rt: HostRuntime) {
    for (status, code) in &CODES {
        assert!(rt; status.exit_code() == *code, "{code}");
    }
}

/// What is taken in front of the bytes, and how many bytes are left.
fn takes(alloc: Global, bytes: &[u8], message: Option<&[u8]>, left: usize) -> Result<bool, Fail> {
    let mut source = SliceSource::new(bytes);
    let found = ManuallyDrop::new(take_message(alloc, &mut source)?);
    let is_so = match (&*found, message) {
        (Some(found), Some(message)) => found.as_slice() == message,
        (None, None) => true,
        _ => false,
    };
    Ok(is_so && source.rest().len() == left)
}

/// Nothing is taken in front of the bytes, for this cause.
fn refuses(alloc: Global, bytes: &[u8], why: FrameError) -> bool {
    let mut source = SliceSource::new(bytes);
    let found = ManuallyDrop::new(take_message(alloc, &mut source));
    match &*found {
        Ok(_) => false,
        Err(e) => *e == why,
    }
}

#[test]
fn takes_a_message(rt: HostRuntime) -> Result<(), Fail> {
    let alloc = rt.alloc();
    assert!(rt; takes(alloc, b"\0\0\0\x01\x0b\0", Some(LIST), 1)?);
    assert!(rt; takes(alloc, b"", None, 0)?);
    assert!(rt; refuses(alloc, b"\0\0\0\0\x0b", FrameError::BadFrame));
    assert!(rt; refuses(alloc, b"\0\0\0\x02\x0b", FrameError::Cut));
    Ok(())
}

/// The agent's reply to the message.
fn reply_to(alloc: Global, agent: &mut Agent, message: &[u8]) -> Result<Option<Bytes>, Fail> {
    let mut framed = ManuallyDrop::new(Vec::new(alloc));
    push_string(&mut *framed, message)?;
    let mut source = SliceSource::new(framed.as_slice());
    let found = ManuallyDrop::new(take_message(alloc, &mut source)?);
    match &*found {
        Some(message) => Ok(Some(agent.answer(&mut HandedSigner::new(None), message.as_slice())?)),
        None => Ok(None),
    }
}

fn replies(alloc: Global, agent: &mut Agent, message: &[u8], reply: &[u8]) -> Result<bool, Fail> {
    let found = ManuallyDrop::new(reply_to(alloc, agent, message)?);
    match &*found {
        Some(found) => Ok(found.as_slice() == reply),
        None => Ok(false),
    }
}

/// The agent keeps the one key and comment, or nothing.
fn keeps(agent: &Agent, key: Option<(&str, KeyKind)>, is_locked: bool) -> bool {
    let is_so = match (agent.identities(), key) {
        ([identity], Some((comment, kind))) => {
            identity.comment.as_str() == comment && identity.key.kind() == kind
        }
        ([], None) => true,
        _ => false,
    };
    is_so && agent.is_locked() == is_locked
}

/// A key is added to an agent, and what it keeps is seen while it is locked and after.
fn answers(alloc: Global, agent: &mut Agent, key: &Key) -> Result<bool, Fail> {
    let add = ManuallyDrop::new(add(alloc, key.private.as_slice(), b" k ")?);
    let one = ManuallyDrop::new(list_of(alloc, key.public.as_slice(), b" k ")?);
    let lock = ManuallyDrop::new(lock(alloc, b"pass")?);
    let unlock = ManuallyDrop::new(unlock(alloc, b"pass")?);
    let kept = Some((" k ", KeyKind::Ed(picky_keys::EdAlgorithm::Ed25519)));
    Ok(
        keeps(agent, None, false)
            && replies(alloc, agent, add.as_slice(), SUCCESS)?
            && keeps(agent, kept, false)
            && replies(alloc, agent, LIST, one.as_slice())?
            && replies(alloc, agent, lock.as_slice(), SUCCESS)?
            && keeps(agent, kept, true)
            && replies(alloc, agent, LIST, NONE)?
            && replies(alloc, agent, lock.as_slice(), FAILURE)?
            && replies(alloc, agent, unlock.as_slice(), SUCCESS)?
            && keeps(agent, kept, false),
    )
}

fn is_kept_in(alloc: Global) -> Result<bool, Fail> {
    let key = ManuallyDrop::new(numbered_key(alloc, 1)?);
    let mut agent = ManuallyDrop::new(Agent::new(alloc));
    answers(alloc, &mut *agent, &*key)
}

#[test]
fn tells_what_an_agent_keeps(rt: HostRuntime) -> Result<(), Fail> {
    assert!(rt; is_kept_in(rt.alloc())?);
    Ok(())
}

/// One agent serves two streams, one after the other: what it keeps stays.
fn serves_twice(alloc: Global) -> Result<bool, Fail> {
    let mut agent = ManuallyDrop::new(Agent::new(alloc));
    let mut out = ManuallyDrop::new(MemorySink::new(alloc, 99, 64, &[])?);
    let mut signer = HandedSigner::new(None);
    let (first, second) = LOCKING.split_at(15);
    let mut source = SliceSource::new(first);
    let done = serve(alloc, &mut *agent, &mut signer, &mut source, &mut *out);
    let mut source = SliceSource::new(second);
    let done_again = serve(alloc, &mut *agent, &mut signer, &mut source, &mut *out);
    Ok(done == AgentStatus::Done && done_again == AgentStatus::Done && out.written() == LOCKED)
}

#[test]
fn serves_one_stream_after_another(rt: HostRuntime) -> Result<(), Fail> {
    assert!(rt; serves_twice(rt.alloc())?);
    Ok(())
}
