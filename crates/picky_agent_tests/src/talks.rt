//! Agents that are talked to over streams in memory.

use picky_agent::{Agent, AgentStatus, serve};
use picky_suite::{HandedSigner, Signer};
use picky_wire::{MemorySink, SliceSource, Source};
use std::alloc::Global;
use std::mem::ManuallyDrop;
use std::test::Fail;

// The messages and replies that have a type alone (draft-miller-ssh-agent-04), and the empty list.
pub const LIST: &[u8] = b"\x0b";

pub const REMOVE_ALL: &[u8] = b"\x13";

pub const FAILURE: &[u8] = b"\x05";

pub const SUCCESS: &[u8] = b"\x06";

pub const NONE: &[u8] = b"\x0c\0\0\0\0";

// A lock under a passphrase of one byte, and what is refused under it, framed; the replies; and where each message ends.
pub const LOCKING: &[u8] =
    b"\0\0\0\x06\x16\0\0\0\x01a\0\0\0\x01\x13\0\0\0\x06\x17\0\0\0\x01b\0\0\0\x06\x17\0\0\0\x01a";

pub const LOCKED: &[u8] = b"\0\0\0\x01\x06\0\0\0\x01\x05\0\0\0\x01\x05\0\0\0\x01\x06";

pub const ENDS: [usize; 4] = [10, 15, 25, 35];

/// How many bytes the replies here have at most.
pub const ROOM: usize = 99_999;

/// How a stream was served, by which agent, and what was written. Nothing of it is dropped.
#[derive(Drop)]
pub struct Ran {
    pub status: AgentStatus,
    pub agent: ManuallyDrop<Agent>,
    pub out: ManuallyDrop<MemorySink>,
}

/// A new agent serves the source, where `out` has so much room and fails these calls.
pub fn served<G: Signer, I: Source>(
    alloc: Global,
    signer: &mut G,
    source: &mut I,
    room: usize,
    failing: &[u64],
) -> Result<Ran, Fail> {
    let mut agent = ManuallyDrop::new(Agent::new(alloc));
    let mut out = ManuallyDrop::new(MemorySink::new(alloc, room, 64, failing)?);
    let status = serve(alloc, &mut *agent, signer, source, &mut *out);
    Ok(Ran { status, agent, out })
}

/// Whether the run ended so, with these replies.
pub fn ended(ran: &Ran, status: AgentStatus, replies: &[u8]) -> bool {
    ran.status == status && ran.out.written() == replies
}

/// A new agent serves the source without a signature, and ends so.
pub fn ends<I: Source>(
    alloc: Global,
    source: &mut I,
    status: AgentStatus,
    replies: &[u8],
) -> Result<bool, Fail> {
    let mut signer = HandedSigner::new(None);
    let ran = served(alloc, &mut signer, source, ROOM, &[])?;
    Ok(ended(&ran, status, replies))
}

/// Messages and their replies, framed.
#[derive(Drop)]
pub struct Talk {
    pub asked: Vec<u8>,
    pub answered: Vec<u8>,
}

impl Talk {
    pub fn new(alloc: Global) -> Talk {
        Talk {
            asked: Vec::new(alloc),
            answered: Vec::new(alloc),
        }
    }

    /// One more message, and its reply.
    pub fn say(&mut self, message: &[u8], reply: &[u8]) -> Result<(), Fail> {
        push_string(&mut self.asked, message)?;
        push_string(&mut self.answered, reply)
    }
}

/// A new agent answers so.
pub fn is_answered<G: Signer>(alloc: Global, signer: &mut G, talk: &Talk) -> Result<bool, Fail> {
    let mut source = SliceSource::new(talk.asked.as_slice());
    let ran = served(alloc, signer, &mut source, ROOM, &[])?;
    Ok(ended(&ran, AgentStatus::Done, talk.answered.as_slice()))
}

/// A new agent answers so without a signature.
pub fn is_said(alloc: Global, talk: &Talk) -> Result<bool, Fail> {
    let mut signer = HandedSigner::new(None);
    is_answered(alloc, &mut signer, talk)
}

/// Appends the bytes behind their length (RFC 4251, section 5).
pub fn push_string(bytes: &mut Vec<u8>, content: &[u8]) -> Result<(), Fail> {
    let [_, _, _, _, a, b, c, d] = content.len().to_be_bytes();
    bytes.extend_from_slice(&[a, b, c, d])?;
    bytes.extend_from_slice(content)?;
    Ok(())
}

/// A message of a type and one string.
fn ask_of(alloc: Global, kind: u8, content: &[u8]) -> Result<Vec<u8>, Fail> {
    let mut message = ManuallyDrop::new(Vec::from_slice(alloc, &[kind])?);
    push_string(&mut *message, content)?;
    Ok(ManuallyDrop::into_inner(message))
}

pub fn lock(alloc: Global, pass: &[u8]) -> Result<Vec<u8>, Fail> {
    ask_of(alloc, 22, pass)
}

pub fn unlock(alloc: Global, pass: &[u8]) -> Result<Vec<u8>, Fail> {
    ask_of(alloc, 23, pass)
}

pub fn remove(alloc: Global, public: &[u8]) -> Result<Vec<u8>, Fail> {
    ask_of(alloc, 18, public)
}

pub fn add(alloc: Global, private: &[u8], comment: &[u8]) -> Result<Vec<u8>, Fail> {
    let mut message = ManuallyDrop::new(Vec::from_slice(alloc, &[17])?);
    message.extend_from_slice(private)?;
    push_string(&mut *message, comment)?;
    Ok(ManuallyDrop::into_inner(message))
}

pub fn sign(alloc: Global, public: &[u8], message: &[u8], flags: u32) -> Result<Vec<u8>, Fail> {
    let mut asked = ManuallyDrop::new(ask_of(alloc, 13, public)?);
    push_string(&mut *asked, message)?;
    asked.extend_from_slice(&flags.to_be_bytes())?;
    Ok(ManuallyDrop::into_inner(asked))
}

/// The list of so many identities, to which their entries are still to come.
fn listing(alloc: Global, count: u32) -> Result<Vec<u8>, Fail> {
    let mut reply = ManuallyDrop::new(Vec::from_slice(alloc, &[12])?);
    reply.extend_from_slice(&count.to_be_bytes())?;
    Ok(ManuallyDrop::into_inner(reply))
}

fn push_entry(reply: &mut Vec<u8>, public: &[u8], comment: &[u8]) -> Result<(), Fail> {
    push_string(reply, public)?;
    push_string(reply, comment)
}

/// The list of one identity.
pub fn list_of(alloc: Global, public: &[u8], comment: &[u8]) -> Result<Vec<u8>, Fail> {
    let mut reply = ManuallyDrop::new(listing(alloc, 1)?);
    push_entry(&mut *reply, public, comment)?;
    Ok(ManuallyDrop::into_inner(reply))
}

/// The signature of a format.
pub fn signed(alloc: Global, format: &str, signature: &[u8]) -> Result<Vec<u8>, Fail> {
    let mut blob = ManuallyDrop::new(Vec::new(alloc));
    push_string(&mut *blob, format.as_bytes())?;
    push_string(&mut *blob, signature)?;
    ask_of(alloc, 14, blob.as_slice())
}

/// The first bytes, so many or all.
pub fn front_of(bytes: &[u8], len: usize) -> &[u8] {
    &bytes[..len.min(bytes.len())]
}
