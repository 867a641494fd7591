//! What messages bring into a kept state, and what has to be signed before a message is answered.

use crate::keys::{KEYS, KeyRow, key_of, numbered_key};
use crate::talks::{LIST, REMOVE_ALL, add, lock, remove, sign, unlock};
use picky_agent_state::{Agent, KeepError};
use picky_keys::{HashAlgorithm, SignatureAlgorithm};
use std::alloc::Global;
use std::mem::ManuallyDrop;
use std::test::Fail;

/// What is signed.
pub const MESSAGE: &[u8] = b"message";

/// How many bytes a message here has at most.
const LIMIT: usize = 262_144;

/// The message brings the agent further, or is refused for this.
fn keeps(agent: &mut Agent, message: &[u8], refusal: Option<KeepError>) -> bool {
    if message.len() > LIMIT {
        return false;
    }
    agent.keep(message).err() == refusal
}

/// The agent has identities with these comments, and this passphrase.
fn has(agent: &Agent, comments: &[&str], pass: Option<&[u8]>) -> bool {
    let mut is_so = agent.identities().len() == comments.len() && agent.pass() == pass;
    for (identity, comment) in agent.identities().iter().zip(comments) {
        is_so = is_so && identity.comment.as_str() == *comment;
    }
    is_so
}

/// Nothing is brought by a message that adds no identity and doesn't lock.
fn keeps_nothing(alloc: Global, agent: &mut Agent, public: &[u8]) -> Result<bool, Fail> {
    let sign = ManuallyDrop::new(sign(alloc, public, b"m", 0)?);
    let remove = ManuallyDrop::new(remove(alloc, public)?);
    let unlock = ManuallyDrop::new(unlock(alloc, b"pass")?);
    let messages = [
        sign.as_slice(),
        remove.as_slice(),
        unlock.as_slice(),
        LIST,
        REMOVE_ALL,
        b"",
        b"\x11",
    ];
    let mut is_so = true;
    for message in &messages {
        is_so = is_so && keeps(agent, message, Some(KeepError::NotKept));
    }
    Ok(is_so)
}

/// An identity is added twice, and the agent is locked twice: no identity and no lock is looked at.
fn keeps_all(alloc: Global, agent: &mut Agent) -> Result<bool, Fail> {
    let key = ManuallyDrop::new(numbered_key(alloc, 1)?);
    let one = ManuallyDrop::new(add(alloc, key.private.as_slice(), b"one")?);
    let two = ManuallyDrop::new(add(alloc, key.private.as_slice(), b"two")?);
    let lock_first = ManuallyDrop::new(lock(alloc, b"pass")?);
    let lock_last = ManuallyDrop::new(lock(alloc, b"")?);
    Ok(
        has(agent, &[], None)
            && keeps(agent, one.as_slice(), None)
            && has(agent, &["one"], None)
            && keeps(agent, lock_first.as_slice(), None)
            && has(agent, &["one"], Some(b"pass"))
            && keeps(agent, two.as_slice(), None)
            && keeps_nothing(alloc, agent, key.public.as_slice())?
            && has(agent, &["one", "two"], Some(b"pass"))
            && keeps(agent, lock_last.as_slice(), None)
            && has(agent, &["one", "two"], Some(b"")),
    )
}

fn is_brought(alloc: Global) -> Result<bool, Fail> {
    let mut agent = ManuallyDrop::new(Agent::new(alloc));
    keeps_all(alloc, &mut *agent)
}

#[test]
fn keeps_identities_and_the_lock(rt: HostRuntime) -> Result<(), Fail> {
    assert!(rt; is_brought(rt.alloc())?);
    Ok(())
}

/// The place of a key in `KEYS`, flags, the algorithm with its name, and the format.
pub type Asked = (usize, u32, SignatureAlgorithm, &'static str, &'static str);

// RFC 8332, section 3, of RSA; RFC 5656, section 6.2.1, of ECDSA; RFC 8709, section 6. docs/FORMATS.md, "States of an agent", has the
// algorithms' names.
pub static ASKED: [Asked; 8] = [
    (
        0,
        0,
        SignatureAlgorithm::RsaPkcs1v15(HashAlgorithm::SHA1),
        "rsa-sha1",
        "ssh-rsa",
    ),
    (
        0,
        2,
        SignatureAlgorithm::RsaPkcs1v15(HashAlgorithm::SHA2_256),
        "rsa-sha2-256",
        "rsa-sha2-256",
    ),
    (
        0,
        6,
        SignatureAlgorithm::RsaPkcs1v15(HashAlgorithm::SHA2_256),
        "rsa-sha2-256",
        "rsa-sha2-256",
    ),
    (
        0,
        4,
        SignatureAlgorithm::RsaPkcs1v15(HashAlgorithm::SHA2_512),
        "rsa-sha2-512",
        "rsa-sha2-512",
    ),
    (
        1,
        4,
        SignatureAlgorithm::Ecdsa(HashAlgorithm::SHA2_256),
        "ecdsa-sha2-256",
        "ecdsa-sha2-nistp256",
    ),
    (
        2,
        0,
        SignatureAlgorithm::Ecdsa(HashAlgorithm::SHA2_384),
        "ecdsa-sha2-384",
        "ecdsa-sha2-nistp384",
    ),
    (
        3,
        0,
        SignatureAlgorithm::Ecdsa(HashAlgorithm::SHA2_512),
        "ecdsa-sha2-512",
        "ecdsa-sha2-nistp521",
    ),
    (4, 2, SignatureAlgorithm::Ed25519, "ed25519", "ssh-ed25519"),
];

/// This has to be signed, where there is a row, and else nothing.
fn is_asked(agent: &Agent, asked: &[u8], row: Option<&Asked>) -> bool {
    if asked.is_empty() || asked.len() > LIMIT {
        return false;
    }
    match (agent.question(asked), row) {
        (Some(question), Some((place, _, algorithm, _, format))) => {
            question.place == *place
                && question.algorithm == *algorithm
                && question.format.as_str() == *format
                && question.message == MESSAGE
        }
        (None, None) => true,
        _ => false,
    }
}

fn adds(alloc: Global, agent: &mut Agent, row: &KeyRow) -> Result<bool, Fail> {
    let key = ManuallyDrop::new(key_of(alloc, row)?);
    let add = ManuallyDrop::new(add(alloc, key.private.as_slice(), b"k")?);
    Ok(keeps(agent, add.as_slice(), None))
}

/// The request of a signature by the key at a place.
pub fn sign_of(alloc: Global, place: usize, flags: u32) -> Result<Vec<u8>, Fail> {
    let row = KEYS.get(place).ok_or("no such key")?;
    let key = ManuallyDrop::new(key_of(alloc, row)?);
    sign(alloc, key.public.as_slice(), MESSAGE, flags)
}

fn asks(alloc: Global, agent: &Agent, row: &Asked) -> Result<bool, Fail> {
    let asked = ManuallyDrop::new(sign_of(alloc, row.0, row.1)?);
    Ok(is_asked(agent, asked.as_slice(), Some(row)))
}

fn asks_nothing(alloc: Global, agent: &Agent, place: usize) -> Result<bool, Fail> {
    let asked = ManuallyDrop::new(sign_of(alloc, place, 0)?);
    Ok(is_asked(agent, asked.as_slice(), None))
}

/// Each key that signs is asked, a device's is not, and none is while the agent is locked.
fn asks_each(alloc: Global, agent: &mut Agent) -> Result<bool, Fail> {
    let mut is_so = asks_nothing(alloc, agent, 0)?;
    for row in &KEYS {
        is_so = is_so && adds(alloc, agent, row)?;
    }
    for row in &ASKED {
        is_so = is_so && asks(alloc, agent, row)?;
    }
    let lock = ManuallyDrop::new(lock(alloc, b"pass")?);
    Ok(
        is_so
            && asks_nothing(alloc, agent, 5)?
            && asks_nothing(alloc, agent, 6)?
            && is_asked(agent, LIST, None)
            && keeps(agent, lock.as_slice(), None)
            && asks_nothing(alloc, agent, 0)?,
    )
}

fn are_asked(alloc: Global) -> Result<bool, Fail> {
    let mut agent = ManuallyDrop::new(Agent::new(alloc));
    asks_each(alloc, &mut *agent)
}

#[test]
fn says_what_has_to_be_signed(rt: HostRuntime) -> Result<(), Fail> {
    assert!(rt; are_asked(rt.alloc())?);
    Ok(())
}
