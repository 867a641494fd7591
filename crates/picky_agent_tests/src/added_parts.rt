//! Messages that add identities: without their secrets, and the parts of them.

use crate::keys::{KEYS, key_of};
use crate::talks::{LIST, add, front_of};
use picky_agent_bytes::{
    AgentCallError, AgentSecret, EcPart, EdPart, RsaPart, SkPart, agent_public_add, agent_secret,
};
use std::alloc::Global;
use std::mem::ManuallyDrop;
use std::test::Fail;

/// The message that adds the key at a place.
fn added(alloc: Global, place: usize) -> Result<Vec<u8>, Fail> {
    let row = KEYS.get(place).ok_or("no such key")?;
    let key = ManuallyDrop::new(key_of(alloc, row)?);
    add(alloc, key.private.as_slice(), b"a comment")
}

/// The place of a key in `KEYS`, where its secrets begin in the message, so many zeros for them, and where the rest begins.
type Bare = (usize, usize, usize, usize);

// By python3's struct.unpack of the message, whose first byte is its type. In place of a secret number stands the empty string; of
// RSA these are four. In place of an Ed25519 secret stand 32 zero bytes, and the public key follows; behind a device's handle, the
// empty string, stands the reserved one.
static BARE: [Bare; 7] = [
    (0, 152, 16, 491),
    (1, 105, 4, 141),
    (2, 137, 4, 189),
    (3, 173, 4, 243),
    (4, 56, 32, 88),
    (5, 129, 4, 139),
    (6, 76, 4, 86),
];

const ZEROS: &[u8] = &[0; 32];

fn is_bared(alloc: Global, row: &Bare) -> Result<bool, Fail> {
    let (place, start, zeros, rest) = row;
    let message = ManuallyDrop::new(added(alloc, *place)?);
    let rest = message.as_slice().get(*rest..).ok_or("too short")?;
    let mut wanted = ManuallyDrop::new(Vec::from_slice(
        alloc,
        front_of(message.as_slice(), *start),
    )?);
    wanted.extend_from_slice(front_of(ZEROS, *zeros))?;
    wanted.extend_from_slice(rest)?;
    let bare = ManuallyDrop::new(agent_public_add(alloc, message.as_slice()));
    match &*bare {
        Ok(bytes) => Ok(bytes.as_slice() == wanted.as_slice()),
        Err(_) => Ok(false),
    }
}

#[test]
fn takes_the_secrets_out(rt: HostRuntime) -> Result<(), Fail> {
    for row in &BARE {
        assert!(rt; is_bared(rt.alloc(), row)?, "{}", row.0);
    }
    Ok(())
}

/// The place of a key, a part of it, and where the part begins and ends in the message.
type Part = (usize, AgentSecret, usize, usize);

// By python3's struct.unpack of the message, and without a number's leading zeros.
static PARTS: [Part; 23] = [
    (0, AgentSecret::KeyType, 5, 12),
    (0, AgentSecret::Comment, 495, 504),
    (0, AgentSecret::Rsa(RsaPart::N), 17, 145),
    (0, AgentSecret::Rsa(RsaPart::E), 149, 152),
    (0, AgentSecret::Rsa(RsaPart::D), 156, 284),
    (0, AgentSecret::Rsa(RsaPart::Iqmp), 289, 353),
    (0, AgentSecret::Rsa(RsaPart::P), 358, 422),
    (0, AgentSecret::Rsa(RsaPart::Q), 427, 491),
    (1, AgentSecret::Ec(EcPart::Curve), 28, 36),
    (1, AgentSecret::Ec(EcPart::Point), 40, 105),
    (1, AgentSecret::Ec(EcPart::Secret), 109, 141),
    (3, AgentSecret::Ec(EcPart::Secret), 178, 243),
    (4, AgentSecret::Ed(EdPart::Public), 20, 52),
    (4, AgentSecret::Ed(EdPart::Secret), 56, 120),
    (5, AgentSecret::KeyType, 5, 39),
    (5, AgentSecret::Sk(SkPart::Public), 55, 120),
    (5, AgentSecret::Sk(SkPart::Application), 124, 128),
    (5, AgentSecret::Sk(SkPart::Flags), 128, 129),
    (5, AgentSecret::Sk(SkPart::Handle), 133, 139),
    (6, AgentSecret::Sk(SkPart::Public), 35, 67),
    (6, AgentSecret::Sk(SkPart::Application), 71, 75),
    (6, AgentSecret::Sk(SkPart::Flags), 75, 76),
    (6, AgentSecret::Sk(SkPart::Handle), 80, 86),
];

fn is_part(alloc: Global, row: &Part) -> Result<bool, Fail> {
    let (place, part, start, end) = row;
    let message = ManuallyDrop::new(added(alloc, *place)?);
    let wanted = message.as_slice().get(*start..*end).ok_or("too short")?;
    let found = ManuallyDrop::new(agent_secret(alloc, message.as_slice(), *part));
    match &*found {
        Ok(bytes) => Ok(bytes.as_slice() == wanted),
        Err(_) => Ok(false),
    }
}

#[test]
fn hands_out_the_parts(rt: HostRuntime) -> Result<(), Fail> {
    for row in &PARTS {
        assert!(rt; is_part(rt.alloc(), row)?, "{} at {}", row.0, row.2);
    }
    Ok(())
}

// The place of a key that has no such part.
static NO_PARTS: [(usize, AgentSecret); 5] = [
    (0, AgentSecret::Ec(EcPart::Secret)),
    (1, AgentSecret::Rsa(RsaPart::D)),
    (4, AgentSecret::Sk(SkPart::Flags)),
    (5, AgentSecret::Ec(EcPart::Point)),
    (6, AgentSecret::Ed(EdPart::Public)),
];

/// Both calls refuse the message for this, or, where the key has no such part, the first alone does.
fn is_refused(alloc: Global, message: &[u8], part: AgentSecret, why: AgentCallError) -> bool {
    let found = ManuallyDrop::new(agent_secret(alloc, message, part));
    let bare = ManuallyDrop::new(agent_public_add(alloc, message));
    match (&*found, &*bare) {
        (Err(e), Ok(_)) => *e == why && why == AgentCallError::NoSuchPart,
        (Err(e), Err(other)) => *e == why && *other == why,
        _ => false,
    }
}

fn has_no_part(alloc: Global, place: usize, part: AgentSecret) -> Result<bool, Fail> {
    let message = ManuallyDrop::new(added(alloc, place)?);
    Ok(is_refused(alloc, message.as_slice(), part, AgentCallError::NoSuchPart))
}

// Messages that add nothing, of which the last locks.
static NO_KEYS: [(&[u8], AgentCallError); 4] = [
    (b"", AgentCallError::NoMessage),
    (LIST, AgentCallError::NotAdd),
    (b"\x11", AgentCallError::NotAdd),
    (b"\x16\0\0\0\0", AgentCallError::NotAdd),
];

#[test]
fn refuses_messages_that_add_nothing(rt: HostRuntime) -> Result<(), Fail> {
    for (place, part) in &NO_PARTS {
        assert!(rt; has_no_part(rt.alloc(), *place, *part)?, "{place}");
    }
    for (message, why) in &NO_KEYS {
        assert!(rt;
            is_refused(rt.alloc(), message, AgentSecret::Comment, *why),
            "{why} at {}",
            message.len()
        );
    }
    Ok(())
}
