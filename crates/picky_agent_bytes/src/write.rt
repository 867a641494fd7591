//! The bytes of an agent's state.

ghost use Rattle.std.specs.Prelude.{◌≡◌, ◌<◌, ◌++◌, ◌∷◌, [], length, flat_map, All, IfOk, IsErrOf, Ok, OnOk};
ghost use Rattle.std.specs.Int.{w32, to_be_bytes};
ghost use Rattle.picky_wire_base.specs.Gives.{Gives};
ghost use Rattle.picky_wire_base.specs.Wire.{string_of};
ghost use Rattle.picky_agent_state.specs.Keep.{keep_limit};
ghost use Rattle.picky_agent_bytes.specs.State.{adding, framed, limited, locking, state_read, written as written_of};
ghost use Rattle.picky_agent_bytes.specs.IsState.{IsIdentity};

use picky_agent_state::{Agent, Identity};
use picky_sshkey_blob::secret_pieces;
use picky_wire::{NoMemory, Piece, SizeError, pieces_len, push_pieces};
use std::alloc::Global;

/// How many bytes a state has at most: 2^30.
pub(crate) const STATE_LIMIT: usize = 1_073_741_824;

/// SSH_AGENTC_ADD_IDENTITY of draft-miller-ssh-agent-04.
pub(crate) const ADD_IDENTITY: u8 = 17;

/// SSH_AGENTC_LOCK.
const LOCK: u8 = 22;

/// The bytes of the agent's state.
///
/// The messages that bring a new agent there, each as a `string` of RFC 4251, section 5: SSH_AGENTC_ADD_IDENTITY of each
/// identity in order, and SSH_AGENTC_LOCK where the agent is locked. Refuses, in order: `TooLong`, where they have more
/// than 2^30 bytes.
pub fn write_agent(alloc: Global, agent: &Agent) -> Result<Vec<u8>, SizeError>
    ensures gives { Gives SizeError.NoMemory (λ bytes. bytes.items) result (written_of agent.now) }
    ensures read { IfOk result (λ bytes. state_read bytes.items ≡ Ok agent.now) }
{
    let mut out = Vec::new(alloc);
    match push_identities(&mut out, agent.identities()) {
        Ok(()) => {}
        Err(e) => return Err(e),
    }
    match agent.pass() {
        Some(pass) => match push_lock(&mut out, pass) {
            Ok(()) => within_limit(out),
            Err(e) => Err(e),
        },
        None => within_limit(out),
    }
}

/// The bytes, where they are at most 2^30. Refuses: `TooLong`.
fn within_limit(bytes: Vec<u8>) -> Result<Vec<u8>, SizeError>
    ensures { Gives SizeError.NoMemory (λ bytes. bytes.items) result (limited bytes.items) }
{
    if bytes.len() > STATE_LIMIT {
        return Err(SizeError::TooLong);
    }
    Ok(bytes)
}

/// Appends the message of each identity. Refuses, in order: `TooLong`.
fn push_identities(out: &mut Vec<u8>, identities: &[Identity]) -> Result<(), SizeError>
    ensures ok { OnOk result (out.new.items ≡ out.old.items ++ flat_map framed identities.now) }
    ensures are { OnOk result (All IsIdentity identities.now) }
    ensures too_long_only_if_long { IsErrOf result SizeError.TooLong → keep_limit < length (flat_map framed identities.now) }
{
    'identities: for identity in identities {
        match push_identity(out, identity) {
            Ok(()) => {}
            Err(e) => return Err(e),
        }
    }
    Ok(())
}

/// Appends the message that adds an identity. Refuses, in order: `TooLong`, where it has more than 2^30 bytes.
fn push_identity(out: &mut Vec<u8>, identity: &Identity) -> Result<(), SizeError>
    ensures ok { OnOk result (out.new.items ≡ out.old.items ++ framed identity.now) }
    ensures is { IsIdentity identity.now }
    ensures too_long_only_if_long { IsErrOf result SizeError.TooLong → keep_limit < length (adding identity.now) }
{
    let secret = secret_pieces(&identity.key);
    let comment = [Piece::text(&identity.comment)];
    let len = pieces_len(&secret) + pieces_len(&comment) + 1;
    if len > STATE_LIMIT as u64 {
        return Err(SizeError::TooLong);
    }
    match push_head(out, len as u32, ADD_IDENTITY) {
        Ok(()) => {}
        Err(_) => return Err(SizeError::NoMemory),
    }
    match push_pieces(out, &secret) {
        Ok(()) => {}
        Err(_) => return Err(SizeError::NoMemory),
    }
    match push_pieces(out, &comment) {
        Ok(()) => Ok(()),
        Err(_) => Err(SizeError::NoMemory),
    }
}

/// Appends the length of a message and its type. Refuses: `NoMemory`.
fn push_head(out: &mut Vec<u8>, len: u32, kind: u8) -> Result<(), NoMemory>
    ensures { OnOk result (out.new.items ≡ out.old.items ++ (to_be_bytes w32 len ++ kind ∷ [])) }
{
    let [a, b, c, d] = len.to_be_bytes();
    match out.extend_from_slice(&[a, b, c, d, kind]) {
        Ok(()) => Ok(()),
        Err(_) => Err(NoMemory),
    }
}

/// Appends the message that locks. Refuses, in order: `TooLong`, where it has more than 2^30 bytes.
fn push_lock(out: &mut Vec<u8>, pass: &[u8]) -> Result<(), SizeError>
    ensures ok { OnOk result (out.new.items ≡ out.old.items ++ string_of (locking pass.now)) }
    ensures short { OnOk result (length pass.now < keep_limit) }
    ensures too_long_only_if_long { IsErrOf result SizeError.TooLong → keep_limit < length (locking pass.now) }
{
    if pass.len() > STATE_LIMIT - 5 {
        return Err(SizeError::TooLong);
    }
    let len = pass.len() + 5;
    let message = [
        Piece::uint32(len as u32),
        Piece::byte(LOCK),
        Piece::string(pass),
    ];
    match push_pieces(out, &message) {
        Ok(()) => Ok(()),
        Err(_) => Err(SizeError::NoMemory),
    }
}
