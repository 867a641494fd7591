//! The message that adds an identity, without its secrets.

ghost use Rattle.std.specs.Prelude.{◌≡◌, ◌∷◌, [], IfOk, Ok};
ghost use Rattle.picky_wire_base.specs.Gives.{Gives};
ghost use Rattle.picky_wire_base.specs.Outcome.{map_ok};
ghost use Rattle.picky_agent_bytes.specs.Bare.{added_by, bare as bare_of, bare_key as bare_key_of, bare_request, public_add};
ghost use Rattle.picky_agent_state.specs.Request.{Add, request_of};
ghost use Rattle.picky_agent_bytes.specs.State.{adding};

use crate::call::MESSAGE_LIMIT;
use crate::error::AgentCallError;
use crate::write::ADD_IDENTITY;
use picky_agent_state::{Agent, Identity, KeepError};
use picky_sshkey_blob::{SshBasePrivateKey, secret_pieces};
use picky_wire::{Bytes, Mpint, NoMemory, Piece, TryClone, both, push_pieces};
use std::alloc::Global;

/// The message that adds the same identity without its secrets: each secret number is zero, the 32 bytes of an Ed25519 secret
/// are, and the handle of a security key is empty.
///
/// SSH_AGENTC_ADD_IDENTITY of draft-miller-ssh-agent-04, in its one spelling. Refuses, in order: as `added_alone`.
pub fn agent_public_add(alloc: Global, message: &[u8]) -> Result<Vec<u8>, AgentCallError>
    ensures gives { Gives AgentCallError.NoMemory (λ bytes. bytes.items) result (public_add message.now) }
    ensures asks { IfOk result (λ bytes. request_of bytes.items ≡ bare_request (request_of message.now)) }
{
    let agent = match added_alone(alloc, message) {
        Ok(agent) => agent,
        Err(e) => return Err(e),
    };
    match agent.identities() {
        [identity] => match bare_bytes(alloc, identity) {
            Ok(bytes) => Ok(bytes),
            Err(e) => Err(e),
        },
        _ => Err(AgentCallError::NotAdd),
    }
}

/// An agent that keeps the identity alone which the message adds.
///
/// Refuses, in order: `NoMessage`, `MessageTooLong`, `NotAdd`.
pub(crate) fn added_alone(alloc: Global, message: &[u8]) -> Result<Agent, AgentCallError>
    ensures { Gives AgentCallError.NoMemory (λ agent. agent.identities) result (map_ok (λ identity. identity ∷ []) (added_by message.now)) }
{
    if message.is_empty() {
        return Err(AgentCallError::NoMessage);
    }
    if message.len() > MESSAGE_LIMIT {
        return Err(AgentCallError::MessageTooLong);
    }
    let mut agent = Agent::new(alloc);
    match agent.keep(message) {
        Ok(()) => {}
        Err(KeepError::NoMemory) => return Err(AgentCallError::NoMemory),
        Err(KeepError::NotKept) => return Err(AgentCallError::NotAdd),
        Err(KeepError::TooMany) => return Err(AgentCallError::NotAdd),
    }
    if agent.identities().is_empty() {
        return Err(AgentCallError::NotAdd);
    }
    Ok(agent)
}

/// The message that adds the identity without its secrets. Refuses: `NoMemory`.
fn bare_bytes(alloc: Global, identity: &Identity) -> Result<Vec<u8>, AgentCallError>
    ensures gives { Gives AgentCallError.NoMemory (λ bytes. bytes.items) result (Ok (adding (bare_of identity.now))) }
    ensures asks { IfOk result (λ bytes. request_of bytes.items ≡ Add (bare_of identity.now)) }
{
    let key = match bare_key(alloc, &identity.key) {
        Ok(key) => key,
        Err(NoMemory) => return Err(AgentCallError::NoMemory),
    };
    let mut bytes = match Vec::from_slice(alloc, &[ADD_IDENTITY]) {
        Ok(bytes) => bytes,
        Err(_) => return Err(AgentCallError::NoMemory),
    };
    let secret = secret_pieces(&key);
    match push_pieces(&mut bytes, &secret) {
        Ok(()) => {}
        Err(_) => return Err(AgentCallError::NoMemory),
    }
    let comment = [Piece::text(&identity.comment)];
    match push_pieces(&mut bytes, &comment) {
        Ok(()) => Ok(bytes),
        Err(_) => Err(AgentCallError::NoMemory),
    }
}

/// The key without its secrets. Refuses: `NoMemory`.
fn bare_key(alloc: Global, key: &SshBasePrivateKey) -> Result<SshBasePrivateKey, NoMemory>
    ensures { IfOk result (λ bare. bare ≡ bare_key_of key.now) }
{
    match key {
        SshBasePrivateKey::Rsa { n, e, .. } => {
            let public = both(n.try_clone(alloc), e.try_clone(alloc));
            let secret = both(zero(alloc), zero(alloc));
            let primes = both(zero(alloc), zero(alloc));
            let (((n, e), (d, iqmp)), (p, q)) = both(both(public, secret), primes)?;
            Ok(SshBasePrivateKey::Rsa {
                n,
                e,
                d,
                iqmp,
                p,
                q,
            })
        }
        SshBasePrivateKey::Ec { curve, point, .. } => {
            let point = point.try_clone(alloc)?;
            let secret = zero(alloc)?;
            Ok(SshBasePrivateKey::Ec {
                curve: *curve,
                point,
                secret,
            })
        }
        SshBasePrivateKey::Ed { public, .. } => Ok(SshBasePrivateKey::Ed {
            secret: [0; 32],
            public: *public,
        }),
        SshBasePrivateKey::SkEcdsaSha2NistP256 {
            point,
            application,
            flags,
            ..
        } => {
            let (point, application) = both(point.try_clone(alloc), application.try_clone(alloc))?;
            Ok(SshBasePrivateKey::SkEcdsaSha2NistP256 {
                point,
                application,
                flags: *flags,
                handle: Bytes::from_vec(Vec::new(alloc)),
            })
        }
        SshBasePrivateKey::SkEd25519 {
            key,
            application,
            flags,
            ..
        } => {
            let application = application.try_clone(alloc)?;
            Ok(SshBasePrivateKey::SkEd25519 {
                key: *key,
                application,
                flags: *flags,
                handle: Bytes::from_vec(Vec::new(alloc)),
            })
        }
    }
}

/// Zero, which has no bytes. It takes no memory.
fn zero(alloc: Global) -> Result<Mpint, NoMemory>
    ensures { IfOk result (λ number. number ≡ []) }
{
    match Mpint::from_vec(Vec::new(alloc)) {
        Ok(number) => Ok(number),
        Err(_) => Err(NoMemory),
    }
}
