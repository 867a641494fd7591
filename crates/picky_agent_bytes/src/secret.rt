//! The parts of an identity that a message adds, for a host that keeps the secrets.

ghost use Rattle.std.specs.Prelude.{◌≡◌, ◌++◌, Ok};
ghost use Rattle.std.specs.Option.{ok_or};
ghost use Rattle.picky_wire_base.specs.Gives.{Gives};
ghost use Rattle.picky_agent_bytes.specs.Secret.{ec_part, ed_part, part_of, rsa_part, secret_part, sk_part};

use crate::add::added_alone;
use crate::error::AgentCallError;
use picky_agent_state::Identity;
use picky_keys::EcCurveSshExt;
use picky_sshkey_blob::SshBasePrivateKey;
use std::alloc::Global;

/// A part of an identity.
#[derive(Clone, Copy, Debug, PartialEq, Eq)]
pub enum AgentSecret {
    /// The name of the key's type.
    KeyType,
    Comment,
    Rsa(RsaPart),
    Ec(EcPart),
    Ed(EdPart),
    Sk(SkPart),
}

/// A number of an RSA key, without leading zeros.
#[derive(Clone, Copy, Debug, PartialEq, Eq)]
pub enum RsaPart {
    N,
    E,
    D,
    Iqmp,
    P,
    Q,
}

/// A part of an ECDSA key: the curve's identifier, as `nistp256`, the point, and the secret number without leading zeros.
#[derive(Clone, Copy, Debug, PartialEq, Eq)]
pub enum EcPart {
    Curve,
    Point,
    Secret,
}

/// A part of an Ed25519 key: the 32 bytes of the public key; those of the secret, and then of the public key.
#[derive(Clone, Copy, Debug, PartialEq, Eq)]
pub enum EdPart {
    Public,
    Secret,
}

/// A part of a security key: the public point or key, the application, the byte of its flags, and the device's handle.
#[derive(Clone, Copy, Debug, PartialEq, Eq)]
pub enum SkPart {
    Public,
    Application,
    Flags,
    Handle,
}

/// A part of the identity that the message adds.
///
/// Refuses, in order: as `added_alone`; `NoSuchPart`, where the kind of the key has none.
pub fn agent_secret(
    alloc: Global,
    message: &[u8],
    part: AgentSecret,
) -> Result<Vec<u8>, AgentCallError>
    ensures { Gives AgentCallError.NoMemory (λ bytes. bytes.items) result (secret_part message.now part) }
{
    let agent = match added_alone(alloc, message) {
        Ok(agent) => agent,
        Err(e) => return Err(e),
    };
    match agent.identities() {
        [identity] => match part_bytes(alloc, identity, part) {
            Ok(bytes) => Ok(bytes),
            Err(e) => Err(e),
        },
        _ => Err(AgentCallError::NotAdd),
    }
}

fn part_bytes(
    alloc: Global,
    identity: &Identity,
    part: AgentSecret,
) -> Result<Vec<u8>, AgentCallError>
    ensures { Gives AgentCallError.NoMemory (λ bytes. bytes.items) result (ok_or (part_of part identity.now) AgentCallError.NoSuchPart) }
{
    match part {
        AgentSecret::KeyType => copy(alloc, identity.key.kind().name().as_bytes()),
        AgentSecret::Comment => copy(alloc, identity.comment.as_str().as_bytes()),
        AgentSecret::Rsa(part) => rsa_bytes(alloc, &identity.key, part),
        AgentSecret::Ec(part) => ec_bytes(alloc, &identity.key, part),
        AgentSecret::Ed(part) => ed_bytes(alloc, &identity.key, part),
        AgentSecret::Sk(part) => sk_bytes(alloc, &identity.key, part),
    }
}

fn rsa_bytes(
    alloc: Global,
    key: &SshBasePrivateKey,
    part: RsaPart,
) -> Result<Vec<u8>, AgentCallError>
    ensures { Gives AgentCallError.NoMemory (λ bytes. bytes.items) result (ok_or (rsa_part part key.now) AgentCallError.NoSuchPart) }
{
    match key {
        SshBasePrivateKey::Rsa {
            n,
            e,
            d,
            iqmp,
            p,
            q,
        } => match part {
            RsaPart::N => copy(alloc, n.bytes()),
            RsaPart::E => copy(alloc, e.bytes()),
            RsaPart::D => copy(alloc, d.bytes()),
            RsaPart::Iqmp => copy(alloc, iqmp.bytes()),
            RsaPart::P => copy(alloc, p.bytes()),
            RsaPart::Q => copy(alloc, q.bytes()),
        },
        SshBasePrivateKey::Ec { .. } => Err(AgentCallError::NoSuchPart),
        SshBasePrivateKey::Ed { .. } => Err(AgentCallError::NoSuchPart),
        SshBasePrivateKey::SkEcdsaSha2NistP256 { .. } => Err(AgentCallError::NoSuchPart),
        SshBasePrivateKey::SkEd25519 { .. } => Err(AgentCallError::NoSuchPart),
    }
}

fn ec_bytes(alloc: Global, key: &SshBasePrivateKey, part: EcPart) -> Result<Vec<u8>, AgentCallError>
    ensures { Gives AgentCallError.NoMemory (λ bytes. bytes.items) result (ok_or (ec_part part key.now) AgentCallError.NoSuchPart) }
{
    match key {
        SshBasePrivateKey::Ec {
            curve,
            point,
            secret,
        } => match part {
            EcPart::Curve => copy(alloc, curve.to_ecdsa_ssh_key_identifier().as_bytes()),
            EcPart::Point => copy(alloc, point.as_slice()),
            EcPart::Secret => copy(alloc, secret.bytes()),
        },
        SshBasePrivateKey::Rsa { .. } => Err(AgentCallError::NoSuchPart),
        SshBasePrivateKey::Ed { .. } => Err(AgentCallError::NoSuchPart),
        SshBasePrivateKey::SkEcdsaSha2NistP256 { .. } => Err(AgentCallError::NoSuchPart),
        SshBasePrivateKey::SkEd25519 { .. } => Err(AgentCallError::NoSuchPart),
    }
}

fn ed_bytes(alloc: Global, key: &SshBasePrivateKey, part: EdPart) -> Result<Vec<u8>, AgentCallError>
    ensures { Gives AgentCallError.NoMemory (λ bytes. bytes.items) result (ok_or (ed_part part key.now) AgentCallError.NoSuchPart) }
{
    match key {
        SshBasePrivateKey::Ed { secret, public } => match part {
            EdPart::Public => copy(alloc, public),
            EdPart::Secret => joined(alloc, secret, public),
        },
        SshBasePrivateKey::Rsa { .. } => Err(AgentCallError::NoSuchPart),
        SshBasePrivateKey::Ec { .. } => Err(AgentCallError::NoSuchPart),
        SshBasePrivateKey::SkEcdsaSha2NistP256 { .. } => Err(AgentCallError::NoSuchPart),
        SshBasePrivateKey::SkEd25519 { .. } => Err(AgentCallError::NoSuchPart),
    }
}

fn sk_bytes(alloc: Global, key: &SshBasePrivateKey, part: SkPart) -> Result<Vec<u8>, AgentCallError>
    ensures { Gives AgentCallError.NoMemory (λ bytes. bytes.items) result (ok_or (sk_part part key.now) AgentCallError.NoSuchPart) }
{
    match key {
        SshBasePrivateKey::SkEcdsaSha2NistP256 {
            point,
            application,
            flags,
            handle,
        } => match part {
            SkPart::Public => copy(alloc, point.as_slice()),
            SkPart::Application => copy(alloc, application.as_str().as_bytes()),
            SkPart::Flags => copy(alloc, &[*flags]),
            SkPart::Handle => copy(alloc, handle.as_slice()),
        },
        SshBasePrivateKey::SkEd25519 {
            key,
            application,
            flags,
            handle,
        } => match part {
            SkPart::Public => copy(alloc, key),
            SkPart::Application => copy(alloc, application.as_str().as_bytes()),
            SkPart::Flags => copy(alloc, &[*flags]),
            SkPart::Handle => copy(alloc, handle.as_slice()),
        },
        SshBasePrivateKey::Rsa { .. } => Err(AgentCallError::NoSuchPart),
        SshBasePrivateKey::Ec { .. } => Err(AgentCallError::NoSuchPart),
        SshBasePrivateKey::Ed { .. } => Err(AgentCallError::NoSuchPart),
    }
}

/// A copy of the bytes. Refuses: `NoMemory`.
fn copy(alloc: Global, bytes: &[u8]) -> Result<Vec<u8>, AgentCallError>
    ensures { Gives AgentCallError.NoMemory (λ bytes. bytes.items) result (Ok bytes.now) }
{
    joined(alloc, bytes, &[])
}

/// A copy of the bytes, one after the other. Refuses: `NoMemory`.
fn joined(alloc: Global, first: &[u8], second: &[u8]) -> Result<Vec<u8>, AgentCallError>
    ensures { Gives AgentCallError.NoMemory (λ bytes. bytes.items) result (Ok (first.now ++ second.now)) }
{
    match Vec::from_slice(alloc, first) {
        Ok(mut bytes) => match bytes.extend_from_slice(second) {
            Ok(()) => Ok(bytes),
            Err(_) => Err(AgentCallError::NoMemory),
        },
        Err(_) => Err(AgentCallError::NoMemory),
    }
}
