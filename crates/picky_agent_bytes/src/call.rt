//! The calls of an agent whose state is bytes: what has to be signed, the reply, and the state behind the message.

ghost use Rattle.std.specs.Prelude.{◌≡◌, ◌≤◌, ◌<◌, ◌^◌, ◌⊎◌, ◌++◌, ◌∷◌, [], length, Err, IfErr, IfOk, OnOk};
ghost use Rattle.std.specs.Int.{w32, to_be_bytes};
ghost use Rattle.std.specs.List.{concat};
ghost use Rattle.picky_wire_base.specs.Wire.{string_of};
ghost use Rattle.picky_wire_base.specs.Gives.{Gives};
ghost use Rattle.picky_keys.specs.Blob.{blob_of};
ghost use Rattle.picky_sshkey_blob.specs.Key.{public_part};
ghost use Rattle.picky_agent_state.specs.Message.{IsMessage};
ghost use Rattle.picky_agent_bytes.specs.Call.{if_message, kept_for, kept_to_reply, question_of};
ghost use Rattle.picky_agent_bytes.specs.Call.{AnswersNext, AnswersQuestion, AnswersReply, IsNextTooLong, IsQuestionTooLong, IsReply};

use crate::algorithm_name::algorithm_name;
use crate::error::{AgentCallError, state_refusal};
use crate::read::read_agent;
use crate::signature::GivenSignature;
use crate::write::write_agent;
use picky_agent_state::Agent;
use picky_cert_parts::SshSignatureFormat;
use picky_keys::SignatureAlgorithm;
use picky_sshkey_blob::{SshBasePrivateKey, public_bytes};
use picky_suite::HandedSigner;
use picky_wire::{Bytes, MAX_LEN, NoMemory, Piece, SizeError, push_pieces};
use std::alloc::Global;

/// How many bytes a message has at most.
pub(crate) const MESSAGE_LIMIT: usize = 262_144;

/// What has to be signed before an agent in this state answers the message; no bytes where nothing has.
///
/// Fields of RFC 4251, section 5: uint32 place of the identity, string blob of its public key, string name of the algorithm,
/// string name of the signature's format, string message. Refuses, in order: as `agent_for`; `TooLong`, where they have 2^32
/// bytes or more.
pub fn agent_question(
    alloc: Global,
    state: &[u8],
    message: &[u8],
) -> Result<Vec<u8>, AgentCallError>
    ensures ok { IfOk result (λ bytes. AnswersQuestion state.now message.now bytes.items) }
    ensures err { IfErr result (λ e. (e ≡ AgentCallError.NoMemory)
        ⊎ ((e ≡ AgentCallError.TooLong) × IsQuestionTooLong state.now message.now) ⊎ (kept_for state.now message.now ≡ Err e)) }
{
    let agent = match agent_for(alloc, state, message) {
        Ok(agent) => agent,
        Err(e) => return Err(e),
    };
    match agent.question(message) {
        Some(question) => {
            let identity = &agent.identities()[question.place];
            let place = question.place as u32;
            match question_bytes(
                alloc,
                &identity.key,
                place,
                question.algorithm,
                question.format,
                question.message,
            ) {
                Ok(bytes) => Ok(bytes),
                Err(e) => Err(e),
            }
        }
        None => Ok(Vec::new(alloc)),
    }
}

/// The reply of an agent in this state to the message, with this signature where one is asked for; no bytes as signature mean
/// that the device failed.
///
/// The type and contents of the reply, as of draft-miller-ssh-agent-04. Refuses, in order: `SignatureTooLong`; as `agent_for`.
pub fn agent_reply(
    alloc: Global,
    state: &[u8],
    message: &[u8],
    signature: &[u8],
) -> Result<Vec<u8>, AgentCallError>
    ensures ok { IfOk result (λ reply. AnswersReply state.now message.now signature.now reply.items) }
    ensures err { IfErr result (λ e. (e ≡ AgentCallError.NoMemory) ⊎ (kept_to_reply state.now message.now signature.now ≡ Err e)) }
{
    if signature.len() > MAX_LEN {
        return Err(AgentCallError::SignatureTooLong);
    }
    let mut agent = match agent_for(alloc, state, message) {
        Ok(agent) => agent,
        Err(e) => return Err(e),
    };
    match replied(&mut agent, message, signature) {
        Ok(reply) => Ok(reply.into_vec()),
        Err(NoMemory) => Err(AgentCallError::NoMemory),
    }
}

/// The bytes of the agent's state behind the message. A message that asks for a signature changes nothing.
///
/// Refuses, in order: as `agent_for`; `TooLong`, where they have more than 2^30 bytes.
pub fn agent_next(alloc: Global, state: &[u8], message: &[u8]) -> Result<Vec<u8>, AgentCallError>
    ensures ok { IfOk result (λ bytes. AnswersNext state.now message.now bytes.items) }
    ensures err { IfErr result (λ e. (e ≡ AgentCallError.NoMemory)
        ⊎ ((e ≡ AgentCallError.TooLong) × IsNextTooLong state.now message.now) ⊎ (kept_for state.now message.now ≡ Err e)) }
{
    let mut agent = match agent_for(alloc, state, message) {
        Ok(agent) => agent,
        Err(e) => return Err(e),
    };
    let mut signer = HandedSigner::new(None);
    match agent.answer(&mut signer, message) {
        Ok(_) => match write_agent(alloc, &agent) {
            Ok(bytes) => Ok(bytes),
            Err(SizeError::TooLong) => Err(AgentCallError::TooLong),
            Err(SizeError::NoMemory) => Err(AgentCallError::NoMemory),
        },
        Err(NoMemory) => Err(AgentCallError::NoMemory),
    }
}

/// The agent in this state, where the message may be one.
///
/// Refuses, in order: `NoMessage`, `MessageTooLong`; `State`, as `read_agent` refuses the bytes.
fn agent_for(alloc: Global, state: &[u8], message: &[u8]) -> Result<Agent, AgentCallError>
    ensures gives { Gives AgentCallError.NoMemory (λ agent. agent) result (kept_for state.now message.now) }
    ensures message { IfOk result (λ _. IsMessage message.now) }
{
    if message.is_empty() {
        return Err(AgentCallError::NoMessage);
    }
    if message.len() > MESSAGE_LIMIT {
        return Err(AgentCallError::MessageTooLong);
    }
    match read_agent(alloc, state) {
        Ok(agent) => Ok(agent),
        Err(e) => Err(state_refusal(e)),
    }
}

/// The agent's reply to the message, with this signature or with none. Refuses: `NoMemory`.
fn replied(agent: &mut Agent, message: &[u8], signature: &[u8]) -> Result<Bytes, NoMemory>
    requires { IsMessage message.now }
    ensures { IfOk result (λ reply. IsReply agent.old message.now signature.now reply) }
{
    if signature.is_empty() {
        return agent.answer(&mut HandedSigner::new(None), message);
    }
    agent.answer(&mut GivenSignature { signature }, message)
}

/// The question's bytes, of an identity's key. Refuses, in order: `TooLong`, where the public key's blob or the message has 2^32
/// bytes or more.
#[tactic(auto, unfolding(crate::specs::Call::question_of))]
fn question_bytes(
    alloc: Global,
    key: &SshBasePrivateKey,
    place: u32,
    algorithm: SignatureAlgorithm,
    format: SshSignatureFormat,
    message: &[u8],
) -> Result<Vec<u8>, AgentCallError>
    ensures ok { IfOk result (λ bytes. bytes.items ≡ question_of (public_part key.now) place algorithm format message.now) }
    ensures err { IfErr result (λ e. (e ≡ AgentCallError.NoMemory) ⊎ ((e ≡ AgentCallError.TooLong)
        × ((2 ^ 32 ≤ length (blob_of (public_part key.now))) ⊎ (2 ^ 32 ≤ length message.now)))) }
{
    let blob = match public_bytes(alloc, key) {
        Ok(blob) => blob,
        Err(NoMemory) => return Err(AgentCallError::NoMemory),
    };
    if blob.len() > MAX_LEN {
        return Err(AgentCallError::TooLong);
    }
    if message.len() > MAX_LEN {
        return Err(AgentCallError::TooLong);
    }
    let mut bytes = Vec::new(alloc);
    let name = algorithm_name(algorithm);
    match push_question(
        &mut bytes,
        place,
        blob.as_slice(),
        name,
        format.as_str(),
        message,
    ) {
        Ok(()) => Ok(bytes),
        Err(NoMemory) => Err(AgentCallError::NoMemory),
    }
}

/// Appends a question's fields. Refuses: `NoMemory`.
fn push_question(
    out: &mut Vec<u8>,
    place: u32,
    key: &[u8],
    algorithm: &str,
    format: &str,
    message: &[u8],
) -> Result<(), NoMemory>
    requires key { length key.now < 2 ^ 32 }
    requires algorithm { length algorithm.now < 2 ^ 32 }
    requires format { length format.now < 2 ^ 32 }
    requires message { length message.now < 2 ^ 32 }
    ensures { OnOk result (out.new.items ≡ out.old.items ++ concat (to_be_bytes w32 place ∷ string_of key.now
        ∷ string_of algorithm.now ∷ string_of format.now ∷ string_of message.now ∷ [])) }
{
    let pieces = [
        Piece::uint32(place),
        Piece::string(key),
        Piece::string(algorithm.as_bytes()),
        Piece::string(format.as_bytes()),
        Piece::string(message),
    ];
    match push_pieces(out, &pieces) {
        Ok(()) => Ok(()),
        Err(_) => Err(NoMemory),
    }
}
