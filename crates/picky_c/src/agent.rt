//! An agent whose state is bytes: what C calls of it.

ghost use Rattle.std.specs.Prelude.{◌≡◌, IfOk, false};
ghost use Rattle.picky_wire_base.specs.Gives.{Gives};
ghost use Rattle.picky_wire_base.specs.Outcome.{map_err, map_ok};
ghost use Rattle.picky_c.specs.Agent.{AnswersNextCall, AnswersQuestionCall, AnswersReplyCall, IsPublicAdd};
ghost use Rattle.picky_c.specs.Agent.{agent_refusal as agent_refusal_of, public_add_in, secret_in, secret_numbered};
ghost use Rattle.picky_c.specs.Answer.{AnswersCall, Comes};

use crate::answer::{PickyAnswer, hand, refuse};
use crate::error::PickyError;
use crate::given::PickyBytes;
use picky_agent_bytes::{
    AgentCallError, AgentSecret, EcPart, EdPart, RsaPart, SkPart, agent_next, agent_public_add,
    agent_question, agent_reply, agent_secret,
};
use picky_target::ConvertError;
use std::alloc::Global;

/// What has to be signed before an agent in this state answers the message, as the fields of a question; no bytes where nothing has.
///
/// Refuses, in order: `NoMessage`, `MessageTooLong`, `State` as `picky_agent_bytes::read_agent`, `TooLong`, and `BufferTooSmall`.
#[unsafe(no_mangle)]
pub extern "C" fn picky_agent_question(
    alloc: Global,
    state: PickyBytes<'_>,
    message: PickyBytes<'_>,
    out: &mut [u8],
) -> PickyAnswer
    ensures { AnswersQuestionCall state.entry.bytes.now message.entry.bytes.now result out.old out.new }
{
    let outcome = agent_question(alloc, state.bytes, message.bytes);
    hand_agent(outcome, out)
}

/// The reply of an agent in this state to the message, with this signature where one is asked for; no bytes as signature mean that
/// the device failed.
///
/// Refuses, in order: `SignatureTooLong`, `NoMessage`, `MessageTooLong`, `State`, and `BufferTooSmall`.
#[unsafe(no_mangle)]
pub extern "C" fn picky_agent_reply(
    alloc: Global,
    state: PickyBytes<'_>,
    message: PickyBytes<'_>,
    signature: PickyBytes<'_>,
    out: &mut [u8],
) -> PickyAnswer
    ensures { AnswersReplyCall state.entry.bytes.now message.entry.bytes.now signature.entry.bytes.now result out.old out.new }
{
    let outcome = agent_reply(alloc, state.bytes, message.bytes, signature.bytes);
    hand_agent(outcome, out)
}

/// The bytes of the agent's state behind the message, whichever signature it was answered with.
///
/// Refuses, in order: `NoMessage`, `MessageTooLong`, `State`, `TooLong`, and `BufferTooSmall`.
#[unsafe(no_mangle)]
pub extern "C" fn picky_agent_next(
    alloc: Global,
    state: PickyBytes<'_>,
    message: PickyBytes<'_>,
    out: &mut [u8],
) -> PickyAnswer
    ensures { AnswersNextCall state.entry.bytes.now message.entry.bytes.now result out.old out.new }
{
    let outcome = agent_next(alloc, state.bytes, message.bytes);
    hand_agent(outcome, out)
}

/// The message that adds the same identity without its secrets. An agent replies the same with it, but for what is signed.
///
/// Refuses, in order: `NoMessage`, `MessageTooLong`, `NotAdd`, and `BufferTooSmall`.
#[unsafe(no_mangle)]
pub extern "C" fn picky_agent_public_add(
    alloc: Global,
    message: PickyBytes<'_>,
    out: &mut [u8],
) -> PickyAnswer
    ensures { AnswersCall (public_add_in message.entry.bytes.now) false (IsPublicAdd message.entry.bytes.now) result out.old out.new }
{
    let outcome = public_add(alloc, message.bytes);
    hand(outcome, out)
}

/// The part with a number of the identity that a message adds: its secrets, one by one.
///
/// Refuses, in order: `NoSuchPart`, where the number names none; `NoMessage`, `MessageTooLong`, `NotAdd`; `NoSuchPart`, where the
/// kind of the key has none; and `BufferTooSmall`.
#[unsafe(no_mangle)]
pub extern "C" fn picky_agent_secret(
    alloc: Global,
    message: PickyBytes<'_>,
    part: u32,
    out: &mut [u8],
) -> PickyAnswer
    ensures { AnswersCall (secret_in message.entry.bytes.now part) false (λ bytes. Unit {0}) result out.old out.new }
{
    let outcome = secret(alloc, message.bytes, part);
    hand(outcome, out)
}

/// Hands out what an agent's call comes to.
fn hand_agent(outcome: Result<Vec<u8>, AgentCallError>, out: &mut [u8]) -> PickyAnswer
    ensures { Comes (map_err agent_refusal_of (map_ok (λ bytes. bytes.items) outcome)) result out.old out.new }
{
    match outcome {
        Ok(bytes) => hand(Ok(bytes), out),
        Err(e) => refuse(agent_refusal(e)),
    }
}

/// The message that adds the same identity without its secrets.
fn public_add(alloc: Global, message: &[u8]) -> Result<Vec<u8>, PickyError>
    ensures gives { Gives PickyError.NoMemory (λ bytes. bytes.items) result (public_add_in message.now) }
    ensures means { IfOk result (λ bytes. IsPublicAdd message.now bytes.items) }
{
    match agent_public_add(alloc, message) {
        Ok(bytes) => Ok(bytes),
        Err(e) => Err(agent_refusal(e)),
    }
}

/// The part with a number of the identity that the message adds.
///
/// Refuses, in order: `NoSuchPart`, and as `picky_agent_bytes::agent_secret`.
fn secret(alloc: Global, message: &[u8], part: u32) -> Result<Vec<u8>, PickyError>
    ensures { Gives PickyError.NoMemory (λ bytes. bytes.items) result (secret_in message.now part) }
{
    let part = match secret_by_number(part) {
        Some(part) => part,
        None => return Err(PickyError::NoSuchPart),
    };
    match agent_secret(alloc, message, part) {
        Ok(bytes) => Ok(bytes),
        Err(e) => Err(agent_refusal(e)),
    }
}

/// The part of a number.
fn secret_by_number(number: u32) -> Option<AgentSecret>
    ensures { result ≡ secret_numbered number }
{
    match number {
        1 => Some(AgentSecret::KeyType),
        2 => Some(AgentSecret::Comment),
        3 => Some(AgentSecret::Rsa(RsaPart::N)),
        4 => Some(AgentSecret::Rsa(RsaPart::E)),
        5 => Some(AgentSecret::Rsa(RsaPart::D)),
        6 => Some(AgentSecret::Rsa(RsaPart::Iqmp)),
        7 => Some(AgentSecret::Rsa(RsaPart::P)),
        8 => Some(AgentSecret::Rsa(RsaPart::Q)),
        9 => Some(AgentSecret::Ec(EcPart::Curve)),
        10 => Some(AgentSecret::Ec(EcPart::Point)),
        11 => Some(AgentSecret::Ec(EcPart::Secret)),
        12 => Some(AgentSecret::Ed(EdPart::Public)),
        13 => Some(AgentSecret::Ed(EdPart::Secret)),
        14 => Some(AgentSecret::Sk(SkPart::Public)),
        15 => Some(AgentSecret::Sk(SkPart::Application)),
        16 => Some(AgentSecret::Sk(SkPart::Flags)),
        17 => Some(AgentSecret::Sk(SkPart::Handle)),
        _ => None,
    }
}

/// An agent's refusal as a call's.
fn agent_refusal(e: AgentCallError) -> PickyError
    ensures { result ≡ agent_refusal_of e }
{
    match e {
        AgentCallError::NoMessage => PickyError::NoMessage,
        AgentCallError::MessageTooLong => PickyError::MessageTooLong,
        AgentCallError::NotAdd => PickyError::NotAdd,
        AgentCallError::NoSuchPart => PickyError::NoSuchPart,
        AgentCallError::State(e) => PickyError::State(e),
        AgentCallError::SignatureTooLong => PickyError::SignatureTooLong,
        AgentCallError::TooLong => PickyError::Refused(ConvertError::TooLong),
        AgentCallError::NoMemory => PickyError::NoMemory,
    }
}
