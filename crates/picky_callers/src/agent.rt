//! An agent that signs only where it may.

ghost use Rattle.std.specs.Prelude.{◌≡◌, ◌∷◌, [], ℕ, false, IfOk, IsTrue, OnErr};
ghost use Rattle.picky.specs.AgentKept.{machine};
ghost use Rattle.picky.specs.AgentRequest.{request_of, Sign, SignRequest};
ghost use Rattle.picky.specs.Message.{IsMessage};
ghost use Rattle.picky.specs.Reply.{failure as failure_reply};
ghost use Rattle.picky.specs.Step.{AsksSigner, Step};
ghost use Rattle.picky.specs.SuiteAsked.{IsAskedAtMost};
ghost use Rattle.picky_callers.specs.SignedReply.{FailsOrIsSigned};

use picky::agent::Agent;
use picky::agent::laws::question_is_answered;
use picky::ssh::Signer;
use picky::wire::{Bytes, NoMemory};
use std::alloc::Global;

/// SSH_AGENT_FAILURE of draft-miller-ssh-agent-04.
const FAILURE: u8 = 5;

/// The reply of an agent to a message. Where it may not sign, as its user said of `agent.question(message)`, a message that asks
/// for a signature has the failure.
pub fn reply_with_leave<G: Signer>(
    alloc: Global,
    agent: &mut Agent,
    signer: &mut G,
    message: &[u8],
    may_sign: bool,
) -> Result<Bytes, NoMemory>
    requires { IsMessage message.now }
    // A reply to one who asks for a signature is the failure, or has one that is good under the key that was named, of what was to be signed.
    ensures signed { (asked : SignRequest) → request_of message.now ≡ Sign asked
        → IfOk result (FailsOrIsSigned (G.signs signer.old) asked) }

    // The signer is asked once at most: not without leave, nor where a message needs no signature.
    ensures asked { IsAskedAtMost 1 G.calls signer.old signer.new }
    ensures without_leave { may_sign ≡ false → signer.new ≡ signer.old }
    ensures unasked { (AsksSigner agent.old (request_of message.now) → ⊥) → signer.new ≡ signer.old }

    // It is the agent's reply, whose signer failed where it had no leave.
    ensures step { IfOk result (λ reply. (faults : ℕ) × (IsTrue may_sign → faults ≡ G.faults signer.new)
        × Step (G.signs signer.old) (machine agent.old (G.faults signer.old)) message.now reply (machine agent.new faults)) }
    ensures unchanged { OnErr result (agent.new ≡ agent.old) }
{
    question_is_answered::<G>();
    if may_sign {
        return agent.answer(signer, message);
    }
    match agent.question(message) {
        Some(_) => failure(alloc),
        None => agent.answer(signer, message),
    }
}

/// The reply of an agent that doesn't do what it was asked. Refuses: `NoMemory`.
fn failure(alloc: Global) -> Result<Bytes, NoMemory>
    ensures { IfOk result (λ reply. reply ≡ failure_reply) }
{
    match Bytes::new(alloc, &[FAILURE]) {
        Ok(reply) => Ok(reply),
        Err(_) => Err(NoMemory),
    }
}
