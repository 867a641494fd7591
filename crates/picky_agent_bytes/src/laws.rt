//! The laws of this crate, each as the contract of a function that does nothing.

ghost use Rattle.std.specs.Prelude.{◌≡◌, ◌≤◌, ◌<◌, [], ℕ, List, Ok, length};
ghost use Rattle.picky_agent_state.specs.Keep.{keep_limit};
ghost use Rattle.picky_agent_state.specs.Kept.{Kept, Machine, machine, new_agent};
ghost use Rattle.picky_agent_state.specs.declared.question.Question.{Question};
ghost use Rattle.picky_agent_state.specs.Question.{IsQuestion};
ghost use Rattle.picky_agent_state.specs.Reply.{failure, fitted, signed_reply};
ghost use Rattle.picky_agent_state.specs.Request.{Sign, SignRequest, request_of};
ghost use Rattle.picky_agent_state.specs.Step.{AsksSigner, Step};
ghost use Rattle.picky_agent_bytes.specs.Bare.{bare_kept, bare_request};
ghost use Rattle.picky_agent_bytes.specs.Call.{HandedStep, IsGood, IsNext, IsReply};
ghost use Rattle.picky_agent_bytes.specs.IsState.{IsState};
ghost use Rattle.picky_agent_bytes.specs.State.{state_of, state_read};

use picky_suite::Signer;

/// A state that is written is read back; bytes are read as a state exactly where they are its one spelling; and no bytes are
/// the state of a new agent.
#[tactic(auto, using(crate::proofs::LawLemmas::state_laws))]
pub fn a_state_is_read_back()
    ensures written { (kept : Kept) → IsState kept → length (state_of kept) ≤ keep_limit → state_read (state_of kept) ≡ Ok kept }
    ensures read { (bytes : List ℕ) (kept : Kept) → state_read bytes ≡ Ok kept → state_of kept ≡ bytes }
    ensures new { state_read [] ≡ Ok new_agent }
{}

/// Where the signature that was handed in is good, the reply is that of a step, by whichever signer.
pub fn a_reply_is_a_step<G: Signer>()
    ensures { (device : G) (kept : Kept) (message signature reply : List ℕ) (new : Machine)
        → IsGood (G.signs device) kept message signature → HandedStep signature kept message reply new
        → Step (G.signs device) (machine kept 0) message reply new }
{}

/// Each step on a message, by whichever signer, leaves what `agent_next` says.
pub fn each_step_leaves_the_same<G: Signer>()
    ensures { (device : G) (kept next : Kept) (faults : ℕ) (message reply : List ℕ) (new : Machine) → IsNext kept message next
        → Step (G.signs device) (machine kept faults) message reply new → new.kept ≡ next }
{}

/// Secrets decide no reply but a signature: a machine whose identities have none takes the message without its secrets, and
/// replies as the one whose identities have.
pub fn secrets_decide_no_reply<G: Signer>()
    ensures { (device : G) (old new : Machine) (message bare_message reply : List ℕ)
        → request_of bare_message ≡ bare_request (request_of message) → Step (G.signs device) old message reply new
        → Step (G.signs device) (machine (bare_kept old.kept) old.faults) bare_message reply
        (machine (bare_kept new.kept) new.faults) }
{}

/// Without a signature what asks for one has the failure as its reply, and with one a reply with that; and a message that asks
/// for none has one reply, whichever signature is handed in.
pub fn a_signature_is_for_a_question()
    ensures failed { (kept : Kept) (asked : SignRequest) (message reply : List ℕ) → request_of message ≡ Sign asked
        → IsReply kept message [] reply → reply ≡ failure }
    ensures signed { (kept : Kept) (asked : SignRequest) (question : Question) (message signature reply : List ℕ)
        → request_of message ≡ Sign asked → IsQuestion kept asked question → 0 < length signature
        → IsReply kept message signature reply → reply ≡ fitted (signed_reply question.format signature) }
    ensures unasked { (kept : Kept) (message signature other reply answer : List ℕ)
        → (AsksSigner kept (request_of message) → ⊥) → IsReply kept message signature reply → IsReply kept message other answer
        → reply ≡ answer }
{}
