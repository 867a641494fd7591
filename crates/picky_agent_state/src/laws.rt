//! The laws of the machine, each as the contract of a function that does nothing.

ghost use Rattle.std.specs.Prelude.{◌≡◌, ◌↔◌, ℕ, List, None, IsTrue};
ghost use Rattle.picky_wire.specs.Count.{Rose};
ghost use Rattle.picky_keys.specs.Key.{is_security_key_kind, public_key_of};
ghost use Rattle.picky_keys.specs.declared.kind.KeyKind.{KeyKind as Kind};
ghost use Rattle.picky_agent_state.specs.declared.question.Question.{Question as AQuestion};
ghost use Rattle.picky_agent_state.specs.Kept.{Kept, Machine, machine};
ghost use Rattle.picky_agent_state.specs.Question.{IsQuestion};
ghost use Rattle.picky_agent_state.specs.Reply.{failure, fitted, signed_reply};
ghost use Rattle.picky_agent_state.specs.Request.{Sign, SignRequest, request_of};
ghost use Rattle.picky_agent_state.specs.Signing.{way_for};
ghost use Rattle.picky_agent_state.specs.Step.{Step};
ghost use Rattle.picky_agent_state.specs.Failure.{FailsForCause};

use picky_suite::Signer;

/// A step has the failure in each case of the list, and else only where the signer fails, or signs too long for a reply.
pub fn failure_comes_for_a_cause<G: Signer>()
    ensures { (device : G) (old : Machine) (message reply : List ℕ) (new : Machine) → Step (G.signs device) old message reply new
        → FailsForCause (G.signs device) old message reply new }
{}

/// A security key has no way to sign, and each other kind of key has one, whatever the flags.
#[tactic(auto, using(crate::proofs::SigningLaws::only_security_keys_sign_nothing))]
pub fn only_security_keys_sign_nothing()
    ensures { (kind : Kind) (flags : ℕ) → (way_for kind flags ≡ None) ↔ IsTrue (is_security_key_kind kind) }
{}

/// A question is answered: by a good signature in its format, or by the failure, where the device failed. Either is a step.
pub fn question_is_answered<G: Signer>()
    ensures signed { (device : G) (kept : Kept) (faults : ℕ) (message signature : List ℕ) (asked : SignRequest) (question : AQuestion)
        → request_of message ≡ Sign asked → IsQuestion kept asked question
        → G.signs device (public_key_of asked.key) question.algorithm question.message.now signature
        → Step (G.signs device) (machine kept faults) message (fitted (signed_reply question.format signature)) (machine kept faults) }
    ensures failed { (device : G) (kept : Kept) (before after : ℕ) (message : List ℕ) (asked : SignRequest) (question : AQuestion)
        → request_of message ≡ Sign asked → IsQuestion kept asked question → Rose before after
        → Step (G.signs device) (machine kept before) message failure (machine kept after) }
{}
