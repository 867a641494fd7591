//! A verifier whose verdicts the caller gives, one question after another.
//!
//! A call looks its question up in a table of answers, in any order. Where the table has none, the verifier fails, and keeps the
//! question aside: the caller answers it, and calls again with one entry more. A question is `Verify` of `picky_ask`; its answer is
//! one byte, 1 where the signature is good and 0 where it isn't.
//!
//! Read first: `specs/Question.antt` and `specs/Verdicts.antt`; then `src/laws.rt`.
#![tactic(auto)]

mod known_verdicts;
pub mod laws;
mod no_verdict;
mod question;
mod verifier;

pub use known_verdicts::KnownVerdicts;
pub use no_verdict::NoVerdict;
pub use verifier::AnsweredVerifier;
