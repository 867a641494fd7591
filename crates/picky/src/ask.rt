//! A suite, a signer and a verifier by question and answer: a call that lacks an answer hands out the question, and is made again
//! with the answer. crates/picky_ask/CALLING.md has one round, and what is known of it.

pub use picky_ask::{
    AnsweredSigner, AnsweredSuite, Entry, Head, Known, Missing, Question, Table, TableError, laws,
};
pub use picky_ask_verifier::{AnsweredVerifier, KnownVerdicts, NoVerdict, laws as verdict_laws};
