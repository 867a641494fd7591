//! What has to be signed before a message is answered.

ghost use Rattle.std.specs.Prelude.{◌≡◌, Some, MatchOption};
ghost use Rattle.picky_keys.specs.View.{key_seen};
ghost use Rattle.picky_agent_state.specs.Message.{IsMessage};
ghost use Rattle.picky_agent_state.specs.Question.{IsQuestion, IsQuestionOn};
ghost use Rattle.picky_agent_state.specs.Request.{request_of, sign_request};
ghost use Rattle.picky_agent_state.specs.Step.{AsksSigner, CanSign};

use crate::agent::Agent;
use crate::asked::{Asked, read_request};
use crate::held::place_of;
use crate::signing::way_for;
use picky_cert_parts::SshSignatureFormat;
use picky_keys::{PublicView, SignatureAlgorithm};

/// What has to be signed before a message is answered: these bytes, with the identity at this place, by this algorithm.
/// The format is that of the signature in the reply.
#[derive(Clone, Copy)]
pub struct Question<'a> {
    pub place: usize,
    pub algorithm: SignatureAlgorithm,
    pub format: SshSignatureFormat,
    pub message: &'a [u8],
}

impl Agent {
    /// What has to be signed before the message is answered: none exactly where `answer` asks no signer. It takes no memory.
    pub fn question<'a>(&self, message: &'a [u8]) -> Option<Question<'a>>
        requires { IsMessage message.now }
        ensures { MatchOption result (AsksSigner self.now (request_of message.now) → ⊥)
            (λ question. IsQuestionOn self.now (request_of message.now) question) }
    {
        match read_request(message) {
            Asked::Sign {
                key,
                message,
                flags,
            } => self.sign_question(&key, flags, message),
            Asked::Identities => None,
            Asked::Add { .. } => None,
            Asked::Remove { .. } => None,
            Asked::RemoveAll => None,
            Asked::Lock { .. } => None,
            Asked::Unlock { .. } => None,
            Asked::Unfit => None,
        }
    }

    fn sign_question<'a>(
        &self,
        key: &PublicView<'_>,
        flags: u32,
        message: &'a [u8],
    ) -> Option<Question<'a>>
        ensures { MatchOption result (CanSign self.now (sign_request (key_seen key.now) message.now flags) → ⊥)
            (λ question. IsQuestion self.now (sign_request (key_seen key.now) message.now flags) question) }
    {
        if self.is_locked() {
            return None;
        }
        match place_of(self.identities(), key) {
            Some(place) => {
                let kind = self.identities()[place].key.kind();
                match way_for(kind, flags) {
                    Some((algorithm, format)) => Some(Question {
                        place,
                        algorithm,
                        format,
                        message,
                    }),
                    None => None,
                }
            }
            None => None,
        }
    }
}
