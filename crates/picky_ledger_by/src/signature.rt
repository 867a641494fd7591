//! A signature of a certificate, looked up in a table.

ghost use Rattle.std.specs.Prelude.{◌≡◌, ◌⊎◌, ◌++◌, ◌≤◌, ◌^◌, [], length, IfErr, OnOk};
ghost use Rattle.picky_wire_base.specs.Wire.{string_of};
ghost use Rattle.picky_keys.specs.PrivateKey.{issuer_key};
ghost use Rattle.picky_ask.specs.Question.{question_of};
ghost use Rattle.picky_ask.specs.Signing.{sign_question};
ghost use Rattle.picky_ledger.specs.Apply.{judged_request_line};
ghost use Rattle.picky_ledger_by.specs.Applied.{IsNotAsked};
ghost use Rattle.picky_ledger_by.specs.inner.Line.{FindsSignature, LooksUp};

use crate::apply::LedgerByError;
use crate::asked::draft_for;
use picky_ask::{AnsweredSigner, Missing, Question, Table};
use picky_cert_builder::CertificateDraft;
use picky_keys::SshPublicKey;
use picky_ledger::Ledger;
use picky_suite::SignError;
use picky_wire::{Bytes, MAX_LEN, NoMemory, Piece, SizeError, push_pieces};
use std::alloc::Global;
use std::marker::Brand;

/// What a table has of a signature.
#[derive(Drop)]
pub enum TableSignature {
    /// The signature.
    Given(Bytes),
    /// Nothing: this question is lacked.
    Lacking(Question),
}

/// The table's signature of the message that a draft has, or the question for it. Refuses: `QuestionTooLong`.
fn look_up(
    alloc: Global,
    table: &Table,
    draft: &CertificateDraft,
) -> Result<TableSignature, LedgerByError>
    ensures { LooksUp table.now (sign_question (issuer_key draft.now.issuer) draft.now.algorithm draft.now.message) result }
{
    let mut signer: AnsweredSigner<'_, Brand> = AnsweredSigner::new(table);
    match signer.ask_signature(
        alloc,
        &draft.issuer,
        draft.algorithm,
        draft.message.as_slice(),
    ) {
        Ok(signature) => {
            drop(signer);
            Ok(TableSignature::Given(signature))
        }
        Err(SignError::Failed) => match signer.into_missing() {
            Some(Missing::Asked(question)) => Ok(TableSignature::Lacking(question)),
            Some(Missing::TooLong) => Err(LedgerByError::QuestionTooLong),
            Some(Missing::WrongLength)
            | Some(Missing::Contradiction)
            | Some(Missing::Misplaced)
            | Some(Missing::NoMemory)
            | None => Err(LedgerByError::NoMemory),
        },
        Err(SignError::NoMemory) => {
            drop(signer);
            Err(LedgerByError::NoMemory)
        }
    }
}

/// Adds a question as a string. Refuses: `QuestionTooLong`.
fn push_question(
    alloc: Global,
    questions: &mut Vec<u8>,
    question: &Question,
) -> Result<(), LedgerByError>
    ensures ok { OnOk result (questions.new.items ≡ questions.old.items ++ string_of (question_of question.now)) }
    ensures err { IfErr result (λ e. (e ≡ LedgerByError.NoMemory)
        ⊎ ((e ≡ LedgerByError.QuestionTooLong) × IsNotAsked question.now)) }
{
    match question.to_bytes(alloc) {
        Ok(bytes) => push_string(questions, bytes.as_slice()),
        Err(SizeError::TooLong) => Err(LedgerByError::QuestionTooLong),
        Err(SizeError::NoMemory) => Err(LedgerByError::NoMemory),
    }
}

/// Adds a string. Refuses: `QuestionTooLong`, where it has 2^32 bytes or more.
fn push_string(questions: &mut Vec<u8>, bytes: &[u8]) -> Result<(), LedgerByError>
    ensures ok { OnOk result (questions.new.items ≡ questions.old.items ++ string_of bytes.now) }
    ensures err { IfErr result (λ e. (e ≡ LedgerByError.NoMemory)
        ⊎ ((e ≡ LedgerByError.QuestionTooLong) × (2 ^ 32 ≤ length bytes.now))) }
{
    if bytes.len() > MAX_LEN {
        return Err(LedgerByError::QuestionTooLong);
    }
    match push_pieces(questions, &[Piece::string(bytes)]) {
        Ok(()) => Ok(()),
        Err(_) => Err(LedgerByError::NoMemory),
    }
}

/// The table's signature for a request line; no bytes where it has none, or nothing is to be signed. Adds the question, where it
/// is lacked. Refuses: `QuestionTooLong`.
pub fn signature_for(
    alloc: Global,
    ledger: &Ledger,
    issuer: &SshPublicKey,
    line: &str,
    nonce: &[u8; 32],
    table: &Table,
    questions: &mut Vec<u8>,
) -> Result<Bytes, LedgerByError>
    ensures { FindsSignature table.now
        (judged_request_line (record { issuer = issuer.now.inner_key; nonce = nonce.now }) ledger.now line.now)
        questions.old.items questions.new.items result }
{
    match draft_for(alloc, ledger, issuer, line, nonce) {
        Ok(Some(draft)) => {
            let found = look_up(alloc, table, &draft);
            drop(draft);
            match found {
                Ok(TableSignature::Given(signature)) => Ok(signature),
                Ok(TableSignature::Lacking(question)) => {
                    match push_question(alloc, questions, &question) {
                        Ok(()) => Ok(no_bytes(alloc)),
                        Err(e) => Err(e),
                    }
                }
                Err(e) => Err(e),
            }
        }
        Ok(None) => Ok(no_bytes(alloc)),
        Err(NoMemory) => Err(LedgerByError::NoMemory),
    }
}

/// No bytes.
fn no_bytes(alloc: Global) -> Bytes
    ensures { result ≡ [] }
{
    Bytes::from_vec(Vec::new(alloc))
}
