//! A request at a ledger, whose signature a table has or lacks.

ghost use Rattle.std.specs.Prelude.{◌≡◌, ◌++◌, length, string_bytes, Ok, IfErr, IfOk};
ghost use Rattle.picky_ledger.specs.Apply.{Applies, judged_request_line};
ghost use Rattle.picky_ledger.specs.Replies.{id_in, reply_line};
ghost use Rattle.picky_ledger.specs.Runs.{nonce_len};
ghost use Rattle.picky_ledger.specs.declared.reply.Reply.{Reply as AReply};
ghost use Rattle.picky_ledger_by.specs.inner.Line.{AnswersLine, EntersLine};

use crate::apply::LedgerByError;
use crate::signature::signature_for;
use picky_ask::Table;
use picky_keys::SshPublicKey;
use picky_ledger::{Ledger, LedgerError, id_of, push_reply};
use picky_suite::HandedSigner;
use picky_wire::{Bytes, NoMemory};
use std::alloc::Global;

/// How many fresh bytes each request has.
pub const NONCE_LEN: usize = 32;

/// Applies a request line, which has these fresh bytes, with the table's signature, or an empty one where the table has none; adds
/// the line of the reply, and the question, where it is lacked. Refuses: `QuestionTooLong`.
pub fn answer_line(
    alloc: Global,
    ledger: &mut Ledger,
    issuer: &SshPublicKey,
    line: &str,
    fresh: &[u8],
    table: &Table,
    questions: &mut Vec<u8>,
    replies: &mut String,
) -> Result<(), LedgerByError>
    requires { length fresh.now ≡ nonce_len }
    ensures { AnswersLine table.now (record { issuer = issuer.now.inner_key; nonce = fresh.now }) ledger.old line.now
        questions.old.items questions.new.items (string_bytes replies.old) (string_bytes replies.new) result ledger.new }
{
    let mut nonce = [0; NONCE_LEN];
    nonce.copy_from_slice(fresh);
    match signature_for(alloc, ledger, issuer, line, &nonce, table, questions) {
        Ok(signature) => enter(alloc, ledger, issuer, line, &nonce, signature, replies),
        Err(e) => Err(e),
    }
}

/// Applies a request line with this signature, and adds the line of the reply. Refuses: `NoMemory`.
fn enter(
    alloc: Global,
    ledger: &mut Ledger,
    issuer: &SshPublicKey,
    line: &str,
    nonce: &[u8; 32],
    signature: Bytes,
    replies: &mut String,
) -> Result<(), LedgerByError>
    ensures { EntersLine signature (record { issuer = issuer.now.inner_key; nonce = nonce.now }) ledger.old line.now
        (string_bytes replies.old) (string_bytes replies.new) result ledger.new }
{
    let mut signer = HandedSigner::new(Some(signature));
    let reply = ledger.apply(alloc, issuer, line, nonce, &mut signer);
    drop(signer);
    match reply {
        Ok(reply) => match push_reply(replies, id_of(line), &reply) {
            Ok(()) => Ok(()),
            Err(NoMemory) => Err(LedgerByError::NoMemory),
        },
        // A signer that has a signature doesn't fail.
        Err(LedgerError::SignerFault) | Err(LedgerError::NoMemory) => Err(LedgerByError::NoMemory),
    }
}
