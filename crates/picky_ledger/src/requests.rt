//! Requests at a ledger, one after another.

ghost use Rattle.std.specs.Prelude.{◌≡◌, ◌≤◌, ◌*◌, ◌↔◌, Err, List, ℕ, length, string_bytes};
ghost use Rattle.picky_keys.specs.declared.public_key.PublicKey.{PublicKey};
ghost use Rattle.picky_keys.specs.declared.algorithm.SignatureAlgorithm.{SignatureAlgorithm as Algorithm};
ghost use Rattle.picky_wire_base.specs.Outcome.{map_ok};
ghost use Rattle.picky_wire.specs.Count.{Rose};
ghost use Rattle.picky_suite.specs.Asked.{IsAskedAtMost};
ghost use Rattle.picky_ledger.specs.Apply.{judged_request_line, LeavesLedgerSigner};
ghost use Rattle.picky_ledger.specs.Run.{requests_in, LeavesDevice};
ghost use Rattle.picky_ledger.specs.Runs.{nonce_len, NoneSigns};
ghost use Rattle.picky_ledger.specs.inner.Comes.{AnswersLine, AnswersRequests};

use crate::apply::LedgerError;
use crate::asked::NONCE_LEN;
use crate::ledger::Ledger;
use crate::reading::id_of;
use crate::reply_line::push_reply;
use picky_keys::SshPublicKey;
use picky_request::CertRequestLine;
use picky_suite::Signer;
use picky_text::LineReader;
use picky_wire::{NoMemory, Text};
use std::alloc::Global;

/// The lines of the replies to the requests, which are the lines of a text that aren't empty. Each has 32 of the fresh bytes,
/// in order. Refuses: `SignerFault`.
pub fn answer_requests<G: Signer>(
    alloc: Global,
    ledger: &mut Ledger,
    issuer: &SshPublicKey,
    requests: &str,
    fresh: &[u8],
    signer: &mut G,
) -> Result<String, LedgerError>
    requires { nonce_len * length (requests_in requests.now) ≤ length fresh.now }
    ensures answers { AnswersRequests (G.signs signer.old) issuer.now.inner_key ledger.old fresh.now (requests_in requests.now)
        (Rose (G.faults signer.old) (G.faults signer.new)) (map_ok (λ text. string_bytes text) result) ledger.new }
    ensures signer { LeavesDevice
        ((k : PublicKey) (a : Algorithm) (m s : List ℕ) → G.signs signer.new k a m s ↔ G.signs signer.old k a m s)
        G.faults (result ≡ Err LedgerError.SignerFault)
        (NoneSigns issuer.now.inner_key ledger.old fresh.now (requests_in requests.now)) signer.old signer.new }
{
    let mut replies = String::new(alloc);
    let mut lines = LineReader::new(requests);
    let mut rest = fresh;
    'lines: while let Some(line) = lines.next_line() {
        if !line.is_empty() {
            let (front, after) = rest.split_at(NONCE_LEN);
            match answer_request(alloc, ledger, issuer, line, front, signer, &mut replies) {
                Ok(()) => rest = after,
                Err(e) => return Err(e),
            }
        }
    }
    Ok(replies)
}

/// Adds the line of the reply to a request, which has these fresh bytes. Refuses: `SignerFault`.
fn answer_request<G: Signer>(
    alloc: Global,
    ledger: &mut Ledger,
    issuer: &SshPublicKey,
    line: &str,
    fresh: &[u8],
    signer: &mut G,
    replies: &mut String,
) -> Result<(), LedgerError>
    requires { length fresh.now ≡ nonce_len }
    ensures answers { AnswersLine (G.signs signer.old) (record { issuer = issuer.now.inner_key; nonce = fresh.now }) ledger.old line.now
        (Rose (G.faults signer.old) (G.faults signer.new)) (string_bytes replies.old) (string_bytes replies.new) result ledger.new }
    ensures signer { LeavesLedgerSigner G.signs G.faults
        (judged_request_line (record { issuer = issuer.now.inner_key; nonce = fresh.now }) ledger.old line.now) result signer.old signer.new }
    ensures asked { IsAskedAtMost 1 G.calls signer.old signer.new }
{
    let mut nonce = [0; NONCE_LEN];
    nonce.copy_from_slice(fresh);
    match ledger.apply(alloc, issuer, line, &nonce, signer) {
        Ok(reply) => match push_reply(replies, id_of(line), &reply) {
            Ok(()) => Ok(()),
            Err(NoMemory) => Err(LedgerError::NoMemory),
        },
        Err(e) => Err(e),
    }
}
