//! A ledger that one request changes.

ghost use Rattle.std.specs.Prelude.{◌≡◌, Ok, IfErr, IfOk};
ghost use Rattle.picky.specs.Count.{Rose};
ghost use Rattle.picky.specs.SuiteAsked.{IsAskedAtMost};
ghost use Rattle.picky_callers.specs.Entered.{IsEntered, IsUnentered};

use picky::ledger::laws::requests_leave_a_ledger;
use picky::ledger::{Ledger, LedgerError, LedgerTextError, Reply};
use picky::ssh::{Signer, SshPublicKey};
use picky::wire::{SizeError, Text};
use std::alloc::Global;

/// Why a request leaves the ledger's text as it was.
#[derive(Debug, Drop)]
pub enum Unentered {
    /// The text is no ledger's.
    Ledger(LedgerTextError),
    /// The signer failed.
    Request(LedgerError),
    /// The new text is too long.
    Text(SizeError),
}

/// A ledger's text after a request, and the reply to it. Write the text before you give out the reply: a request that is lost is
/// answered again.
pub fn ledger_after<G: Signer>(
    alloc: Global,
    signer: &mut G,
    issuer: &SshPublicKey,
    ledger: &str,
    request: &str,
    nonce: &[u8; 32],
) -> Result<(Text, Reply), Unentered>
    // The entries that the ledger had stay in front; one behind them is the certificate of this request, and the signer signed it.
    ensures ok { IfOk result (λ given.
        IsEntered (G.signs signer.old) issuer.now.inner_key nonce.now ledger.now request.now given.1 (Ok given.0)) }

    // It was asked once at most.
    ensures asked { IsAskedAtMost 1 G.calls signer.old signer.new }

    // Else the text is no ledger's, the new one is too long, or the signer counted a fault.
    ensures refused { IfErr result (IsUnentered (G.signs signer.old) issuer.now.inner_key nonce.now ledger.now request.now
        (Rose (G.faults signer.old) (G.faults signer.new))) }
{
    requests_leave_a_ledger(signer);
    match Ledger::from_str(alloc, ledger) {
        Ok(mut ledger) => {
            // That it is a ledger is said by its getter.
            let _ = ledger.entries();
            match ledger.apply(alloc, issuer, request, nonce, signer) {
                Ok(reply) => match ledger.to_string(alloc) {
                    Ok(text) => Ok((text, reply)),
                    Err(e) => Err(Unentered::Text(e)),
                },
                Err(e) => Err(Unentered::Request(e)),
            }
        }
        Err(e) => Err(Unentered::Ledger(e)),
    }
}
