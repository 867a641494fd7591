//! Who gets in by a text of authorized keys.

ghost use Rattle.std.specs.Prelude.{IfErr, IfOk};
ghost use Rattle.picky.specs.Count.{Rose};
ghost use Rattle.picky.specs.Decided.{IsDecision};
ghost use Rattle.picky.specs.Entries.{entries_in};
ghost use Rattle.picky.specs.Offer.{IsOffer};
ghost use Rattle.picky.specs.SuiteAsked.{IsAskedAtMost};
ghost use Rattle.picky.specs.declared.policy.Offer.{Offer as AnOffer};
ghost use Rattle.picky_callers.specs.Undecided.{IsUndecided};

use picky::convert::ReadError;
use picky::policy::laws::decision::text_is_one_offer;
use picky::policy::{DecideError, Decision, Offer, PolicyError, Verifier, decide, read_keys};
use picky::wire::Timestamp;
use std::alloc::Global;

/// Why a login isn't decided.
#[derive(Debug, Drop)]
pub enum Undecided {
    /// The authorized keys aren't read.
    Keys(PolicyError),
    /// The offer is no public key line, and no certificate's.
    Offer(ReadError),
    /// The verifier failed.
    Decision(DecideError),
}

/// Whether the user gets in at the moment who offers a key or a certificate, by a line of it. The verifier says whether a
/// certificate's signature is good, and is asked only where all else lets it in.
pub fn login_decision<V: Verifier>(
    alloc: Global,
    verifier: &mut V,
    authorized_keys: &str,
    offer: &str,
    user: &str,
    now: Timestamp,
) -> Result<Decision, Undecided>
    // The offer gets in exactly where the authorized keys allow it, and the verifier calls the certificate's signature good.
    ensures ok { IfOk result (λ decision. (offered : AnOffer) × IsOffer offer.now offered
        × IsDecision (V.verifies verifier.old) (entries_in authorized_keys.now) offered user.now now decision) }

    // It is asked once at most.
    ensures asked { IsAskedAtMost 1 V.calls verifier.old verifier.new }

    // Else a text isn't read, or the verifier counted a fault.
    ensures refused { IfErr result (IsUndecided authorized_keys.now offer.now (Rose (V.faults verifier.old) (V.faults verifier.new))) }
{
    text_is_one_offer();
    match read_keys(alloc, authorized_keys) {
        Ok(entries) => match Offer::from_str(alloc, offer) {
            Ok(offer) => match decide(alloc, &entries, &offer, user, now, verifier) {
                Ok(decision) => Ok(decision),
                Err(e) => Err(Undecided::Decision(e)),
            },
            Err(e) => Err(Undecided::Offer(e)),
        },
        Err(e) => Err(Undecided::Keys(e)),
    }
}
