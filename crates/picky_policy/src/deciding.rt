//! The decision on an offer.

ghost use Rattle.std.specs.Prelude.{◌≡◌, ◌≢◌, ◌++◌, ◌∷◌, [], ℕ, List, Err, Ok, IfOk, OnOk, false};
ghost use Rattle.std.specs.Option.{option_copied};
ghost use Rattle.picky_wire.specs.Count.{Rose};
ghost use Rattle.picky_wire.specs.declared.timestamp.Timestamp.{Timestamp as Moment};
ghost use Rattle.picky_suite.specs.Asked.{IsAskedAtMost};
ghost use Rattle.picky_authorized.specs.Entries.{AreFit};
ghost use Rattle.picky_policy.specs.Decided.{verifier_asks, decided, granted as granted_by};
ghost use Rattle.picky_policy.specs.Decided.{is_kept_back as is_kept_back_option, options_left};
ghost use Rattle.picky_policy.specs.Decided.{Accepts, Allows, Decides, LeavesVerifier};
ghost use Rattle.picky_policy.specs.declared.decision.Denial.{Denial as Why};
ghost use Rattle.picky_policy.specs.declared.decision.Grant.{Grant as Given};
ghost use Rattle.picky_policy.specs.declared.offer.Offer.TheVariants as offers;
ghost use Rattle.picky_policy.specs.inner.Shown.{demands_shown, line_shown};

use crate::decision::{Decision, Denial, Grant};
use crate::demands::Demanded;
use crate::key_line::{KeyLine, line_for};
use crate::offer::Offer;
use crate::rules::judge;
use crate::verifier::Verifier;
use picky_authorized::{AuthEntry, AuthOption, CERT_AUTHORITY, PRINCIPALS};
use picky_cert::SshCertificate;
use picky_keys::SshPublicKey;
use picky_wire::{List, NoMemory, Text, Timestamp, TryClone};
use std::alloc::Global;
use thiserror::Error;

/// Why nothing is decided.
#[derive(Debug, Drop, PartialEq, Eq, Error)]
pub enum DecideError {
    /// The verifier failed, and counted it.
    #[error("VerifierFault")]
    VerifierFault,
    /// Memory ran out.
    #[error("NoMemory")]
    NoMemory,
}

/// Whether the offer gets in as the user at the moment.
///
/// A key needs a line without `cert-authority`, of which the first decides. A certificate needs one of its issuer with
/// `cert-authority`, of which the first decides, and is denied by the first rule that fails, in the order of `Denial`. The
/// verifier is asked last, and only where no rule fails. Memory runs out only in place of a grant. Refuses, in order:
/// `VerifierFault`.
pub fn decide<V: Verifier>(
    alloc: Global,
    entries: &List<AuthEntry>,
    offer: &Offer,
    user: &str,
    moment: Timestamp,
    verifier: &mut V,
) -> Result<Decision, DecideError>
    requires { AreFit entries.now }
    // Who is let in, and with what.
    ensures granted { (grant : Given) → result ≡ Ok (Decision.Granted grant)
        → Allows (V.verifies verifier.old) entries.now offer.now user.now moment grant }
    ensures denied { (why : Why) (grant : Given) → result ≡ Ok (Decision.Denied why)
        → Allows (V.verifies verifier.old) entries.now offer.now user.now moment grant → ⊥ }
    ensures no_memory_only_if_let_in { result ≡ Err DecideError.NoMemory
        → (grant : Given) × Allows (V.verifies verifier.old) entries.now offer.now user.now moment grant }

    // The decision in the order of the rules, and when the verifier's fault comes.
    ensures decides { Decides (Accepts (V.verifies verifier.old) offer.now) (decided entries.now offer.now user.now moment)
        (verifier_asks entries.now offer.now user.now moment) (Rose (V.faults verifier.old) (V.faults verifier.new)) result }
    ensures verifier { LeavesVerifier V.verifies V.faults (verifier_asks entries.now offer.now user.now moment) result
        verifier.old verifier.new }
    ensures asked { IsAskedAtMost 1 V.calls verifier.old verifier.new }
{
    decide_over(alloc, entries.as_slice(), offer, user, moment, verifier)
}

/// The same over the entries, by the kind of the offer.
fn decide_over<V: Verifier>(
    alloc: Global,
    entries: &[AuthEntry],
    offer: &Offer,
    user: &str,
    moment: Timestamp,
    verifier: &mut V,
) -> Result<Decision, DecideError>
    ensures decides { Decides (Accepts (V.verifies verifier.old) offer.now) (decided entries.now offer.now user.now moment)
        (verifier_asks entries.now offer.now user.now moment) (Rose (V.faults verifier.old) (V.faults verifier.new)) result }
    ensures verifier { LeavesVerifier V.verifies V.faults (verifier_asks entries.now offer.now user.now moment) result
        verifier.old verifier.new }
    ensures asked { IsAskedAtMost 1 V.calls verifier.old verifier.new }
{
    match offer {
        Offer::Key(key) => decide_key(alloc, entries, key),
        Offer::Certificate(certificate, message) => decide_certificate(
            alloc,
            entries,
            certificate,
            message.as_slice(),
            user,
            moment,
            verifier,
        ),
    }
}

/// Whether a key gets in.
#[tactic(auto, unfolding(crate::specs::Decided::decided))]
fn decide_key(
    alloc: Global,
    entries: &[AuthEntry],
    key: &SshPublicKey,
) -> Result<Decision, DecideError>
    ensures { (user : List ℕ) (moment : Moment)
        → Decides (Unit {0}) (decided entries.now (offers.Key key.now) user moment) false ⊥ result }
{
    match line_for(false, &key.inner_key, entries) {
        Some(line) => grant(alloc, line, Demanded::nothing()),
        None => Ok(Decision::Denied(Denial::NoLine)),
    }
}

/// Whether a certificate gets in.
#[tactic(auto, unfolding(crate::specs::Decided::decided))]
fn decide_certificate<V: Verifier>(
    alloc: Global,
    entries: &[AuthEntry],
    certificate: &SshCertificate,
    message: &[u8],
    user: &str,
    moment: Timestamp,
    verifier: &mut V,
) -> Result<Decision, DecideError>
    ensures decides { Decides (Accepts (V.verifies verifier.old) (offers.Certificate certificate.now message.now))
        (decided entries.now (offers.Certificate certificate.now message.now) user.now moment)
        (verifier_asks entries.now (offers.Certificate certificate.now message.now) user.now moment)
        (Rose (V.faults verifier.old) (V.faults verifier.new)) result }
    ensures verifier { LeavesVerifier V.verifies V.faults
        (verifier_asks entries.now (offers.Certificate certificate.now message.now) user.now moment) result verifier.old verifier.new }
    ensures asked { IsAskedAtMost 1 V.calls verifier.old verifier.new }
{
    match line_for(true, &certificate.signature_key.inner_key, entries) {
        Some(line) => match judge(line.options, certificate, user, moment) {
            Ok(demands) => match verifier.verify(
                &certificate.signature_key.inner_key,
                &certificate.signature,
                message,
            ) {
                Ok(true) => grant(alloc, line, demands),
                Ok(false) => Ok(Decision::Denied(Denial::BadSignature)),
                Err(_) => Err(DecideError::VerifierFault),
            },
            Err(denial) => Ok(Decision::Denied(denial)),
        },
        None => Ok(Decision::Denied(Denial::NoAuthority)),
    }
}

/// The grant of a line, with what the certificate demands. Refuses: `NoMemory`.
fn grant(alloc: Global, line: KeyLine<'_>, demands: Demanded<'_>) -> Result<Decision, DecideError>
    ensures granted { IfOk result (λ decision.
        decision ≡ Decision.Granted (granted_by (line_shown line.entry) (demands_shown demands.entry))) }
    ensures no_fault { result ≢ Err DecideError.VerifierFault }
{
    match copied(alloc, line, demands) {
        Ok(grant) => Ok(Decision::Granted(grant)),
        Err(NoMemory) => Err(DecideError::NoMemory),
    }
}

/// The same as a value of its own. Refuses: `NoMemory`.
fn copied(alloc: Global, line: KeyLine<'_>, demands: Demanded<'_>) -> Result<Grant, NoMemory>
    ensures { IfOk result (λ grant. grant ≡ granted_by (line_shown line.entry) (demands_shown demands.entry)) }
{
    let force_command = copied_text(alloc, demands.force_command)?;
    let source_address = copied_text(alloc, demands.source_address)?;
    let options = copied_options(alloc, line.options)?;
    Ok(Grant {
        line: line.number,
        force_command,
        source_address,
        verify_required: demands.verify_required,
        options,
    })
}

/// A copy of a text, where there is one. Refuses: `NoMemory`.
fn copied_text(alloc: Global, text: Option<&str>) -> Result<Option<Text>, NoMemory>
    ensures { IfOk result (λ copy. copy ≡ option_copied text.entry) }
{
    match text {
        Some(text) => match Text::new(alloc, text) {
            Ok(copy) => Ok(Some(copy)),
            Err(_) => Err(NoMemory),
        },
        None => Ok(None),
    }
}

/// Copies of the options but `cert-authority` and `principals`. Refuses: `NoMemory`.
#[tactic(auto, using(crate::proofs::DecideLemmas::left_more))]
fn copied_options(alloc: Global, options: &[AuthOption]) -> Result<List<AuthOption>, NoMemory>
    ensures { IfOk result (λ copies. copies ≡ options_left options.now) }
{
    let mut copies = List::new(alloc);
    let mut rest = options;
    'options: while let [option, more @ ..] = rest {
        push_copy(alloc, &mut copies, option)?;
        rest = more;
    }
    Ok(copies)
}

/// Adds a copy of the option, unless it is one of these two. Refuses: `NoMemory`.
fn push_copy(
    alloc: Global,
    copies: &mut List<AuthOption>,
    option: &AuthOption,
) -> Result<(), NoMemory>
    ensures { OnOk result (copies.new ≡ copies.old ++ options_left (option.now ∷ [])) }
{
    if is_kept_back(option) {
        return Ok(());
    }
    let copy = option.try_clone(alloc)?;
    match copies.push(copy) {
        Ok(()) => Ok(()),
        Err(_) => Err(NoMemory),
    }
}

/// The option says whose keys the line is for.
#[tactic(auto, unfolding(picky_authorized::specs::KnownOptions::cert_authority, picky_authorized::specs::KnownOptions::principals))]
fn is_kept_back(option: &AuthOption) -> bool
    ensures { result ≡ is_kept_back_option option.now }
{
    if option.is_named(CERT_AUTHORITY) {
        return true;
    }
    option.is_named(PRINCIPALS)
}
