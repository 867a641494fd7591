//! What is printed of a login that is decided.

ghost use Rattle.std.specs.Prelude.{◌≡◌, ◌++◌, OnOk, IfOk, codes, string_bytes};
ghost use Rattle.base64.specs.Engines.{standard_no_pad};
ghost use Rattle.base64.specs.GeneralPurpose.{encode_of};
ghost use Rattle.picky_policy.specs.Printed.{word_line};
ghost use Rattle.picky_login.specs.Judged.{decision_shown, login_shown};
ghost use Rattle.picky_login.specs.Printed.{fingerprint as fingerprint_of, judged_key as judged_key_of, login_text as login_text_of};

use crate::login::Login;
use base64::engine::general_purpose::STANDARD_NO_PAD;
use picky_keys::SshPublicKey;
use picky_policy::{Decision, Offer, decision_text};
use picky_wire::NoMemory;
use std::alloc::{AllocError, Global};

/// The decision with its lines. Refuses: `NoMemory`.
pub fn decided_login(alloc: Global, offer: &Offer, decision: Decision) -> Result<Login, NoMemory>
    ensures { IfOk result (λ login. login_shown login ≡ decision_shown offer.now decision) }
{
    let text = login_text(alloc, offer, &decision);
    match decision {
        Decision::Granted(grant) => {
            drop(grant);
            match text {
                Ok(text) => Ok(Login::Granted(text)),
                Err(e) => Err(e),
            }
        }
        Decision::Denied(why) => match text {
            Ok(text) => Ok(Login::Denied(why, text)),
            Err(e) => Err(e),
        },
    }
}

/// The lines of the decision, and that of the key that was judged. Refuses: `NoMemory`.
fn login_text(alloc: Global, offer: &Offer, decision: &Decision) -> Result<Vec<u8>, NoMemory>
    ensures { IfOk result (λ text. text.items ≡ login_text_of offer.now decision.now) }
{
    let mut text = match decision_text(alloc, decision) {
        Ok(text) => text,
        Err(e) => return Err(e),
    };
    match push_key(alloc, &mut text, judged_key(offer)) {
        Ok(()) => Ok(text.into_bytes()),
        Err(_) => Err(NoMemory),
    }
}

/// The key that is judged: the one that is offered, and of a certificate its subject's.
fn judged_key(offer: &Offer) -> &SshPublicKey
    ensures { result.now.inner_key ≡ judged_key_of offer.now }
{
    match offer {
        Offer::Key(key) => key,
        Offer::Certificate(certificate, _) => &certificate.public_key,
    }
}

/// Adds the line of a key: its fingerprint.
fn push_key(alloc: Global, text: &mut String, key: &SshPublicKey) -> Result<(), AllocError>
    ensures { OnOk result (string_bytes text.new
        ≡ string_bytes text.old ++ word_line (codes "key") (fingerprint_of key.now.inner_key)) }
{
    let print = fingerprint(alloc, key)?;
    text.push_str("key ")?;
    text.push_str(print.as_str())?;
    text.push_str("\n")
}

/// The fingerprint of a key, as `ssh-keygen -l` prints it.
#[tactic(auto, unfolding(crate::specs::Printed::fingerprint))]
fn fingerprint(alloc: Global, key: &SshPublicKey) -> Result<String, AllocError>
    ensures { IfOk result (λ text. string_bytes text ≡ fingerprint_of key.now.inner_key) }
{
    print_digest(alloc, key.fingerprint_sha256())
}

/// A SHA-256 digest in base64 without padding, behind its name.
fn print_digest(alloc: Global, digest: [u8; 32]) -> Result<String, AllocError>
    ensures { IfOk result (λ text. string_bytes text ≡ codes "SHA256:" ++ encode_of standard_no_pad digest) }
{
    let mut text = String::from_str(alloc, "SHA256:")?;
    STANDARD_NO_PAD.encode_string(&digest, &mut text)?;
    Ok(text)
}
