//! The rules by which an authority's line lets a certificate in: all but the signature's.

ghost use Rattle.std.specs.Prelude.{◌≡◌, ◌==◌, ◌&&◌, None, length, not};
ghost use Rattle.std.specs.List.{list_any};
ghost use Rattle.std.specs.Option.{option_copied};
ghost use Rattle.picky_wire_base.specs.Outcome.{map_ok};
ghost use Rattle.picky_authorized.specs.KnownOptions.{principals as principals_name};
ghost use Rattle.picky_policy.specs.Rules.{is_among as is_among_names, is_for_user as is_for, judged_rules, names_in};
ghost use Rattle.picky_policy.specs.Rules.{value_named as value_of_name};
ghost use Rattle.picky_policy.specs.inner.Shown.{demands_shown};

use crate::decision::Denial;
use crate::demands::{Demanded, demands_of};
use picky_authorized::{AuthOption, PRINCIPALS};
use picky_cert::{SshCertType, SshCertificate};
use picky_wire::{Text, Timestamp};

/// What the certificate demands, or the first rule that fails: `NotClient`, `NotYet`, `Expired`, `Principal`,
/// `CriticalOption`.
#[tactic(auto, unfolding(crate::specs::Rules::judged_rules))]
pub fn judge<'a>(
    options: &[AuthOption],
    certificate: &'a SshCertificate,
    user: &str,
    moment: Timestamp,
) -> Result<Demanded<'a>, Denial>
    ensures { map_ok demands_shown result ≡ judged_rules options.now certificate.now user.now moment }
{
    match certificate.cert_type {
        SshCertType::Client => {}
        SshCertType::Host => return Err(Denial::NotClient),
    }
    if moment.0 < certificate.valid_after.0 {
        return Err(Denial::NotYet);
    }
    if moment.0 >= certificate.valid_before.0 {
        return Err(Denial::Expired);
    }
    if !is_for_user(options, certificate.valid_principals.as_slice(), user) {
        return Err(Denial::Principal);
    }
    match demands_of(certificate.critical_options.as_slice()) {
        Some(demands) => Ok(demands),
        None => Err(Denial::CriticalOption),
    }
}

/// One of the line's `principals` is one of the names; where the line has none, there are no names, or the user is one.
#[tactic(auto, unfolding(picky_authorized::specs::KnownOptions::principals))]
fn is_for_user(options: &[AuthOption], names: &[Text], user: &str) -> bool
    ensures { result ≡ is_for (value_of_name principals_name options.now) names.now user.now }
{
    match value_named(options, PRINCIPALS) {
        Some(value) => has_name_among(value, names),
        None => is_for_any_or(names, user),
    }
}

/// There are no names, or the user is one.
fn is_for_any_or(names: &[Text], user: &str) -> bool
    ensures { result ≡ is_for None names.now user.now }
{
    if names.is_empty() {
        return true;
    }
    is_among(user, names)
}

/// The value of the first option with the name, where that has one.
fn value_named<'a>(options: &'a [AuthOption], name: &str) -> Option<&'a str>
    ensures { option_copied result ≡ value_of_name name.now options.now }
{
    let mut rest = options;
    'options: while let [option, more @ ..] = rest {
        if option.is_named(name) {
            return match &option.value {
                Some(value) => Some(value.as_str()),
                None => None,
            };
        }
        rest = more;
    }
    None
}

/// One of the names between the commas of a value is among these.
fn has_name_among(value: &str, names: &[Text]) -> bool
    ensures { result ≡ list_any (λ name. is_among_names name names.now) (names_in value.now) }
{
    let mut rest = value;
    'names: while let Some((name, after)) = rest.split_once(',') {
        if is_name_among(name, names) {
            return true;
        }
        rest = after;
    }
    is_name_among(rest, names)
}

/// What isn't empty is among the names.
fn is_name_among(name: &str, names: &[Text]) -> bool
    ensures { result ≡ (not (length name.now == 0) && is_among_names name.now names.now) }
{
    if name.is_empty() {
        return false;
    }
    is_among(name, names)
}

/// The name is among these.
fn is_among(name: &str, names: &[Text]) -> bool
    ensures { result ≡ is_among_names name.now names.now }
{
    let mut rest = names;
    'names: while let [other, more @ ..] = rest {
        if other.as_str() == name {
            return true;
        }
        rest = more;
    }
    false
}
