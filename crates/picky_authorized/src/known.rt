//! The options that say whose keys a line is for.

ghost use Rattle.std.specs.Prelude.{◌≡◌};
ghost use Rattle.std.specs.List.{list_all};
ghost use Rattle.picky_authorized.specs.KnownOptions.{are_fit as are_fit_options, is_fit as is_fit_option};
ghost use Rattle.picky_authorized.specs.KnownOptions.{is_named as is_named_so, named_count};

use crate::auth_option::AuthOption;

/// The key is that of an authority, whose certificates are taken.
pub const CERT_AUTHORITY: &str = "cert-authority";

/// The names that a certificate of the authority may be for.
pub const PRINCIPALS: &str = "principals";

impl AuthOption {
    /// The option has this name.
    pub fn is_named(&self, name: &str) -> bool
        ensures { result ≡ is_named_so name.now self.now }
    {
        self.name.as_str() == name
    }
}

/// `cert-authority` has no value and `principals` has one, and neither of them stands twice.
#[tactic(auto, unfolding(crate::specs::KnownOptions::cert_authority, crate::specs::KnownOptions::principals), using(crate::proofs::KnownLemmas::fits))]
pub fn are_fit(options: &[AuthOption]) -> bool
    ensures { result ≡ are_fit_options options.now }
{
    if !all_fit(options) {
        return false;
    }
    if count_named(options, CERT_AUTHORITY) > 1 {
        return false;
    }
    count_named(options, PRINCIPALS) <= 1
}

/// No option is `cert-authority` with a value, or `principals` without one.
fn all_fit(options: &[AuthOption]) -> bool
    ensures { result ≡ list_all is_fit_option options.now }
{
    options.iter().all(
        |option| -> bool
            ensures { result ≡ is_fit_option option.entry.now }
        { is_fit(option) },
    )
}

/// The option is not `cert-authority` with a value, and not `principals` without one.
#[tactic(auto, unfolding(crate::specs::KnownOptions::cert_authority, crate::specs::KnownOptions::principals))]
fn is_fit(option: &AuthOption) -> bool
    ensures { result ≡ is_fit_option option.now }
{
    if option.is_named(CERT_AUTHORITY) {
        return option.value.is_none();
    }
    if option.is_named(PRINCIPALS) {
        return option.value.is_some();
    }
    true
}

/// How many options have the name.
fn count_named(options: &[AuthOption], name: &str) -> usize
    ensures { result ≡ named_count name.now options.now }
{
    options
        .iter()
        .filter(
            |option| -> bool
                ensures { result ≡ is_named_so name.entry.now option.entry.now.now }
            { option.is_named(name) },
        )
        .count()
}
