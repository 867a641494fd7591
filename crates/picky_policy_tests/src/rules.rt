//! The rules that a certificate is judged by, each at its borders, and their order.

use crate::decisions::{Asked, is_decided};
use crate::terms::{Demand, Terms, offer_with};
use picky_cert::{SshCertType, SshCriticalOptionType};
use std::alloc::Global;
use std::test::Fail;

const FILE: &str = "cert-authority <ca> k";

/// Of the plain certificate with these terms this is decided.
fn decides_with(
    alloc: Global,
    file: &str,
    terms: &Terms<'_>,
    asked: Asked,
    wanted: &str,
) -> Result<bool, Fail> {
    let offer = offer_with(alloc, terms)?;
    is_decided(alloc, file, &offer, asked, wanted)
}

/// The certificate's principals, a file, the user, and what is decided.
type Names = (
    &'static [&'static str],
    &'static str,
    &'static str,
    &'static str,
);

// An empty name is one like others, but between the commas of a line there is none. A comma in a name is none between two.
static ODD_NAMES: [Names; 12] = [
    (&[""], "cert-authority <ca>", "", "grant 1"),
    (&[""], "cert-authority <ca>", "me", "deny Principal"),
    (
        &[""],
        "cert-authority,principals=\"\" <ca>",
        "",
        "deny Principal",
    ),
    (
        &["", "you"],
        "cert-authority,principals=\",me\" <ca>",
        "",
        "deny Principal",
    ),
    (&["a,b"], "cert-authority <ca>", "a,b", "grant 1"),
    (&["a,b"], "cert-authority <ca>", "a", "deny Principal"),
    (
        &["a,b"],
        "cert-authority,principals=\"a,b\" <ca>",
        "a,b",
        "deny Principal",
    ),
    (&["*"], "cert-authority <ca>", "me", "deny Principal"),
    (&["me", "me"], "cert-authority <ca>", "me", "grant 1"),
    (&["a", "b", "c"], "cert-authority <ca>", "c", "grant 1"),
    (
        &["a", "b", "c"],
        "cert-authority,principals=\"x,y,c\" <ca>",
        "x",
        "grant 1",
    ),
    (
        &["a", "b", "c"],
        "cert-authority,principals=\"a b,ab,a\\\",c\" <ca>",
        "c",
        "grant 1",
    ),
];

#[test]
fn compares_whole_names(rt: HostRuntime) -> Result<(), Fail> {
    for (principals, file, user, wanted) in &ODD_NAMES {
        let terms = Terms {
            cert_type: SshCertType::Client,
            valid: (0, u64::MAX),
            principals: *principals,
            demands: &[],
        };
        assert!(rt;
            decides_with(rt.alloc(), file, &terms, (*user, 5), wanted)?,
            "{principals:?}: {file}, {user}"
        );
    }
    Ok(())
}

// From when on and until when a certificate is valid, a moment, and what is decided.
static TIMES: [((u64, u64), u64, &str); 12] = [
    ((0, 1), 0, "grant 1"),
    ((0, 0), 0, "deny Expired"),
    ((5, 5), 4, "deny NotYet"),
    ((5, 5), 5, "deny Expired"),
    ((0, u64::MAX), u64::MAX - 1, "grant 1"),
    ((0, u64::MAX), u64::MAX, "deny Expired"),
    ((u64::MAX, u64::MAX), u64::MAX - 1, "deny NotYet"),
    ((u64::MAX, u64::MAX), u64::MAX, "deny Expired"),
    ((u64::MAX - 1, u64::MAX), u64::MAX - 1, "grant 1"),
    // Its end is before its beginning.
    ((9, 3), 2, "deny NotYet"),
    ((9, 3), 8, "deny NotYet"),
    ((9, 3), 9, "deny Expired"),
];

#[test]
fn compares_moments_of_64_bits(rt: HostRuntime) -> Result<(), Fail> {
    for (valid, moment, wanted) in &TIMES {
        let terms = Terms {
            cert_type: SshCertType::Client,
            valid: *valid,
            principals: &[],
            demands: &[],
        };
        assert!(rt;
            decides_with(rt.alloc(), FILE, &terms, ("me", *moment), wanted)?,
            "{valid:?}: {moment}"
        );
    }
    Ok(())
}

// A command that is cut.
const CUT: &[Demand<'static>] = &[(SshCriticalOptionType::ForceCommand, b"\0\0\0\x02l")];

const HOSTS: Terms<'static> = Terms {
    cert_type: SshCertType::Host,
    valid: (9, 3),
    principals: &["you"],
    demands: CUT,
};

const BACKWARD: Terms<'static> = Terms {
    cert_type: SshCertType::Client,
    valid: (9, 3),
    principals: &["you"],
    demands: CUT,
};

const YOURS: Terms<'static> = Terms {
    cert_type: SshCertType::Client,
    valid: (3, 9),
    principals: &["you"],
    demands: CUT,
};

const GOOD: Terms<'static> = Terms {
    cert_type: SshCertType::Client,
    valid: (3, 9),
    principals: &["me"],
    demands: &[],
};

// Terms that break several rules, a file, a moment, and what is decided of the user `me`: the first rule that fails.
static ORDER: [(Terms<'static>, &str, u64, &str); 12] = [
    (HOSTS, "<ca>", 0, "deny NoAuthority"),
    (HOSTS, "cert-authority <ca>", 0, "deny NotClient"),
    (HOSTS, "cert-authority <ca>", 9, "deny NotClient"),
    (BACKWARD, "<ca>", 0, "deny NoAuthority"),
    (BACKWARD, "cert-authority <ca>", 8, "deny NotYet"),
    (BACKWARD, "cert-authority <ca>", 9, "deny Expired"),
    (YOURS, "cert-authority <ca>", 2, "deny NotYet"),
    (YOURS, "cert-authority <ca>", 9, "deny Expired"),
    (YOURS, "cert-authority <ca>", 8, "deny Principal"),
    (
        YOURS,
        "cert-authority,principals=\"you\" <ca>",
        8,
        "deny CriticalOption",
    ),
    (GOOD, "cert-authority <ca>", 8, "grant 1"),
    (
        GOOD,
        "cert-authority,principals=\"you\" <ca>",
        8,
        "deny Principal",
    ),
];

#[test]
fn denies_by_the_first_rule_that_fails(rt: HostRuntime) -> Result<(), Fail> {
    for (terms, file, moment, wanted) in &ORDER {
        assert!(rt;
            decides_with(rt.alloc(), file, terms, ("me", *moment), wanted)?,
            "{file}, {moment}: {wanted}"
        );
    }
    Ok(())
}
