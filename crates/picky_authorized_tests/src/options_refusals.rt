//! Options that don't fit, whatever stands behind them.

use crate::entry_texts::has_entries;
use std::alloc::Global;
use std::mem::ManuallyDrop;
use std::test::Fail;

// Where options may stand, here a tilde, and the entries of that text. Options are judged before the key behind them.
static PLACES: [(&str, &str); 4] = [
    ("~ ssh-ed25519 B0 k", "1 bad\n"),
    (" \t~\t ssh-ed25519 B0 k\r\n", "1 bad\n"),
    (
        "# k\n\n~ ssh-ed25519 B0 k\nssh-ed25519 B0 l\n",
        "3 bad\n4 B0 l\n",
    ),
    ("~ ssh-dss ?", "1 bad\n"),
];

/// The options don't fit, wherever they stand.
fn are_bad(alloc: Global, options: &str) -> Result<bool, Fail> {
    let mut are_so = true;
    for (text, entries) in &PLACES {
        let text = ManuallyDrop::new(text.replace(alloc, "~", options)?);
        are_so = are_so && has_entries(alloc, text.as_str(), entries)?;
    }
    Ok(are_so)
}

// docs/FORMATS.md, "Authorized keys": NAME or NAME="TEXT", whose name has letters, digits and dashes, and one of them at least.
static MISSPELT: [&str; 41] = [
    ",",
    "a,,b",
    "a,",
    ",a",
    "a=\"b\",",
    "a=\"b\",,c",
    "=",
    "=\"b\"",
    "a,=\"b\"",
    "\"b\"",
    "\"\"",
    "a=",
    "a=b",
    "a=,b",
    "a='b'",
    "a=b\"c\"",
    "a=\"b\"c",
    "a=\"b\"\\",
    "a=\"b\"=\"c\"",
    "a=\"b\"\"c\"",
    "a=\"b\"c\"",
    "a==\"b\"",
    "a\\=\"b\"",
    "a=\\\"b\\\"",
    "a\"b\"",
    "\"a\",b",
    "a_b",
    "a.b",
    "a/b",
    "a:b",
    "a;b",
    "a@b",
    "a%b",
    "\u{e9}",
    "a\u{b7}b=\"c\"",
    "a\u{a0}b",
    "a\u{b}b",
    "no-pty\r",
    "\u{feff}no-pty",
    "no-pty\0",
    "ssh-ed25519-cert-v01@openssh.com",
];

static UNCLOSED: [&str; 11] = [
    "a=\"",
    "a=\"b",
    "a=\"b c",
    "a=\"b,c",
    "a=\"b\\\"",
    "a=\"b\\\\\"",
    "a=\"\\\"",
    "a=\"b\",c=\"d",
    "a=\"b\"\"",
    "a\"",
    "\"",
];

// sshd(8): cert-authority stands alone, and principals="..." has a list. Each may stand once (docs/FORMATS.md, there).
static UNFIT: [&str; 16] = [
    "cert-authority=\"\"",
    "cert-authority=\"x\"",
    "CERT-AUTHORITY=\"x\"",
    "no-pty,cert-authority=\"yes\"",
    "principals",
    "Principals",
    "cert-authority,principals",
    "cert-authority,cert-authority",
    "cert-authority,CERT-AUTHORITY",
    "cert-authority,no-pty,cert-authority",
    "cert-authority,cert-authority=\"x\"",
    "principals=\"a\",principals=\"b\"",
    "principals=\"a\",principals=\"a\"",
    "principals=\"a\",no-pty,PRINCIPALS=\"\"",
    "principals=\"a\",principals",
    "cert-authority,principals=\"a\",cert-authority",
];

#[test]
fn refuses_what_is_no_option(rt: HostRuntime) -> Result<(), Fail> {
    for options in &MISSPELT {
        assert!(rt; are_bad(rt.alloc(), options)?, "{options}");
    }
    Ok(())
}

#[test]
fn refuses_a_quote_that_is_not_closed(rt: HostRuntime) -> Result<(), Fail> {
    for options in &UNCLOSED {
        assert!(rt; are_bad(rt.alloc(), options)?, "{options}");
    }
    Ok(())
}

#[test]
fn refuses_an_authority_that_does_not_fit(rt: HostRuntime) -> Result<(), Fail> {
    for options in &UNFIT {
        assert!(rt; are_bad(rt.alloc(), options)?, "{options}");
    }
    Ok(())
}
