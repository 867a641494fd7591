//! Options that fit, before a key.

use crate::entry_texts::has_entries;
use std::alloc::Global;
use std::mem::ManuallyDrop;
use std::test::Fail;

// Where options may stand, here a tilde, and the entries of that text.
static PLACES: [(&str, &str); 4] = [
    ("~ ssh-ed25519 B0 k", "1 ~B0 k\n"),
    (" \t~\t ssh-ed25519 B0 k\r\n", "1 ~B0 k\n"),
    (
        "# k\n\n~  \tssh-ed25519 B0 k\nssh-ed25519 B0 l\n",
        "3 ~B0 k\n4 B0 l\n",
    ),
    (
        "no-pty ssh-ed25519 B0 k\n~ ssh-ed25519 B0 \"l\"\n",
        "1 [no-pty] B0 k\n2 ~B0 \"l\"\n",
    ),
];

/// The options are these at this place.
fn are_at(alloc: Global, place: &(&str, &str), options: &str, wanted: &str) -> Result<bool, Fail> {
    let (text, entries) = place;
    let text = ManuallyDrop::new(text.replace(alloc, "~", options)?);
    let entries = ManuallyDrop::new(entries.replace(alloc, "~", wanted)?);
    has_entries(alloc, text.as_str(), entries.as_str())
}

// sshd(8): options are parted by commas, and no spaces stand in them but between quotes; their names are not case-sensitive.
// docs/FORMATS.md, "Authorized keys", has what a name and a value are.
static NAMES: [(&str, &str); 12] = [
    ("no-pty", "[no-pty] "),
    ("a,b", "[a] [b] "),
    ("0", "[0] "),
    ("-", "[-] "),
    ("A-1,--2", "[a-1] [--2] "),
    (
        "NO-Pty,permit-X11-Forwarding",
        "[no-pty] [permit-x11-forwarding] ",
    ),
    ("no-pty,no-pty", "[no-pty] [no-pty] "),
    ("x-of-no-program", "[x-of-no-program] "),
    ("restrict,pty", "[restrict] [pty] "),
    ("ssh-dss", "[ssh-dss] "),
    // The first word is another than a key type's name.
    ("ssh-ed25519,no-pty", "[ssh-ed25519] [no-pty] "),
    ("SSH-ED25519", "[ssh-ed25519] "),
];

static VALUES: [(&str, &str); 18] = [
    ("command=\"ls\"", "[command=ls] "),
    ("command=\"\"", "[command=] "),
    ("COMMAND=\"LS\"", "[command=LS] "),
    ("command=\"ls -l\t/\"", "[command=ls -l\t/] "),
    ("command=\" a \"", "[command= a ] "),
    (
        "from=\"10.0.0.0/8,!*.example.org\",no-pty",
        "[from=10.0.0.0/8,!*.example.org] [no-pty] ",
    ),
    (
        "command=\"say \\\"hi\\\"\",no-pty",
        "[command=say \"hi\"] [no-pty] ",
    ),
    ("command=\"\\\"a, b\\\" c\"", "[command=\"a, b\" c] "),
    ("command=\"\\\"\"", "[command=\"] "),
    ("command=\"a\\b\\\\c\"", "[command=a\\b\\\\c] "),
    ("command=\"a\\\\\\\"\"", "[command=a\\\\\"] "),
    ("environment=\"A=B\"", "[environment=A=B] "),
    ("command=\"# a\"", "[command=# a] "),
    ("command=\"\u{e9} \u{2028}\"", "[command=\u{e9} \u{2028}] "),
    ("command=\"a\rb\"", "[command=a\rb] "),
    ("command=\"a\0b\"", "[command=a\0b] "),
    ("command=\"a\",command=\"b\"", "[command=a] [command=b] "),
    ("a,b=\"c,d\",e,f=\"g h\",i", "[a] [b=c,d] [e] [f=g h] [i] "),
];

// sshd(8), "cert-authority" and "principals".
static AUTHORITIES: [(&str, &str); 7] = [
    ("cert-authority", "[cert-authority] "),
    ("Cert-Authority,no-pty", "[cert-authority] [no-pty] "),
    (
        "cert-authority,principals=\"a,b\"",
        "[cert-authority] [principals=a,b] ",
    ),
    (
        "PRINCIPALS=\"A\",CERT-AUTHORITY",
        "[principals=A] [cert-authority] ",
    ),
    ("principals=\"\"", "[principals=] "),
    (
        "cert-authority-x=\"1\",cert-authority,x-cert-authority,cert-authorit",
        "[cert-authority-x=1] [cert-authority] [x-cert-authority] [cert-authorit] ",
    ),
    (
        "principal,principals=\"a\",xprincipals,principals-x",
        "[principal] [principals=a] [xprincipals] [principals-x] ",
    ),
];

#[test]
fn keeps_the_names_of_options(rt: HostRuntime) -> Result<(), Fail> {
    for place in &PLACES {
        for (options, wanted) in &NAMES {
            assert!(rt;
                are_at(rt.alloc(), place, options, wanted)?,
                "{options}: {}",
                place.0
            );
        }
    }
    Ok(())
}

#[test]
fn keeps_the_values_of_options(rt: HostRuntime) -> Result<(), Fail> {
    for place in &PLACES {
        for (options, wanted) in &VALUES {
            assert!(rt;
                are_at(rt.alloc(), place, options, wanted)?,
                "{options}: {}",
                place.0
            );
        }
    }
    Ok(())
}

#[test]
fn keeps_what_an_authority_is_for(rt: HostRuntime) -> Result<(), Fail> {
    for place in &PLACES {
        for (options, wanted) in &AUTHORITIES {
            assert!(rt;
                are_at(rt.alloc(), place, options, wanted)?,
                "{options}: {}",
                place.0
            );
        }
    }
    Ok(())
}
