//! Which line decides on an offer: the first of its sort that has the key.

use crate::decisions::{Asked, is_decided};
use crate::terms::offer_of;
use std::alloc::Global;
use std::test::Fail;

const ME: Asked = ("me", 5);

fn decides(
    alloc: Global,
    file: &str,
    offer: &str,
    asked: Asked,
    wanted: &str,
) -> Result<bool, Fail> {
    let offer = offer_of(alloc, offer)?;
    is_decided(alloc, file, &offer, asked, wanted)
}

// A file, and what is decided over it of the key of 32 zero bytes. docs/FORMATS.md, "Policies", has the rules.
static FOR_A_KEY: [(&str, &str); 20] = [
    ("ssh-ed25519 B0 k", "grant 1"),
    ("", "deny NoLine"),
    ("# ssh-ed25519 B0 k\n\n", "deny NoLine"),
    ("<ca> k\n<user> k\n", "deny NoLine"),
    ("<ca> k\nssh-ed25519 B0 k\n", "grant 2"),
    ("# k\r\n\r\n \t\r\nssh-ed25519 B0 k\r\n", "grant 4"),
    ("ssh-ed25519 B0 k\nno-pty ssh-ed25519 B0 k\n", "grant 1"),
    (
        "no-pty ssh-ed25519 B0 k\nssh-ed25519 B0 k\n",
        "grant 1 [no-pty]",
    ),
    // An authority's line is none of a key's.
    ("cert-authority ssh-ed25519 B0 k\n", "deny NoLine"),
    ("CERT-AUTHORITY,no-pty ssh-ed25519 B0 k\n", "deny NoLine"),
    (
        "cert-authority ssh-ed25519 B0 k\nssh-ed25519 B0 k\n",
        "grant 2",
    ),
    // What isn't read says nothing, neither yes nor no.
    ("a,,b ssh-ed25519 B0 k\n", "deny NoLine"),
    ("cert-authority=\"\" ssh-ed25519 B0 k\n", "deny NoLine"),
    ("ssh-dss B0 k\n", "deny NoLine"),
    (
        "a,,b ssh-ed25519 B0 k\nno-pty ssh-ed25519 ? k\nssh-dss B0 k\nssh-ed25519 B0 k\n",
        "grant 4",
    ),
    // Names of options decide nothing here, but for the two that say whose keys a line is for.
    (
        "x,command=\"ls -l\",Expiry-Time=\"19700101\",command=\"\" ssh-ed25519 B0 k\n",
        "grant 1 [x] [command=ls -l] [expiry-time=19700101] [command=]",
    ),
    ("principals=\"you\" ssh-ed25519 B0 k\n", "grant 1"),
    ("a,principals=\"\",b ssh-ed25519 B0 k\n", "grant 1 [a] [b]"),
    (
        "cert-authority-x,xprincipals ssh-ed25519 B0 k\n",
        "grant 1 [cert-authority-x] [xprincipals]",
    ),
    // The name before a blob isn't compared with the one inside.
    ("ssh-rsa B0 k\n", "grant 1"),
];

#[test]
fn takes_the_first_line_of_a_key(rt: HostRuntime) -> Result<(), Fail> {
    for asked in [ME, ("", 0), ("you", u64::MAX)] {
        for (file, wanted) in &FOR_A_KEY {
            assert!(rt;
                decides(rt.alloc(), file, "ssh-ed25519 B0 me", asked, wanted)?,
                "{file}: {asked:?}"
            );
        }
    }
    Ok(())
}

// The same of the plain certificate, which `ca` issued for `user`.
static FOR_A_CERTIFICATE: [(&str, &str); 20] = [
    ("cert-authority <ca> k", "grant 1"),
    ("Cert-Authority <ca>\r\n", "grant 1"),
    ("", "deny NoAuthority"),
    ("<ca> k\n", "deny NoAuthority"),
    ("no-pty,principals=\"me\" <ca> k\n", "deny NoAuthority"),
    ("cert-authority ssh-ed25519 B0 k\n", "deny NoAuthority"),
    // The subject's key counts for nothing.
    ("<user> k\n", "deny NoAuthority"),
    ("cert-authority <user> k\n", "deny NoAuthority"),
    ("<ca> k\n<user> k\ncert-authority <ca> k\n", "grant 3"),
    (
        "# k\n\ncert-authority ssh-ed25519 B0 k\ncert-authority <ca> k\n",
        "grant 4",
    ),
    // Of two lines of one authority the first decides.
    (
        "cert-authority,no-pty <ca> k\ncert-authority <ca> l\n",
        "grant 1 [no-pty]",
    ),
    (
        "cert-authority,principals=\"you\" <ca> k\ncert-authority <ca> l\n",
        "deny Principal",
    ),
    (
        "cert-authority <ca> k\ncert-authority,principals=\"you\" <ca> l\n",
        "grant 1",
    ),
    // What isn't read says nothing.
    ("cert-authority,cert-authority <ca> k\n", "deny NoAuthority"),
    (
        "cert-authority=\"\" <ca> k\ncert-authority,principals <ca> k\n",
        "deny NoAuthority",
    ),
    (
        "cert-authority,principals=\"you\",principals=\"you\" <ca> k\ncert-authority <ca> k\n",
        "grant 2",
    ),
    (
        "cert-authority ssh-ed25519 ? k\ncert-authority <ca> k\n",
        "grant 2",
    ),
    // The two options that say whose keys a line is for aren't handed out.
    (
        "a=\"1\",cert-authority,b,principals=\"me\",c=\"\" <ca> k\n",
        "grant 1 [a=1] [b] [c=]",
    ),
    (
        "no-pty,CERT-AUTHORITY,PRINCIPALS=\"me\",no-pty <ca> k\n",
        "grant 1 [no-pty] [no-pty]",
    ),
    (
        "cert-authority,command=\"say \\\"hi\\\"\" <ca> k\n",
        "grant 1 [command=say \"hi\"]",
    ),
];

#[test]
fn takes_the_first_line_of_an_authority(rt: HostRuntime) -> Result<(), Fail> {
    for (file, wanted) in &FOR_A_CERTIFICATE {
        assert!(rt; decides(rt.alloc(), file, "<plain>", ME, wanted)?, "{file}");
    }
    Ok(())
}

// Two spellings of one key: s(b"ssh-rsa") + s(b"\0\3") + s(b"\x81") and s(b"ssh-rsa") + s(b"\3") + s(b"\0\x81")
// (docs/FORMATS.md, "Fields of the wire"); and s(b"ssh-rsa") + s(b"\3") + s(b"\0\x83"), which is another.
static SPELLINGS: [(&str, &str, &str); 4] = [
    (
        "ssh-rsa AAAAB3NzaC1yc2EAAAACAAMAAAABgQ== k",
        "ssh-rsa AAAAB3NzaC1yc2EAAAABAwAAAAIAgQ== me",
        "grant 1",
    ),
    (
        "ssh-rsa AAAAB3NzaC1yc2EAAAABAwAAAAIAgQ== k",
        "ssh-rsa AAAAB3NzaC1yc2EAAAACAAMAAAABgQ== me",
        "grant 1",
    ),
    (
        "ssh-rsa AAAAB3NzaC1yc2EAAAABAwAAAAIAgw== k",
        "ssh-rsa AAAAB3NzaC1yc2EAAAABAwAAAAIAgQ== me",
        "deny NoLine",
    ),
    // A certificate of zeros, whose issuer has the zero key, too.
    ("cert-authority ssh-rsa B0 k", "<zero>", "deny NotClient"),
];

#[test]
fn compares_keys_by_their_one_spelling(rt: HostRuntime) -> Result<(), Fail> {
    for (file, offer, wanted) in &SPELLINGS {
        assert!(rt;
            decides(rt.alloc(), file, offer, ME, wanted)?,
            "{file}: {offer}"
        );
    }
    Ok(())
}
