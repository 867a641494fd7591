//! The source of a certificate: the issuer's text, a line that is exactly two percent signs, and the subject's key text.

use crate::runs::{Asked, End, ends, issues};
use crate::zero_lines::{HOST_LINE, SIGNATURE, ZERO_HOST};
use picky_key_rows::ZERO_KEY;
use std::alloc::Global;
use std::mem::ManuallyDrop;
use std::test::Fail;

// Of the zero keys as in crate::zero_lines, all with that certificate: docs/FORMATS.md, "Commands".
static SOURCES: [(&str, &str); 6] = [
    (
        "CR LF",
        "ssh-ed25519 AAAAC3NzaC1lZDI1NTE5AAAAIAAAAAAAAAAAAAAAAAAAAAAAAAAAAAAAAAAAAAAAAAAA ca\r\n%%\r\nssh-ed25519 AAAAC3NzaC1lZDI1NTE5AAAAIAAAAAAAAAAAAAAAAAAAAAAAAAAAAAAAAAAAAAAAAAAA host\r\n",
    ),
    (
        "no LF at the end",
        "ssh-ed25519 AAAAC3NzaC1lZDI1NTE5AAAAIAAAAAAAAAAAAAAAAAAAAAAAAAAAAAAAAAAAAAAAAAAA ca\n%%\nssh-ed25519 AAAAC3NzaC1lZDI1NTE5AAAAIAAAAAAAAAAAAAAAAAAAAAAAAAAAAAAAAAAAAAAAAAAA host",
    ),
    (
        "another comment of the issuer",
        "ssh-ed25519 AAAAC3NzaC1lZDI1NTE5AAAAIAAAAAAAAAAAAAAAAAAAAAAAAAAAAAAAAAAAAAAAAAAA host\n%%\nssh-ed25519 AAAAC3NzaC1lZDI1NTE5AAAAIAAAAAAAAAAAAAAAAAAAAAAAAAAAAAAAAAAAAAAAAAAA host\n",
    ),
    (
        "another line of the issuer's text",
        "ssh-ed25519 AAAAC3NzaC1lZDI1NTE5AAAAIAAAAAAAAAAAAAAAAAAAAAAAAAAAAAAAAAAAAAAAAAAA\n %%\n%% \n%%%\n%%\nssh-ed25519 AAAAC3NzaC1lZDI1NTE5AAAAIAAAAAAAAAAAAAAAAAAAAAAAAAAAAAAAAAAAAAAAAAAA host\n",
    ),
    (
        "a second mark",
        "ssh-ed25519 AAAAC3NzaC1lZDI1NTE5AAAAIAAAAAAAAAAAAAAAAAAAAAAAAAAAAAAAAAAAAAAAAAAA ca\n%%\nssh-ed25519 AAAAC3NzaC1lZDI1NTE5AAAAIAAAAAAAAAAAAAAAAAAAAAAAAAAAAAAAAAAAAAAAAAAA host\n%%\nssh-dss\n",
    ),
    (
        "a certificate as the issuer's text",
        "ssh-ed25519-cert-v01@openssh.com AAAAIHNzaC1lZDI1NTE5LWNlcnQtdjAxQG9wZW5zc2guY29tAAAAIAAAAAAAAAAAAAAAAAAAAAAAAAAAAAAAAAAAAAAAAAAAAAAAIAAAAAAAAAAAAAAAAAAAAAAAAAAAAAAAAAAAAAAAAAAAAAAAAAAAAAAAAAACAAAAAAAAAAAAAAAAAAAAAAAAAAAAAAAAAAAAAAAAAAAAAAAAAAAAMwAAAAtzc2gtZWQyNTUxOQAAACAAAAAAAAAAAAAAAAAAAAAAAAAAAAAAAAAAAAAAAAAAAAAAAFMAAAALc3NoLWVkMjU1MTkAAABAAAAAAAAAAAAAAAAAAAAAAAAAAAAAAAAAAAAAAAAAAAAAAAAAAAAAAAAAAAAAAAAAAAAAAAAAAAAAAAAAAAAAAA== host\n%%\nssh-ed25519 AAAAC3NzaC1lZDI1NTE5AAAAIAAAAAAAAAAAAAAAAAAAAAAAAAAAAAAAAAAAAAAAAAAA host\n",
    ),
];

/// The line is issued of the source.
fn is_signed(alloc: Global, source: &str, line: &str) -> Result<bool, Fail> {
    let asked = Asked {
        source,
        ..ZERO_HOST
    };
    issues(alloc, &asked, SIGNATURE, line)
}

#[test]
fn cuts_a_source_at_its_first_mark(rt: HostRuntime) -> Result<(), Fail> {
    for (name, source) in &SOURCES {
        assert!(rt; is_signed(rt.alloc(), *source, HOST_LINE)?, "{name}");
    }
    Ok(())
}

// A source, and the line on `err`.
static REFUSED: [(&str, &str); 8] = [
    (
        "ssh-ed25519 AAAAC3NzaC1lZDI1NTE5AAAAIAAAAAAAAAAAAAAAAAAAAAAAAAAAAAAAAAAAAAAAAAAA host\n",
        "keyconv: refused: request.MissingSignatureKey\n",
    ),
    (
        "ssh-ed25519 AAAAC3NzaC1lZDI1NTE5AAAAIAAAAAAAAAAAAAAAAAAAAAAAAAAAAAAAAAAAAAAAAAAA ca\nssh-ed25519 AAAAC3NzaC1lZDI1NTE5AAAAIAAAAAAAAAAAAAAAAAAAAAAAAAAAAAAAAAAAAAAAAAAA host\n",
        "keyconv: refused: request.MissingSignatureKey\n",
    ),
    (
        "ssh-ed25519 AAAAC3NzaC1lZDI1NTE5AAAAIAAAAAAAAAAAAAAAAAAAAAAAAAAAAAAAAAAAAAAAAAAA ca\n%% \nssh-ed25519 AAAAC3NzaC1lZDI1NTE5AAAAIAAAAAAAAAAAAAAAAAAAAAAAAAAAAAAAAAAAAAAAAAAA host\n",
        "keyconv: refused: request.MissingSignatureKey\n",
    ),
    (
        "ssh-ed25519 !!! ca\n%%\nssh-ed25519 AAAAC3NzaC1lZDI1NTE5AAAAIAAAAAAAAAAAAAAAAAAAAAAAAAAAAAAAAAAAAAAAAAAA host\n",
        "keyconv: refused: issuer.public.Base64DecodeError\n",
    ),
    (
        "ssh-ed25519 !!! ca\n%%\nssh-dss\n",
        "keyconv: refused: issuer.public.Base64DecodeError\n",
    ),
    (
        "%%\nssh-ed25519 AAAAC3NzaC1lZDI1NTE5AAAAIAAAAAAAAAAAAAAAAAAAAAAAAAAAAAAAAAAAAAAAAAAA host\n",
        "keyconv: refused: issuer.public.UnknownKeyType\n",
    ),
    (
        "ssh-ed25519 AAAAC3NzaC1lZDI1NTE5AAAAIAAAAAAAAAAAAAAAAAAAAAAAAAAAAAAAAAAAAAAAAAAA ca\n%%",
        "keyconv: refused: input.public.UnknownKeyType\n",
    ),
    (
        "PuTTY-User-Key-File-3: ssh-ed25519\n%%\nssh-ed25519 AAAAC3NzaC1lZDI1NTE5AAAAIAAAAAAAAAAAAAAAAAAAAAAAAAAAAAAAAAAAAAAAAAAA host\n",
        "keyconv: refused: issuer.putty.EndOfInput\n",
    ),
];

fn is_refused(alloc: Global, command: &str, source: &str, err: &str) -> Result<bool, Fail> {
    let asked = Asked {
        source,
        ..ZERO_HOST
    };
    let end = End {
        code: 1,
        out: "",
        err,
    };
    ends(alloc, command, &asked, SIGNATURE, &end)
}

#[test]
fn says_which_text_means_nothing(rt: HostRuntime) -> Result<(), Fail> {
    for (source, err) in &REFUSED {
        for command in ["cert", "tbs"] {
            assert!(rt;
                is_refused(rt.alloc(), command, *source, *err)?,
                "{command}: {source}"
            );
        }
    }
    Ok(())
}

const CA: &str =
    "ssh-ed25519 AAAAC3NzaC1lZDI1NTE5AAAAIAAAAAAAAAAAAAAAAAAAAAAAAAAAAAAAAAAAAAAAAAAA ca\n";

const SUBJECT: &str =
    "ssh-ed25519 AAAAC3NzaC1lZDI1NTE5AAAAIAAAAAAAAAAAAAAAAAAAAAAAAAAAAAAAAAAAAAAAAAAA host\n";

// line(signed(2), comment=b"hello"): the comment of the private key.
const HELLO_LINE: &str =
    "ssh-ed25519-cert-v01@openssh.com AAAAIHNzaC1lZDI1NTE5LWNlcnQtdjAxQG9wZW5zc2guY29tAAAAIAAAAAAAAAAAAAAAAAAAAAAAAAAAAAAAAAAAAAAAAAAAAAAAIAAAAAAAAAAAAAAAAAAAAAAAAAAAAAAAAAAAAAAAAAAAAAAAAAAAAAAAAAACAAAAAAAAAAAAAAAAAAAAAAAAAAAAAAAAAAAAAAAAAAAAAAAAAAAAMwAAAAtzc2gtZWQyNTUxOQAAACAAAAAAAAAAAAAAAAAAAAAAAAAAAAAAAAAAAAAAAAAAAAAAAFMAAAALc3NoLWVkMjU1MTkAAABAAAAAAAAAAAAAAAAAAAAAAAAAAAAAAAAAAAAAAAAAAAAAAAAAAAAAAAAAAAAAAAAAAAAAAAAAAAAAAAAAAAAAAA== hello\r\n";

/// The certificate is issued of both texts.
fn is_issued_of(alloc: Global, issuer: &str, subject: &str, line: &str) -> Result<bool, Fail> {
    let source = ManuallyDrop::new(format!(in alloc; "{issuer}%%\n{subject}")?);
    is_signed(alloc, source.as_str(), line)
}

// The public part of ZERO_KEY is the key of zeros.
#[test]
fn takes_the_public_part_of_a_private_key(rt: HostRuntime) -> Result<(), Fail> {
    assert!(rt; is_issued_of(rt.alloc(), ZERO_KEY, SUBJECT, HOST_LINE)?);
    assert!(rt; is_issued_of(rt.alloc(), CA, ZERO_KEY, HELLO_LINE)?);
    Ok(())
}
