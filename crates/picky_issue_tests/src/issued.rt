//! Certificates as they are asked for, over keys of zeros: their lines are laid out by hand, and are read back.

use crate::runs::{Asked, End, ends_unsigned, issues, shows};
use crate::zero_lines::{
    FRESH, HOST, HOST_LINE, HOST_SIGNED, SIGNATURE, SOURCE, SUBJECT_LINE, TIMES, ZERO_HOST,
};
use picky_cert::{CertView, SshCertificate};
use picky_text::decode;
use picky_wire::Bytes;
use std::alloc::Global;
use std::mem::ManuallyDrop;
use std::test::Fail;

/// What is asked, the line, and the data of its critical options and of its extensions.
struct IssuedRow {
    name: &'static str,
    words: &'static [&'static str],
    more: &'static [&'static str],
    line: &'static str,
    options: &'static [u8],
    extensions: &'static [u8],
}

// b"".join(s(name) + s(b"") for name in NAMES), 130 bytes: OpenSSH's PROTOCOL.certkeys names the five permits.
const PERMITS: &[u8] =
    b"\0\0\0\x15permit-X11-forwarding\0\0\0\0\0\0\0\x17permit-agent-forwarding\0\0\0\0\0\0\0\x16permit-port-forwarding\0\0\0\0\0\0\0\x0apermit-pty\0\0\0\0\0\0\0\x0epermit-user-rc\0\0\0\0";

// With the functions of crate::zero_lines, in which PERMITS are those bytes.
static ROWS: [IssuedRow; 6] = [
    IssuedRow {
        name: "a host",
        words: HOST,
        more: &[],
        line: HOST_LINE,
        options: b"",
        extensions: b"",
    },
    IssuedRow {
        name: "options in another order",
        words: &["--before", "0", "--kind", "host", "--type"],
        more: &["ssh-ed25519-cert-v01@openssh.com", "--after", "0"],
        line: HOST_LINE,
        options: b"",
        extensions: b"",
    },
    // line(signed(1, extensions=PERMITS))
    IssuedRow {
        name: "a user",
        words: TIMES,
        more: &["--kind", "client"],
        line: "ssh-ed25519-cert-v01@openssh.com AAAAIHNzaC1lZDI1NTE5LWNlcnQtdjAxQG9wZW5zc2guY29tAAAAIAAAAAAAAAAAAAAAAAAAAAAAAAAAAAAAAAAAAAAAAAAAAAAAIAAAAAAAAAAAAAAAAAAAAAAAAAAAAAAAAAAAAAAAAAAAAAAAAAAAAAAAAAABAAAAAAAAAAAAAAAAAAAAAAAAAAAAAAAAAAAAAAAAAIIAAAAVcGVybWl0LVgxMS1mb3J3YXJkaW5nAAAAAAAAABdwZXJtaXQtYWdlbnQtZm9yd2FyZGluZwAAAAAAAAAWcGVybWl0LXBvcnQtZm9yd2FyZGluZwAAAAAAAAAKcGVybWl0LXB0eQAAAAAAAAAOcGVybWl0LXVzZXItcmMAAAAAAAAAAAAAADMAAAALc3NoLWVkMjU1MTkAAAAgAAAAAAAAAAAAAAAAAAAAAAAAAAAAAAAAAAAAAAAAAAAAAABTAAAAC3NzaC1lZDI1NTE5AAAAQAAAAAAAAAAAAAAAAAAAAAAAAAAAAAAAAAAAAAAAAAAAAAAAAAAAAAAAAAAAAAAAAAAAAAAAAAAAAAAAAAAAAAA= host\r\n",
        options: b"",
        extensions: PERMITS,
    },
    // line(signed(1, extensions=s(b"x@y") + s(s(b"1"))))
    IssuedRow {
        name: "an extension that is not known",
        words: TIMES,
        more: &["--kind", "client", "--extension", "x@y=1"],
        line: "ssh-ed25519-cert-v01@openssh.com AAAAIHNzaC1lZDI1NTE5LWNlcnQtdjAxQG9wZW5zc2guY29tAAAAIAAAAAAAAAAAAAAAAAAAAAAAAAAAAAAAAAAAAAAAAAAAAAAAIAAAAAAAAAAAAAAAAAAAAAAAAAAAAAAAAAAAAAAAAAAAAAAAAAAAAAAAAAABAAAAAAAAAAAAAAAAAAAAAAAAAAAAAAAAAAAAAAAAABAAAAADeEB5AAAABQAAAAExAAAAAAAAADMAAAALc3NoLWVkMjU1MTkAAAAgAAAAAAAAAAAAAAAAAAAAAAAAAAAAAAAAAAAAAAAAAAAAAABTAAAAC3NzaC1lZDI1NTE5AAAAQAAAAAAAAAAAAAAAAAAAAAAAAAAAAAAAAAAAAAAAAAAAAAAAAAAAAAAAAAAAAAAAAAAAAAAAAAAAAAAAAAAAAAA= host\r\n",
        options: b"",
        extensions: b"\0\0\0\x03x@y\0\0\0\x05\0\0\0\x011",
    },
    // options = s(b"source-address") + s(s(b"::1")) + s(b"verify-required") + s(b"")
    // extensions = s(b"no-touch-required") + s(b"") + s(b"permit-pty") + s(b"") + s(b"x") + s(s(b"")) + s(b"x") + s(s(b"=1"))
    // line(signed(1, options=options, extensions=extensions))
    IssuedRow {
        name: "options and extensions by name",
        words: TIMES,
        more: &[
            "--extension",
            "x=",
            "--critical",
            "verify-required",
            "--extension",
            "permit-pty",
            "--kind",
            "client",
            "--extension",
            "x==1",
            "--critical",
            "source-address=::1",
            "--extension",
            "no-touch-required",
        ],
        line: "ssh-ed25519-cert-v01@openssh.com AAAAIHNzaC1lZDI1NTE5LWNlcnQtdjAxQG9wZW5zc2guY29tAAAAIAAAAAAAAAAAAAAAAAAAAAAAAAAAAAAAAAAAAAAAAAAAAAAAIAAAAAAAAAAAAAAAAAAAAAAAAAAAAAAAAAAAAAAAAAAAAAAAAAAAAAAAAAABAAAAAAAAAAAAAAAAAAAAAAAAAAAAAAAAAAAANAAAAA5zb3VyY2UtYWRkcmVzcwAAAAcAAAADOjoxAAAAD3ZlcmlmeS1yZXF1aXJlZAAAAAAAAABHAAAAEW5vLXRvdWNoLXJlcXVpcmVkAAAAAAAAAApwZXJtaXQtcHR5AAAAAAAAAAF4AAAABAAAAAAAAAABeAAAAAYAAAACPTEAAAAAAAAAMwAAAAtzc2gtZWQyNTUxOQAAACAAAAAAAAAAAAAAAAAAAAAAAAAAAAAAAAAAAAAAAAAAAAAAAFMAAAALc3NoLWVkMjU1MTkAAABAAAAAAAAAAAAAAAAAAAAAAAAAAAAAAAAAAAAAAAAAAAAAAAAAAAAAAAAAAAAAAAAAAAAAAAAAAAAAAAAAAAAAAA== host\r\n",
        options: b"\0\0\0\x0esource-address\0\0\0\x07\0\0\0\x03::1\0\0\0\x0fverify-required\0\0\0\0",
        extensions: b"\0\0\0\x11no-touch-required\0\0\0\0\0\0\0\x0apermit-pty\0\0\0\0\0\0\0\x01x\0\0\0\x04\0\0\0\0\0\0\0\x01x\0\0\0\x06\0\0\0\x02=1",
    },
    // line(signed(2, serial=2**64 - 1, key_id=b"--serial", principals=s(b"b") + s(b"a"), after=1, before=2**64 - 1))
    IssuedRow {
        name: "who and when",
        words: &[
            "--type",
            "ssh-ed25519-cert-v01@openssh.com",
            "--serial",
            "18446744073709551615",
            "--id",
            "--serial",
            "--principal",
            "b",
        ],
        more: &[
            "--principal",
            "a",
            "--kind",
            "host",
            "--after",
            "1",
            "--before",
            "18446744073709551615",
            "--algorithm",
            "ed25519",
        ],
        line: "ssh-ed25519-cert-v01@openssh.com AAAAIHNzaC1lZDI1NTE5LWNlcnQtdjAxQG9wZW5zc2guY29tAAAAIAAAAAAAAAAAAAAAAAAAAAAAAAAAAAAAAAAAAAAAAAAAAAAAIAAAAAAAAAAAAAAAAAAAAAAAAAAAAAAAAAAAAAAAAAAA//////////8AAAACAAAACC0tc2VyaWFsAAAACgAAAAFiAAAAAWEAAAAAAAAAAf//////////AAAAAAAAAAAAAAAAAAAAMwAAAAtzc2gtZWQyNTUxOQAAACAAAAAAAAAAAAAAAAAAAAAAAAAAAAAAAAAAAAAAAAAAAAAAAFMAAAALc3NoLWVkMjU1MTkAAABAAAAAAAAAAAAAAAAAAAAAAAAAAAAAAAAAAAAAAAAAAAAAAAAAAAAAAAAAAAAAAAAAAAAAAAAAAAAAAAAAAAAAAA== host\r\n",
        options: b"",
        extensions: b"",
    },
];

// options = s(b"force-command") + s(s(b"x" * 200))
// line(signed(1, options=options, extensions=PERMITS))
static LONG_COMMAND: IssuedRow = IssuedRow {
    name: "a command of 200 letters",
    words: TIMES,
    more: &[
        "--kind",
        "client",
        "--critical",
        "force-command=xxxxxxxxxxxxxxxxxxxxxxxxxxxxxxxxxxxxxxxxxxxxxxxxxxxxxxxxxxxxxxxxxxxxxxxxxxxxxxxxxxxxxxxxxxxxxxxxxxxxxxxxxxxxxxxxxxxxxxxxxxxxxxxxxxxxxxxxxxxxxxxxxxxxxxxxxxxxxxxxxxxxxxxxxxxxxxxxxxxxxxxxxxxxxxxxxxxxxxxx",
    ],
    line: "ssh-ed25519-cert-v01@openssh.com AAAAIHNzaC1lZDI1NTE5LWNlcnQtdjAxQG9wZW5zc2guY29tAAAAIAAAAAAAAAAAAAAAAAAAAAAAAAAAAAAAAAAAAAAAAAAAAAAAIAAAAAAAAAAAAAAAAAAAAAAAAAAAAAAAAAAAAAAAAAAAAAAAAAAAAAAAAAABAAAAAAAAAAAAAAAAAAAAAAAAAAAAAAAAAAAA4QAAAA1mb3JjZS1jb21tYW5kAAAAzAAAAMh4eHh4eHh4eHh4eHh4eHh4eHh4eHh4eHh4eHh4eHh4eHh4eHh4eHh4eHh4eHh4eHh4eHh4eHh4eHh4eHh4eHh4eHh4eHh4eHh4eHh4eHh4eHh4eHh4eHh4eHh4eHh4eHh4eHh4eHh4eHh4eHh4eHh4eHh4eHh4eHh4eHh4eHh4eHh4eHh4eHh4eHh4eHh4eHh4eHh4eHh4eHh4eHh4eHh4eHh4eHh4eHh4eHh4eHh4eHh4eHh4eHh4eHh4eHh4eHh4eHh4eHh4eAAAAIIAAAAVcGVybWl0LVgxMS1mb3J3YXJkaW5nAAAAAAAAABdwZXJtaXQtYWdlbnQtZm9yd2FyZGluZwAAAAAAAAAWcGVybWl0LXBvcnQtZm9yd2FyZGluZwAAAAAAAAAKcGVybWl0LXB0eQAAAAAAAAAOcGVybWl0LXVzZXItcmMAAAAAAAAAAAAAADMAAAALc3NoLWVkMjU1MTkAAAAgAAAAAAAAAAAAAAAAAAAAAAAAAAAAAAAAAAAAAAAAAAAAAABTAAAAC3NzaC1lZDI1NTE5AAAAQAAAAAAAAAAAAAAAAAAAAAAAAAAAAAAAAAAAAAAAAAAAAAAAAAAAAAAAAAAAAAAAAAAAAAAAAAAAAAAAAAAAAAA= host\r\n",
    options: b"\0\0\0\x0dforce-command\0\0\0\xcc\0\0\0\xc8xxxxxxxxxxxxxxxxxxxxxxxxxxxxxxxxxxxxxxxxxxxxxxxxxxxxxxxxxxxxxxxxxxxxxxxxxxxxxxxxxxxxxxxxxxxxxxxxxxxxxxxxxxxxxxxxxxxxxxxxxxxxxxxxxxxxxxxxxxxxxxxxxxxxxxxxxxxxxxxxxxxxxxxxxxxxxxxxxxxxxxxxxxxxxxxxxxxxxxxx",
    extensions: PERMITS,
};

fn long_command() -> &'static IssuedRow {
    &LONG_COMMAND
}

/// The bytes of the second word of a line, where it is base64.
pub fn blob_of(alloc: Global, line: &str) -> Option<Bytes> {
    let (_, rest) = line.split_once(' ')?;
    let (body, _) = rest.split_once(' ')?;
    match decode(alloc, body.as_bytes()) {
        Ok(bytes) => Bytes::new(alloc, bytes.as_slice()).ok(),
        Err(_) => None,
    }
}

/// The bytes have the row's critical options and extensions.
fn has_grants(blob: &Bytes, row: &IssuedRow) -> bool {
    match &*ManuallyDrop::new(CertView::read(blob.as_slice())) {
        Ok((view, _)) => {
            view.critical_options.bytes == row.options && view.extensions.bytes == row.extensions
        }
        Err(_) => false,
    }
}

fn grants(alloc: Global, row: &IssuedRow) -> bool {
    match &*ManuallyDrop::new(blob_of(alloc, row.line)) {
        Some(blob) => has_grants(blob, row),
        None => false,
    }
}

/// The line is the certificate's.
pub fn is_line_of(alloc: Global, cert: &SshCertificate, line: &str) -> bool {
    match &*ManuallyDrop::new(cert.to_string(alloc)) {
        Ok(text) => text.as_str() == line,
        Err(_) => false,
    }
}

/// The line is read, and written again.
fn is_read_back(alloc: Global, line: &str) -> bool {
    match &*ManuallyDrop::new(SshCertificate::from_str(alloc, line)) {
        Ok(cert) => is_line_of(alloc, cert, line),
        Err(_) => false,
    }
}

fn is_issued(alloc: Global, row: &IssuedRow) -> Result<bool, Fail> {
    let asked = Asked {
        words: row.words,
        more: row.more,
        source: SOURCE,
        fresh: FRESH,
    };
    Ok(
        issues(alloc, &asked, SIGNATURE, row.line)?
            && grants(alloc, row)
            && is_read_back(alloc, row.line),
    )
}

#[test]
fn issues_what_is_asked(rt: HostRuntime) -> Result<(), Fail> {
    for row in &ROWS {
        assert!(rt; is_issued(rt.alloc(), row)?, "{}", row.name);
    }
    Ok(())
}

#[test]
fn keeps_a_long_command(rt: HostRuntime) -> Result<(), Fail> {
    let row = long_command();
    assert!(rt; is_issued(rt.alloc(), row)?, "{}", row.name);
    Ok(())
}

/// The first so many fresh bytes are the nonce, and the others are let be.
fn takes_32_fresh_bytes(alloc: Global) -> Result<bool, Fail> {
    let asked = Asked {
        fresh: &[0; 40],
        ..ZERO_HOST
    };
    issues(alloc, &asked, SIGNATURE, HOST_LINE)
}

/// `tbs` asks no device, and the certificate's line means its subject's key.
fn is_taken_apart(alloc: Global) -> Result<bool, Fail> {
    let line = Asked {
        words: &[],
        more: &[],
        source: HOST_LINE,
        fresh: &[],
    };
    let public = End {
        code: 0,
        out: SUBJECT_LINE,
        err: "",
    };
    Ok(shows(alloc, &ZERO_HOST, HOST_SIGNED)? && ends_unsigned(alloc, "ssh-pub", &line, &public)?)
}

#[test]
fn shows_what_is_signed_and_for_whom(rt: HostRuntime) -> Result<(), Fail> {
    assert!(rt; takes_32_fresh_bytes(rt.alloc())?);
    assert!(rt; is_taken_apart(rt.alloc())?);
    Ok(())
}
