//! The line of each status, and what devices that fail make of a run; check/keyconv_cases.py has how others end.

use crate::runs::{End, ends, ends_alike};
use picky_cert_builder::SshCertificateGenerationError;
use picky_cert_parts::SshCertificateError;
use picky_convert::{ConvertError, ReadError, Status, word};
use picky_keys::SshPublicKeyError;
use picky_ppk::PuttyError;
use picky_wire::MemorySource;
use std::alloc::Global;
use std::mem::ManuallyDrop;
use std::test::Fail;

// A line whose key is 32 zero bytes.
const FIRST_LINE: &str =
    "ssh-ed25519 AAAAC3NzaC1lZDI1NTE5AAAAIAAAAAAAAAAAAAAAAAAAAAAAAAAAAAAAAAAAAAAAAAAA k\n";

// Each command, and what it writes for the line.
// puttygen -L FIRST_LINE.pub | sed 's/$/\r/'; puttygen -p FIRST_LINE.pub | sed 's/$/\r/';
// for h in md5 sha1 sha256; do ssh-keygen -l -E $h -f FIRST_LINE.pub; done | cut -d' ' -f2, MD5's
// digest without its colons.
static FIRST_TEXTS: [(&str, &str); 3] = [
    (
        "ssh-pub",
        "ssh-ed25519 AAAAC3NzaC1lZDI1NTE5AAAAIAAAAAAAAAAAAAAAAAAAAAAAAAAAAAAAAAAAAAAAAAAA k\r\n",
    ),
    (
        "putty-pub",
        "---- BEGIN SSH2 PUBLIC KEY ----\r
Comment: \"k\"\r
AAAAC3NzaC1lZDI1NTE5AAAAIAAAAAAAAAAAAAAAAAAAAAAAAAAAAAAAAAAAAAAA\r
AAAA\r
---- END SSH2 PUBLIC KEY ----\r
",
    ),
    (
        "fingerprint",
        "MD5:3d5238ceff94f5d781a4a4f92b4ffea0
SHA1:tBSuaYQghm80Yfylv/VK07xH9c0
SHA256:kmYcvdi2GkPeWxB6XLjrZB8JHsy2Hm8luHMFp9GMvqk
",
    ),
];

// A status, its exit code and its line (docs/FORMATS.md, "The line on standard error").
const REPORTS: [(Status, u8, &str); 17] = [
    (
        Status::Usage,
        2,
        "keyconv: usage: keyconv openssh|ppk2|ppk3|ssh-pub|putty-pub|cert|tbs|fingerprint|sample\n",
    ),
    (Status::ReadFault, 3, "keyconv: read fault\n"),
    (Status::WriteFault, 4, "keyconv: write fault\n"),
    (Status::OutsideFault, 5, "keyconv: outside fault\n"),
    (Status::NoMemory, 6, "keyconv: out of memory\n"),
    (
        Status::Refused(ConvertError::FreshTooShort),
        1,
        "keyconv: refused: FreshTooShort\n",
    ),
    (Status::InputTooLong, 7, "keyconv: input too long\n"),
    (Status::InputNotUtf8, 8, "keyconv: input not UTF-8\n"),
    (
        Status::Refused(ConvertError::TooLong),
        1,
        "keyconv: refused: TooLong\n",
    ),
    (
        Status::Refused(ConvertError::CommentNotCarried),
        1,
        "keyconv: refused: CommentNotCarried\n",
    ),
    (
        Status::Refused(ConvertError::Input(ReadError::Public(SshPublicKeyError::TooLong))),
        1,
        "keyconv: refused: input.public.TooLong\n",
    ),
    (
        Status::Refused(ConvertError::Input(ReadError::Certificate(SshCertificateError::TooLong))),
        1,
        "keyconv: refused: input.cert.TooLong\n",
    ),
    (
        Status::Refused(ConvertError::Input(ReadError::Certificate(
            SshCertificateError::SubjectMismatch,
        ))),
        1,
        "keyconv: refused: input.cert.SubjectMismatch\n",
    ),
    (
        Status::Refused(ConvertError::Putty(PuttyError::TooManyLines)),
        1,
        "keyconv: refused: output.putty.TooManyLines\n",
    ),
    (
        Status::Refused(ConvertError::Issuer(ReadError::Public(SshPublicKeyError::TooLong))),
        1,
        "keyconv: refused: issuer.public.TooLong\n",
    ),
    (
        Status::Refused(ConvertError::Issuer(ReadError::Certificate(SshCertificateError::TooLong))),
        1,
        "keyconv: refused: issuer.cert.TooLong\n",
    ),
    (
        Status::Refused(ConvertError::Request(SshCertificateGenerationError::InvalidTime)),
        1,
        "keyconv: refused: request.InvalidTime\n",
    ),
];

/// The line is `keyconv: `, the status's path and name, and LF.
fn says(status: &Status, line: &str) -> bool {
    let word = word(status);
    match line.strip_prefix("keyconv: ") {
        Some(rest) => match rest.strip_prefix(word.path) {
            Some(name) => name.strip_suffix("\n") == Some(word.name),
            None => false,
        },
        None => false,
    }
}

#[test]
fn prints_a_line_for_each_status(rt: HostRuntime) {
    let reports = ManuallyDrop::new(REPORTS);
    for (status, code, line) in &*reports {
        assert!(rt; says(status, line) && status.exit_code() == *code, "{line}");
    }
}

fn ends_at(alloc: Global, command: &str, call: u64, end: End<'_>) -> Result<bool, Fail> {
    let line = FIRST_LINE.as_bytes();
    let unsaid = End { err: "", ..end };
    let mut source = ManuallyDrop::new(MemorySource::new(alloc, line, 7, &[call])?);
    let mut again = ManuallyDrop::new(MemorySource::new(alloc, line, 7, &[call])?);
    Ok(
        ends(alloc, command, &mut *source, (400, 400), end)?
            && ends(alloc, command, &mut *again, (400, 0), unsaid)?,
    )
}

#[test]
fn says_that_the_source_failed(rt: HostRuntime) -> Result<(), Fail> {
    for (command, text) in &FIRST_TEXTS {
        // 83 bytes are 12 calls, and one more says that they end.
        for call in 0..15 {
            let end = if call < 13 {
                End {
                    code: 3,
                    out: b"",
                    err: "keyconv: read fault\n",
                }
            } else {
                End {
                    code: 0,
                    out: text.as_bytes(),
                    err: "",
                }
            };
            assert!(rt;
                ends_at(rt.alloc(), *command, call, end)?,
                "{command}: call {call}"
            );
        }
    }
    Ok(())
}

#[test]
fn says_that_out_failed(rt: HostRuntime) -> Result<(), Fail> {
    for (command, text) in &FIRST_TEXTS {
        let text = text.as_bytes();
        for room in 0..text.len() {
            let end = End {
                code: 4,
                out: &text[..room],
                err: "keyconv: write fault\n",
            };
            assert!(rt;
                ends_alike(rt.alloc(), *command, FIRST_LINE.as_bytes(), room, end)?,
                "{command}: room {room}"
            );
        }
    }
    Ok(())
}
