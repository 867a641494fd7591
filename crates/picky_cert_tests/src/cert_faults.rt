//! Of two faults in a certificate the one that is tried first, and why a line is refused whatever its bytes.

use crate::answers::ends_in;
use crate::conversion::converted;
use crate::refusal::{is_fault, is_refused, is_unread};
use picky_cert::CertPart;
use picky_cert_rows::CertFault;
use picky_conversion::Target;
use picky_key_text::ReadError;
use picky_keys::SshPublicKeyError;
use picky_target::ConvertError;
use std::alloc::Global;
use std::test::Fail;

// Two faults of neighbouring parts. The bytes are told as those of the single faults, and end with the part that `end` names.
static TWO_FAULTS: [CertFault; 16] = [
    // c(name=s(b"x"), nonce=u(32), end="nonce")
    CertFault {
        name: "an unknown name, and a nonce that is cut",
        body: "AAAAAXgAAAAg",
        part: CertPart::Name,
        why: "InvalidCertificateKeyType(Text { string: \"x\" })",
    },
    // c(nonce=b"\xff" * 4, key=s(bytes(31)))
    CertFault {
        name: "a nonce's length that lies, and a key of 31 bytes",
        body: "AAAAIHNzaC1lZDI1NTE5LWNlcnQtdjAxQG9wZW5zc2guY29t/////wAAAB8AAAAAAAAAAAAAAAAAAAAAAAAAAAAAAAAAAAAAAAAAAAAAAAAAAAAAAAACAAAAAAAAAAAAAAAAAAAAAAAAAAAAAAAAAAAAAAAAAAAAAAAAAAAAMwAAAAtzc2gtZWQyNTUxOQAAACAAAAAAAAAAAAAAAAAAAAAAAAAAAAAAAAAAAAAAAAAAAAAAAFMAAAALc3NoLWVkMjU1MTkAAABAAAAAAAAAAAAAAAAAAAAAAAAAAAAAAAAAAAAAAAAAAAAAAAAAAAAAAAAAAAAAAAAAAAAAAAAAAAAAAAAAAAAAAA==",
        part: CertPart::Nonce,
        why: "CertificateProcessingError(UnexpectedEnd)",
    },
    // c(key=s(bytes(31)), serial=bytes(7), end="serial")
    CertFault {
        name: "a key of 31 bytes, and a serial that is cut",
        body: "AAAAIHNzaC1lZDI1NTE5LWNlcnQtdjAxQG9wZW5zc2guY29tAAAAIAAAAAAAAAAAAAAAAAAAAAAAAAAAAAAAAAAAAAAAAAAAAAAAHwAAAAAAAAAAAAAAAAAAAAAAAAAAAAAAAAAAAAAAAAAAAAAAAAAA",
        part: CertPart::Subject,
        why: "KeyError",
    },
    // c(serial=bytes(7), end="serial")
    CertFault {
        name: "a serial that is cut, and no number",
        body: "AAAAIHNzaC1lZDI1NTE5LWNlcnQtdjAxQG9wZW5zc2guY29tAAAAIAAAAAAAAAAAAAAAAAAAAAAAAAAAAAAAAAAAAAAAAAAAAAAAIAAAAAAAAAAAAAAAAAAAAAAAAAAAAAAAAAAAAAAAAAAAAAAAAAAAAA==",
        part: CertPart::Serial,
        why: "CertificateProcessingError(UnexpectedEnd)",
    },
    // c(number=u(3), key_id=s(b"\xff"))
    CertFault {
        name: "the number 3, and a key id that isn't UTF-8",
        body: "AAAAIHNzaC1lZDI1NTE5LWNlcnQtdjAxQG9wZW5zc2guY29tAAAAIAAAAAAAAAAAAAAAAAAAAAAAAAAAAAAAAAAAAAAAAAAAAAAAIAAAAAAAAAAAAAAAAAAAAAAAAAAAAAAAAAAAAAAAAAAAAAAAAAAAAAAAAAADAAAAAf8AAAAAAAAAAAAAAAAAAAAAAAAAAAAAAAAAAAAAAAAAAAAAADMAAAALc3NoLWVkMjU1MTkAAAAgAAAAAAAAAAAAAAAAAAAAAAAAAAAAAAAAAAAAAAAAAAAAAABTAAAAC3NzaC1lZDI1NTE5AAAAQAAAAAAAAAAAAAAAAAAAAAAAAAAAAAAAAAAAAAAAAAAAAAAAAAAAAAAAAAAAAAAAAAAAAAAAAAAAAAAAAAAAAAA=",
        part: CertPart::CertType,
        why: "InvalidCertificateType(InvalidCertificateType(3))",
    },
    // c(key_id=s(b"\xff"), principals=s(u(1)))
    CertFault {
        name: "a key id that isn't UTF-8, and a principal that is cut",
        body: "AAAAIHNzaC1lZDI1NTE5LWNlcnQtdjAxQG9wZW5zc2guY29tAAAAIAAAAAAAAAAAAAAAAAAAAAAAAAAAAAAAAAAAAAAAAAAAAAAAIAAAAAAAAAAAAAAAAAAAAAAAAAAAAAAAAAAAAAAAAAAAAAAAAAAAAAAAAAACAAAAAf8AAAAEAAAAAQAAAAAAAAAAAAAAAAAAAAAAAAAAAAAAAAAAAAAAAAAzAAAAC3NzaC1lZDI1NTE5AAAAIAAAAAAAAAAAAAAAAAAAAAAAAAAAAAAAAAAAAAAAAAAAAAAAUwAAAAtzc2gtZWQyNTUxOQAAAEAAAAAAAAAAAAAAAAAAAAAAAAAAAAAAAAAAAAAAAAAAAAAAAAAAAAAAAAAAAAAAAAAAAAAAAAAAAAAAAAAAAAAA",
        part: CertPart::KeyId,
        why: "InvalidUtf8",
    },
    // c(principals=s(s(b"\xff")), after=bytes(7), end="after")
    CertFault {
        name: "a principal that isn't UTF-8, and a moment that is cut",
        body: "AAAAIHNzaC1lZDI1NTE5LWNlcnQtdjAxQG9wZW5zc2guY29tAAAAIAAAAAAAAAAAAAAAAAAAAAAAAAAAAAAAAAAAAAAAAAAAAAAAIAAAAAAAAAAAAAAAAAAAAAAAAAAAAAAAAAAAAAAAAAAAAAAAAAAAAAAAAAACAAAAAAAAAAUAAAAB/wAAAAAAAAA=",
        part: CertPart::Principals,
        why: "InvalidUtf8",
    },
    // c(after=bytes(7), end="after")
    CertFault {
        name: "a first moment that is cut, and no second one",
        body: "AAAAIHNzaC1lZDI1NTE5LWNlcnQtdjAxQG9wZW5zc2guY29tAAAAIAAAAAAAAAAAAAAAAAAAAAAAAAAAAAAAAAAAAAAAAAAAAAAAIAAAAAAAAAAAAAAAAAAAAAAAAAAAAAAAAAAAAAAAAAAAAAAAAAAAAAAAAAACAAAAAAAAAAAAAAAAAAAA",
        part: CertPart::After,
        why: "CertificateProcessingError(UnexpectedEnd)",
    },
    // c(before=bytes(7), end="before")
    CertFault {
        name: "a second moment that is cut, and no options",
        body: "AAAAIHNzaC1lZDI1NTE5LWNlcnQtdjAxQG9wZW5zc2guY29tAAAAIAAAAAAAAAAAAAAAAAAAAAAAAAAAAAAAAAAAAAAAAAAAAAAAIAAAAAAAAAAAAAAAAAAAAAAAAAAAAAAAAAAAAAAAAAAAAAAAAAAAAAAAAAACAAAAAAAAAAAAAAAAAAAAAAAAAAAAAAA=",
        part: CertPart::Before,
        why: "CertificateProcessingError(UnexpectedEnd)",
    },
    // c(options=s(s(b"x@y") + s(b"")), extensions=s(u(1)))
    CertFault {
        name: "an unknown option, and an extension that is cut",
        body: "AAAAIHNzaC1lZDI1NTE5LWNlcnQtdjAxQG9wZW5zc2guY29tAAAAIAAAAAAAAAAAAAAAAAAAAAAAAAAAAAAAAAAAAAAAAAAAAAAAIAAAAAAAAAAAAAAAAAAAAAAAAAAAAAAAAAAAAAAAAAAAAAAAAAAAAAAAAAACAAAAAAAAAAAAAAAAAAAAAAAAAAAAAAAAAAAACwAAAAN4QHkAAAAAAAAABAAAAAEAAAAAAAAAMwAAAAtzc2gtZWQyNTUxOQAAACAAAAAAAAAAAAAAAAAAAAAAAAAAAAAAAAAAAAAAAAAAAAAAAFMAAAALc3NoLWVkMjU1MTkAAABAAAAAAAAAAAAAAAAAAAAAAAAAAAAAAAAAAAAAAAAAAAAAAAAAAAAAAAAAAAAAAAAAAAAAAAAAAAAAAAAAAAAAAA==",
        part: CertPart::Options,
        why: "SshCriticalOptionError(UnsupportedCriticalOptionType(Text { string: \"x@y\" }))",
    },
    // c(extensions=s(u(1)), reserved=u(1), end="reserved")
    CertFault {
        name: "an extension that is cut, and a reserved string that is cut",
        body: "AAAAIHNzaC1lZDI1NTE5LWNlcnQtdjAxQG9wZW5zc2guY29tAAAAIAAAAAAAAAAAAAAAAAAAAAAAAAAAAAAAAAAAAAAAAAAAAAAAIAAAAAAAAAAAAAAAAAAAAAAAAAAAAAAAAAAAAAAAAAAAAAAAAAAAAAAAAAACAAAAAAAAAAAAAAAAAAAAAAAAAAAAAAAAAAAAAAAAAAQAAAABAAAAAQ==",
        part: CertPart::Extensions,
        why: "SshExtensionError(IoError(UnexpectedEnd))",
    },
    // c(reserved=b"\xff" * 4, issuer=s(s(b"x")))
    CertFault {
        name: "a reserved string's length that lies, and an unknown issuer",
        body: "AAAAIHNzaC1lZDI1NTE5LWNlcnQtdjAxQG9wZW5zc2guY29tAAAAIAAAAAAAAAAAAAAAAAAAAAAAAAAAAAAAAAAAAAAAAAAAAAAAIAAAAAAAAAAAAAAAAAAAAAAAAAAAAAAAAAAAAAAAAAAAAAAAAAAAAAAAAAACAAAAAAAAAAAAAAAAAAAAAAAAAAAAAAAAAAAAAAAAAAD/////AAAABQAAAAF4AAAAUwAAAAtzc2gtZWQyNTUxOQAAAEAAAAAAAAAAAAAAAAAAAAAAAAAAAAAAAAAAAAAAAAAAAAAAAAAAAAAAAAAAAAAAAAAAAAAAAAAAAAAAAAAAAAAA",
        part: CertPart::Reserved,
        why: "CertificateProcessingError(UnexpectedEnd)",
    },
    // c(issuer=b"\xff" * 4 + s(b"x"), end="issuer")
    CertFault {
        name: "the length of an issuer's string that lies, and an unknown name in it",
        body: "AAAAIHNzaC1lZDI1NTE5LWNlcnQtdjAxQG9wZW5zc2guY29tAAAAIAAAAAAAAAAAAAAAAAAAAAAAAAAAAAAAAAAAAAAAAAAAAAAAIAAAAAAAAAAAAAAAAAAAAAAAAAAAAAAAAAAAAAAAAAAAAAAAAAAAAAAAAAACAAAAAAAAAAAAAAAAAAAAAAAAAAAAAAAAAAAAAAAAAAAAAAAA/////wAAAAF4",
        part: CertPart::IssuerString,
        why: "CertificateProcessingError(UnexpectedEnd)",
    },
    // c(issuer=s(s(b"x")), signature=s(s(b"y")))
    CertFault {
        name: "an unknown issuer, and an unknown format",
        body: "AAAAIHNzaC1lZDI1NTE5LWNlcnQtdjAxQG9wZW5zc2guY29tAAAAIAAAAAAAAAAAAAAAAAAAAAAAAAAAAAAAAAAAAAAAAAAAAAAAIAAAAAAAAAAAAAAAAAAAAAAAAAAAAAAAAAAAAAAAAAAAAAAAAAAAAAAAAAACAAAAAAAAAAAAAAAAAAAAAAAAAAAAAAAAAAAAAAAAAAAAAAAAAAAABQAAAAF4AAAABQAAAAF5",
        part: CertPart::Issuer,
        why: "InvalidPublicKey(UnknownKeyType)",
    },
    // c(issuer=s(s(b"ssh-ed25519") + u(32)), end="issuer")
    CertFault {
        name: "an issuer's key that is cut, and no signature",
        body: "AAAAIHNzaC1lZDI1NTE5LWNlcnQtdjAxQG9wZW5zc2guY29tAAAAIAAAAAAAAAAAAAAAAAAAAAAAAAAAAAAAAAAAAAAAAAAAAAAAIAAAAAAAAAAAAAAAAAAAAAAAAAAAAAAAAAAAAAAAAAAAAAAAAAAAAAAAAAACAAAAAAAAAAAAAAAAAAAAAAAAAAAAAAAAAAAAAAAAAAAAAAAAAAAAEwAAAAtzc2gtZWQyNTUxOQAAACA=",
        part: CertPart::Issuer,
        why: "InvalidPublicKey(IoError(UnexpectedEnd))",
    },
    // c(signature=s(s(b"x")))
    CertFault {
        name: "an unknown format, and no bytes of a signature",
        body: "AAAAIHNzaC1lZDI1NTE5LWNlcnQtdjAxQG9wZW5zc2guY29tAAAAIAAAAAAAAAAAAAAAAAAAAAAAAAAAAAAAAAAAAAAAAAAAAAAAIAAAAAAAAAAAAAAAAAAAAAAAAAAAAAAAAAAAAAAAAAAAAAAAAAAAAAAAAAACAAAAAAAAAAAAAAAAAAAAAAAAAAAAAAAAAAAAAAAAAAAAAAAAAAAAMwAAAAtzc2gtZWQyNTUxOQAAACAAAAAAAAAAAAAAAAAAAAAAAAAAAAAAAAAAAAAAAAAAAAAAAAUAAAABeA==",
        part: CertPart::Signature,
        why: "SshSignatureError(UnsupportedSignatureFormat(Text { string: \"x\" }))",
    },
];

#[test]
fn refuses_the_first_of_two_faults(rt: HostRuntime) -> Result<(), Fail> {
    for row in &TWO_FAULTS {
        assert!(rt; is_fault(rt.alloc(), row)?, "{}", row.name);
    }
    Ok(())
}

// The name, a line, and why it is refused. base64 is RFC 4648's, section 4.
static LINES: [(&str, &str, &str); 11] = [
    (
        "a type alone",
        "ssh-ed25519-cert-v01@openssh.com",
        "CertificateProcessingError(UnexpectedEnd)",
    ),
    (
        "a type whose line ends",
        "ssh-ed25519-cert-v01@openssh.com\nAAAA",
        "CertificateProcessingError(UnexpectedEnd)",
    ),
    (
        "two spaces",
        "ssh-ed25519-cert-v01@openssh.com  AAAA",
        "CertificateProcessingError(UnexpectedEnd)",
    ),
    (
        "no base64",
        "ssh-ed25519-cert-v01@openssh.com ? host",
        "Base64DecodeError",
    ),
    (
        "no padding",
        "ssh-ed25519-cert-v01@openssh.com AAA host",
        "Base64DecodeError",
    ),
    (
        "bits that aren't canonical",
        "ssh-ed25519-cert-v01@openssh.com Zh== host",
        "Base64DecodeError",
    ),
    (
        "the type of DSS, and no base64",
        "ssh-dss-cert-v01@openssh.com ?",
        "Base64DecodeError",
    ),
    // base64 of s(b"ssh-dss-cert-v01@openssh.com")
    (
        "a certificate of DSS",
        "ssh-dss-cert-v01@openssh.com AAAAHHNzaC1kc3MtY2VydC12MDFAb3BlbnNzaC5jb20=",
        "UnsupportedCertificateType(Text { string: \"ssh-dss-cert-v01@openssh.com\" })",
    ),
    // ZERO_LINE with AAAC for the first four symbols of its base64
    (
        "a name of 544 bytes",
        "ssh-ed25519-cert-v01@openssh.com AAACIHNzaC1lZDI1NTE5LWNlcnQtdjAxQG9wZW5zc2guY29tAAAAIAAAAAAAAAAAAAAAAAAAAAAAAAAAAAAAAAAAAAAAAAAAAAAAIAAAAAAAAAAAAAAAAAAAAAAAAAAAAAAAAAAAAAAAAAAAAAAAAAAAAAAAAAACAAAAAAAAAAAAAAAAAAAAAAAAAAAAAAAAAAAAAAAAAAAAAAAAAAAAMwAAAAtzc2gtZWQyNTUxOQAAACAAAAAAAAAAAAAAAAAAAAAAAAAAAAAAAAAAAAAAAAAAAAAAAFMAAAALc3NoLWVkMjU1MTkAAABAAAAAAAAAAAAAAAAAAAAAAAAAAAAAAAAAAAAAAAAAAAAAAAAAAAAAAAAAAAAAAAAAAAAAAAAAAAAAAAAAAAAAAA== host",
        "CertificateProcessingError(UnexpectedEnd)",
    ),
    // ZERO_LINE with AAAC for the four symbols AAAA in front of MwAAAAtzc2gt
    (
        "an issuer's string of 563 bytes",
        "ssh-ed25519-cert-v01@openssh.com AAAAIHNzaC1lZDI1NTE5LWNlcnQtdjAxQG9wZW5zc2guY29tAAAAIAAAAAAAAAAAAAAAAAAAAAAAAAAAAAAAAAAAAAAAAAAAAAAAIAAAAAAAAAAAAAAAAAAAAAAAAAAAAAAAAAAAAAAAAAAAAAAAAAAAAAAAAAACAAAAAAAAAAAAAAAAAAAAAAAAAAAAAAAAAAAAAAAAAAAAAAAAAAACMwAAAAtzc2gtZWQyNTUxOQAAACAAAAAAAAAAAAAAAAAAAAAAAAAAAAAAAAAAAAAAAAAAAAAAAFMAAAALc3NoLWVkMjU1MTkAAABAAAAAAAAAAAAAAAAAAAAAAAAAAAAAAAAAAAAAAAAAAAAAAAAAAAAAAAAAAAAAAAAAAAAAAAAAAAAAAAAAAAAAAA== host",
        "CertificateProcessingError(UnexpectedEnd)",
    ),
    // ssh-keygen -s ca_ed -I user -O clear -O critical:x@y=1 ed.pub
    (
        "an unknown option of ssh-keygen",
        "ssh-ed25519-cert-v01@openssh.com AAAAIHNzaC1lZDI1NTE5LWNlcnQtdjAxQG9wZW5zc2guY29tAAAAIGD6VPQIzwZ95wxgYSMHjWrF4OGJRNahlXCNHqXWrwsOAAAAIDSUV/VQz9IVH3nfMvNGTEs4nxb96VWfmHkRaF2f5HlRAAAAAAAAAAAAAAABAAAABHVzZXIAAAAAAAAAAAAAAAD//////////wAAABAAAAADeEB5AAAABQAAAAExAAAAAAAAAAAAAAAzAAAAC3NzaC1lZDI1NTE5AAAAIBL4LR5IUU1HTCkCgFlhQDJJ6YwIJdFegG2QUBcvz22xAAAAUwAAAAtzc2gtZWQyNTUxOQAAAEBetAwnE0q1lXez3YLng2PnI0xikrHGQLiKYRJGKAuCX7T6kX27J654Q3NoD6xUuAeS4PC3YktIp5V7jCa/zdYN ed25519@example.org",
        "SshCriticalOptionError(UnsupportedCriticalOptionType(Text { string: \"x@y\" }))",
    ),
];

#[test]
fn refuses_lines_of_certificates(rt: HostRuntime) -> Result<(), Fail> {
    for (name, line, why) in &LINES {
        assert!(rt; is_refused(rt.alloc(), line, why)?, "{name}");
        assert!(rt; is_unread(rt.alloc(), line, why)?, "{name}");
    }
    Ok(())
}

// A line whose first word is no type of certificates, and why the call refuses it. To the conversion it is a public key's.
static FIRST_WORDS: [(&str, &str); 4] = [
    ("", "InvalidCertificateKeyType(Text { string: \"\" })"),
    (
        "ssh-ed25519-cert-v02@openssh.com ?",
        "InvalidCertificateKeyType(Text { string: \"ssh-ed25519-cert-v02@openssh.com\" })",
    ),
    (
        "ssh-ed25519-cert-v01@openssh.com\tAAAA",
        "InvalidCertificateKeyType(Text { string: \"ssh-ed25519-cert-v01@openssh.com\\tAAAA\" })",
    ),
    (
        "ssh-rsa AAAAIHNzaC1lZDI1NTE5LWNlcnQtdjAxQG9wZW5zc2guY29tAAAAIAAAAAAAAAAAAAAAAAAAAAAAAAAAAAAAAAAAAAAAAAAAAAAAIAAAAAAAAAAAAAAAAAAAAAAAAAAAAAAAAAAAAAAAAAAAAAAAAAAAAAAAAAACAAAAAAAAAAAAAAAAAAAAAAAAAAAAAAAAAAAAAAAAAAAAAAAAAAAAMwAAAAtzc2gtZWQyNTUxOQAAACAAAAAAAAAAAAAAAAAAAAAAAAAAAAAAAAAAAAAAAAAAAAAAAFMAAAALc3NoLWVkMjU1MTkAAABAAAAAAAAAAAAAAAAAAAAAAAAAAAAAAAAAAAAAAAAAAAAAAAAAAAAAAAAAAAAAAAAAAAAAAAAAAAAAAAAAAAAAAA== host",
        "InvalidCertificateKeyType(Text { string: \"ssh-rsa\" })",
    ),
];

/// The conversion refuses the line as a public key's, for its type.
fn is_of_no_type(alloc: Global, line: &str) -> bool {
    let why = ConvertError::Input(ReadError::Public(SshPublicKeyError::UnknownKeyType));
    ends_in(Some(why), converted(alloc, line, Target::OpenSshPublic))
}

#[test]
fn refuses_the_first_word_of_another_line(rt: HostRuntime) -> Result<(), Fail> {
    for (line, why) in &FIRST_WORDS {
        assert!(rt; is_refused(rt.alloc(), line, why)?, "{line}");
        assert!(rt; is_of_no_type(rt.alloc(), line), "{line}");
    }
    Ok(())
}
