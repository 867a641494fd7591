//! Critical options: what they demand, and which don't fit.

use crate::decisions::is_decided;
use crate::terms::{Demand, Terms, offer_with};
use picky_cert::{SshCertType, SshCriticalOptionType};
use std::alloc::Global;
use std::test::Fail;

const COMMAND: SshCriticalOptionType = SshCriticalOptionType::ForceCommand;

const ADDRESS: SshCriticalOptionType = SshCriticalOptionType::SourceAddress;

const VERIFY: SshCriticalOptionType = SshCriticalOptionType::VerifyRequired;

/// Of a certificate with these options this is decided.
fn decides(alloc: Global, demands: &[Demand<'_>], wanted: &str) -> Result<bool, Fail> {
    let terms = Terms {
        cert_type: SshCertType::Client,
        valid: (0, u64::MAX),
        principals: &[],
        demands,
    };
    let offer = offer_with(alloc, &terms)?;
    is_decided(alloc, "cert-authority <ca>", &offer, ("me", 5), wanted)
}

// Options, and what is granted. OpenSSH's PROTOCOL.certkeys, "Critical options": the payload of the first two is a string, and
// that of the third is empty. RFC 4251, section 5, has strings.
static GRANTED: [(&[Demand<'static>], &str); 12] = [
    (&[], "grant 1"),
    (&[(COMMAND, b"\0\0\0\x02ls")], "grant 1 command=ls"),
    (&[(COMMAND, b"\0\0\0\0")], "grant 1 command="),
    (
        &[(COMMAND, b"\0\0\0\x04a\n\0\"")],
        "grant 1 command=a\n\0\"",
    ),
    (
        &[(COMMAND, b"\0\0\0\x02\xc3\xa9")],
        "grant 1 command=\u{e9}",
    ),
    (
        &[(ADDRESS, b"\0\0\0\x0810.1.0.9")],
        "grant 1 source=10.1.0.9",
    ),
    // Whether it is an address isn't judged.
    (&[(ADDRESS, b"\0\0\0\x01?")], "grant 1 source=?"),
    (&[(ADDRESS, b"\0\0\0\0")], "grant 1 source="),
    (&[(VERIFY, b"")], "grant 1 verify"),
    (
        &[
            (COMMAND, b"\0\0\0\x01a"),
            (ADDRESS, b"\0\0\0\x01b"),
            (VERIFY, b""),
        ],
        "grant 1 command=a source=b verify",
    ),
    (
        &[
            (VERIFY, b""),
            (ADDRESS, b"\0\0\0\x01b"),
            (COMMAND, b"\0\0\0\x01a"),
        ],
        "grant 1 command=a source=b verify",
    ),
    (
        &[(ADDRESS, b"\0\0\0\x01b"), (VERIFY, b"")],
        "grant 1 source=b verify",
    ),
];

#[test]
fn grants_what_the_options_demand(rt: HostRuntime) -> Result<(), Fail> {
    for (demands, wanted) in &GRANTED {
        assert!(rt; decides(rt.alloc(), demands, wanted)?, "{demands:?}");
    }
    Ok(())
}
