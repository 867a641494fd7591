//! Why no certificate is issued: by both commands alike, and before a device is asked.

use crate::runs::{Asked, End, ends, is_usage};
use crate::zero_lines::{FRESH, HOST, SIGNATURE, SOURCE, TIMES, TYPE};
use std::alloc::Global;
use std::test::Fail;

/// What is asked, with so many fresh bytes, and the line on `err`.
struct RefusedRow {
    words: &'static [&'static str],
    more: &'static [&'static str],
    fresh_len: usize,
    err: &'static str,
}

// docs/FORMATS.md, "Requests for certificates": what a request has to say, in the order of refusals.
static REFUSED: [RefusedRow; 14] = [
    RefusedRow {
        words: HOST,
        more: &[],
        fresh_len: 31,
        err: "keyconv: refused: FreshTooShort\n",
    },
    RefusedRow {
        words: &[],
        more: &[],
        fresh_len: 0,
        err: "keyconv: refused: request.NoKeyType\n",
    },
    RefusedRow {
        words: &["--type", "ssh-dss-cert-v01@openssh.com"],
        more: &[],
        fresh_len: 0,
        err: "keyconv: refused: request.UnsupportedCertificateKeyType\n",
    },
    RefusedRow {
        words: &["--type", "ecdsa-sha2-nistp521-cert-v01@openssh.com"],
        more: &["--kind", "host"],
        fresh_len: 32,
        err: "keyconv: refused: request.UnsupportedCertificateKeyType\n",
    },
    RefusedRow {
        words: &["--type", "ssh-rsa-cert-v01@openssh.com"],
        more: &["--kind", "host"],
        fresh_len: 32,
        err: "keyconv: refused: request.UnsupportedCertificateKeyType\n",
    },
    RefusedRow {
        words: TIMES,
        more: &[],
        fresh_len: 32,
        err: "keyconv: refused: request.MissingCertificateType\n",
    },
    RefusedRow {
        words: TYPE,
        more: &["--kind", "host", "--after", "1200", "--before", "0"],
        fresh_len: 32,
        err: "keyconv: refused: request.InvalidTime\n",
    },
    RefusedRow {
        words: TYPE,
        more: &["--kind", "client", "--after", "0"],
        fresh_len: 32,
        err: "keyconv: refused: request.InvalidTime\n",
    },
    RefusedRow {
        words: HOST,
        more: &["--extension", "no-touch-required"],
        fresh_len: 32,
        err: "keyconv: refused: request.HostCertificateExtensions\n",
    },
    RefusedRow {
        words: HOST,
        more: &["--critical", "verify-required"],
        fresh_len: 31,
        err: "keyconv: refused: request.HostCertificateCriticalOptions\n",
    },
    RefusedRow {
        words: HOST,
        more: &["--critical", "verify-required", "--extension", "x"],
        fresh_len: 0,
        err: "keyconv: refused: request.HostCertificateExtensions\n",
    },
    RefusedRow {
        words: HOST,
        more: &["--algorithm", "rsa-sha2-512"],
        fresh_len: 0,
        err: "keyconv: refused: request.IncorrectSignatureAlgorithm\n",
    },
    RefusedRow {
        words: HOST,
        more: &["--algorithm", "ecdsa-sha2-256"],
        fresh_len: 32,
        err: "keyconv: refused: request.IncorrectSignatureAlgorithm\n",
    },
    RefusedRow {
        words: TIMES,
        more: &["--kind", "client"],
        fresh_len: 31,
        err: "keyconv: refused: FreshTooShort\n",
    },
];

fn is_refused(alloc: Global, command: &str, row: &RefusedRow) -> Result<bool, Fail> {
    let (fresh, _) = FRESH.split_at(row.fresh_len.min(FRESH.len()));
    let asked = Asked {
        words: row.words,
        more: row.more,
        source: SOURCE,
        fresh,
    };
    let end = End {
        code: 1,
        out: "",
        err: row.err,
    };
    ends(alloc, command, &asked, SIGNATURE, &end)
}

#[test]
fn refuses_requests_in_order(rt: HostRuntime) -> Result<(), Fail> {
    for row in &REFUSED {
        for command in ["cert", "tbs"] {
            assert!(rt;
                is_refused(rt.alloc(), command, row)?,
                "{command}, {:?}: {}",
                row.more,
                row.err
            );
        }
    }
    Ok(())
}

// Words after those of a host: options and values that are none (docs/FORMATS.md, "Commands").
static NO_OPTIONS: [&[&str]; 20] = [
    &["--serial"],
    &["--serials", "1"],
    &["serial", "1"],
    &["", ""],
    &["--serial", "1", "--serial", "1"],
    &["--serial", "01"],
    &["--serial", "00"],
    &["--serial", ""],
    &["--serial", "+1"],
    &["--serial", "1 "],
    &["--serial", "18446744073709551616"],
    &["--kind", "host"],
    &["--id", "a", "--id", "a"],
    &["--algorithm", "ssh-rsa"],
    &["--algorithm", "ed25519", "--algorithm", "ed25519"],
    &["--extension", "=1"],
    &["--extension", ""],
    &["--critical", "x@y"],
    &["--critical", "=1"],
    &["--principal", "a", "--principal"],
];

// Words of their own.
static NO_VALUES: [&[&str]; 5] = [
    &["--kind", "user"],
    &["--kind", "Host"],
    &["--type", "ssh-ed25519"],
    &["--after", "-1"],
    &["--before", "0x10"],
];

const USAGE: End<'static> = End {
    code: 2,
    out: "",
    err: "keyconv: usage: keyconv openssh|ppk2|ppk3|ssh-pub|putty-pub|cert|tbs|fingerprint|sample\n",
};

/// Both commands say how they are used.
fn are_no_options(alloc: Global, words: &[&str], more: &[&str]) -> Result<bool, Fail> {
    let asked = Asked {
        words,
        more,
        source: SOURCE,
        fresh: FRESH,
    };
    Ok(is_usage(alloc, "cert", &asked, &USAGE)? && is_usage(alloc, "tbs", &asked, &USAGE)?)
}

#[test]
fn answers_usage(rt: HostRuntime) -> Result<(), Fail> {
    for more in &NO_OPTIONS {
        assert!(rt; are_no_options(rt.alloc(), HOST, more)?, "{more:?}");
    }
    for words in &NO_VALUES {
        assert!(rt; are_no_options(rt.alloc(), words, &[])?, "{words:?}");
    }
    Ok(())
}
