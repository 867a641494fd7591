//! How a run ends where no request is answered; check/keyledger_cases.py has more such runs.

use crate::runs::{FRESH, ends};
use std::test::Fail;

// Sources, and their statuses as Rust's derived Debug shows them: the marks come before the ledger, and that before the issuer.
static ENDS: [(&str, &str); 18] = [
    ("", "BadInput"),
    ("next 1\n%%\n", "BadInput"),
    ("next 1\n%%\nssh-ed25519 B0 ca\n", "BadInput"),
    ("next 1\n%%\nssh-ed25519 B0 ca\n%% \n", "BadInput"),
    ("next 1\n%%\nssh-ed25519 B0 ca\n %%\n", "BadInput"),
    ("next 1\n%%\nssh-ed25519 B0 ca\n%%%\n", "BadInput"),
    ("next 1\n%%\r\r\nssh-ed25519 B0 ca\n%%\n", "BadInput"),
    ("? %%\n%%\n?", "BadInput"),
    ("%%\n%%\n", "BadLedger(1)"),
    ("%%\n%%", "BadLedger(1)"),
    ("\n%%\n?\n%%\n", "BadLedger(1)"),
    ("next 0\n%%\n?\n%%\n", "BadLedger(1)"),
    ("next 1\r\n%%\r\n?\r\n%%\r\n", "BadLedger(1)"),
    ("next 1\n\n%%\n?\n%%\n", "BadLedger(2)"),
    ("next 2\nr1 <r1> <n> <c1> host\r\n%%\n%%\n", "BadLedger(2)"),
    ("next 1\nr1 <r1> <n> <c1> host\n%%\n%%\n", "BadLedger(2)"),
    ("next 2\nr1 <r1> <n> <c1> host\n\n%%\n%%\n", "BadLedger(3)"),
    ("next 1\n%%\n?\n%%\n?", "BadIssuer(UnknownKeyType)"),
];

#[test]
fn says_why_nothing_is_answered(rt: HostRuntime) -> Result<(), Fail> {
    for (row, status) in &ENDS {
        assert!(rt; ends(rt.alloc(), FRESH, row, status, "")?, "{row}");
    }
    Ok(())
}
