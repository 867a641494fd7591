//! What is left of the library's calls, each once with memory enough.

use picky_policy::{DecideError, Decision, Denial, Grant, PolicyStatus};
use picky_wire::List;
use std::alloc::Global;
use std::mem::ManuallyDrop;
use std::test::Fail;

// The names of the rules, in the order in which they are judged (docs/FORMATS.md, "Policies").
static DENIALS: [(Denial, &str); 8] = [
    (Denial::NoLine, "NoLine"),
    (Denial::NoAuthority, "NoAuthority"),
    (Denial::NotClient, "NotClient"),
    (Denial::NotYet, "NotYet"),
    (Denial::Expired, "Expired"),
    (Denial::Principal, "Principal"),
    (Denial::CriticalOption, "CriticalOption"),
    (Denial::BadSignature, "BadSignature"),
];

fn shows_denial(alloc: Global, denial: Denial, name: &str) -> Result<bool, Fail> {
    let text = ManuallyDrop::new(format!(in alloc; "{denial:?}")?);
    Ok(denial.name() == name && text.as_str() == name)
}

#[test]
fn names_each_denial(rt: HostRuntime) -> Result<(), Fail> {
    for (denial, name) in &DENIALS {
        assert!(rt; shows_denial(rt.alloc(), *denial, name)?, "{name}");
    }
    Ok(())
}

fn prints(alloc: Global, error: &DecideError, name: &str) -> Result<bool, Fail> {
    let text = ManuallyDrop::new(format!(in alloc; "{error} {error:?}")?);
    Ok(text.as_str() == name)
}

#[test]
fn prints_errors(rt: HostRuntime) -> Result<(), Fail> {
    let fault = DecideError::VerifierFault;
    assert!(rt; prints(rt.alloc(), &fault, "VerifierFault VerifierFault")?);
    assert!(rt; prints(rt.alloc(), &DecideError::NoMemory, "NoMemory NoMemory")?);
    Ok(())
}

fn shows_grant(alloc: Global) -> Result<bool, Fail> {
    let decision = ManuallyDrop::new(Decision::Granted(Grant {
        line: 7,
        force_command: None,
        source_address: None,
        verify_required: true,
        options: List::new(alloc),
    }));
    let decision = &*decision;
    let text = ManuallyDrop::new(format!(in alloc; "{decision:?} {:?}", PolicyStatus::Granted)?);
    Ok(
        text.as_str()
            == "Granted(Grant { line: 7, force_command: None, source_address: None, verify_required: true, \
            options: List { vec: [] } }) Granted",
    )
}

// Rust's derived Debug.
#[test]
fn shows_a_grant(rt: HostRuntime) -> Result<(), Fail> {
    assert!(rt; shows_grant(rt.alloc())?);
    Ok(())
}
