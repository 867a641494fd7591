//! What is left of the library's calls, each once with memory enough.

use picky_cert_builder::SshCertificateGenerationError;
use picky_keys::SshPublicKeyError;
use picky_ledger::{Ledger, LedgerError, LedgerStatus, LedgerTextError, Reply};
use std::alloc::Global;
use std::mem::ManuallyDrop;
use std::test::Fail;

// docs/keyledger.1, "EXIT STATUS".
fn has_number(status: LedgerStatus, number: u8) -> bool {
    let status = ManuallyDrop::new(status);
    status.exit_code() == number
}

#[test]
fn has_a_number_for_each_status(rt: HostRuntime) -> Result<(), Fail> {
    assert!(rt; has_number(LedgerStatus::Done, 0));
    assert!(rt; has_number(LedgerStatus::BadInput, 1));
    assert!(rt; has_number(LedgerStatus::BadLedger(1), 2));
    let unknown = SshPublicKeyError::UnknownKeyType;
    assert!(rt; has_number(LedgerStatus::BadIssuer(unknown), 3));
    assert!(rt; has_number(LedgerStatus::FreshTooShort, 4));
    assert!(rt; has_number(LedgerStatus::TooLong, 5));
    assert!(rt; has_number(LedgerStatus::ReadFault, 6));
    assert!(rt; has_number(LedgerStatus::WriteFault, 7));
    assert!(rt; has_number(LedgerStatus::OutsideFault, 8));
    assert!(rt; has_number(LedgerStatus::NoMemory, 9));
    assert!(rt; has_number(LedgerStatus::InputTooLong, 10));
    assert!(rt; has_number(LedgerStatus::InputNotUtf8, 11));
    Ok(())
}

fn prints(alloc: Global, error: LedgerError, wanted: &str) -> Result<bool, Fail> {
    let text = ManuallyDrop::new(format!(in alloc; "{error} {error:?}")?);
    Ok(text.as_str() == wanted)
}

fn prints_text_error(alloc: Global, error: LedgerTextError, wanted: &str) -> Result<bool, Fail> {
    let text = ManuallyDrop::new(format!(in alloc; "{error} {error:?}")?);
    Ok(text.as_str() == wanted)
}

#[test]
fn prints_errors(rt: HostRuntime) -> Result<(), Fail> {
    let alloc = rt.alloc();
    assert!(rt; prints(alloc, LedgerError::SignerFault, "SignerFault SignerFault")?);
    assert!(rt; prints(alloc, LedgerError::NoMemory, "NoMemory NoMemory")?);
    assert!(rt; prints_text_error(alloc, LedgerTextError::BadLine(7), "BadLine(7) BadLine(7)")?);
    assert!(rt; prints_text_error(alloc, LedgerTextError::TooLong, "TooLong TooLong")?);
    assert!(rt; prints_text_error(alloc, LedgerTextError::NoMemory, "NoMemory NoMemory")?);
    Ok(())
}

fn shows(alloc: Global) -> Result<bool, Fail> {
    let ledger = ManuallyDrop::new(Ledger::from_str(alloc, "next 3\n")?);
    let ledger = &*ledger;
    let refused = Reply::Refused(SshCertificateGenerationError::InvalidTime);
    let (again, full) = (Reply::Again(1), Reply::Full);
    let text = ManuallyDrop::new(format!(in alloc; "{ledger:?} {refused:?} {again:?} {full:?}")?);
    Ok(
        text.as_str()
            == "Ledger { next: 3, entries: List { vec: [] } } Refused(InvalidTime) Again(1) Full",
    )
}

// Rust's derived Debug.
#[test]
fn shows_ledgers_and_replies(rt: HostRuntime) -> Result<(), Fail> {
    assert!(rt; shows(rt.alloc())?);
    Ok(())
}
