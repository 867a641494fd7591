//! A certificate authority's ledger: which requests it was given, and the certificate that it issued for each; and requests at it.

pub use picky_ledger::{Entry, Ledger, LedgerError, LedgerTextError, Reply, laws};

// Requests whose signatures are answers: the questions of all at once.
pub use picky_ledger_by::{Applied, LedgerByError, apply_requests, laws as by_laws};

// The program.
pub use picky_ledger::{LedgerStatus, run_ledger};
