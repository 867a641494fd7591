//! A ledger of a certificate authority: which requests it was given, and the certificate that it issued for each.
//!
//! Read first: `specs/Runs.antt` and `specs/LedgerText.antt`; then `src/run.rt`.
#![tactic(auto)]

mod answer;
mod apply;
mod asked;
mod entry;
mod entry_line;
pub mod laws;
mod ledger;
mod reading;
mod reply;
mod reply_line;
mod requests;
mod run;
mod status;

pub use apply::{LedgerError, entry_named};
pub use asked::count_of;
pub use entry::Entry;
pub use ledger::{Ledger, LedgerTextError};
pub use reading::id_of;
pub use reply::Reply;
pub use reply_line::push_reply;
pub use run::run_ledger;
pub use status::LedgerStatus;
