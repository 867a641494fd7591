//! Callers of `picky`, one for each task of its CALLING.md, which quotes them.
//!
//! They name `picky` and the standard library alone. Each contract says the task's point in the words of `picky`'s specs/.
#![tactic(auto)]

mod advice;
mod agent;
mod certificate;
mod conversion;
mod fingerprint;
mod issuing;
mod ledger;
mod login;
mod private_key;
mod putty_file;
#[cfg(test)]
mod tests;

pub use advice::advice_on;
pub use agent::reply_with_leave;
pub use certificate::allows_login;
pub use conversion::putty_text;
pub use fingerprint::fingerprint_of_line;
pub use issuing::{QuotaSigner, host_certificate};
pub use ledger::{Unentered, ledger_after};
pub use login::{Undecided, login_decision};
pub use private_key::{RoundLimit, key_under_limit};
pub use putty_file::putty_file_of;
