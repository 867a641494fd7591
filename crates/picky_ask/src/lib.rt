//! A suite and a signer whose answers the caller gives, one question after another.
//!
//! A call runs over a table of answers. Where the table has none, the device fails, and keeps the question aside: the caller
//! answers it, and calls again with one entry more. Whatever the table, the suite keeps a suite's laws.
//!
//! Read first: `specs/Head.antt`, `specs/Lookup.antt`, `specs/State.antt` and `specs/Known.antt`; then `src/laws.rt`.
#![tactic(auto)]

mod head_read;
mod head_view;
mod known;
pub mod laws;
mod lookup;
mod missing;
mod operation;
mod question;
mod signer;
mod suite;
mod table;

pub use known::Known;
pub use missing::Missing;
pub use question::{Entry, Head, Question};
pub use signer::AnsweredSigner;
pub use suite::AnsweredSuite;
pub use table::{Table, TableError};
