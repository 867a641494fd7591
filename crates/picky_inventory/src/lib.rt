//! A key inventory: the set of the keys that a heap of texts has, as sorted lines.
//!
//! Read first: `specs/Listing.antt` and `specs/Run.antt`; then `src/run.rt`.
#![tactic(auto)]

mod answer;
mod bad_lines;
mod command;
mod ended;
mod item_line;
pub mod laws;
mod lines;
mod listing;
mod merging;
mod parted;
mod run;
mod sorted;
mod status;

pub use bad_lines::bad_line;
pub use command::{Command, command_of};
pub use ended::ended_lines;
pub use item_line::is_item_line;
pub use lines::{is_blank, line_of, words_line};
pub use listing::{Unread, list_lines, list_text};
pub use merging::{Unmerged, merge, merge_texts};
pub use parted::parts;
pub use run::run_inventory;
pub use sorted::{joined_lines, sorted_lines};
pub use status::InventoryStatus;
