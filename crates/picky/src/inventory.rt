//! A key inventory: which keys a list of texts has, each once, as sorted lines; and two such merged.

pub use picky_inventory::{
    Unmerged, Unread, bad_line, is_item_line, laws, list_text, merge, parts,
};

// The same of texts that are bytes of their own, and of an inventory piece by piece.
pub use picky_inventory_texts::{
    CheckError, ListError, MergeError, TextCause, check_piece, is_listed_line, laws as texts_laws,
    list_texts, merge_two,
};

// The program.
pub use picky_inventory::{Command, InventoryStatus, run_inventory};
