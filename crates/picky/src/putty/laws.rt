//! The laws of PuTTY's files, each the contract of a function that does nothing: a call of it states the law.

pub use picky_kv::{block_laws as block, laws as lines};
pub use picky_ppk::laws as file;
pub use picky_ppk_file::{laws as fields, public_laws as public_key};
pub use picky_ppk_parts::laws as parts;
