//! The laws of conversions, each the contract of a function that does nothing: a call of it states the law.

pub use picky_changed::laws as changed;
pub use picky_conversion::{certificate_laws as certificate, laws as conversion};
pub use picky_convert::{laws as program, sample_laws as sample_keys};
pub use picky_input::laws as input;
pub use picky_issuing::laws as issuing;
pub use picky_key_text::laws as key_text;
pub use picky_shown::laws as shown;
pub use picky_target::laws as target;
