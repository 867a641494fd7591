//! The laws of authorized keys and of the decision, each the contract of a function that does nothing: a call of it states the law.

pub use picky_authorized::laws as authorized_keys;
pub use picky_policy::laws as decision;
