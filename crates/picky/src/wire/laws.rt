//! The laws of the wire, each the contract of a function that does nothing: a call of it states the law.

pub use picky_wire::laws as elements;
pub use picky_wire_base::laws as fields;
