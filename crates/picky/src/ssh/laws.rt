//! The laws of keys and certificates, each the contract of a function that does nothing: a call of it states the law.

pub use picky_cert::laws as certificate;
pub use picky_cert_builder::laws as certificate_builder;
pub use picky_cert_parts::{cert_name_laws as certificate_names, laws as certificate_parts};
pub use picky_keys::{key_name_laws as keys, laws as public_key};
pub use picky_sshkey::laws as private_key;
pub use picky_sshkey_blob::{laws as private_blob, pem_laws as pem};
pub use picky_suite::laws as suite;
