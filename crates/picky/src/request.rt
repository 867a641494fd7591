//! Requests for certificates, a line each, and the certificates that they ask for.

pub use picky_request::{CertRequestLine, algorithm_by, laws, type_for};
