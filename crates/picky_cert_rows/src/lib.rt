//! Certificates of other programs, and such with one fault, which the tests of certificates read.
#![tactic(auto)]

mod cert_faults;
mod cert_keys;
mod certs;

pub use cert_faults::{CertFault, FAULTS, ZERO_LINE};
pub use cert_keys::{CA_SK_ED, CA_SK_P256, P521};
pub use certs::{CertRow, Grant, ROW_COUNT, cert_row};
