//! What is decided of an offer.

use picky_authorized::AuthOption;
use picky_wire::{List, Text};

/// The first rule that fails.
#[derive(Clone, Copy, Debug, PartialEq, Eq)]
pub enum Denial {
    /// No line without `cert-authority` has the key.
    NoLine,
    /// No line with `cert-authority` has the issuer's key.
    NoAuthority,
    /// The certificate is a host's.
    NotClient,
    /// The moment is before the certificate's time.
    NotYet,
    /// The moment is its end or after it.
    Expired,
    /// None of the line's `principals` is one of the certificate's; without them, the user isn't, and it has some.
    Principal,
    /// A critical option occurs twice, or its payload doesn't fit.
    CriticalOption,
    /// The signature isn't good.
    BadSignature,
}

/// What the caller has to keep to.
#[derive(Debug, Drop)]
pub struct Grant {
    /// The number of the line that grants.
    pub line: usize,
    /// The certificate's forced command.
    pub force_command: Option<Text>,
    /// The addresses that the certificate may be used from.
    pub source_address: Option<Text>,
    /// The certificate asks for a user who was verified.
    pub verify_required: bool,
    /// The line's options but `cert-authority` and `principals`.
    pub options: List<AuthOption>,
}

/// Whether an offer gets in.
#[derive(Debug, Drop)]
pub enum Decision {
    Granted(Grant),
    Denied(Denial),
}
