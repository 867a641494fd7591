//! What a login comes to.

use picky_policy::Denial;

/// Whether the offer gets in, or the question that decides it.
#[derive(Debug, Drop)]
pub enum Login {
    /// It gets in: the lines of the grant, and that of the key that was judged.
    Granted(Vec<u8>),
    /// It doesn't: the first rule that fails, and the same lines of the denial.
    Denied(Denial, Vec<u8>),
    /// The question whether the issuer's signature is good, as bytes.
    Question(Vec<u8>),
}
