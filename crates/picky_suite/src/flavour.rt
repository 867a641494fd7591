//! The kinds of Argon2.

/// A kind of Argon2 (RFC 9106, section 3.1).
#[derive(Clone, Copy, Debug, PartialEq, Eq)]
pub enum Flavour {
    Argon2d,
    Argon2i,
    Argon2id,
}
