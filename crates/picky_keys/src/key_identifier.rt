//! The names of the curves (RFC 5656, section 6.1).

pub const ECDSA_SHA2_NIST_P256: &str = "nistp256";

pub const ECDSA_SHA2_NIST_P384: &str = "nistp384";

pub const ECDSA_SHA2_NIST_P521: &str = "nistp521";
