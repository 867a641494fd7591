//! The names of the key types.

/// RFC 4253, section 6.6.
pub const RSA: &str = "ssh-rsa";

/// RFC 5656, section 6.2, as the two below.
pub const ECDSA_SHA2_NIST_P256: &str = "ecdsa-sha2-nistp256";

pub const ECDSA_SHA2_NIST_P384: &str = "ecdsa-sha2-nistp384";

pub const ECDSA_SHA2_NIST_P521: &str = "ecdsa-sha2-nistp521";

/// RFC 8709, section 4.
pub const ED25519: &str = "ssh-ed25519";

/// OpenSSH's PROTOCOL.u2f, as the one below.
pub const SK_ECDSA_SHA2_NIST_P256: &str = "sk-ecdsa-sha2-nistp256@openssh.com";

pub const SK_ED25519: &str = "sk-ssh-ed25519@openssh.com";
