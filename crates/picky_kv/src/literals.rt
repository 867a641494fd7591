//! The literals of a PuTTY private key file, and the names and words of its refusals.

pub use picky_kv_words::literals::{
    AES256_CBC, ANY_ENCRYPTION, ANY_FLAVOUR, ANY_VERSION, ARGON2_FLAVOUR_VALUE, ARGON2_MEMORY,
    ARGON2_PARALLELISM, ARGON2_PASSES, ARGON2_SALT, ARGON2D, ARGON2I, ARGON2ID, COMMENT,
    ENCRYPTION, KEY_DERIVATION, NONE, PPK_ARGON2_MEMORY_KEY, PPK_ARGON2_PARALLELISM_KEY,
    PPK_ARGON2_PASSES_KEY, PPK_ARGON2_SALT_KEY, PPK_COMMENT_KEY, PPK_ENCRYPTION_KEY,
    PPK_ENCRYPTION_VALUE, PPK_KEY_DERIVATION_KEY, PPK_PRIVATE_LINES_KEY, PPK_PRIVATE_MAC_KEY,
    PPK_PUBLIC_LINES_KEY, PPK_VERSION_KEY, PRIVATE_LINES, PRIVATE_MAC, PUBLIC_LINES,
    PUTTY_USER_KEY_FILE_2, PUTTY_USER_KEY_FILE_3, VALID_BASE64, VALID_HEX,
};

pub const SSH_RSA: &str = "ssh-rsa";

pub const SSH_DSS: &str = "ssh-dss";

pub const ECDSA_SHA2_NISTP256: &str = "ecdsa-sha2-nistp256";

pub const ECDSA_SHA2_NISTP384: &str = "ecdsa-sha2-nistp384";

pub const ECDSA_SHA2_NISTP521: &str = "ecdsa-sha2-nistp521";

pub const SSH_ED25519: &str = "ssh-ed25519";

pub const SSH_ED448: &str = "ssh-ed448";

/// What stands between a key and its value.
pub const SEPARATOR: &str = ": ";

// What a refusal says was expected: the literals of the type in brackets, or which text.
pub const ANY_ALGORITHM: &str = "[ssh-rsa, ssh-dss, ecdsa-sha2-nistp256, ecdsa-sha2-nistp384, \
    ecdsa-sha2-nistp521, ssh-ed25519, ssh-ed448]";

pub const VALID_U32: &str = "<valid u32 value>";

pub const VALID_COUNT: &str = "<valid lines count>";

// The name of the type, which refusals give.
pub const PPK_KEY_ALGORITHM_VALUE: &str = "PpkKeyAlgorithmValue";
