//! The literals of the fixed words, and the names and words of their refusals.

pub const PUTTY_USER_KEY_FILE_2: &str = "PuTTY-User-Key-File-2";

pub const PUTTY_USER_KEY_FILE_3: &str = "PuTTY-User-Key-File-3";

pub const ENCRYPTION: &str = "Encryption";

pub const COMMENT: &str = "Comment";

pub const PUBLIC_LINES: &str = "Public-Lines";

pub const KEY_DERIVATION: &str = "Key-Derivation";

pub const ARGON2_MEMORY: &str = "Argon2-Memory";

pub const ARGON2_PASSES: &str = "Argon2-Passes";

pub const ARGON2_PARALLELISM: &str = "Argon2-Parallelism";

pub const ARGON2_SALT: &str = "Argon2-Salt";

pub const PRIVATE_LINES: &str = "Private-Lines";

pub const PRIVATE_MAC: &str = "Private-MAC";

pub const NONE: &str = "none";

pub const AES256_CBC: &str = "aes256-cbc";

pub const ARGON2D: &str = "Argon2d";

pub const ARGON2I: &str = "Argon2i";

pub const ARGON2ID: &str = "Argon2id";

// What a refusal says was expected: the literals of the type, in brackets where there are several.
pub const ANY_VERSION: &str = "[PuTTY-User-Key-File-2, PuTTY-User-Key-File-3]";

pub const ANY_ENCRYPTION: &str = "[none, aes256-cbc]";

pub const ANY_FLAVOUR: &str = "[Argon2d, Argon2i, Argon2id]";

// The names of the types, which refusals give.
pub const PPK_VERSION_KEY: &str = "PpkVersionKey";

pub const PPK_ENCRYPTION_VALUE: &str = "PpkEncryptionValue";

pub const ARGON2_FLAVOUR_VALUE: &str = "Argon2FlavourValue";

pub const PPK_ENCRYPTION_KEY: &str = "PpkEncryptionKey";

pub const PPK_COMMENT_KEY: &str = "PpkCommentKey";

pub const PPK_PUBLIC_LINES_KEY: &str = "PpkPublicLinesKey";

pub const PPK_PRIVATE_LINES_KEY: &str = "PpkPrivateLinesKey";

pub const PPK_PRIVATE_MAC_KEY: &str = "PpkPrivateMacKey";

pub const PPK_KEY_DERIVATION_KEY: &str = "PpkKeyDerivationKey";

pub const PPK_ARGON2_MEMORY_KEY: &str = "PpkArgon2MemoryKey";

pub const PPK_ARGON2_PASSES_KEY: &str = "PpkArgon2PassesKey";

pub const PPK_ARGON2_PARALLELISM_KEY: &str = "PpkArgon2ParallelismKey";

pub const PPK_ARGON2_SALT_KEY: &str = "PpkArgon2SaltKey";

// What a refusal of base64 or hex says was expected.
pub const VALID_BASE64: &str = "<valid base64 data>";

pub const VALID_HEX: &str = "<valid hex data>";
