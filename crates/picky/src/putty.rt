//! PuTTY's key files (PuTTY's manual, Appendix C): private keys of versions 2 and 3, encrypted or not, their lines, and the
//! public keys that PuTTYgen saves.

pub mod laws;

// Files.
pub use picky_ppk::{
    Argon2Flavour, Argon2Params, KeyMaterialV2, KeyMaterialV3, MAC_SIZE_V3, Ppk,
    PpkEncryptionConfig, PpkEncryptionConfigBuilder, PpkFile, PpkKeyAlgorithm, PpkLayout,
    PpkSealing, PpkVersion, PuttyBasePrivateKey, PuttyBasePublicKey, PuttyError, PuttyPrivateKey,
    PuttyPublicKey, aes, can_derive_by, flavour_of,
};
pub use picky_text::LineEnd;

// What a file is made of.
pub use picky_ppk_parts::{
    KeyParts, Mac, counted_len, key_in_blob, mac_input, mac_key_v2, private_key_of,
};

// The program that writes one as PuTTY's own do.
pub use picky_puttyppk::{PuttyPpkStatus, run_puttyppk, text_for_putty};

// The lines of a private key file, and base64 that comes line by line.
pub use picky_kv::{
    Argon2FlavourValue, Base64PpkValue, BlockDecoder, BlockError, HexPpkValue, KvError,
    PpkArgon2Memory, PpkArgon2MemoryKey, PpkArgon2MemoryValue, PpkArgon2Parallelism,
    PpkArgon2ParallelismKey, PpkArgon2ParallelismValue, PpkArgon2Passes, PpkArgon2PassesKey,
    PpkArgon2PassesValue, PpkArgon2Salt, PpkArgon2SaltKey, PpkBlock, PpkComment, PpkCommentKey,
    PpkCommentValue, PpkEncryption, PpkEncryptionKey, PpkEncryptionValue, PpkField, PpkHeader,
    PpkKeyAlgorithmValue, PpkKeyDerivation, PpkKeyDerivationKey, PpkKeyValue, PpkLiteral,
    PpkMultilineKeyValue, PpkPrivateLines, PpkPrivateLinesKey, PpkPrivateMac, PpkPrivateMacKey,
    PpkPublicLines, PpkPublicLinesKey, PpkSingle, PpkValueError, PpkValueParsingError,
    PpkVersionKey, PuttyKvReader, PuttyKvWriter, literals,
};
