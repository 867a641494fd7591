//! Keys and texts of other programs, which the tests of several crates read: data, and functions that make texts and keys of
//! them.
#![tactic(auto)]

mod hex_texts;
mod key_lines;
mod ppk_secrets;
mod ppk_texts;
mod private_keys;
mod private_texts;

pub use hex_texts::hex_of;
pub use key_lines::{KEY_ROWS, KeyRow};
pub use ppk_secrets::{
    ENDS_IN_CR, HIGH, LOW, SECRET_ROWS, SecretRow, ZERO_TEXT, ZEROS, secret_text_of,
};
pub use ppk_texts::{
    CONFIG, P256_BODY, PASS, PPK_ROWS, PUBLIC, PpkRow, SEALED_V2, SEALED_V3, TOY_V2, TOY_V3,
    VERSIONS, text_of, text_with_macs,
};
pub use private_keys::{unsealed, zero_key};
pub use private_texts::{PRIVATE_ROWS, PrivateRow, V2, ZERO_KEY};
