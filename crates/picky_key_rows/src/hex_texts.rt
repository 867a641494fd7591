//! Bytes as texts.

use std::alloc::{AllocError, Global};

/// Bytes in hex, in lower case.
pub fn hex_of(alloc: Global, bytes: &[u8]) -> Result<String, AllocError> {
    let mut text = String::new(alloc);
    for byte in bytes {
        write!(text, "{byte:02x}")?;
    }
    Ok(text)
}
