//! The fingerprints of the key that a text means.

ghost use Rattle.std.specs.Prelude.{◌≡◌, IfOk, string_bytes};
ghost use Rattle.picky_convert.specs.Fingerprint.{fingerprint_text as text_of_key};

use base64::engine::general_purpose::STANDARD_NO_PAD;
use picky_keys::SshPublicKey;
use std::alloc::{AllocError, Global};

/// The MD5, SHA-1 and SHA-256 digests of the key's blob, a line each. Refuses: want of memory.
#[tactic(auto, unfolding(crate::specs::Fingerprint::fingerprint_lines, picky_text::specs::Lines::text_of))]
pub fn fingerprint_text(alloc: Global, key: &SshPublicKey) -> Result<String, AllocError>
    ensures { IfOk result (λ text. string_bytes text ≡ text_of_key key.now.inner_key) }
{
    let md5 = hex::encode(alloc, key.fingerprint_md5())?;
    let mut text = String::from_str(alloc, "MD5:")?;
    text.push_str(md5.as_str())?;
    text.push_str("\nSHA1:")?;
    STANDARD_NO_PAD.encode_string(&key.fingerprint_sha1(), &mut text)?;
    text.push_str("\nSHA256:")?;
    STANDARD_NO_PAD.encode_string(&key.fingerprint_sha256(), &mut text)?;
    text.push_str("\n")?;
    Ok(text)
}
