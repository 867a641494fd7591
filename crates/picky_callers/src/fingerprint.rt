//! The fingerprint of a public key line.

ghost use Rattle.std.specs.Prelude.{◌≡◌, ◌⊎◌, ◌++◌, Err, IfErr, IfOk, codes, string_bytes};
ghost use Rattle.picky.specs.Engines.{standard_no_pad};
ghost use Rattle.picky.specs.GeneralPurpose.{encode_of};
ghost use Rattle.picky.specs.Sha256.{sha256};
ghost use Rattle.picky.specs.SshPublicBlob.{blob_of};
ghost use Rattle.picky.specs.SshPublicLine.{IsPublicLine};
ghost use Rattle.picky.specs.SshPublicLineRefusal.{line_meaning};
ghost use Rattle.picky.specs.declared.ssh.SshPublicKey.{SshPublicKey as Key};

use picky::base64::engine::general_purpose::STANDARD_NO_PAD;
use picky::ssh::laws::public_key::line_means_what_it_says;
use picky::ssh::{SshPublicKey, SshPublicKeyError};
use std::alloc::{AllocError, Global};

/// The SHA-256 fingerprint of the key in a public key line, as `ssh-keygen -l` prints it.
pub fn fingerprint_of_line(alloc: Global, line: &str) -> Result<String, SshPublicKeyError>
    // It is the digest of the blob of the one key that the line means.
    ensures ok { IfOk result (λ text. (key : Key) × IsPublicLine line.now key
        × (string_bytes text ≡ codes "SHA256:" ++ encode_of standard_no_pad (sha256 (blob_of key.inner_key)))) }

    // A line that means no key is refused as `SshPublicKey::from_str` refuses it.
    ensures refused { IfErr result (λ e. (e ≡ SshPublicKeyError.NoMemory) ⊎ (line_meaning line.now ≡ Err e)) }
{
    line_means_what_it_says();
    let key = SshPublicKey::from_str(alloc, line)?;
    let printed = print_digest(alloc, key.fingerprint_sha256());
    drop(key);
    match printed {
        Ok(text) => Ok(text),
        Err(_) => Err(SshPublicKeyError::NoMemory),
    }
}

/// A SHA-256 digest in base64 without padding, behind its name.
fn print_digest(alloc: Global, digest: [u8; 32]) -> Result<String, AllocError>
    ensures { IfOk result (λ text. string_bytes text ≡ codes "SHA256:" ++ encode_of standard_no_pad digest) }
{
    let mut text = String::from_str(alloc, "SHA256:")?;
    STANDARD_NO_PAD.encode_string(&digest, &mut text)?;
    Ok(text)
}
