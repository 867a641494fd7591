//! The digests that ssh-keygen shows of a key.

use picky_key_rows::{KEY_ROWS, KeyRow, hex_of};
use picky_keys::SshPublicKey;
use picky_text::encode;
use std::alloc::Global;
use std::mem::ManuallyDrop;
use std::test::Fail;

/// Base64 without its padding, as `ssh-keygen` shows a digest.
fn shown(alloc: Global, digest: &[u8]) -> Result<String, Fail> {
    let text = ManuallyDrop::new(encode(alloc, digest)?);
    Ok(String::from_str(alloc, text.as_str().trim_end_matches('='))?)
}

/// The key of the row's line has the row's digests.
fn is_shown(alloc: Global, row: &KeyRow) -> Result<bool, Fail> {
    let key = ManuallyDrop::new(SshPublicKey::from_str(alloc, row.line)?);
    let md5 = ManuallyDrop::new(hex_of(alloc, &key.fingerprint_md5())?);
    let sha1 = ManuallyDrop::new(shown(alloc, &key.fingerprint_sha1())?);
    let sha256 = ManuallyDrop::new(shown(alloc, &key.fingerprint_sha256())?);
    Ok(md5.as_str() == row.md5 && sha1.as_str() == row.sha1 && sha256.as_str() == row.sha256)
}

/// The rows. Who calls it doesn't see their texts: a proof that copied them all would be long.
fn rows() -> &'static [KeyRow] {
    &KEY_ROWS
}

#[test]
fn gives_the_digests_of_ssh_keygen(rt: HostRuntime) -> Result<(), Fail> {
    for row in rows() {
        assert!(rt; is_shown(rt.alloc(), row)?, "{}", row.name);
    }
    Ok(())
}
