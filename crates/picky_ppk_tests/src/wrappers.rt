//! PuTTY's keys without a file: made of OpenSSH's keys, with the parts of PuTTYgen's files, and back.

use crate::answers::{gives, kept};
use crate::ppk_and_openssh::{is_of_key, is_same_key, row_ppk};
use crate::putty_public::shown;
use picky_key_rows::{PPK_ROWS, PRIVATE_ROWS, PpkRow, PrivateRow, unsealed};
use picky_keys::SshPublicKey;
use picky_ppk::{PpkFile, PpkVersion, PuttyBasePrivateKey, PuttyBasePublicKey, PuttyPrivateKey};
use picky_sshkey::SshPrivateKey;
use picky_wire::TryClone;
use std::alloc::Global;
use std::mem::ManuallyDrop;
use std::test::Fail;

/// The key has the parts of the file.
fn has_parts(putty: &PuttyPrivateKey, file: &PpkFile) -> bool {
    putty.base.algorithm == file.algorithm
        && putty.base.public_key.blob == file.public_key
        && putty.base.private_bytes == file.private_bytes
        && putty.comment == file.comment
}

/// Without its comment it is made of OpenSSH's key alike, and gives it back.
fn has_base(alloc: Global, base: &PuttyBasePrivateKey, key: &SshPrivateKey) -> Result<bool, Fail> {
    Ok(
        gives(
            PuttyBasePrivateKey::from_openssh(alloc, &key.base_key),
            base,
        )? && gives(base.to_openssh(alloc), &key.base_key)?
            && is_of_key(alloc, base.to_inner_key(alloc), key)?,
    )
}

/// So is its public part.
fn has_public(
    alloc: Global,
    public: &PuttyBasePublicKey,
    key: &SshPublicKey,
) -> Result<bool, Fail> {
    let inner = kept(public.to_inner_key(alloc))?;
    Ok(
        gives(
            PuttyBasePublicKey::from_openssh(alloc, &key.inner_key),
            public,
        )? && gives(public.to_openssh(alloc), &key.inner_key)?
            && shown(&inner) == key.inner_key(),
    )
}

/// It is equal to its copy, and OpenSSH's key is made of it again.
fn has_key(alloc: Global, putty: &PuttyPrivateKey, key: &SshPrivateKey) -> Result<bool, Fail> {
    let given = kept(putty.to_openssh(alloc, None, &[0; 16]))?;
    Ok(
        gives(putty.try_clone(alloc), putty)?
            && is_same_key(&given, key)
            && has_base(alloc, &putty.base, key)?
            && has_public(alloc, &putty.base.public_key, &key.public_key)?,
    )
}

fn is_row_wrapped(alloc: Global, row: &PpkRow, key_row: &PrivateRow) -> Result<bool, Fail> {
    let ppk = row_ppk(alloc, row, PpkVersion::V3)?;
    let key = ManuallyDrop::new(unsealed(alloc, key_row.text)?);
    let putty = kept(PuttyPrivateKey::from_openssh(alloc, &key))?;
    Ok(has_parts(&putty, ppk.file()) && has_key(alloc, &putty, &key)?)
}

#[test]
fn wraps_the_keys_of_openssh(rt: HostRuntime) -> Result<(), Fail> {
    for (row, key_row) in PPK_ROWS.iter().zip(&PRIVATE_ROWS) {
        assert!(rt; is_row_wrapped(rt.alloc(), row, key_row)?, "{}", row.name);
    }
    Ok(())
}
