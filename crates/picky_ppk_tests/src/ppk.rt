//! What is seen of a PuTTY private key file that isn't sealed: its fields, its public key, copies, and which are equal.

use crate::answers::{gives, kept};
use crate::ppk_and_openssh::{p256_ppk, ppk_of, row_ppk};
use crate::putty_public::shown;
use picky_key_rows::{PPK_ROWS, PRIVATE_ROWS, PpkRow, SEALED_V3, VERSIONS};
use picky_keys::SshPublicKey;
use picky_ppk::{Ppk, PpkVersion};
use picky_wire::TryClone;
use std::alloc::Global;
use std::test::Fail;

/// The file has the row's fields in the version.
fn has_fields(ppk: &Ppk, row: &PpkRow, version: PpkVersion) -> bool {
    ppk.version() == version
        && ppk.algorithm() == row.algorithm
        && ppk.comment() == row.comment
        && ppk.padding_len() == row.padding_len
        && !ppk.is_encrypted()
        && ppk.argon2_params().is_none()
}

/// The file has the public key of the line.
fn has_public(alloc: Global, ppk: &Ppk, line: &str) -> Result<bool, Fail> {
    let key = kept(SshPublicKey::from_str(alloc, line))?;
    let inner = kept(ppk.public_key(alloc))?;
    let public = kept(ppk.extract_putty_public_key(alloc))?;
    Ok(shown(&inner) == key.inner_key() && gives(public.to_openssh(alloc), &*key)?)
}

/// The row's file shows the row, and is equal to its copy.
fn shows_row(alloc: Global, row: &PpkRow, version: PpkVersion, line: &str) -> Result<bool, Fail> {
    let ppk = row_ppk(alloc, row, version)?;
    Ok(
        has_fields(&ppk, row, version)
            && has_public(alloc, &ppk, line)?
            && gives(ppk.try_clone(alloc), &*ppk)?,
    )
}

#[test]
fn shows_the_fields_of_a_file(rt: HostRuntime) -> Result<(), Fail> {
    for (row, key_row) in PPK_ROWS.iter().zip(&PRIVATE_ROWS) {
        for version in VERSIONS {
            let alloc = rt.alloc();
            assert!(rt;
                shows_row(alloc, row, version, key_row.line)?,
                "{}, {version:?}",
                row.name
            );
        }
    }
    Ok(())
}

/// The file is neither that of the other version nor the sealed one.
fn are_apart(alloc: Global) -> Result<bool, Fail> {
    let ppk = p256_ppk(alloc, PpkVersion::V3)?;
    let other = p256_ppk(alloc, PpkVersion::V2)?;
    let sealed = kept(ppk_of(alloc, SEALED_V3))?;
    Ok(*other != *ppk && *sealed != *ppk)
}

#[test]
fn tells_files_apart(rt: HostRuntime) -> Result<(), Fail> {
    assert!(rt; are_apart(rt.alloc())?);
    Ok(())
}
