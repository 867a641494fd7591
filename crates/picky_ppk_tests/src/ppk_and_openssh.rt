//! PuTTY's private key files that aren't sealed: texts of PuTTYgen read and written, made of OpenSSH's keys and back.

use crate::answers::{gives, is_text, kept};
use picky_key_rows::{
    PASS, PPK_ROWS, PRIVATE_ROWS, PpkRow, PrivateRow, VERSIONS, text_of, unsealed, zero_key,
};
use picky_keys::PrivateKey;
use picky_ppk::{Ppk, PpkVersion, PuttyError};
use picky_sshkey::SshPrivateKey;
use picky_suite::PlainSuite;
use picky_wire::TryClone;
use std::alloc::Global;
use std::mem::ManuallyDrop;
use std::test::Fail;

/// The file of a text. No call of a suite that can fail is needed, and this one has none.
pub fn ppk_of(alloc: Global, text: &str) -> Result<Ppk, PuttyError> {
    Ppk::from_str(alloc, &PlainSuite::new(), text)
}

/// The file that OpenSSH's key makes.
pub fn made_of(alloc: Global, key: &SshPrivateKey) -> Result<Ppk, PuttyError> {
    Ppk::from_openssh_private_key(alloc, &PlainSuite::new(), key)
}

/// The file of the row.
pub fn row_ppk(
    alloc: Global,
    row: &PpkRow,
    version: PpkVersion,
) -> Result<ManuallyDrop<Ppk>, Fail> {
    let text = kept(text_of(alloc, row, version))?;
    kept(ppk_of(alloc, text.as_str()))
}

/// The file of the P-256 key.
pub fn p256_ppk(alloc: Global, version: PpkVersion) -> Result<ManuallyDrop<Ppk>, Fail> {
    row_ppk(alloc, &PPK_ROWS[1], version)
}

/// The text is written for what it says, and says it with LF too.
pub fn is_kept(alloc: Global, text: &str) -> Result<bool, Fail> {
    let ppk = kept(ppk_of(alloc, text))?;
    let with_lf = kept(text.replace(alloc, "\r\n", "\n"))?;
    Ok(is_text(ppk.to_string(alloc), text)? && gives(ppk_of(alloc, with_lf.as_str()), &*ppk)?)
}

fn is_row_kept(alloc: Global, row: &PpkRow, version: PpkVersion) -> Result<bool, Fail> {
    let text = kept(text_of(alloc, row, version))?;
    is_kept(alloc, text.as_str())
}

#[test]
fn reads_and_writes_the_files_of_puttygen(rt: HostRuntime) -> Result<(), Fail> {
    for row in &PPK_ROWS {
        for version in VERSIONS {
            assert!(rt;
                is_row_kept(rt.alloc(), row, version)?,
                "{}, {version:?}",
                row.name
            );
        }
    }
    Ok(())
}

/// The file in the version is written as the text.
pub fn is_written_in(
    alloc: Global,
    ppk: &Ppk,
    version: PpkVersion,
    text: &str,
) -> Result<bool, Fail> {
    let changed = kept(ppk.to_version(alloc, &PlainSuite::new(), version))?;
    is_text(changed.to_string(alloc), text)
}

/// The file that the key makes is written as the text in the version; it is made in version 3.
pub fn is_made_in(
    alloc: Global,
    key: &SshPrivateKey,
    version: PpkVersion,
    text: &str,
) -> Result<bool, Fail> {
    let ppk = kept(made_of(alloc, key))?;
    match version {
        PpkVersion::V2 => is_written_in(alloc, &ppk, PpkVersion::V2, text),
        PpkVersion::V3 => is_text(ppk.to_string(alloc), text),
    }
}

/// It is made without what the key's envelope says, too.
fn is_made_of_base(
    alloc: Global,
    key: &SshPrivateKey,
    version: PpkVersion,
    text: &str,
) -> Result<bool, Fail> {
    let comment = key.comment.try_clone(alloc)?;
    let suite = PlainSuite::new();
    let ppk = kept(Ppk::from_base_key(alloc, &suite, version, &key.base_key, comment))?;
    is_text(ppk.to_string(alloc), text)
}

fn is_row_made(
    alloc: Global,
    row: &PpkRow,
    version: PpkVersion,
    key_row: &PrivateRow,
) -> Result<bool, Fail> {
    let text = kept(text_of(alloc, row, version))?;
    let key = ManuallyDrop::new(unsealed(alloc, key_row.text)?);
    Ok(
        is_made_in(alloc, &key, version, text.as_str())?
            && is_made_of_base(alloc, &key, version, text.as_str())?,
    )
}

#[test]
fn makes_the_files_that_puttygen_makes(rt: HostRuntime) -> Result<(), Fail> {
    for (row, key_row) in PPK_ROWS.iter().zip(&PRIVATE_ROWS) {
        assert!(rt; row.name == key_row.name);
        for version in VERSIONS {
            let alloc = rt.alloc();
            assert!(rt;
                is_row_made(alloc, row, version, key_row)?,
                "{}, {version:?}",
                row.name
            );
        }
    }
    Ok(())
}

/// The text's file gives OpenSSH's key and its comment.
pub fn gives_back(alloc: Global, text: &str, key: &SshPrivateKey) -> Result<bool, Fail> {
    let ppk = kept(ppk_of(alloc, text))?;
    let given = kept(ppk.to_openssh_private_key(alloc, None, &[0; 16]))?;
    Ok(
        is_same_key(&given, key)
            && is_of_key(alloc, ppk.private_key(alloc), key)?
            && gives(ppk.base_key(alloc), &key.base_key)?
            && is_moved_out(alloc, &ppk, key)?,
    )
}

/// A copy of the file that is moved gives the key and its comment.
fn is_moved_out(alloc: Global, ppk: &Ppk, key: &SshPrivateKey) -> Result<bool, Fail> {
    let copy = ppk.try_clone(alloc)?;
    let (base_key, comment) = copy.into_base_key(alloc)?;
    let (base_key, comment) = (ManuallyDrop::new(base_key), ManuallyDrop::new(comment));
    Ok(*base_key == key.base_key && *comment == key.comment)
}

/// Both are one key, and the first has no passphrase.
pub fn is_same_key(given: &SshPrivateKey, key: &SshPrivateKey) -> bool {
    given.base_key == key.base_key
        && given.public_key == key.public_key
        && given.comment == key.comment
        && given.passphrase.is_none()
}

/// The answer is the inner key of OpenSSH's key.
pub fn is_of_key(
    alloc: Global,
    inner: Result<PrivateKey, PuttyError>,
    key: &SshPrivateKey,
) -> Result<bool, Fail> {
    let inner = ManuallyDrop::into_inner(kept(inner)?);
    let made = kept(SshPrivateKey::from_private_key(alloc, inner))?;
    Ok(made.base_key == key.base_key)
}

fn is_row_given(
    alloc: Global,
    row: &PpkRow,
    version: PpkVersion,
    key_row: &PrivateRow,
) -> Result<bool, Fail> {
    let text = kept(text_of(alloc, row, version))?;
    let key = ManuallyDrop::new(unsealed(alloc, key_row.text)?);
    gives_back(alloc, text.as_str(), &key)
}

#[test]
fn gives_the_keys_of_openssh_back(rt: HostRuntime) -> Result<(), Fail> {
    for (row, key_row) in PPK_ROWS.iter().zip(&PRIVATE_ROWS) {
        for version in VERSIONS {
            let alloc = rt.alloc();
            assert!(rt;
                is_row_given(alloc, row, version, key_row)?,
                "{}, {version:?}",
                row.name
            );
        }
    }
    Ok(())
}

/// The key that is sealed under a passphrase and a salt is given by the file of the other.
fn is_zero_key_sealed(alloc: Global) -> Result<bool, Fail> {
    let key = ManuallyDrop::new(zero_key(alloc, None)?);
    let ppk = kept(made_of(alloc, &key))?;
    let wanted = ManuallyDrop::new(zero_key(alloc, Some(PASS))?);
    gives(
        ppk.to_openssh_private_key(alloc, Some(PASS), b"saltsaltsaltsalt"),
        &*wanted,
    )
}

#[test]
fn seals_the_key_of_openssh(rt: HostRuntime) -> Result<(), Fail> {
    assert!(rt; is_zero_key_sealed(rt.alloc())?);
    Ok(())
}
