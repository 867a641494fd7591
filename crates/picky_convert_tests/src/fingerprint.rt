//! The fingerprints that a run writes are those that ssh-keygen shows.

use crate::runs::writes;
use picky_key_rows::{KEY_ROWS, KeyRow};
use std::alloc::Global;
use std::mem::ManuallyDrop;
use std::test::Fail;

/// The row's fingerprints are written for its line.
fn writes_fingerprints(alloc: Global, row: &KeyRow) -> Result<bool, Fail> {
    let line = ManuallyDrop::new(format!(in alloc; "{}\n", row.line)?);
    let text = ManuallyDrop::new(format!(in alloc;
        "MD5:{}\nSHA1:{}\nSHA256:{}\n",
        row.md5, row.sha1, row.sha256
    )?);
    writes(alloc, "fingerprint", line.as_str(), text.as_str())
}

#[test]
fn writes_the_fingerprints_of_ssh_keygen(rt: HostRuntime) -> Result<(), Fail> {
    for row in &KEY_ROWS {
        assert!(rt; writes_fingerprints(rt.alloc(), row)?, "{}", row.name);
    }
    Ok(())
}
