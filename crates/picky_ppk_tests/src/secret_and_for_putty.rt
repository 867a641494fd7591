//! Ed25519 secrets in PuTTY's private key files, which are numbers there: without their leading zeros, with a zero before a
//! first byte of 128 or more, and as the 32 bytes that PuTTY writes.

use crate::answers::{is_text, kept, refuses};
use crate::ppk_and_openssh::{gives_back, is_kept, is_made_in, is_written_in, ppk_of};
use picky_key_rows::{
    HIGH, LOW, PPK_ROWS, PpkRow, SEALED_V2, SEALED_V3, SECRET_ROWS, SecretRow, VERSIONS, ZERO_TEXT,
    ZEROS, secret_text_of, text_of,
};
use picky_ppk::{Ppk, PpkVersion, PuttyError};
use picky_sshkey::{SshBasePrivateKey, SshPrivateKey};
use picky_suite::PlainSuite;
use std::alloc::Global;
use std::mem::ManuallyDrop;
use std::test::Fail;

// row(s(bytes(32))), row(s(b"\x80" + bytes(31))), row(s(b"\0" + b"\1" * 31)), row(s(b"\0\0\x80" + bytes(31)))
pub static OTHER_SPELLINGS: [SecretRow; 4] = [
    SecretRow {
        name: "zeros as 32 bytes",
        secret: ZEROS,
        private: "AAAAIAAAAAAAAAAAAAAAAAAAAAAAAAAAAAAAAAAAAAAAAAAA",
        mac_v2: "3a746de6a508016f8c6288c87fe8cbf95bb834df",
        mac_v3: "fb9a6403353929a728b6905960b39cdae6b0a79450ba4dd2a8e42acee160bdd8",
    },
    SecretRow {
        name: "80 and zeros as 32 bytes",
        secret: HIGH,
        private: "AAAAIIAAAAAAAAAAAAAAAAAAAAAAAAAAAAAAAAAAAAAAAAAA",
        mac_v2: "3804f1e29970b3c8024998c3bcdfb51bedbfeefd",
        mac_v3: "711ac24d79cb13f45d7d89f31b3a6c346f10ab66bb92f9b65173cdec23a26629",
    },
    SecretRow {
        name: "00 and bytes 01 as 32 bytes",
        secret: LOW,
        private: "AAAAIAABAQEBAQEBAQEBAQEBAQEBAQEBAQEBAQEBAQEBAQEB",
        mac_v2: "61956680b526dbab6f3e19dc8575928ef8839bc2",
        mac_v3: "4fddf736e5f076acb6af6231e6f02a304b88ee032ee6812de96be2d6d0b19986",
    },
    SecretRow {
        name: "80 and zeros after two zeros",
        secret: HIGH,
        private: "AAAAIgAAgAAAAAAAAAAAAAAAAAAAAAAAAAAAAAAAAAAAAAAAAAA=",
        mac_v2: "10a5a7aeefb87cb46e7f29542ba98e106b04f6d0",
        mac_v3: "f69deac6c58bde002e556e571ea595edc713a7bd245672f9eb075a27d8d93a7b",
    },
];

/// The key of a secret, with 32 zero public bytes.
fn key_of(alloc: Global, secret: [u8; 32]) -> Result<ManuallyDrop<SshPrivateKey>, Fail> {
    let base = SshBasePrivateKey::Ed {
        secret,
        public: [0; 32],
    };
    kept(SshPrivateKey::from_base(alloc, base, None, "hello", &[0; 16]))
}

/// The secret's key makes the file in the version.
fn makes(alloc: Global, secret: [u8; 32], version: PpkVersion, text: &str) -> Result<bool, Fail> {
    let key = key_of(alloc, secret)?;
    is_made_in(alloc, &key, version, text)
}

/// The row's key makes its file in the version.
fn is_row_made(alloc: Global, row: &SecretRow, version: PpkVersion) -> Result<bool, Fail> {
    let text = kept(secret_text_of(alloc, row, version))?;
    makes(alloc, row.secret, version, text.as_str())
}

/// The row's file in the version says its key.
fn says_key(alloc: Global, row: &SecretRow, version: PpkVersion) -> Result<bool, Fail> {
    let text = kept(secret_text_of(alloc, row, version))?;
    let key = key_of(alloc, row.secret)?;
    Ok(is_kept(alloc, text.as_str())? && gives_back(alloc, text.as_str(), &key)?)
}

#[test]
fn writes_a_secret_as_a_number(rt: HostRuntime) -> Result<(), Fail> {
    for row in &SECRET_ROWS {
        assert!(rt;
            is_row_made(rt.alloc(), row, PpkVersion::V3)?,
            "{}",
            row.name
        );
        assert!(rt;
            is_row_made(rt.alloc(), row, PpkVersion::V2)?,
            "{}",
            row.name
        );
    }
    Ok(())
}

#[test]
fn reads_a_secret_as_a_number(rt: HostRuntime) -> Result<(), Fail> {
    for row in SECRET_ROWS.iter().chain(&OTHER_SPELLINGS) {
        assert!(rt; says_key(rt.alloc(), row, PpkVersion::V3)?, "{}", row.name);
        assert!(rt; says_key(rt.alloc(), row, PpkVersion::V2)?, "{}", row.name);
    }
    Ok(())
}

/// The secret of one zero byte is under another MAC.
fn is_told(alloc: Global) -> Result<bool, Fail> {
    let text = kept(ZERO_TEXT.replace(alloc, "AAAAAA==", "AAAAAQA="))?;
    let wanted = ManuallyDrop::new(PuttyError::MacValidation);
    Ok(refuses(ppk_of(alloc, text.as_str()), &*wanted))
}

/// The file of the text in version 2 is written as the text of the first row, which is read again.
fn is_changed(alloc: Global) -> Result<bool, Fail> {
    let text = kept(secret_text_of(alloc, &SECRET_ROWS[0], PpkVersion::V2))?;
    let ppk = kept(ppk_of(alloc, ZERO_TEXT))?;
    Ok(is_written_in(alloc, &ppk, PpkVersion::V2, text.as_str())? && is_kept(alloc, text.as_str())?)
}

#[test]
fn covers_the_spelling_by_the_mac(rt: HostRuntime) -> Result<(), Fail> {
    assert!(rt; makes(rt.alloc(), ZEROS, PpkVersion::V3, ZERO_TEXT)?);
    assert!(rt; is_told(rt.alloc())?);
    assert!(rt; is_changed(rt.alloc())?);
    Ok(())
}

/// The file of the text is written for PuTTY as the wanted one.
fn is_for_putty(alloc: Global, text: &str, wanted: &str) -> Result<bool, Fail> {
    let ppk = kept(ppk_of(alloc, text))?;
    let made = kept(ppk.for_putty(alloc, &PlainSuite::new()))?;
    is_text(made.to_string(alloc), wanted)
}

/// The file that the row's key makes is written for PuTTY as the row's own, and so is the row's own.
fn is_row_for_putty(alloc: Global, row: &SecretRow, version: PpkVersion) -> Result<bool, Fail> {
    let wanted = kept(secret_text_of(alloc, row, version))?;
    let key = key_of(alloc, row.secret)?;
    let suite = PlainSuite::new();
    let ppk = kept(Ppk::from_openssh_private_key(alloc, &suite, &key))?;
    let made = kept(ppk.to_version(alloc, &suite, version))?;
    let text = kept(made.to_string(alloc))?;
    Ok(
        is_for_putty(alloc, text.as_str(), wanted.as_str())?
            && is_for_putty(alloc, wanted.as_str(), wanted.as_str())?,
    )
}

#[test]
fn writes_a_secret_as_putty_does(rt: HostRuntime) -> Result<(), Fail> {
    // The first three are strings of 32 bytes.
    for row in &OTHER_SPELLINGS[..3] {
        for version in VERSIONS {
            assert!(rt;
                is_row_for_putty(rt.alloc(), row, version)?,
                "{}, {version:?}",
                row.name
            );
        }
    }
    Ok(())
}

/// A secret of 34 bytes is one of 32.
fn is_cut_for_putty(alloc: Global) -> Result<bool, Fail> {
    let long = kept(secret_text_of(alloc, &OTHER_SPELLINGS[3], PpkVersion::V3))?;
    let wanted = kept(secret_text_of(alloc, &OTHER_SPELLINGS[1], PpkVersion::V3))?;
    is_for_putty(alloc, long.as_str(), wanted.as_str())
}

/// A file of another kind is written as it is.
fn is_row_as_it_is(alloc: Global, row: &PpkRow, version: PpkVersion) -> Result<bool, Fail> {
    let text = kept(text_of(alloc, row, version))?;
    is_for_putty(alloc, text.as_str(), text.as_str())
}

/// The sealed file is refused.
fn is_sealed_refused(alloc: Global, text: &str) -> Result<bool, Fail> {
    let ppk = kept(ppk_of(alloc, text))?;
    let wanted = ManuallyDrop::new(PuttyError::Encrypted);
    Ok(refuses(ppk.for_putty(alloc, &PlainSuite::new()), &*wanted))
}

#[test]
fn leaves_other_files_as_putty_wrote_them(rt: HostRuntime) -> Result<(), Fail> {
    for row in &PPK_ROWS {
        for version in VERSIONS {
            assert!(rt;
                is_row_as_it_is(rt.alloc(), row, version)?,
                "{}, {version:?}",
                row.name
            );
        }
    }
    assert!(rt; is_cut_for_putty(rt.alloc())?);
    assert!(rt; is_sealed_refused(rt.alloc(), SEALED_V2)?);
    assert!(rt; is_sealed_refused(rt.alloc(), SEALED_V3)?);
    Ok(())
}
