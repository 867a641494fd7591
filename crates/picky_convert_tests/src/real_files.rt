//! Files of ssh-keygen and PuTTYgen: the line and the fingerprints that both programs print, written for each form of a key.

use crate::runs::writes;
use picky_key_rows::{
    KEY_ROWS, KeyRow, PPK_ROWS, PRIVATE_ROWS, PUBLIC, PpkRow, PrivateRow, V2, VERSIONS, text_of,
};
use picky_ppk::PpkVersion;
use std::alloc::Global;
use std::mem::ManuallyDrop;
use std::test::Fail;

/// The digests of a key, MD5's without its colons.
#[derive(Clone, Copy)]
struct Digests {
    md5: &'static str,
    sha1: &'static str,
    sha256: &'static str,
}

// Of the keys in PPK_ROWS and PRIVATE_ROWS, whose texts are in the files key, v2.ppk and v3.ppk:
// for h in md5 sha1 sha256; do ssh-keygen -l -E $h -f key; done | cut -d' ' -f2
// `puttygen -l v2.ppk` and `puttygen -l v3.ppk` print the same SHA-256 digests. `puttygen -L v2.ppk` and `puttygen -L v3.ppk`
// print the lines of PRIVATE_ROWS, as `ssh-keygen -y -f key` does; for an empty comment they alone have a space at the end.
// That ssh-keygen reads what `openssh` writes for v3.ppk, as the same key, was tried by hand: ssh-keygen -l, and -y, -f written.
static DIGESTS: [Digests; 5] = [
    Digests {
        md5: "4bdef9e50733b208c6898e0d97d27205",
        sha1: "96Dt3S+HmavdIrCCixjrCkyHP/0",
        sha256: "3RqJv+U+rID/PWnHlHGMKi0ImCnYIBiN6s407Aagwf8",
    },
    Digests {
        md5: "d21c62c0528a0804d1e26a650b2225d8",
        sha1: "TOTpayhu9gLYpXn/lzjr1vxQfBg",
        sha256: "FpnJhY7iV4qPjNZlwD1Kvdj1ATqNTRC+fVt2SM5ZzRg",
    },
    Digests {
        md5: "e09944de6f5cd49367be41a37378ef44",
        sha1: "AH99W9b1TG1kU8aL2IAqynBZZF8",
        sha256: "J/rMeRObEXIwgT1QI2TPs1pqX1fNelRnUROKTKkmL6Y",
    },
    Digests {
        md5: "5c7d05b1a50fe8f227a9044b44bb96eb",
        sha1: "D4eMfJyUnlghQfBQkLZHZfyd4yI",
        sha256: "Ew6ViDEg6ErCaYjqZc28HPnYTCmoyFybAR8AT7sf++M",
    },
    Digests {
        md5: "13360596d2595e51cd75a52a32d9c2c5",
        sha1: "W3/hao7HWSuJL3supL8DX6o1FGs",
        sha256: "Oo1gW4oztBjDOcb7HLAuIJ/8KFD1h2LmBei/B9VMdPM",
    },
];

/// The command writes the text for both forms of the private key, and for the public line.
fn writes_for_each(
    alloc: Global,
    command: &str,
    row: &PpkRow,
    key: &PrivateRow,
    text: &str,
) -> Result<bool, Fail> {
    for version in VERSIONS {
        if !writes_for_file(alloc, command, row, version, text)? {
            return Ok(false);
        }
    }
    Ok(writes(alloc, command, key.text, text)? && writes(alloc, command, key.line, text)?)
}

fn writes_for_file(
    alloc: Global,
    command: &str,
    row: &PpkRow,
    version: PpkVersion,
    text: &str,
) -> Result<bool, Fail> {
    let file = ManuallyDrop::new(text_of(alloc, row, version)?);
    writes(alloc, command, file.as_str(), text)
}

/// The line that PuTTYgen prints, with CR LF.
fn line_of(alloc: Global, key: &PrivateRow) -> Result<String, Fail> {
    let space = if key.comment.is_empty() { " " } else { "" };
    Ok(format!(in alloc; "{}{space}\r\n", key.line)?)
}

fn writes_line(alloc: Global, row: &PpkRow, key: &PrivateRow) -> Result<bool, Fail> {
    let text = ManuallyDrop::new(line_of(alloc, key)?);
    writes_for_each(alloc, "ssh-pub", row, key, text.as_str())
}

#[test]
fn writes_the_line_of_puttygen_for_each_form(rt: HostRuntime) -> Result<(), Fail> {
    for (row, key) in PPK_ROWS.iter().zip(&PRIVATE_ROWS) {
        assert!(rt; writes_line(rt.alloc(), row, key)?, "{}", row.name);
    }
    Ok(())
}

/// The three lines of a key's digests.
fn lines_of(alloc: Global, digests: Digests) -> Result<String, Fail> {
    let Digests { md5, sha1, sha256 } = digests;
    Ok(format!(in alloc; "MD5:{md5}\nSHA1:{sha1}\nSHA256:{sha256}\n")?)
}

fn prints_digests(
    alloc: Global,
    row: &PpkRow,
    key: &PrivateRow,
    digests: Digests,
) -> Result<bool, Fail> {
    let text = ManuallyDrop::new(lines_of(alloc, digests)?);
    writes_for_each(alloc, "fingerprint", row, key, text.as_str())
}

fn prints_digests_of_putty_public(alloc: Global) -> Result<bool, Fail> {
    let text = ManuallyDrop::new(lines_of(alloc, DIGESTS[1])?);
    writes(alloc, "fingerprint", PUBLIC, text.as_str())
}

#[test]
fn prints_the_same_digests_for_each_form(rt: HostRuntime) -> Result<(), Fail> {
    let keys = PPK_ROWS.iter().zip(&PRIVATE_ROWS);
    for ((row, key), digests) in keys.zip(&DIGESTS) {
        assert!(rt;
            prints_digests(rt.alloc(), row, key, *digests)?,
            "{}",
            row.name
        );
    }
    assert!(rt; prints_digests_of_putty_public(rt.alloc())?);
    Ok(())
}

/// The row of the key of V2.
fn writes_line_of_picky(alloc: Global, row: &KeyRow) -> Result<bool, Fail> {
    let text = ManuallyDrop::new(format!(in alloc; "{}\r\n", row.line)?);
    writes(alloc, "ssh-pub", V2, text.as_str())
}

/// For the private key, and for its public line with CR LF.
fn prints_digests_of_picky(alloc: Global, row: &KeyRow) -> Result<bool, Fail> {
    let digests = Digests {
        md5: row.md5,
        sha1: row.sha1,
        sha256: row.sha256,
    };
    let text = ManuallyDrop::new(lines_of(alloc, digests)?);
    let line = ManuallyDrop::new(format!(in alloc; "{}\r\n", row.line)?);
    Ok(
        writes(alloc, "fingerprint", V2, text.as_str())?
            && writes(alloc, "fingerprint", line.as_str(), text.as_str())?,
    )
}

#[test]
fn takes_the_public_key_out_of_the_text_of_picky(rt: HostRuntime) -> Result<(), Fail> {
    let row = &KEY_ROWS[7];
    assert!(rt; writes_line_of_picky(rt.alloc(), row)?);
    assert!(rt; prints_digests_of_picky(rt.alloc(), row)?);
    Ok(())
}
