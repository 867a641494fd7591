//! What PuTTY's private key files are made of: the fields of PuTTYgen's texts, the parts of ssh-keygen's keys, how long the
//! counted strings are, and what a MAC covers.

use crate::answers::{gives, kept};
use crate::sealing_and_opening::is_hex;
use picky_key_rows::{
    PPK_ROWS, PRIVATE_ROWS, PpkRow, PrivateRow, SEALED_V3, VERSIONS, text_of, unsealed,
};
use picky_keys::SshPublicKey;
use picky_kv::PpkLiteral;
use picky_ppk::{PpkFile, PpkKeyAlgorithm, PpkSealing, PpkVersion};
use picky_ppk_parts::{KeyParts, counted_len, key_in_blob, mac_input, private_key_of};
use picky_sshkey::SshBasePrivateKey;
use picky_suite::hmac_sha256;
use picky_text::encode;
use std::alloc::Global;
use std::mem::ManuallyDrop;
use std::test::Fail;

/// The fields of the row's text.
fn row_file(
    alloc: Global,
    row: &PpkRow,
    version: PpkVersion,
) -> Result<ManuallyDrop<PpkFile>, Fail> {
    let text = kept(text_of(alloc, row, version))?;
    kept(PpkFile::from_str(alloc, text.as_str()))
}

/// The body ends in the blocks of these bytes.
fn has_blocks(alloc: Global, body: &str, public: &[u8], private: &[u8]) -> Result<bool, Fail> {
    let lines = kept(body.replace(alloc, "\n", ""))?;
    let blob = kept(encode(alloc, public))?;
    let secret = kept(encode(alloc, private))?;
    let blob_rows = blob.len().div_ceil(64);
    let rows = secret.len().div_ceil(64);
    let blocks = kept(format!(in alloc;
        "Public-Lines: {blob_rows}{}Private-Lines: {rows}{}",
        blob.as_str(),
        secret.as_str()
    ))?;
    Ok(lines.ends_with(blocks.as_str()))
}

/// The row's text has the row's fields.
fn has_fields(alloc: Global, row: &PpkRow, version: PpkVersion) -> Result<bool, Fail> {
    let file = row_file(alloc, row, version)?;
    let mac = match version {
        PpkVersion::V2 => row.mac_v2,
        PpkVersion::V3 => row.mac_v3,
    };
    let sealing = ManuallyDrop::new(PpkSealing::Unsealed(version));
    let blob = file.public_key.as_slice();
    Ok(
        file.sealing == *sealing
            && file.algorithm == row.algorithm
            && file.comment.as_str() == row.comment
            && has_blocks(alloc, row.body, blob, file.private_bytes.as_slice())?
            && is_hex(alloc, file.mac.as_slice(), mac)?,
    )
}

// Of SEALED_V3, by Python: base64.b64decode(private).hex(); its MAC as it stands there.
const SEALED_PRIVATE: &str = "7e87dd509ef60869517a20206e27ef0c4b7f8699c050be67d834b5dc315c59c4\
    104e3affc3d5ef71703ebaa07816d1cb";

const SEALED_MAC: &str = "b1fd97ed7729b8859f0e488c9fe68d3c1c89726e3cbb34e617eab9cdd55b20a5";

/// The sealed text has its fields, and the blob of the open text of the same key.
fn has_sealed_fields(alloc: Global) -> Result<bool, Fail> {
    let file = kept(PpkFile::from_str(alloc, SEALED_V3))?;
    let open = row_file(alloc, &PPK_ROWS[1], PpkVersion::V3)?;
    Ok(
        file.sealing.is_sealed()
            && file.algorithm == PpkKeyAlgorithm::EcdsaSha2Nistp256
            && file.comment.as_str() == "a comment"
            && file.public_key == open.public_key
            && is_hex(alloc, file.private_bytes.as_slice(), SEALED_PRIVATE)?
            && is_hex(alloc, file.mac.as_slice(), SEALED_MAC)?,
    )
}

#[test]
fn reads_the_fields_of_puttygen(rt: HostRuntime) -> Result<(), Fail> {
    for row in &PPK_ROWS {
        for version in VERSIONS {
            let alloc = rt.alloc();
            assert!(rt;
                has_fields(alloc, row, version)?,
                "{}, {version:?}",
                row.name
            );
        }
    }
    assert!(rt; has_sealed_fields(rt.alloc())?);
    Ok(())
}

/// The key of ssh-keygen has the parts of PuTTYgen's file.
fn makes_parts(alloc: Global, key: &SshBasePrivateKey, file: &PpkFile) -> Result<bool, Fail> {
    let parts = kept(KeyParts::of_key(alloc, key))?;
    Ok(
        parts.algorithm == file.algorithm
            && parts.blob == file.public_key
            && parts.private_bytes == file.private_bytes,
    )
}

/// The file's parts have the keys of ssh-keygen.
fn has_keys(
    alloc: Global,
    file: &PpkFile,
    key: &SshBasePrivateKey,
    line: &str,
) -> Result<bool, Fail> {
    let public = kept(SshPublicKey::from_str(alloc, line))?;
    let private = private_key_of(alloc, file.algorithm, &file.public_key, &file.private_bytes);
    Ok(gives(private, key)? && gives(key_in_blob(alloc, &file.public_key), &public.inner_key)?)
}

fn is_row_of_key(alloc: Global, row: &PpkRow, key_row: &PrivateRow) -> Result<bool, Fail> {
    let file = row_file(alloc, row, PpkVersion::V3)?;
    let key = ManuallyDrop::new(unsealed(alloc, key_row.text)?);
    Ok(
        makes_parts(alloc, &key.base_key, &file)?
            && has_keys(alloc, &file, &key.base_key, key_row.line)?,
    )
}

#[test]
fn has_the_parts_of_ssh_keygens_keys(rt: HostRuntime) -> Result<(), Fail> {
    for (row, key_row) in PPK_ROWS.iter().zip(&PRIVATE_ROWS) {
        assert!(rt; is_row_of_key(rt.alloc(), row, key_row)?, "{}", row.name);
    }
    Ok(())
}

// openssl enc -d -aes-256-cbc -nopad -K $key -iv 0 of SEALED_V2's private bytes, under the key of
// derives_the_key_of_puttygen_in_version_2: the 36 bytes of the open file, and a padding of 12.
const PADDED: &[u8] = b"\x00\x00\x00\x20\x17\x96\xce\x67\x13\xe2\xc6\x53\xee\x31\x92\xb8\
    \xd4\xae\xdf\xa3\x9f\xeb\x84\x20\x8c\x61\x39\x70\xc8\x06\xc0\xbd\
    \x2a\x65\xbe\x13\xa2\xbe\xe2\x20\xc3\x86\xc1\x3d\x85\xaf\xa3\xa6";

/// The private bytes of PuTTYgen's open file are counted whole.
fn counts_all(alloc: Global, row: &PpkRow) -> Result<bool, Fail> {
    let file = row_file(alloc, row, PpkVersion::V3)?;
    let private = file.private_bytes.as_slice();
    gives(counted_len(row.algorithm, private), &private.len())
}

#[test]
fn counts_the_strings_before_a_padding(rt: HostRuntime) -> Result<(), Fail> {
    for row in &PPK_ROWS {
        assert!(rt; counts_all(rt.alloc(), row)?, "{}", row.name);
    }
    let len = counted_len(PpkKeyAlgorithm::EcdsaSha2Nistp256, PADDED);
    assert!(rt; gives(len, &36)?);
    Ok(())
}

// s = lambda b: len(b).to_bytes(4, "big") + b
// print(b"".join(map(s, (b"ssh-ed25519", b"none", b"hello", b"blob", b"private"))).hex())
const COVERED: &str = "0000000b7373682d65643235353139000000046e6f6e650000000568656c6c6f\
    00000004626c6f620000000770726976617465";

fn covers_five_strings(alloc: Global) -> Result<bool, Fail> {
    let input = kept(mac_input(alloc, "ssh-ed25519", "none", "hello", b"blob", b"private"))?;
    is_hex(alloc, input.as_slice(), COVERED)
}

/// HMAC-SHA-256 of what is covered, under an empty key, is PuTTYgen's MAC in version 3.
fn has_mac(alloc: Global, row: &PpkRow) -> Result<bool, Fail> {
    let file = row_file(alloc, row, PpkVersion::V3)?;
    let input = kept(mac_input(
        alloc,
        row.algorithm.as_static_str(),
        "none",
        row.comment,
        file.public_key.as_slice(),
        file.private_bytes.as_slice(),
    ))?;
    is_hex(alloc, &hmac_sha256(b"", input.as_slice()), row.mac_v3)
}

#[test]
fn covers_what_puttygens_mac_covers(rt: HostRuntime) -> Result<(), Fail> {
    assert!(rt; covers_five_strings(rt.alloc())?);
    for row in &PPK_ROWS {
        assert!(rt; has_mac(rt.alloc(), row)?, "{}", row.name);
    }
    Ok(())
}
