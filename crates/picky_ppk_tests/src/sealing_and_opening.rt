//! Sealed PuTTY private key files: PuTTYgen's, read and written, and those of the suite for tests, whose cipher is a toy.

use crate::answers::{gives, is_text, kept};
use crate::ppk_and_openssh::{is_kept, p256_ppk, ppk_of, row_ppk};
use picky_key_rows::{
    CONFIG, PASS, PPK_ROWS, PpkRow, SEALED_V2, SEALED_V3, TOY_V2, TOY_V3, hex_of,
};
use picky_ppk::aes::make_padding;
use picky_ppk::{
    Argon2Flavour, Argon2Params, KeyMaterialV2, KeyMaterialV3, Ppk, PpkFile, PpkKeyAlgorithm,
    PpkVersion,
};
use picky_suite::MemorySuite;
use picky_wire::{Bytes, SizeError, TryClone};
use rand_pcg::Pcg32;
use std::alloc::Global;
use std::mem::ManuallyDrop;
use std::test::Fail;

pub const SALT: &[u8] = b"saltsaltsaltsalt";

/// Of which a file takes as many bytes as it lacks.
pub const PADDING: &[u8] = b"twelve bytes or more";

/// The text with CR LF, as version 2 has it.
fn is_kept_with_crlf(alloc: Global, text: &str) -> Result<bool, Fail> {
    let with_crlf = kept(text.replace(alloc, "\n", "\r\n"))?;
    is_kept(alloc, with_crlf.as_str())
}

#[test]
fn reads_and_writes_the_sealed_files_of_puttygen(rt: HostRuntime) -> Result<(), Fail> {
    assert!(rt; is_kept(rt.alloc(), SEALED_V3)?);
    assert!(rt; is_kept_with_crlf(rt.alloc(), SEALED_V2)?);
    Ok(())
}

/// The file is the sealed one of the P-256 key.
fn is_sealed_row(ppk: &Ppk, version: PpkVersion) -> bool {
    ppk.is_encrypted()
        && ppk.version() == version
        && ppk.algorithm() == PpkKeyAlgorithm::EcdsaSha2Nistp256
        && ppk.comment() == "a comment"
        && ppk.padding_len() == 0
        && ppk.argon2_params().is_some() == (version == PpkVersion::V3)
}

/// Its public key is shown.
fn shows_public(alloc: Global, ppk: &Ppk) -> Result<bool, Fail> {
    let open = p256_ppk(alloc, PpkVersion::V3)?;
    let wanted = kept(open.public_key(alloc))?;
    gives(ppk.public_key(alloc), &*wanted)
}

/// What Argon2 is run with in the sealed files of version 3, but for the salt.
fn params(alloc: Global, salt: &[u8]) -> Result<Argon2Params, SizeError> {
    let salt = Bytes::new(alloc, salt)?;
    Ok(Argon2Params {
        flavor: Argon2Flavour::Argon2id,
        memory: 8,
        passes: 1,
        parallelism: 1,
        salt,
    })
}

// The salt in SEALED_V3.
const SEALED_SALT: &[u8] = b"\xc5\x63\x9f\x04\xb9\xab\xb4\x49\x97\x9f\xef\x76\x43\x3e\xd2\xc8";

/// The file's are a copy of these.
fn shows_params(alloc: Global) -> Result<bool, Fail> {
    let ppk = kept(ppk_of(alloc, SEALED_V3))?;
    let params = kept(params(alloc, SEALED_SALT))?;
    let copy = kept(params.try_clone(alloc))?;
    Ok(ppk.argon2_params() == Some(&*copy))
}

fn is_shown(alloc: Global, text: &str, version: PpkVersion) -> Result<bool, Fail> {
    let ppk = kept(ppk_of(alloc, text))?;
    Ok(
        is_sealed_row(&ppk, version)
            && shows_public(alloc, &ppk)?
            && gives(ppk.try_clone(alloc), &*ppk)?,
    )
}

#[test]
fn shows_the_fields_of_a_sealed_file(rt: HostRuntime) -> Result<(), Fail> {
    assert!(rt; is_shown(rt.alloc(), SEALED_V3, PpkVersion::V3)?);
    assert!(rt; is_shown(rt.alloc(), SEALED_V2, PpkVersion::V2)?);
    assert!(rt; shows_params(rt.alloc())?);
    Ok(())
}

/// The file sealed by the suite for tests.
fn sealed_of(alloc: Global, ppk: &Ppk) -> Result<ManuallyDrop<Ppk>, Fail> {
    let mut suite = kept(MemorySuite::new(alloc, &[]))?;
    let padding = &PADDING[..ppk.padding_len()];
    kept(ppk.encrypt(alloc, &mut *suite, PASS, CONFIG, SALT, padding))
}

/// The sealed file is opened as the other, and so is a copy that is moved.
fn opens_to(alloc: Global, sealed: &Ppk, ppk: &Ppk) -> Result<bool, Fail> {
    let mut suite = kept(MemorySuite::new(alloc, &[]))?;
    let copy = sealed.try_clone(alloc)?;
    Ok(
        gives(sealed.decrypt(alloc, &mut *suite, PASS), ppk)?
            && gives(copy.into_decrypted(alloc, &mut *suite, PASS), ppk)?,
    )
}

/// The file of the P-256 key is sealed as the text, and opened again.
fn seals_as(alloc: Global, version: PpkVersion, text: &str) -> Result<bool, Fail> {
    let ppk = p256_ppk(alloc, version)?;
    let sealed = sealed_of(alloc, &ppk)?;
    Ok(is_text(sealed.to_string(alloc), text)? && opens_to(alloc, &sealed, &ppk)?)
}

/// So it is where the file is moved.
fn is_moved_and_sealed(alloc: Global) -> Result<bool, Fail> {
    let ppk = ManuallyDrop::into_inner(p256_ppk(alloc, PpkVersion::V3)?);
    let mut suite = kept(MemorySuite::new(alloc, &[]))?;
    let padding = &PADDING[..ppk.padding_len()];
    let sealed = kept(ppk.into_encrypted(alloc, &mut *suite, PASS, CONFIG, SALT, padding))?;
    is_text(sealed.to_string(alloc), TOY_V3)
}

#[test]
fn seals_and_opens_as_python_does(rt: HostRuntime) -> Result<(), Fail> {
    assert!(rt; seals_as(rt.alloc(), PpkVersion::V3, TOY_V3)?);
    assert!(rt; is_moved_and_sealed(rt.alloc())?);
    let with_crlf = kept(TOY_V2.replace(rt.alloc(), "\n", "\r\n"))?;
    assert!(rt; seals_as(rt.alloc(), PpkVersion::V2, with_crlf.as_str())?);
    Ok(())
}

fn comes_back(alloc: Global, row: &PpkRow, version: PpkVersion) -> Result<bool, Fail> {
    let ppk = row_ppk(alloc, row, version)?;
    let sealed = sealed_of(alloc, &ppk)?;
    opens_to(alloc, &sealed, &ppk)
}

#[test]
fn opens_what_it_seals(rt: HostRuntime) -> Result<(), Fail> {
    for row in &PPK_ROWS {
        for version in [PpkVersion::V2, PpkVersion::V3] {
            assert!(rt;
                comes_back(rt.alloc(), row, version)?,
                "{}, {version:?}",
                row.name
            );
        }
    }
    Ok(())
}

// What O'Neill's PCG32 gives for the state 42 and the stream 54, whose first words the tables of the crate rand_pcg have too:
// M, inc = 2 ** 64 - 1, 2 * 54 + 1
// step = lambda x: x * 6364136223846793005 + inc & M
// x = step(step(0) + 42 & M)
// for _ in range(8):
//     w, r = (x >> 18 ^ x) >> 27 & 0xffffffff, x >> 59
//     print(((w >> r | w << (-r & 31)) & 0xffffffff).to_bytes(4, "little").hex())
//     x = step(x)
const FIRST: &[u8; 16] = b"\xb7\x02\x5c\xa1\x09\xf4\x47\x7b\x30\x33\x1d\xba\x93\xf2\xd2\x83";

const SECOND: &[u8; 16] = b"\x4b\x78\xa4\xbf\x6e\x60\xed\xcb\xad\xa3\xc6\xbf\x6d\xff\x2f\x81";

/// The file sealed with a salt, and a padding from these bytes.
fn sealed_with(
    alloc: Global,
    ppk: &Ppk,
    salt: &[u8; 16],
    bytes: &[u8; 16],
) -> Result<ManuallyDrop<Ppk>, Fail> {
    let mut suite = kept(MemorySuite::new(alloc, &[]))?;
    let padding = &bytes[..ppk.padding_len()];
    kept(ppk.encrypt(alloc, &mut *suite, PASS, CONFIG, salt, padding))
}

/// The generator gives this salt, and a padding from these bytes.
fn draws(
    alloc: Global,
    version: PpkVersion,
    salt: &[u8; 16],
    bytes: &[u8; 16],
) -> Result<bool, Fail> {
    let ppk = p256_ppk(alloc, version)?;
    let sealed = sealed_with(alloc, &ppk, salt, bytes)?;
    let mut suite = kept(MemorySuite::new(alloc, &[]))?;
    let mut rng = Pcg32::new(42, 54);
    gives(
        ppk.encrypt_with_rng(alloc, &mut *suite, PASS, CONFIG, &mut rng),
        &*sealed,
    )
}

// The first twelve bytes of FIRST, and then its last four: for whole blocks between them the generator isn't asked.
const FILLED: &[u8; 16] = b"four\xb7\x02\x5c\xa1\x09\xf4\x47\x7b\x30\x33\x1d\xba";

const FILLED_NEXT: &[u8; 16] = b"twelve bytes\x93\xf2\xd2\x83";

/// The message, filled up to whole blocks by the generator.
fn filled(alloc: Global, message: &[u8], rng: &mut Pcg32) -> Result<Bytes, SizeError> {
    let message = Bytes::new(alloc, message)?;
    make_padding(message, rng)
}

fn fills_blocks(alloc: Global) -> Result<bool, Fail> {
    let mut rng = Pcg32::new(42, 54);
    let first = kept(filled(alloc, b"four", &mut rng))?;
    let whole = kept(filled(alloc, SALT, &mut rng))?;
    let next = kept(filled(alloc, b"twelve bytes", &mut rng))?;
    Ok(
        first.as_slice() == FILLED.as_slice()
            && whole.as_slice() == SALT
            && next.as_slice() == FILLED_NEXT.as_slice(),
    )
}

// Version 2 has no salt.
#[test]
fn draws_a_salt_and_then_a_padding(rt: HostRuntime) -> Result<(), Fail> {
    assert!(rt; draws(rt.alloc(), PpkVersion::V3, FIRST, SECOND)?);
    assert!(rt; draws(rt.alloc(), PpkVersion::V2, SECOND, FIRST)?);
    assert!(rt; fills_blocks(rt.alloc())?);
    Ok(())
}

/// The bytes are these in hex.
pub fn is_hex(alloc: Global, bytes: &[u8], hex: &str) -> Result<bool, Fail> {
    let text = kept(hex_of(alloc, bytes))?;
    Ok(text.as_str() == hex)
}

// printf '\0\0\0\0pass' | sha1sum; printf '\0\0\0\1pass' | sha1sum; the first 64 digits of both together. With this key
// `openssl enc -d -aes-256-cbc -nopad -K $key -iv 0` gives for SEALED_V2's private bytes those of the P-256 key.
#[test]
fn derives_the_key_of_puttygen_in_version_2(rt: HostRuntime) -> Result<(), Fail> {
    let material = ManuallyDrop::new(KeyMaterialV2::derive("pass"));
    let wanted = "a29e49726b1ebcf350e0d5af740ff41d2143228a4308cd1349407aca6755db79";
    assert!(rt; is_hex(rt.alloc(), material.key(), wanted)?);
    assert!(rt; KeyMaterialV2::iv() == [0; 16]);
    Ok(())
}

// Of D in picky_key_rows::ppk_texts: D[:32].hex(), D[32:48].hex(), D[48:80].hex()
const KEY: &str = "506a4b2573d1c741c0ce4c93734f6a225ea38d53097044fb95e702a25e550562";

const IV: &str = "bae6cc3eb5b515c9d85b84d4fde59cd2";

const MAC_KEY: &str = "d73fe4b3caa3ab43d0f2dadb6622cd59c146a513b91ec4542b7af1c81de0760a";

/// The three keys are these.
fn cuts_keys(alloc: Global) -> Result<bool, Fail> {
    let mut suite = kept(MemorySuite::new(alloc, &[]))?;
    let params = kept(params(alloc, SALT))?;
    let material = kept(KeyMaterialV3::derive(&mut *suite, &params, PASS))?;
    Ok(
        is_hex(alloc, material.key(), KEY)?
            && is_hex(alloc, material.iv(), IV)?
            && is_hex(alloc, material.hmac_key(), MAC_KEY)?,
    )
}

#[test]
fn cuts_the_keys_of_version_3(rt: HostRuntime) -> Result<(), Fail> {
    assert!(rt; cuts_keys(rt.alloc())?);
    Ok(())
}
