//! OpenSSH private keys without a passphrase: texts of other programs, read and written.

use crate::blob::key_of;
use picky_key_rows::{PRIVATE_ROWS, PrivateRow, V2, ZERO_KEY, unsealed, zero_key};
use picky_keys::PrivateKey;
use picky_sshkey::{Kdf, KdfOption, PrivateKeyRef, SshPrivateKey, parse_pem};
use picky_suite::PlainSuite;
use picky_wire::{
    Bytes, MemorySink, SliceSource, SshComplexTypeDecode, SshComplexTypeEncode, Text, TryClone,
};
use std::alloc::Global;
use std::mem::ManuallyDrop;
use std::test::Fail;

/// The text that is written for a key without a passphrase.
fn written(alloc: Global, key: &SshPrivateKey) -> Result<Text, Fail> {
    let mut suite = PlainSuite::new();
    Ok(key.to_string(alloc, &mut suite)?)
}

/// This text is written for the key.
fn is_written(alloc: Global, key: &SshPrivateKey, wanted: &str) -> Result<bool, Fail> {
    let text = ManuallyDrop::new(written(alloc, key)?);
    Ok(text.as_str() == wanted)
}

/// The key is read of its envelope's bytes.
fn is_kept_by_pem(alloc: Global, key: &SshPrivateKey) -> Result<bool, Fail> {
    let mut suite = PlainSuite::new();
    let pem = ManuallyDrop::new(key.to_pem(alloc, &mut suite)?);
    let made = ManuallyDrop::new(SshPrivateKey::from_pem(alloc, &mut suite, &pem, None)?);
    Ok(*made == *key)
}

#[test]
fn writes_the_text_of_picky_again(rt: HostRuntime) -> Result<(), Fail> {
    let key = ManuallyDrop::new(unsealed(rt.alloc(), V2)?);
    assert!(rt; is_written(rt.alloc(), &key, V2)?);
    assert!(rt; key.cipher_name.as_str() == "none" && key.comment.as_str() == "test2@picky.com");
    assert!(rt; is_kept_by_pem(rt.alloc(), &key)?);
    Ok(())
}

/// The text is that of this key.
fn says(alloc: Global, text: &str, key: &SshPrivateKey) -> Result<bool, Fail> {
    let made = ManuallyDrop::new(unsealed(alloc, text)?);
    Ok(*made == *key)
}

#[test]
fn writes_a_key_that_is_made(rt: HostRuntime) -> Result<(), Fail> {
    let key = ManuallyDrop::new(zero_key(rt.alloc(), None)?);
    assert!(rt; is_written(rt.alloc(), &key, ZERO_KEY)?);
    assert!(rt; says(rt.alloc(), ZERO_KEY, &key)?);
    let unbroken = ManuallyDrop::new(ZERO_KEY.replace(rt.alloc(), "\n", "")?);
    assert!(rt; says(rt.alloc(), unbroken.as_str(), &key)?);
    Ok(())
}

/// What options the bytes say, and how these are written.
struct OptionRow {
    name: &'static str,
    bytes: &'static [u8],
    salt: &'static [u8],
    rounds: u32,
    spelled: &'static [u8],
}

// OpenSSH's PROTOCOL.key, section 2, and RFC 4251, section 5: a string of string salt and uint32 rounds, or of nothing.
static OPTION_ROWS: [OptionRow; 4] = [
    OptionRow {
        name: "a salt of 16 bytes",
        bytes: b"\0\0\0\x18\0\0\0\x10saltsaltsaltsalt\0\0\0\x10",
        salt: b"saltsaltsaltsalt",
        rounds: 16,
        spelled: b"\0\0\0\x18\0\0\0\x10saltsaltsaltsalt\0\0\0\x10",
    },
    OptionRow {
        name: "nothing",
        bytes: b"\0\0\0\0",
        salt: b"",
        rounds: 0,
        spelled: b"\0\0\0\0",
    },
    OptionRow {
        name: "no salt and no rounds, spelled out",
        bytes: b"\0\0\0\x08\0\0\0\0\0\0\0\0",
        salt: b"",
        rounds: 0,
        spelled: b"\0\0\0\0",
    },
    OptionRow {
        name: "bytes after the rounds",
        bytes: b"\0\0\0\x0d\0\0\0\x01s\0\0\0\x07more",
        salt: b"s",
        rounds: 7,
        spelled: b"\0\0\0\x09\0\0\0\x01s\0\0\0\x07",
    },
];

/// The bytes say the options, to their end, and these are written so.
fn is_said(alloc: Global, row: &OptionRow) -> Result<bool, Fail> {
    let salt = Bytes::new(alloc, row.salt)?;
    let rounds = row.rounds;
    let option = ManuallyDrop::new(KdfOption { salt, rounds });
    let mut source = SliceSource::new(row.bytes);
    let read = ManuallyDrop::new(KdfOption::decode(alloc, &mut source)?);
    let mut sink = ManuallyDrop::new(MemorySink::new(alloc, 99, 7, &[])?);
    option.encode(&mut *sink)?;
    Ok(*read == *option && source.rest().is_empty() && sink.written() == row.spelled)
}

#[test]
fn reads_and_writes_the_options_of_a_derivation(rt: HostRuntime) -> Result<(), Fail> {
    for row in &OPTION_ROWS {
        assert!(rt; is_said(rt.alloc(), row)?, "{}", row.name);
    }
    Ok(())
}

/// What is written of the row's key is read as the same key, and has the row's content.
fn is_kept(alloc: Global, row: &PrivateRow, key: &SshPrivateKey) -> Result<bool, Fail> {
    let text = ManuallyDrop::new(written(alloc, key)?);
    let pem = ManuallyDrop::new(parse_pem(alloc, text.as_str())?);
    let wanted = ManuallyDrop::new(parse_pem(alloc, row.text)?);
    Ok(*pem == *wanted && says(alloc, text.as_str(), key)?)
}

/// The key has the row's comment and public key, and shows its secret where no device has it.
fn is_of_its_line(alloc: Global, row: &PrivateRow, key: &SshPrivateKey) -> Result<bool, Fail> {
    let public = ManuallyDrop::new(key_of(alloc, row.line)?);
    let part = ManuallyDrop::new(key.base_key().base_public_key(alloc)?);
    let moved = ManuallyDrop::new(key.base_key().try_clone(alloc)?.into_public());
    let blob = ManuallyDrop::new(key.base_key().public_blob(alloc)?);
    let wanted = ManuallyDrop::new(public.to_blob(alloc)?);
    Ok(
        key.public_key().inner_key == *public
            && *part == *public
            && *moved == *public
            && *blob == *wanted
            && key.comment.as_str() == row.comment
            && key.inner_key().is_none() == row.is_security_key_kind,
    )
}

/// The rows. Who calls it doesn't see their texts: a proof that copied them all would be long.
pub fn private_rows() -> &'static [PrivateRow] {
    &PRIVATE_ROWS
}

// ssh-keygen pads an aligned block by nothing, and here it gets eight bytes; no block of the rows is aligned.
#[test]
fn reads_and_writes_the_keys_of_ssh_keygen(rt: HostRuntime) -> Result<(), Fail> {
    for row in private_rows() {
        let key = ManuallyDrop::new(unsealed(rt.alloc(), row.text)?);
        assert!(rt; is_kept(rt.alloc(), row, &key)?, "{}", row.name);
        assert!(rt; is_of_its_line(rt.alloc(), row, &key)?, "{}", row.name);
    }
    Ok(())
}

fn bare_key(alloc: Global) -> Result<SshPrivateKey, Fail> {
    let private = PrivateKey::Ed {
        secret: [0; 32],
        public: [0; 32],
    };
    Ok(SshPrivateKey::from_private_key(alloc, private)?)
}

/// It is the other key without its comment.
fn is_uncommented(key: &SshPrivateKey, commented: &SshPrivateKey) -> bool {
    let is_same = key.base_key == commented.base_key && key.public_key == commented.public_key;
    is_same
        && key.check == commented.check
        && key.passphrase.is_none()
        && key.comment.as_str() == ""
}

/// It isn't sealed, and shows its secret.
fn is_plain(alloc: Global, key: &SshPrivateKey) -> Result<bool, Fail> {
    let zeros = PrivateKeyRef::Ed {
        secret: &[0; 32],
        public: &[0; 32],
    };
    let kdf = ManuallyDrop::new(Kdf::plain(alloc)?);
    Ok(key.inner_key() == Some(zeros) && key.kdf == *kdf)
}

#[test]
fn makes_a_key_without_a_passphrase_of_its_parts(rt: HostRuntime) -> Result<(), Fail> {
    let key = ManuallyDrop::new(bare_key(rt.alloc())?);
    let commented = ManuallyDrop::new(zero_key(rt.alloc(), None)?);
    assert!(rt; is_uncommented(&key, &commented));
    assert!(rt; is_plain(rt.alloc(), &key)?);
    Ok(())
}

/// `encode` writes the content of what `to_pem` gives.
fn is_encoded(alloc: Global, key: &SshPrivateKey) -> Result<bool, Fail> {
    let mut suite = PlainSuite::new();
    let mut sink = ManuallyDrop::new(MemorySink::new(alloc, 999, 7, &[])?);
    key.encode(alloc, &mut suite, &mut *sink)?;
    let pem = ManuallyDrop::new(key.to_pem(alloc, &mut suite)?);
    Ok(pem.content() == sink.written())
}

/// The text is that of what `to_pem` gives, and a last LF.
fn is_armoured(alloc: Global, key: &SshPrivateKey) -> Result<bool, Fail> {
    let mut suite = PlainSuite::new();
    let pem = ManuallyDrop::new(key.to_pem(alloc, &mut suite)?);
    let lines = ManuallyDrop::new(pem.to_string(alloc)?);
    let text = ManuallyDrop::new(written(alloc, key)?);
    Ok(text.as_str().strip_suffix("\n") == Some(lines.as_str()))
}

#[test]
fn writes_the_same_by_each_call(rt: HostRuntime) -> Result<(), Fail> {
    let key = ManuallyDrop::new(bare_key(rt.alloc())?);
    assert!(rt; is_encoded(rt.alloc(), &key)?);
    assert!(rt; is_armoured(rt.alloc(), &key)?);
    Ok(())
}
