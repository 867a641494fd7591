//! The keys and values of PuTTY's private key files: the manual's literals, each in its case alone, and
//! the values beside them.

use picky_kv::{
    Argon2FlavourValue, Base64PpkValue, HexPpkValue, PpkArgon2MemoryKey, PpkArgon2MemoryValue,
    PpkArgon2ParallelismKey, PpkArgon2ParallelismValue, PpkArgon2PassesKey, PpkArgon2PassesValue,
    PpkArgon2SaltKey, PpkCommentKey, PpkCommentValue, PpkEncryptionKey, PpkEncryptionValue,
    PpkField, PpkKeyAlgorithmValue, PpkKeyDerivationKey, PpkLiteral, PpkPrivateLinesKey,
    PpkPrivateMacKey, PpkPublicLinesKey, PpkSingle, PpkValueError, PpkValueParsingError,
    PpkVersionKey,
};
use picky_wire::{Bytes, SizeError, Text};
use std::alloc::{AllocError, AllocGlobal, Global};
use std::mem::ManuallyDrop;
use std::process::Abort;
use std::test::Fail;

fn with_letter_changed(alloc: Global, text: &str, at: usize) -> Result<String, AllocError> {
    let mut changed = ManuallyDrop::new(String::new(alloc));
    for (i, c) in text.chars().enumerate() {
        let other = if c.is_ascii_lowercase() {
            c.to_ascii_uppercase()
        } else {
            c.to_ascii_lowercase()
        };
        changed.push(if i != at {
            c
        } else if other == c {
            '_'
        } else {
            other
        })?;
    }
    Ok(ManuallyDrop::into_inner(changed))
}

/// The refusal of this text where others were expected.
pub fn parsing_error(
    alloc: Global,
    expected: &str,
    actual: &str,
) -> Result<PpkValueParsingError, SizeError> {
    let expected = ManuallyDrop::new(Text::new(alloc, expected)?);
    let actual = Text::new(alloc, actual)?;
    Ok(PpkValueParsingError {
        expected: ManuallyDrop::into_inner(expected),
        actual,
    })
}

/// The text is refused where others were expected.
fn refuses<T: PpkField>(alloc: Global, expected: &str, text: &str) -> Result<bool, SizeError> {
    let wanted = parsing_error(alloc, expected, text)?;
    let wanted = ManuallyDrop::new(Some(PpkValueError::Parsing(wanted)));
    let refused = ManuallyDrop::new(T::read(alloc, text).err());
    Ok(*refused == *wanted)
}

/// A text in which a letter has the other case, or another character stands, is refused.
fn refuses_changes<T: PpkField>(
    rt: &(impl Abort + AllocGlobal),
    expected: &str,
    literal: &str,
) -> Result<(), Fail> {
    for at in 0..literal.len() {
        let changed = ManuallyDrop::new(with_letter_changed(rt.alloc(), literal, at)?);
        let changed = changed.as_str();
        assert!(rt; refuses::<T>(rt.alloc(), expected, changed)?, "{changed}");
    }
    Ok(())
}

/// The value is written as the text.
fn is_written<T: PpkField>(alloc: Global, value: &T, text: &str) -> Result<bool, SizeError> {
    let written = ManuallyDrop::new(value.write(alloc)?);
    Ok(written.as_str() == text)
}

/// The literal is read as a value that has it, and that is written as it.
fn spells_literal<T: PpkField + PpkLiteral>(alloc: Global, literal: &str) -> Result<bool, Fail> {
    let value = ManuallyDrop::new(T::read(alloc, literal)?);
    Ok(value.as_static_str() == literal && is_written(alloc, &*value, literal)?)
}

fn reads_literals<T: PpkField + PpkLiteral>(
    rt: &(impl Abort + AllocGlobal),
    name: &str,
    expected: &str,
    literals: &[&str],
) -> Result<(), Fail> {
    assert!(rt; T::context() == name, "{name}");
    for literal in literals {
        assert!(rt; spells_literal::<T>(rt.alloc(), literal)?, "{literal}");
        refuses_changes::<T>(rt, expected, literal)?;
    }
    Ok(())
}

// PuTTY's manual, Appendix C, has the literals.
#[test]
fn reads_each_choice_in_its_case_alone(rt: HostRuntime) -> Result<(), Fail> {
    let versions = ["PuTTY-User-Key-File-2", "PuTTY-User-Key-File-3"];
    let any_version = "[PuTTY-User-Key-File-2, PuTTY-User-Key-File-3]";
    reads_literals::<PpkVersionKey>(&rt, "PpkVersionKey", any_version, &versions)?;
    let algorithms = [
        "ssh-rsa",
        "ssh-dss",
        "ecdsa-sha2-nistp256",
        "ecdsa-sha2-nistp384",
        "ecdsa-sha2-nistp521",
        "ssh-ed25519",
        "ssh-ed448",
    ];
    let any =
        "[ssh-rsa, ssh-dss, ecdsa-sha2-nistp256, ecdsa-sha2-nistp384, ecdsa-sha2-nistp521, ssh-ed25519, ssh-ed448]";
    reads_literals::<PpkKeyAlgorithmValue>(&rt, "PpkKeyAlgorithmValue", any, &algorithms)?;
    let encryptions = ["none", "aes256-cbc"];
    let any = "[none, aes256-cbc]";
    reads_literals::<PpkEncryptionValue>(&rt, "PpkEncryptionValue", any, &encryptions)?;
    let flavours = ["Argon2d", "Argon2i", "Argon2id"];
    let any = "[Argon2d, Argon2i, Argon2id]";
    reads_literals::<Argon2FlavourValue>(&rt, "Argon2FlavourValue", any, &flavours)
}

fn reads_key<T: PpkField + PpkSingle + Default + PartialEq>(
    rt: &(impl Abort + AllocGlobal),
    name: &str,
    literal: &str,
) -> Result<(), Fail> {
    let default = ManuallyDrop::new(T::default());
    let single = ManuallyDrop::new(T::single());
    assert!(rt; *default == *single, "{name}");
    reads_literals::<T>(rt, name, literal, &[literal])
}

#[test]
fn reads_each_key_in_its_case_alone(rt: HostRuntime) -> Result<(), Fail> {
    reads_key::<PpkEncryptionKey>(&rt, "PpkEncryptionKey", "Encryption")?;
    reads_key::<PpkCommentKey>(&rt, "PpkCommentKey", "Comment")?;
    reads_key::<PpkPublicLinesKey>(&rt, "PpkPublicLinesKey", "Public-Lines")?;
    reads_key::<PpkKeyDerivationKey>(&rt, "PpkKeyDerivationKey", "Key-Derivation")?;
    reads_key::<PpkArgon2MemoryKey>(&rt, "PpkArgon2MemoryKey", "Argon2-Memory")?;
    reads_key::<PpkArgon2PassesKey>(&rt, "PpkArgon2PassesKey", "Argon2-Passes")?;
    reads_key::<PpkArgon2ParallelismKey>(&rt, "PpkArgon2ParallelismKey", "Argon2-Parallelism")?;
    reads_key::<PpkArgon2SaltKey>(&rt, "PpkArgon2SaltKey", "Argon2-Salt")?;
    reads_key::<PpkPrivateLinesKey>(&rt, "PpkPrivateLinesKey", "Private-Lines")?;
    reads_key::<PpkPrivateMacKey>(&rt, "PpkPrivateMacKey", "Private-MAC")
}

/// The text is read as the value, which is written as the text.
fn spells<T: PpkField + PartialEq>(
    rt: &(impl Abort + AllocGlobal),
    text: &str,
    value: T,
) -> Result<(), Fail> {
    let value = ManuallyDrop::new(value);
    let read = ManuallyDrop::new(T::read(rt.alloc(), text)?);
    assert!(rt; *read == *value, "{text}");
    assert!(rt; is_written(rt.alloc(), &*value, text)?, "{text}");
    Ok(())
}

// printf bytes | base64; printf bytes | od -An -tx1
#[test]
fn reads_and_writes_each_value(rt: HostRuntime) -> Result<(), Fail> {
    let alloc = rt.alloc();
    let comment = PpkCommentValue::from(Text::new(alloc, "of a test: ed25519")?);
    spells(&rt, "of a test: ed25519", comment)?;
    let in_base64 = Base64PpkValue::from(Bytes::new(alloc, b"bytes")?);
    spells(&rt, "Ynl0ZXM=", in_base64)?;
    let in_hex = HexPpkValue::from(Bytes::new(alloc, b"bytes")?);
    spells(&rt, "6279746573", in_hex)?;
    spells(&rt, "256", PpkArgon2MemoryValue::from(256))?;
    spells(&rt, "3", PpkArgon2PassesValue::from(3))?;
    spells(&rt, "1", PpkArgon2ParallelismValue::from(1))
}

#[test]
fn says_what_was_expected_of_a_number(rt: HostRuntime) -> Result<(), Fail> {
    assert!(rt; refuses::<PpkArgon2PassesValue>(rt.alloc(), "<valid u32 value>", "x")?);
    Ok(())
}
