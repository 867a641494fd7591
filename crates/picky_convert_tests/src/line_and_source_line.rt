//! Public key lines: read, and written in their one spelling.

use crate::runs::converts;
use picky_convert::Target;
use picky_key_rows::KEY_ROWS;
use picky_keys::{SshPublicKey, SshPublicKeyError};
use picky_wire::{MemorySink, MemorySource, SliceSource, SshComplexTypeDecode, TryClone};
use std::alloc::Global;
use std::mem::ManuallyDrop;
use std::test::Fail;

// The name, a line, and the line that is written for it.
//
// Python's struct.pack('>I', len(b)) + b for each string, and base64.b64encode.
//
// Of "several words" `puttygen -L KEY.pub` writes the line but for its CR. The bytes of each other word
// of base64 from there on stand above it: it is what python3 gives for base64.b64encode(BYTES), where
// s = lambda b: len(b).to_bytes(4, "big") + b.
static LINES: [(&str, &str, &str); 17] = [
    (
        "white space at the end",
        "ssh-ed25519 AAAAC3NzaC1lZDI1NTE5AAAAIIW5ErFsW9CIpb/ceM1WtA5ZFaU4t08o4uVN3ER9qDA9 me \t",
        "ssh-ed25519 AAAAC3NzaC1lZDI1NTE5AAAAIIW5ErFsW9CIpb/ceM1WtA5ZFaU4t08o4uVN3ER9qDA9 me\r\n",
    ),
    (
        "no comment and no LF",
        "ssh-ed25519 AAAAC3NzaC1lZDI1NTE5AAAAIIW5ErFsW9CIpb/ceM1WtA5ZFaU4t08o4uVN3ER9qDA9",
        "ssh-ed25519 AAAAC3NzaC1lZDI1NTE5AAAAIIW5ErFsW9CIpb/ceM1WtA5ZFaU4t08o4uVN3ER9qDA9 \r\n",
    ),
    (
        "a second line that is cut",
        "ssh-ed25519 AAAAC3NzaC1lZDI1NTE5AAAAIIW5ErFsW9CIpb/ceM1WtA5ZFaU4t08o4uVN3ER9qDA9 me\nssh-rsa",
        "ssh-ed25519 AAAAC3NzaC1lZDI1NTE5AAAAIIW5ErFsW9CIpb/ceM1WtA5ZFaU4t08o4uVN3ER9qDA9 me\r\n",
    ),
    (
        "another of the seven names",
        "ssh-rsa AAAAC3NzaC1lZDI1NTE5AAAAIIW5ErFsW9CIpb/ceM1WtA5ZFaU4t08o4uVN3ER9qDA9 me",
        "ssh-ed25519 AAAAC3NzaC1lZDI1NTE5AAAAIIW5ErFsW9CIpb/ceM1WtA5ZFaU4t08o4uVN3ER9qDA9 me\r\n",
    ),
    (
        "bytes after the last field",
        "ssh-ed25519 AAAAC3NzaC1lZDI1NTE5AAAAIIW5ErFsW9CIpb/ceM1WtA5ZFaU4t08o4uVN3ER9qDA9bW9yZQ== me",
        "ssh-ed25519 AAAAC3NzaC1lZDI1NTE5AAAAIIW5ErFsW9CIpb/ceM1WtA5ZFaU4t08o4uVN3ER9qDA9 me\r\n",
    ),
    (
        "zeros before e and none before n",
        "ssh-rsa AAAAB3NzaC1yc2EAAAADAAADAAAAAYE= me",
        "ssh-rsa AAAAB3NzaC1yc2EAAAABAwAAAAIAgQ== me\r\n",
    ),
    (
        "another identifier and no LF",
        "ecdsa-sha2-nistp256 AAAAE2VjZHNhLXNoYTItbmlzdHAyNTYAAAAFY3VydmUAAAABBA== me",
        "ecdsa-sha2-nistp256 AAAAE2VjZHNhLXNoYTItbmlzdHAyNTYAAAAIbmlzdHAyNTYAAAABBA== me\r\n",
    ),
    (
        "several words",
        "ssh-ed25519 AAAAC3NzaC1lZDI1NTE5AAAAIAAAAAAAAAAAAAAAAAAAAAAAAAAAAAAAAAAAAAAAAAAA test using several words\r\n",
        "ssh-ed25519 AAAAC3NzaC1lZDI1NTE5AAAAIAAAAAAAAAAAAAAAAAAAAAAAAAAAAAAAAAAAAAAAAAAA test using several words\r\n",
    ),
    (
        "a space before CRLF",
        "ssh-ed25519 AAAAC3NzaC1lZDI1NTE5AAAAIAAAAAAAAAAAAAAAAAAAAAAAAAAAAAAAAAAAAAAAAAAA test using several words \r\n",
        "ssh-ed25519 AAAAC3NzaC1lZDI1NTE5AAAAIAAAAAAAAAAAAAAAAAAAAAAAAAAAAAAAAAAAAAAAAAAA test using several words\r\n",
    ),
    (
        "no comment",
        "ssh-ed25519 AAAAC3NzaC1lZDI1NTE5AAAAIAAAAAAAAAAAAAAAAAAAAAAAAAAAAAAAAAAAAAAAAAAA",
        "ssh-ed25519 AAAAC3NzaC1lZDI1NTE5AAAAIAAAAAAAAAAAAAAAAAAAAAAAAAAAAAAAAAAAAAAAAAAA \r\n",
    ),
    (
        "a second line",
        "ssh-ed25519 AAAAC3NzaC1lZDI1NTE5AAAAIAAAAAAAAAAAAAAAAAAAAAAAAAAAAAAAAAAAAAAAAAAA k\nssh-rsa more\n",
        "ssh-ed25519 AAAAC3NzaC1lZDI1NTE5AAAAIAAAAAAAAAAAAAAAAAAAAAAAAAAAAAAAAAAAAAAAAAAA k\r\n",
    ),
    (
        "a CR inside",
        "ssh-ed25519 AAAAC3NzaC1lZDI1NTE5AAAAIAAAAAAAAAAAAAAAAAAAAAAAAAAAAAAAAAAAAAAAAAAA a\rb\n",
        "ssh-ed25519 AAAAC3NzaC1lZDI1NTE5AAAAIAAAAAAAAAAAAAAAAAAAAAAAAAAAAAAAAAAAAAAAAAAA a\r\n",
    ),
    (
        "another first word",
        "ssh-rsa AAAAC3NzaC1lZDI1NTE5AAAAIAAAAAAAAAAAAAAAAAAAAAAAAAAAAAAAAAAAAAAAAAAA k\n",
        "ssh-ed25519 AAAAC3NzaC1lZDI1NTE5AAAAIAAAAAAAAAAAAAAAAAAAAAAAAAAAAAAAAAAAAAAAAAAA k\r\n",
    ),
    // s(b"ssh-ed25519") + s(bytes(32)) + b"more"
    (
        "bytes after the key",
        "ssh-ed25519 AAAAC3NzaC1lZDI1NTE5AAAAIAAAAAAAAAAAAAAAAAAAAAAAAAAAAAAAAAAAAAAAAAAAbW9yZQ== k\n",
        "ssh-ed25519 AAAAC3NzaC1lZDI1NTE5AAAAIAAAAAAAAAAAAAAAAAAAAAAAAAAAAAAAAAAAAAAAAAAA k\r\n",
    ),
    // s(b"ssh-rsa") + s(b"\0") + s(b"\0"); then s(b"ssh-rsa") + s(b"") + s(b"")
    (
        "zeros alone",
        "ssh-rsa AAAAB3NzaC1yc2EAAAABAAAAAAEA z",
        "ssh-rsa AAAAB3NzaC1yc2EAAAAAAAAAAA== z\r\n",
    ),
    // s(b"ssh-rsa") + s(b"\0\0\3") + s(b"\x81"); then s(b"ssh-rsa") + s(b"\3") + s(b"\0\x81")
    (
        "two zeros before e and none before n",
        "ssh-rsa AAAAB3NzaC1yc2EAAAADAAADAAAAAYE= k\n",
        "ssh-rsa AAAAB3NzaC1yc2EAAAABAwAAAAIAgQ== k\r\n",
    ),
    // s(b"ecdsa-sha2-nistp256") + s(b"curve") + s(b"\4"); then s(b"nistp256") in its middle
    (
        "another identifier",
        "ecdsa-sha2-nistp256 AAAAE2VjZHNhLXNoYTItbmlzdHAyNTYAAAAFY3VydmUAAAABBA== k\n",
        "ecdsa-sha2-nistp256 AAAAE2VjZHNhLXNoYTItbmlzdHAyNTYAAAAIbmlzdHAyNTYAAAABBA== k\r\n",
    ),
];

/// The line is read alike as a text and from a source, copied, and written again.
fn is_kept(alloc: Global, line: &str) -> Result<bool, Fail> {
    let key = ManuallyDrop::new(SshPublicKey::from_str(alloc, line)?);
    let copy = ManuallyDrop::new(key.try_clone(alloc)?);
    Ok(is_taken(alloc, line, &key)? && *copy == *key && is_printed(alloc, &key, line)?)
}

/// The line is taken from a source as the key.
fn is_taken(alloc: Global, line: &str, key: &SshPublicKey) -> Result<bool, Fail> {
    let mut source = ManuallyDrop::new(MemorySource::new(alloc, line.as_bytes(), 7, &[])?);
    let made = ManuallyDrop::new(SshPublicKey::decode(alloc, &mut *source)?);
    Ok(*made == *key)
}

/// The line is written for the key, and CR LF after it.
fn is_printed(alloc: Global, key: &SshPublicKey, line: &str) -> Result<bool, SshPublicKeyError> {
    let text = ManuallyDrop::new(key.to_string(alloc)?);
    Ok(text.as_str().strip_suffix("\r\n") == Some(line))
}

#[test]
fn reads_the_lines_of_ssh_keygen(rt: HostRuntime) -> Result<(), Fail> {
    for row in &KEY_ROWS {
        assert!(rt; is_kept(rt.alloc(), row.line)?, "{}", row.name);
    }
    Ok(())
}

/// The line is read, and written so, also to a sink, by the call and by the command.
fn is_written(alloc: Global, line: &str, text: &str) -> Result<bool, Fail> {
    let key = ManuallyDrop::new(SshPublicKey::from_str(alloc, line)?);
    Ok(
        is_text_of(alloc, &key, text)?
            && converts(alloc, line, Target::OpenSshPublic, "ssh-pub", text)?,
    )
}

fn is_text_of(alloc: Global, key: &SshPublicKey, text: &str) -> Result<bool, Fail> {
    let made = ManuallyDrop::new(key.to_string(alloc)?);
    let mut sink = ManuallyDrop::new(MemorySink::new(alloc, 999, 7, &[])?);
    key.encode(alloc, &mut *sink)?;
    Ok(made.as_str() == text && sink.written() == text.as_bytes())
}

#[test]
fn writes_the_canonical_line(rt: HostRuntime) -> Result<(), Fail> {
    for (name, line, text) in &LINES {
        assert!(rt; is_written(rt.alloc(), line, text)?, "{name}");
    }
    Ok(())
}

// The name, bytes that begin with a line, why it is refused where it is, and what is left.
static FIRST_LINES: [(&str, &[u8], Option<SshPublicKeyError>, &[u8]); 2] = [
    (
        "CR LF",
        b"ssh-ed25519 AAAAC3NzaC1lZDI1NTE5AAAAIIW5ErFsW9CIpb/ceM1WtA5ZFaU4t08o4uVN3ER9qDA9 me\r\nmore",
        None,
        b"\nmore",
    ),
    (
        "not UTF-8",
        b"ssh-ed25519 AAAAC3NzaC1lZDI1NTE5AAAAIIW5ErFsW9CIpb/ceM1WtA5ZFaU4t08o4uVN3ER9qDA9 \xc3(\nmore",
        Some(SshPublicKeyError::InvalidUtf8),
        b"more",
    ),
];

/// The bytes begin with a line that is read or refused so, and this is left.
fn leaves(alloc: Global, bytes: &[u8], why: &Option<SshPublicKeyError>, left: &[u8]) -> bool {
    let mut source = SliceSource::new(bytes);
    let refusal = ManuallyDrop::new(SshPublicKey::decode(alloc, &mut source).err());
    *refusal == *why && source.rest() == left
}

#[test]
fn takes_one_line_of_a_source(rt: HostRuntime) {
    for (name, bytes, why, left) in &FIRST_LINES {
        assert!(rt; leaves(rt.alloc(), bytes, why, left), "{name}");
    }
}
