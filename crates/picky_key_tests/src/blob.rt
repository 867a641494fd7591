//! The blobs of public keys, and why a blob is refused.

use picky_keys::{SshBasePublicKey, SshPublicKey, SshPublicKeyError};
use picky_wire::{IoKind, SliceSource, SshComplexTypeDecode};
use std::alloc::Global;
use std::mem::ManuallyDrop;
use std::test::Fail;

/// Bytes, and why they are refused.
struct RefusedRow {
    name: &'static str,
    bytes: &'static [u8],
    why: SshPublicKeyError,
}

// RFC 4251, section 5, has strings, and RFC 8709, section 4, the 32 bytes; the blobs are cut by hand.
static REFUSED_BLOBS: [RefusedRow; 21] = [
    RefusedRow {
        name: "a name whose length is cut",
        bytes: b"\0\0\0",
        why: SshPublicKeyError::IoError(IoKind::UnexpectedEnd),
    },
    RefusedRow {
        name: "a name that is cut",
        bytes: b"\0\0\0\x0bssh",
        why: SshPublicKeyError::IoError(IoKind::UnexpectedEnd),
    },
    RefusedRow {
        name: "a name that is no UTF-8",
        bytes: b"\0\0\0\x02\xc3(",
        why: SshPublicKeyError::InvalidUtf8,
    },
    RefusedRow {
        name: "another name",
        bytes: b"\0\0\0\x07ssh-dss",
        why: SshPublicKeyError::UnknownKeyType,
    },
    RefusedRow {
        name: "e that is cut",
        bytes: b"\0\0\0\x07ssh-rsa\0\0\0\x03\x01",
        why: SshPublicKeyError::IoError(IoKind::UnexpectedEnd),
    },
    RefusedRow {
        name: "n that is cut",
        bytes: b"\0\0\0\x07ssh-rsa\0\0\0\x03\x01\0\x01\0\0\x01",
        why: SshPublicKeyError::IoError(IoKind::UnexpectedEnd),
    },
    RefusedRow {
        name: "an identifier that is cut",
        bytes: b"\0\0\0\x13ecdsa-sha2-nistp256\0\0\0\x08nist",
        why: SshPublicKeyError::IoError(IoKind::UnexpectedEnd),
    },
    RefusedRow {
        name: "an identifier that is no UTF-8",
        bytes: b"\0\0\0\x13ecdsa-sha2-nistp256\0\0\0\x02\xc3(",
        why: SshPublicKeyError::InvalidUtf8,
    },
    RefusedRow {
        name: "a point that is cut",
        bytes: b"\0\0\0\x13ecdsa-sha2-nistp256\0\0\0\x08nistp256\0\0\0A\x04",
        why: SshPublicKeyError::IoError(IoKind::UnexpectedEnd),
    },
    RefusedRow {
        name: "a key that is cut",
        bytes: b"\0\0\0\x0bssh-ed25519\0\0\0 \x01\x02",
        why: SshPublicKeyError::IoError(IoKind::UnexpectedEnd),
    },
    RefusedRow {
        name: "a key of 31 bytes",
        bytes: b"\0\0\0\x0bssh-ed25519\0\0\0\x1fkkkkkkkkkkkkkkkkkkkkkkkkkkkkkkk",
        why: SshPublicKeyError::KeyError,
    },
    RefusedRow {
        name: "a key of 33 bytes",
        bytes: b"\0\0\0\x0bssh-ed25519\0\0\0!kkkkkkkkkkkkkkkkkkkkkkkkkkkkkkkkk",
        why: SshPublicKeyError::KeyError,
    },
    RefusedRow {
        name: "a device's identifier that is cut",
        bytes: b"\0\0\0\x22sk-ecdsa-sha2-nistp256@openssh.com\0",
        why: SshPublicKeyError::IoError(IoKind::UnexpectedEnd),
    },
    RefusedRow {
        name: "a device's identifier that is no UTF-8",
        bytes: b"\0\0\0\x22sk-ecdsa-sha2-nistp256@openssh.com\0\0\0\x02\xc3(",
        why: SshPublicKeyError::InvalidUtf8,
    },
    RefusedRow {
        name: "a device's point that is cut",
        bytes: b"\0\0\0\x22sk-ecdsa-sha2-nistp256@openssh.com\0\0\0\x08nistp256\0\0\0A\x04",
        why: SshPublicKeyError::IoError(IoKind::UnexpectedEnd),
    },
    RefusedRow {
        name: "its application that is cut",
        bytes: b"\0\0\0\x22sk-ecdsa-sha2-nistp256@openssh.com\0\0\0\x08nistp256\0\0\0\x01\x04\0\0\0\x04ssh",
        why: SshPublicKeyError::IoError(IoKind::UnexpectedEnd),
    },
    RefusedRow {
        name: "its application that is no UTF-8",
        bytes: b"\0\0\0\x22sk-ecdsa-sha2-nistp256@openssh.com\0\0\0\x08nistp256\0\0\0\x01\x04\0\0\0\x02\xc3(",
        why: SshPublicKeyError::InvalidUtf8,
    },
    RefusedRow {
        name: "a device's key that is cut",
        bytes: b"\0\0\0\x1ask-ssh-ed25519@openssh.com\0\0\0 \x01",
        why: SshPublicKeyError::IoError(IoKind::UnexpectedEnd),
    },
    RefusedRow {
        name: "a device's key of 31 bytes",
        bytes: b"\0\0\0\x1ask-ssh-ed25519@openssh.com\0\0\0\x1fkkkkkkkkkkkkkkkkkkkkkkkkkkkkkkk",
        why: SshPublicKeyError::KeyError,
    },
    RefusedRow {
        name: "the application after it that is cut",
        bytes: b"\0\0\0\x1ask-ssh-ed25519@openssh.com\0\0\0 kkkkkkkkkkkkkkkkkkkkkkkkkkkkkkkk\0\0\0\x04",
        why: SshPublicKeyError::IoError(IoKind::UnexpectedEnd),
    },
    RefusedRow {
        name: "the application after it that is no UTF-8",
        bytes: b"\0\0\0\x1ask-ssh-ed25519@openssh.com\0\0\0 kkkkkkkkkkkkkkkkkkkkkkkkkkkkkkkk\0\0\0\x02\xc3(",
        why: SshPublicKeyError::InvalidUtf8,
    },
];

/// A blob that was read so is refused for this reason.
fn is_refused(read: Result<SshBasePublicKey, SshPublicKeyError>, why: &SshPublicKeyError) -> bool {
    let read = ManuallyDrop::new(read);
    match &*read {
        Ok(_) => false,
        Err(error) => *error == *why,
    }
}

#[test]
fn refuses_each_field_for_its_reason(rt: HostRuntime) {
    for row in &REFUSED_BLOBS {
        let read = SshBasePublicKey::decode(rt.alloc(), &mut SliceSource::new(row.bytes));
        assert!(rt; is_refused(read, &row.why), "{}", row.name);
    }
}

// ssh-keygen -q -t ed25519 -N '' -C k -f key; cat key.pub
const LINE: &str =
    "ssh-ed25519 AAAAC3NzaC1lZDI1NTE5AAAAIPaSiDKIdwa2ceSmAajZPTAKx5U9jncB9LlE67abXQ2F k";

// cut -d' ' -f2 key.pub | base64 -d | od -An -v -tu1
const BLOB: [u8; 51] = [
    0, 0, 0, 11, 115, 115, 104, 45, 101, 100, 50, 53, 53, 49, 57, 0, 0, 0, 32, 246, 146, 136, 50,
    136, 119, 6, 182, 113, 228, 166, 1, 168, 217, 61, 48, 10, 199, 149, 61, 142, 119, 1, 244, 185,
    68, 235, 182, 155, 93, 13, 133,
];

/// The key of a line, without its comment.
pub fn key_of(alloc: Global, line: &str) -> Result<SshBasePublicKey, SshPublicKeyError> {
    let SshPublicKey { inner_key, comment } = SshPublicKey::from_str(alloc, line)?;
    drop(comment);
    Ok(inner_key)
}

/// The line's key is written as the blob, and read of it.
fn is_its_blob(alloc: Global, line: &str, blob: &[u8]) -> Result<bool, Fail> {
    let key = ManuallyDrop::new(key_of(alloc, line)?);
    let written = ManuallyDrop::new(key.to_blob(alloc)?);
    let read = ManuallyDrop::new(SshBasePublicKey::from_blob(alloc, blob)?);
    Ok(written.as_slice() == blob && *read == *key)
}

// A blob that is cut is refused for this.
static CUT: SshPublicKeyError = SshPublicKeyError::IoError(IoKind::UnexpectedEnd);

#[test]
fn reads_and_writes_the_blob_of_a_line(rt: HostRuntime) -> Result<(), Fail> {
    assert!(rt; is_its_blob(rt.alloc(), LINE, &BLOB)?);
    assert!(rt; is_refused(SshBasePublicKey::from_blob(rt.alloc(), &BLOB[..50]), &CUT));
    Ok(())
}
