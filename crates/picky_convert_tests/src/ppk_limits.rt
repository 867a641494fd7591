//! A block of PuTTY's private key files has at most 65,535 lines of 64 characters.

use crate::private_conversions::envelope_of;
use crate::runs::{End, Ran, ended, run_on};
use picky_convert::Status;
use picky_ppk::{PpkFile, PpkKeyAlgorithm, PpkSealing, PpkVersion, PuttyError};
use picky_sshkey::{SshBasePrivateKey, SshPrivateKey};
use picky_wire::{Bytes, Mpint, SizeError, SliceSource, Text};
use std::alloc::{AllocError, Global};
use std::mem::ManuallyDrop;
use std::test::Fail;

// The bytes of 65,535 lines of 64 characters, as long as puttygen 0.78 makes each line of a block but the last:
//     python3 -c 'from base64 import b64decode; print(len(b64decode("A" * 64 * 65535)))'
const MOST: u32 = 3_145_680;

/// More than the text of such a file has.
const ROOM: usize = 5_000_000;

// puttygen 0.78 writes these lines for any RSA key without a comment, but for the count:
//     ssh-keygen -q -t rsa -N '' -C '' -f key; puttygen key -O private -o key.ppk --ppk-param version=3; head -4 key.ppk
// MOST bytes make 65535 lines, and one byte more makes 65536:
//     python3 -c 'from base64 import b64encode; print([-(-len(b64encode(bytes(n))) // 64) for n in (3145680, 3145681)])'
const HEAD: &str =
    "PuTTY-User-Key-File-3: ssh-rsa\nEncryption: none\nComment: \nPublic-Lines: 65535\n";

/// A file of a blob.
fn file_of(alloc: Global, blob: Bytes) -> PpkFile {
    PpkFile {
        sealing: PpkSealing::Unsealed(PpkVersion::V3),
        algorithm: PpkKeyAlgorithm::Rsa,
        comment: Text::from_string(String::new(alloc)),
        public_key: blob,
        private_bytes: Bytes::from_vec(Vec::new(alloc)),
        mac: Bytes::from_vec(Vec::new(alloc)),
    }
}

/// A file whose blob has so many zeros.
fn file_with(alloc: Global, len: u32) -> Result<PpkFile, AllocError> {
    let blob = Vec::from_elem(alloc, 0, len as usize)?;
    Ok(file_of(alloc, Bytes::from_vec(blob)))
}

/// The text begins with the lines up to the blob, and a count of 65,535.
fn has_most_lines(alloc: Global, file: &PpkFile) -> Result<bool, Fail> {
    let text = ManuallyDrop::new(file.to_string(alloc)?);
    Ok(text.as_str().starts_with(HEAD))
}

fn is_written(alloc: Global) -> Result<bool, Fail> {
    let file = ManuallyDrop::new(file_with(alloc, MOST)?);
    has_most_lines(alloc, &file)
}

fn is_refused(alloc: Global) -> Result<bool, Fail> {
    let file = ManuallyDrop::new(file_with(alloc, MOST + 1)?);
    let wanted = ManuallyDrop::new(PuttyError::TooManyLines);
    match &*ManuallyDrop::new(file.to_string(alloc)) {
        Ok(_) => Ok(false),
        Err(why) => Ok(*why == *wanted),
    }
}

#[test]
fn writes_65535_lines_and_no_more(rt: HostRuntime) -> Result<(), Fail> {
    assert!(rt; is_written(rt.alloc())?);
    assert!(rt; is_refused(rt.alloc())?);
    Ok(())
}

fn number(alloc: Global, bytes: &[u8]) -> Result<ManuallyDrop<Mpint>, SizeError> {
    Ok(ManuallyDrop::new(Mpint::from_be(alloc, bytes)?))
}

/// An RSA key whose modulus has so many bytes, the first of them 1, and whose other numbers but `e` are 1.
fn rsa_with(alloc: Global, len: u32) -> Result<SshBasePrivateKey, Fail> {
    let ones = Vec::from_elem(alloc, 1, len as usize)?;
    let n = ManuallyDrop::new(Mpint::from_vec(ones)?);
    let e = number(alloc, &[1, 0, 1])?;
    let d = number(alloc, &[1])?;
    let iqmp = number(alloc, &[1])?;
    let p = number(alloc, &[1])?;
    let q = number(alloc, &[1])?;
    Ok(SshBasePrivateKey::Rsa {
        n: ManuallyDrop::into_inner(n),
        e: ManuallyDrop::into_inner(e),
        d: ManuallyDrop::into_inner(d),
        iqmp: ManuallyDrop::into_inner(iqmp),
        p: ManuallyDrop::into_inner(p),
        q: ManuallyDrop::into_inner(q),
    })
}

/// The OpenSSH private key's text of that key.
fn envelope_with(alloc: Global, len: u32) -> Result<Text, Fail> {
    let base = rsa_with(alloc, len)?;
    let key = ManuallyDrop::new(SshPrivateKey::from_base(alloc, base, None, "", &[0; 16])?);
    envelope_of(alloc, &key)
}

/// What a run of `ppk3` on that text answers, and what it writes.
fn run_with(alloc: Global, len: u32) -> Result<Ran, Fail> {
    let text = ManuallyDrop::new(envelope_with(alloc, len)?);
    let mut source = SliceSource::new(text.as_str().as_bytes());
    run_on(alloc, &["ppk3"], &mut source, (ROOM, 999))
}

fn is_converted(alloc: Global) -> Result<bool, Fail> {
    let ran = run_with(alloc, MOST - 22)?;
    let done = ManuallyDrop::new(Status::Done);
    Ok(*ran.status == *done && ran.out.written().starts_with(HEAD.as_bytes()))
}

fn is_not_converted(alloc: Global) -> Result<bool, Fail> {
    let ran = run_with(alloc, MOST - 21)?;
    let end = End {
        code: 1,
        out: b"",
        err: "keyconv: refused: TooManyLines\n",
    };
    Ok(ended(&ran, end))
}

// The blob's name, e and the length of n take 22 bytes:
//     python3 -c 'from struct import pack; print(len(pack(">I7sI3sI", 7, b"ssh-rsa", 3, b"\1\0\1", 0)))'
// So ssh-keygen's blob of a modulus of 2048 bits, which is 257 bytes with the zero in front, has 279:
//     ssh-keygen -q -t rsa -b 2048 -N '' -f key; cut -d' ' -f2 key.pub | base64 -d | wc -c
#[test]
fn converts_to_65535_lines_and_no_more(rt: HostRuntime) -> Result<(), Fail> {
    assert!(rt; is_converted(rt.alloc())?);
    assert!(rt; is_not_converted(rt.alloc())?);
    Ok(())
}
