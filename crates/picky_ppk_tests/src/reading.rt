//! Why PuTTY's private key files and the keys in them are refused: of two faults in one text the one that is tried first.

use crate::answers::{gives, kept};
use crate::ppk_and_openssh::ppk_of;
use picky_key_rows::ZERO_TEXT;
use picky_ppk::PuttyError;
use std::alloc::{AllocError, Global};
use std::mem::ManuallyDrop;
use std::test::Fail;

/// The error's name, and the texts behind it.
fn name_of(alloc: Global, why: &PuttyError) -> Result<String, AllocError> {
    match why {
        PuttyError::InvalidInput {
            context,
            expected,
            actual,
        } => {
            let texts = [context.as_str(), expected.as_str(), actual.as_str()];
            format!(in alloc; "{}: {}: {}", texts[0], texts[1], texts[2])
        }
        PuttyError::NotSupported { feature } => {
            format!(in alloc; "NotSupported: {}", feature.as_str())
        }
        e => format!(in alloc; "{e:?}"),
    }
}

/// The answer's error has this name with its texts; there is no error where the name is empty.
pub fn is_named<T: Drop>(
    alloc: Global,
    answer: Result<T, PuttyError>,
    wanted: &str,
) -> Result<bool, Fail> {
    let answer = ManuallyDrop::new(answer);
    match &*answer {
        Ok(_) => Ok(wanted.is_empty()),
        Err(why) => {
            let name = kept(name_of(alloc, why))?;
            Ok(name.as_str() == wanted)
        }
    }
}

// The order is that of the lines, and in a line: whether it is there, `: `, the key, the value or the count, the block.
static TEXTS: [(&str, &str, &str); 22] = [
    ("no line", "", "EndOfInput"),
    (
        "no separator, and no more lines",
        "PuTTY-User-Key-File-3",
        "InvalidKeyValueFormat",
    ),
    (
        "an empty line, and a line of another key",
        "\nEncryption: none\n",
        "InvalidKeyValueFormat",
    ),
    (
        "version 1, and an algorithm that isn't known",
        "PuTTY-User-Key-File-1: ssh-none\n",
        "PpkVersionKey: [PuTTY-User-Key-File-2, PuTTY-User-Key-File-3]: PuTTY-User-Key-File-1",
    ),
    (
        "an algorithm that isn't known, and a line without separator",
        "PuTTY-User-Key-File-3: ssh-none\nEncryption",
        "PpkVersionKey: [ssh-rsa, ssh-dss, ecdsa-sha2-nistp256, ecdsa-sha2-nistp384, ecdsa-sha2-nistp521, ssh-ed25519, ssh-ed448]: ssh-none",
    ),
    (
        "another key, and an encryption that isn't known",
        "FIRST\nComment: aes128-cbc\n",
        "PpkEncryptionKey: Encryption: Comment",
    ),
    (
        "an encryption that isn't known, and no more lines",
        "FIRST\nEncryption: aes128-cbc\n",
        "PpkEncryptionKey: [none, aes256-cbc]: aes128-cbc",
    ),
    (
        "a comment's key in another case, and no more lines",
        "FIRST\nEncryption: none\ncomment: hello",
        "PpkCommentKey: Comment: comment",
    ),
    (
        "another key, and a count that is no number",
        "HEADPrivate-Lines: two",
        "PpkPublicLinesKey: Public-Lines: Private-Lines",
    ),
    (
        "a count that is no number, and no more lines",
        "HEADPublic-Lines: two",
        "PpkPublicLinesKey: <valid lines count>: two",
    ),
    (
        "a count of 65,536, and no more lines",
        "HEADPublic-Lines: 65536",
        "PpkPublicLinesKey: <valid lines count>: 65536",
    ),
    (
        "too few lines, of no base64",
        "HEADPublic-Lines: 2\n?",
        "EndOfInput",
    ),
    (
        "a block of no base64, and a line without separator",
        "HEADPublic-Lines: 1\nAAB=\nPrivate-Lines",
        "PpkPublicLinesKey: <valid base64 data>: AAB=",
    ),
    (
        "no separator, and a block of no base64",
        "HEADPublic-Lines: 0\nPrivate-Lines:1\n?",
        "InvalidKeyValueFormat",
    ),
    (
        "a derivation in a file that isn't sealed",
        "HEADPublic-Lines: 0\nKey-Derivation: Argon2id\n",
        "PpkPrivateLinesKey: Private-Lines: Key-Derivation",
    ),
    (
        "no derivation in a sealed file of version 3",
        "SEALEDPrivate-Lines: 0\nPrivate-MAC: \n",
        "PpkKeyDerivationKey: Key-Derivation: Private-Lines",
    ),
    (
        "a flavour that isn't known, and a memory that is no number",
        "SEALEDKey-Derivation: Argon2\nArgon2-Memory: x",
        "PpkKeyDerivationKey: [Argon2d, Argon2i, Argon2id]: Argon2",
    ),
    (
        "a memory that is no number, and no more lines",
        "SEALEDKey-Derivation: Argon2d\nArgon2-Memory: -8",
        "PpkArgon2MemoryKey: <valid u32 value>: -8",
    ),
    (
        "a block of no base64, and a MAC of no hex",
        "HEADPublic-Lines: 0\nPrivate-Lines: 1\nAAA\nPrivate-MAC: 0",
        "PpkPrivateLinesKey: <valid base64 data>: AAA",
    ),
    (
        "a MAC of no hex, which is another",
        "HEADPublic-Lines: 0\nPrivate-Lines: 0\nPrivate-MAC: 0",
        "PpkPrivateMacKey: <valid hex data>: 0",
    ),
    (
        "no line of the MAC",
        "HEADPublic-Lines: 0\nPrivate-Lines: 0\n",
        "EndOfInput",
    ),
    (
        "another MAC, and a blob of no key",
        "HEADPublic-Lines: 0\nPrivate-Lines: 0\nPrivate-MAC: 00",
        "MacValidation",
    ),
];

const FIRST: &str = "PuTTY-User-Key-File-3: ssh-ed25519";

const HEAD: &str = "FIRST\nEncryption: none\nComment: hello\n";

const SEALED: &str = "FIRST\nEncryption: aes256-cbc\nComment: hello\nPublic-Lines: 0\n";

/// The text with whole lines in place of `SEALED`, `HEAD` and `FIRST`.
fn spelled(alloc: Global, short: &str) -> Result<String, AllocError> {
    let text = ManuallyDrop::new(short.replace(alloc, "SEALED", SEALED)?);
    let text = ManuallyDrop::new(text.replace(alloc, "HEAD", HEAD)?);
    text.replace(alloc, "FIRST", FIRST)
}

/// The text isn't read, for this.
fn is_refused(alloc: Global, short: &str, wanted: &str) -> Result<bool, Fail> {
    let text = kept(spelled(alloc, short))?;
    is_named(alloc, ppk_of(alloc, text.as_str()), wanted)
}

#[test]
fn refuses_files_by_line(rt: HostRuntime) -> Result<(), Fail> {
    for (name, short, wanted) in &TEXTS {
        assert!(rt; is_refused(rt.alloc(), *short, *wanted)?, "{name}");
    }
    Ok(())
}

// puttygen text -O public-openssh gives the same line for each.
static SPELLINGS: [(&str, &str, &str); 5] = [
    ("no LF at the end", "7f33c93d\n", "7f33c93d"),
    ("a line more", "7f33c93d\n", "7f33c93d\nComment: more\n"),
    (
        "digits of the other case",
        "dc054639dad49fb9",
        "DC054639DAD49FB9",
    ),
    ("a row more", "2\nAAAAC3Nz", "3\nAAAA\nC3Nz"),
    ("a plus and a zero", "Public-Lines: 2", "Public-Lines: +02"),
];

/// `ZERO_TEXT` is read as the same file with this change.
fn is_zero(alloc: Global, from: &str, to: &str) -> Result<bool, Fail> {
    let ppk = kept(ppk_of(alloc, ZERO_TEXT))?;
    let text = kept(ZERO_TEXT.replace(alloc, from, to))?;
    gives(ppk_of(alloc, text.as_str()), &*ppk)
}

#[test]
fn reads_other_spellings_of_a_file(rt: HostRuntime) -> Result<(), Fail> {
    for (name, from, to) in &SPELLINGS {
        assert!(rt; is_zero(rt.alloc(), *from, *to)?, "{name}");
    }
    Ok(())
}
