//! Private keys converted by a run: between OpenSSH's and PuTTY's forms, and refused.

use crate::runs::{ROOM, Refusal, refuses, run_on, writes, written_text};
use picky_key_rows::{
    ENDS_IN_CR, PPK_ROWS, PRIVATE_ROWS, PpkRow, PrivateRow, SECRET_ROWS, SecretRow, V2, VERSIONS,
    ZERO_KEY, ZERO_TEXT, secret_text_of, text_of,
};
use picky_ppk::PpkVersion;
use picky_sshkey::{SshBasePrivateKey, SshPrivateKey};
use picky_suite::PlainSuite;
use picky_wire::{SliceSource, Text};
use std::alloc::Global;
use std::mem::{ManuallyDrop, replace};
use std::test::Fail;

fn word_of(version: PpkVersion) -> &'static str {
    match version {
        PpkVersion::V2 => "ppk2",
        PpkVersion::V3 => "ppk3",
    }
}

/// What the command writes for the input.
fn written(alloc: Global, command: &str, input: &str) -> Result<String, Fail> {
    let mut source = SliceSource::new(input.as_bytes());
    written_text(alloc, &run_on(alloc, &[command], &mut source, (ROOM, 999))?)
}

/// OpenSSH's text becomes PuTTYgen's, and that becomes what OpenSSH's text is written as.
fn is_converted(
    alloc: Global,
    row: &PpkRow,
    key: &PrivateRow,
    version: PpkVersion,
) -> Result<bool, Fail> {
    let text = ManuallyDrop::new(text_of(alloc, row, version)?);
    are_converted(alloc, key.text, text.as_str(), word_of(version))
}

fn are_converted(alloc: Global, key: &str, text: &str, word: &str) -> Result<bool, Fail> {
    let own = ManuallyDrop::new(written(alloc, "openssh", key)?);
    Ok(writes(alloc, word, key, text)? && writes(alloc, "openssh", text, own.as_str())?)
}

#[test]
fn converts_as_puttygen_does_and_back(rt: HostRuntime) -> Result<(), Fail> {
    for (row, key) in PPK_ROWS.iter().zip(&PRIVATE_ROWS) {
        for version in VERSIONS {
            assert!(rt;
                is_converted(rt.alloc(), row, key, version)?,
                "{}, {version:?}",
                row.name
            );
        }
    }
    Ok(())
}

/// Through five texts of both programs a text becomes what it is written as directly, and its line.
fn loses_nothing(alloc: Global, text: &str) -> Result<bool, Fail> {
    let own = ManuallyDrop::new(written(alloc, "openssh", text)?);
    let line = ManuallyDrop::new(written(alloc, "ssh-pub", text)?);
    let last = ManuallyDrop::new(converted_five_times(alloc, text)?);
    Ok(
        writes(alloc, "openssh", last.as_str(), own.as_str())?
            && writes(alloc, "ssh-pub", last.as_str(), line.as_str())?,
    )
}

fn converted_five_times(alloc: Global, text: &str) -> Result<String, Fail> {
    let mut last = String::from_str(alloc, text)?;
    for command in ["ppk3", "ppk2", "openssh", "ppk2", "ppk3"] {
        let next = written(alloc, command, last.as_str())?;
        drop(replace(&mut last, next));
    }
    Ok(last)
}

/// So does the text of the key of a secret.
fn loses_no_secret(alloc: Global, secret: [u8; 32]) -> Result<bool, Fail> {
    let text = ManuallyDrop::new(secret_envelope(alloc, secret)?);
    loses_nothing(alloc, text.as_str())
}

// base64.b64decode("A8iqDGUDqgxlAwAA").hex() is 03c8 aa0c6503 aa0c6503 0000: the check number twice, which is written as 0.
fn writes_no_check_number(alloc: Global) -> Result<bool, Fail> {
    let text = ManuallyDrop::new(V2.replace(alloc, "A8iqDGUDqgxlAwAA", "A8gAAAAAAAAAAAAA")?);
    writes(alloc, "openssh", V2, text.as_str())
}

#[test]
fn loses_nothing_by_the_way(rt: HostRuntime) -> Result<(), Fail> {
    assert!(rt; loses_nothing(rt.alloc(), V2)?);
    assert!(rt; loses_nothing(rt.alloc(), ZERO_KEY)?);
    for row in &SECRET_ROWS {
        assert!(rt; loses_no_secret(rt.alloc(), row.secret)?, "{}", row.name);
    }
    assert!(rt; writes_no_check_number(rt.alloc())?);
    Ok(())
}

/// The text that is written for a key without a passphrase.
pub fn envelope_of(alloc: Global, key: &SshPrivateKey) -> Result<Text, Fail> {
    let mut suite = PlainSuite::new();
    Ok(key.to_string(alloc, &mut suite)?)
}

/// The text of the key of a secret, with 32 zero public bytes and a comment.
fn envelope_with(alloc: Global, secret: [u8; 32], comment: &str) -> Result<Text, Fail> {
    let base = SshBasePrivateKey::Ed {
        secret,
        public: [0; 32],
    };
    let key = ManuallyDrop::new(SshPrivateKey::from_base(alloc, base, None, comment, &[0; 16])?);
    envelope_of(alloc, &key)
}

/// The same with the comment `hello`.
pub fn secret_envelope(alloc: Global, secret: [u8; 32]) -> Result<Text, Fail> {
    envelope_with(alloc, secret, "hello")
}

/// The text of the row's key becomes PuTTY's, and that becomes it again.
fn is_secret_converted(alloc: Global, row: &SecretRow, version: PpkVersion) -> Result<bool, Fail> {
    let text = ManuallyDrop::new(secret_text_of(alloc, row, version)?);
    becomes(alloc, row.secret, version, text.as_str())
}

fn becomes(alloc: Global, secret: [u8; 32], version: PpkVersion, text: &str) -> Result<bool, Fail> {
    let envelope = ManuallyDrop::new(secret_envelope(alloc, secret)?);
    let envelope = envelope.as_str();
    Ok(
        writes(alloc, word_of(version), envelope, text)?
            && writes(alloc, "openssh", text, envelope)?,
    )
}

#[test]
fn converts_a_secret_as_a_number(rt: HostRuntime) -> Result<(), Fail> {
    for row in &SECRET_ROWS {
        for version in VERSIONS {
            assert!(rt;
                is_secret_converted(rt.alloc(), row, version)?,
                "{}, {version:?}",
                row.name
            );
        }
    }
    Ok(())
}

// A command, a text, what is replaced in it, and what is written.
static SPELLINGS: [(&str, &str, [&str; 2], &str); 6] = [
    ("openssh", ZERO_KEY, ["", ""], ZERO_KEY),
    ("ppk3", ZERO_KEY, ["", ""], ZERO_TEXT),
    ("openssh", ZERO_TEXT, ["", ""], ZERO_KEY),
    ("openssh", ZERO_KEY, ["\n", ""], ZERO_KEY),
    (
        "openssh",
        ZERO_TEXT,
        ["Public-Lines: 2", "Public-Lines: +02"],
        ZERO_KEY,
    ),
    ("ppk2", ENDS_IN_CR, ["", ""], ENDS_IN_CR),
];

/// The text with this in place of that, if there is one.
fn changed(alloc: Global, text: &str, change: [&str; 2]) -> Result<String, Fail> {
    let [old, new] = change;
    if old.is_empty() {
        return Ok(String::from_str(alloc, text)?);
    }
    Ok(text.replace(alloc, old, new)?)
}

fn writes_changed(alloc: Global, row: &(&str, &str, [&str; 2], &str)) -> Result<bool, Fail> {
    let (command, text, change, wanted) = row;
    let input = ManuallyDrop::new(changed(alloc, text, *change)?);
    writes(alloc, command, input.as_str(), wanted)
}

#[test]
fn writes_the_one_spelling(rt: HostRuntime) -> Result<(), Fail> {
    for row in &SPELLINGS {
        let (command, _, [_, new], _) = row;
        assert!(rt; writes_changed(rt.alloc(), row)?, "{command}, {new}");
    }
    Ok(())
}

// A command, a text, what is replaced in it, and the refusal. AQAA at the end of ZERO_KEY's second row makes the last byte of
// the public key 1, and AAEA in front of its fifth row the first byte of the copy behind the secret.
static REFUSALS: [(&str, &str, [&str; 2], Refusal); 12] = [
    (
        "openssh",
        ZERO_KEY,
        ["AAAAAAAAABAAAAMwAAAAtz", "AAAAAAAAACAAAAMwAAAAtz"],
        (1, "keyconv: refused: input.private.InvalidKeysAmount\n"),
    ),
    (
        "openssh",
        ZERO_KEY,
        ["\nAJAAAA", "\nAJABAA"],
        (1, "keyconv: refused: input.private.InvalidCheckNumbers\n"),
    ),
    (
        "openssh",
        ZERO_KEY,
        ["\n-----END OPENSSH PRIVATE KEY-----", ""],
        (1, "keyconv: refused: input.private.PemError\n"),
    ),
    (
        "openssh",
        ZERO_KEY,
        ["AAAA\nAJAA", "AQAA\nAJAA"],
        (1, "keyconv: refused: input.private.PublicKeyMismatch\n"),
    ),
    (
        "openssh",
        ZERO_KEY,
        [
            "\nAAAAAAAAAAAAAAAAAAAAAAAAAAAAAAAAAAAAAAAAAAAAAAAABWhl",
            "\nAAEAAAAAAAAAAAAAAAAAAAAAAAAAAAAAAAAAAAAAAAAAAAAABWhl",
        ],
        (1, "keyconv: refused: input.private.InvalidKeyFormat\n"),
    ),
    (
        "openssh",
        ZERO_TEXT,
        ["Public-Lines: 2", "Public-Lines: 65536"],
        (1, "keyconv: refused: input.putty.InvalidInput\n"),
    ),
    (
        "openssh",
        ZERO_TEXT,
        ["Public-Lines: 2", "Public-Lines: 65535"],
        (1, "keyconv: refused: input.putty.EndOfInput\n"),
    ),
    (
        "ssh-pub",
        ZERO_TEXT,
        ["AAAAAA==", "AAAAAQA="],
        (1, "keyconv: refused: input.putty.MacValidation\n"),
    ),
    (
        "putty-pub",
        ZERO_TEXT,
        ["File-3", "File-1"],
        (1, "keyconv: refused: input.putty.InvalidInput\n"),
    ),
    (
        "ppk3",
        ENDS_IN_CR,
        ["", ""],
        (1, "keyconv: refused: CommentNotCarried\n"),
    ),
    (
        "openssh",
        ENDS_IN_CR,
        ["", ""],
        (1, "keyconv: refused: CommentNotCarried\n"),
    ),
    (
        "ppk3",
        "ssh-ed25519 AAAAC3NzaC1lZDI1NTE5AAAAIAAAAAAAAAAAAAAAAAAAAAAAAAAAAAAAAAAAAAAAAAAA k\n",
        ["", ""],
        (1, "keyconv: refused: NoPrivateKey\n"),
    ),
];

fn refuses_changed(alloc: Global, row: &(&str, &str, [&str; 2], Refusal)) -> Result<bool, Fail> {
    let (command, text, change, refusal) = row;
    let input = ManuallyDrop::new(changed(alloc, text, *change)?);
    refuses(alloc, command, input.as_str().as_bytes(), *refusal)
}

#[test]
fn refuses_by_the_first_reason(rt: HostRuntime) -> Result<(), Fail> {
    for row in &REFUSALS {
        let (command, _, [_, new], refusal) = row;
        assert!(rt;
            refuses_changed(rt.alloc(), row)?,
            "{command}, {new}: {}",
            refusal.1
        );
    }
    Ok(())
}

// A comment of an envelope, and the commands whose texts can't hold it; in them it would be lines of its own.
static COMMENTS: [(&str, &[&str]); 2] = [
    (
        "a\nPrivate-Lines: 0",
        &["ppk2", "ppk3", "ssh-pub", "putty-pub"],
    ),
    (
        "x\r\nssh-ed25519 AAAAC3NzaC1lZDI1NTE5AAAAIAAAAAAAAAAAAAAAAAAAAAAAAAAAAAAAAAAAAAAAAAAA y",
        &["ssh-pub", "ppk2", "ppk3", "putty-pub"],
    ),
];

/// Only an envelope can hold the comment.
fn is_held_by_envelope(alloc: Global, comment: &str) -> Result<bool, Fail> {
    let text = ManuallyDrop::new(envelope_with(alloc, [0; 32], comment)?);
    writes(alloc, "openssh", text.as_str(), text.as_str())
}

fn is_not_carried(alloc: Global, command: &str, comment: &str) -> Result<bool, Fail> {
    let text = ManuallyDrop::new(envelope_with(alloc, [0; 32], comment)?);
    let refusal = (1, "keyconv: refused: CommentNotCarried\n");
    refuses(alloc, command, text.as_str().as_bytes(), refusal)
}

#[test]
fn makes_no_lines_of_a_comment(rt: HostRuntime) -> Result<(), Fail> {
    for (comment, commands) in &COMMENTS {
        assert!(rt; is_held_by_envelope(rt.alloc(), comment)?, "{comment}");
        for command in *commands {
            assert!(rt;
                is_not_carried(rt.alloc(), command, comment)?,
                "{command}: {comment}"
            );
        }
    }
    Ok(())
}

/// Of a key whose secret a device keeps.
fn has_no_file(alloc: Global, key: &PrivateRow) -> Result<bool, Fail> {
    let own = ManuallyDrop::new(written(alloc, "openssh", key.text)?);
    let refusal = (1, "keyconv: refused: output.putty.NotSupported\n");
    Ok(
        refuses(alloc, "ppk3", key.text.as_bytes(), refusal)?
            && writes(alloc, "openssh", key.text, own.as_str())?,
    )
}

#[test]
fn has_no_file_for_a_key_of_a_device(rt: HostRuntime) -> Result<(), Fail> {
    for key in &PRIVATE_ROWS {
        if key.is_security_key_kind {
            assert!(rt; has_no_file(rt.alloc(), key)?, "{}", key.name);
        }
    }
    Ok(())
}
