//! The lines of PuTTY's private key files: a file of puttygen copied, and lines that are refused.

use picky_kv::{
    KvError, PpkArgon2Memory, PpkArgon2Parallelism, PpkArgon2Passes, PpkArgon2Salt, PpkComment,
    PpkEncryption, PpkHeader, PpkKeyDerivation, PpkKeyValue, PpkPrivateLines, PpkPrivateMac,
    PpkPublicLines, PpkSingle, PuttyKvReader, PuttyKvWriter,
};
use picky_wire::{Bytes, Text};
use std::alloc::Global;
use std::mem::ManuallyDrop;
use std::test::Fail;

// puttygen 0.78: puttygen -t ed25519 -o sealed.ppk --new-passphrase pw -C 'of a test: ed25519'
//   --ppk-param version=3,memory=256,passes=3
static SEALED: &str = "PuTTY-User-Key-File-3: ssh-ed25519
Encryption: aes256-cbc
Comment: of a test: ed25519
Public-Lines: 2
AAAAC3NzaC1lZDI1NTE5AAAAIJ8pE+/qc89bAZqCarkMCuM+0wEWT+XWYW1ygNMj
M3Nc
Key-Derivation: Argon2id
Argon2-Memory: 256
Argon2-Passes: 3
Argon2-Parallelism: 1
Argon2-Salt: bd3c02a7e5010fbf46934849a3e9c354
Private-Lines: 1
iu04zOMX4E6mVpu+5A6ukfFKe74WK0vrPjGkcTJgRoij+b1uU2pffubwGtdXRPC+
Private-MAC: 5291f405c57360fe7b039ee0511983ce9b6c69e65155328dbb4969ff5ad16d2d
";

fn copy_header(
    alloc: Global,
    from: &mut PuttyKvReader<'_>,
    to: &mut PuttyKvWriter,
) -> Result<(), KvError> {
    let (key, value) = from.next_key_value::<PpkHeader>(alloc)?;
    to.write_key_value::<PpkHeader>(&key, &value)
}

fn copy_value<T: PpkKeyValue>(
    alloc: Global,
    from: &mut PuttyKvReader<'_>,
    to: &mut PuttyKvWriter,
) -> Result<(), KvError>
where
    T::Key: PpkSingle,
{
    let value = ManuallyDrop::new(from.next_value::<T>(alloc)?);
    to.write_value::<T>(&value)
}

fn copy_head(
    alloc: Global,
    from: &mut PuttyKvReader<'_>,
    to: &mut PuttyKvWriter,
) -> Result<(), KvError> {
    copy_value::<PpkEncryption>(alloc, from, to)?;
    copy_value::<PpkComment>(alloc, from, to)
}

fn copy_public(
    alloc: Global,
    from: &mut PuttyKvReader<'_>,
    to: &mut PuttyKvWriter,
) -> Result<(), KvError> {
    let (key, value) = from.next_multiline_key_value::<PpkPublicLines>(alloc)?;
    to.write_multiline_key_value::<PpkPublicLines>(&key, &value)
}

fn copy_derivation(
    alloc: Global,
    from: &mut PuttyKvReader<'_>,
    to: &mut PuttyKvWriter,
) -> Result<(), KvError> {
    copy_value::<PpkKeyDerivation>(alloc, from, to)?;
    copy_value::<PpkArgon2Memory>(alloc, from, to)?;
    copy_value::<PpkArgon2Passes>(alloc, from, to)?;
    copy_value::<PpkArgon2Parallelism>(alloc, from, to)?;
    copy_value::<PpkArgon2Salt>(alloc, from, to)
}

fn copy_tail(
    alloc: Global,
    from: &mut PuttyKvReader<'_>,
    to: &mut PuttyKvWriter,
) -> Result<(), KvError> {
    let value = ManuallyDrop::new(from.next_multiline_value::<PpkPrivateLines>(alloc)?);
    to.write_multiline_value::<PpkPrivateLines>(&value)?;
    copy_value::<PpkPrivateMac>(alloc, from, to)
}

fn copied(alloc: Global, text: &str, crlf: bool) -> Result<Text, KvError> {
    let mut from = PuttyKvReader::from_str(text);
    let mut to = PuttyKvWriter::new(alloc, crlf);
    copy_header(alloc, &mut from, &mut to)?;
    copy_head(alloc, &mut from, &mut to)?;
    copy_public(alloc, &mut from, &mut to)?;
    copy_derivation(alloc, &mut from, &mut to)?;
    copy_tail(alloc, &mut from, &mut to)?;
    Ok(to.finish())
}

#[test]
fn reads_the_mac_in_hex_of_both_cases(rt: HostRuntime) -> Result<(), Fail> {
    let mut reader = PuttyKvReader::from_str("Private-MAC: 00aBFf");
    let mac = Bytes::from(reader.next_value::<PpkPrivateMac>(rt.alloc())?);
    // RFC 4648, section 8: two digits a byte, the high four bits first, in either case
    assert!(rt; mac.as_slice() == [0x00, 0xab, 0xff].as_slice());
    Ok(())
}

fn copies(alloc: Global, from: &str, crlf: bool, text: &str) -> Result<bool, KvError> {
    Ok(copied(alloc, from, crlf)?.as_str() == text)
}

#[test]
fn copies_a_file_of_puttygen(rt: HostRuntime) -> Result<(), Fail> {
    let alloc = rt.alloc();
    let with_crlf = SEALED.replace(alloc, "\n", "\r\n")?;
    for (crlf, text) in [(false, SEALED), (true, with_crlf.as_str())] {
        assert!(rt; copies(alloc, SEALED, crlf, text)?, "from LF, CRLF {crlf}");
        assert!(rt;
            copies(alloc, with_crlf.as_str(), crlf, text)?,
            "CRLF {crlf}"
        );
    }
    Ok(())
}

// A block's text and what it is refused for: the name of the refusal, and its three texts.
struct Refused {
    text: &'static str,
    name: &'static str,
    texts: [&'static str; 3],
}

static REFUSED: [Refused; 11] = [
    Refused {
        text: "",
        name: "EndOfInput",
        texts: ["", "", ""],
    },
    Refused {
        text: "Public-Lines:1\nAAAA",
        name: "InvalidKeyValueFormat",
        texts: ["", "", ""],
    },
    Refused {
        text: "\nPublic-Lines: 0",
        name: "InvalidKeyValueFormat",
        texts: ["", "", ""],
    },
    Refused {
        text: "Private-Lines: 1\nAAAA",
        name: "InvalidInput",
        texts: ["PpkPublicLinesKey", "Public-Lines", "Private-Lines"],
    },
    Refused {
        text: "Public-Lines: 65536\nAAAA",
        name: "InvalidInput",
        texts: ["PpkPublicLinesKey", "<valid lines count>", "65536"],
    },
    Refused {
        text: "Public-Lines: -1\nAAAA",
        name: "InvalidInput",
        texts: ["PpkPublicLinesKey", "<valid lines count>", "-1"],
    },
    Refused {
        text: "Public-Lines: 1 \nAAAA",
        name: "InvalidInput",
        texts: ["PpkPublicLinesKey", "<valid lines count>", "1 "],
    },
    Refused {
        text: "Public-Lines: 1",
        name: "EndOfInput",
        texts: ["", "", ""],
    },
    Refused {
        text: "Public-Lines: 2\n!",
        name: "EndOfInput",
        texts: ["", "", ""],
    },
    Refused {
        text: "Public-Lines: 1\nAAB=\nComment: k",
        name: "InvalidInput",
        texts: ["PpkPublicLinesKey", "<valid base64 data>", "AAB="],
    },
    Refused {
        text: "Public-Lines: 2\nAA\nA\nComment: k",
        name: "InvalidInput",
        texts: ["PpkPublicLinesKey", "<valid base64 data>", "AAA"],
    },
];

fn texts_of(e: &KvError) -> [&str; 3] {
    match e {
        KvError::InvalidInput {
            context,
            expected,
            actual,
        } => [context.as_str(), expected.as_str(), actual.as_str()],
        _ => ["", "", ""],
    }
}

fn is_named(alloc: Global, e: &KvError, row: &Refused) -> Result<bool, Fail> {
    let name = format!(in alloc; "{e}")?;
    Ok(name.as_str() == row.name && texts_of(e) == row.texts)
}

fn is_refused(alloc: Global, reader: &mut PuttyKvReader<'_>, row: &Refused) -> Result<bool, Fail> {
    match reader.next_multiline_value::<PpkPublicLines>(alloc) {
        Ok(_) => Ok(false),
        Err(e) => is_named(alloc, &e, row),
    }
}

fn is_at_its_end(alloc: Global, reader: &mut PuttyKvReader<'_>) -> bool {
    reader.next_value::<PpkComment>(alloc).err() == Some(KvError::EndOfInput)
}

#[test]
fn stays_at_its_end_once_refused(rt: HostRuntime) -> Result<(), Fail> {
    for row in &REFUSED {
        let text = row.text;
        let mut reader = PuttyKvReader::from_str(text);
        assert!(rt; is_refused(rt.alloc(), &mut reader, row)?, "{text}");
        assert!(rt; is_at_its_end(rt.alloc(), &mut reader), "after: {text}");
    }
    Ok(())
}

#[test]
fn keeps_all_behind_the_first_separator(rt: HostRuntime) -> Result<(), Fail> {
    let mut reader = PuttyKvReader::from_str("Comment: a: b");
    let comment = Text::from(reader.next_value::<PpkComment>(rt.alloc())?);
    assert!(rt; comment.as_str() == "a: b");
    Ok(())
}

#[test]
fn reads_a_count_with_a_plus_and_zeros(rt: HostRuntime) -> Result<(), Fail> {
    let mut reader = PuttyKvReader::from_str("Public-Lines: +002\nAAAA\nAAAA");
    let bytes = Bytes::from(reader.next_multiline_value::<PpkPublicLines>(rt.alloc())?);
    assert!(rt; bytes.as_slice() == [0; 6].as_slice());
    assert!(rt; is_at_its_end(rt.alloc(), &mut reader));
    Ok(())
}

#[test]
fn reads_hex_of_both_cases(rt: HostRuntime) -> Result<(), Fail> {
    let mut reader = PuttyKvReader::from_str("Argon2-Salt: 00aBFf");
    let salt = Bytes::from(reader.next_value::<PpkArgon2Salt>(rt.alloc())?);
    assert!(rt; salt.as_slice() == [0x00, 0xab, 0xff].as_slice());
    Ok(())
}
