//! The bytes of each question and table, and what the suite and the signer of answers say of a table.

use picky_ask::{AnsweredSigner, AnsweredSuite, Entry, Head, Missing, Question, Table, TableError};
use picky_keys::{HashAlgorithm, Issuer, PublicKey, SignatureAlgorithm};
use picky_suite::{Flavour, SignError, Signer, Suite};
use picky_wire::{Bytes, Failed};
use std::alloc::Global;
use std::marker::Brand;
use std::mem::ManuallyDrop;
use std::test::Fail;

const KEY: &[u8; 16] = b"sixteen-byte-key";

const IV: &[u8; 16] = b"sixteen-byte--iv";

const BLOCK: &[u8; 16] = b"a block of text.";

// u8, u32 = lambda n: struct.pack(">B", n), lambda n: struct.pack(">I", n)
// s = lambda b: u32(len(b)) + b
// q = lambda head, text: s(head) + s(text)
// q(u8(1) + u32(48) + u32(16) + s(b"saltsalt"), b"password")
const BCRYPT: &[u8] = b"\0\0\0\x15\x01\0\0\x000\0\0\0\x10\0\0\0\x08saltsalt\0\0\0\x08password";

// q(u8(2) + u8(2) + u32(8192) + u32(34) + u32(1) + s(b"saltsalt"), b"password")
const ARGON2: &[u8] =
    b"\0\0\0\x1a\x02\x02\0\0\x20\0\0\0\0\x22\0\0\0\x01\0\0\0\x08saltsalt\0\0\0\x08password";

// q(u8(3) + s(b"sixteen-byte-key") + s(b"sixteen-byte--iv"), b"a block of text."), and 4 and 5 for 3
const SEAL: &[u8] =
    b"\0\0\0)\x03\0\0\0\x10sixteen-byte-key\0\0\0\x10sixteen-byte--iv\0\0\0\x10a block of text.";

const OPEN: &[u8] =
    b"\0\0\0)\x04\0\0\0\x10sixteen-byte-key\0\0\0\x10sixteen-byte--iv\0\0\0\x10a block of text.";

const COUNTER: &[u8] =
    b"\0\0\0)\x05\0\0\0\x10sixteen-byte-key\0\0\0\x10sixteen-byte--iv\0\0\0\x10a block of text.";

// q(u8(6) + u8(1) + u8(6) + s(b"blob"), b"message"), and 2, 4 and 3, 0 for 1, 6
const RSA: &[u8] = b"\0\0\0\x0b\x06\x01\x06\0\0\0\x04blob\0\0\0\x07message";

const ECDSA: &[u8] = b"\0\0\0\x0b\x06\x02\x04\0\0\0\x04blob\0\0\0\x07message";

const ED25519: &[u8] = b"\0\0\0\x0b\x06\x03\0\0\0\0\x04blob\0\0\0\x07message";

// q(u8(7) + s(b"blob") + s(b"signature"), b"message")
const VERIFY: &[u8] = b"\0\0\0\x16\x07\0\0\0\x04blob\0\0\0\x09signature\0\0\0\x07message";

/// The head of the question in a row, by its place.
fn head_of(alloc: Global, row: usize) -> Result<Head, Fail> {
    let (key, iv) = match row {
        0 | 1 => (b"saltsalt".as_slice(), b"".as_slice()),
        2 | 3 | 4 => (KEY.as_slice(), IV.as_slice()),
        _ => (b"blob".as_slice(), b"signature".as_slice()),
    };
    let (key, iv) = (Bytes::new(alloc, key)?, Bytes::new(alloc, iv)?);
    Ok(match row {
        0 => Head::Bcrypt {
            len: 48,
            rounds: 16,
            salt: key,
        },
        1 => Head::Argon2 {
            flavour: Flavour::Argon2id,
            memory: 8192,
            passes: 34,
            parallelism: 1,
            salt: key,
        },
        2 => Head::CbcSeal { key, iv },
        3 => Head::CbcOpen { key, iv },
        4 => Head::Ctr { key, iv },
        5 => sign_head(
            SignatureAlgorithm::RsaPkcs1v15(HashAlgorithm::SHA2_512),
            key,
        ),
        6 => sign_head(SignatureAlgorithm::Ecdsa(HashAlgorithm::SHA2_256), key),
        7 => sign_head(SignatureAlgorithm::Ed25519, key),
        _ => Head::Verify { key, signature: iv },
    })
}

fn sign_head(algorithm: SignatureAlgorithm, key: Bytes) -> Head {
    Head::Sign { algorithm, key }
}

fn question_of(alloc: Global, row: usize) -> Result<Question, Fail> {
    let text = match row {
        0 | 1 => b"password".as_slice(),
        2 | 3 | 4 => BLOCK.as_slice(),
        _ => b"message".as_slice(),
    };
    let text = Bytes::new(alloc, text)?;
    Ok(Question {
        head: head_of(alloc, row)?,
        text,
    })
}

static QUESTIONS: [&[u8]; 9] = [
    BCRYPT, ARGON2, SEAL, OPEN, COUNTER, RSA, ECDSA, ED25519, VERIFY,
];

/// The question's bytes are these.
fn is_spelled(alloc: Global, question: &Question, wanted: &[u8]) -> Result<bool, Fail> {
    Ok(question.to_bytes(alloc)?.as_slice() == wanted)
}

/// A table of the question and an answer has them, and nothing else.
fn is_read(alloc: Global, question: Question, bytes: &[u8]) -> Result<bool, Fail> {
    let table = Table::read(alloc, bytes)?;
    let entry = Entry {
        question,
        answer: Bytes::new(alloc, b"answer")?,
    };
    Ok(
        table.entries().len() == 1
            && table.entries()[0] == entry
            && table.answer(&entry.question) == Some(b"answer".as_slice()),
    )
}

/// An entry of the question, whose answer is this.
fn entry_bytes(alloc: Global, question: &[u8], answer: &[u8]) -> Result<Vec<u8>, Fail> {
    let len = u32::try_from(answer.len())?;
    let mut bytes = Vec::from_slice(alloc, question)?;
    bytes.extend_from_slice(&len.to_be_bytes())?;
    bytes.extend_from_slice(answer)?;
    Ok(bytes)
}

#[test]
fn a_question_is_spelled_and_read_as_by_struct(rt: HostRuntime) -> Result<(), Fail> {
    let alloc = rt.alloc();
    for (row, bytes) in QUESTIONS.iter().enumerate() {
        let question = ManuallyDrop::new(question_of(alloc, row)?);
        assert!(rt; is_spelled(alloc, &question, bytes)?, "{row}");
        let entry = ManuallyDrop::new(entry_bytes(alloc, bytes, b"answer")?);
        assert!(rt;
            is_read(alloc, question_of(alloc, row)?, entry.as_slice())?,
            "{row}"
        );
    }
    Ok(())
}

/// Why bytes are no table.
fn refusal(alloc: Global, bytes: &[u8]) -> Option<TableError> {
    match Table::read(alloc, bytes) {
        Ok(table) => {
            drop(table);
            None
        }
        Err(e) => Some(e),
    }
}

/// The entry cut here: in the four bytes of a length, or in what that counts.
fn cut_refusal(cut: usize) -> TableError {
    // The head has 11 bytes, the text 7 and the answer 6.
    match cut {
        1..=3 | 15..=18 | 26..=29 => TableError::EndsInEntry,
        _ => TableError::LengthPastEnd,
    }
}

#[test]
fn an_entry_is_refused_at_each_cut(rt: HostRuntime) -> Result<(), Fail> {
    let alloc = rt.alloc();
    let entry = ManuallyDrop::new(entry_bytes(alloc, RSA, b"answer")?);
    assert!(rt; refusal(alloc, b"").is_none() && refusal(alloc, entry.as_slice()).is_none());
    for (cut, _) in entry.iter().enumerate() {
        if cut > 0 {
            assert!(rt;
                refusal(alloc, &entry[..cut]) == Some(cut_refusal(cut)),
                "{cut}"
            );
        }
    }
    Ok(())
}

// Heads, each with its length in front, that are none: no operation 0 or 8, a flavour 3, a kind 4, a digest 7, a digest of
// Ed25519, a head that ends in its salt, and a byte behind a head.
static NO_HEADS: [&[u8]; 9] = [
    b"\0\0\0\0",
    b"\0\0\0\x01\0",
    b"\0\0\0\x01\x08",
    b"\0\0\0\x12\x02\x03\0\0\0\x08\0\0\0\x01\0\0\0\x01\0\0\0\0",
    b"\0\0\0\x07\x06\x04\x01\0\0\0\0",
    b"\0\0\0\x07\x06\x01\x07\0\0\0\0",
    b"\0\0\0\x07\x06\x03\x01\0\0\0\0",
    b"\0\0\0\x0d\x01\0\0\0\x20\0\0\0\x01\0\0\0\x01",
    b"\0\0\0\x08\x06\x03\0\0\0\0\0!",
];

#[test]
fn a_head_that_is_none_is_refused(rt: HostRuntime) -> Result<(), Fail> {
    for (row, head) in NO_HEADS.iter().enumerate() {
        assert!(rt;
            refusal(rt.alloc(), head) == Some(TableError::NoQuestion),
            "{row}"
        );
    }
    Ok(())
}

/// A call of the suite.
#[derive(Clone, Copy)]
enum Call {
    Bcrypt,
    Seal,
    Counter,
    /// With a block of these bytes.
    CounterOf(u8),
}

/// What a call puts into its buffer, after the calls before it.
fn call_by(suite: &mut AnsweredSuite<'_, Brand>, call: Call) -> Result<[u8; 16], Failed> {
    let mut block = *BLOCK;
    match call {
        Call::Bcrypt => {
            let mut out = [0; 48];
            suite.bcrypt(b"password", b"saltsalt", 16, &mut out)?;
            block.copy_from_slice(&out[32..]);
        }
        Call::Seal => suite.cbc_seal(KEY, IV, &mut block)?,
        Call::Counter => suite.ctr(KEY, IV, &mut block)?,
        Call::CounterOf(byte) => {
            block = [byte; 16];
            suite.ctr(KEY, IV, &mut block)?;
        }
    }
    Ok(block)
}

/// Entries, by their questions and answers; the calls; and what the last one puts into its buffer, or why it doesn't.
struct Run {
    name: &'static str,
    entries: &'static [(&'static [u8], &'static [u8])],
    calls: &'static [Call],
    wanted: Wanted,
}

#[derive(Clone, Copy)]
enum Wanted {
    Block(&'static [u8; 16]),
    /// The question of this row.
    Asked(usize),
    WrongLength,
    Contradiction,
    Misplaced,
}

const ANSWER: &[u8; 16] = b"sixteen sealed!!";

const KEYS: &[u8; 48] = b"0123456789abcdef0123456789abcdefsixteen sealed!!";

// q(u8(5) + s(b"sixteen-byte-key") + s(b"sixteen-byte--iv"), b"x" * 16)
const OTHER_COUNTER: &[u8] =
    b"\0\0\0)\x05\0\0\0\x10sixteen-byte-key\0\0\0\x10sixteen-byte--iv\0\0\0\x10xxxxxxxxxxxxxxxx";

static RUNS: [Run; 11] = [
    Run {
        name: "a derivation",
        entries: &[(BCRYPT, KEYS)],
        calls: &[Call::Bcrypt],
        wanted: Wanted::Block(ANSWER),
    },
    Run {
        name: "a text that is sealed",
        entries: &[(SEAL, ANSWER)],
        calls: &[Call::Seal],
        wanted: Wanted::Block(ANSWER),
    },
    Run {
        name: "two questions in their order, and the first again",
        entries: &[(BCRYPT, KEYS), (SEAL, ANSWER)],
        calls: &[Call::Bcrypt, Call::Seal, Call::Bcrypt],
        wanted: Wanted::Block(ANSWER),
    },
    Run {
        name: "no entry",
        entries: &[],
        calls: &[Call::Bcrypt],
        wanted: Wanted::Asked(0),
    },
    Run {
        name: "a second question",
        entries: &[(BCRYPT, KEYS)],
        calls: &[Call::Bcrypt, Call::Seal],
        wanted: Wanted::Asked(2),
    },
    Run {
        name: "an answer of a byte less",
        entries: &[(BCRYPT, b"0123456789abcdef0123456789abcdef0123456789abcde")],
        calls: &[Call::Bcrypt],
        wanted: Wanted::WrongLength,
    },
    Run {
        name: "a sealed text of a byte more",
        entries: &[(SEAL, b"seventeen sealed!")],
        calls: &[Call::Seal],
        wanted: Wanted::WrongLength,
    },
    Run {
        name: "two texts with one answer",
        entries: &[(COUNTER, ANSWER), (OTHER_COUNTER, ANSWER)],
        calls: &[Call::Counter, Call::CounterOf(b'x')],
        wanted: Wanted::Contradiction,
    },
    Run {
        name: "the second question first",
        entries: &[(BCRYPT, KEYS), (SEAL, ANSWER)],
        calls: &[Call::Seal],
        wanted: Wanted::Misplaced,
    },
    Run {
        name: "a question that the table doesn't answer first",
        entries: &[(BCRYPT, KEYS)],
        calls: &[Call::Seal],
        wanted: Wanted::Misplaced,
    },
    Run {
        name: "what is opened under the mode that it was sealed in",
        entries: &[(OPEN, ANSWER)],
        calls: &[Call::Seal],
        wanted: Wanted::Misplaced,
    },
];

/// The table of these entries.
fn table_of(alloc: Global, entries: &[(&[u8], &[u8])]) -> Result<Table, Fail> {
    let mut bytes = Vec::new(alloc);
    for (question, answer) in entries {
        let entry = entry_bytes(alloc, question, answer)?;
        bytes.extend_from_slice(entry.as_slice())?;
    }
    Ok(Table::read(alloc, bytes.as_slice())?)
}

/// What the last of the calls answers, or why the first that fails doesn't.
fn outcome(alloc: Global, table: &Table, calls: &[Call]) -> Result<[u8; 16], Option<Missing>> {
    let mut suite: AnsweredSuite<'_, Brand> = AnsweredSuite::new(alloc, table);
    let mut last = [0; 16];
    for call in calls {
        match call_by(&mut suite, *call) {
            Ok(block) => last = block,
            Err(Failed) => return Err(suite.into_missing()),
        }
    }
    Ok(last)
}

/// The outcome is the wanted one.
fn is_wanted(
    alloc: Global,
    found: Result<[u8; 16], Option<Missing>>,
    wanted: Wanted,
) -> Result<bool, Fail> {
    let wanted = match wanted {
        Wanted::Block(block) => Ok(*block),
        Wanted::Asked(row) => Err(Some(Missing::Asked(question_of(alloc, row)?))),
        Wanted::WrongLength => Err(Some(Missing::WrongLength)),
        Wanted::Contradiction => Err(Some(Missing::Contradiction)),
        Wanted::Misplaced => Err(Some(Missing::Misplaced)),
    };
    Ok(found == wanted)
}

#[test]
fn a_suite_answers_as_its_table_says(rt: HostRuntime) -> Result<(), Fail> {
    let alloc = rt.alloc();
    for run in &RUNS {
        let table = ManuallyDrop::new(table_of(alloc, run.entries)?);
        assert!(rt;
            is_wanted(alloc, outcome(alloc, &table, run.calls), run.wanted)?,
            "{}",
            run.name
        );
    }
    Ok(())
}

// q(u8(6) + u8(3) + u8(0) + s(s(b"ssh-ed25519") + s(b"\x07" * 32)), b"message")
const BY_ISSUER: &[u8] =
    b"\0\0\0\x3a\x06\x03\0\0\0\0\x33\0\0\0\x0bssh-ed25519\0\0\0\x20\x07\x07\x07\x07\x07\x07\x07\x07\x07\x07\x07\x07\
    \x07\x07\x07\x07\x07\x07\x07\x07\x07\x07\x07\x07\x07\x07\x07\x07\x07\x07\x07\x07\0\0\0\x07message";

/// The table's signature, or why there is none.
fn signature_by(alloc: Global, table: &Table) -> Result<Bytes, Option<Missing>> {
    let mut signer: AnsweredSigner<'_, Brand> = AnsweredSigner::new(table);
    let issuer = ManuallyDrop::new(Issuer::Public(PublicKey::Ed { key: [7; 32] }));
    match signer.sign(alloc, &issuer, SignatureAlgorithm::Ed25519, b"message") {
        Ok(signature) => Ok(signature),
        Err(SignError::Failed | SignError::NoMemory) => Err(signer.into_missing()),
    }
}

/// The question that is missing is this.
fn asks(alloc: Global, missing: Option<Missing>, wanted: &[u8]) -> Result<bool, Fail> {
    match missing {
        Some(Missing::Asked(question)) => is_spelled(alloc, &question, wanted),
        Some(other) => {
            drop(other);
            Ok(false)
        }
        None => Ok(false),
    }
}

fn is_signed_or_asked(alloc: Global) -> Result<bool, Fail> {
    let listed = ManuallyDrop::new(table_of(
        alloc,
        &[(RSA, b"another"), (BY_ISSUER, b"signature")],
    )?);
    let is_signed = match signature_by(alloc, &listed) {
        Ok(signature) => signature.as_slice() == b"signature".as_slice(),
        Err(missing) => {
            drop(missing);
            false
        }
    };
    let unlisted = ManuallyDrop::new(table_of(alloc, &[(RSA, b"another")])?);
    match signature_by(alloc, &unlisted) {
        Ok(signature) => {
            drop(signature);
            Ok(false)
        }
        Err(missing) => Ok(asks(alloc, missing, BY_ISSUER)? && is_signed),
    }
}

#[test]
fn a_signer_looks_up_in_any_order(rt: HostRuntime) -> Result<(), Fail> {
    assert!(rt; is_signed_or_asked(rt.alloc())?);
    Ok(())
}
