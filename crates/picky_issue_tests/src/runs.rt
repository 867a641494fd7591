//! Runs of the commands that issue certificates, over streams in memory, without passphrases.

use picky_convert::{Status, run};
use picky_suite::{HandedSigner, PlainSuite, Signer};
use picky_wire::{Bytes, MemorySink, SliceSource, Text};
use std::alloc::Global;
use std::mem::ManuallyDrop;
use std::test::Fail;

/// What a run is given beside its command and its device.
#[derive(Clone, Copy)]
pub struct Asked<'a> {
    /// The words after the command.
    pub words: &'a [&'a str],
    /// The words after those.
    pub more: &'a [&'a str],
    pub source: &'a str,
    pub fresh: &'a [u8],
}

/// How a run ended, what it wrote, and how many bytes it left unread. Nothing of it is dropped.
#[derive(Drop)]
struct Ran {
    status: ManuallyDrop<Status>,
    out: ManuallyDrop<MemorySink>,
    err: ManuallyDrop<MemorySink>,
    left: usize,
}

/// How a run is to end: its exit code, and what it writes to `out` and to `err`.
#[derive(Clone, Copy)]
pub struct End<'a> {
    pub code: u8,
    pub out: &'a str,
    pub err: &'a str,
}

fn put_words(alloc: Global, texts: &mut Vec<Text>, words: &[&str]) -> Result<(), Fail> {
    for word in words {
        texts.push(Text::new(alloc, word)?)?;
    }
    Ok(())
}

/// The command and the words after it.
fn texts_of(alloc: Global, command: &str, asked: &Asked<'_>) -> Result<Vec<Text>, Fail> {
    let mut texts = ManuallyDrop::new(Vec::new(alloc));
    put_words(alloc, &mut texts, &[command])?;
    put_words(alloc, &mut texts, asked.words)?;
    put_words(alloc, &mut texts, asked.more)?;
    Ok(ManuallyDrop::into_inner(texts))
}

/// A run of the command, for which the device signs.
fn run_by<G: Signer>(
    alloc: Global,
    command: &str,
    asked: &Asked<'_>,
    signer: &mut G,
) -> Result<Ran, Fail> {
    let texts = ManuallyDrop::new(texts_of(alloc, command, asked)?);
    let mut out = ManuallyDrop::new(MemorySink::new(alloc, 9999, 64, &[])?);
    let mut err = ManuallyDrop::new(MemorySink::new(alloc, 999, 64, &[])?);
    let mut source = SliceSource::new(asked.source.as_bytes());
    let status = ManuallyDrop::new(run(
        alloc,
        texts.as_slice(),
        None,
        None,
        asked.fresh,
        &mut PlainSuite::new(),
        signer,
        &mut source,
        &mut *out,
        &mut *err,
    ));
    let left = source.rest().len();
    Ok(Ran {
        status,
        out,
        err,
        left,
    })
}

fn ended(ran: &Ran, end: &End<'_>) -> bool {
    ran.status.exit_code() == end.code
        && ran.out.written() == end.out.as_bytes()
        && ran.err.written() == end.err.as_bytes()
}

/// The run ends so.
pub fn ends_by<G: Signer>(
    alloc: Global,
    command: &str,
    asked: &Asked<'_>,
    signer: &mut G,
    end: &End<'_>,
) -> Result<bool, Fail> {
    Ok(ended(&run_by(alloc, command, asked, signer)?, end))
}

/// The run ends so, where the device hands out these bytes.
pub fn ends(
    alloc: Global,
    command: &str,
    asked: &Asked<'_>,
    signature: &[u8],
    end: &End<'_>,
) -> Result<bool, Fail> {
    let signature = Bytes::new(alloc, signature)?;
    let mut signer = ManuallyDrop::new(HandedSigner::new(Some(signature)));
    ends_by(alloc, command, asked, &mut *signer, end)
}

/// `cert` writes the line, where the device hands out these bytes.
pub fn issues(
    alloc: Global,
    asked: &Asked<'_>,
    signature: &[u8],
    line: &str,
) -> Result<bool, Fail> {
    let end = End {
        code: 0,
        out: line,
        err: "",
    };
    ends(alloc, "cert", asked, signature, &end)
}

/// The run ends so without a device that signs.
pub fn ends_unsigned(
    alloc: Global,
    command: &str,
    asked: &Asked<'_>,
    end: &End<'_>,
) -> Result<bool, Fail> {
    let mut signer = ManuallyDrop::new(HandedSigner::new(None));
    ends_by(alloc, command, asked, &mut *signer, end)
}

/// `tbs` writes the text, and asks no device.
pub fn shows(alloc: Global, asked: &Asked<'_>, text: &str) -> Result<bool, Fail> {
    let end = End {
        code: 0,
        out: text,
        err: "",
    };
    ends_unsigned(alloc, "tbs", asked, &end)
}

/// The command says how it is used, and reads nothing.
pub fn is_usage(
    alloc: Global,
    command: &str,
    asked: &Asked<'_>,
    usage: &End<'_>,
) -> Result<bool, Fail> {
    let mut signer = ManuallyDrop::new(HandedSigner::new(None));
    let ran = run_by(alloc, command, asked, &mut *signer)?;
    Ok(ended(&ran, usage) && ran.left == asked.source.len())
}
