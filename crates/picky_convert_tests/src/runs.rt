//! Runs of the program over streams in memory.

use picky_convert::{ConvertError, Status, Target, convert, run};
use picky_suite::{HandedSigner, PlainSuite, Suite};
use picky_wire::{MemorySink, SliceSource, Source, Text};
use std::alloc::Global;
use std::mem::ManuallyDrop;
use std::test::Fail;

/// How many bytes a text here has at most.
pub const ROOM: usize = 9999;

/// The words that name a command.
pub const COMMANDS: [&str; 3] = ["ssh-pub", "putty-pub", "fingerprint"];

/// How a run ended, and what it wrote. Nothing of it is dropped.
#[derive(Drop)]
pub struct Ran {
    pub status: ManuallyDrop<Status>,
    pub out: ManuallyDrop<MemorySink>,
    pub err: ManuallyDrop<MemorySink>,
}

/// What a run is given beside its words and devices.
#[derive(Clone, Copy)]
pub struct Given<'a> {
    pub pass_in: Option<&'a str>,
    pub pass_out: Option<&'a str>,
    pub fresh: &'a [u8],
}

pub const NOTHING: Given<'static> = Given {
    pass_in: None,
    pass_out: None,
    fresh: &[],
};

/// A run where `out` and `err` have so much room.
pub fn run_on<S: Source>(
    alloc: Global,
    words: &[&str],
    source: &mut S,
    rooms: (usize, usize),
) -> Result<Ran, Fail> {
    let mut suite = PlainSuite::new();
    run_given(alloc, words, NOTHING, &mut suite, source, rooms)
}

fn texts_of(alloc: Global, words: &[&str]) -> Result<Vec<Text>, Fail> {
    let mut texts = ManuallyDrop::new(Vec::new(alloc));
    for word in words {
        texts.push(Text::new(alloc, word)?)?;
    }
    Ok(ManuallyDrop::into_inner(texts))
}

/// The same with passphrases, fresh bytes and a suite. No device signs.
pub fn run_given<P: Suite, S: Source>(
    alloc: Global,
    words: &[&str],
    given: Given<'_>,
    suite: &mut P,
    source: &mut S,
    rooms: (usize, usize),
) -> Result<Ran, Fail> {
    let (room, err_room) = rooms;
    let texts = ManuallyDrop::new(texts_of(alloc, words)?);
    let mut out = ManuallyDrop::new(MemorySink::new(alloc, room, 64, &[])?);
    let mut err = ManuallyDrop::new(MemorySink::new(alloc, err_room, 64, &[])?);
    let mut signer = ManuallyDrop::new(HandedSigner::new(None));
    let status = ManuallyDrop::new(run(
        alloc,
        texts.as_slice(),
        given.pass_in,
        given.pass_out,
        given.fresh,
        suite,
        &mut *signer,
        source,
        &mut *out,
        &mut *err,
    ));
    Ok(Ran { status, out, err })
}

/// How a run ends: its exit code, and what it writes to `out` and to `err`.
#[derive(Clone, Copy)]
pub struct End<'a> {
    pub code: u8,
    pub out: &'a [u8],
    pub err: &'a str,
}

/// Whether the run ended so.
pub fn ended(ran: &Ran, end: End<'_>) -> bool {
    ran.status.exit_code() == end.code
        && ran.out.written() == end.out
        && ran.err.written() == end.err.as_bytes()
}

/// The command over the source, where `out` and `err` have so much room, ends so.
pub fn ends<S: Source>(
    alloc: Global,
    command: &str,
    source: &mut S,
    rooms: (usize, usize),
    end: End<'_>,
) -> Result<bool, Fail> {
    Ok(ended(&run_on(alloc, &[command], source, rooms)?, end))
}

/// The text that a run wrote, or none where it isn't one.
pub fn written_text(alloc: Global, ran: &Ran) -> Result<String, Fail> {
    match str::from_utf8(ran.out.written()) {
        Ok(text) => Ok(String::from_str(alloc, text)?),
        Err(_) => Ok(String::new(alloc)),
    }
}

/// The command writes this text for the input, and nothing on `err`.
pub fn writes(alloc: Global, command: &str, input: &str, text: &str) -> Result<bool, Fail> {
    let mut source = SliceSource::new(input.as_bytes());
    let end = End {
        code: 0,
        out: text.as_bytes(),
        err: "",
    };
    ends(alloc, command, &mut source, (ROOM, 999), end)
}

/// An exit code, and the line on `err`.
pub type Refusal = (u8, &'static str);

/// The command over the input, where `out` has so much room, ends so, and alike but for its line where `err` takes nothing.
pub fn ends_alike(
    alloc: Global,
    command: &str,
    input: &[u8],
    room: usize,
    end: End<'_>,
) -> Result<bool, Fail> {
    let unsaid = End { err: "", ..end };
    let mut source = SliceSource::new(input);
    let mut again = SliceSource::new(input);
    Ok(
        ends(alloc, command, &mut source, (room, 999), end)?
            && ends(alloc, command, &mut again, (room, 0), unsaid)?,
    )
}

/// The command refuses the input so.
pub fn refuses(alloc: Global, command: &str, input: &[u8], refusal: Refusal) -> Result<bool, Fail> {
    let (code, err) = refusal;
    let end = End {
        code,
        out: b"",
        err,
    };
    ends_alike(alloc, command, input, ROOM, end)
}

/// What the call answers for the line.
pub fn answer_for(
    alloc: Global,
    line: &str,
    target: Target,
) -> ManuallyDrop<Result<Text, ConvertError>> {
    let mut signer = ManuallyDrop::new(HandedSigner::new(None));
    ManuallyDrop::new(convert(
        alloc,
        &mut PlainSuite::new(),
        &mut *signer,
        line,
        None,
        &target,
        None,
        &[],
    ))
}

/// The call and the target's command write this text for the line.
pub fn converts(
    alloc: Global,
    line: &str,
    target: Target,
    command: &str,
    text: &str,
) -> Result<bool, Fail> {
    let is_answered = match &*answer_for(alloc, line, target) {
        Ok(answer) => answer.as_str() == text,
        Err(_) => false,
    };
    Ok(is_answered && writes(alloc, command, line, text)?)
}
