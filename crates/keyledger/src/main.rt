//! The program: its environment, standard input and standard output.
#![tactic(auto)]

use picky_ledger::{LedgerStatus, run_ledger};
use picky_main::{GivenError, bytes_given, hex_variable, words};
use picky_suite::HandedSigner;
use picky_wire::{Bytes, StdSink, StdSource, Text};
use std::process::ExitCode;

const HELP: &str = "usage: keyledger < LEDGER

Answers requests for certificates out of a ledger, in which no serial and no
request stands twice. Reads a ledger, a line %%, the issuer's public key line, a
line %%, and request lines. Writes the ledger after them, a line %%, and a reply
to each request. The first ledger is the line next 1 alone.
--help prints this text, and --version the version and the toolchain; other
words are ignored. The manual, keyledger(1), says more.

A request line is ID KIND PRINCIPALS AFTER BEFORE and the subject's public key
line: KIND is client or host, PRINCIPALS is - for none or names parted by
commas, AFTER and BEFORE are seconds since 1970. A reply is issued ID SERIAL,
again ID SERIAL, conflict ID SERIAL, full ID, refused ID NAME, or bad.

Environment: KEYCONV_FRESH, 32 fresh bytes for each request, in hex;
KEYCONV_SIGNATURE, the signature of the new certificate, in hex. This program
signs nothing itself: a run has one new request at most.
Status: 0 done, 1 fewer than two lines %%, 2 no ledger, 3 no issuer, 4 too few
fresh bytes, 5 the new ledger is too long, 6 read fault, 7 write fault, 8 no
signature, 9 out of memory, 10 input over 16 MiB, 11 input not UTF-8, 12 a
variable isn't hex. All is written with 0, a part or nothing with 7, else
nothing. Nothing goes to standard error.
";

const VERSION: &str = "keyledger 0.1.0 (rattle-kit-13f)\n";

const FRESH: &str = "KEYCONV_FRESH";

const SIGNATURE: &str = "KEYCONV_SIGNATURE";

/// The status where a variable isn't hex.
const NOT_HEX: u8 = 12;

fn main(rt: HostRuntime) -> ExitCode {
    match words(&rt) {
        Ok(words) => answer(&rt, words.as_slice()),
        Err(GivenError::Unfit) => perform(&rt),
        Err(GivenError::NoMemory) => exit_code(LedgerStatus::NoMemory),
    }
}

/// Does what the words say, which is the same for all but two.
fn answer(rt: &HostRuntime, words: &[Text]) -> ExitCode {
    match words {
        [word] if word.as_str() == "--help" => print(rt, HELP),
        [word] if word.as_str() == "--version" => print(rt, VERSION),
        _ => perform(rt),
    }
}

/// Answers the requests with what the environment gives.
fn perform(rt: &HostRuntime) -> ExitCode {
    match given(rt) {
        Ok((fresh, signature)) => start(rt, &fresh, signature),
        Err(GivenError::Unfit) => ExitCode::from(NOT_HEX),
        Err(GivenError::NoMemory) => exit_code(LedgerStatus::NoMemory),
    }
}

/// The fresh bytes and the signature.
fn given(rt: &HostRuntime) -> Result<(Option<Bytes>, Option<Bytes>), GivenError> {
    let fresh = hex_variable(rt, FRESH)?;
    let signature = hex_variable(rt, SIGNATURE)?;
    Ok((fresh, signature))
}

/// Answers the requests over the standard streams.
fn start(rt: &HostRuntime, fresh: &Option<Bytes>, signature: Option<Bytes>) -> ExitCode {
    let mut signer = HandedSigner::new(signature);
    let mut source = StdSource::new(rt.stdin());
    let mut out = StdSink::new(rt.stdout());
    exit_code(run_ledger(
        rt.alloc(),
        bytes_given(fresh),
        &mut signer,
        &mut source,
        &mut out,
    ))
}

/// Prints a text on standard output.
fn print(rt: &HostRuntime, text: &str) -> ExitCode {
    match rt.print(text) {
        Ok(()) => ExitCode::SUCCESS,
        Err(_) => exit_code(LedgerStatus::WriteFault),
    }
}

/// How the process ends.
fn exit_code(status: LedgerStatus) -> ExitCode {
    let code = status.exit_code();
    drop(status);
    ExitCode::from(code)
}
