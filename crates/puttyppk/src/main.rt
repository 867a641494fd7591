//! The program: its words, standard input, standard output and standard error.
#![tactic(auto)]

use picky_main::{GivenError, words};
use picky_puttyppk::{PuttyPpkStatus, run_puttyppk};
use picky_suite::PlainSuite;
use picky_wire::{StdSink, StdSource, Text, write_all};
use std::process::ExitCode;

const HELP: &str = "usage: puttyppk < PPK

Writes a PuTTY private key file as PuTTY's own programs write it. Reads one of
version 2 or 3 from standard input, and writes to standard output the same
version, key and comment.

  --help     this text
  --version  the version and the toolchain

keyconv ppk2 and ppk3 write the secret of an Ed25519 key as a number, which
PuTTY takes for another secret in about every second file. Here it is a string
of 32 bytes, as PuTTY has it:

  keyconv ppk3 < key | puttyppk > key.ppk

The fields of other files, and of one that PuTTY wrote, stay as they are. This
program has no ciphers: an encrypted file ends with status 1.

Status: 0 done, 1 the text is no such file, 2 usage, 3 read fault, 4 write
fault, 6 out of memory, 7 input over 16 MiB, 8 input not UTF-8. With 0 all is
written, with 4 a part or nothing, with the others nothing. Only 2 has a line
on standard error.
";

const VERSION: &str = "puttyppk 0.1.0 (rattle-kit-13f)\n";

const USAGE_LINE: &str = "usage: puttyppk < PPK\n";

/// How the process ends where there are words.
const USAGE: u8 = 2;

fn main(rt: HostRuntime) -> ExitCode {
    match words(&rt) {
        Ok(words) => answer(&rt, words.as_slice()),
        Err(GivenError::Unfit) => usage(&rt),
        Err(GivenError::NoMemory) => exit_code(PuttyPpkStatus::NoMemory),
    }
}

/// Does what the words say.
fn answer(rt: &HostRuntime, words: &[Text]) -> ExitCode {
    match words {
        [] => start(rt),
        [word] if word.as_str() == "--help" => print(rt, HELP),
        [word] if word.as_str() == "--version" => print(rt, VERSION),
        _ => usage(rt),
    }
}

/// Runs over the standard streams.
fn start(rt: &HostRuntime) -> ExitCode {
    let suite = PlainSuite::new();
    let mut source = StdSource::new(rt.stdin());
    let mut out = StdSink::new(rt.stdout());
    exit_code(run_puttyppk(rt.alloc(), &suite, &mut source, &mut out))
}

/// Prints a text on standard output.
fn print(rt: &HostRuntime, text: &str) -> ExitCode {
    match rt.print(text) {
        Ok(()) => ExitCode::SUCCESS,
        Err(_) => exit_code(PuttyPpkStatus::WriteFault),
    }
}

/// Ends where there are words, with a line on standard error, whose faults change nothing.
fn usage(rt: &HostRuntime) -> ExitCode {
    let mut err = StdSink::new(rt.stderr());
    let _ = write_all(&mut err, USAGE_LINE.as_bytes());
    ExitCode::from(USAGE)
}

/// How the process ends.
fn exit_code(status: PuttyPpkStatus) -> ExitCode {
    let code = status.exit_code();
    drop(status);
    ExitCode::from(code)
}
