//! The program: its words, its passphrase, standard input, standard output and standard error.
#![tactic(auto)]

use picky_inventory::{InventoryStatus, run_inventory};
use picky_main::{GivenError, text_given, variable, words};
use picky_suite::PlainSuite;
use picky_wire::{StdSink, StdSource, Text};
use std::process::ExitCode;

const HELP: &str = "usage: keyinventory list|merge < TEXTS

Says which keys a heap of key texts has, each once. Reads standard input, and
writes to standard output:

  list       the inventory of key texts, with a line %% between two
  merge      the inventory of all that is in one of two inventories, with such
             a line between them
  --help     this text, and --version the version and the toolchain

An inventory has a line for each key, in the order of their bytes: private or
public, the public key in base64, and the comment in base64. A key text is
whatever keyconv reads; one that isn't read ends the run. The manual,
keyinventory(1), says more.

Environment: KEYCONV_PASS_IN, the passphrase of encrypted keys. This program has
no ciphers: such a key ends with status 1 without it, and with 5 with it. List
its public key, or a copy without passphrase.

Status: 0 done, 1 a text isn't a key's or a line isn't an inventory's, 2 usage,
3 read fault, 4 write fault, 5 no cipher, 6 out of memory, 7 input over 16 MiB,
8 input not UTF-8. Only 2 has a line on standard error.
";

const VERSION: &str = "keyinventory 0.1.0 (rattle-kit-13f)\n";

const PASS_IN: &str = "KEYCONV_PASS_IN";

fn main(rt: HostRuntime) -> ExitCode {
    match words(&rt) {
        Ok(words) => answer(&rt, words.as_slice()),
        Err(e) => end(&rt, e),
    }
}

/// Does what the words say.
fn answer(rt: &HostRuntime, words: &[Text]) -> ExitCode {
    match words {
        [word] if word.as_str() == "--help" => print(rt, HELP),
        [word] if word.as_str() == "--version" => print(rt, VERSION),
        words => perform(rt, words),
    }
}

/// Runs the command with what the environment gives.
fn perform(rt: &HostRuntime, words: &[Text]) -> ExitCode {
    match variable(rt, PASS_IN) {
        Ok(pass_in) => start(rt, words, text_given(&pass_in)),
        Err(e) => end(rt, e),
    }
}

/// Runs the command over the standard streams.
fn start(rt: &HostRuntime, words: &[Text], pass_in: Option<&str>) -> ExitCode {
    let mut suite = PlainSuite::new();
    let mut source = StdSource::new(rt.stdin());
    let mut out = StdSink::new(rt.stdout());
    let mut err = StdSink::new(rt.stderr());
    let status = run_inventory(
        rt.alloc(),
        words,
        pass_in,
        &mut suite,
        &mut source,
        &mut out,
        &mut err,
    );
    exit_code(status)
}

/// Prints a text on standard output.
fn print(rt: &HostRuntime, text: &str) -> ExitCode {
    match rt.print(text) {
        Ok(()) => ExitCode::SUCCESS,
        Err(_) => exit_code(InventoryStatus::WriteFault),
    }
}

/// Ends where something given can't be taken: no words are those of a faulty command line, whose usage line the run writes.
fn end(rt: &HostRuntime, e: GivenError) -> ExitCode {
    match e {
        GivenError::Unfit => start(rt, &[], None),
        GivenError::NoMemory => exit_code(InventoryStatus::NoMemory),
    }
}

/// How the process ends.
fn exit_code(status: InventoryStatus) -> ExitCode {
    let code = status.exit_code();
    drop(status);
    ExitCode::from(code)
}
