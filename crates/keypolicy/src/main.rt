//! The program: its words, the message that was verified, standard input and standard output.
#![tactic(auto)]

use picky_main::{GivenError, hex_variable, words};
use picky_policy::{HandedVerifier, PolicyStatus, run_policy};
use picky_wire::{Bytes, StdSink, StdSource, Text};
use std::process::ExitCode;

const HELP: &str = "usage: keypolicy decide USER MOMENT < SOURCE
       keypolicy message < SOURCE

Says whether who offers a key or a certificate gets in by authorized keys. Reads
the authorized keys, a line %%, and the line of the key or the certificate.

  decide USER MOMENT  grants or denies, at a moment in seconds since 1970
  message             what a certificate's issuer signed, in hex; an empty line
                      for a key
  --help, --version   this text, the version and the toolchain

A grant has the line's number and then what to keep to: command, source,
verify-required, option. A denial has the first rule that fails: NoLine,
NoAuthority, NotClient, NotYet, Expired, Principal, CriticalOption or
BadSignature. The manual, keypolicy(1), says more.

Environment: KEYPOLICY_VERIFIED, in hex, the message whose signature another
program found good under the issuer's key. Without it a certificate that no
other rule denies ends with status 6; with another message it is denied.
Status: 0 granted or message written, 1 denied, 2 usage, 3 the offer isn't read,
4 read fault, 5 write fault, 6 nothing was verified, 7 out of memory, 8 input
over 16 MiB, 9 input not UTF-8. Nothing goes to standard error.
";

const VERSION: &str = "keypolicy 0.1.0 (rattle-kit-13f)\n";

const VERIFIED: &str = "KEYPOLICY_VERIFIED";

fn main(rt: HostRuntime) -> ExitCode {
    match words(&rt) {
        Ok(words) => answer(&rt, words.as_slice()),
        Err(e) => end(e),
    }
}

/// Does what the words say.
fn answer(rt: &HostRuntime, words: &[Text]) -> ExitCode {
    match words {
        [word] if word.as_str() == "--help" => print(rt, HELP),
        [word] if word.as_str() == "--version" => print(rt, VERSION),
        words => perform(rt, words),
    }
}

/// Runs the command with what the environment gives.
fn perform(rt: &HostRuntime, words: &[Text]) -> ExitCode {
    match hex_variable(rt, VERIFIED) {
        Ok(verified) => start(rt, words, verified),
        Err(e) => end(e),
    }
}

/// Runs the command over the standard streams.
fn start(rt: &HostRuntime, words: &[Text], verified: Option<Bytes>) -> ExitCode {
    let mut verifier = HandedVerifier::new(verified);
    let mut source = StdSource::new(rt.stdin());
    let mut out = StdSink::new(rt.stdout());
    let status = run_policy(rt.alloc(), words, &mut verifier, &mut source, &mut out);
    exit_code(status)
}

/// Prints a text on standard output.
fn print(rt: &HostRuntime, text: &str) -> ExitCode {
    match rt.print(text) {
        Ok(()) => ExitCode::SUCCESS,
        Err(_) => exit_code(PolicyStatus::WriteFault),
    }
}

/// Ends where something given can't be taken.
fn end(e: GivenError) -> ExitCode {
    match e {
        GivenError::Unfit => exit_code(PolicyStatus::Usage),
        GivenError::NoMemory => exit_code(PolicyStatus::NoMemory),
    }
}

/// How the process ends.
fn exit_code(status: PolicyStatus) -> ExitCode {
    ExitCode::from(status.exit_code())
}
