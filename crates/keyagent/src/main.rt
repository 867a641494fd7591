//! The program: its signature, standard input and standard output.
#![tactic(auto)]

use picky_agent::{Agent, AgentStatus, serve};
use picky_main::{GivenError, hex_variable, words};
use picky_suite::HandedSigner;
use picky_wire::{Bytes, StdSink, StdSource, Text};
use std::process::ExitCode;

const HELP: &str = "usage: keyagent < MESSAGES > REPLIES

Keeps private keys, as an SSH agent does. Reads the messages of an agent's
protocol (draft-miller-ssh-agent-04), each behind its length in four bytes, and
writes the reply to each before it reads the next. What it keeps ends with it.
--help prints this text, and --version the version and the toolchain; other
words are ignored. The manual, keyagent(1), says more.

  11  lists the identities       18, 19  remove an identity, or all of them
  13  signs with an identity     22, 23  lock and unlock, under a passphrase
  17  adds an identity

Other messages fail. While it is locked 11 lists none, and all but 23 fail. It
keeps 1,024 identities, and takes 262,144 bytes a message. It has no socket, and
asks nobody: whoever writes to it may use what it keeps.

Environment: KEYCONV_SIGNATURE, the signature that another device made, in hex
and without the name of its format. It is given for any message and key: this
program signs nothing itself.
Status: 0 done, 1 a message's length is 0 or above 262,144, 2 the input ends
inside a message, 3 read fault, 4 write fault, 5 out of memory,
6 18,446,744,073,709,551,615 messages were answered, 7 KEYCONV_SIGNATURE isn't
hex. Nothing goes to standard error.
";

const VERSION: &str = "keyagent 0.1.0 (rattle-kit-13f)\n";

const SIGNATURE: &str = "KEYCONV_SIGNATURE";

/// The status where the signature isn't hex.
const NOT_HEX: u8 = 7;

fn main(rt: HostRuntime) -> ExitCode {
    match words(&rt) {
        Ok(words) => answer(&rt, words.as_slice()),
        Err(GivenError::Unfit) => perform(&rt),
        Err(GivenError::NoMemory) => exit_code(AgentStatus::NoMemory),
    }
}

/// Does what the words say, where they are one of the two that say something.
fn answer(rt: &HostRuntime, words: &[Text]) -> ExitCode {
    match words {
        [word] if word.as_str() == "--help" => print(rt, HELP),
        [word] if word.as_str() == "--version" => print(rt, VERSION),
        _ => perform(rt),
    }
}

/// Serves with what the environment gives.
fn perform(rt: &HostRuntime) -> ExitCode {
    match hex_variable(rt, SIGNATURE) {
        Ok(signature) => exit_code(start(rt, signature)),
        Err(GivenError::Unfit) => ExitCode::from(NOT_HEX),
        Err(GivenError::NoMemory) => exit_code(AgentStatus::NoMemory),
    }
}

/// Serves the standard streams.
fn start(rt: &HostRuntime, signature: Option<Bytes>) -> AgentStatus {
    let mut agent = Agent::new(rt.alloc());
    let mut signer = HandedSigner::new(signature);
    let mut source = StdSource::new(rt.stdin());
    let mut out = StdSink::new(rt.stdout());
    serve(rt.alloc(), &mut agent, &mut signer, &mut source, &mut out)
}

/// Prints a text on standard output.
fn print(rt: &HostRuntime, text: &str) -> ExitCode {
    match rt.print(text) {
        Ok(()) => ExitCode::SUCCESS,
        Err(_) => exit_code(AgentStatus::WriteFault),
    }
}

/// How the process ends.
fn exit_code(status: AgentStatus) -> ExitCode {
    ExitCode::from(status.exit_code())
}
