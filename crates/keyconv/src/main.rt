//! The program: its words, its environment, standard input, standard output and standard error.
#![tactic(auto)]

use picky_convert::{Status, run, word};
use picky_main::{GivenError, bytes_given, hex_variable, text_given, variable, words};
use picky_suite::{HandedSigner, PlainSuite};
use picky_wire::{Bytes, StdSink, StdSource, Text};
use std::process::ExitCode;

const HELP: &str = "usage: keyconv COMMAND [OPTION VALUE]... < KEY, or keyconv sample N
An Ed25519 key for PuTTY: keyconv ppk3 < key | puttyppk > key.ppk. Without
puttyppk PuTTY takes about every second such file, silently, for another secret.

Reads a key or a certificate of OpenSSH or PuTTY from standard input. Writes:
  openssh      the private key and its comment as OpenSSH has them
  ppk2, ppk3   the same as PuTTY has them
  ssh-pub      the public key as a line, and putty-pub as PuTTY has it
  fingerprint  the MD5, SHA-1 and SHA-256 fingerprints, a line each
  cert         a certificate, with a signature that another device made
  tbs          what that device has to sign for it, in hex
  sample N     a summary of N sample keys, 1 to 1000; nothing is read
  --help       this text, and --version the version and the toolchain

cert and tbs read the issuer's key, a line %%, and the key that is certified.
They need --type NAME --kind client|host --after SECONDS --before SECONDS, and
take --serial NUMBER --id TEXT --principal NAME --critical NAME[=TEXT]
--extension NAME[=TEXT] --algorithm NAME. The manual, keyconv(1), says more.
Environment: KEYCONV_PASS_IN, the passphrase of an encrypted key, and that to
encrypt under, KEYCONV_PASS_OUT; in hex, KEYCONV_FRESH, fresh bytes, and
KEYCONV_SIGNATURE, the signature. This program has no ciphers and signs nothing.
Status: 0 done, 1 refused, 2 usage, 3 read fault, 4 write fault, 5 no cipher or
no signature, 6 out of memory, 7 input over 16 MiB, 8 input not UTF-8.
";

const VERSION: &str = "keyconv 0.1.0 (rattle-kit-13f)\n";

const PASS_IN: &str = "KEYCONV_PASS_IN";

const PASS_OUT: &str = "KEYCONV_PASS_OUT";

const FRESH: &str = "KEYCONV_FRESH";

const SIGNATURE: &str = "KEYCONV_SIGNATURE";

/// What the environment gives.
#[derive(Drop)]
struct Given {
    pass_in: Option<Text>,
    pass_out: Option<Text>,
    fresh: Option<Bytes>,
    signature: Option<Bytes>,
}

fn main(rt: HostRuntime) -> ExitCode {
    match words(&rt) {
        Ok(words) => answer(&rt, words.as_slice()),
        Err(e) => end(&rt, status_of(e)),
    }
}

/// Does what the words say.
fn answer(rt: &HostRuntime, words: &[Text]) -> ExitCode {
    match words {
        [word] if word.as_str() == "--help" => print(rt, HELP),
        [word] if word.as_str() == "--version" => print(rt, VERSION),
        words => perform(rt, words),
    }
}

/// Runs the command with what the environment gives.
fn perform(rt: &HostRuntime, words: &[Text]) -> ExitCode {
    match from_environment(rt) {
        Ok(given) => start(rt, words, given),
        Err(e) => end(rt, status_of(e)),
    }
}

/// Runs the command over the standard streams.
fn start(rt: &HostRuntime, words: &[Text], given: Given) -> ExitCode {
    let Given {
        pass_in,
        pass_out,
        fresh,
        signature,
    } = given;
    let mut suite = PlainSuite::new();
    let mut signer = HandedSigner::new(signature);
    let mut source = StdSource::new(rt.stdin());
    let mut out = StdSink::new(rt.stdout());
    let mut err = StdSink::new(rt.stderr());
    let status = run(
        rt.alloc(),
        words,
        text_given(&pass_in),
        text_given(&pass_out),
        bytes_given(&fresh),
        &mut suite,
        &mut signer,
        &mut source,
        &mut out,
        &mut err,
    );
    exit_code(status)
}

/// The passphrases, the fresh bytes and the signature.
fn from_environment(rt: &HostRuntime) -> Result<Given, GivenError> {
    let pass_in = variable(rt, PASS_IN)?;
    let pass_out = variable(rt, PASS_OUT)?;
    let fresh = hex_variable(rt, FRESH)?;
    let signature = hex_variable(rt, SIGNATURE)?;
    Ok(Given {
        pass_in,
        pass_out,
        fresh,
        signature,
    })
}

/// The status for what can't be taken.
fn status_of(e: GivenError) -> Status {
    match e {
        GivenError::Unfit => Status::Usage,
        GivenError::NoMemory => Status::NoMemory,
    }
}

/// Prints a text on standard output.
fn print(rt: &HostRuntime, text: &str) -> ExitCode {
    match rt.print(text) {
        Ok(()) => ExitCode::SUCCESS,
        Err(_) => end(rt, Status::WriteFault),
    }
}

/// Says on standard error how the program ended.
fn end(rt: &HostRuntime, status: Status) -> ExitCode {
    let word = word(&status);
    let _ = eprintln!(rt; "keyconv: {}{}", word.path, word.name);
    exit_code(status)
}

/// How the process ends.
fn exit_code(status: Status) -> ExitCode {
    let code = status.exit_code();
    drop(status);
    ExitCode::from(code)
}
