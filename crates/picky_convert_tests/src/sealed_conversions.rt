//! Private keys that a run seals and opens, by the suite for tests and by one that fails.

use crate::private_conversions::secret_envelope;
use crate::runs::{End, Given, NOTHING, ROOM, Ran, ended, run_given, written_text};
use picky_key_rows::{HIGH, PASS, TOY_V3, ZERO_KEY, ZERO_TEXT};
use picky_suite::{MemorySuite, PlainSuite};
use picky_wire::SliceSource;
use std::alloc::Global;
use std::mem::ManuallyDrop;
use std::test::Fail;

// 16 bytes of salt and 12 of padding: the key's private bytes are 4.
const FRESH: &[u8] = &[7; 28];

const SEAL: Given<'static> = Given {
    pass_in: None,
    pass_out: Some("p"),
    fresh: FRESH,
};

const OPEN: Given<'static> = Given {
    pass_in: Some("p"),
    ..NOTHING
};

const DONE: (u8, &str) = (0, "");

const TOO_SHORT: (u8, &str) = (1, "keyconv: refused: FreshTooShort\n");

const FAULT: (u8, &str) = (5, "keyconv: outside fault\n");

/// A run of the command over the suite for tests, whose calls of these numbers fail.
fn run_over(
    alloc: Global,
    command: &str,
    input: &str,
    given: Given<'_>,
    failing: &[u64],
) -> Result<Ran, Fail> {
    let mut suite = ManuallyDrop::new(MemorySuite::new(alloc, failing)?);
    let mut source = SliceSource::new(input.as_bytes());
    run_given(
        alloc,
        &[command],
        given,
        &mut *suite,
        &mut source,
        (ROOM, 999),
    )
}

/// That run ends with this exit code and this line.
fn ends_over(
    alloc: Global,
    command: &str,
    input: &str,
    given: Given<'_>,
    failing: &[u64],
    end: (u8, &str),
) -> Result<bool, Fail> {
    let (code, line) = end;
    let ran = run_over(alloc, command, input, given, failing)?;
    Ok(ran.status.exit_code() == code && ran.err.written() == line.as_bytes())
}

/// What the command writes for the input under the passphrase `p`.
fn sealed(alloc: Global, command: &str, input: &str, fresh: &[u8]) -> Result<String, Fail> {
    let given = Given {
        pass_in: None,
        pass_out: Some("p"),
        fresh,
    };
    written_text(alloc, &run_over(alloc, command, input, given, &[])?)
}

// The calls of the suite that fail, and how a sealed text ends under its passphrase.
static OPENINGS: [(&[u64], (u8, &str)); 3] = [(&[], DONE), (&[0], FAULT), (&[1], FAULT)];

/// The sealed text opens under its passphrase alone, and the suite's fault stands in its place.
fn opens(alloc: Global, text: &str, locked: &str) -> Result<bool, Fail> {
    for (failing, end) in &OPENINGS {
        if !ends_over(alloc, "openssh", text, OPEN, failing, *end)? {
            return Ok(false);
        }
    }
    ends_over(alloc, "openssh", text, NOTHING, &[], (1, locked))
}

// A command that seals, and why what it sealed doesn't open without a passphrase.
static LOCKED: [(&str, &str); 2] = [
    ("ppk3", "keyconv: refused: input.putty.Encrypted\n"),
    (
        "openssh",
        "keyconv: refused: input.private.MissingPassphrase\n",
    ),
];

/// What the command seals opens.
fn seals(alloc: Global, command: &str, locked: &str) -> Result<bool, Fail> {
    let text = ManuallyDrop::new(sealed(alloc, command, ZERO_KEY, FRESH)?);
    opens(alloc, text.as_str(), locked)
}

#[test]
fn seals_and_opens(rt: HostRuntime) -> Result<(), Fail> {
    for (command, locked) in &LOCKED {
        assert!(rt; seals(rt.alloc(), command, locked)?, "{command}");
    }
    Ok(())
}

/// A command, the passphrase that it seals under, how many fresh bytes there are, the calls that fail, and how it ends.
type Sealing = (
    &'static str,
    &'static str,
    usize,
    &'static [u64],
    (u8, &'static str),
);

static SEALINGS: [Sealing; 10] = [
    ("ppk3", "p", 28, &[], DONE),
    ("ppk3", "p", 27, &[], TOO_SHORT),
    ("ppk2", "p", 12, &[], DONE),
    (
        "openssh",
        "",
        16,
        &[],
        (1, "keyconv: refused: output.private.HashingError\n"),
    ),
    ("openssh", "p", 15, &[], TOO_SHORT),
    ("ppk3", "p", 28, &[0], FAULT),
    ("ppk3", "p", 28, &[1], FAULT),
    ("openssh", "p", 16, &[0], FAULT),
    ("openssh", "p", 16, &[1], FAULT),
    ("ppk3", "p", 28, &[2, 3, 4, 5, 6, 7, 8, 9], DONE),
];

// Of a secret whose private bytes are 37, a length and 33 bytes of a number: 11 are padding.
static SECRET_SEALINGS: [Sealing; 5] = [
    ("ppk3", "p", 27, &[], DONE),
    ("ppk3", "p", 26, &[], TOO_SHORT),
    ("ppk3", "p", 27, &[0], FAULT),
    ("ppk3", "p", 27, &[1], FAULT),
    ("ppk3", "p", 27, &[2, 3, 4, 5, 6, 7, 8, 9], DONE),
];

/// The row's command over the text ends so.
fn seals_so(alloc: Global, input: &str, row: &Sealing) -> Result<bool, Fail> {
    let (command, pass, len, failing, end) = row;
    let (fresh, _) = FRESH.split_at((*len).min(FRESH.len()));
    let given = Given {
        pass_in: None,
        pass_out: Some(pass),
        fresh,
    };
    ends_over(alloc, command, input, given, failing, *end)
}

#[test]
fn seals_with_fresh_bytes(rt: HostRuntime) -> Result<(), Fail> {
    for row in &SEALINGS {
        let (command, _, len, failing, _) = row;
        assert!(rt;
            seals_so(rt.alloc(), ZERO_KEY, row)?,
            "{command}, {len}, {failing:?}"
        );
    }
    Ok(())
}

/// The sealed text opens as the envelope, under the passphrase alone.
fn opens_as(alloc: Global, sealed: &str, envelope: &str) -> Result<bool, Fail> {
    let refusal = "keyconv: refused: input.putty.Encrypted\n";
    Ok(
        opens(alloc, sealed, refusal)?
            && writes_over(alloc, "openssh", sealed, OPEN, &[], envelope)?,
    )
}

fn comes_back(alloc: Global, envelope: &str) -> Result<bool, Fail> {
    let text = ManuallyDrop::new(sealed(alloc, "ppk3", envelope, &FRESH[..27])?);
    opens_as(alloc, text.as_str(), envelope)
}

/// The rows hold of the text, it comes back, and a suite without ciphers fails.
fn is_sealed(alloc: Global, envelope: &str) -> Result<bool, Fail> {
    for row in &SECRET_SEALINGS {
        if !seals_so(alloc, envelope, row)? {
            return Ok(false);
        }
    }
    Ok(comes_back(alloc, envelope)? && fails_over_none(alloc, "ppk3", envelope, SEAL)?)
}

fn is_secret_sealed(alloc: Global, secret: [u8; 32]) -> Result<bool, Fail> {
    let envelope = ManuallyDrop::new(secret_envelope(alloc, secret)?);
    is_sealed(alloc, envelope.as_str())
}

#[test]
fn seals_a_secret_as_a_number(rt: HostRuntime) -> Result<(), Fail> {
    assert!(rt; is_secret_sealed(rt.alloc(), HIGH)?);
    Ok(())
}

/// That run writes the text.
fn writes_over(
    alloc: Global,
    command: &str,
    input: &str,
    given: Given<'_>,
    failing: &[u64],
    text: &str,
) -> Result<bool, Fail> {
    let ran = run_over(alloc, command, input, given, failing)?;
    let end = End {
        code: 0,
        out: text.as_bytes(),
        err: "",
    };
    Ok(ended(&ran, end))
}

// base64.b64encode(bytes(17)) in place of the file's 48 private bytes; the MAC isn't looked at.
fn is_no_block(alloc: Global) -> Result<bool, Fail> {
    let text = ManuallyDrop::new(TOY_V3.replace(
        alloc,
        "6oyHO9HyHO8Ldw4UYJtkSG5IE709yF+OR9h799vSztcUR+aLOm79o/FzFwbR6cGG",
        "AAAAAAAAAAAAAAAAAAAAAAA=",
    )?);
    let given = Given {
        pass_in: Some(PASS),
        ..NOTHING
    };
    let refusal = (1, "keyconv: refused: input.putty.Aes\n");
    ends_over(alloc, "openssh", text.as_str(), given, &[], refusal)
}

#[test]
fn opens_whole_blocks(rt: HostRuntime) -> Result<(), Fail> {
    assert!(rt; is_no_block(rt.alloc())?);
    Ok(())
}

/// Over a suite that has no ciphers, where `err` has so much room, the run fails with this line.
fn fails_with(
    alloc: Global,
    command: &str,
    input: &str,
    given: Given<'_>,
    err_room: usize,
    line: &str,
) -> Result<bool, Fail> {
    let mut suite = PlainSuite::new();
    let mut source = SliceSource::new(input.as_bytes());
    let rooms = (ROOM, err_room);
    let ran = run_given(alloc, &[command], given, &mut suite, &mut source, rooms)?;
    let end = End {
        code: 5,
        out: b"",
        err: line,
    };
    Ok(ended(&ran, end))
}

/// So it does, and alike where `err` takes nothing.
fn fails_over_none(
    alloc: Global,
    command: &str,
    input: &str,
    given: Given<'_>,
) -> Result<bool, Fail> {
    let line = "keyconv: outside fault\n";
    Ok(
        fails_with(alloc, command, input, given, 999, line)?
            && fails_with(alloc, command, input, given, 0, "")?,
    )
}

fn has_no_cipher(alloc: Global, command: &str) -> Result<bool, Fail> {
    let text = ManuallyDrop::new(sealed(alloc, command, ZERO_KEY, FRESH)?);
    Ok(
        fails_over_none(alloc, command, ZERO_KEY, SEAL)?
            && fails_over_none(alloc, "openssh", text.as_str(), OPEN)?,
    )
}

#[test]
fn fails_where_there_is_no_cipher(rt: HostRuntime) -> Result<(), Fail> {
    for command in ["openssh", "ppk2", "ppk3"] {
        assert!(rt; has_no_cipher(rt.alloc(), command)?, "{command}");
    }
    Ok(())
}

#[test]
fn asks_nothing_without_a_passphrase(rt: HostRuntime) -> Result<(), Fail> {
    let failing = &[0, 1, 2, 3, 4, 5, 6, 7, 8, 9];
    assert!(rt; writes_over(rt.alloc(), "ppk3", ZERO_KEY, NOTHING, failing, ZERO_TEXT)?);
    assert!(rt; writes_over(rt.alloc(), "openssh", ZERO_TEXT, NOTHING, failing, ZERO_KEY)?);
    assert!(rt; ends_over(rt.alloc(), "ppk2", ZERO_KEY, NOTHING, failing, (0, ""))?);
    Ok(())
}
