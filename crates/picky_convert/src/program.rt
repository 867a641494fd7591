//! The run of the program over a source and two sinks.

ghost use Rattle.std.specs.Prelude.{◌≡◌, ◌≢◌, ◌⊎◌, ℕ, List, true, Result, Ok, Err, string_bytes};
ghost use Rattle.picky_wire.specs.Count.{Rose};
ghost use Rattle.picky_wire.specs.Puts.{Puts};
ghost use Rattle.picky_suite.specs.Asked.{IsAskedAtMost};
ghost use Rattle.picky_input.specs.Extent.{IsUnasked, ReadsInput, WritesLast};
ghost use Rattle.picky_conversion.specs.Outside.{outside, outside_of};
ghost use Rattle.picky_convert.specs.Command.{Names, command_of as command_named};
ghost use Rattle.picky_convert.specs.Run.{extent_by, extent_for, input_for, moment, outcome, outcome_asks};
ghost use Rattle.picky_convert.specs.Run.{outcome_signs, Devices, Ends};
ghost use Rattle.picky_convert.specs.Run.{IsTooLongFor, IsValid, Says, SaysEnd, WritesAnswer};
ghost use Rattle.picky_convert.specs.Report.{report};
ghost use Rattle.picky_convert.specs.inner.Causes.{extent_at, Comes};

use crate::command::{Command, command_of, perform, reads_source};
use crate::error::Status;
use crate::reports::word;
use picky_conversion::{ConversionGiven, is_given};
use picky_input::{InputError, read_input};
use picky_suite::{Signer, Suite};
use picky_target::ConvertError;
use picky_wire::{NoMemory, Piece, Sink, Source, Text, write_all, write_pieces};
use std::alloc::Global;

/// Does what the words say (docs/FORMATS.md, "Commands") with the text that the source gives, onto `out`, and says on `err` how it
/// ended. The key text is read under one passphrase, and a private key is sealed under the other, where there is one, with the
/// fresh bytes; a certificate has the first 32 of them as its nonce. For `sample` nothing is read.
///
/// Refuses, in order: `Usage`, `ReadFault`, `InputTooLong`, `InputNotUtf8`, `Refused` (of `fingerprint` with `Input` alone) or,
/// in place of the suite's or the signer's fault, `OutsideFault`, `WriteFault`. What a fault of `err` cuts off of its line is
/// left out.
pub fn run<S: Suite, G: Signer, I: Source, O: Sink, E: Sink>(
    alloc: Global,
    words: &[Text],
    pass_in: Option<&str>,
    pass_out: Option<&str>,
    fresh: &[u8],
    suite: &mut S,
    signer: &mut G,
    source: &mut I,
    out: &mut O,
    err: &mut E,
) -> Status
    // What Done means.
    ensures done { let o = outside_of (S.meanings suite.old) pass_in.entry pass_out.entry fresh.now in
        (c : Command) → Names words.now c → result ≡ Status.Done → I.tells source.old → O.tells out.old
        → WritesAnswer (G.signs signer.old) o c (input_for c (I.left source.old)) (O.written out.old) (O.written out.new) }

    // What each status says: of the bytes that the source tells, and of some, whether or not it tells them.
    ensures ends { let o = outside_of (S.meanings suite.old) pass_in.entry pass_out.entry fresh.now in
        (c : Command) → Names words.now c → I.tells source.old
        → Ends (G.signs signer.old) o c (input_for c (I.left source.old)) (O.tells out.old)
        (moment (O.written out.old) (I.faults source.old) (O.faults out.old) (S.faults suite.old) (G.faults signer.old))
        (moment (O.written out.new) (I.faults source.new) (O.faults out.new) (S.faults suite.new) (G.faults signer.new)) result }
    ensures ends_for_some { let o = outside_of (S.meanings suite.old) pass_in.entry pass_out.entry fresh.now in
        (c : Command) → Names words.now c → (left : List ℕ)
        × Ends (G.signs signer.old) o c (input_for c left) (O.tells out.old)
        (moment (O.written out.old) (I.faults source.old) (O.faults out.old) (S.faults suite.old) (G.faults signer.old))
        (moment (O.written out.new) (I.faults source.new) (O.faults out.new) (S.faults suite.new) (G.faults signer.new)) result }
    ensures usage { ((c : Command) → Names words.now c → ⊥) → (result ≡ Status.Usage) ⊎ (result ≡ Status.NoMemory) }

    // Where nothing was counted, the status is the one that the bytes have, or memory ran out.
    ensures exact { let o = outside_of (S.meanings suite.old) pass_in.entry pass_out.entry fresh.now in
        (c : Command) → Names words.now c → I.tells source.old → (Rose (I.faults source.old) (I.faults source.new) → ⊥)
        → (outcome_asks o c (input_for c (I.left source.old)) ≡ true → Rose (S.faults suite.old) (S.faults suite.new) → ⊥)
        → (status : Status) → outcome o c (input_for c (I.left source.old)) ≡ Err status
        → (result ≡ status) ⊎ (result ≡ Status.NoMemory) }
    ensures complete { let o = outside_of (S.meanings suite.old) pass_in.entry pass_out.entry fresh.now in
        (c : Command) → Names words.now c → I.tells source.old → IsValid o c (input_for c (I.left source.old))
        → (Rose (I.faults source.old) (I.faults source.new) → ⊥) → (Rose (O.faults out.old) (O.faults out.new) → ⊥)
        → (outcome_asks o c (input_for c (I.left source.old)) ≡ true → Rose (S.faults suite.old) (S.faults suite.new) → ⊥)
        → (outcome_signs o c (input_for c (I.left source.old)) ≡ true → Rose (G.faults signer.old) (G.faults signer.new) → ⊥)
        → (result ≡ Status.Done) ⊎ (result ≡ Status.NoMemory) ⊎ ((result ≡ Status.Refused ConvertError.TooLong)
        × IsTooLongFor (G.signs signer.old) (outcome o c (input_for c (I.left source.old)))) }

    // What is left of the source, the sink and the devices, and what is said.
    ensures source { ReadsInput I.tells I.left I.faults (extent_by (command_named words.now) result) source.old source.new }
    ensures out { WritesLast O.tells O.faults (result ≡ Status.WriteFault)
        ((result ≢ Status.Done) × (result ≢ Status.WriteFault)) out.old out.new }
    ensures devices { let o = outside_of (S.meanings suite.old) pass_in.entry pass_out.entry fresh.now in
        Devices S.meanings S.faults G.signs G.faults (result ≡ Status.OutsideFault)
        ((c : Command) → Names words.now c → IsUnasked (I.tells source.old) (outcome_asks o c) (input_for c (I.left source.old)))
        ((c : Command) → Names words.now c → IsUnasked (I.tells source.old) (outcome_signs o c) (input_for c (I.left source.old)))
        suite.old suite.new signer.old signer.new }
    ensures said { SaysEnd E.tells E.written E.faults result err.old err.new }
    ensures suite_asked { IsAskedAtMost 4 S.calls suite.old suite.new }
    ensures signer_asked { IsAskedAtMost 1 G.calls signer.old signer.new }
{
    is_given(pass_in, pass_out, fresh);
    let given = ConversionGiven {
        pass_in,
        pass_out,
        fresh,
    };
    let status = attempt(alloc, words, given, suite, signer, source, out);
    tell(&status, err);
    status
}

/// The run but for its line on `err`.
fn attempt<S: Suite, G: Signer, I: Source, O: Sink>(
    alloc: Global,
    words: &[Text],
    given: ConversionGiven<'_>,
    suite: &mut S,
    signer: &mut G,
    source: &mut I,
    out: &mut O,
) -> Status
    ensures ends { (c : Command) → Names words.now c → I.tells source.old
        → Ends (G.signs signer.old) (outside (S.meanings suite.old) given.entry) c (input_for c (I.left source.old)) (O.tells out.old)
        (moment (O.written out.old) (I.faults source.old) (O.faults out.old) (S.faults suite.old) (G.faults signer.old))
        (moment (O.written out.new) (I.faults source.new) (O.faults out.new) (S.faults suite.new) (G.faults signer.new)) result }
    ensures ends_for_some { (c : Command) → Names words.now c → (left : List ℕ)
        × Ends (G.signs signer.old) (outside (S.meanings suite.old) given.entry) c (input_for c left) (O.tells out.old)
        (moment (O.written out.old) (I.faults source.old) (O.faults out.old) (S.faults suite.old) (G.faults signer.old))
        (moment (O.written out.new) (I.faults source.new) (O.faults out.new) (S.faults suite.new) (G.faults signer.new)) result }
    ensures usage { ((c : Command) → Names words.now c → ⊥) → (result ≡ Status.Usage) ⊎ (result ≡ Status.NoMemory) }
    ensures source { ReadsInput I.tells I.left I.faults (extent_by (command_named words.now) result) source.old source.new }
    ensures out { WritesLast O.tells O.faults (result ≡ Status.WriteFault)
        ((result ≢ Status.Done) × (result ≢ Status.WriteFault)) out.old out.new }
    ensures devices { Devices S.meanings S.faults G.signs G.faults (result ≡ Status.OutsideFault)
        ((c : Command) → Names words.now c → IsUnasked (I.tells source.old) (outcome_asks (outside (S.meanings suite.old) given.entry) c) (input_for c (I.left source.old)))
        ((c : Command) → Names words.now c → IsUnasked (I.tells source.old) (outcome_signs (outside (S.meanings suite.old) given.entry) c) (input_for c (I.left source.old)))
        suite.old suite.new signer.old signer.new }
    ensures suite_asked { IsAskedAtMost 4 S.calls suite.old suite.new }
    ensures signer_asked { IsAskedAtMost 1 G.calls signer.old signer.new }
{
    match command_of(alloc, words) {
        Ok(Some(command)) => carry_out(alloc, command, given, suite, signer, source, out),
        Ok(None) => Status::Usage,
        Err(NoMemory) => Status::NoMemory,
    }
}

/// Does what the command says, and answers how that ended.
fn carry_out<S: Suite, G: Signer, I: Source, O: Sink>(
    alloc: Global,
    command: Command,
    given: ConversionGiven<'_>,
    suite: &mut S,
    signer: &mut G,
    source: &mut I,
    out: &mut O,
) -> Status
    ensures told { I.tells source.old
        → Ends (G.signs signer.old) (outside (S.meanings suite.old) given.entry) command (input_for command (I.left source.old)) (O.tells out.old)
        (moment (O.written out.old) (I.faults source.old) (O.faults out.old) (S.faults suite.old) (G.faults signer.old))
        (moment (O.written out.new) (I.faults source.new) (O.faults out.new) (S.faults suite.new) (G.faults signer.new)) result }
    ensures some { (left : List ℕ)
        × Ends (G.signs signer.old) (outside (S.meanings suite.old) given.entry) command (input_for command left) (O.tells out.old)
        (moment (O.written out.old) (I.faults source.old) (O.faults out.old) (S.faults suite.old) (G.faults signer.old))
        (moment (O.written out.new) (I.faults source.new) (O.faults out.new) (S.faults suite.new) (G.faults signer.new)) result }
    ensures source { ReadsInput I.tells I.left I.faults (extent_for command result) source.old source.new }
    ensures out { WritesLast O.tells O.faults (result ≡ Status.WriteFault)
        ((result ≢ Status.Done) × (result ≢ Status.WriteFault)) out.old out.new }
    ensures devices { Devices S.meanings S.faults G.signs G.faults (result ≡ Status.OutsideFault)
        (IsUnasked (I.tells source.old) (outcome_asks (outside (S.meanings suite.old) given.entry) command) (input_for command (I.left source.old)))
        (IsUnasked (I.tells source.old) (outcome_signs (outside (S.meanings suite.old) given.entry) command) (input_for command (I.left source.old)))
        suite.old suite.new signer.old signer.new }
    ensures suite_asked { IsAskedAtMost 4 S.calls suite.old suite.new }
    ensures signer_asked { IsAskedAtMost 1 G.calls signer.old signer.new }
{
    match take_text(alloc, command, given, suite, signer, source) {
        Ok(text) => match put(out, text.as_str()) {
            Ok(()) => Status::Done,
            Err(fault) => fault,
        },
        Err(status) => status,
    }
}

/// Writes the text, or a prefix of it up to a fault. Refuses: `WriteFault`.
fn put<O: Sink>(out: &mut O, text: &str) -> Result<(), Status>
    ensures { Puts O.tells O.written O.faults Status.WriteFault text.now result out.old out.new }
{
    match write_all(out, text.as_bytes()) {
        Ok(()) => Ok(()),
        Err(_) => Err(Status::WriteFault),
    }
}

/// The text that the command writes: for the bytes of the source, where it reads that.
fn take_text<S: Suite, G: Signer, I: Source>(
    alloc: Global,
    command: Command,
    given: ConversionGiven<'_>,
    suite: &mut S,
    signer: &mut G,
    source: &mut I,
) -> Result<String, Status>
    ensures told { I.tells source.old
        → Comes (G.signs signer.old) string_bytes (outside (S.meanings suite.old) given.entry) command (input_for command (I.left source.old))
        (Rose (I.faults source.old) (I.faults source.new)) (Rose (S.faults suite.old) (S.faults suite.new)) (Rose (G.faults signer.old) (G.faults signer.new)) result }
    ensures some { (left : List ℕ)
        × Comes (G.signs signer.old) string_bytes (outside (S.meanings suite.old) given.entry) command (input_for command left)
        (Rose (I.faults source.old) (I.faults source.new)) (Rose (S.faults suite.old) (S.faults suite.new)) (Rose (G.faults signer.old) (G.faults signer.new)) result }
    ensures source { ReadsInput I.tells I.left I.faults (extent_at command result) source.old source.new }
    ensures devices { Devices S.meanings S.faults G.signs G.faults (result ≡ Err Status.OutsideFault)
        (IsUnasked (I.tells source.old) (outcome_asks (outside (S.meanings suite.old) given.entry) command) (input_for command (I.left source.old)))
        (IsUnasked (I.tells source.old) (outcome_signs (outside (S.meanings suite.old) given.entry) command) (input_for command (I.left source.old)))
        suite.old suite.new signer.old signer.new }
    ensures suite_asked { IsAskedAtMost 4 S.calls suite.old suite.new }
    ensures signer_asked { IsAskedAtMost 1 G.calls signer.old signer.new }
{
    if reads_source(&command) {
        match read_input(alloc, source) {
            Ok(input) => perform(alloc, command, given, suite, signer, input.as_slice()),
            Err(InputError::ReadFault) => {
                drop(command);
                Err(Status::ReadFault)
            }
            Err(InputError::TooLong) => {
                drop(command);
                Err(Status::InputTooLong)
            }
            Err(InputError::NoMemory) => {
                drop(command);
                Err(Status::NoMemory)
            }
        }
    } else {
        perform(alloc, command, given, suite, signer, &[])
    }
}

/// Writes the line of a status but Done.
fn tell<E: Sink>(status: &Status, err: &mut E)
    ensures quiet { status.now ≡ Status.Done → err.new ≡ err.old }
    ensures said { status.now ≢ Status.Done → Says E.tells E.written E.faults (report status.now) err.old err.new }
{
    match status {
        Status::Done => {}
        Status::Refused(_)
        | Status::Usage
        | Status::ReadFault
        | Status::WriteFault
        | Status::OutsideFault
        | Status::NoMemory
        | Status::InputTooLong
        | Status::InputNotUtf8 => {
            let word = word(status);
            let _ = write_pieces(
                err,
                &[
                    Piece::raw(b"keyconv: "),
                    Piece::raw(word.path.as_bytes()),
                    Piece::raw(word.name.as_bytes()),
                    Piece::raw(b"\n"),
                ],
            );
        }
    }
}
