//! The run of the program over a source and two sinks.

ghost use Rattle.std.specs.Prelude.{◌≡◌, ◌≢◌, ◌↔◌, ◌⊎◌, ◌++◌, ℕ, List, Some, Ok, Err};
ghost use Rattle.std.specs.List.{AllByRecursion};
ghost use Rattle.std.specs.Option.{IfSome, option_copied};
ghost use Rattle.std.specs.Str.{IsUtf8};
ghost use Rattle.picky_wire.specs.Count.{Rose};
ghost use Rattle.picky_wire.specs.Puts.{Puts};
ghost use Rattle.picky_input.specs.Extent.{LeavesDevice, ReadsInput, WritesLast};
ghost use Rattle.picky_key_text.specs.Reader.{Reader};
ghost use Rattle.picky_inventory.specs.BadLine.{IsInventory};
ghost use Rattle.picky_inventory.specs.Command.{command_of as command_named, Names};
ghost use Rattle.picky_inventory.specs.Items.{Item, IsItem};
ghost use Rattle.picky_inventory.specs.Merging.{left_part, right_part};
ghost use Rattle.picky_inventory.specs.Run.{extent_of, outcome, reader, Ends, IsOfLists, IsOutsideFault, SaysUsage};
ghost use Rattle.picky_inventory.specs.Run.{SparesSuite};
ghost use Rattle.picky_inventory.specs.Run.{WritesAnswer, WritesInventory, WritesSet};

use crate::answer::take_answer;
use crate::command::{Command, command_of};
use crate::status::InventoryStatus;
use picky_suite::Suite;
use picky_wire::{Sink, Source, Text, write_all};
use std::alloc::Global;

/// The line that says which words there are.
const USAGE_LINE: &str = "usage: keyinventory list|merge\n";

/// Does what the words say with the text that the source gives, onto `out`.
///
/// The word `list` writes the inventory of a list of texts that are parted by lines `%%`, each read under the passphrase; the
/// word `merge` writes the inventory of the union of two, which stand before the first line `%%` and after it.
///
/// Refuses, in order: `Usage`, with a line on `err`, whose faults change nothing; `ReadFault`, `InputTooLong`, `InputNotUtf8`;
/// of `list` `Refused` or, in place of the suite's fault, `OutsideFault`; of `merge` `BadLine`; `WriteFault`.
pub fn run_inventory<S: Suite, I: Source, O: Sink, E: Sink>(
    alloc: Global,
    words: &[Text],
    pass_in: Option<&str>,
    suite: &mut S,
    source: &mut I,
    out: &mut O,
    err: &mut E,
) -> InventoryStatus
    // What Done means. One set has one text: what is listed is that of other items exactly where the sets are the same. The
    // inventories of two lists are merged to that of the lists joined, and one with itself to itself.
    ensures done { (c : Command) → Names words.now c → result ≡ InventoryStatus.Done → I.tells source.old → O.tells out.old
        → WritesAnswer (reader (S.meanings suite.old) pass_in.entry) c (I.left source.old) (O.written out.old) (O.written out.new) }
    ensures binds { (others : List Item) → AllByRecursion IsItem others → IfSome (option_copied pass_in.entry) IsUtf8
        → Names words.now Command.Listing → result ≡ InventoryStatus.Done → I.tells source.old → O.tells out.old
        → WritesSet (reader (S.meanings suite.old) pass_in.entry) (I.left source.old) others (O.written out.old) (O.written out.new) }
    ensures merges_lists { (r : Reader) (one other : List (List ℕ)) → IsOfLists r one other (I.left source.old)
        → Names words.now Command.Merging → result ≡ InventoryStatus.Done → I.tells source.old → O.tells out.old
        → WritesInventory r (one ++ other) (O.written out.old) (O.written out.new) }
    ensures merges_itself { (text : List ℕ) → IsInventory text → left_part (I.left source.old) ≡ text
        → right_part (I.left source.old) ≡ text
        → Names words.now Command.Merging → result ≡ InventoryStatus.Done → I.tells source.old → O.tells out.old
        → O.written out.new ≡ O.written out.old ++ text }

    // What each status says: of the bytes that the source tells, and of some, whether or not it tells them.
    ensures usage { (result ≡ InventoryStatus.Usage) ↔ ((c : Command) → Names words.now c → ⊥) }
    ensures ends { (c : Command) → Names words.now c → I.tells source.old
        → Ends (reader (S.meanings suite.old) pass_in.entry) c (I.left source.old)
        (Rose (I.faults source.old) (I.faults source.new)) (Rose (S.faults suite.old) (S.faults suite.new))
        (Rose (O.faults out.old) (O.faults out.new)) (O.tells out.old) (O.written out.old) (O.written out.new) result }
    ensures ends_for_some { (c : Command) → Names words.now c
        → (input : List ℕ) × Ends (reader (S.meanings suite.old) pass_in.entry) c input
        (Rose (I.faults source.old) (I.faults source.new)) (Rose (S.faults suite.old) (S.faults suite.new))
        (Rose (O.faults out.old) (O.faults out.new)) (O.tells out.old) (O.written out.old) (O.written out.new) result }

    // Where nothing was counted, the status is the one that the bytes have, or memory ran out.
    ensures exact { (c : Command) → Names words.now c → I.tells source.old
        → (Rose (I.faults source.old) (I.faults source.new) → ⊥)
        → (IsOutsideFault (reader (S.meanings suite.old) pass_in.entry) c (I.left source.old)
        (Rose (S.faults suite.old) (S.faults suite.new)) → ⊥)
        → (status : InventoryStatus) → outcome (reader (S.meanings suite.old) pass_in.entry) c (I.left source.old) ≡ Err status
        → (result ≡ status) ⊎ (result ≡ InventoryStatus.NoMemory) }
    ensures complete { (c : Command) → Names words.now c → I.tells source.old
        → (Rose (I.faults source.old) (I.faults source.new) → ⊥)
        → (Rose (O.faults out.old) (O.faults out.new) → ⊥)
        → (IsOutsideFault (reader (S.meanings suite.old) pass_in.entry) c (I.left source.old)
        (Rose (S.faults suite.old) (S.faults suite.new)) → ⊥)
        → (text : List ℕ) → outcome (reader (S.meanings suite.old) pass_in.entry) c (I.left source.old) ≡ Ok text
        → (result ≡ InventoryStatus.Done) ⊎ (result ≡ InventoryStatus.NoMemory) }

    // What is left of the source, the sink, the suite and `err`.
    ensures source { ReadsInput I.tells I.left I.faults (extent_of result) source.old source.new }
    ensures out { WritesLast O.tells O.faults (result ≡ InventoryStatus.WriteFault)
        ((result ≢ InventoryStatus.Done) × (result ≢ InventoryStatus.WriteFault)) out.old out.new }
    ensures suite { LeavesDevice (S.meanings suite.new ≡ S.meanings suite.old) S.faults (result ≡ InventoryStatus.OutsideFault)
        (SparesSuite (command_named words.now) (option_copied pass_in.entry) (I.tells source.old) (I.left source.old))
        suite.old suite.new }
    ensures said { SaysUsage E.tells E.written E.faults result err.old err.new }
{
    match command_of(words) {
        Some(command) => perform(alloc, command, pass_in, suite, source, out),
        None => {
            say_usage(err);
            InventoryStatus::Usage
        }
    }
}

/// Does what a command says, and answers how that ended.
fn perform<S: Suite, I: Source, O: Sink>(
    alloc: Global,
    command: Command,
    pass: Option<&str>,
    suite: &mut S,
    source: &mut I,
    out: &mut O,
) -> InventoryStatus
    ensures told { I.tells source.old → Ends (reader (S.meanings suite.old) pass.entry) command (I.left source.old)
        (Rose (I.faults source.old) (I.faults source.new)) (Rose (S.faults suite.old) (S.faults suite.new))
        (Rose (O.faults out.old) (O.faults out.new)) (O.tells out.old) (O.written out.old) (O.written out.new) result }
    ensures some { (input : List ℕ) × Ends (reader (S.meanings suite.old) pass.entry) command input
        (Rose (I.faults source.old) (I.faults source.new)) (Rose (S.faults suite.old) (S.faults suite.new))
        (Rose (O.faults out.old) (O.faults out.new)) (O.tells out.old) (O.written out.old) (O.written out.new) result }
    ensures source { ReadsInput I.tells I.left I.faults (extent_of result) source.old source.new }
    ensures out { WritesLast O.tells O.faults (result ≡ InventoryStatus.WriteFault)
        ((result ≢ InventoryStatus.Done) × (result ≢ InventoryStatus.WriteFault)) out.old out.new }
    ensures suite { LeavesDevice (S.meanings suite.new ≡ S.meanings suite.old) S.faults (result ≡ InventoryStatus.OutsideFault)
        (SparesSuite (Some command) (option_copied pass.entry) (I.tells source.old) (I.left source.old)) suite.old suite.new }
{
    match take_answer(alloc, command, pass, suite, source) {
        Ok(text) => match put(out, text.as_slice()) {
            Ok(()) => InventoryStatus::Done,
            Err(fault) => fault,
        },
        Err(status) => status,
    }
}

/// Writes the text, or a prefix of it up to a fault. Refuses: `WriteFault`.
fn put<O: Sink>(out: &mut O, text: &[u8]) -> Result<(), InventoryStatus>
    ensures { Puts O.tells O.written O.faults InventoryStatus.WriteFault text.now result out.old out.new }
{
    match write_all(out, text) {
        Ok(()) => Ok(()),
        Err(_) => Err(InventoryStatus::WriteFault),
    }
}

/// Writes the line that says which words there are, or a prefix of it up to a fault.
#[tactic(auto, unfolding(crate::specs::Run::usage_line))]
fn say_usage<E: Sink>(err: &mut E)
    ensures { SaysUsage E.tells E.written E.faults InventoryStatus.Usage err.old err.new }
{
    let _ = write_all(err, USAGE_LINE.as_bytes());
}
