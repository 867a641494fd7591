//! What a command writes for the bytes of a source.

ghost use Rattle.std.specs.Prelude.{◌≡◌, ◌⊎◌, ℕ, List, Some, Err};
ghost use Rattle.std.specs.Option.{option_copied};
ghost use Rattle.picky_wire_base.specs.Outcome.{map_err, map_ok};
ghost use Rattle.picky_wire.specs.Count.{Rose};
ghost use Rattle.picky_wire_base.specs.Gives.{Gives as GivesOrWants};
ghost use Rattle.picky_input.specs.Extent.{LeavesDevice, ReadsInput};
ghost use Rattle.picky_inventory.specs.Listing.{NoneAsks};
ghost use Rattle.picky_inventory.specs.Merging.{merging};
ghost use Rattle.picky_inventory.specs.Parted.{text_parts};
ghost use Rattle.picky_inventory.specs.Run.{reader, unmerged_status, SparesSuite};
ghost use Rattle.picky_inventory.specs.inner.Comes.{extent_for, Comes, AnswersText};

use crate::command::Command;
use crate::listing::list_text;
use crate::merging::{Unmerged, merge};
use crate::status::{InventoryStatus, source_status, unread_status};
use picky_input::take_text;
use picky_suite::Suite;
use picky_wire::Source;
use std::alloc::Global;

/// The text that the command writes for all bytes that the source has left, or why there is none.
///
/// Refuses, in order: `ReadFault`, `InputTooLong`, `InputNotUtf8`; for a listing `Refused` or, in place of the suite's
/// fault, `OutsideFault`; for a merging `BadLine`.
pub(crate) fn take_answer<S: Suite, I: Source>(
    alloc: Global,
    command: Command,
    pass: Option<&str>,
    suite: &mut S,
    source: &mut I,
) -> Result<Vec<u8>, InventoryStatus>
    ensures told { I.tells source.old → Comes (reader (S.meanings suite.old) pass.entry) command (I.left source.old)
        (Rose (I.faults source.old) (I.faults source.new)) (Rose (S.faults suite.old) (S.faults suite.new))
        (map_ok (λ text. text.items) result) }
    ensures some { (input : List ℕ) × Comes (reader (S.meanings suite.old) pass.entry) command input
        (Rose (I.faults source.old) (I.faults source.new)) (Rose (S.faults suite.old) (S.faults suite.new))
        (map_ok (λ text. text.items) result) }
    ensures source { ReadsInput I.tells I.left I.faults (extent_for (map_ok (λ text. text.items) result)) source.old source.new }
    ensures suite { LeavesDevice (S.meanings suite.new ≡ S.meanings suite.old) S.faults (result ≡ Err InventoryStatus.OutsideFault)
        (SparesSuite (Some command) (option_copied pass.entry) (I.tells source.old) (I.left source.old)) suite.old suite.new }
{
    match take_text(alloc, source) {
        Ok(text) => {
            let answer = answer_to(alloc, command, pass, suite, text.as_str());
            drop(text);
            answer
        }
        Err(e) => Err(source_status(e)),
    }
}

/// The text that the command writes for a text.
fn answer_to<S: Suite>(
    alloc: Global,
    command: Command,
    pass: Option<&str>,
    suite: &mut S,
    text: &str,
) -> Result<Vec<u8>, InventoryStatus>
    ensures gives { AnswersText (reader (S.meanings suite.old) pass.entry) command text.now
        (Rose (S.faults suite.old) (S.faults suite.new)) (map_ok (λ text. text.items) result) }
    ensures suite { LeavesDevice (S.meanings suite.new ≡ S.meanings suite.old) S.faults (result ≡ Err InventoryStatus.OutsideFault)
        ((command ≡ Command.Merging) ⊎ NoneAsks (option_copied pass.entry) (text_parts text.now)) suite.old suite.new }
{
    match command {
        Command::Listing => listed(alloc, pass, suite, text),
        Command::Merging => merged(alloc, text),
    }
}

/// The inventory of a list of texts. Refuses: `Refused` or, in place of the suite's fault, `OutsideFault`.
fn listed<S: Suite>(
    alloc: Global,
    pass: Option<&str>,
    suite: &mut S,
    text: &str,
) -> Result<Vec<u8>, InventoryStatus>
    ensures gives { AnswersText (reader (S.meanings suite.old) pass.entry) Command.Listing text.now
        (Rose (S.faults suite.old) (S.faults suite.new)) (map_ok (λ text. text.items) result) }
    ensures suite { LeavesDevice (S.meanings suite.new ≡ S.meanings suite.old) S.faults (result ≡ Err InventoryStatus.OutsideFault)
        (NoneAsks (option_copied pass.entry) (text_parts text.now)) suite.old suite.new }
{
    match list_text(alloc, suite, text, pass) {
        Ok(written) => Ok(written),
        Err(unread) => Err(unread_status(unread.part, unread.error)),
    }
}

/// The inventory of the union of a text's two. Refuses: `BadLine`.
fn merged(alloc: Global, text: &str) -> Result<Vec<u8>, InventoryStatus>
    ensures { GivesOrWants InventoryStatus.NoMemory (λ text. text.items) result (map_err unmerged_status (merging text.now)) }
{
    match merge(alloc, text) {
        Ok(text) => Ok(text),
        Err(Unmerged::BadLine(line)) => Err(InventoryStatus::BadLine(line)),
        Err(Unmerged::NoMemory) => Err(InventoryStatus::NoMemory),
    }
}
