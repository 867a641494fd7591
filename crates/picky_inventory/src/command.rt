//! The words of a command line.

ghost use Rattle.std.specs.Prelude.{◌≡◌};
ghost use Rattle.picky_inventory.specs.Command.{command_of as command_named, command_of_word};

use picky_wire::Text;

const LIST: &str = "list";

const MERGE: &str = "merge";

/// What a command line names.
#[derive(Clone, Copy)]
pub enum Command {
    /// The inventory of a list of texts.
    Listing,
    /// The inventory of the union of two.
    Merging,
}

/// The command that the words name: it is one word, `list` or `merge`.
pub fn command_of(words: &[Text]) -> Option<Command>
    ensures { result ≡ command_named words.now }
{
    match words {
        [word] => command_of_text(word.as_str()),
        _ => None,
    }
}

/// The command of a word.
#[tactic(auto, unfolding(crate::specs::Command::list_word, crate::specs::Command::merge_word))]
fn command_of_text(word: &str) -> Option<Command>
    ensures { result ≡ command_of_word word.now }
{
    if word == LIST {
        return Some(Command::Listing);
    }
    if word == MERGE {
        return Some(Command::Merging);
    }
    None
}
