//! The words of a command line.

ghost use Rattle.std.specs.Prelude.{◌≡◌};
ghost use Rattle.std.specs.Option.{option_map};
ghost use Rattle.picky_policy.specs.Command.{asked_by, asked_for, deciding as deciding_by, printing as printing_by};

use picky_issuing::number_of;
use picky_wire::{Text, Timestamp};

const DECIDE: &str = "decide";

const MESSAGE: &str = "message";

/// What a command line asks for.
#[derive(Clone, Copy)]
pub enum Command<'a> {
    /// Whether the offer gets in as the user at the moment.
    Deciding { user: &'a str, moment: Timestamp },
    /// What is signed of the offer.
    Printing,
}

/// What the words ask for: `decide USER MOMENT`, whose moment is a number below 2^64 in decimal, or `message`.
pub fn command_of(words: &[Text]) -> Option<Command<'_>>
    ensures { option_map asked_by result ≡ asked_for words.now }
{
    match words {
        [word] => printing(word.as_str()),
        [word, user, number] => deciding(word.as_str(), user.as_str(), number.as_str()),
        _ => None,
    }
}

/// What one word asks for.
#[tactic(auto, unfolding(crate::specs::Command::message_word))]
fn printing(word: &str) -> Option<Command<'_>>
    ensures { option_map asked_by result ≡ printing_by word.now }
{
    if word == MESSAGE {
        return Some(Command::Printing);
    }
    None
}

/// What three words ask for.
#[tactic(auto, unfolding(crate::specs::Command::decide_word))]
fn deciding<'a>(word: &str, user: &'a str, number: &str) -> Option<Command<'a>>
    ensures { option_map asked_by result ≡ deciding_by word.now user.now number.now }
{
    if word == DECIDE {
        return match number_of(number) {
            Some(secs) => Some(Command::Deciding {
                user,
                moment: Timestamp(secs),
            }),
            None => None,
        };
    }
    None
}
