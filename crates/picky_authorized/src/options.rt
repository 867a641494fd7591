//! The options of a line.

ghost use Rattle.std.specs.Prelude.{◌≡◌, ◌^◌, ◌<◌, IfOk, length};
ghost use Rattle.picky_authorized.specs.Options.{options_in};

use crate::auth_option::{AuthOption, option_of};
use crate::quotes::{PartEnd, split_outside};
use picky_wire::{List, NoMemory};
use std::alloc::Global;

/// The options that the text says, parted by the commas outside quotes, where each part says one. Refuses: `NoMemory`.
pub fn options_of(alloc: Global, text: &str) -> Result<Option<List<AuthOption>>, NoMemory>
    requires { length text.now < 2 ^ 32 }
    ensures { IfOk result (λ options. options ≡ options_in text.now) }
{
    let mut options = List::new(alloc);
    let mut rest = text;
    'parts: loop {
        let (part, behind) = split_outside(rest, PartEnd::Comma);
        match option_of(alloc, part)? {
            Some(option) => match options.push(option) {
                Ok(()) => {}
                Err(_) => return Err(NoMemory),
            },
            None => return Ok(None),
        }
        match behind.strip_prefix(',') {
            Some(after) => rest = after,
            None => return Ok(Some(options)),
        }
    }
}
