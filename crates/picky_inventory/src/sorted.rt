//! Lines, sorted by their bytes.

ghost use Rattle.std.specs.Prelude.{◌≡◌, flat_map, map, IfOk};
ghost use Rattle.picky_inventory.specs.InOrder.{line_cmp, ordered};

use picky_wire::NoMemory;
use std::alloc::Global;

/// The lines sorted by their bytes, each once.
pub fn sorted_lines(mut lines: Vec<Vec<u8>>) -> Vec<Vec<u8>>
    ensures { map (λ line. line.items) result.items ≡ ordered line_cmp (map (λ line. line.items) lines.items) }
{
    lines.sort_unstable();
    lines.dedup();
    lines
}

/// The lines as one text. Refuses: `NoMemory`.
pub fn joined_lines(alloc: Global, lines: &[Vec<u8>]) -> Result<Vec<u8>, NoMemory>
    ensures { IfOk result (λ text. text.items ≡ flat_map (λ line. line.items) lines.now) }
{
    let mut text = Vec::new(alloc);
    'lines: for line in lines {
        match text.extend_from_slice(line.as_slice()) {
            Ok(()) => {}
            Err(_) => return Err(NoMemory),
        }
    }
    Ok(text)
}
