//! The lines of a text, with their ends.

ghost use Rattle.std.specs.Prelude.{◌≡◌, ◌<◌, ◌∷◌, [], length, map, IfNone, IfOk, IfSome};
ghost use Rattle.picky_issuing.specs.Parts.{lines_with_ends};

use picky_wire::NoMemory;
use std::alloc::Global;

/// The lines of a text, each with the LF that ends it; the last may have none. A CR stays in its line.
pub fn ended_lines<'a>(alloc: Global, text: &'a str) -> Result<Vec<&'a str>, NoMemory>
    ensures { IfOk result (λ found. map (λ line. line.now) found.items ≡ lines_with_ends text.now) }
{
    let mut found = Vec::new(alloc);
    let mut rest = text;
    'lines: while let Some((line, after)) = first_line(rest) {
        match found.push(line) {
            Ok(()) => {}
            Err(_) => return Err(NoMemory),
        }
        rest = after;
    }
    Ok(found)
}

/// The first line with its end, and what follows it; none where the text is empty.
fn first_line(text: &str) -> Option<(&str, &str)>
    ensures none { IfNone result (text.now ≡ []) }
    ensures line { IfSome result (λ cut. lines_with_ends text.now ≡ cut.0.now ∷ lines_with_ends cut.1.now) }
    ensures shorter { IfSome result (λ cut. length cut.1.now < length text.now) }
{
    match text.split_once('\n') {
        Some((_, after)) => {
            let (line, _) = text.split_at(text.len() - after.len());
            Some((line, after))
        }
        None => {
            if text.is_empty() {
                return None;
            }
            Some((text, ""))
        }
    }
}
