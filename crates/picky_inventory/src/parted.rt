//! A text, cut at its lines that are exactly `%%`.

ghost use Rattle.std.specs.Prelude.{◌≡◌, ◌<◌, ◌∷◌, [], length, map, IfNone, IfOk, IfSome};
ghost use Rattle.picky_inventory.specs.Parted.{text_parts};

use picky_issuing::parts_of;
use picky_wire::NoMemory;
use std::alloc::Global;

/// What stands before, between and after the lines that are exactly `%%`, each part with the ends of its lines.
///
/// What a line is, and its end, says `parts_of` of picky_issuing. A text without such a line is one part.
pub fn parts<'a>(alloc: Global, text: &'a str) -> Result<Vec<&'a str>, NoMemory>
    ensures { IfOk result (λ found. map (λ part. part.now) found.items ≡ text_parts text.now) }
{
    let mut found = Vec::new(alloc);
    let mut rest = text;
    'parts: while let Some((part, after)) = first_part(rest) {
        match found.push(part) {
            Ok(()) => {}
            Err(_) => return Err(NoMemory),
        }
        rest = after;
    }
    match found.push(rest) {
        Ok(()) => Ok(found),
        Err(_) => Err(NoMemory),
    }
}

/// The first part, and what follows the line that ends it, where there is such a line.
#[tactic(auto, using(crate::proofs::PartsLaws::parts_at, crate::proofs::PartsLaws::part_alone))]
fn first_part(text: &str) -> Option<(&str, &str)>
    ensures none { IfNone result (text_parts text.now ≡ text.now ∷ []) }
    ensures parts { IfSome result (λ cut. text_parts text.now ≡ cut.0.now ∷ text_parts cut.1.now) }
    ensures shorter { IfSome result (λ cut. length cut.1.now < length text.now) }
{
    let cut = parts_of(text);
    match cut.issuer {
        Some(part) => Some((part, cut.key)),
        None => None,
    }
}
