//! The lists of a certificate, whose items are passed one after another.

ghost use Rattle.std.specs.Prelude.{◌≤◌, IfOk, length};
ghost use Rattle.picky_wire_base.specs.Grammar.{Grammar};
ghost use Rattle.picky_wire_base.specs.Row.{Solid};
ghost use Rattle.picky_wire_base.specs.Wire.{string};
ghost use Rattle.picky_wire_base.specs.View.{Lies, end_of};
ghost use Rattle.picky_wire_base.specs.Combine.{placed};
ghost use Rattle.picky_cert_blob.specs.Reason.{CertReason};
ghost use Rattle.picky_cert_blob.specs.Listed.{listed};
ghost use Rattle.picky_wire_base.specs.View.{SeenAt};
ghost use Rattle.picky_cert_blob.specs.View.{AreItems, ArePassed, IsPassed, values_in};

use crate::part::CertPart;
use picky_wire::{Part, Stopped, string_in};

/// A kind of items of a list.
pub trait Item {
    type Value;

    ghost item: { Grammar CertReason Self.Value };

    /// The place after the item that stands at a place.
    /// Refuses at the list's part, in order, by field: `Short`, `NotUtf8`, and for a critical option's name `Name`.
    fn pass<'a>(bytes: &'a [u8], from: usize) -> Result<usize, Stopped<'a, CertPart>>
        ensures { IsPassed item bytes.now from result };

    ghost solid: { Solid item.piece };
}

/// A list inside a string.
/// Refuses, in order: `Short` at the part where the string is cut; as `Item::pass` at the first item that doesn't fit.
pub fn list_at<'a, I: Item>(
    blob: &'a [u8],
    from: usize,
    part: CertPart,
) -> Result<(Part<'a>, usize), Stopped<'a, CertPart>>
    ensures seen { (solid : Solid I.item.piece) → SeenAt (values_in I.item) (Lies blob.now (end_of string blob.now from))
        (listed (placed part) I.item solid) blob.now from result }
    ensures items { IfOk result (λ found. AreItems I.item found.0) }
{
    let (block, next) = string_in(blob, from, part)?;
    let (front, _) = blob.split_at(next);
    match pass_items::<I>(front, block.at) {
        Ok(()) => Ok((block, next)),
        Err(stopped) => Err(stopped),
    }
}

/// Passes the items that stand from a place on, up to the end of the bytes.
fn pass_items<'a, I: Item>(bytes: &'a [u8], from: usize) -> Result<(), Stopped<'a, CertPart>>
    requires { from ≤ length bytes.now }
    ensures { ArePassed I.item bytes.now from result }
{
    let mut at = from;
    'items: while at < bytes.len() {
        match I::pass(bytes, at) {
            Ok(next) => at = next,
            Err(stopped) => return Err(stopped),
        }
    }
    Ok(())
}
