//! A stable sort by names.

ghost use Rattle.std.specs.Prelude.{◌≡◌, ℕ, List, IfOk};
ghost use Rattle.std.specs.Ordering.{nat_cmp};
ghost use Rattle.std.specs.Cmp.Lexicographic.{slice_cmp};
ghost use Rattle.picky_cert_builder.specs.ByName.{by_name};

use picky_wire::{List, NoMemory};
use std::cmp::Ordering;

/// What has a name that lists are sorted by.
pub trait Named {
    ghost name: { Self → List ℕ };

    /// Its name.
    fn name(&self) -> &str
        ensures { result.now ≡ name self.now };
}

/// How the names of two items compare, byte by byte.
fn compare<T: Named>(a: &T, b: &T) -> Ordering
    ensures { result ≡ slice_cmp nat_cmp (T.name a.now) (T.name b.now) }
{
    a.name().cmp(b.name())
}

/// The items by the bytes of their names; those with one name stay in their order. Refuses: `NoMemory`.
pub fn sorted_by_name<T: Named + Drop>(items: List<T>) -> Result<List<T>, NoMemory>
    ensures { IfOk result (λ sorted. sorted ≡ by_name T.name items) }
{
    let mut items = items.into_vec();
    match items.sort_by(|a, b| compare(a, b)) {
        Ok(()) => Ok(List::from_vec(items)),
        Err(_) => Err(NoMemory),
    }
}
