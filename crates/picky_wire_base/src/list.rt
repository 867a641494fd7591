//! Lists of values.

ghost use Rattle.std.specs.Prelude.{◌≡◌, ◌∷◌, ◌++◌, [], IfErr, OnOk, OnErr};
ghost use Rattle.std.specs.Prelude as prelude;
ghost use Rattle.std.specs.Cmp.Lexicographic.{pointwise, lists_per, lists_equiv};

use crate::copy::TryClone;
use crate::error::NoMemory;
use std::alloc::{AllocFailed, Global};
use std::marker::Model;

/// Values in order.
#[derive(Debug, Drop)]
pub struct List<T> {
    vec: Vec<T>,
}

impl<T> Model for List<T> {
    ghost Value = { prelude.List T };

    ghost view = { λ l. l.vec.items };
}

impl<T> List<T> {
    /// The empty list. It takes no memory.
    pub fn new(alloc: Global) -> List<T>
        ensures { result ≡ [] }
    {
        List {
            vec: Vec::new(alloc),
        }
    }

    /// Puts the item at the end. Refuses: want of memory; the item is handed back, and the list stays.
    pub fn push(&mut self, item: T) -> Result<(), T>
        ensures ok { OnOk result (self.new ≡ self.old ++ item ∷ []) }
        ensures err { IfErr result (λ back. back ≡ item) }
        ensures kept { OnErr result (self.new ≡ self.old) }
    {
        match self.vec.push(item) {
            Ok(()) => Ok(()),
            Err(failed) => {
                let AllocFailed { value } = failed;
                Err(value)
            }
        }
    }

    /// The same values, without a copy.
    pub fn from_vec(vec: Vec<T>) -> List<T>
        ensures { result ≡ vec.items }
    {
        List { vec }
    }

    /// The same values, without a copy.
    pub fn into_vec(self) -> Vec<T>
        ensures { result.items ≡ self }
    {
        let List { vec } = self;
        vec
    }

    /// Its values.
    pub fn as_slice(&self) -> &[T]
        ensures { result.now ≡ self.now }
    {
        self.vec.as_slice()
    }
}

impl<T: TryClone + Drop> TryClone for List<T> {
    fn try_clone(&self, alloc: Global) -> Result<List<T>, NoMemory> {
        let items = self.vec.as_slice();
        let mut copy = List::new(alloc);
        'items: for item in items {
            match item.try_clone(alloc) {
                Ok(item) => match copy.push(item) {
                    Ok(()) => {}
                    Err(_) => return Err(NoMemory),
                },
                Err(e) => return Err(e),
            }
        }
        Ok(copy)
    }
}

impl<T: PartialEq> PartialEq for List<T> {
    ghost eq = { pointwise T.eq };

    ghost laws = { lists_per T.laws };

    fn eq(&self, other: &List<T>) -> bool {
        self.vec.as_slice() == other.vec.as_slice()
    }
}

impl<T: Eq> Eq for List<T> {
    ghost laws = { lists_equiv T.Eq.laws };
}
