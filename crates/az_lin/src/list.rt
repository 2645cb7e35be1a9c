//! A growing list, which contracts see as the list of its items.

ghost use Rattle.std.specs.Prelude.{◌≡◌, ◌∷◌, ◌++◌, [], length, OnOk, OnErr, IfErr, slice_get, IsTrue, ◌↔◌};
ghost use Rattle.std.specs.Option.{option_copied};
ghost use Rattle.az_lin.specs.declared.fault.LinFault.TheVariants.{Memory};

use crate::{LinFault, TryCopy};
use std::alloc::Global;
use std::marker::Model;

#[derive(Debug, Drop)]
pub struct List<T> {
    items: Vec<T>,
}

impl<T> Model for List<T> {
    ghost use Rattle.std.specs.Prelude.{List};
    ghost use Rattle.std.specs.Coded.{coded_list};

    ghost Value = { List T };

    ghost coded = { coded_list T.code };

    ghost view = { λ list. list.items.items };
}

impl<T> List<T> {
    pub fn new(alloc: Global) -> List<T>
        ensures { result ≡ [] }
    {
        List {
            items: Vec::new(alloc),
        }
    }

    /// Takes a vector over, without memory.
    pub fn from_vec(items: Vec<T>) -> List<T>
        ensures { result ≡ items.items }
    {
        List { items }
    }

    /// Gives the vector back, without memory.
    pub fn into_vec(self) -> Vec<T>
        ensures { result.items ≡ self }
    {
        self.items
    }

    pub fn len(&self) -> usize
        ensures { result ≡ length self.now }
    {
        self.items.len()
    }

    pub fn is_empty(&self) -> bool
        ensures { IsTrue result ↔ (self.now ≡ []) }
    {
        self.items.is_empty()
    }

    pub fn get(&self, place: usize) -> Option<&T>
        ensures { option_copied result ≡ slice_get self.now place }
    {
        self.items.get(place)
    }

    pub fn as_slice(&self) -> &[T]
        ensures { result.now ≡ self.now }
    {
        self.items.as_slice()
    }
}

impl<T: Drop> List<T> {
    /// Appends the item. After `Err`, whose only cause is want of memory, the list is as it was.
    pub fn push(&mut self, item: T) -> Result<(), LinFault>
        ensures ok { OnOk result (self.new ≡ self.old ++ item ∷ []) }
        ensures err { OnErr result (self.new ≡ self.old) }
        ensures cause { IfErr result (λ fault. fault ≡ Memory) }
    {
        self.items.push(item)?;
        Ok(())
    }
}

impl<T: TryCopy + Drop> TryCopy for List<T> {
    fn copy(&self, alloc: Global) -> Result<Self, LinFault> {
        let mut items = Vec::with_capacity(alloc, self.len())?;
        'items: for item in self.as_slice() {
            items.push(item.copy(alloc)?)?;
        }
        Ok(List { items })
    }
}
