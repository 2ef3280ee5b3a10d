//! The items that a filtered view keeps of a node.

ghost use Rattle.std.specs.Prelude.{◌≡◌, ◌++◌, ◌∷◌, ◌<◌, [], IfOk, List, Option, Some, None};
ghost use Rattle.std.specs.Prelude.{length, slice_get, slice_set};
ghost use Rattle.std.specs.Result.{OnOk};

use nl_core::NoMemory;
use std::alloc::Global;
use std::marker::Model;
use std::mem::replace;

/// Items by data bit. Contracts see the list, so that a copy is equal.
#[derive(Drop)]
pub struct Kept<T> {
    items: Vec<Option<T>>,
}

impl<T> Model for Kept<T> {
    ghost Value = { List (Option T) };

    ghost view = { λ k. k.items.items };
}

impl<T: Drop> Kept<T> {
    /// No item, for no bit. It takes no memory.
    pub(crate) fn new(alloc: Global) -> Self
        ensures { result ≡ [] }
    {
        Kept {
            items: Vec::new(alloc),
        }
    }

    /// An item, or none, for the next bit.
    pub(crate) fn push(&mut self, item: Option<T>) -> Result<(), NoMemory>
        ensures { OnOk result (self.new ≡ self.old ++ item ∷ []) }
    {
        self.items.push(item)?;
        Ok(())
    }

    /// Takes the item of a bit out.
    pub(crate) fn take(&mut self, bit: u32) -> T
        requires { (item : T) × (slice_get self.old bit ≡ Some (Some item)) }
        ensures item { slice_get self.old bit ≡ Some (Some result) }
        ensures left { self.new ≡ slice_set self.old bit None }
    {
        match replace(&mut self.items[bit as usize], None) {
            Some(item) => item,
            None => unreachable!(),
        }
    }
}

impl<T: Copy> Kept<T> {
    /// The same items once more.
    pub(crate) fn copied(&self, alloc: Global) -> Result<Self, NoMemory>
        ensures { IfOk result (λ copy. copy ≡ self.now) }
    {
        let items = self.items.iter().copied().collect(alloc)?;
        Ok(Kept { items })
    }
}
