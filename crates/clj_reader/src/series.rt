ghost use Rattle.std.specs.Prelude.{◌≡◌, ◌<◌, ◌↔◌, [], ◌∷◌, ◌++◌, length, slice_get, is_ok, cond, IsSome};
ghost use Rattle.std.specs.Option.{option_copied};

use std::alloc::{AllocError, Global};
use std::marker::Model;

/// Items in order. Contracts see the list of them.
#[derive(Debug, Drop)]
pub struct Series<T> {
    items: Vec<T>,
}

impl<T> Model for Series<T> {
    ghost use Rattle.std.specs.Prelude.{List};
    ghost use Rattle.std.specs.Coded.{coded_list};

    ghost Value = { List T };

    ghost coded = { coded_list T.code };

    ghost view = { λ s. s.items.items };
}

impl<T> Series<T> {
    /// No item. It takes no memory.
    pub fn new(alloc: Global) -> Series<T>
        ensures { result ≡ [] }
    {
        Series {
            items: Vec::new(alloc),
        }
    }

    /// How many items there are.
    pub fn len(&self) -> usize
        ensures { result ≡ length self.now }
    {
        self.items.len()
    }

    /// The item at a place from 0, and `None` exactly where the place isn't below the length.
    pub fn get(&self, at: usize) -> Option<&T>
        ensures item { option_copied result ≡ slice_get self.now at }
        ensures exactly { IsSome result ↔ (at < length self.now) }
    {
        self.items.get(at)
    }
}

impl<T: Drop> Series<T> {
    /// Puts an item at the end. Without memory for it nothing changes, and the item is dropped.
    pub(crate) fn push(&mut self, item: T) -> Result<(), AllocError>
        ensures { self.new ≡ (cond (is_ok result) (self.old ++ item ∷ []) self.old) }
    {
        self.items.push(item)?;
        Ok(())
    }
}
