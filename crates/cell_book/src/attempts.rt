ghost use Rattle.std.specs.Prelude.{◌≡◌, [], ◌∷◌, ◌++◌, List, OnOk, OnErr, length, slice_get, option_copied};
ghost use Rattle.cell_book.specs.declared.cell.Attempt.{Attempt as Record};

use crate::cell::{Attempt, ClaimEnd};
use seq_vector::NoMemory;
use std::alloc::Global;
use std::marker::Model;

/// The claims on a part in order. Contracts see the list of them.
#[derive(Drop)]
pub struct Attempts {
    items: Vec<Attempt>,
}

impl Model for Attempts {
    ghost use Rattle.std.specs.Prelude.{List};
    ghost use Rattle.cell_book.specs.declared.cell.Attempt.{Attempt};

    ghost Value = { List Attempt };

    ghost view = { λ a. a.items.items };
}

impl Attempts {
    /// No claims. It takes no memory.
    pub fn new(alloc: Global) -> Attempts
        ensures { result ≡ [] }
    {
        Attempts {
            items: Vec::new(alloc),
        }
    }

    /// One more claim. The first takes room for itself alone.
    pub fn push(&mut self, alloc: Global, attempt: Attempt) -> Result<(), NoMemory>
        ensures ok { OnOk result (self.new ≡ self.old ++ attempt ∷ []) }
        ensures err { OnErr result (self.new ≡ self.old) }
    {
        if self.items.is_empty() {
            let Ok(items) = Vec::with_capacity(alloc, 1) else {
                return Err(NoMemory);
            };
            self.items = items;
        }
        match self.items.push(attempt) {
            Ok(()) => Ok(()),
            Err(_) => Err(NoMemory),
        }
    }

    /// Writes the end of the last claim.
    pub fn end_last(&mut self, end: ClaimEnd)
        ensures { (past : List Record) (last : Record) → self.old ≡ past ++ last ∷ [] → self.new ≡ past ++ record last { end = end } ∷ [] }
    {
        let count = self.items.len();
        if count > 0 {
            self.items[count - 1].end = end;
        }
    }

    /// How many there are.
    pub fn len(&self) -> usize
        ensures { result ≡ length self.now }
    {
        self.items.len()
    }

    /// The claim at a place, and `None` exactly where there is none.
    pub fn get(&self, at: usize) -> Option<&Attempt>
        ensures { option_copied result ≡ slice_get self.now at }
    {
        self.items.get(at)
    }
}
