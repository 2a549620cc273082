//! Values that are gathered one after another.
ghost use Rattle.std.specs.Prelude.{◌≡◌, ◌<◌, [], ◌∷◌, ◌++◌, length, reverse, IfOk, IfSome};
ghost use Rattle.seq_plan.specs.Nodes.{with_members};
ghost use Rattle.seq_turns.specs.Making.{Grows};
ghost use Rattle.seq_values.specs.Plain.{plain, plains};

use crate::made::Grown;
use crate::proper::{Gathered, Proper, ProperList};
use seq_values::Value;
use seq_vector::{NoMemory, PVec};
use std::alloc::Global;

/// One more value at the end.
fn pushed(items: Vec<Value>, last: Value) -> Result<Vec<Value>, NoMemory>
    ensures { IfOk result (λ all. all.items ≡ items.items ++ last ∷ []) }
{
    let mut items = items;
    match items.push(last) {
        Ok(()) => Ok(items),
        Err(_) => Err(NoMemory),
    }
}

/// There were as many as there may be.
fn too_many(all: Gathered, last: Proper) -> Grown
    ensures { result ≡ Grown.TooMany }
{
    Grown::TooMany
}

impl Gathered {
    /// No values. It takes no memory.
    pub fn none(alloc: Global) -> Gathered
        ensures { result.items.items ≡ [] }
    {
        Gathered {
            items: Vec::new(alloc),
        }
    }

    /// No values, with room for so many.
    pub fn with_room(alloc: Global, count: usize) -> Result<Gathered, NoMemory>
        ensures { IfOk result (λ all. all.items.items ≡ []) }
    {
        let Ok(items) = Vec::with_capacity(alloc, count) else {
            return Err(NoMemory);
        };
        Ok(Gathered { items })
    }

    /// How many there are.
    pub fn len(&self) -> usize
        ensures { result ≡ length self.now.items.items }
    {
        self.items.len()
    }

    #[tactic(auto, using(crate::proofs::Listing::more_well, crate::proofs::Listing::more_long))]
    /// One more value at the end.
    pub fn and(self, last: Proper) -> Result<Gathered, NoMemory>
        requires { length self.items.items < 4294967295 }
        ensures same { IfOk result (λ all. all.items.items ≡ self.items.items ++ last.value ∷ []) }
        ensures stands { IfOk result (λ all. plains all.items.items ≡ plains self.items.items ++ plain last.value ∷ []) }
    {
        let items = pushed(self.items, last.value)?;
        Ok(Gathered { items })
    }

    #[tactic(auto, using(crate::proofs::Listing::grows_all, crate::proofs::Listing::grows_no_more))]
    /// One more value at the end, unless there are as many as there may be.
    pub fn grown(self, last: Proper) -> Result<Grown, NoMemory>
        ensures { IfOk result (λ g. Grows (with_members (plains self.items.items ++ plain last.value ∷ [])) g) }
    {
        if self.items.len() >= 4294967295 {
            return Ok(too_many(self, last));
        }
        let all = self.and(last)?;
        Ok(Grown::All(all))
    }

    #[tactic(auto, using(crate::proofs::Listing::turned_well, crate::proofs::Listing::turned_long))]
    /// The values from the last on.
    pub fn turned(self) -> Gathered
        ensures { result.items.items ≡ reverse self.items.items }
    {
        let mut items = self.items;
        items.reverse();
        Gathered { items }
    }

    /// The values as a vector's items.
    pub fn listed(self, alloc: Global) -> Result<ProperList, NoMemory>
        ensures { IfOk result (λ all. all.items ≡ self.items.items) }
    {
        match PVec::from_items(alloc, self.items) {
            Ok(items) => Ok(ProperList { items }),
            Err((_, why)) => Err(why),
        }
    }
}
