//! Where items are halved, and parts of them.
ghost use Rattle.std.specs.Prelude.{◌≡◌, ◌<◌, ◌≤◌, ◌+◌, ◌/◌, length, take, drop, IfOk, MatchOption, IsTrue};
ghost use Rattle.seq_values.specs.Depth.{depth_of_all};
ghost use Rattle.seq_values.specs.Model as M;
ghost use Rattle.seq_values.specs.Plain.{plain, plains};
ghost use Rattle.seq_values.specs.Sight.{a_vector};
ghost use Rattle.seq_values.specs.WellFormed.{are_well_formed, sight_of};

use crate::shapes::Items;
use seq_turns::Proper;
use seq_values::{Value, deepest_of};
use seq_vector::{NoMemory, PVec};
use std::alloc::Global;

/// Where a fold halves so many items, in groups of at most `n`: `None` exactly where they are one group, and else half of them, rounded down. It takes no memory.
/// Source: clojure.core.reducers' `foldvec`, https://clojure.org/reference/reducers
pub fn split(len: u32, n: u32) -> Option<u32>
    requires { 0 < n }
    ensures { MatchOption result (len ≤ n) (λ half. (n < len) × (half ≡ len / 2)) }
{
    if len <= n { None } else { Some(len / 2) }
}

/// Items of a vector that is so deep.
#[tactic(auto, using(crate::proofs::Halves::part_vector, seq_values::proofs::WellFormedLemmas::list_keeps))]
fn items_within(items: PVec<Value>, depth: u32) -> Items
    requires well { IsTrue (are_well_formed items) }
    requires within { depth_of_all items + 1 ≤ depth }
    requires bound { depth ≤ 256 }
    ensures { result.items ≡ items }
{
    let depth = deepest_of(&items, depth - 1) + 1;
    Items { depth, items }
}

impl Items {
    /// How many there are.
    pub fn len(&self) -> usize
        ensures same { result ≡ length self.now.items }
        ensures bound { result ≤ 4294967295 }
    {
        self.items.len()
    }

    /// So many items from a place on, shared. The depth is looked for until an item is as deep as the deepest of all.
    #[tactic(auto, using(crate::proofs::Halves::part_well, crate::proofs::Halves::part_deep, crate::proofs::Halves::kept_bound))]
    pub fn part(&self, alloc: Global, from: usize, count: usize) -> Result<Items, NoMemory>
        requires { from + count ≤ length self.now.items }
        ensures { IfOk result (λ part. part.items ≡ take count (drop from self.now.items)) }
    {
        match self.items.window(alloc, from, count)? {
            Some(items) => Ok(items_within(items, self.depth)),
            None => unreachable!(),
        }
    }

    /// The items as a vector.
    #[tactic(auto, using(seq_turns::proofs::Seeing::plain_vector, crate::proofs::Halves::vector_sight))]
    pub fn vector(self) -> Proper
        ensures stands { plain result.value ≡ M.vector (M.values (plains self.items)) }
        ensures sight { sight_of result.value ≡ a_vector (length self.items) }
    {
        Proper {
            value: Value::Vector {
                depth: self.depth,
                items: self.items,
            },
        }
    }
}
