//! Well-formed values, one by one and in lists.
ghost use Rattle.std.specs.Prelude.{◌≡◌, ◌+◌, [], ◌∷◌, length, drop, IfOk, MatchOption};
ghost use Rattle.seq_values.specs.Model as M;
ghost use Rattle.seq_values.specs.Plain.{plain, plains};
ghost use Rattle.seq_values.specs.Sight.{a_nil, a_bool, an_int, a_cell, an_empty};
ghost use Rattle.seq_values.specs.WellFormed.{sight_of};

use crate::proper::{Proper, ProperList};
use seq_values::{CellId, Node, Value, one_item, two_items};
use seq_vector::{NoMemory, PVec, Share};
use std::alloc::Global;

impl Proper {
    /// nil
    pub fn nil() -> Proper
        ensures stands { plain result.value ≡ M.nil }
        ensures sight { sight_of result.value ≡ a_nil }
    {
        Proper { value: Value::Nil }
    }

    /// An integer.
    pub fn of_int(number: i64) -> Proper
        ensures stands { plain result.value ≡ M.int number }
        ensures sight { sight_of result.value ≡ an_int number }
    {
        Proper {
            value: Value::Int(number),
        }
    }

    /// A truth value.
    pub fn of_truth(holds: bool) -> Proper
        ensures stands { plain result.value ≡ M.bool holds }
        ensures sight { sight_of result.value ≡ a_bool }
    {
        Proper {
            value: Value::Bool(holds),
        }
    }

    /// A part.
    pub fn of_part(id: CellId) -> Proper
        ensures stands { plain result.value ≡ M.cell id }
        ensures sight { sight_of result.value ≡ a_cell }
    {
        Proper {
            value: Value::Cell(id),
        }
    }

    /// The empty list `()`.
    pub fn empty() -> Proper
        ensures stands { plain result.value ≡ M.empty }
        ensures sight { sight_of result.value ≡ an_empty }
    {
        Proper {
            value: Value::Node(Node::Empty),
        }
    }

    /// The value, with one more owner.
    pub fn share(&self) -> Result<Proper, NoMemory>
        ensures { IfOk result (λ copy. copy.value ≡ self.now.value) }
    {
        let value = self.value.share()?;
        Ok(Proper { value })
    }
}

impl ProperList {
    /// No values.
    pub fn none() -> ProperList
        ensures { result.items ≡ [] }
    {
        ProperList { items: PVec::new() }
    }

    #[tactic(auto, using(seq_values::proofs::WellFormedLemmas::one_well))]
    /// One value.
    pub fn one(alloc: Global, only: Proper) -> Result<ProperList, NoMemory>
        ensures same { IfOk result (λ all. all.items ≡ only.value ∷ []) }
        ensures stands { IfOk result (λ all. plains all.items ≡ plain only.value ∷ []) }
    {
        let items = one_item(alloc, only.value)?;
        Ok(ProperList { items })
    }

    #[tactic(auto, using(crate::proofs::Listing::two_well))]
    /// Two values.
    pub fn two(alloc: Global, first: Proper, second: Proper) -> Result<ProperList, NoMemory>
        ensures same { IfOk result (λ all. all.items ≡ first.value ∷ second.value ∷ []) }
        ensures stands { IfOk result (λ all. plains all.items ≡ plain first.value ∷ plain second.value ∷ []) }
    {
        let items = two_items(alloc, first.value, second.value)?;
        Ok(ProperList { items })
    }

    /// How many there are.
    pub fn len(&self) -> usize
        ensures { result ≡ length self.now.items }
    {
        self.items.len()
    }

    #[tactic(auto, using(crate::proofs::Listing::item_well, crate::proofs::Listing::drop_none, crate::proofs::Listing::drop_shared))]
    /// The value at a place, with one more owner, and `None` exactly at the end.
    pub fn get(&self, at: usize) -> Result<Option<Proper>, NoMemory>
        ensures { IfOk result (λ x. MatchOption x (drop at self.now.items ≡ []) (λ v. drop at self.now.items ≡ v.value ∷ drop (at + 1) self.now.items)) }
    {
        match self.items.get(at) {
            None => Ok(None),
            Some(value) => {
                let value = value.share()?;
                Ok(Some(Proper { value }))
            }
        }
    }

    /// The values, with one more owner.
    pub fn share(&self) -> Result<ProperList, NoMemory>
        ensures { IfOk result (λ copy. copy.items ≡ self.now.items) }
    {
        let items = self.items.share()?;
        Ok(ProperList { items })
    }
}
