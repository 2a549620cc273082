//! The outputs of a pull.
ghost use Rattle.std.specs.Prelude.{◌≡◌, ◌≤◌, [], ◌∷◌, ◌++◌, length, IfOk};
ghost use Rattle.seq_plan.specs.Nodes.{with_members};
ghost use Rattle.seq_turns.specs.Making.{Grows};
ghost use Rattle.seq_values.specs.Plain.{plain, plains};

use crate::flow::Outputs;
use seq_turns::{Gathered, Grown, Proper};
use seq_values::Value;
use seq_vector::NoMemory;
use std::alloc::Global;

/// One more value at the end.
fn pushed(items: Vec<Value>, last: Value) -> Result<Vec<Value>, NoMemory>
    ensures { IfOk result (λ all. all.items ≡ items.items ++ last ∷ []) }
{
    let mut items = items;
    match items.push(last) {
        Ok(()) => Ok(items),
        Err(_) => Err(NoMemory),
    }
}

/// There are more than a list may have.
#[tactic(auto, using(crate::proofs::Members::too_many))]
fn too_many(outputs: Outputs) -> Grown
    requires { 4294967296 ≤ length outputs.items.items }
    ensures { Grows (with_members (plains outputs.items.items)) result }
{
    Grown::TooMany
}

impl Outputs {
    /// No outputs. It takes no memory.
    pub fn none(alloc: Global) -> Outputs
        ensures { result.items.items ≡ [] }
    {
        Outputs {
            items: Vec::new(alloc),
        }
    }

    /// How many there are.
    pub fn len(&self) -> usize
        ensures { result ≡ length self.now.items.items }
    {
        self.items.len()
    }

    /// One more output at the end.
    #[tactic(auto, using(seq_turns::proofs::Listing::more_well, seq_turns::proofs::Listing::plains_more))]
    pub fn and(self, last: Proper) -> Result<Outputs, NoMemory>
        ensures same { IfOk result (λ all. all.items.items ≡ self.items.items ++ last.value ∷ []) }
        ensures stands { IfOk result (λ all. plains all.items.items ≡ plains self.items.items ++ plain last.value ∷ []) }
    {
        let items = pushed(self.items, last.value)?;
        Ok(Outputs { items })
    }

    /// The outputs as members of a list, unless they are more than one may have.
    #[tactic(auto, using(crate::proofs::Members::all_members))]
    pub fn members(self) -> Grown
        ensures { Grows (with_members (plains self.items.items)) result }
    {
        if self.items.len() > 4294967295 {
            return too_many(self);
        }
        Grown::All(Gathered { items: self.items })
    }
}
