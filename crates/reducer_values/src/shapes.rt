ghost use Rattle.std.specs.Prelude.{map, IsTrue};
ghost use Rattle.seq_values.specs.WellFormed.{is_well_formed, sight_of};
ghost use Rattle.seq_values.specs.WellFormedTerms.{are_fold_stages};
ghost use Rattle.seq_values.specs.declared.value.Value.TheVariants as V;

use seq_turns::{Proper, ProperList};
use seq_values::Value;
use seq_vector::PVec;

/// The items of a vector that is well formed, and how deep the vector is.
#[derive(Drop)]
pub struct Items {
    pub depth: u32,
    pub items: PVec<Value>,
    ghost well: { IsTrue (is_well_formed (V.Vector depth items)) },
}

/// What a fold may split: the items of the vector at the bottom, and the stages that they enter, from the one nearest the vector outwards, each as the transducer's stage that acts as it does.
#[derive(Drop)]
pub struct Foldable {
    pub items: Items,
    pub stages: ProperList,
    ghost fit: { IsTrue (are_fold_stages (map sight_of stages.items)) },
}

/// The outermost layer of a collection that is folded.
#[derive(Drop)]
pub(crate) enum Layer {
    /// A vector.
    Items(Items),
    /// A reducer value that may be split, as the stage that acts as it does, and the collection under it.
    Stage { stage: Proper, inner: Proper },
    /// What can't be split.
    Whole,
}
