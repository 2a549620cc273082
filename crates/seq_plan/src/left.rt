ghost use Rattle.std.specs.Prelude.{◌≡◌, ◌<◌, ◌≤◌, ◌<ℤ◌, int_le, true, length, IsTrue};
ghost use Rattle.seq_values.specs.WellFormed.{is_well_formed_node};
ghost use Rattle.seq_values.specs.declared.value.Node.TheVariants as N;

use seq_values::{Held, Value};
use seq_vector::PVec;

/// What is left of the heads of a node: the first `left` of them, the first element last.
#[derive(Drop)]
pub struct HeadsLeft {
    pub(crate) depth: u32,
    pub(crate) heads: PVec<Value>,
    pub(crate) left: usize,
    pub(crate) rest: Held,
    ghost within: { (0 < left) × (left ≤ length heads) },
    ghost well: { IsTrue (is_well_formed_node (N.Cons depth heads rest)) },
}

/// What is left of the items of a chunk, from place `done` on.
#[derive(Drop)]
pub struct ItemsLeft {
    pub(crate) depth: u32,
    pub(crate) items: PVec<Value>,
    pub(crate) done: usize,
    pub(crate) rest: Held,
    ghost within: { done < length items },
    ghost well: { IsTrue (is_well_formed_node (N.Chunk depth items rest)) },
}

/// What is left of a range.
#[derive(Drop)]
pub struct RangeLeft {
    pub(crate) from: i64,
    pub(crate) at: i64,
    pub(crate) end: i64,
    ghost within: { at <ℤ end },
    ghost begun: { int_le from at ≡ true },
}

/// What is left of a vector, from place `at` on.
#[derive(Drop)]
pub struct VecLeft {
    pub(crate) depth: u32,
    pub(crate) items: PVec<Value>,
    pub(crate) at: u32,
    ghost within: { at < length items },
    ghost well: { IsTrue (is_well_formed_node (N.VecSeq depth items at)) },
}
