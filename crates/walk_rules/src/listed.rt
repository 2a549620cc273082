ghost use Rattle.std.specs.Prelude.{IsTrue};
ghost use Rattle.seq_values.specs.WellFormed.{is_well_formed};
ghost use Rattle.seq_values.specs.declared.value.Value.TheVariants as V;

use seq_turns::Proper;
use seq_values::Value;
use seq_vector::PVec;

/// A well-formed vector, by the depth that it keeps and its items.
#[derive(Drop)]
pub(crate) struct Listed {
    pub(crate) depth: u32,
    pub(crate) items: PVec<Value>,
    ghost well: { IsTrue (is_well_formed (V.Vector depth items)) },
}

/// The kinds of a value that words tell apart before they walk.
#[derive(Drop)]
pub(crate) enum Shape {
    Nil,
    Vector(Listed),
    Another(Proper),
}

/// The value in a reduced one, or a value that isn't reduced.
#[derive(Drop)]
pub(crate) enum Unwrapped {
    Reduced(Proper),
    Another(Proper),
}
