//! Where a walk stands.
use seq_values::{CellId, Value};

/// How much of a sequence is there already.
#[derive(Clone, Copy, Debug, PartialEq, Eq)]
pub struct Front {
    /// How many elements.
    pub count: u128,
    /// Whether the end is.
    pub ended: bool,
}

/// What comes after a step of the walk.
#[derive(Drop)]
pub(crate) enum Onward {
    /// The walk stands at this value.
    At(Value),
    /// It is over: at the end, or not.
    Over(bool),
}

/// The elements that a step passes, and what comes after it.
#[derive(Drop)]
pub(crate) struct Step {
    pub(crate) count: u64,
    pub(crate) then: Onward,
}

/// What a walk meets at a value.
#[derive(Drop)]
pub(crate) enum Met {
    /// So many elements, with the end behind them.
    Last(u64),
    /// So many elements, and the rest.
    More(u32, Value),
    /// A part.
    Part(CellId),
    /// Neither elements nor an end.
    Nothing,
}
