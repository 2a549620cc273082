use crate::proper::{Proper, ProperList};
use seq_plan::Cursor;

/// What comes after an element: more of the same node, or what stands behind it.
#[derive(Drop)]
pub enum Rest {
    Within(Cursor),
    Beyond(Proper),
}

/// What `seq` gives: nil, or a node with an element.
#[derive(Drop)]
pub enum Seen {
    Nil,
    At(Cursor),
}

/// What `seq` finds at once: what it gives, or the value of which it has to be asked for.
#[derive(Drop)]
pub enum Sought {
    Now(Seen),
    Ask(Proper),
}

/// The first chunk of a node, and what comes after it. A node that has no chunks is handed back.
#[derive(Drop)]
pub enum Chunked {
    Single(Cursor),
    Whole { items: ProperList, rest: Proper },
}

/// The first element, and what comes after it.
#[derive(Drop)]
pub struct Split {
    pub first: Proper,
    pub rest: Rest,
}
