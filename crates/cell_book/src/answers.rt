use seq_base::Thrown;
use seq_values::{Term, Value};

/// The state of a part at the step of a call.
#[derive(Drop)]
pub enum Look {
    /// Nobody evaluates it.
    Empty,
    /// The claim with this number evaluates it.
    Forcing { claim: u128 },
    /// Its value.
    Done(Value),
    /// The error of a future.
    Failed(Thrown),
    /// No part with this number was made.
    Unknown,
}

/// Why no part was made. The term is handed back.
#[derive(Drop)]
pub enum MakeRefusal {
    /// As many parts as the limit allows were made.
    Spent(Term),
    Memory(Term),
}

/// Why no claim was opened.
#[derive(Drop)]
pub enum ClaimRefusal {
    /// The part isn't empty.
    Seen(Look),
    /// The part is empty, but a work was given up, and no part was refused for the limit.
    GaveUp,
    Memory,
}

/// What a run counts of its parts.
#[derive(Clone, Copy, Debug, PartialEq, Eq)]
pub struct Totals {
    /// The parts made.
    pub made: u32,
    /// The parts that gave a value.
    pub realised: u32,
    /// The evaluations of parts that threw.
    pub failed: u128,
}
