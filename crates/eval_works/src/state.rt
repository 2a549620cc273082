//! What the steps of a work on a book come to.

use cell_book::Work;
use eval_frames::{Asker, Code, Event};
use seq_turns::Rule;

/// Why an evaluation stops without an outcome.
#[derive(Clone, Copy, Debug, PartialEq, Eq)]
pub enum Halt {
    /// As many parts as the limit allows were made.
    Spent,
    /// A work was given up before.
    GaveUp,
    Memory,
}

/// What a part that is asked shows to the work that asks.
#[derive(Drop)]
pub enum Asked<R: Rule> {
    /// The work comes to this next.
    Comes(Event<R>),
    /// Nobody evaluates the part.
    Empty(Asker<R>),
    /// The claim with this number evaluates it.
    Waits(Asker<R>, u128),
}

/// What a claim of a part that is asked comes to.
pub enum Claimed<R: Rule> {
    Opened(Asker<R>, Work),
    /// The part was Done or Failed before, and the work comes to this next.
    Comes(Event<R>),
    /// The claim with this number was opened before.
    Waits(Asker<R>, u128),
}

/// A work at the start of its run, and what it goes by.
#[derive(Drop)]
pub struct Begun<R: Rule> {
    pub code: Code,
    pub event: Event<R>,
}
