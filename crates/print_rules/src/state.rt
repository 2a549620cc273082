//! Where a rule stands, by what it waits for.
use seq_turns::{Proper, ProperList, Rest};
use seq_values::Line;

/// What a value is printed within.
#[derive(Drop)]
pub(crate) enum Around {
    /// A vector, of which the items from a place on are left.
    Items { items: ProperList, at: usize },
    /// A node or a lazy part, of which this comes after the element.
    Elements { rest: Rest },
}

/// The text so far, which only grows, and what waits for the text of the value at hand, the innermost last.
#[derive(Drop)]
pub(crate) struct Printing {
    pub(crate) text: Line,
    pub(crate) around: Vec<Around>,
}

/// Where a rule stands, by what it waits for.
#[derive(Drop)]
pub(crate) enum State {
    /// It hasn't begun, and is to print this value.
    Begin(Proper),
    /// It waits for the elements of a node or a lazy part, which come after an element of it or are its first ones.
    Seq { after: bool, printing: Printing },
    /// It waits for its own step, that of printing this value.
    Step { value: Proper, printing: Printing },
    Over,
}

/// The rule that prints a value, run by turns.
#[derive(Drop)]
pub struct RuleState {
    pub(crate) state: State,
}
