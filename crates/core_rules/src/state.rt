//! Where a rule stands.
ghost use Rattle.std.specs.Prelude.{◌≤◌, length};

use seq_turns::ProperList;
use seq_values::{Builtin, Target};

/// A rule that hasn't begun.
#[derive(Drop)]
pub(crate) enum AtBegin {
    /// A call of a word.
    Word {
        word: Builtin,
        args: ProperList,
    },
    /// A call of a function, with what is bound to it.
    Function {
        target: Target,
        bound: ProperList,
        args: ProperList,
    },
}

/// The first functions of a composition, the last of which is called next.
#[derive(Drop)]
pub(crate) struct Earlier {
    pub(crate) functions: ProperList,
    pub(crate) left: usize,
    ghost within: { left ≤ length functions.items },
}

/// A rule that waits for the answer of a call.
#[derive(Drop)]
pub(crate) enum AtValue {
    /// The answer is the rule's own.
    Answer,
    /// The answer is turned round.
    Not,
    /// Each of these functions is called with the answer of the one after it.
    Compose(Earlier),
}

/// Where a rule stands, by what it waits for.
#[derive(Drop)]
pub(crate) enum State {
    Begin(AtBegin),
    Value(AtValue),
    Over,
}

/// A rule that runs by turns.
#[derive(Drop)]
pub struct RuleState {
    pub(crate) state: State,
}

/// What a value is as a transducer.
#[derive(Drop)]
pub(crate) enum Opening {
    /// It has a stage.
    Stage,
    /// A composition of these.
    Inner(ProperList),
    /// It is a transducer without a stage.
    Nothing,
    /// No transducer.
    Refused,
}

/// What is bound to a composition, from a place on.
#[derive(Drop)]
pub(crate) struct Frame {
    pub(crate) items: ProperList,
    pub(crate) at: usize,
}

/// Compositions that are still to be looked through, the innermost one last, and whether a stage was found.
#[derive(Drop)]
pub(crate) struct Search {
    pub(crate) frames: Vec<Frame>,
    pub(crate) found: bool,
}

/// A search without its innermost composition, where there is one.
#[derive(Drop)]
pub(crate) struct Popped {
    pub(crate) search: Search,
    pub(crate) frame: Option<Frame>,
}
