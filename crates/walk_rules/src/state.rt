//! Where a rule stands.
ghost use Rattle.std.specs.Prelude.{◌≡◌, ◌<◌, true, length};
ghost use Rattle.walk_rules.specs.Words.{is_walk_word};

use seq_plan::Cursor;
use seq_turns::{Gathered, Proper, ProperList, Rest, Seen};
use seq_values::Builtin;

/// A call of a word that walks, which hasn't begun.
#[derive(Drop)]
pub(crate) struct Called {
    pub(crate) word: Builtin,
    pub(crate) args: ProperList,
    ghost walks: { is_walk_word word ≡ true },
}

/// What is made of gathered elements: a vector, a list in reverse order, or the arguments of a call.
#[derive(Drop)]
pub(crate) enum Purpose {
    Vector,
    Reversed,
    Arguments { function: Proper },
}

/// The words that take one seq, and are over then.
#[derive(Clone, Copy)]
pub(crate) enum Once {
    Seq,
    First,
    Second,
    Rest,
    Next,
    IsEmpty,
}

/// Which word asks a test of each element: `every?` or `some`.
#[derive(Clone, Copy)]
pub(crate) enum Quest {
    Every,
    Any,
}

/// Two rests that are compared once the pair before them is equal.
#[derive(Drop)]
pub(crate) struct Rests {
    pub(crate) left: Rest,
    pub(crate) right: Rest,
}

/// What waits for a comparison: rests, the innermost last, the arguments from the right one of the pair at hand on, and whether the answer is turned round.
#[derive(Drop)]
pub(crate) struct Pending {
    pub(crate) rests: Vec<Rests>,
    pub(crate) args: ProperList,
    pub(crate) at: usize,
    pub(crate) negated: bool,
    ghost within: { at < length args.items },
}

/// A rule that waits for a sequence.
#[derive(Drop)]
pub(crate) enum AtSeq {
    Once(Once),
    /// `nth`, where the place isn't looked at yet.
    Place { index: i64, default: Option<Proper> },
    /// `nth`, with so many elements to pass.
    Nth { left: i64, default: Option<Proper> },
    /// `last`, with the last element so far.
    Last { answer: Proper },
    /// `count`, with the count so far.
    Count { count: i64 },
    /// `conj` onto a lazy part, which is the first of the arguments.
    Conj { args: ProperList },
    Gather { kept: Gathered, purpose: Purpose },
    Doall { whole: Proper },
    Search { quest: Quest, test: Proper },
    /// `reduce` without a first value.
    ReduceFirst { function: Proper },
    Reduce { function: Proper, answer: Proper },
    EqualLeft { right: Rest, pending: Pending },
    EqualRight { left: Seen, pending: Pending },
}

/// A rule that waits for its own step.
#[derive(Drop)]
pub(crate) enum AtStep {
    /// So many elements are to be passed after the first one.
    Nth {
        left: i64,
        default: Option<Proper>,
        place: Cursor,
    },
    Last {
        place: Cursor,
    },
    /// The count before the first element.
    Count {
        count: i64,
        place: Cursor,
    },
    Gather {
        kept: Gathered,
        purpose: Purpose,
        place: Cursor,
    },
    Doall {
        whole: Proper,
        place: Cursor,
    },
    Search {
        quest: Quest,
        test: Proper,
        place: Cursor,
    },
    ReduceFirst {
        function: Proper,
        place: Cursor,
    },
    Reduce {
        function: Proper,
        answer: Proper,
        place: Cursor,
    },
    Pair {
        left: Proper,
        right: Proper,
        pending: Pending,
    },
}

/// A rule that waits for the answer of a call.
#[derive(Drop)]
pub(crate) enum AtValue {
    /// The answer is the rule's own.
    Answer,
    Search {
        quest: Quest,
        test: Proper,
        rest: Rest,
    },
    Reduce {
        function: Proper,
        rest: Rest,
    },
}

/// Where a rule stands, by what it waits for.
#[derive(Drop)]
pub(crate) enum State {
    Begin(Called),
    Seq(AtSeq),
    Step(AtStep),
    Value(AtValue),
    Over,
}

/// The rule of a call of a word that walks, run by turns.
#[derive(Drop)]
pub struct RuleState {
    pub(crate) state: State,
}
