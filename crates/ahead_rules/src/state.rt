//! Where a rule stands, grouped by what it waits for.
ghost use Rattle.std.specs.Prelude.{◌<◌, ◌≤◌, length, IsTrue};
ghost use Rattle.seq_plan.specs.WellFormed.{sight};
ghost use Rattle.seq_values.specs.Plain.{plain};
ghost use Rattle.seq_values.specs.WellFormed.{is_well_formed, are_well_formed};
ghost use Rattle.seq_values.specs.WellFormedTerms.{is_sequence, is_well_formed_term};

use seq_plan::Cursor;
use seq_turns::{Gathered, Proper, ProperList};
use seq_values::{Builtin, CellId, Term, Value};
use seq_vector::PVec;

/// A part's term, and how many elements a chunk of a range or of a vector's seq has.
#[derive(Drop)]
pub(crate) struct Work {
    pub(crate) term: Term,
    pub(crate) chunk: u32,
    ghost well: { IsTrue (is_well_formed_term term) },
    ghost some: { 0 < chunk },
}

/// A call of a word, and the number of processors.
#[derive(Drop)]
pub(crate) struct Called {
    pub(crate) word: Builtin,
    pub(crate) args: PVec<Value>,
    pub(crate) processors: u32,
    ghost well: { IsTrue (are_well_formed args) },
}

/// How many elements a chunk of a range or of a vector's seq has.
#[derive(Drop)]
pub(crate) struct Size {
    pub(crate) elements: u32,
    ghost some: { 0 < elements },
}

/// A well-formed value that a rest or a lazy part may be: nil, a node or a part.
#[derive(Drop)]
pub(crate) struct Sequence {
    pub(crate) value: Value,
    ghost well: { IsTrue (is_well_formed value) },
    ghost sequence: { IsTrue (is_sequence (sight (plain value))) },
}

/// A chunk of which the items before place `at` were taken. The last of these waits for its answer, and the answers of those before it are kept.
#[derive(Drop)]
pub(crate) struct ChunkLeft {
    pub(crate) answers: Gathered,
    pub(crate) items: ProperList,
    pub(crate) at: usize,
    ghost within: { (length answers.items.items < at) × (at ≤ length items.items) },
}

/// What a step of `pmap` goes on to: the parts that are called ahead and the same some further on, and the answer that stands before the step's part, if there is one.
#[derive(Drop)]
pub(crate) struct Stepping {
    pub(crate) values: Sequence,
    pub(crate) further: Sequence,
    pub(crate) before: Option<Proper>,
}

/// A rule that hasn't begun.
#[derive(Drop)]
pub(crate) enum AtBegin {
    Work(Work),
    Call(Called),
}

/// A rule that waits for a sequence.
#[derive(Drop)]
pub(crate) enum AtSeq {
    /// Of the collection, each element of which is called ahead.
    Rets {
        function: Proper,
        chunk: Size,
    },
    /// Of what is further on, before the element's part is asked.
    Step {
        element: Proper,
        others: Sequence,
        values: Sequence,
    },
    /// Of the parts that are left to be asked.
    Derefs {
        chunk: Size,
    },
    /// Of the parts that are called ahead.
    First {
        stepping: Stepping,
    },
    /// Of those after the first of them.
    Others {
        first: Proper,
        stepping: Stepping,
    },
    /// Of the collection that is left, so many of which are to be taken.
    Ahead {
        count: i64,
        left: Proper,
    },
    /// Of the collection that a future is ahead of.
    Near {
        ahead: CellId,
    },
}

/// A rule that waits for its own step.
#[derive(Drop)]
pub(crate) enum AtStep {
    /// For the element at the place, the first of so many.
    Ahead { count: i64, place: Cursor },
}

/// A rule that waits for a value.
#[derive(Drop)]
pub(crate) enum AtValue {
    /// Of the element's part; what comes after the part, and what is further on.
    Step { others: Sequence, further: Sequence },
    /// Of a part in a chunk, and what comes after the chunk.
    Derefs { chunk: ChunkLeft, rest: Sequence },
    /// Of a single part, and what comes after it.
    DerefsOne { rest: Sequence },
    /// Of a call.
    Call,
    /// Of the future before.
    AheadOf,
}

/// A rule that waits for its part.
#[derive(Drop)]
pub(crate) enum AtPart {
    /// The sequence of the calls.
    PmapRets {
        processors: u32,
    },
    /// What is left of it some calls further on.
    PmapDrop {
        rets: CellId,
    },
    /// The future that takes the first elements of the collection.
    Seque {
        source: Proper,
    },
    /// The call of an element of a chunk, and what comes after the chunk.
    Rets {
        function: Proper,
        chunk: ChunkLeft,
        rest: Proper,
    },
    /// The call of a single element, and what comes after it.
    RetsOne {
        function: Proper,
        rest: Proper,
    },
    /// The future that takes a further element; the element at hand, and what comes after it.
    Near {
        first: Proper,
        rest: Proper,
    },
    /// What comes after the items.
    Items {
        items: ProperList,
    },
    /// What comes after the element.
    One {
        first: Proper,
    },
    /// The part that is given.
    Cell,
}

/// Where a rule stands, by what it waits for.
#[derive(Drop)]
pub(crate) enum State {
    Begin(AtBegin),
    Seq(AtSeq),
    Step(AtStep),
    Value(AtValue),
    Part(AtPart),
    Over,
}

/// A rule that runs by turns.
#[derive(Drop)]
pub struct RuleState {
    pub(crate) state: State,
}
