//! What runs inputs through stages: the stages with their states, and where an input stands.
ghost use Rattle.std.specs.Prelude.{◌≤◌, ◌<◌, ◌<ℤ◌, pos, length, map, All, IsTrue};
ghost use Rattle.seq_values.specs.WellFormed.{binds, is_well_formed, sight_of};
ghost use Rattle.seq_values.specs.declared.value.Value.TheVariants as V;

use seq_base::Thrown;
use seq_plan::Cursor;
use seq_turns::{Proper, ProperList, Rest};
use seq_values::{Target, Value};
use seq_vector::PVec;

/// Why a stage calls its function with an input.
#[derive(Clone, Copy)]
pub(crate) enum Purpose {
    /// `map` passes the answer.
    Map,
    /// `filter` passes the input where the answer is true.
    Filter,
    /// `remove` passes the input where the answer is false.
    Remove,
    /// `keep` passes the answer where it isn't nil.
    Keep,
    /// `take-while` passes the input where the answer is true, and else all is done.
    TakeWhile,
    /// `mapcat` passes each element of the answer.
    Mapcat,
}

/// The elements of a group that isn't full, as the items of a vector, and how many a full one has.
#[derive(Drop)]
pub(crate) struct Group {
    pub(crate) size: i64,
    pub(crate) depth: u32,
    pub(crate) items: PVec<Value>,
    ghost well: { IsTrue (is_well_formed (V.Vector depth items)) },
    ghost fewer: { pos (length items) <ℤ size },
}

/// The items of a vector.
#[derive(Drop)]
pub(crate) struct Items {
    pub(crate) depth: u32,
    pub(crate) items: PVec<Value>,
    ghost well: { IsTrue (is_well_formed (V.Vector depth items)) },
}

/// A stage of a transducer or of a reducer value, with its state where it keeps one.
/// https://clojure.org/reference/transducers
#[derive(Drop)]
pub(crate) enum Stage {
    /// A stage that calls its function with each input, and keeps no state.
    Applies { purpose: Purpose, function: Proper },
    /// `take`, and how many inputs are still to be passed.
    Take { count: i64, left: i64 },
    /// `drop`, and how many inputs are still to be dropped.
    Drop { count: i64, left: i64 },
    /// `drop-while`, and whether it still drops.
    DropWhile { test: Proper, dropping: bool },
    /// `cat`
    Cat,
    /// `partition-all`, and the group so far.
    PartitionAll(Group),
    /// `take` of the reducers, and how many inputs are still to be passed.
    ReducerTake { count: i64, left: i64 },
}

/// A collection of which each element enters the stage at this place, and what is left of it.
#[derive(Drop)]
pub(crate) struct Walk {
    pub(crate) at: usize,
    pub(crate) rest: Rest,
}

/// What is under way.
#[derive(Clone, Copy)]
pub(crate) enum UnderWay {
    /// An input or a collection. `last` tells whether all is done once it is through.
    Input { last: bool },
    /// The completion, of the stages from this place on.
    Completion { from: usize },
}

/// Stages in the midst of an input, and the walks that wait until it is through, the innermost one last.
#[derive(Drop)]
pub(crate) struct Flow {
    pub(crate) stages: Vec<Stage>,
    pub(crate) walks: Vec<Walk>,
    pub(crate) under_way: UnderWay,
    ghost within: { All (λ w. w.at ≤ length stages.items) walks.items },
}

/// The stages of a transducer or of a reducer value between two inputs.
#[derive(Drop)]
pub struct Stages {
    pub(crate) stages: Vec<Stage>,
    pub(crate) done: bool,
}

/// An input waits for the answer of the call of the stage at this place.
#[derive(Drop)]
pub struct AtCall {
    pub(crate) flow: Flow,
    pub(crate) at: usize,
    /// What the stage passes on if the answer wants it: the input, or nil where only the answer is passed on.
    pub(crate) kept: Proper,
    ghost within: { at < length flow.stages.items },
}

/// An input waits for the seq of a collection, each of whose elements enters the stage at this place.
#[derive(Drop)]
pub struct AtSeq {
    pub(crate) flow: Flow,
    pub(crate) at: usize,
    ghost within: { at ≤ length flow.stages.items },
}

/// An input waits for the own step of an element of a collection, which then enters the stage at this place.
#[derive(Drop)]
pub struct AtStep {
    pub(crate) flow: Flow,
    pub(crate) at: usize,
    pub(crate) place: Cursor,
    ghost within: { at ≤ length flow.stages.items },
}

/// An input waits until what passed the last stage was reduced or gathered.
#[derive(Drop)]
pub struct AtOut {
    pub(crate) flow: Flow,
}

/// What a stage does with an input.
#[derive(Drop)]
pub(crate) enum Effect {
    /// Calls its function.
    Calls {
        function: Proper,
        args: ProperList,
        kept: Proper,
    },
    Passes(Proper),
    /// Passes this, and then all is done.
    PassesLast(Proper),
    /// Passes each element of a collection.
    PassesEach(Proper),
    PassesNothing,
    /// Passes nothing, and all is done.
    Done,
    Throws(Thrown),
}

/// A stage with its new state, and its effect.
#[derive(Drop)]
pub(crate) struct Reacted {
    pub(crate) stage: Stage,
    pub(crate) effect: Effect,
}

/// Stages with another one in the place of one.
#[derive(Drop)]
pub(crate) struct Replaced {
    pub(crate) stages: Vec<Stage>,
    pub(crate) old: Stage,
}

/// Stages of which one was taken out of its place.
#[derive(Drop)]
pub(crate) struct Hole {
    pub(crate) flow: Flow,
    pub(crate) stage: Stage,
}

/// Stages of which the innermost walk was taken, where there was one.
#[derive(Drop)]
pub(crate) struct Unwound {
    pub(crate) flow: Flow,
    pub(crate) walk: Option<Walk>,
}

/// A stage that begins its next group, and the group that it had.
#[derive(Drop)]
pub(crate) struct Emptied {
    pub(crate) stage: Stage,
    pub(crate) group: Proper,
}

/// Stages after one of them took an input or an answer, and its effect.
#[derive(Drop)]
pub(crate) struct Effected {
    pub(crate) flow: Flow,
    pub(crate) effect: Effect,
}

/// Where an input stands between two turns.
#[derive(Drop)]
pub(crate) enum Passing {
    /// The next turn is due.
    Turned(StageTurn),
    /// This enters the stage at a place.
    Entering { flow: Flow, at: usize, item: Proper },
    /// What entered is through. `done` tells whether all is done.
    Through { flow: Flow, done: bool },
}

/// A function with what is bound to it.
#[derive(Drop)]
pub(crate) struct Bound {
    pub(crate) target: Target,
    pub(crate) items: ProperList,
    ghost fits: { IsTrue (binds target (map sight_of items.items)) },
}

/// What a value is as a transducer.
#[derive(Drop)]
pub(crate) enum Opening {
    /// One stage.
    Stage(Stage),
    /// A composition of these.
    Inner(ProperList),
    /// `identity`, which has no stage.
    Nothing,
    /// No transducer.
    Refused,
}

/// What is bound to a composition, from a place on.
#[derive(Drop)]
pub(crate) struct Frame {
    pub(crate) items: ProperList,
    pub(crate) at: usize,
}

/// Compositions that are still to be opened, the innermost one last, and the stages so far.
#[derive(Drop)]
pub(crate) struct Work {
    pub(crate) frames: Vec<Frame>,
    pub(crate) stages: Vec<Stage>,
}

/// The work without its innermost composition, where there is one.
#[derive(Drop)]
pub(crate) struct Popped {
    pub(crate) work: Work,
    pub(crate) frame: Option<Frame>,
}

/// A reducer value taken apart: its outermost stage and its collection, or the collection at the bottom.
#[derive(Drop)]
pub(crate) enum Folded {
    Reducer { stage: Stage, collection: Proper },
    Bottom(Proper),
}

/// A stage that has its state again, and the place behind it in the list of states.
#[derive(Drop)]
pub(crate) struct Restored {
    pub(crate) stage: Stage,
    pub(crate) at: usize,
}

/// Stages without the last one, where there is one.
#[derive(Drop)]
pub(crate) struct Taken {
    pub(crate) stages: Vec<Stage>,
    pub(crate) stage: Option<Stage>,
}

/// The stages of a value, or why it has none.
#[derive(Drop)]
pub enum Opened {
    Stages(Stages),
    Thrown(Thrown),
}

/// What the stages need next, with where they stand then, or how an input ends.
#[derive(Drop)]
pub enum StageTurn {
    /// The answer of a call. `AtCall::answered` goes on.
    Apply {
        waiting: AtCall,
        function: Proper,
        args: ProperList,
    },
    /// The sequence of a value that isn't there at once. `AtSeq::found` goes on.
    Seq {
        waiting: AtSeq,
        value: Proper,
    },
    /// One own step. `AtStep::visited` goes on.
    Visit {
        waiting: AtStep,
    },
    /// This passed the last stage, and is to be reduced or gathered. `AtOut::passed` goes on.
    Out {
        waiting: AtOut,
        item: Proper,
    },
    /// A stage throws this error.
    Throw(Thrown),
    /// The input, the collection or the completion is through.
    Rest(Stages),
}
