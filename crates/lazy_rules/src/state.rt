ghost use Rattle.std.specs.Prelude.{◌≡◌, ◌<◌, ◌≤◌, ◌+◌, true, pos, ◌<ℤ◌, length, map, IsTrue};
ghost use Rattle.seq_values.specs.WellFormed.{are_well_formed, sight_of};
ghost use Rattle.seq_values.specs.WellFormedTerms.{takes, is_well_formed_term};
ghost use Rattle.seq_values.specs.declared.words.Op.TheVariants as O;
ghost use Rattle.lazy_rules.specs.Words.{is_lazy_word};

use seq_plan::Cursor;
use seq_turns::{Gathered, Proper, ProperList, Seen};
use seq_values::{Builtin, Term, Value};
use seq_vector::PVec;

/// A term, and how many elements a chunk of a range or of a vector's seq has.
#[derive(Drop)]
pub(crate) struct Work {
    pub(crate) term: Term,
    pub(crate) chunk: u32,
    ghost well: { IsTrue (is_well_formed_term term) },
    ghost positive: { 0 < chunk },
}

/// A call of a word of a lazy operation.
#[derive(Drop)]
pub(crate) struct Call {
    pub(crate) word: Builtin,
    pub(crate) args: PVec<Value>,
    ghost lazy: { IsTrue (is_lazy_word word) },
    ghost well: { IsTrue (are_well_formed args) },
}

/// A term that is well formed.
#[derive(Drop)]
pub(crate) struct ProperTerm {
    pub(crate) term: Term,
    ghost well: { IsTrue (is_well_formed_term term) },
}

/// What is kept of an element and of what a function gives of it.
#[derive(Clone, Copy)]
pub(crate) enum Keeps {
    /// `map`: each answer.
    Answers,
    /// `filter`: the element, where the answer is true.
    Elements,
    /// `keep`: the answer, where it isn't nil.
    SomeAnswers,
}

/// Why a function is called with an element.
#[derive(Clone, Copy)]
pub(crate) enum Purpose {
    Sift(Keeps),
    TakeWhile,
    DropWhile,
    Mapcat,
}

/// A function that is to be called with elements of a sequence, and the size of chunks.
#[derive(Drop)]
pub(crate) struct Applying {
    pub(crate) purpose: Purpose,
    pub(crate) function: Proper,
    pub(crate) chunk: u32,
    ghost positive: { 0 < chunk },
}

/// What is done with a chunk, and what comes after it.
#[derive(Drop)]
pub(crate) struct Sieve {
    pub(crate) keeps: Keeps,
    pub(crate) function: Proper,
    pub(crate) rest: Proper,
}

/// A chunk of which the function is called with the element at this place, and what was kept of those before.
#[derive(Drop)]
pub(crate) struct Sifting {
    pub(crate) sieve: Sieve,
    pub(crate) kept: Gathered,
    pub(crate) items: ProperList,
    pub(crate) at: usize,
    ghost within: { (length kept.items.items ≤ at) × (at < length items.items) },
}

/// The seqs of the first collections that a function maps over, and where among the arguments the others begin.
#[derive(Drop)]
pub(crate) struct Gathering {
    pub(crate) function: Proper,
    pub(crate) seqs: Vec<Seen>,
    pub(crate) args: ProperList,
    pub(crate) at: usize,
    ghost within: { (length seqs.items + 2 ≡ at) × (at ≤ length args.items) },
    ghost fit: { takes O.MapN (map sight_of args.items) ≡ true },
}

/// Collections one after the other, from place `at` on.
#[derive(Drop)]
pub(crate) struct Collections {
    pub(crate) args: ProperList,
    pub(crate) at: usize,
    pub(crate) chunk: u32,
    ghost begun: { 0 < at },
    ghost positive: { 0 < chunk },
}

/// A group of so many elements: how many are still to be taken, and those that were.
#[derive(Drop)]
pub(crate) struct Group {
    pub(crate) size: i64,
    pub(crate) left: i64,
    pub(crate) taken: Gathered,
    ghost some: { pos 0 <ℤ size },
    ghost more: { pos 0 <ℤ left },
}

/// A rule that hasn't begun.
#[derive(Drop)]
pub(crate) enum AtBegin {
    Work(Work),
    Call(Call),
}

/// A rule that waits for a sequence.
#[derive(Drop)]
pub(crate) enum AtSeq {
    Apply(Applying),
    /// One of several collections that a function maps over.
    MapAll(Gathering),
    /// So many are to be taken after the first one.
    Take { left: i64 },
    Drop { count: i64 },
    /// The collection before place `at`.
    Concat(Collections),
    Cycle { whole: Proper },
    /// The whole, from which a round begins.
    CycleAgain { whole: Proper },
    Parts(Group),
    /// What comes after the last element that was taken.
    PartsNext { group: Group, rest: Proper },
}

/// A rule that waits for its own step.
#[derive(Drop)]
pub(crate) enum AtStep {
    /// So many are to be dropped after the first one.
    Drop { count: i64, place: Cursor },
    Parts { group: Group, place: Cursor },
}

/// A rule that waits for the answer of a call.
#[derive(Drop)]
pub(crate) enum AtValue {
    /// The call with the first element of a node.
    Element { applying: Applying, place: Cursor },
    /// The call with an element of a chunk.
    Chunk(Sifting),
    /// The call with the first elements of several nodes, whose rests are in the term.
    MapAll(ProperTerm),
    Next { function: Proper },
}

/// A rule that waits for its part.
#[derive(Drop)]
pub(crate) enum AtPart {
    /// The elements before the part.
    Items(ProperList),
    /// The one element before the part.
    One(Proper),
    /// The list that is the one element before the part.
    List(Gathered),
    /// The part itself.
    Cell,
    /// The answer of `mapcat`'s function, which comes before the part.
    Mapcat(Proper),
    /// So many are to be taken of the part.
    TakeOf { count: i64 },
}

/// Where a rule stands, by what it waits for.
#[derive(Drop)]
pub(crate) enum State {
    Begin(AtBegin),
    Seq(AtSeq),
    Step(AtStep),
    Value(AtValue),
    Part(AtPart),
    Over,
}

/// A rule that runs by turns.
#[derive(Drop)]
pub struct RuleState {
    pub(crate) state: State,
}
