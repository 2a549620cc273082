//! Where a rule stands, by what it waits for.
ghost use Rattle.std.specs.Prelude.{◌≡◌, IsTrue};
ghost use Rattle.pull_rules.specs.Kept.{IsThrough};
ghost use Rattle.pull_rules.specs.Reducing.{waiting_stages};
ghost use Rattle.pull_rules.specs.Words.{is_stage_word};
ghost use Rattle.seq_values.specs.Plain.{plain};
ghost use Rattle.seq_values.specs.WellFormed.{are_well_formed};
ghost use Rattle.seq_values.specs.WellFormedTerms.{is_well_formed_term};
ghost use Rattle.seq_values.specs.declared.words.Op.TheVariants as O;
ghost use Rattle.xf_stages.specs.Left.{stages_in};

use crate::flow::{Gathering, Outputs, Reduction};
use seq_plan::Cursor;
use seq_turns::{Proper, Rest};
use seq_values::{Builtin, Term, Value};
use seq_vector::PVec;
use xf_stages::Stages;

/// A term of a pull, and how many outputs end it.
#[derive(Drop)]
pub(crate) struct Work {
    pub(crate) term: Term,
    pub(crate) enough: u32,
    ghost pulls: { term.op ≡ O.Pull },
    ghost well: { IsTrue (is_well_formed_term term) },
}

/// A call of a word that runs stages.
#[derive(Drop)]
pub(crate) struct Call {
    pub(crate) word: Builtin,
    pub(crate) args: PVec<Value>,
    ghost stages: { IsTrue (is_stage_word word) },
    ghost well: { IsTrue (are_well_formed args) },
}

/// A term that is well formed.
#[derive(Drop)]
pub(crate) struct ProperTerm {
    pub(crate) term: Term,
    ghost well: { IsTrue (is_well_formed_term term) },
}

/// What a pull pulls through, and how many outputs end it.
#[derive(Drop)]
pub(crate) struct Pull {
    pub(crate) transducer: Proper,
    pub(crate) enough: u32,
}

/// A pull between two elements: its stages, and the outputs so far.
#[derive(Drop)]
pub(crate) struct Pulling {
    pub(crate) pull: Pull,
    pub(crate) stages: Stages,
    pub(crate) outputs: Outputs,
    ghost through: { IsThrough (plain pull.transducer.value) (stages_in stages) },
}

/// A pull in the midst of an element, and what comes after the element.
#[derive(Drop)]
pub(crate) struct Midway {
    pub(crate) gathering: Gathering,
    pub(crate) pull: Pull,
    pub(crate) rest: Rest,
    ghost through: { IsThrough (plain pull.transducer.value) (waiting_stages gathering.waiting) },
}

/// A rule that hasn't begun.
#[derive(Drop)]
pub(crate) enum AtBegin {
    Work(Work),
    Call(Call),
}

/// A rule that waits for a sequence.
#[derive(Drop)]
pub(crate) enum AtSeq {
    /// Of the collection, or of what is left of it.
    Pull(Pulling),
}

/// A rule that waits for its own step.
#[derive(Drop)]
pub(crate) enum AtStep {
    /// For the first element of a node.
    Pull { pulling: Pulling, place: Cursor },
}

/// A rule that waits for the answer of a call.
#[derive(Drop)]
pub(crate) enum AtValue {
    /// The first answer of a reduction of this collection.
    First {
        stages: Stages,
        function: Proper,
        source: Proper,
    },
    /// The answer is the rule's own.
    Answer,
}

/// A rule that waits for what its stages wait for, or for the answer of the function behind them.
#[derive(Drop)]
pub(crate) enum AtStages {
    /// The elements of a collection are reduced, and then the stages completed.
    Transduce(Reduction),
    /// The completion is reduced, and then the function called with the answer.
    Complete(Reduction),
    /// An element is pulled, and then those that come after it.
    Pull(Midway),
    /// The completion is gathered, and then the outputs given.
    PullEnd(Gathering),
}

/// A rule that waits for its part.
#[derive(Drop)]
pub(crate) enum AtPart {
    /// The part itself is given.
    Cell,
    /// The outputs before the part.
    Pulled(Outputs),
}

/// Where a rule stands, by what it waits for.
#[derive(Drop)]
pub(crate) enum State {
    Begin(AtBegin),
    Seq(AtSeq),
    Step(AtStep),
    Value(AtValue),
    Stages(AtStages),
    Part(AtPart),
    Over,
}

/// A rule that runs by turns.
#[derive(Drop)]
pub struct RuleState {
    pub(crate) state: State,
}
