//! Where stages stand that run into a function or into a list.
ghost use Rattle.std.specs.Prelude.{IsTrue};
ghost use Rattle.seq_values.specs.WellFormed.{are_well_formed};

use seq_base::Thrown;
use seq_turns::{Next, Proper};
use seq_values::Value;
use xf_stages::{AtCall, AtOut, AtSeq, AtStep, Stages};

/// The outputs of a pull so far. They may be more than a list may have, which is looked at once all are there.
#[derive(Drop)]
pub struct Outputs {
    pub(crate) items: Vec<Value>,
    ghost well: { IsTrue (are_well_formed items.items) },
}

/// Stages in the midst of an input, by what they wait for.
#[derive(Drop)]
pub(crate) enum Waiting {
    Call(AtCall),
    Seq(AtSeq),
    Step(AtStep),
}

/// What stages came to: what they ask for and where they stand then, an output, an error, or their end.
#[derive(Drop)]
pub(crate) enum Flowed {
    Asks(Next<Waiting>),
    Out { waiting: AtOut, item: Proper },
    Throw(Thrown),
    Rest(Stages),
}

/// Stages whose outputs a function is called with, and the answer so far.
#[derive(Drop)]
pub struct Reducing {
    pub(crate) waiting: Waiting,
    pub(crate) function: Proper,
    pub(crate) answer: Proper,
}

/// Stages that wait for the function's answer to an output.
#[derive(Drop)]
pub struct Answering {
    pub(crate) waiting: AtOut,
    pub(crate) function: Proper,
}

/// A reduction: inputs run through stages into a function, with the answer so far.
#[derive(Drop)]
pub enum Reduction {
    /// The stages wait.
    Within(Reducing),
    /// The function's answer is waited for.
    Output(Answering),
}

/// A turn of a reduction.
#[derive(Drop)]
pub enum ReductionTurn {
    /// What it asks for, and where it stands then. `Reduction::turn` goes on.
    Asks(Next<Reduction>),
    /// A stage throws this error.
    Throw(Thrown),
    /// The input, the collection or the completion is through.
    Rest {
        stages: Stages,
        function: Proper,
        answer: Proper,
    },
}

/// Inputs run through stages into a list.
#[derive(Drop)]
pub(crate) struct Gathering {
    pub(crate) waiting: Waiting,
    pub(crate) outputs: Outputs,
}

/// What stages came to, and the outputs before it.
#[derive(Drop)]
pub(crate) struct FlowedSoFar {
    pub(crate) flow: Flowed,
    pub(crate) outputs: Outputs,
}

/// A turn of stages whose outputs are gathered.
#[derive(Drop)]
pub(crate) enum GatheringTurn {
    /// What it asks for, and where it stands then.
    Asks(Next<Gathering>),
    /// A stage throws this error.
    Throw(Thrown),
    /// The input or the completion is through.
    Rest { stages: Stages, outputs: Outputs },
}
