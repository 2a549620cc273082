//! The calls: an input, a collection or the completion, and what goes on after each turn.
ghost use Rattle.std.specs.Prelude.{◌≡◌, ℕ, List, [], true, IfOk};
ghost use Rattle.seq_plan.specs.Stages.{enter, enter_each, complete};
ghost use Rattle.seq_turns.specs.Seen.{seen};
ghost use Rattle.seq_values.specs.Model as M;
ghost use Rattle.seq_values.specs.Plain.{plain};
ghost use Rattle.xf_stages.specs.Flowing.{Leads, IsFlowOf};
ghost use Rattle.xf_stages.specs.Left.{Course, Goes, at_rest, left_call, left_seq, left_step, left_out, stages_in, states_in};

use crate::flowing::take_answer;
use crate::passing::{enters, goes_through, on_effect, step_on, walk_found, walk_on};
use crate::state::{
    AtCall, AtOut, AtSeq, AtStep, Effected, Flow, Passing, StageTurn, Stages, UnderWay,
};
use seq_turns::{Proper, Rest, Seen};
use seq_vector::NoMemory;
use std::alloc::Global;

/// An input goes on until a turn is due.
fn run(alloc: Global, passing: Passing) -> Result<StageTurn, NoMemory>
    ensures { (stages : List (M.Value ℕ)) (course : Course) → Leads stages course passing → IfOk result (Goes stages course) }
{
    let mut here = passing;
    loop {
        here = match here {
            Passing::Turned(turn) => return Ok(turn),
            Passing::Entering { flow, at, item } => enters(alloc, flow, at, item)?,
            Passing::Through { flow, done } => goes_through(alloc, flow, done),
        };
    }
}

/// The stages in the midst of an input, where nothing waits.
fn flow_of(alloc: Global, stages: Stages, under_way: UnderWay) -> Flow
    ensures { IsFlowOf stages under_way result }
{
    let Stages { stages, .. } = stages;
    Flow {
        stages,
        walks: Vec::new(alloc),
        under_way,
    }
}

impl Stages {
    /// Whether all is done: no further input changes anything.
    pub fn is_done(&self) -> bool
        ensures { result ≡ self.now.done }
    {
        self.done
    }

    /// An input enters the first stage.
    pub fn enter(self, alloc: Global, item: Proper) -> Result<StageTurn, NoMemory>
        ensures { IfOk result (Goes (stages_in self) (λ sink k. enter (stages_in self) (states_in self) sink (plain item.value) k)) }
    {
        let flow = flow_of(alloc, self, UnderWay::Input { last: false });
        run(alloc, Passing::Entering { flow, at: 0, item })
    }

    /// Each element of a collection enters the first stage, until all is done.
    pub fn walk(self, alloc: Global, collection: Proper) -> Result<StageTurn, NoMemory>
        ensures { IfOk result (Goes (stages_in self) (λ sink k. enter_each (stages_in self) (states_in self) sink (plain collection.value) k)) }
    {
        let flow = flow_of(alloc, self, UnderWay::Input { last: false });
        run(alloc, walk_on(flow, 0, Rest::Beyond(collection)))
    }

    /// The completion: a `partition-all` whose group isn't empty passes it to the stages after it. At its end no stage is left, and all is done.
    pub fn complete(self, alloc: Global) -> Result<StageTurn, NoMemory>
        ensures { IfOk result (Goes [] (λ sink k. complete (stages_in self) (states_in self) sink (λ after. k [] after true))) }
    {
        let flow = flow_of(alloc, self, UnderWay::Completion { from: 0 });
        run(alloc, Passing::Through { flow, done: false })
    }
}

impl AtCall {
    /// The function of the stage has answered.
    pub fn answered(self, alloc: Global, answer: Proper) -> Result<StageTurn, NoMemory>
        ensures { IfOk result (Goes (at_rest self.flow) (left_call self (plain answer.value))) }
    {
        let at = self.at;
        let Effected { flow, effect } = take_answer(self, answer);
        run(alloc, on_effect(flow, at, effect))
    }
}

impl AtSeq {
    /// The seq of the collection is there.
    pub fn found(self, alloc: Global, what: Seen) -> Result<StageTurn, NoMemory>
        ensures { IfOk result (Goes (at_rest self.flow) (left_seq self (seen what))) }
    {
        let AtSeq { flow, at } = self;
        run(alloc, walk_found(flow, at, what))
    }
}

impl AtStep {
    /// The own step of the element was taken.
    pub fn visited(self, alloc: Global) -> Result<StageTurn, NoMemory>
        ensures { IfOk result (Goes (at_rest self.flow) (left_step self)) }
    {
        let passing = step_on(self)?;
        run(alloc, passing)
    }
}

impl AtOut {
    /// The output was reduced or gathered. `done` tells whether the answer was a reduced one, which makes all done.
    pub fn passed(self, alloc: Global, done: bool) -> Result<StageTurn, NoMemory>
        ensures { IfOk result (Goes (at_rest self.flow) (left_out self done)) }
    {
        let AtOut { flow } = self;
        run(alloc, Passing::Through { flow, done })
    }
}
