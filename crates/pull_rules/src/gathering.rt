//! Stages run into a list.
ghost use Rattle.std.specs.Prelude.{◌≡◌, ◌++◌, ◌∷◌, ℕ, [], List, true, false, IfOk};
ghost use Rattle.pull_rules.specs.Reducing.{Flows, Gathers, left_gathering, waiting_for, waiting_stages};
ghost use Rattle.seq_plan.specs.Stages.{gathers, enter, complete};
ghost use Rattle.seq_plan.specs.Turns.{told};
ghost use Rattle.seq_turns.specs.Turning.{Fits};
ghost use Rattle.seq_values.specs.Model as M;
ghost use Rattle.seq_values.specs.Plain.{plain, plains};
ghost use Rattle.xf_stages.specs.Left.{Course, stages_in, states_in, at_rest, left_out};

use crate::flow::{Flowed, FlowedSoFar, Gathering, GatheringTurn, Outputs, Waiting};
use crate::waiting::{flowed, output_passed};
use seq_base::Thrown;
use seq_turns::{Next, Proper};
use seq_values::Answer;
use seq_vector::NoMemory;
use std::alloc::Global;
use xf_stages::{AtOut, Stages};

impl Gathering {
    /// An input enters the stages.
    pub(crate) fn of_input(
        alloc: Global,
        stages: Stages,
        outputs: Outputs,
        item: Proper,
    ) -> Result<GatheringTurn, NoMemory>
        ensures { IfOk result (Gathers (stages_in stages) (λ k. enter (stages_in stages) (states_in stages) (gathers (plains outputs.items.items)) (plain item.value) k)) }
    {
        let turn = stages.enter(alloc, item)?;
        let next = gathered(alloc, flowed(turn), outputs)?;
        Ok(next)
    }

    /// The completion of the stages. Once it is through no stage is left, and all is done.
    pub(crate) fn completion(
        alloc: Global,
        stages: Stages,
        outputs: Outputs,
    ) -> Result<GatheringTurn, NoMemory>
        ensures { IfOk result (Gathers [] (λ k. complete (stages_in stages) (states_in stages) (gathers (plains outputs.items.items)) (λ after. k [] after true))) }
    {
        let turn = stages.complete(alloc)?;
        let next = gathered(alloc, flowed(turn), outputs)?;
        Ok(next)
    }

    /// The next turn. The answer has to fit the last one.
    pub(crate) fn turn(self, alloc: Global, answer: Answer) -> Result<GatheringTurn, NoMemory>
        requires { Fits (waiting_for self.waiting) answer }
        ensures { IfOk result (Gathers (waiting_stages self.waiting) (left_gathering self (told answer))) }
    {
        let Gathering { waiting, outputs } = self;
        let flow = waiting.resumed(alloc, answer)?;
        let next = gathered(alloc, flow, outputs)?;
        Ok(next)
    }
}

/// What the stages came to, with the outputs behind them. An output needs no turn: it is gathered, and the stages go on.
fn gathered(alloc: Global, flow: Flowed, outputs: Outputs) -> Result<GatheringTurn, NoMemory>
    ensures { IfOk result (λ r. (stages : List (M.Value ℕ)) (course : Course) → Flows stages course flow → Gathers stages (λ k. course (gathers (plains outputs.items.items)) k) r) }
{
    let mut here = FlowedSoFar { flow, outputs };
    loop {
        let FlowedSoFar { flow, outputs } = here;
        here = match flow {
            Flowed::Asks(next) => return Ok(asks(next, outputs)),
            Flowed::Out { waiting, item } => gathers_one(alloc, waiting, item, outputs)?,
            Flowed::Throw(why) => return Ok(stopped(why, outputs)),
            Flowed::Rest(stages) => return Ok(rests(stages, outputs)),
        };
    }
}

/// An output is gathered, and the stages go on.
fn gathers_one(
    alloc: Global,
    waiting: AtOut,
    item: Proper,
    outputs: Outputs,
) -> Result<FlowedSoFar, NoMemory>
    ensures flow { IfOk result (λ r. Flows (at_rest waiting.flow) (left_out waiting false) r.flow) }
    ensures outputs { IfOk result (λ r. plains r.outputs.items.items ≡ plains outputs.items.items ++ plain item.value ∷ []) }
{
    let outputs = outputs.and(item)?;
    let flow = output_passed(alloc, waiting)?;
    Ok(FlowedSoFar { flow, outputs })
}

/// The stages wait.
fn asks(next: Next<Waiting>, outputs: Outputs) -> GatheringTurn
    ensures { result ≡ GatheringTurn.Asks (record { state = record { waiting = next.state; outputs = outputs }; turn = next.turn }) }
{
    let Next {
        state: waiting,
        turn,
    } = next;
    GatheringTurn::Asks(Next {
        state: Gathering { waiting, outputs },
        turn,
    })
}

/// A stage threw.
fn stopped(why: Thrown, outputs: Outputs) -> GatheringTurn
    ensures { result ≡ GatheringTurn.Throw why }
{
    GatheringTurn::Throw(why)
}

/// The input or the completion is through.
fn rests(stages: Stages, outputs: Outputs) -> GatheringTurn
    ensures { result ≡ GatheringTurn.Rest stages outputs }
{
    GatheringTurn::Rest { stages, outputs }
}
