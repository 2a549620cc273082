//! Reductions: stages run into a function.
ghost use Rattle.std.specs.Prelude.{◌≡◌, ℕ, [], List, true, IfOk};
ghost use Rattle.pull_rules.specs.Reducing.{Flows, Runs, left_reduction, reduction_waits, reduction_stages, reduction_function};
ghost use Rattle.pull_rules.specs.declared.flow.Flowed.TheVariants as F;
ghost use Rattle.pull_rules.specs.declared.flow.Reduction.TheVariants as R;
ghost use Rattle.seq_plan.specs.Stages.{reduces, enter, enter_each, complete, is_reduced, unwrapped};
ghost use Rattle.seq_plan.specs.Turns.{told};
ghost use Rattle.seq_turns.specs.Turning.{Fits, a_value};
ghost use Rattle.seq_values.specs.Model as M;
ghost use Rattle.seq_values.specs.Plain.{plain};
ghost use Rattle.seq_values.specs.declared.term.Turn.TheVariants as T;
ghost use Rattle.xf_stages.specs.Left.{Course, stages_in, states_in, at_rest, left_out};

use crate::flow::{Answering, Flowed, Reducing, Reduction, ReductionTurn, Waiting};
use crate::unwrapping::{Unwrapped, unwrap_answer};
use crate::waiting::flowed;
use seq_base::Thrown;
use seq_turns::{Next, Proper, ProperList};
use seq_values::{Answer, Turn, Value};
use seq_vector::NoMemory;
use std::alloc::Global;
use xf_stages::{AtOut, Stages};

impl Reduction {
    /// Each element of a collection enters the stages, until all is done.
    pub fn over(
        alloc: Global,
        stages: Stages,
        function: Proper,
        answer: Proper,
        collection: Proper,
    ) -> Result<ReductionTurn, NoMemory>
        ensures { IfOk result (Runs (stages_in stages) (plain function.value) (λ k. enter_each (stages_in stages) (states_in stages) (reduces (plain function.value) (plain answer.value)) (plain collection.value) k)) }
    {
        let turn = stages.walk(alloc, collection)?;
        let next = settled(alloc, flowed(turn), function, answer)?;
        Ok(next)
    }

    /// An input enters the stages.
    pub fn of_input(
        alloc: Global,
        stages: Stages,
        function: Proper,
        answer: Proper,
        item: Proper,
    ) -> Result<ReductionTurn, NoMemory>
        ensures { IfOk result (Runs (stages_in stages) (plain function.value) (λ k. enter (stages_in stages) (states_in stages) (reduces (plain function.value) (plain answer.value)) (plain item.value) k)) }
    {
        let turn = stages.enter(alloc, item)?;
        let next = settled(alloc, flowed(turn), function, answer)?;
        Ok(next)
    }

    /// The completion of the stages. Once it is through no stage is left, and all is done.
    pub fn completion(
        alloc: Global,
        stages: Stages,
        function: Proper,
        answer: Proper,
    ) -> Result<ReductionTurn, NoMemory>
        ensures { IfOk result (Runs [] (plain function.value) (λ k. complete (stages_in stages) (states_in stages) (reduces (plain function.value) (plain answer.value)) (λ after. k [] after true))) }
    {
        let turn = stages.complete(alloc)?;
        let next = settled(alloc, flowed(turn), function, answer)?;
        Ok(next)
    }

    /// The next turn. The answer has to fit the last one.
    pub fn turn(self, alloc: Global, answer: Answer) -> Result<ReductionTurn, NoMemory>
        requires { Fits (reduction_waits self) answer }
        ensures { IfOk result (Runs (reduction_stages self) (reduction_function self) (left_reduction self (told answer))) }
    {
        match self {
            Reduction::Within(reducing) => within_told(alloc, reducing, answer),
            Reduction::Output(answering) => match answer {
                Answer::Begin => unreachable!(),
                Answer::Done => unreachable!(),
                Answer::Got(value) => output_told(alloc, answering, value),
                Answer::Made(_) => unreachable!(),
            },
        }
    }
}

/// The stages are told what they wait for.
fn within_told(alloc: Global, reducing: Reducing, answer: Answer) -> Result<ReductionTurn, NoMemory>
    requires { Fits (reduction_waits (R.Within reducing)) answer }
    ensures { IfOk result (Runs (reduction_stages (R.Within reducing)) (reduction_function (R.Within reducing)) (left_reduction (R.Within reducing) (told answer))) }
{
    let Reducing {
        waiting,
        function,
        answer: so_far,
    } = reducing;
    let flow = waiting.resumed(alloc, answer)?;
    let next = settled(alloc, flow, function, so_far)?;
    Ok(next)
}

/// The function answered an output.
#[tactic(auto, using(crate::proofs::Reductions::told_output))]
fn output_told(alloc: Global, answering: Answering, value: Value) -> Result<ReductionTurn, NoMemory>
    requires { Fits a_value (Answer.Got value) }
    ensures { IfOk result (Runs (at_rest answering.waiting.flow) (plain answering.function.value) (λ k. left_out answering.waiting (is_reduced (plain value)) (reduces (plain answering.function.value) (unwrapped (plain value))) k)) }
{
    let Answering { waiting, function } = answering;
    let answer = unwrap_answer(value)?;
    let Unwrapped { value, ended } = answer;
    let turn = waiting.passed(alloc, ended)?;
    let next = settled(alloc, flowed(turn), function, value)?;
    Ok(next)
}

/// What the stages came to, with the function behind them.
#[tactic(auto, using(crate::proofs::Reductions::runs_asks, crate::proofs::Reductions::runs_throw, crate::proofs::Reductions::runs_rest))]
fn settled(
    alloc: Global,
    flow: Flowed,
    function: Proper,
    answer: Proper,
) -> Result<ReductionTurn, NoMemory>
    ensures { IfOk result (λ r. (stages : List (M.Value ℕ)) (course : Course) → Flows stages course flow → Runs stages (plain function.value) (λ k. course (reduces (plain function.value) (plain answer.value)) k) r) }
{
    match flow {
        Flowed::Asks(next) => Ok(asks(next, function, answer)),
        Flowed::Out { waiting, item } => output(alloc, waiting, item, function, answer),
        Flowed::Throw(why) => Ok(stopped(why, function, answer)),
        Flowed::Rest(stages) => Ok(ReductionTurn::Rest {
            stages,
            function,
            answer,
        }),
    }
}

/// The stages wait.
fn asks(next: Next<Waiting>, function: Proper, answer: Proper) -> ReductionTurn
    ensures { (stages : List (M.Value ℕ)) (course : Course) → Flows stages course (F.Asks next) → Runs stages (plain function.value) (λ k. course (reduces (plain function.value) (plain answer.value)) k) result }
{
    let Next {
        state: waiting,
        turn,
    } = next;
    ReductionTurn::Asks(Next {
        state: Reduction::Within(Reducing {
            waiting,
            function,
            answer,
        }),
        turn,
    })
}

/// A stage threw.
fn stopped(why: Thrown, function: Proper, answer: Proper) -> ReductionTurn
    ensures { result ≡ ReductionTurn.Throw why }
{
    ReductionTurn::Throw(why)
}

/// The function is called with the answer so far and an output.
#[tactic(auto, using(crate::proofs::Reductions::runs_output))]
fn output(
    alloc: Global,
    waiting: AtOut,
    item: Proper,
    function: Proper,
    answer: Proper,
) -> Result<ReductionTurn, NoMemory>
    ensures { IfOk result (λ r. (stages : List (M.Value ℕ)) (course : Course) → Flows stages course (F.Out waiting item) → Runs stages (plain function.value) (λ k. course (reduces (plain function.value) (plain answer.value)) k) r) }
{
    let args = ProperList::two(alloc, answer, item)?;
    let called = function.share()?;
    Ok(output_call(waiting, function, called, args))
}

fn output_call(waiting: AtOut, function: Proper, called: Proper, args: ProperList) -> ReductionTurn
    ensures { result ≡ ReductionTurn.Asks (record { state = R.Output (record { waiting = waiting; function = function }); turn = T.Apply called.value args.items }) }
{
    ReductionTurn::Asks(Next {
        state: Reduction::Output(Answering { waiting, function }),
        turn: Turn::Apply {
            function: called.value,
            args: args.items,
        },
    })
}
