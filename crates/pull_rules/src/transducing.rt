//! `transduce`, and `into` with a transducer.
ghost use Rattle.std.specs.Prelude.{◌≡◌, [], ◌∷◌, true, IfOk};
ghost use Rattle.pull_rules.specs.Left.{left_value, completed, transduced, Takes};
ghost use Rattle.pull_rules.specs.Reducing.{reduction_node, turn_stages, turn_function, IsReductionAsked, IsAsked, reduction_waits};
ghost use Rattle.pull_rules.specs.declared.state.AtValue.TheVariants as V;
ghost use Rattle.pull_rules.specs.declared.flow.ReductionTurn.TheVariants as RT;
ghost use Rattle.seq_plan.specs.Plan.{call, give, throw};
ghost use Rattle.seq_plan.specs.Stages.{reduces, with_stages, enter_each, complete};
ghost use Rattle.seq_values.specs.Plain.{plain};
ghost use Rattle.stage_rows.specs.Table.{transduce_rule};
ghost use Rattle.xf_stages.specs.Left.{stages_in, states_in};
ghost use Rattle.xf_stages.specs.Opening.{Opens, IfStages, AreFresh};

use crate::flow::{Reduction, ReductionTurn};
use crate::state::{AtStages, AtValue, State};
use crate::ways::{calls, let_go, throws};
use seq_base::Thrown;
use seq_turns::{Next, Proper, ProperList};
use seq_vector::NoMemory;
use std::alloc::Global;
use xf_stages::{Opened, Stages};

/// The stages of a transducer, which isn't kept.
fn opened(alloc: Global, transducer: Proper) -> Result<Opened, NoMemory>
    ensures opens { IfOk result (λ o. Opens (with_stages (plain transducer.value)) o) }
    ensures fresh { IfOk result (λ o. IfStages o AreFresh) }
{
    let what = Stages::of(alloc, &transducer)?;
    Ok(what)
}

/// There are no stages.
fn not_two(why: Thrown, first: Proper, second: Proper) -> Next<State>
    ensures { Takes (throw why) result }
{
    throws(why)
}

/// There are no stages.
fn not_three(why: Thrown, first: Proper, second: Proper, third: Proper) -> Next<State>
    ensures { Takes (throw why) result }
{
    throws(why)
}

/// `transduce` without a first answer, for which the function is called without arguments.
#[tactic(auto, using(crate::proofs::TransduceTurns::thrown, crate::proofs::TransduceTurns::first_goes))]
pub(crate) fn first_called(
    alloc: Global,
    transducer: Proper,
    function: Proper,
    source: Proper,
) -> Result<Next<State>, NoMemory>
    ensures { IfOk result (λ r. Takes (with_stages (plain transducer.value) (λ stages. call (plain function.value) [] (λ init. transduce_rule stages (plain function.value) init (plain source.value)))) r) }
{
    let what = opened(alloc, transducer)?;
    match what {
        Opened::Thrown(why) => Ok(not_two(why, function, source)),
        Opened::Stages(stages) => {
            let next = calls_first(stages, function, source)?;
            Ok(next)
        }
    }
}

/// The function is called for the first answer.
#[tactic(auto, using(crate::proofs::TransduceTurns::first_asked))]
fn calls_first(stages: Stages, function: Proper, source: Proper) -> Result<Next<State>, NoMemory>
    ensures { IfOk result (λ r. Takes (call (plain function.value) [] (λ y. left_value (V.First stages function source) y)) r) }
{
    let called = function.share()?;
    Ok(calls(
        AtValue::First {
            stages,
            function,
            source,
        },
        called,
        ProperList::none(),
    ))
}

/// `transduce` with a first answer.
#[tactic(auto, using(crate::proofs::TransduceTurns::thrown, crate::proofs::TransduceTurns::transduce_goes))]
pub(crate) fn transduce(
    alloc: Global,
    transducer: Proper,
    function: Proper,
    answer: Proper,
    source: Proper,
) -> Result<Next<State>, NoMemory>
    ensures { IfOk result (λ r. Takes (with_stages (plain transducer.value) (λ stages. transduce_rule stages (plain function.value) (plain answer.value) (plain source.value))) r) }
{
    let what = opened(alloc, transducer)?;
    match what {
        Opened::Thrown(why) => Ok(not_three(why, function, answer, source)),
        Opened::Stages(stages) => {
            let next = transduce_over(alloc, stages, function, answer, source)?;
            Ok(next)
        }
    }
}

/// The elements of the collection are reduced through the stages.
pub(crate) fn transduce_over(
    alloc: Global,
    stages: Stages,
    function: Proper,
    answer: Proper,
    source: Proper,
) -> Result<Next<State>, NoMemory>
    ensures { IfOk result (λ r. Takes (enter_each (stages_in stages) (states_in stages) (reduces (plain function.value) (plain answer.value)) (plain source.value) (transduced (stages_in stages) (plain function.value))) r) }
{
    let turn = Reduction::over(alloc, stages, function, answer, source)?;
    let next = transduce_goes(alloc, turn)?;
    Ok(next)
}

/// The reduction of the collection goes on, or is through.
pub(crate) fn transduce_goes(alloc: Global, turn: ReductionTurn) -> Result<Next<State>, NoMemory>
    requires { IsReductionAsked turn }
    ensures { IfOk result (λ r. Takes (reduction_node turn (transduced (turn_stages turn) (turn_function turn))) r) }
{
    match turn {
        ReductionTurn::Asks(next) => Ok(asks_over(next)),
        ReductionTurn::Throw(why) => Ok(throws(why)),
        ReductionTurn::Rest {
            stages,
            function,
            answer,
        } => completes(alloc, stages, function, answer),
    }
}

/// The reduction of the collection waits.
#[tactic(auto, using(crate::proofs::TransduceTurns::over_waits))]
fn asks_over(next: Next<Reduction>) -> Next<State>
    requires { IsAsked (reduction_waits next.state) next.turn }
    ensures { Takes (reduction_node (RT.Asks next) (transduced (turn_stages (RT.Asks next)) (turn_function (RT.Asks next)))) result }
{
    let Next { state, turn } = next;
    Next {
        state: State::Stages(AtStages::Transduce(state)),
        turn,
    }
}

/// The stages are completed.
fn completes(
    alloc: Global,
    stages: Stages,
    function: Proper,
    answer: Proper,
) -> Result<Next<State>, NoMemory>
    ensures { IfOk result (λ r. Takes (complete (stages_in stages) (states_in stages) (reduces (plain function.value) (plain answer.value)) (λ after. completed (plain function.value) [] after true)) r) }
{
    let turn = Reduction::completion(alloc, stages, function, answer)?;
    let next = complete_goes(alloc, turn)?;
    Ok(next)
}

/// The completion goes on, or is through.
pub(crate) fn complete_goes(alloc: Global, turn: ReductionTurn) -> Result<Next<State>, NoMemory>
    requires { IsReductionAsked turn }
    ensures { IfOk result (λ r. Takes (reduction_node turn (completed (turn_function turn))) r) }
{
    match turn {
        ReductionTurn::Asks(next) => Ok(asks_completed(next)),
        ReductionTurn::Throw(why) => Ok(throws(why)),
        ReductionTurn::Rest {
            stages,
            function,
            answer,
        } => calls_last(alloc, stages, function, answer),
    }
}

/// The completion waits.
#[tactic(auto, using(crate::proofs::TransduceTurns::completion_waits))]
fn asks_completed(next: Next<Reduction>) -> Next<State>
    requires { IsAsked (reduction_waits next.state) next.turn }
    ensures { Takes (reduction_node (RT.Asks next) (completed (turn_function (RT.Asks next)))) result }
{
    let Next { state, turn } = next;
    Next {
        state: State::Stages(AtStages::Complete(state)),
        turn,
    }
}

/// The function is called with the answer alone.
#[tactic(auto, using(crate::proofs::TransduceTurns::last_called))]
fn calls_last(
    alloc: Global,
    stages: Stages,
    function: Proper,
    answer: Proper,
) -> Result<Next<State>, NoMemory>
    ensures { IfOk result (λ r. Takes (call (plain function.value) (plain answer.value ∷ []) give) r) }
{
    let_go(stages);
    let args = ProperList::one(alloc, answer)?;
    Ok(calls(AtValue::Answer, function, args))
}
