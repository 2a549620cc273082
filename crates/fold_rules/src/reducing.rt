//! Reductions of collections.
ghost use Rattle.std.specs.Prelude.{[], IfOk};
ghost use Rattle.fold_rows.specs.Table.{reduce_rule};
ghost use Rattle.fold_rules.specs.Left.{reduced_to, running};
ghost use Rattle.pull_rules.specs.Reducing.{IsReductionAsked, left_reduction, reduction_node, reduction_waits};
ghost use Rattle.pull_rules.specs.declared.flow.ReductionTurn.TheVariants as RT;
ghost use Rattle.seq_plan.specs.Plan.{call, throw};
ghost use Rattle.seq_plan.specs.Stages.{enter_each, reduces};
ghost use Rattle.seq_plan.specs.Turns.{told};
ghost use Rattle.seq_turns.specs.Turning.{Fits, Takes};
ghost use Rattle.seq_values.specs.Plain.{plain};
ghost use Rattle.xf_stages.specs.Left.{stages_in, states_in};

use crate::pending::answered;
use crate::state::{AtValue, Pending, State};
use pull_rules::{Reduction, ReductionTurn};
use seq_base::Thrown;
use seq_turns::{Next, Proper, ProperList, calls, throws};
use seq_values::Answer;
use seq_vector::NoMemory;
use std::alloc::Global;
use xf_stages::Stages;

/// The elements of a collection, or of a reducer value, are reduced from a first answer.
#[tactic(auto, using(crate::proofs::Reductions::rule_reduces))]
pub(crate) fn reduces_all(
    alloc: Global,
    function: Proper,
    answer: Proper,
    source: Proper,
) -> Result<Next<State>, NoMemory>
    ensures { IfOk result (λ r. Takes running (reduce_rule (plain function.value) (plain answer.value) (plain source.value)) r) }
{
    let found = Stages::of_reducer(alloc, source)?;
    let none = Pending::none(alloc);
    let next = reduces_through(alloc, found.0, function, answer, found.1, none)?;
    Ok(next)
}

/// The same, where a function is called for the first answer.
#[tactic(auto, using(crate::proofs::Reductions::rule_called))]
pub(crate) fn reduces_from(
    alloc: Global,
    first: Proper,
    function: Proper,
    source: Proper,
) -> Result<Next<State>, NoMemory>
    ensures { IfOk result (λ r. Takes running (call (plain first.value) [] (λ init. reduce_rule (plain function.value) init (plain source.value))) r) }
{
    let found = Stages::of_reducer(alloc, source)?;
    let pending = Pending::none(alloc);
    Ok(calls(
        State::Value(AtValue::First {
            stages: found.0,
            function,
            source: found.1,
            pending,
        }),
        first,
        ProperList::none(),
    ))
}

/// The elements of a collection are reduced through the stages, and the halves that wait go on with the answer.
#[tactic(auto, using(crate::proofs::Reductions::turn_goes))]
pub(crate) fn reduces_through(
    alloc: Global,
    stages: Stages,
    function: Proper,
    answer: Proper,
    source: Proper,
    pending: Pending,
) -> Result<Next<State>, NoMemory>
    ensures { IfOk result (λ r. Takes running (enter_each (stages_in stages) (states_in stages) (reduces (plain function.value) (plain answer.value)) (plain source.value) (reduced_to pending)) r) }
{
    let turn = Reduction::over(alloc, stages, function, answer, source)?;
    Ok(reduction_goes(turn, pending))
}

/// A reduction is told what it waits for.
#[tactic(auto, using(crate::proofs::Reductions::turn_goes))]
pub(crate) fn reduction_told(
    alloc: Global,
    reduction: Reduction,
    pending: Pending,
    answer: Answer,
) -> Result<Next<State>, NoMemory>
    requires { Fits (reduction_waits reduction) answer }
    ensures { IfOk result (λ r. Takes running (left_reduction reduction (told answer) (reduced_to pending)) r) }
{
    let turn = reduction.turn(alloc, answer)?;
    Ok(reduction_goes(turn, pending))
}

/// A reduction goes on, or is through.
fn reduction_goes(turn: ReductionTurn, pending: Pending) -> Next<State>
    requires { IsReductionAsked turn }
    ensures { Takes running (reduction_node turn (reduced_to pending)) result }
{
    match turn {
        ReductionTurn::Asks(next) => asks(next, pending),
        ReductionTurn::Throw(why) => stops(why, pending),
        ReductionTurn::Rest {
            stages,
            function,
            answer,
        } => is_through(stages, function, answer, pending),
    }
}

/// A reduction waits.
#[tactic(auto, using(crate::proofs::Reductions::reduction_asks))]
fn asks(next: Next<Reduction>, pending: Pending) -> Next<State>
    requires { IsReductionAsked (RT.Asks next) }
    ensures { Takes running (reduction_node (RT.Asks next) (reduced_to pending)) result }
{
    let Next {
        state: reduction,
        turn,
    } = next;
    Next {
        state: State::Reduction { reduction, pending },
        turn,
    }
}

/// A stage threw.
fn stops(why: Thrown, pending: Pending) -> Next<State>
    ensures { Takes running (throw why) result }
{
    throws(State::Over, why)
}

/// A reduction is through.
fn is_through(stages: Stages, function: Proper, answer: Proper, pending: Pending) -> Next<State>
    ensures { Takes running (reduction_node (RT.Rest stages function answer) (reduced_to pending)) result }
{
    answered(answer, pending)
}
