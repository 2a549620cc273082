//! Nothing waits any more: an input is at its end, or the completion goes on.
ghost use Rattle.std.specs.Prelude.{◌≡◌, ◌<◌, ◌≤◌, ◌+◌, ◌-◌, ◌*◌, ◌||◌, Bool, [], length, drop, true, MatchOption};
ghost use Rattle.seq_values.specs.Plain.{plain};
ghost use Rattle.xf_stages.specs.Flowing.{Leads, weight, flow_weight, completing, first_has_group, CompletesAll, GroupAt, has_group};
ghost use Rattle.xf_stages.specs.Left.{at_rest, stage_value, state_value, through};

use crate::flowing::{put_stage, take_stage};
use crate::reacting::no_group;
use crate::state::{Emptied, Flow, Group, Hole, Passing, Stage, StageTurn, Stages, UnderWay};
use crate::ways::let_go;
use seq_turns::Proper;
use seq_values::Value;
use std::alloc::Global;

/// Nothing waits any more.
pub(crate) fn finish(alloc: Global, flow: Flow, done: bool) -> Passing
    requires { flow.walks.items ≡ [] }
    ensures leads { Leads (at_rest flow) (through flow done) result }
    ensures lighter { weight result < flow_weight flow + 1 }
{
    match flow.under_way {
        UnderWay::Input { last } => Passing::Turned(StageTurn::Rest(rests(flow, last, done))),
        UnderWay::Completion { from } => completes(alloc, flow, from),
    }
}

/// The stages between two inputs.
fn rests(flow: Flow, last: bool, done: bool) -> Stages
    ensures stages { result.stages.items ≡ flow.stages.items }
    ensures done { result.done ≡ (last || done) }
{
    let Flow { stages, walks, .. } = flow;
    let_go(walks);
    let done = last || done;
    Stages { stages, done }
}

/// The completion is through. No stage is left, and all is done.
fn completed(alloc: Global, flow: Flow) -> Stages
    ensures stages { result.stages.items ≡ [] }
    ensures done { result.done ≡ true }
{
    let_go(flow);
    Stages {
        stages: Vec::new(alloc),
        done: true,
    }
}

#[tactic(auto, using(crate::proofs::CompleteTurns::some_items))]
/// Whether the completion of a stage passes on a group.
fn holds_group(stage: &Stage) -> bool
    ensures { result ≡ has_group stage.now }
{
    match stage {
        Stage::Applies { .. } => false,
        Stage::Take { .. } => false,
        Stage::Drop { .. } => false,
        Stage::DropWhile { .. } => false,
        Stage::Cat => false,
        Stage::PartitionAll(group) => group.items.len() > 0,
        Stage::ReducerTake { .. } => false,
    }
}

/// Whether the completion of the stage at a place passes on a group.
#[tactic(auto, using(crate::proofs::CompleteTurns::group_there))]
fn group_at(stages: &[Stage], at: usize) -> bool
    requires { at < length stages.now }
    ensures { result ≡ first_has_group (drop at stages.now) }
{
    holds_group(&stages[at])
}

/// The first stage from a place on whose completion passes on a group.
fn find_group(flow: &Flow, from: usize) -> Option<usize>
    ensures { MatchOption result (CompletesAll flow.now from) (GroupAt flow.now from) }
{
    let mut here = from;
    while here < flow.stages.len() {
        if group_at(&flow.stages, here) {
            return Some(here);
        }
        here += 1;
    }
    None
}

/// The stages from a place on are completed.
fn completes(alloc: Global, flow: Flow, from: usize) -> Passing
    requires walks { flow.walks.items ≡ [] }
    requires under_way { flow.under_way ≡ UnderWay.Completion from }
    ensures leads { (done : Bool) → Leads (at_rest flow) (through flow done) result }
    ensures lighter { weight result < flow_weight flow + 1 }
{
    match find_group(&flow, from) {
        None => Passing::Turned(StageTurn::Rest(completed(alloc, flow))),
        Some(at) => passes_group(flow, at),
    }
}

/// A stage that holds a group has begun the next one. Its group comes with it.
fn emptied(stage: Stage) -> Emptied
    requires { has_group stage ≡ true }
    ensures same { stage_value result.stage ≡ stage_value stage }
    ensures group { plain result.group.value ≡ state_value stage }
{
    match stage {
        Stage::PartitionAll(group) => {
            let Group { size, depth, items } = group;
            Emptied {
                stage: Stage::PartitionAll(no_group(size)),
                group: Proper {
                    value: Value::Vector { depth, items },
                },
            }
        }
        Stage::Applies { .. } => unreachable!(),
        Stage::Take { .. } => unreachable!(),
        Stage::Drop { .. } => unreachable!(),
        Stage::DropWhile { .. } => unreachable!(),
        Stage::Cat => unreachable!(),
        Stage::ReducerTake { .. } => unreachable!(),
    }
}

/// The stages from a place on are still to be completed.
fn completing_from(flow: Flow, from: usize) -> Flow
    ensures stages { result.stages.items ≡ flow.stages.items }
    ensures walks { result.walks.items ≡ flow.walks.items }
    ensures under_way { result.under_way ≡ UnderWay.Completion from }
{
    let Flow { stages, walks, .. } = flow;
    Flow {
        stages,
        walks,
        under_way: UnderWay::Completion { from },
    }
}

/// The group of the stage at a place enters the stages after it.
fn passes_group(flow: Flow, at: usize) -> Passing
    requires walks { flow.walks.items ≡ [] }
    requires group { first_has_group (drop at flow.stages.items) ≡ true }
    requires within { at < length flow.stages.items }
    ensures leads { Leads [] (completing flow at) result }
    ensures lighter { weight result ≤ (length flow.stages.items - (at + 1)) * (length flow.stages.items + 3) + length flow.stages.items + 1 }
{
    let Hole { flow, stage } = take_stage(flow, at);
    let Emptied { stage, group } = emptied(stage);
    let flow = put_stage(flow, at, stage);
    Passing::Entering {
        flow: completing_from(flow, at + 1),
        at: at + 1,
        item: group,
    }
}
