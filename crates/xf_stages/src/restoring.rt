//! Stages with states that were kept.
ghost use Rattle.std.specs.Prelude.{◌≡◌, [], ◌∷◌, ◌++◌, true, pos, int_lt, length, drop, reverse, option_to_list, IfOk, MatchOption};
ghost use Rattle.seq_plan.specs.WellFormed.{sights};
ghost use Rattle.seq_values.specs.Model as M;
ghost use Rattle.seq_values.specs.Plain.{plain, plains};
ghost use Rattle.seq_values.specs.WellFormedTerms.{are_states};
ghost use Rattle.stage_rows.specs.Table.{replaced};
ghost use Rattle.seq_values.specs.declared.value.Value.TheVariants as V;
ghost use Rattle.seq_values.specs.declared.words.Target.TheVariants as T;
ghost use Rattle.seq_values.specs.declared.words.XfKind.TheVariants as X;
ghost use Rattle.xf_stages.specs.Left.{stage_value, stages_in, stages_stand, state_value, states_in};
ghost use Rattle.xf_stages.specs.Opening.{all_kept, kept_in};
ghost use Rattle.xf_stages.specs.Reacting.{is_vector, members};
ghost use Rattle.xf_stages.specs.Restoring.{FitsNext, FitsState, HasState, Restores, RestoresAll, is_truth, keeps_some};
ghost use Rattle.xf_stages.specs.declared.state.Stage.TheVariants as S;

use crate::opening::integer_in;
use crate::reacting::items_of;
use crate::reducing::{and_stage, no_stages, turned};
use crate::state::{Group, Items, Restored, Stage, Stages, Taken};
use crate::ways::let_go;
use seq_turns::{Proper, ProperList};
use seq_values::{Node, Value};
use seq_vector::NoMemory;
use std::alloc::Global;

/// The truth value that a value is.
fn truth_in(value: Value) -> bool
    requires { is_truth (plain value) ≡ true }
    ensures { plain value ≡ M.bool result }
{
    match value {
        Value::Bool(truth) => truth,
        Value::Nil => unreachable!(),
        Value::Int(_) => unreachable!(),
        Value::Keyword(_) => unreachable!(),
        Value::Text(_) => unreachable!(),
        Value::Vector { .. } => unreachable!(),
        Value::Function(_) => unreachable!(),
        Value::Node(node) => no_truth(node),
        Value::Reduced { .. } => unreachable!(),
        Value::Cell(_) => unreachable!(),
    }
}

/// A node is no truth value.
fn no_truth(node: Node) -> bool
    requires { is_truth (plain (V.Node node)) ≡ true }
    ensures { plain (V.Node node) ≡ M.bool result }
{
    match node {
        Node::Empty => unreachable!(),
        Node::Cons { .. } => unreachable!(),
        Node::Chunk { .. } => unreachable!(),
        Node::Range { .. } => unreachable!(),
        Node::VecSeq { .. } => unreachable!(),
    }
}

/// Whether a stage keeps a state.
fn keeps_state(stage: &Stage) -> bool
    ensures { result ≡ keeps_some stage.now }
{
    match stage {
        Stage::Applies { .. } => false,
        Stage::Take { .. } => true,
        Stage::Drop { .. } => true,
        Stage::DropWhile { .. } => true,
        Stage::Cat => false,
        Stage::PartitionAll(_) => true,
        Stage::ReducerTake { .. } => true,
    }
}

#[tactic(auto, using(crate::proofs::RestoreTurns::group_fits))]
/// `partition-all` with the group that was kept.
fn with_group(group: Group, value: Proper) -> Stage
    requires { FitsState (S.PartitionAll group) (plain value.value) }
    ensures { HasState (S.PartitionAll group) (plain value.value) result }
{
    let Group { size, items, .. } = group;
    let_go(items);
    with_items(size, value)
}

fn with_items(size: i64, value: Proper) -> Stage
    requires vector { is_vector (plain value.value) ≡ true }
    requires fewer { int_lt (pos (length (members (plain value.value)))) size ≡ true }
    ensures stage { stage_value result ≡ M.function (T.Xf X.PartitionAll) (M.values (M.int size ∷ [])) }
    ensures state { state_value result ≡ plain value.value }
{
    let Items { depth, items } = items_of(value.value);
    Stage::PartitionAll(Group { size, depth, items })
}

#[tactic(auto, using(crate::proofs::RestoreTurns::no_state, crate::proofs::RestoreTurns::take_fits, crate::proofs::RestoreTurns::drop_fits, crate::proofs::RestoreTurns::drop_while_fits, crate::proofs::RestoreTurns::reducer_take_fits))]
/// A stage that keeps a state, with the one that was kept.
fn with_state(stage: Stage, value: Proper) -> Stage
    requires { FitsState stage (plain value.value) }
    ensures { HasState stage (plain value.value) result }
{
    match stage {
        Stage::Applies { .. } => unreachable!(),
        Stage::Take { count, .. } => Stage::Take {
            count,
            left: integer_in(value),
        },
        Stage::Drop { count, .. } => Stage::Drop {
            count,
            left: integer_in(value),
        },
        Stage::DropWhile { test, .. } => Stage::DropWhile {
            test,
            dropping: truth_in(value.value),
        },
        Stage::Cat => unreachable!(),
        Stage::PartitionAll(group) => with_group(group, value),
        Stage::ReducerTake { count, .. } => Stage::ReducerTake {
            count,
            left: integer_in(value),
        },
    }
}

/// A stage takes its state from a list, at a place, where it keeps one.
fn restored(stage: Stage, args: &ProperList, at: usize) -> Result<Restored, NoMemory>
    requires { FitsNext stage (plains (drop at args.now.items)) }
    ensures { IfOk result (λ r. Restores stage (plains (drop at args.now.items)) r.stage (plains (drop r.at args.now.items))) }
{
    if keeps_state(&stage) {
        return restored_from(stage, args, at);
    }
    Ok(Restored { stage, at })
}

/// A stage that keeps a state takes it from a list, at a place.
fn restored_from(stage: Stage, args: &ProperList, at: usize) -> Result<Restored, NoMemory>
    requires next { FitsNext stage (plains (drop at args.now.items)) }
    requires keeps { keeps_some stage ≡ true }
    ensures { IfOk result (λ r. Restores stage (plains (drop at args.now.items)) r.stage (plains (drop r.at args.now.items))) }
{
    let count = args.len();
    let holds = at < count;
    prove!(holds);
    let value = args.at(at)?;
    Ok(Restored {
        stage: with_state(stage, value),
        at: at + 1,
    })
}

/// The last stage is taken, where there is one.
fn without_last(stages: Vec<Stage>) -> Taken
    ensures stages { stages.items ≡ result.stages.items ++ option_to_list result.stage }
    ensures none { MatchOption result.stage (result.stages.items ≡ []) (λ s. Unit {0}) }
{
    let mut stages = stages;
    let stage = stages.pop();
    Taken { stages, stage }
}

/// All stages, of which the last one comes first, take their states from a list from a place on.
fn restored_all(
    alloc: Global,
    stages: Vec<Stage>,
    args: &ProperList,
    at: usize,
) -> Result<Vec<Stage>, NoMemory>
    requires { are_states (all_kept (stages_stand (reverse stages.items))) (sights (M.values (plains (drop at args.now.items)))) ≡ true }
    ensures { IfOk result (λ ss. RestoresAll (reverse stages.items) (plains (drop at args.now.items)) ss.items) }
{
    let mut todo = stages;
    let mut done = no_stages(alloc);
    let mut here = at;
    loop {
        let Taken {
            stages: rest,
            stage,
        } = without_last(todo);
        match stage {
            None => return Ok(done),
            Some(stage) => {
                let next = restored(stage, args, here)?;
                let Restored { stage, at } = next;
                let more = and_stage(done, stage)?;
                done = more;
                here = at;
                todo = rest;
            }
        }
    }
}

impl Stages {
    /// The same stages with the states that were kept, which stand in a list from a place on.
    pub fn with_states(
        self,
        alloc: Global,
        args: &ProperList,
        at: usize,
    ) -> Result<Stages, NoMemory>
        requires { are_states (kept_in self) (sights (M.values (plains (drop at args.now.items)))) ≡ true }
        ensures stages { IfOk result (λ s. stages_in s ≡ stages_in self) }
        ensures states { IfOk result (λ s. states_in s ≡ replaced (states_in self) (plains (drop at args.now.items))) }
    {
        let Stages { stages, done } = self;
        let last_first = turned(stages);
        let stages = restored_all(alloc, last_first, args, at)?;
        Ok(Stages { stages, done })
    }
}
