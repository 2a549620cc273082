//! The states that stages keep between two inputs.
ghost use Rattle.std.specs.Prelude.{◌≡◌, ◌<◌, [], ◌∷◌, ◌++◌, length, IfOk};
ghost use Rattle.seq_plan.specs.Nodes.{with_members};
ghost use Rattle.seq_turns.specs.Making.{Grows};
ghost use Rattle.seq_values.specs.Plain.{plain, plains};
ghost use Rattle.stage_rows.specs.Table.{kept};
ghost use Rattle.xf_stages.specs.Left.{states_in};
ghost use Rattle.xf_stages.specs.Opening.{AddsStates, IfGrown, kept_in};
ghost use Rattle.xf_stages.specs.States.{Adds, AddsAll, AddsAt, IsStateOf};
ghost use Rattle.xf_stages.specs.declared.state.Stage.TheVariants as S;
ghost use Rattle.seq_values.specs.Model as M;

use crate::state::{Group, Stage, Stages};
use seq_turns::{Gathered, Grown, Proper};
use seq_values::Value;
use seq_vector::{NoMemory, Share};

/// The elements of a group as a vector, with one more owner.
fn group_value(group: &Group) -> Result<Proper, NoMemory>
    ensures { IfOk result (λ v. plain v.value ≡ M.vector (M.values (plains group.now.items))) }
{
    let items = group.items.share()?;
    Ok(Proper {
        value: Value::Vector {
            depth: group.depth,
            items,
        },
    })
}

#[tactic(auto, using(crate::proofs::StateTurns::applies_none, crate::proofs::StateTurns::take_kept, crate::proofs::StateTurns::drop_kept, crate::proofs::StateTurns::drop_while_kept, crate::proofs::StateTurns::reducer_take_kept))]
/// The state of a stage, and `None` for one that keeps none.
fn state_of(stage: &Stage) -> Result<Option<Proper>, NoMemory>
    ensures { IfOk result (IsStateOf stage.now) }
{
    match stage {
        Stage::Applies { .. } => Ok(None),
        Stage::Take { left, .. } => Ok(Some(Proper::of_int(*left))),
        Stage::Drop { left, .. } => Ok(Some(Proper::of_int(*left))),
        Stage::DropWhile { dropping, .. } => Ok(Some(Proper::of_truth(*dropping))),
        Stage::Cat => Ok(None),
        Stage::PartitionAll(group) => state_of_group(group),
        Stage::ReducerTake { left, .. } => Ok(Some(Proper::of_int(*left))),
    }
}

#[tactic(auto, using(crate::proofs::StateTurns::group_kept))]
fn state_of_group(group: &Group) -> Result<Option<Proper>, NoMemory>
    ensures { IfOk result (IsStateOf (S.PartitionAll group.now)) }
{
    let value = group_value(group)?;
    Ok(Some(value))
}

/// The state of a stage after other values, where it keeps one.
fn add_state(stage: &Stage, all: Gathered) -> Result<Grown, NoMemory>
    ensures { IfOk result (Adds stage.now all.items.items) }
{
    let state = state_of(stage)?;
    match state {
        None => Ok(Grown::All(all)),
        Some(state) => grow(all, state),
    }
}

/// One more value, unless there are as many as there may be.
fn grow(all: Gathered, state: Proper) -> Result<Grown, NoMemory>
    ensures { IfOk result (Grows (with_members (plains all.items.items ++ plain state.value ∷ []))) }
{
    let grown = all.grown(state)?;
    Ok(grown)
}

/// The state of the stage at a place, after other values.
#[tactic(auto, using(crate::proofs::StateTurns::adds_at))]
fn add_at(stages: &[Stage], at: usize, all: Gathered) -> Result<Grown, NoMemory>
    requires { at < length stages.now }
    ensures { IfOk result (AddsAt stages.now at all.items.items) }
{
    let stage = &stages[at];
    let grown = add_state(stage, all)?;
    Ok(grown)
}

/// All states, after other values.
fn add_from(stages: &[Stage], all: Gathered) -> Result<Grown, NoMemory>
    ensures { IfOk result (AddsAll stages.now all.items.items) }
{
    let mut all = all;
    let mut here = 0;
    while here < stages.len() {
        let grown = add_at(stages, here, all)?;
        match grown {
            Grown::All(more) => all = more,
            Grown::TooMany => return Ok(Grown::TooMany),
        }
        here += 1;
    }
    Ok(Grown::All(all))
}

impl Stages {
    /// The states that are kept, after other values.
    pub fn add_states(self, all: Gathered) -> Result<Grown, NoMemory>
        ensures grows { IfOk result (Grows (with_members (plains all.items.items ++ kept (states_in self)))) }
        ensures states { IfOk result (λ g. IfGrown g (λ xs. AddsStates (kept_in self) (plains all.items.items) (plains xs))) }
    {
        let grown = add_from(&self.stages, all)?;
        Ok(grown)
    }
}
