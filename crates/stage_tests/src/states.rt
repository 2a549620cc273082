//! States that are kept, and put into new stages.
ghost use Rattle.std.specs.Prelude.{◌≡◌, true, drop, length, IfOk};
ghost use Rattle.seq_plan.specs.WellFormed.{sights};
ghost use Rattle.seq_values.specs.Model as M;
ghost use Rattle.seq_values.specs.Plain.{plains};
ghost use Rattle.seq_values.specs.WellFormedTerms.{are_states};
ghost use Rattle.xf_stages.specs.Left.{stages_in};
ghost use Rattle.xf_stages.specs.Opening.{kept_in};

use crate::showing::show_all;
use seq_turns::{Gathered, Grown, Proper, ProperList};
use seq_values::Line;
use seq_vector::NoMemory;
use std::alloc::Global;
use xf_stages::Stages;

/// nil alone.
fn one_nil(alloc: Global) -> Result<Gathered, NoMemory>
    ensures { IfOk result (λ all. length all.items.items ≡ 1) }
{
    let all = Gathered::none(alloc).and(Proper::nil())?;
    Ok(all)
}

/// nil, and then the states that stages keep.
fn kept_states(alloc: Global, stages: Stages) -> Result<ProperList, NoMemory>
    ensures { IfOk result (λ all. are_states (kept_in stages) (sights (M.values (plains (drop 1 all.items)))) ≡ true) }
{
    let nil = one_nil(alloc)?;
    let grown = stages.add_states(nil)?;
    match grown {
        Grown::TooMany => Err(NoMemory),
        Grown::All(all) => {
            let states = all.listed(alloc)?;
            Ok(states)
        }
    }
}

fn show_states(states: &ProperList, line: &mut Line) -> Result<(), NoMemory> {
    line.append(b"keeps")?;
    show_all(&states.items, 1, line)?;
    line.append(b"; ")
}

/// Writes the states that stages keep.
pub(crate) fn shown_states(
    alloc: Global,
    stages: Stages,
    line: &mut Line,
) -> Result<ProperList, NoMemory>
    ensures { IfOk result (λ all. are_states (kept_in stages) (sights (M.values (plains (drop 1 all.items)))) ≡ true) }
{
    let states = kept_states(alloc, stages)?;
    show_states(&states, line)?;
    Ok(states)
}

/// New stages get the states behind nil.
fn restored(alloc: Global, fresh: Stages, states: ProperList) -> Result<Stages, NoMemory>
    requires { are_states (kept_in fresh) (sights (M.values (plains (drop 1 states.items)))) ≡ true }
    ensures { IfOk result (λ s. stages_in s ≡ stages_in fresh) }
{
    let stages = fresh.with_states(alloc, &states, 1)?;
    Ok(stages)
}

/// New stages get the states of old ones.
pub(crate) fn given_back(
    alloc: Global,
    old: Stages,
    fresh: Stages,
    line: &mut Line,
) -> Result<Stages, NoMemory>
    requires { kept_in old ≡ kept_in fresh }
    ensures { IfOk result (λ s. stages_in s ≡ stages_in fresh) }
{
    let states = shown_states(alloc, old, line)?;
    restored(alloc, fresh, states)
}
