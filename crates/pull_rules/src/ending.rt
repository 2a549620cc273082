//! How the work of a pull ends.
ghost use Rattle.std.specs.Prelude.{◌<◌, length, IfOk};
ghost use Rattle.pull_rules.specs.Left.{left_part, last_of, Takes};
ghost use Rattle.pull_rules.specs.declared.state.AtPart.TheVariants as P;
ghost use Rattle.seq_base.specs.declared.thrown.Thrown.TheVariants.{Overflow};
ghost use Rattle.seq_plan.specs.Nodes.{give_value, with_items};
ghost use Rattle.seq_plan.specs.Plan.{give, throw};
ghost use Rattle.seq_values.specs.Model as M;
ghost use Rattle.seq_values.specs.Plain.{plain, plains};
ghost use Rattle.stage_rows.specs.Table.{last_outputs};

use crate::flow::Outputs;
use crate::state::State;
use crate::ways::{gives_made, gives_nil, let_go, throws};
use seq_base::Thrown;
use seq_turns::{Gathered, Grown, Next, chunk_and_end, gives_items_before};
use seq_values::CellId;
use seq_vector::NoMemory;
use std::alloc::Global;

/// Gives the last outputs as a chunk, or nil where there are none.
#[tactic(auto, using(crate::proofs::Ends::many_last, crate::proofs::Ends::all_last))]
pub(crate) fn gives_last(alloc: Global, outputs: Outputs) -> Result<Next<State>, NoMemory>
    ensures { IfOk result (λ r. Takes (last_outputs (plains outputs.items.items)) r) }
{
    match outputs.members() {
        Grown::TooMany => Ok(throws(Thrown::Overflow)),
        Grown::All(all) => {
            let next = gives_chunk_or_nil(alloc, all)?;
            Ok(next)
        }
    }
}

/// There are no outputs.
fn nothing(all: Gathered) -> Next<State>
    ensures { Takes (give M.nil) result }
{
    let_go(all);
    gives_nil()
}

/// Gives so many outputs as a list may have.
#[tactic(auto, using(crate::proofs::Ends::nothing_last, crate::proofs::Ends::some_last))]
fn gives_chunk_or_nil(alloc: Global, all: Gathered) -> Result<Next<State>, NoMemory>
    ensures { IfOk result (λ r. Takes (last_of (plains all.items.items)) r) }
{
    if all.len() == 0 {
        return Ok(nothing(all));
    }
    let next = gives_chunk(alloc, all)?;
    Ok(next)
}

/// Gives the outputs as a chunk, after which nothing comes.
#[tactic(auto, using(crate::proofs::Ends::chunk_gives))]
fn gives_chunk(alloc: Global, all: Gathered) -> Result<Next<State>, NoMemory>
    requires { 0 < length all.items.items }
    ensures { IfOk result (λ r. Takes (give_value (M.chunk (M.values (plains all.items.items)) M.empty)) r) }
{
    let items = all.listed(alloc)?;
    let what = chunk_and_end(alloc, items)?;
    Ok(gives_made(what))
}

/// The part for what is left was made. The outputs are given before it.
#[tactic(auto, using(crate::proofs::Ends::many_before, crate::proofs::Ends::all_before))]
pub(crate) fn pull_made(
    alloc: Global,
    outputs: Outputs,
    id: CellId,
) -> Result<Next<State>, NoMemory>
    ensures { IfOk result (λ r. Takes (left_part (P.Pulled outputs) id) r) }
{
    match outputs.members() {
        Grown::TooMany => Ok(throws(Thrown::Overflow)),
        Grown::All(all) => {
            let next = gives_before(alloc, all, id)?;
            Ok(next)
        }
    }
}

/// Gives the outputs before the part.
fn gives_before(alloc: Global, all: Gathered, id: CellId) -> Result<Next<State>, NoMemory>
    ensures { IfOk result (λ r. Takes (give_value (with_items (M.values (plains all.items.items)) (M.cell id))) r) }
{
    let items = all.listed(alloc)?;
    let next = gives_items_before(alloc, State::Over, items, id)?;
    Ok(next)
}
