//! `vec`, `reverse` and `apply`: all elements are gathered in one `Vec`.
ghost use Rattle.std.specs.Prelude.{◌≡◌, ◌≤◌, ◌-◌, ◌++◌, length, drop, reverse, IfOk};
ghost use Rattle.lazy_rows.specs.Walks.{vec_rule, reverse_rule, apply_call, apply_rule};
ghost use Rattle.seq_base.specs.declared.thrown.Thrown.TheVariants.{Overflow, Arity};
ghost use Rattle.seq_plan.specs.Arguments.{of_value};
ghost use Rattle.seq_plan.specs.Lists.{list_of};
ghost use Rattle.seq_plan.specs.Nodes.{give_value};
ghost use Rattle.seq_plan.specs.Plan.{call, give, throw};
ghost use Rattle.seq_turns.specs.Seen.{seen};
ghost use Rattle.seq_values.specs.Model as M;
ghost use Rattle.seq_values.specs.Plain.{plain, plains};
ghost use Rattle.walk_rules.specs.Left.{left_seq, left_step, made_of, Takes};
ghost use Rattle.walk_rules.specs.declared.state.AtSeq.TheVariants as Q;
ghost use Rattle.walk_rules.specs.declared.state.AtStep.TheVariants as T;

use crate::arguments::only;
use crate::resuming::{resume, start};
use crate::shapes::is_vector;
use crate::state::{AtSeq, AtStep, AtValue, Purpose, State};
use crate::ways::{asks_call, ends, ends_made, fails, steps};
use seq_base::Thrown;
use seq_plan::Cursor;
use seq_turns::{
    Gathered, Grown, Next, Proper, ProperList, Rest, Seen, list_of_heads, split_cursor, vector_made,
};
use seq_vector::NoMemory;
use std::alloc::Global;

/// `vec`
#[tactic(auto, using(crate::proofs::Beginning::of_only, crate::proofs::Beginning::of_others))]
pub(crate) fn begin_vec(alloc: Global, args: ProperList) -> Result<Next<State>, NoMemory>
    ensures { IfOk result (λ r. Takes (of_value vec_rule (plains args.items)) r) }
{
    match only(args)? {
        Some(whole) => Ok(vec_of(alloc, whole)?),
        None => Ok(fails(Thrown::Arity)),
    }
}

/// A vector is itself.
#[tactic(auto, using(crate::proofs::Gathers::vec_itself, crate::proofs::Gathers::vec_gathers))]
fn vec_of(alloc: Global, whole: Proper) -> Result<Next<State>, NoMemory>
    ensures { IfOk result (λ r. Takes (vec_rule (plain whole.value)) r) }
{
    if is_vector(&whole.value) {
        return Ok(ends(whole));
    }
    let kept = Gathered::none(alloc);
    let purpose = Purpose::Vector;
    Ok(start(alloc, AtSeq::Gather { kept, purpose }, whole)?)
}

/// `reverse`
#[tactic(auto, using(crate::proofs::Beginning::of_only, crate::proofs::Beginning::of_others))]
pub(crate) fn begin_reverse(alloc: Global, args: ProperList) -> Result<Next<State>, NoMemory>
    ensures { IfOk result (λ r. Takes (of_value reverse_rule (plains args.items)) r) }
{
    match only(args)? {
        Some(whole) => Ok(reverse_of(alloc, whole)?),
        None => Ok(fails(Thrown::Arity)),
    }
}

#[tactic(auto, using(crate::proofs::Gathers::reverse_gathers))]
fn reverse_of(alloc: Global, whole: Proper) -> Result<Next<State>, NoMemory>
    ensures { IfOk result (λ r. Takes (reverse_rule (plain whole.value)) r) }
{
    let kept = Gathered::none(alloc);
    let purpose = Purpose::Reversed;
    Ok(start(alloc, AtSeq::Gather { kept, purpose }, whole)?)
}

/// `apply`: the function, arguments that come first, and a collection of those after them.
#[tactic(auto, using(crate::proofs::Gathers::apply_few, crate::proofs::Gathers::apply_gathers))]
pub(crate) fn begin_apply(alloc: Global, args: ProperList) -> Result<Next<State>, NoMemory>
    ensures { IfOk result (λ r. Takes (apply_call (plains args.items)) r) }
{
    if args.len() < 2 {
        return Ok(too_few(args));
    }
    let function = args.at(0)?;
    let whole = args.at(args.len() - 1)?;
    let kept = between(alloc, args)?;
    let purpose = Purpose::Arguments { function };
    Ok(start(alloc, AtSeq::Gather { kept, purpose }, whole)?)
}

/// No collection is given.
fn too_few(args: ProperList) -> Next<State>
    ensures { Takes (throw Arity) result }
{
    fails(Thrown::Arity)
}

/// The arguments between the first and the last one.
fn between(alloc: Global, args: ProperList) -> Result<Gathered, NoMemory>
    requires { 2 ≤ length args.items }
    ensures { IfOk result (λ kept. kept.items.items ++ drop (length args.items - 1) args.items ≡ drop 1 args.items) }
{
    let last = args.items.len() - 1;
    let mut kept = Gathered::with_room(alloc, last)?;
    for at in 1..last {
        let one = args.at(at)?;
        kept = kept.and(one)?;
    }
    Ok(kept)
}

/// A round of the loop, with the elements so far.
#[tactic(auto, using(crate::proofs::Gathers::gather_ends, crate::proofs::Gathers::gather_goes))]
pub(crate) fn gather_at(
    alloc: Global,
    kept: Gathered,
    purpose: Purpose,
    what: Seen,
) -> Result<Next<State>, NoMemory>
    ensures { IfOk result (λ r. Takes (left_seq (Q.Gather kept purpose) (seen what)) r) }
{
    match what {
        Seen::Nil => Ok(gathered(alloc, kept, purpose)?),
        Seen::At(place) => Ok(steps(AtStep::Gather {
            kept,
            purpose,
            place,
        })),
    }
}

/// All elements are there.
#[tactic(auto, using(crate::proofs::Gathers::made_listed))]
fn gathered(alloc: Global, kept: Gathered, purpose: Purpose) -> Result<Next<State>, NoMemory>
    ensures { IfOk result (λ r. Takes (made_of purpose (plains kept.items.items)) r) }
{
    let items = kept.listed(alloc)?;
    let next = made(alloc, items, purpose)?;
    Ok(next)
}

fn made(alloc: Global, items: ProperList, purpose: Purpose) -> Result<Next<State>, NoMemory>
    ensures { IfOk result (λ r. Takes (made_of purpose (plains items.items)) r) }
{
    match purpose {
        Purpose::Vector => Ok(ends_vector(items)),
        Purpose::Reversed => ends_list(alloc, items),
        Purpose::Arguments { function } => Ok(asks_call(AtValue::Answer, function, items)),
    }
}

#[tactic(auto, using(crate::proofs::Taking::made_gives))]
fn ends_vector(items: ProperList) -> Next<State>
    ensures { Takes (give_value (M.vector (M.values (plains items.items)))) result }
{
    ends_made(vector_made(items))
}

/// The elements are the list's heads as they stand.
#[tactic(auto, using(crate::proofs::Taking::made_gives))]
fn ends_list(alloc: Global, heads: ProperList) -> Result<Next<State>, NoMemory>
    ensures { IfOk result (λ r. Takes (give_value (list_of (reverse (plains heads.items)))) r) }
{
    let list = list_of_heads(alloc, heads)?;
    Ok(ends_made(list))
}

/// One more element is gathered.
#[tactic(auto, using(crate::proofs::Gathers::gather_steps, crate::proofs::Gathers::gather_full))]
pub(crate) fn gather_step(
    alloc: Global,
    kept: Gathered,
    purpose: Purpose,
    place: Cursor,
) -> Result<Next<State>, NoMemory>
    ensures { IfOk result (λ r. Takes (left_step (T.Gather kept purpose place)) r) }
{
    let split = split_cursor(place)?;
    match kept.grown(split.first)? {
        Grown::All(kept) => Ok(resume(alloc, AtSeq::Gather { kept, purpose }, split.rest)?),
        Grown::TooMany => Ok(too_long(purpose, split.rest)),
    }
}

/// There are as many elements as one value may have.
fn too_long(purpose: Purpose, rest: Rest) -> Next<State>
    ensures { Takes (throw Overflow) result }
{
    fails(Thrown::Overflow)
}
