//! `nth`.
ghost use Rattle.std.specs.Prelude.{◌≡◌, ◌∷◌, pos, unsigned_abs, IfOk};
ghost use Rattle.lazy_rows.specs.Walks.{nth_call, nth_rule, nth_of_nil, nth_of_vector, failing};
ghost use Rattle.seq_plan.specs.Cursors.{stands};
ghost use Rattle.seq_plan.specs.Nodes.{first_of};
ghost use Rattle.seq_plan.specs.Plan.{give, throw, plan_of};
ghost use Rattle.seq_base.specs.declared.thrown.Thrown.TheVariants.{BadType};
ghost use Rattle.seq_turns.specs.Arguments.{integer_of};
ghost use Rattle.seq_turns.specs.Seen.{seen};
ghost use Rattle.seq_values.specs.Plain.{plain, plains};
ghost use Rattle.walk_rules.specs.Left.{default_of, left_seq, left_step, Takes};
ghost use Rattle.walk_rules.specs.declared.state.AtSeq.TheVariants as Q;
ghost use Rattle.walk_rules.specs.declared.state.AtStep.TheVariants as T;

use crate::arguments::{TwoOrThree, two_or_three};
use crate::listed::{Listed, Shape};
use crate::resuming::{resume, start};
use crate::shapes::shape;
use crate::state::{AtSeq, AtStep, State};
use crate::ways::{ends, ends_nil, fails, steps};
use seq_base::Thrown;
use seq_plan::Cursor;
use seq_turns::{Next, Proper, ProperList, Seen, first_of_cursor, number_of, step_cursor};
use seq_vector::NoMemory;
use std::alloc::Global;

/// `nth`: a collection, a place, and a default or none.
#[tactic(auto, using(crate::proofs::Places::two_given, crate::proofs::Places::three_given, crate::proofs::Places::others_given))]
pub(crate) fn begin_nth(alloc: Global, args: ProperList) -> Result<Next<State>, NoMemory>
    ensures { IfOk result (λ r. Takes (nth_call (plains args.items)) r) }
{
    match two_or_three(args)? {
        TwoOrThree::Two(whole, index) => Ok(nth_typed(alloc, whole, index, None)?),
        TwoOrThree::Three(whole, index, default) => {
            Ok(nth_typed(alloc, whole, index, Some(default))?)
        }
        TwoOrThree::Other => Ok(fails(Thrown::Arity)),
    }
}

#[tactic(auto, using(crate::proofs::Places::typed, crate::proofs::Places::mistyped))]
fn nth_typed(
    alloc: Global,
    whole: Proper,
    index: Proper,
    default: Option<Proper>,
) -> Result<Next<State>, NoMemory>
    ensures { IfOk result (λ r. Takes (nth_call (plain whole.value ∷ plain index.value ∷ default_of default)) r) }
{
    match number_in(index) {
        Some(index) => Ok(nth_of(alloc, whole, index, default)?),
        None => Ok(mistyped(whole, default)),
    }
}

fn number_in(value: Proper) -> Option<i64>
    ensures { result ≡ integer_of (plain value.value) }
{
    number_of(&value.value)
}

/// The place is no integer.
fn mistyped(whole: Proper, default: Option<Proper>) -> Next<State>
    ensures { Takes (throw BadType) result }
{
    fails(Thrown::BadType)
}

#[tactic(auto, using(crate::proofs::Places::in_nil, crate::proofs::Places::in_vector, crate::proofs::Places::in_another))]
fn nth_of(
    alloc: Global,
    whole: Proper,
    index: i64,
    default: Option<Proper>,
) -> Result<Next<State>, NoMemory>
    ensures { IfOk result (λ r. Takes (nth_rule index (default_of default) (plain whole.value)) r) }
{
    match shape(whole) {
        Shape::Nil => Ok(default_or_nil(default)),
        Shape::Vector(listed) => Ok(nth_listed(listed, index, default)?),
        Shape::Another(value) => Ok(start(alloc, AtSeq::Place { index, default }, value)?),
    }
}

/// nil has nil at every place.
fn default_or_nil(default: Option<Proper>) -> Next<State>
    ensures { Takes (nth_of_nil (default_of default)) result }
{
    match default {
        None => ends_nil(),
        Some(value) => ends(value),
    }
}

/// Nothing is at the place.
fn nowhere(default: Option<Proper>) -> Next<State>
    ensures { Takes (plan_of (failing (default_of default))) result }
{
    match default {
        None => fails(Thrown::Index),
        Some(value) => ends(value),
    }
}

/// The item at a place of a vector.
#[tactic(auto, using(crate::proofs::Places::is_below, crate::proofs::Places::is_at))]
fn nth_listed(listed: Listed, index: i64, default: Option<Proper>) -> Result<Next<State>, NoMemory>
    ensures { IfOk result (λ r. Takes (nth_of_vector index (default_of default) (plains listed.items)) r) }
{
    let items = items_of(listed);
    if index < 0 {
        return Ok(outside(items, default));
    }
    let next = nth_item(items, place_of(index), default)?;
    Ok(next)
}

/// A place that isn't below 0.
fn place_of(index: i64) -> usize
    ensures { result ≡ unsigned_abs index }
{
    index.unsigned_abs() as usize
}

fn nth_item(items: ProperList, at: usize, default: Option<Proper>) -> Result<Next<State>, NoMemory>
    ensures { IfOk result (λ r. Takes (nth_of_vector (pos at) (default_of default) (plains items.items)) r) }
{
    match items.get(at)? {
        Some(value) => Ok(inside(items, value, default)),
        None => Ok(outside(items, default)),
    }
}

#[tactic(auto, using(seq_values::proofs::WellFormedLemmas::vector_items))]
fn items_of(listed: Listed) -> ProperList
    ensures { result.items ≡ listed.items }
{
    ProperList {
        items: listed.items,
    }
}

/// The place is outside of the vector.
fn outside(items: ProperList, default: Option<Proper>) -> Next<State>
    ensures { Takes (plan_of (failing (default_of default))) result }
{
    nowhere(default)
}

/// The item is there.
fn inside(items: ProperList, value: Proper, default: Option<Proper>) -> Next<State>
    ensures { Takes (give (plain value.value)) result }
{
    ends(value)
}

/// The value is given, and the default isn't.
fn found(value: Proper, default: Option<Proper>) -> Next<State>
    ensures { Takes (give (plain value.value)) result }
{
    ends(value)
}

/// The seq is there, and now the place is looked at.
#[tactic(auto, using(crate::proofs::Places::place_below, crate::proofs::Places::place_on))]
pub(crate) fn place_at(
    index: i64,
    default: Option<Proper>,
    what: Seen,
) -> Result<Next<State>, NoMemory>
    ensures { IfOk result (λ r. Takes (left_seq (Q.Place index default) (seen what)) r) }
{
    if index < 0 {
        return Ok(below(default, what));
    }
    Ok(nth_at(index, default, what)?)
}

/// The place is below 0.
fn below(default: Option<Proper>, what: Seen) -> Next<State>
    ensures { Takes (plan_of (failing (default_of default))) result }
{
    nowhere(default)
}

/// A round of the loop: so many elements are to be passed.
#[tactic(auto, using(crate::proofs::Places::nth_ends))]
pub(crate) fn nth_at(
    left: i64,
    default: Option<Proper>,
    what: Seen,
) -> Result<Next<State>, NoMemory>
    ensures { IfOk result (λ r. Takes (left_seq (Q.Nth left default) (seen what)) r) }
{
    match what {
        Seen::Nil => Ok(nowhere(default)),
        Seen::At(place) => Ok(nth_place(left, default, place)?),
    }
}

#[tactic(auto, using(crate::proofs::Places::nth_here, crate::proofs::Places::nth_goes))]
fn nth_place(left: i64, default: Option<Proper>, place: Cursor) -> Result<Next<State>, NoMemory>
    ensures { IfOk result (λ r. Takes (left_seq (Q.Nth left default) (stands place)) r) }
{
    if left <= 0 {
        return Ok(here(default, place)?);
    }
    Ok(steps(AtStep::Nth {
        left: left - 1,
        default,
        place,
    }))
}

/// The element is the one that is asked for.
#[tactic(auto, using(crate::proofs::Taking::gives_same))]
fn here(default: Option<Proper>, place: Cursor) -> Result<Next<State>, NoMemory>
    ensures { IfOk result (λ r. Takes (give (first_of (stands place))) r) }
{
    let first = first_of_cursor(&place)?;
    Ok(found(first, default))
}

/// An element was passed.
#[tactic(auto, using(crate::proofs::Places::nth_steps))]
pub(crate) fn nth_step(
    alloc: Global,
    left: i64,
    default: Option<Proper>,
    place: Cursor,
) -> Result<Next<State>, NoMemory>
    ensures { IfOk result (λ r. Takes (left_step (T.Nth left default place)) r) }
{
    let rest = step_cursor(place)?;
    Ok(resume(alloc, AtSeq::Nth { left, default }, rest)?)
}
