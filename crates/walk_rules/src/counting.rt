//! `last` and `count`.
ghost use Rattle.std.specs.Prelude.{◌≡◌, ◌-◌, ◌+ℤ◌, pos, length, Some, IfOk, IsSome, IsTrue};
ghost use Rattle.lazy_rows.specs.Walks.{last_rule, count_rule, count_ends};
ghost use Rattle.seq_base.specs.declared.thrown.Thrown.TheVariants.{Overflow};
ghost use Rattle.seq_plan.specs.Arguments.{of_value};
ghost use Rattle.seq_plan.specs.Cursors.{stands};
ghost use Rattle.seq_plan.specs.Plan.{visit, give, throw, plan_of};
ghost use Rattle.seq_turns.specs.Seen.{seen};
ghost use Rattle.seq_values.specs.Model as M;
ghost use Rattle.seq_values.specs.Plain.{plain, plains};
ghost use Rattle.seq_values.specs.WellFormed.{is_well_formed};
ghost use Rattle.seq_values.specs.declared.value.Node.TheVariants as N;
ghost use Rattle.seq_values.specs.declared.value.Value.TheVariants as V;
ghost use Rattle.walk_rules.specs.Left.{left_seq, left_step, Takes};
ghost use Rattle.walk_rules.specs.Shapes.{IsCounted};
ghost use Rattle.walk_rules.specs.Words.{range_left, vector_left};
ghost use Rattle.seq_plan.specs.declared.cursor.Cursor.TheVariants as C;
ghost use Rattle.walk_rules.specs.declared.state.AtSeq.TheVariants as Q;
ghost use Rattle.walk_rules.specs.declared.state.AtStep.TheVariants as T;

use crate::arguments::only;
use crate::counted::Counted;
use crate::listed::{Listed, Shape};
use crate::resuming::{resume, start};
use crate::shapes::shape;
use crate::state::{AtSeq, AtStep, State};
use crate::ways::{ends, fails, steps};
use seq_base::Thrown;
use seq_plan::{Cursor, RangeLeft, VecLeft};
use seq_turns::{Next, Proper, ProperList, Seen, cursor_value, split_cursor, step_cursor};
use seq_values::{Node, Value};
use seq_vector::{NoMemory, PVec};
use std::alloc::Global;

/// `last`
#[tactic(auto, using(crate::proofs::Beginning::of_only, crate::proofs::Beginning::of_others, crate::proofs::Counts::last_begins))]
pub(crate) fn begin_last(alloc: Global, args: ProperList) -> Result<Next<State>, NoMemory>
    ensures { IfOk result (λ r. Takes (of_value last_rule (plains args.items)) r) }
{
    match only(args)? {
        Some(whole) => Ok(last_of(alloc, whole)?),
        None => Ok(fails(Thrown::Arity)),
    }
}

#[tactic(auto, using(crate::proofs::Counts::last_begins))]
fn last_of(alloc: Global, whole: Proper) -> Result<Next<State>, NoMemory>
    ensures { IfOk result (λ r. Takes (last_rule (plain whole.value)) r) }
{
    let answer = Proper::nil();
    Ok(start(alloc, AtSeq::Last { answer }, whole)?)
}

/// A round of the loop, with the last element so far.
#[tactic(auto, using(crate::proofs::Counts::last_ends, crate::proofs::Counts::last_goes))]
pub(crate) fn last_at(answer: Proper, what: Seen) -> Next<State>
    ensures { Takes (left_seq (Q.Last answer) (seen what)) result }
{
    match what {
        Seen::Nil => ends(answer),
        Seen::At(place) => passes(answer, place),
    }
}

/// The element so far isn't the last one.
fn passes(answer: Proper, place: Cursor) -> Next<State>
    ensures { Takes (visit (left_step (T.Last place))) result }
{
    steps(AtStep::Last { place })
}

#[tactic(auto, using(crate::proofs::Counts::last_steps))]
pub(crate) fn last_step(alloc: Global, place: Cursor) -> Result<Next<State>, NoMemory>
    ensures { IfOk result (λ r. Takes (left_step (T.Last place)) r) }
{
    let split = split_cursor(place)?;
    let answer = split.first;
    Ok(resume(alloc, AtSeq::Last { answer }, split.rest)?)
}

/// `count`
#[tactic(auto, using(crate::proofs::Beginning::of_only, crate::proofs::Beginning::of_others))]
pub(crate) fn begin_count(alloc: Global, args: ProperList) -> Result<Next<State>, NoMemory>
    ensures { IfOk result (λ r. Takes (of_value count_rule (plains args.items)) r) }
{
    match only(args)? {
        Some(whole) => Ok(count_of(alloc, whole)?),
        None => Ok(fails(Thrown::Arity)),
    }
}

#[tactic(auto, using(crate::proofs::Counts::of_nil, crate::proofs::Counts::of_vector, crate::proofs::Counts::of_another))]
fn count_of(alloc: Global, whole: Proper) -> Result<Next<State>, NoMemory>
    ensures { IfOk result (λ r. Takes (count_rule (plain whole.value)) r) }
{
    match shape(whole) {
        Shape::Nil => Ok(gives_count(0)),
        Shape::Vector(listed) => Ok(gives_length(listed)),
        Shape::Another(value) => Ok(start(alloc, AtSeq::Count { count: 0 }, value)?),
    }
}

fn gives_length(listed: Listed) -> Next<State>
    ensures { Takes (give (M.int (pos (length listed.items)))) result }
{
    gives_count(listed.items.len() as i64)
}

fn gives_count(count: i64) -> Next<State>
    ensures { Takes (give (M.int count)) result }
{
    ends(Proper::of_int(count))
}

/// A round of the loop, with the count so far.
#[tactic(auto, using(crate::proofs::Counts::count_ends_here))]
pub(crate) fn count_at(alloc: Global, count: i64, what: Seen) -> Result<Next<State>, NoMemory>
    ensures { IfOk result (λ r. Takes (left_seq (Q.Count count) (seen what)) r) }
{
    match what {
        Seen::Nil => Ok(gives_count(count)),
        Seen::At(place) => Ok(count_place(alloc, count, place)?),
    }
}

#[tactic(auto, using(crate::proofs::Counts::counts_whole, crate::proofs::Counts::counts_one))]
fn count_place(alloc: Global, count: i64, place: Cursor) -> Result<Next<State>, NoMemory>
    ensures { IfOk result (λ r. Takes (left_seq (Q.Count count) (stands place)) r) }
{
    match counted(alloc, place)? {
        Counted::Whole(left) => Ok(gives_sum(count, left)),
        Counted::Walk(place) => Ok(steps(AtStep::Count { count, place })),
    }
}

/// All that remains is added at once.
#[tactic(auto, using(crate::proofs::Counts::sum_over, crate::proofs::Counts::sum_same))]
fn gives_sum(count: i64, left: u64) -> Next<State>
    ensures { Takes (plan_of (count_ends (count +ℤ pos left))) result }
{
    let sum = count as i128 + left as i128;
    if sum > 9223372036854775807 {
        return fails(Thrown::Overflow);
    }
    gives_within(sum as i64)
}

#[tactic(auto, using(crate::proofs::Counts::sum_fits))]
fn gives_within(sum: i64) -> Next<State>
    ensures { Takes (plan_of (count_ends sum)) result }
{
    gives_count(sum)
}

/// How many elements are left, where that is known at once.
fn counted(alloc: Global, place: Cursor) -> Result<Counted, NoMemory>
    ensures { IfOk result (λ c. IsCounted c (stands place)) }
{
    match place {
        Cursor::Heads(heads) => Ok(Counted::Walk(Cursor::Heads(heads))),
        Cursor::Items(items) => Ok(Counted::Walk(Cursor::Items(items))),
        Cursor::Range(range) => range_counted(alloc, range),
        Cursor::Vector(vector) => vector_counted(alloc, vector),
    }
}

fn range_counted(alloc: Global, range: RangeLeft) -> Result<Counted, NoMemory>
    ensures { IfOk result (λ c. IsCounted c (stands (C.Range range))) }
{
    let node = cursor_value(alloc, Cursor::Range(range))?;
    Ok(Counted::Whole(left_in_range(node.value)))
}

/// How many integers are left of a range.
#[tactic(auto, using(crate::proofs::Counts::range_counts))]
fn left_in_range(node: Value) -> u64
    requires well { IsTrue (is_well_formed node) }
    requires range { IsSome (range_left (plain node)) }
    ensures { range_left (plain node) ≡ Some (pos result) }
{
    match node {
        Value::Node(Node::Range { from: _, at, end }) => end.abs_diff(at),
        _ => unreachable!(),
    }
}

fn vector_counted(alloc: Global, vector: VecLeft) -> Result<Counted, NoMemory>
    ensures { IfOk result (λ c. IsCounted c (stands (C.Vector vector))) }
{
    let node = cursor_value(alloc, Cursor::Vector(vector))?;
    Ok(Counted::Whole(left_in_vector(node.value)))
}

/// How many items are left of a vector's seq.
fn left_in_vector(node: Value) -> u64
    requires { IsSome (vector_left (plain node)) }
    ensures { vector_left (plain node) ≡ Some (pos result) }
{
    match node {
        Value::Node(node) => left_in_node(node),
        _ => unreachable!(),
    }
}

fn left_in_node(node: Node) -> u64
    requires { IsSome (vector_left (plain (V.Node node))) }
    ensures { vector_left (plain (V.Node node)) ≡ Some (pos result) }
{
    match node {
        Node::VecSeq { depth, items, at } => items_left(depth, items, at),
        _ => unreachable!(),
    }
}

fn items_left(depth: u32, items: PVec<Value>, at: u32) -> u64
    ensures { vector_left (plain (V.Node (N.VecSeq depth items at))) ≡ Some (pos result) }
{
    let left = items_behind(items, at);
    left
}

fn items_behind(items: PVec<Value>, at: u32) -> u64
    ensures { result ≡ length items - at }
{
    items.len().saturating_sub(at as usize) as u64
}

/// An element was counted.
#[tactic(auto, using(crate::proofs::Counts::count_steps, crate::proofs::Counts::count_over))]
pub(crate) fn count_step(alloc: Global, count: i64, place: Cursor) -> Result<Next<State>, NoMemory>
    ensures { IfOk result (λ r. Takes (left_step (T.Count count place)) r) }
{
    if count == 9223372036854775807 {
        return Ok(too_many(place));
    }
    let count = count + 1;
    let rest = step_cursor(place)?;
    Ok(resume(alloc, AtSeq::Count { count }, rest)?)
}

/// There are more elements than a count may say.
fn too_many(place: Cursor) -> Next<State>
    ensures { Takes (throw Overflow) result }
{
    fails(Thrown::Overflow)
}
