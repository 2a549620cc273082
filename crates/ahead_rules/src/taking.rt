//! `seque`: futures take elements ahead of those that are asked.
ghost use Rattle.std.specs.Prelude.{◌≡◌, ◌-ℤ◌, [], ◌∷◌, IfOk, pos, ◌<ℤ◌};
ghost use Rattle.seq_base.specs.declared.thrown.Thrown.TheVariants.{Index};
ghost use Rattle.seq_plan.specs.Arguments.{at_least_one};
ghost use Rattle.seq_plan.specs.Cursors.{stands};
ghost use Rattle.seq_plan.specs.Plan.{seq, go, give, throw, ahead_from};
ghost use Rattle.seq_turns.specs.Seen.{seen, rested};
ghost use Rattle.seq_turns.specs.Turning.{Takes};
ghost use Rattle.seq_values.specs.Model as M;
ghost use Rattle.seq_values.specs.Plain.{plain};
ghost use Rattle.ahead_rows.specs.Table.{seque_rule, ahead_rule, ahead_of_rule, near_rule};
ghost use Rattle.ahead_rules.specs.Left.{running, left_seq, left_step, left_value, left_part};
ghost use Rattle.ahead_rules.specs.declared.state.AtSeq.TheVariants as Q;
ghost use Rattle.ahead_rules.specs.declared.state.AtStep.TheVariants as T;
ghost use Rattle.ahead_rules.specs.declared.state.AtValue.TheVariants as V;
ghost use Rattle.ahead_rules.specs.declared.state.AtPart.TheVariants as P;

use crate::handing::{as_part, makes_part, taken_apart};
use crate::state::{AtPart, AtSeq, AtStep, AtValue, State};
use seq_base::Thrown;
use seq_plan::Cursor;
use seq_turns::{
    Next, Proper, ProperList, Rest, Seen, Sought, gives, gives_nil, needs, rest_value, seek, seeks,
    step_cursor, throws, visits,
};
use seq_values::{CellId, Kind, Op};
use seq_vector::NoMemory;
use std::alloc::Global;

/// `seque`: the future that takes the first elements is made.
pub(crate) fn seque_begins(
    alloc: Global,
    count: i64,
    source: Proper,
) -> Result<Next<State>, NoMemory>
    ensures { IfOk result (λ r. Takes running (at_least_one count (seque_rule count (plain source.value))) r) }
{
    if count < 1 {
        return Ok(no_count(source));
    }
    seque_ahead(alloc, count, source)
}

/// There is nothing to take ahead.
fn no_count(source: Proper) -> Next<State>
    ensures { Takes running (throw Index) result }
{
    throws(State::Over, Thrown::Index)
}

fn seque_ahead(alloc: Global, count: i64, source: Proper) -> Result<Next<State>, NoMemory>
    requires { pos 0 <ℤ count }
    ensures { IfOk result (λ r. Takes running (seque_rule count (plain source.value)) r) }
{
    let taken = source.share()?;
    let number = Proper::of_int(count);
    let args = ProperList::two(alloc, number, taken)?;
    Ok(makes_part(AtPart::Seque { source }, Kind::Future, Op::Ahead, args))
}

/// That future was made: the sequence itself is.
pub(crate) fn seque_made(alloc: Global, source: Proper, id: CellId) -> Result<Next<State>, NoMemory>
    ensures { IfOk result (λ r. Takes running (left_part (P.Seque source) id) r) }
{
    let part = Proper::of_part(id);
    let args = ProperList::two(alloc, source, part)?;
    Ok(makes_part(AtPart::Cell, Kind::Lazy, Op::Near, args))
}

/// So many elements are to be taken, and then what is left is given.
pub(crate) fn ahead_begins(count: i64, left: Proper) -> Result<Next<State>, NoMemory>
    ensures { IfOk result (λ r. Takes running (ahead_rule count (plain left.value)) r) }
{
    if count <= 0 {
        return Ok(gives(State::Over, left));
    }
    ahead_on(count, left)
}

/// The `seq` of what is left is taken.
fn ahead_on(count: i64, left: Proper) -> Result<Next<State>, NoMemory>
    ensures { IfOk result (λ r. Takes running (seq (plain left.value) (λ s. go ahead_from (M.int count ∷ plain left.value ∷ s ∷ []) give)) r) }
{
    let value = left.share()?;
    let sought = seek(value);
    match sought {
        Sought::Now(what) => Ok(ahead_at(count, left, what)),
        Sought::Ask(value) => Ok(seeks(State::Seq(AtSeq::Ahead { count, left }), value)),
    }
}

/// The seq of what is left is there.
pub(crate) fn ahead_at(count: i64, left: Proper, what: Seen) -> Next<State>
    ensures { Takes running (left_seq (Q.Ahead count left) (seen what)) result }
{
    match what {
        Seen::Nil => ahead_ends(count, left),
        Seen::At(place) => ahead_goes(count, left, place),
    }
}

/// The collection came to its end.
fn ahead_ends(count: i64, left: Proper) -> Next<State>
    ensures { Takes running (left_seq (Q.Ahead count left) M.nil) result }
{
    gives(State::Over, left)
}

/// An element is taken.
fn ahead_goes(count: i64, left: Proper, place: Cursor) -> Next<State>
    ensures { Takes running (left_seq (Q.Ahead count left) (stands place)) result }
{
    let_go(left);
    visits(State::Step(AtStep::Ahead { count, place }))
}

/// A value that is not needed any more.
fn let_go(value: Proper) {}

/// An element was taken.
pub(crate) fn ahead_step(alloc: Global, count: i64, place: Cursor) -> Result<Next<State>, NoMemory>
    ensures { IfOk result (λ r. Takes running (left_step (T.Ahead count place)) r) }
{
    let rest = step_cursor(place)?;
    if count <= 1 {
        return given_rest(alloc, rest);
    }
    let less = one_less(count);
    ahead_further(less, rest)
}

/// One less.
fn one_less(count: i64) -> i64
    requires { pos 1 <ℤ count }
    ensures { result ≡ count -ℤ pos 1 }
{
    count - 1
}

/// What is left is given, unasked.
fn given_rest(alloc: Global, rest: Rest) -> Result<Next<State>, NoMemory>
    ensures { IfOk result (λ r. Takes running (give (rested rest)) r) }
{
    let value = rest_value(alloc, rest)?;
    Ok(gives(State::Over, value))
}

/// The next element is taken: within a node that is so at once.
fn ahead_further(count: i64, rest: Rest) -> Result<Next<State>, NoMemory>
    ensures { IfOk result (λ r. Takes running (seq (rested rest) (λ s. go ahead_from (M.int count ∷ rested rest ∷ s ∷ []) give)) r) }
{
    match rest {
        Rest::Within(place) => Ok(ahead_within(count, place)),
        Rest::Beyond(left) => ahead_on(count, left),
    }
}

fn ahead_within(count: i64, place: Cursor) -> Next<State>
    ensures { Takes running (seq (stands place) (λ s. go ahead_from (M.int count ∷ stands place ∷ s ∷ []) give)) result }
{
    visits(State::Step(AtStep::Ahead { count, place }))
}

/// One further element than the future before: that is asked.
pub(crate) fn ahead_of_begins(before: Proper) -> Next<State>
    ensures { Takes running (ahead_of_rule (plain before.value)) result }
{
    let part = as_part(before);
    match part {
        None => throws(State::Over, Thrown::BadType),
        Some(id) => needs(State::Value(AtValue::AheadOf), id),
    }
}

/// The future before was asked.
pub(crate) fn ahead_of_answered(answer: Proper) -> Result<Next<State>, NoMemory>
    ensures { IfOk result (λ r. Takes running (left_value V.AheadOf (plain answer.value)) r) }
{
    let next = ahead_on(1, answer)?;
    Ok(next)
}

/// The sequence itself: the `seq` of the collection is taken.
pub(crate) fn near_begins(
    alloc: Global,
    source: Proper,
    ahead: CellId,
) -> Result<Next<State>, NoMemory>
    ensures { IfOk result (λ r. Takes running (near_rule (plain source.value) (M.cell ahead)) r) }
{
    let sought = seek(source);
    match sought {
        Sought::Now(what) => near_at(alloc, ahead, what),
        Sought::Ask(value) => Ok(seeks(State::Seq(AtSeq::Near { ahead }), value)),
    }
}

/// The seq of the collection is there.
pub(crate) fn near_at(alloc: Global, ahead: CellId, what: Seen) -> Result<Next<State>, NoMemory>
    ensures { IfOk result (λ r. Takes running (left_seq (Q.Near ahead) (seen what)) r) }
{
    match what {
        Seen::Nil => Ok(gives_nil(State::Over)),
        Seen::At(place) => near_place(alloc, ahead, place),
    }
}

/// One more future is started.
fn near_place(alloc: Global, ahead: CellId, place: Cursor) -> Result<Next<State>, NoMemory>
    ensures { IfOk result (λ r. Takes running (left_seq (Q.Near ahead) (stands place)) r) }
{
    let parts = taken_apart(alloc, place)?;
    let first = parts.first;
    let rest = parts.rest.proper();
    let part = Proper::of_part(ahead);
    let args = ProperList::one(alloc, part)?;
    Ok(makes_part(
        AtPart::Near { first, rest },
        Kind::Future,
        Op::AheadOf,
        args,
    ))
}

/// That future was made: the part for the rest is.
pub(crate) fn near_made(
    alloc: Global,
    first: Proper,
    rest: Proper,
    id: CellId,
) -> Result<Next<State>, NoMemory>
    ensures { IfOk result (λ r. Takes running (left_part (P.Near first rest) id) r) }
{
    let part = Proper::of_part(id);
    let args = ProperList::two(alloc, rest, part)?;
    Ok(makes_part(AtPart::One { first }, Kind::Lazy, Op::Near, args))
}
