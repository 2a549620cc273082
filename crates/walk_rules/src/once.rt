//! `seq`, `first`, `second`, `rest`, `next` and `empty?`: the words that take one seq.
ghost use Rattle.std.specs.Prelude.{◌≡◌, false, IfOk};
ghost use Rattle.lazy_rows.specs.Walks.{first_rule};
ghost use Rattle.seq_plan.specs.Arguments.{of_value};
ghost use Rattle.seq_plan.specs.Cursors.{stands};
ghost use Rattle.seq_plan.specs.Nodes.{first_of, rest_of};
ghost use Rattle.seq_plan.specs.Plan.{seq, give};
ghost use Rattle.seq_turns.specs.Seen.{seen};
ghost use Rattle.seq_values.specs.Model as M;
ghost use Rattle.seq_values.specs.Plain.{plains};
ghost use Rattle.walk_rules.specs.Left.{left_once, Takes};

use crate::state::{AtSeq, Once, State};
use crate::ways::{asks_seq, ends, ends_nil, ends_truth};
use seq_plan::Cursor;
use seq_turns::{
    Next, Proper, Seen, Sought, cursor_value, first_of_cursor, rest_value, seek_rest, step_cursor,
};
use seq_vector::NoMemory;
use std::alloc::Global;

/// The seq is there.
pub(crate) fn once_at(alloc: Global, once: Once, what: Seen) -> Result<Next<State>, NoMemory>
    ensures { IfOk result (λ r. Takes (left_once once (seen what)) r) }
{
    match what {
        Seen::Nil => Ok(at_end(once)),
        Seen::At(place) => at_place(alloc, once, place),
    }
}

/// There is no element.
fn at_end(once: Once) -> Next<State>
    ensures { Takes (left_once once M.nil) result }
{
    match once {
        Once::Seq => ends_nil(),
        Once::First => ends_nil(),
        Once::Second => ends_nil(),
        Once::Rest => ends(Proper::empty()),
        Once::Next => ends_nil(),
        Once::IsEmpty => ends_truth(true),
    }
}

/// There is an element.
fn at_place(alloc: Global, once: Once, place: Cursor) -> Result<Next<State>, NoMemory>
    ensures { IfOk result (λ r. Takes (left_once once (stands place)) r) }
{
    match once {
        Once::Seq => gives_node(alloc, place),
        Once::First => first_there(place),
        Once::Second => second_there(place),
        Once::Rest => rest_there(alloc, place),
        Once::Next => next_there(alloc, place),
        Once::IsEmpty => Ok(some_there(place)),
    }
}

#[tactic(auto, using(crate::proofs::Onces::some_first))]
fn first_there(place: Cursor) -> Result<Next<State>, NoMemory>
    ensures { IfOk result (λ r. Takes (left_once Once.First (stands place)) r) }
{
    let next = gives_first(place)?;
    Ok(next)
}

#[tactic(auto, using(crate::proofs::Onces::some_second))]
fn second_there(place: Cursor) -> Result<Next<State>, NoMemory>
    ensures { IfOk result (λ r. Takes (left_once Once.Second (stands place)) r) }
{
    let next = asks_second(place)?;
    Ok(next)
}

#[tactic(auto, using(crate::proofs::Onces::some_rest))]
fn rest_there(alloc: Global, place: Cursor) -> Result<Next<State>, NoMemory>
    ensures { IfOk result (λ r. Takes (left_once Once.Rest (stands place)) r) }
{
    let next = gives_rest(alloc, place)?;
    Ok(next)
}

#[tactic(auto, using(crate::proofs::Onces::some_next))]
fn next_there(alloc: Global, place: Cursor) -> Result<Next<State>, NoMemory>
    ensures { IfOk result (λ r. Takes (left_once Once.Next (stands place)) r) }
{
    let next = asks_next(alloc, place)?;
    Ok(next)
}

#[tactic(auto, using(crate::proofs::Onces::some_there))]
fn some_there(place: Cursor) -> Next<State>
    ensures { Takes (left_once Once.IsEmpty (stands place)) result }
{
    gives_some(place)
}

#[tactic(auto, using(crate::proofs::Taking::gives_same))]
fn gives_node(alloc: Global, place: Cursor) -> Result<Next<State>, NoMemory>
    ensures { IfOk result (λ r. Takes (give (stands place)) r) }
{
    let node = cursor_value(alloc, place)?;
    Ok(ends(node))
}

#[tactic(auto, using(crate::proofs::Taking::gives_same))]
fn gives_first(place: Cursor) -> Result<Next<State>, NoMemory>
    ensures { IfOk result (λ r. Takes (give (first_of (stands place))) r) }
{
    let first = first_of_cursor(&place)?;
    Ok(ends(first))
}

/// `first` of the rest.
fn asks_second(place: Cursor) -> Result<Next<State>, NoMemory>
    ensures { IfOk result (λ r. Takes (first_rule (rest_of (stands place))) r) }
{
    let rest = step_cursor(place)?;
    match seek_rest(rest) {
        Sought::Now(what) => first_at(what),
        Sought::Ask(value) => Ok(asks_seq(AtSeq::Once(Once::First), value)),
    }
}

#[tactic(auto, using(crate::proofs::Onces::some_first))]
fn first_at(what: Seen) -> Result<Next<State>, NoMemory>
    ensures { IfOk result (λ r. Takes (left_once Once.First (seen what)) r) }
{
    match what {
        Seen::Nil => Ok(ends_nil()),
        Seen::At(place) => Ok(gives_first(place)?),
    }
}

#[tactic(auto, using(crate::proofs::Taking::gives_same))]
fn gives_rest(alloc: Global, place: Cursor) -> Result<Next<State>, NoMemory>
    ensures { IfOk result (λ r. Takes (give (rest_of (stands place))) r) }
{
    let rest = step_cursor(place)?;
    let value = rest_value(alloc, rest)?;
    Ok(ends(value))
}

/// The seq of the rest.
fn asks_next(alloc: Global, place: Cursor) -> Result<Next<State>, NoMemory>
    ensures { IfOk result (λ r. Takes (seq (rest_of (stands place)) give) r) }
{
    let rest = step_cursor(place)?;
    match seek_rest(rest) {
        Sought::Now(what) => gives_seen(alloc, what),
        Sought::Ask(value) => Ok(asks_seq(AtSeq::Once(Once::Seq), value)),
    }
}

fn gives_seen(alloc: Global, what: Seen) -> Result<Next<State>, NoMemory>
    ensures { IfOk result (λ r. Takes (give (seen what)) r) }
{
    match what {
        Seen::Nil => Ok(ends_nil()),
        Seen::At(place) => gives_node(alloc, place),
    }
}

/// `empty?` of a node with an element.
fn gives_some(place: Cursor) -> Next<State>
    ensures { Takes (give (M.bool false)) result }
{
    ends_truth(false)
}
