//! `take` and `drop`.
ghost use Rattle.std.specs.Prelude.{◌≡◌, [], ◌∷◌, IfOk};
ghost use Rattle.lazy_rules.specs.Left.{left_seq, left_step, Takes};
ghost use Rattle.lazy_rules.specs.declared.state.AtSeq.TheVariants as Q;
ghost use Rattle.lazy_rules.specs.declared.state.AtStep.TheVariants as T;
ghost use Rattle.seq_plan.specs.Cursors.{stands};
ghost use Rattle.seq_turns.specs.Seen.{seen};

use crate::applying::give_node;
use crate::made_terms::{count_term, first_then};
use crate::state::{AtSeq, AtStep, State};
use crate::ways::{gives_nil, seeks, visits};
use seq_plan::Cursor;
use seq_turns::{Next, Seen, Sought, Split, rest_value, seek_rest, split_cursor, step_cursor};
use seq_values::Op;
use seq_vector::NoMemory;
use std::alloc::Global;

/// The seq is there, of which so many are taken after the first one.
pub(crate) fn take_at(alloc: Global, left: i64, what: Seen) -> Result<Next<State>, NoMemory>
    ensures { IfOk result (λ r. Takes (left_seq (Q.Take left) (seen what)) r) }
{
    match what {
        Seen::Nil => Ok(gives_nil()),
        Seen::At(place) => take_place(alloc, left, place),
    }
}

#[tactic(auto, using(crate::proofs::DropTurns::take_first))]
fn take_place(alloc: Global, left: i64, place: Cursor) -> Result<Next<State>, NoMemory>
    ensures { IfOk result (λ r. Takes (left_seq (Q.Take left) (stands place)) r) }
{
    let Split { first, rest } = split_cursor(place)?;
    let rest = rest_value(alloc, rest)?;
    let term = count_term(alloc, Op::Take, left, rest)?;
    Ok(first_then(first, term))
}

/// The seq is there, of which so many are dropped.
pub(crate) fn drop_at(alloc: Global, count: i64, what: Seen) -> Result<Next<State>, NoMemory>
    ensures { IfOk result (λ r. Takes (left_seq (Q.Drop count) (seen what)) r) }
{
    match what {
        Seen::Nil => Ok(gives_nil()),
        Seen::At(place) => drop_place(alloc, count, place),
    }
}

#[tactic(auto, using(crate::proofs::DropTurns::drop_goes, crate::proofs::DropTurns::drop_here))]
fn drop_place(alloc: Global, count: i64, place: Cursor) -> Result<Next<State>, NoMemory>
    ensures { IfOk result (λ r. Takes (left_seq (Q.Drop count) (stands place)) r) }
{
    if count <= 0 {
        let next = give_node(alloc, place)?;
        return Ok(next);
    }
    Ok(visits(AtStep::Drop {
        count: count - 1,
        place,
    }))
}

/// An element was dropped.
pub(crate) fn drop_step(alloc: Global, count: i64, place: Cursor) -> Result<Next<State>, NoMemory>
    ensures { IfOk result (λ r. Takes (left_step (T.Drop count place)) r) }
{
    let rest = step_cursor(place)?;
    match seek_rest(rest) {
        Sought::Now(what) => drop_at(alloc, count, what),
        Sought::Ask(value) => Ok(seeks(AtSeq::Drop { count }, value)),
    }
}
