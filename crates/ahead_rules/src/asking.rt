//! The answers of `pmap` that are left are asked as they are wanted.
ghost use Rattle.std.specs.Prelude.{◌≡◌, ◌<◌, ◌≤◌, ◌+◌, [], ◌∷◌, ◌++◌, length, drop, IfOk, IsTrue, None};
ghost use Rattle.seq_base.specs.declared.thrown.Thrown.TheVariants.{BadType};
ghost use Rattle.seq_plan.specs.Cursors.{stands};
ghost use Rattle.seq_plan.specs.Lists.{items_and};
ghost use Rattle.seq_plan.specs.Nodes.{ask_each};
ghost use Rattle.seq_plan.specs.Plan.{ask, throw};
ghost use Rattle.seq_turns.specs.Seen.{seen};
ghost use Rattle.seq_turns.specs.Turning.{Takes};
ghost use Rattle.seq_values.specs.Plain.{plain, plains};
ghost use Rattle.seq_plan.specs.WellFormed.{sight};
ghost use Rattle.seq_values.specs.WellFormedTerms.{is_sequence};
ghost use Rattle.seq_values.specs.declared.words.Op.TheVariants as O;
ghost use Rattle.ahead_rows.specs.Table.{derefs_on};
ghost use Rattle.ahead_rules.specs.Left.{running, left_seq, left_value};
ghost use Rattle.ahead_rules.specs.declared.state.AtSeq.TheVariants as Q;
ghost use Rattle.ahead_rules.specs.declared.state.AtValue.TheVariants as V;

use crate::calling::{items_done, taken};
use crate::handing::{as_part, makes_part, taken_apart};
use crate::state::{AtPart, AtValue, ChunkLeft, Sequence, Size, State};
use seq_base::Thrown;
use seq_plan::Cursor;
use seq_turns::{
    Chunked, Gathered, Next, Proper, ProperList, Seen, chunk_of_cursor, gives_nil, needs, throws,
};
use seq_values::{CellId, Kind, Op};
use seq_vector::NoMemory;
use std::alloc::Global;

/// The seq of the collection is there.
pub(crate) fn derefs_at(alloc: Global, chunk: Size, what: Seen) -> Result<Next<State>, NoMemory>
    ensures { IfOk result (λ r. Takes running (left_seq (Q.Derefs chunk) (seen what)) r) }
{
    match what {
        Seen::Nil => Ok(gives_nil(State::Over)),
        Seen::At(place) => derefs_place(alloc, chunk, place),
    }
}

fn derefs_place(alloc: Global, chunk: Size, place: Cursor) -> Result<Next<State>, NoMemory>
    ensures { IfOk result (λ r. Takes running (left_seq (Q.Derefs chunk) (stands place)) r) }
{
    let chunks = chunk_of_cursor(alloc, place, chunk.elements)?;
    match chunks {
        Chunked::Single(place) => derefs_one(alloc, place),
        Chunked::Whole { items, rest } => derefs_chunk(alloc, items, rest),
    }
}

fn derefs_chunk(alloc: Global, items: ProperList, rest: Proper) -> Result<Next<State>, NoMemory>
    requires { IsTrue (is_sequence (sight (plain rest.value))) }
    ensures { IfOk result (λ r. Takes running (ask_each [] (plains items.items) (λ ys. items_and ys O.Derefs (plain rest.value ∷ []))) r) }
{
    let rest = Sequence { value: rest.value };
    let none = Gathered::none(alloc);
    let next = derefs_next(alloc, none, items, 0, rest)?;
    Ok(next)
}

/// The part that a single element is is asked.
fn derefs_one(alloc: Global, place: Cursor) -> Result<Next<State>, NoMemory>
    ensures { IfOk result (λ r. Takes running (derefs_on (stands place) None) r) }
{
    let parts = taken_apart(alloc, place)?;
    let rest = parts.rest;
    let part = as_part(parts.first);
    match part {
        None => Ok(no_part(rest)),
        Some(id) => Ok(needs(State::Value(AtValue::DerefsOne { rest }), id)),
    }
}

/// What stands in place of a part is none. What comes after it is let go.
fn no_part(rest: Sequence) -> Next<State>
    ensures { Takes running (throw BadType) result }
{
    throws(State::Over, Thrown::BadType)
}

/// The next part of the chunk is asked, or the part for what comes after the chunk is made.
fn derefs_next(
    alloc: Global,
    answers: Gathered,
    items: ProperList,
    at: usize,
    rest: Sequence,
) -> Result<Next<State>, NoMemory>
    requires { (length answers.items.items ≤ at) × (at ≤ length items.items) }
    ensures { IfOk result (λ r. Takes running (ask_each (plains answers.items.items) (plains (drop at items.items)) (λ ys. items_and ys O.Derefs (plain rest.value ∷ []))) r) }
{
    let item = items.get(at)?;
    match item {
        None => derefs_done(alloc, answers, items, at, rest),
        Some(first) => Ok(derefs_item(answers, items, at, rest, first)),
    }
}

fn derefs_item(
    answers: Gathered,
    items: ProperList,
    at: usize,
    rest: Sequence,
    first: Proper,
) -> Next<State>
    requires within { length answers.items.items ≤ at }
    requires first { drop at items.items ≡ first.value ∷ drop (at + 1) items.items }
    ensures { Takes running (ask_each (plains answers.items.items) (plains (drop at items.items)) (λ ys. items_and ys O.Derefs (plain rest.value ∷ []))) result }
{
    let part = as_part(first);
    match part {
        None => no_part_among(answers, items, rest),
        Some(id) => derefs_asks(answers, items, at, rest, id),
    }
}

/// An item of the chunk is no part.
fn no_part_among(answers: Gathered, items: ProperList, rest: Sequence) -> Next<State>
    ensures { Takes running (throw BadType) result }
{
    throws(State::Over, Thrown::BadType)
}

fn derefs_done(
    alloc: Global,
    answers: Gathered,
    items: ProperList,
    at: usize,
    rest: Sequence,
) -> Result<Next<State>, NoMemory>
    requires { drop at items.items ≡ [] }
    ensures { IfOk result (λ r. Takes running (ask_each (plains answers.items.items) (plains (drop at items.items)) (λ ys. items_and ys O.Derefs (plain rest.value ∷ []))) r) }
{
    let source = rest.proper();
    let args = ProperList::one(alloc, source)?;
    let next = items_done(alloc, answers, Op::Derefs, args)?;
    Ok(next)
}

fn derefs_asks(
    answers: Gathered,
    items: ProperList,
    at: usize,
    rest: Sequence,
    id: CellId,
) -> Next<State>
    requires within { length answers.items.items ≤ at }
    requires some { at < length items.items }
    ensures { Takes running (ask id (λ y. ask_each (plains answers.items.items ++ y ∷ []) (plains (drop (at + 1) items.items)) (λ ys. items_and ys O.Derefs (plain rest.value ∷ [])))) result }
{
    let chunk = taken(answers, items, at);
    needs(State::Value(AtValue::Derefs { chunk, rest }), id)
}

/// A part of a chunk was asked.
pub(crate) fn derefs_answered(
    alloc: Global,
    chunk: ChunkLeft,
    rest: Sequence,
    answer: Proper,
) -> Result<Next<State>, NoMemory>
    ensures { IfOk result (λ r. Takes running (left_value (V.Derefs chunk rest) (plain answer.value)) r) }
{
    let ChunkLeft { answers, items, at } = chunk;
    let answers = answers.and(answer)?;
    let next = derefs_next(alloc, answers, items, at, rest)?;
    Ok(next)
}

/// The part of a single element was asked.
pub(crate) fn derefs_one_answered(
    alloc: Global,
    rest: Sequence,
    answer: Proper,
) -> Result<Next<State>, NoMemory>
    ensures { IfOk result (λ r. Takes running (left_value (V.DerefsOne rest) (plain answer.value)) r) }
{
    let source = rest.proper();
    let args = ProperList::one(alloc, source)?;
    Ok(makes_part(AtPart::One { first: answer }, Kind::Lazy, Op::Derefs, args))
}
