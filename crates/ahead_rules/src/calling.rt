//! The calls that `pmap` makes ahead: each is a future of its own.
ghost use Rattle.std.specs.Prelude.{◌≡◌, ◌<◌, ◌≤◌, ◌+◌, [], ◌∷◌, length, drop, IfOk, true, None};
ghost use Rattle.seq_plan.specs.Cursors.{stands};
ghost use Rattle.seq_plan.specs.Lists.{items_and};
ghost use Rattle.seq_plan.specs.WellFormed.{sights};
ghost use Rattle.seq_turns.specs.Seen.{seen};
ghost use Rattle.seq_turns.specs.Turning.{Takes};
ghost use Rattle.seq_values.specs.Model as M;
ghost use Rattle.seq_values.specs.Plain.{plain, plains};
ghost use Rattle.seq_values.specs.WellFormedTerms.{takes};
ghost use Rattle.seq_values.specs.declared.words.Op.TheVariants as O;
ghost use Rattle.ahead_rows.specs.Table.{rets_on, start_each, call_rule};
ghost use Rattle.ahead_rules.specs.Left.{running, left_seq, left_value, left_part};
ghost use Rattle.ahead_rules.specs.declared.state.AtSeq.TheVariants as Q;
ghost use Rattle.ahead_rules.specs.declared.state.AtValue.TheVariants as V;
ghost use Rattle.ahead_rules.specs.declared.state.AtPart.TheVariants as P;

use crate::handing::{makes_part, taken_apart};
use crate::state::{AtPart, AtValue, ChunkLeft, Size, State};
use seq_plan::Cursor;
use seq_turns::{
    Chunked, Gathered, Next, Proper, ProperList, Seen, calls, chunk_of_cursor, gives, gives_nil,
};
use seq_values::{CellId, Kind, Op};
use seq_vector::NoMemory;
use std::alloc::Global;

/// The seq of the collection is there.
pub(crate) fn rets_at(
    alloc: Global,
    function: Proper,
    chunk: Size,
    what: Seen,
) -> Result<Next<State>, NoMemory>
    ensures { IfOk result (λ r. Takes running (left_seq (Q.Rets function chunk) (seen what)) r) }
{
    match what {
        Seen::Nil => Ok(gives_nil(State::Over)),
        Seen::At(place) => rets_place(alloc, function, chunk, place),
    }
}

fn rets_place(
    alloc: Global,
    function: Proper,
    chunk: Size,
    place: Cursor,
) -> Result<Next<State>, NoMemory>
    ensures { IfOk result (λ r. Takes running (left_seq (Q.Rets function chunk) (stands place)) r) }
{
    let chunks = chunk_of_cursor(alloc, place, chunk.elements)?;
    match chunks {
        Chunked::Single(place) => rets_one(alloc, function, place),
        Chunked::Whole { items, rest } => rets_chunk(alloc, function, items, rest),
    }
}

/// The chunk is there.
fn rets_chunk(
    alloc: Global,
    function: Proper,
    items: ProperList,
    rest: Proper,
) -> Result<Next<State>, NoMemory>
    ensures { IfOk result (λ r. Takes running (start_each (plain function.value) [] (plains items.items) (λ ys. items_and ys O.Rets (plain function.value ∷ plain rest.value ∷ []))) r) }
{
    let none = Gathered::none(alloc);
    let next = rets_next(alloc, function, none, items, 0, rest)?;
    Ok(next)
}

/// The call of the first element alone is made.
fn rets_one(alloc: Global, function: Proper, place: Cursor) -> Result<Next<State>, NoMemory>
    ensures { IfOk result (λ r. Takes running (rets_on (plain function.value) (stands place) None) r) }
{
    let parts = taken_apart(alloc, place)?;
    let called = function.share()?;
    let args = ProperList::two(alloc, called, parts.first)?;
    let rest = parts.rest.proper();
    Ok(makes_part(
        AtPart::RetsOne { function, rest },
        Kind::Future,
        Op::Call,
        args,
    ))
}

/// The call of the next element of the chunk is made, or the part for what comes after the chunk.
fn rets_next(
    alloc: Global,
    function: Proper,
    answers: Gathered,
    items: ProperList,
    at: usize,
    rest: Proper,
) -> Result<Next<State>, NoMemory>
    requires { (length answers.items.items ≤ at) × (at ≤ length items.items) }
    ensures { IfOk result (λ r. Takes running (start_each (plain function.value) (plains answers.items.items) (plains (drop at items.items)) (λ ys. items_and ys O.Rets (plain function.value ∷ plain rest.value ∷ []))) r) }
{
    let item = items.get(at)?;
    match item {
        None => rets_done(alloc, function, answers, items, at, rest),
        Some(first) => rets_calls(alloc, function, answers, items, at, rest, first),
    }
}

fn rets_done(
    alloc: Global,
    function: Proper,
    answers: Gathered,
    items: ProperList,
    at: usize,
    rest: Proper,
) -> Result<Next<State>, NoMemory>
    requires { drop at items.items ≡ [] }
    ensures { IfOk result (λ r. Takes running (start_each (plain function.value) (plains answers.items.items) (plains (drop at items.items)) (λ ys. items_and ys O.Rets (plain function.value ∷ plain rest.value ∷ []))) r) }
{
    let args = ProperList::two(alloc, function, rest)?;
    let next = items_done(alloc, answers, Op::Rets, args)?;
    Ok(next)
}

/// The part for what comes after the chunk is made.
pub(crate) fn items_done(
    alloc: Global,
    answers: Gathered,
    op: Op,
    args: ProperList,
) -> Result<Next<State>, NoMemory>
    requires { takes op (sights (M.values (plains args.items))) ≡ true }
    ensures { IfOk result (λ r. Takes running (items_and (plains answers.items.items) op (plains args.items)) r) }
{
    let items = answers.listed(alloc)?;
    Ok(makes_part(AtPart::Items { items }, Kind::Lazy, op, args))
}

fn rets_calls(
    alloc: Global,
    function: Proper,
    answers: Gathered,
    items: ProperList,
    at: usize,
    rest: Proper,
    first: Proper,
) -> Result<Next<State>, NoMemory>
    requires within { length answers.items.items ≤ at }
    requires first { drop at items.items ≡ first.value ∷ drop (at + 1) items.items }
    ensures { IfOk result (λ r. Takes running (start_each (plain function.value) (plains answers.items.items) (plains (drop at items.items)) (λ ys. items_and ys O.Rets (plain function.value ∷ plain rest.value ∷ []))) r) }
{
    let called = function.share()?;
    let args = ProperList::two(alloc, called, first)?;
    let chunk = taken(answers, items, at);
    Ok(makes_part(
        AtPart::Rets {
            function,
            chunk,
            rest,
        },
        Kind::Future,
        Op::Call,
        args,
    ))
}

/// The chunk of which the item at a place is taken.
pub(crate) fn taken(answers: Gathered, items: ProperList, at: usize) -> ChunkLeft
    requires within { length answers.items.items ≤ at }
    requires some { at < length items.items }
    ensures answers { result.answers.items.items ≡ answers.items.items }
    ensures items { result.items.items ≡ items.items }
    ensures at { result.at ≡ at + 1 }
{
    ChunkLeft {
        answers,
        items,
        at: at + 1,
    }
}

/// The call of an element of a chunk was made: its part stands for the answer.
pub(crate) fn rets_made(
    alloc: Global,
    function: Proper,
    chunk: ChunkLeft,
    rest: Proper,
    id: CellId,
) -> Result<Next<State>, NoMemory>
    ensures { IfOk result (λ r. Takes running (left_part (P.Rets function chunk rest) id) r) }
{
    let ChunkLeft { answers, items, at } = chunk;
    let part = Proper::of_part(id);
    let answers = answers.and(part)?;
    let next = rets_next(alloc, function, answers, items, at, rest)?;
    Ok(next)
}

/// The call of a single element was made.
pub(crate) fn rets_one_made(
    alloc: Global,
    function: Proper,
    rest: Proper,
    id: CellId,
) -> Result<Next<State>, NoMemory>
    ensures { IfOk result (λ r. Takes running (left_part (P.RetsOne function rest) id) r) }
{
    let first = Proper::of_part(id);
    let args = ProperList::two(alloc, function, rest)?;
    Ok(makes_part(AtPart::One { first }, Kind::Lazy, Op::Rets, args))
}

/// The call itself, of a future.
pub(crate) fn call_begins(
    alloc: Global,
    function: Proper,
    only: Proper,
) -> Result<Next<State>, NoMemory>
    ensures { IfOk result (λ r. Takes running (call_rule (plain function.value) (plain only.value)) r) }
{
    let args = ProperList::one(alloc, only)?;
    Ok(calls(State::Value(AtValue::Call), function, args))
}

/// The call was answered.
pub(crate) fn call_answered(answer: Proper) -> Next<State>
    ensures { Takes running (left_value V.Call (plain answer.value)) result }
{
    gives(State::Over, answer)
}
