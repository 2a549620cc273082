//! A function that is called with the first element of a node: `map`, `filter`, `keep`, `take-while`, `drop-while`, `mapcat`.
ghost use Rattle.std.specs.Prelude.{◌≡◌, ◌<◌, [], ◌∷◌, IfOk};
ghost use Rattle.lazy_rules.specs.Left.{apply_at, calls_first, element_answered, left_part, sift_op, kept_of, Takes};
ghost use Rattle.lazy_rules.specs.declared.state.AtPart.TheVariants as P;
ghost use Rattle.lazy_rules.specs.declared.state.Purpose.TheVariants as U;
ghost use Rattle.lazy_rows.specs.Terms.{sift_on};
ghost use Rattle.seq_plan.specs.Cursors.{stands};
ghost use Rattle.seq_plan.specs.Nodes.{chunk_of, rest_of, is_truthy};
ghost use Rattle.seq_plan.specs.Plan.{seq, go, give, drop_while_from};
ghost use Rattle.seq_turns.specs.Seen.{seen};
ghost use Rattle.seq_values.specs.Model as M;
ghost use Rattle.seq_values.specs.Plain.{plain};

use crate::choosing::first_kept;
use crate::made_terms::{first_and_rest, first_or_cell, pair_term, rest_term};
use crate::sifting::sift_chunk;
use crate::state::{Applying, AtPart, AtSeq, AtValue, Keeps, Purpose, Sieve, State};
use crate::ways::{calls, gives, gives_nil, let_go, makes, seeks};
use seq_plan::Cursor;
use seq_turns::{
    Chunked, Gathered, Next, Proper, ProperList, Seen, Sought, chunk_of_cursor, cursor_value,
    first_of_cursor, is_truthy, seek_rest, step_cursor,
};
use seq_values::{CellId, Op};
use seq_vector::NoMemory;
use std::alloc::Global;

/// The seq of the collection is there.
pub(crate) fn apply_at(
    alloc: Global,
    applying: Applying,
    what: Seen,
) -> Result<Next<State>, NoMemory>
    ensures { IfOk result (λ r. Takes (apply_at applying.purpose applying.chunk (plain applying.function.value) (seen what)) r) }
{
    match what {
        Seen::Nil => Ok(apply_nil(applying)),
        Seen::At(place) => apply_place(alloc, applying, place),
    }
}

#[tactic(auto, using(crate::proofs::ApplyTurns::applied_to_nil))]
fn apply_nil(applying: Applying) -> Next<State>
    ensures { Takes (apply_at applying.purpose applying.chunk (plain applying.function.value) M.nil) result }
{
    let_go(applying);
    gives_nil()
}

fn apply_place(alloc: Global, applying: Applying, place: Cursor) -> Result<Next<State>, NoMemory>
    ensures { IfOk result (λ r. Takes (apply_at applying.purpose applying.chunk (plain applying.function.value) (stands place)) r) }
{
    let Applying {
        purpose,
        function,
        chunk,
    } = applying;
    match purpose {
        Purpose::Sift(keeps) => sift_place(alloc, keeps, function, chunk, place),
        Purpose::TakeWhile => call_first(
            alloc,
            Applying {
                purpose: Purpose::TakeWhile,
                function,
                chunk,
            },
            place,
        ),
        Purpose::DropWhile => call_first(
            alloc,
            Applying {
                purpose: Purpose::DropWhile,
                function,
                chunk,
            },
            place,
        ),
        Purpose::Mapcat => call_first(
            alloc,
            Applying {
                purpose: Purpose::Mapcat,
                function,
                chunk,
            },
            place,
        ),
    }
}

/// A chunk, or a single element.
fn sift_place(
    alloc: Global,
    keeps: Keeps,
    function: Proper,
    chunk: u32,
    place: Cursor,
) -> Result<Next<State>, NoMemory>
    requires { 0 < chunk }
    ensures { IfOk result (λ r. Takes (sift_on (sift_op keeps) (kept_of keeps) (plain function.value) (stands place) (chunk_of chunk (stands place))) r) }
{
    let chunked = chunk_of_cursor(alloc, place, chunk)?;
    match chunked {
        Chunked::Single(place) => call_first(
            alloc,
            Applying {
                purpose: Purpose::Sift(keeps),
                function,
                chunk,
            },
            place,
        ),
        Chunked::Whole { items, rest } => sift_chunk(
            alloc,
            Sieve {
                keeps,
                function,
                rest,
            },
            Gathered::none(alloc),
            items,
            0,
        ),
    }
}

#[tactic(auto, using(crate::proofs::ApplyTurns::element_calls))]
/// The function is called with the first element.
fn call_first(alloc: Global, applying: Applying, place: Cursor) -> Result<Next<State>, NoMemory>
    ensures { IfOk result (λ r. Takes (calls_first applying.purpose (plain applying.function.value) (stands place)) r) }
{
    let first = first_of_cursor(&place)?;
    let args = ProperList::one(alloc, first)?;
    let called = applying.function.share()?;
    Ok(calls(AtValue::Element { applying, place }, called, args))
}

/// The function answered for the first element.
pub(crate) fn element_answer(
    alloc: Global,
    applying: Applying,
    place: Cursor,
    answer: Proper,
) -> Result<Next<State>, NoMemory>
    ensures { IfOk result (λ r. Takes (element_answered applying.purpose (plain applying.function.value) (stands place) (plain answer.value)) r) }
{
    let Applying {
        purpose,
        function,
        chunk,
    } = applying;
    match purpose {
        Purpose::Sift(keeps) => single_answer(alloc, keeps, function, place, answer),
        Purpose::TakeWhile => take_while_answer(alloc, function, place, answer),
        Purpose::DropWhile => drop_while_answer(alloc, function, chunk, place, answer),
        Purpose::Mapcat => mapcat_answer(alloc, function, place, answer),
    }
}

#[tactic(auto, using(crate::proofs::ApplyTurns::single_ends, crate::proofs::MadeTerms::sift_takes))]
/// Of an element that stands alone: what is kept of it before the part for the rest, or the cell of that part.
fn single_answer(
    alloc: Global,
    keeps: Keeps,
    function: Proper,
    place: Cursor,
    answer: Proper,
) -> Result<Next<State>, NoMemory>
    ensures { IfOk result (λ r. Takes (element_answered (U.Sift keeps) (plain function.value) (stands place) (plain answer.value)) r) }
{
    let kept = first_kept(keeps, &place, answer)?;
    let term = rest_term(alloc, keeps.op(), function, place)?;
    Ok(first_or_cell(kept, term))
}

/// Whether an answer is taken as true.
fn holds(answer: Proper) -> bool
    ensures { result ≡ is_truthy (plain answer.value) }
{
    let truth = is_truthy(&answer.value);
    let_go(answer);
    truth
}

fn take_while_answer(
    alloc: Global,
    function: Proper,
    place: Cursor,
    answer: Proper,
) -> Result<Next<State>, NoMemory>
    ensures { IfOk result (λ r. Takes (element_answered U.TakeWhile (plain function.value) (stands place) (plain answer.value)) r) }
{
    if holds(answer) {
        first_and_rest(alloc, Op::TakeWhile, function, place)
    } else {
        let_go(function);
        let_go(place);
        Ok(gives_nil())
    }
}

fn drop_while_answer(
    alloc: Global,
    function: Proper,
    chunk: u32,
    place: Cursor,
    answer: Proper,
) -> Result<Next<State>, NoMemory>
    requires { 0 < chunk }
    ensures { IfOk result (λ r. Takes (element_answered U.DropWhile (plain function.value) (stands place) (plain answer.value)) r) }
{
    if holds(answer) {
        drop_while_goes(
            alloc,
            Applying {
                purpose: Purpose::DropWhile,
                function,
                chunk,
            },
            place,
        )
    } else {
        let_go(function);
        give_node(alloc, place)
    }
}

/// The first element is left out, and the next one is looked at.
fn drop_while_goes(
    alloc: Global,
    applying: Applying,
    place: Cursor,
) -> Result<Next<State>, NoMemory>
    ensures { IfOk result (λ r. Takes (seq (rest_of (stands place)) (λ t. apply_at applying.purpose applying.chunk (plain applying.function.value) t)) r) }
{
    let rest = step_cursor(place)?;
    match seek_rest(rest) {
        Sought::Now(what) => apply_at(alloc, applying, what),
        Sought::Ask(value) => Ok(seeks(AtSeq::Apply(applying), value)),
    }
}

#[tactic(auto, using(crate::proofs::Taking::gives_same))]
/// Ends with the node.
pub(crate) fn give_node(alloc: Global, place: Cursor) -> Result<Next<State>, NoMemory>
    ensures { IfOk result (λ r. Takes (give (stands place)) r) }
{
    let node = cursor_value(alloc, place)?;
    Ok(gives(node))
}

#[tactic(auto, using(crate::proofs::ApplyTurns::mapcat_makes))]
fn mapcat_answer(
    alloc: Global,
    function: Proper,
    place: Cursor,
    answer: Proper,
) -> Result<Next<State>, NoMemory>
    ensures { IfOk result (λ r. Takes (element_answered U.Mapcat (plain function.value) (stands place) (plain answer.value)) r) }
{
    let term = rest_term(alloc, Op::Mapcat, function, place)?;
    Ok(makes(AtPart::Mapcat(answer), term))
}

#[tactic(auto, using(crate::proofs::ApplyTurns::two_make))]
/// The part for the rest was made: the one that begins with the answer's elements comes next.
pub(crate) fn mapcat_made(
    alloc: Global,
    answer: Proper,
    id: CellId,
) -> Result<Next<State>, NoMemory>
    ensures { IfOk result (λ r. Takes (left_part (P.Mapcat answer) id) r) }
{
    let term = pair_term(alloc, Op::Concat, answer, Proper::of_part(id))?;
    Ok(makes(AtPart::Cell, term))
}
