//! The terms that the rules make, and the parts that are made of them.
ghost use Rattle.std.specs.Prelude.{◌≡◌, ◌<◌, ◌≤◌, [], ◌∷◌, true, length, map, drop, IfOk};
ghost use Rattle.lazy_rules.specs.Arguments.{listed};
ghost use Rattle.lazy_rules.specs.Left.{Takes};
ghost use Rattle.lazy_rows.specs.Terms.{one_or_cell};
ghost use Rattle.seq_plan.specs.Cursors.{stands};
ghost use Rattle.seq_plan.specs.Lists.{first_and};
ghost use Rattle.seq_plan.specs.Nodes.{first_of, rest_of};
ghost use Rattle.seq_values.specs.Model as M;
ghost use Rattle.seq_values.specs.Plain.{plain, plains, plain_term};
ghost use Rattle.seq_values.specs.Sight.{Sight, an_int};
ghost use Rattle.seq_values.specs.WellFormed.{sight_of};
ghost use Rattle.seq_values.specs.WellFormedTerms.{takes};
ghost use Rattle.seq_values.specs.declared.words.Op.TheVariants as O;

use crate::state::{AtPart, ProperTerm, State};
use crate::ways::makes;
use seq_plan::Cursor;
use seq_turns::{Gathered, Next, Proper, ProperList, Split, rest_value, split_cursor, step_cursor};
use seq_values::Op;
use seq_vector::NoMemory;
use std::alloc::Global;

/// An operation on arguments that it takes.
pub(crate) fn term_of(op: Op, args: ProperList) -> ProperTerm
    requires { takes op (map sight_of args.items) ≡ true }
    ensures { plain_term result.term ≡ record { op = op; args = plains args.items } }
{
    ProperTerm {
        term: seq_turns::term_of(op, args),
    }
}

/// An operation on two arguments.
pub(crate) fn pair_term(
    alloc: Global,
    op: Op,
    first: Proper,
    second: Proper,
) -> Result<ProperTerm, NoMemory>
    requires { takes op (sight_of first.value ∷ sight_of second.value ∷ []) ≡ true }
    ensures { IfOk result (λ t. plain_term t.term ≡ record { op = op; args = plain first.value ∷ plain second.value ∷ [] }) }
{
    let term = seq_turns::term_with_two(alloc, op, first, second)?;
    Ok(ProperTerm { term })
}

/// An operation on a count and a collection.
pub(crate) fn count_term(
    alloc: Global,
    op: Op,
    count: i64,
    source: Proper,
) -> Result<ProperTerm, NoMemory>
    requires { takes op (an_int count ∷ sight_of source.value ∷ []) ≡ true }
    ensures { IfOk result (λ t. plain_term t.term ≡ record { op = op; args = M.int count ∷ plain source.value ∷ [] }) }
{
    pair_term(alloc, op, Proper::of_int(count), source)
}

/// Makes the part for the rest, before which the element is to stand.
pub(crate) fn first_then(first: Proper, term: ProperTerm) -> Next<State>
    ensures { Takes (first_and (plain first.value) term.term.op (plains term.term.args)) result }
{
    makes(AtPart::One(first), term)
}

/// Makes the part for the rest, before which the element is to stand, if there is one.
pub(crate) fn first_or_cell(first: Option<Proper>, term: ProperTerm) -> Next<State>
    ensures { Takes (one_or_cell (listed first) term.term.op (plains term.term.args)) result }
{
    match first {
        None => makes(AtPart::Cell, term),
        Some(first) => first_then(first, term),
    }
}

/// The operation on a function, or a whole, and what comes after the first element of a node.
pub(crate) fn rest_term(
    alloc: Global,
    op: Op,
    function: Proper,
    place: Cursor,
) -> Result<ProperTerm, NoMemory>
    requires { (a b : Sight) → takes op (a ∷ b ∷ []) ≡ true }
    ensures { IfOk result (λ t. plain_term t.term ≡ record { op = op; args = plain function.value ∷ rest_of (stands place) ∷ [] }) }
{
    let rest = step_cursor(place)?;
    let rest = rest_value(alloc, rest)?;
    let term = pair_term(alloc, op, function, rest)?;
    Ok(term)
}

#[tactic(auto, using(crate::proofs::CycleTurns::first_of_pair))]
/// Makes the part of the operation on a function, or a whole, and what comes after the first element of a node; that element is to stand before it.
pub(crate) fn first_and_rest(
    alloc: Global,
    op: Op,
    function: Proper,
    place: Cursor,
) -> Result<Next<State>, NoMemory>
    requires { (a b : Sight) → takes op (a ∷ b ∷ []) ≡ true }
    ensures { IfOk result (λ r. Takes (first_and (first_of (stands place)) op (plain function.value ∷ rest_of (stands place) ∷ [])) r) }
{
    let Split { first, rest } = split_cursor(place)?;
    let rest = rest_value(alloc, rest)?;
    let term = pair_term(alloc, op, function, rest)?;
    Ok(first_then(first, term))
}

/// The values from a place on, behind a first one.
#[tactic(auto, using(crate::proofs::MadeTerms::tail_more))]
fn with_tail(
    alloc: Global,
    first: Proper,
    values: &ProperList,
    at: usize,
) -> Result<Gathered, NoMemory>
    requires { 0 < at }
    ensures { IfOk result (λ all. all.items.items ≡ first.value ∷ drop at values.now.items) }
{
    let count = values.items.len();
    let room = Gathered::with_room(alloc, count.saturating_sub(at) + 1)?;
    let mut all = room.and(first)?;
    for place in at..count {
        let value = values.at(place)?;
        all = all.and(value)?;
    }
    Ok(all)
}

/// The operation `concat` on what is left of a collection, and on the collections from a place on.
pub(crate) fn concat_term(
    alloc: Global,
    rest: Proper,
    args: ProperList,
    at: usize,
) -> Result<ProperTerm, NoMemory>
    requires { 0 < at }
    ensures { IfOk result (λ t. plain_term t.term ≡ record { op = O.Concat; args = plain rest.value ∷ plains (drop at args.items) }) }
{
    let all = with_tail(alloc, rest, &args, at)?;
    let all = all.listed(alloc)?;
    Ok(concat_of(all, args))
}

fn concat_of(all: ProperList, args: ProperList) -> ProperTerm
    ensures { plain_term result.term ≡ record { op = O.Concat; args = plains all.items } }
{
    term_of(Op::Concat, all)
}
