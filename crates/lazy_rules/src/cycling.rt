//! `cycle`, `iterate` and `repeat`.
ghost use Rattle.std.specs.Prelude.{◌≡◌, [], ◌∷◌, IfOk};
ghost use Rattle.lazy_rules.specs.Left.{left_seq, left_value, left_part, Takes};
ghost use Rattle.lazy_rules.specs.declared.state.AtPart.TheVariants as P;
ghost use Rattle.lazy_rules.specs.declared.state.AtSeq.TheVariants as Q;
ghost use Rattle.lazy_rules.specs.declared.state.AtValue.TheVariants as V;
ghost use Rattle.lazy_rows.specs.Terms.{cycle_on, next_one_rule, repeat_rule};
ghost use Rattle.seq_plan.specs.Lists.{with_seq};
ghost use Rattle.seq_turns.specs.Seen.{seen};
ghost use Rattle.seq_values.specs.Plain.{plain};

use crate::made_terms::{count_term, first_and_rest, first_then, pair_term, term_of};
use crate::state::{AtPart, AtSeq, AtValue, State};
use crate::ways::{calls, gives_nil, let_go, makes, seeks};
use seq_turns::{Next, Proper, ProperList, Seen, Sought, seek};
use seq_values::{CellId, Op};
use seq_vector::NoMemory;
use std::alloc::Global;

/// The seq of what is left of a round is there.
pub(crate) fn cycle_at(alloc: Global, whole: Proper, what: Seen) -> Result<Next<State>, NoMemory>
    ensures { IfOk result (λ r. Takes (left_seq (Q.Cycle whole) (seen what)) r) }
{
    match what {
        Seen::Nil => cycle_again(alloc, whole),
        Seen::At(place) => first_and_rest(alloc, Op::Cycle, whole, place),
    }
}

/// A new round begins.
fn cycle_again(alloc: Global, whole: Proper) -> Result<Next<State>, NoMemory>
    ensures { IfOk result (λ r. Takes (with_seq (plain whole.value) (cycle_on (plain whole.value))) r) }
{
    let source = whole.share()?;
    match seek(source) {
        Sought::Now(what) => cycle_again_at(alloc, whole, what),
        Sought::Ask(source) => Ok(seeks(AtSeq::CycleAgain { whole }, source)),
    }
}

/// The seq of the whole is there.
pub(crate) fn cycle_again_at(
    alloc: Global,
    whole: Proper,
    what: Seen,
) -> Result<Next<State>, NoMemory>
    ensures { IfOk result (λ r. Takes (left_seq (Q.CycleAgain whole) (seen what)) r) }
{
    match what {
        Seen::Nil => {
            let_go(whole);
            Ok(gives_nil())
        }
        Seen::At(place) => first_and_rest(alloc, Op::Cycle, whole, place),
    }
}

#[tactic(auto, using(crate::proofs::CycleTurns::next_calls))]
/// The function is called with the element before.
pub(crate) fn next_one(
    alloc: Global,
    function: Proper,
    before: Proper,
) -> Result<Next<State>, NoMemory>
    ensures { IfOk result (λ r. Takes (next_one_rule (plain function.value) (plain before.value)) r) }
{
    let args = ProperList::one(alloc, before)?;
    let called = function.share()?;
    Ok(calls(AtValue::Next { function }, called, args))
}

#[tactic(auto, using(crate::proofs::CycleTurns::first_of_pair))]
/// The function answered.
pub(crate) fn next_answer(
    alloc: Global,
    function: Proper,
    answer: Proper,
) -> Result<Next<State>, NoMemory>
    ensures { IfOk result (λ r. Takes (left_value (V.Next function) (plain answer.value)) r) }
{
    let before = answer.share()?;
    let term = pair_term(alloc, Op::Next, function, before)?;
    Ok(first_then(answer, term))
}

#[tactic(auto, using(crate::proofs::CycleTurns::first_of_list))]
/// The value, and the part for more of it.
pub(crate) fn repeat_one(alloc: Global, value: Proper) -> Result<Next<State>, NoMemory>
    ensures { IfOk result (λ r. Takes (repeat_rule (plain value.value)) r) }
{
    let same = value.share()?;
    let args = ProperList::one(alloc, same)?;
    let term = term_of(Op::Repeat, args);
    Ok(first_then(value, term))
}

#[tactic(auto, using(crate::proofs::ApplyTurns::two_make))]
/// The part that repeats a value was made: so many are taken of it.
pub(crate) fn repeat_made(alloc: Global, count: i64, id: CellId) -> Result<Next<State>, NoMemory>
    ensures { IfOk result (λ r. Takes (left_part (P.TakeOf count) id) r) }
{
    let term = count_term(alloc, Op::Take, count, Proper::of_part(id))?;
    Ok(makes(AtPart::Cell, term))
}
