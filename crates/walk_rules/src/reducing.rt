//! `reduce` and `into`.
ghost use Rattle.std.specs.Prelude.{◌≡◌, IfOk, IsTrue};
ghost use Rattle.lazy_rows.specs.Walks.{reduce_call, into_call};
ghost use Rattle.seq_plan.specs.Plan.{give};
ghost use Rattle.seq_turns.specs.Seen.{seen};
ghost use Rattle.seq_values.specs.Plain.{plain, plains};
ghost use Rattle.seq_values.specs.WellFormed.{is_well_formed};
ghost use Rattle.walk_rules.specs.Shapes.{IsUnwrapped};
ghost use Rattle.walk_rules.specs.Left.{left_seq, left_step, left_value, Takes};
ghost use Rattle.walk_rules.specs.declared.state.AtSeq.TheVariants as Q;
ghost use Rattle.walk_rules.specs.declared.state.AtStep.TheVariants as T;
ghost use Rattle.walk_rules.specs.declared.state.AtValue.TheVariants as V;

use crate::arguments::{TwoOrThree, pair, two_or_three};
use crate::listed::Unwrapped;
use crate::resuming::{resume, start};
use crate::shapes::of_node;
use crate::state::{AtSeq, AtStep, AtValue, State};
use crate::ways::{asks_call, ends, fails, steps};
use seq_base::Thrown;
use seq_plan::Cursor;
use seq_turns::{Next, Proper, ProperList, Rest, Seen, split_cursor};
use seq_values::{Builtin, Held, Value, word_value};
use seq_vector::{NoMemory, Share};
use std::alloc::Global;

/// `reduce`: a function, a first value or none, and a collection.
#[tactic(auto, using(crate::proofs::Reductions::call_two, crate::proofs::Reductions::call_three, crate::proofs::Reductions::call_others))]
pub(crate) fn begin_reduce(alloc: Global, args: ProperList) -> Result<Next<State>, NoMemory>
    ensures { IfOk result (λ r. Takes (reduce_call (plains args.items)) r) }
{
    match two_or_three(args)? {
        TwoOrThree::Two(function, whole) => {
            Ok(start(alloc, AtSeq::ReduceFirst { function }, whole)?)
        }
        TwoOrThree::Three(function, answer, whole) => {
            Ok(start(alloc, AtSeq::Reduce { function, answer }, whole)?)
        }
        TwoOrThree::Other => Ok(fails(Thrown::Arity)),
    }
}

/// `into`, which reduces by `conj`.
#[tactic(auto, using(crate::proofs::Reductions::into_two, crate::proofs::Reductions::into_others))]
pub(crate) fn begin_into(alloc: Global, args: ProperList) -> Result<Next<State>, NoMemory>
    ensures { IfOk result (λ r. Takes (into_call (plains args.items)) r) }
{
    match pair(args)? {
        Some((answer, whole)) => {
            let function = Proper {
                value: word_value(Builtin::Conj),
            };
            Ok(start(alloc, AtSeq::Reduce { function, answer }, whole)?)
        }
        None => Ok(fails(Thrown::Arity)),
    }
}

/// The first element is the first value, and the function without arguments gives the answer where there is none.
#[tactic(auto, using(crate::proofs::Reductions::first_none, crate::proofs::Reductions::first_some))]
pub(crate) fn first_at(function: Proper, what: Seen) -> Result<Next<State>, NoMemory>
    ensures { IfOk result (λ r. Takes (left_seq (Q.ReduceFirst function) (seen what)) r) }
{
    match what {
        Seen::Nil => Ok(asks_call(AtValue::Answer, function, ProperList::none())),
        Seen::At(place) => Ok(steps(AtStep::ReduceFirst { function, place })),
    }
}

#[tactic(auto, using(crate::proofs::Reductions::first_steps))]
pub(crate) fn first_step(
    alloc: Global,
    function: Proper,
    place: Cursor,
) -> Result<Next<State>, NoMemory>
    ensures { IfOk result (λ r. Takes (left_step (T.ReduceFirst function place)) r) }
{
    let split = split_cursor(place)?;
    let answer = split.first;
    Ok(resume(alloc, AtSeq::Reduce { function, answer }, split.rest)?)
}

/// A round of the loop, with the answer so far.
#[tactic(auto, using(crate::proofs::Reductions::reduce_ends, crate::proofs::Reductions::reduce_goes))]
pub(crate) fn reduce_at(function: Proper, answer: Proper, what: Seen) -> Next<State>
    ensures { Takes (left_seq (Q.Reduce function answer) (seen what)) result }
{
    match what {
        Seen::Nil => answered(function, answer),
        Seen::At(place) => steps(AtStep::Reduce {
            function,
            answer,
            place,
        }),
    }
}

/// The answer so far is the reduction's.
fn answered(function: Proper, answer: Proper) -> Next<State>
    ensures { Takes (give (plain answer.value)) result }
{
    ends(answer)
}

/// The function is called with the answer so far and the first element.
pub(crate) fn reduce_step(
    alloc: Global,
    function: Proper,
    answer: Proper,
    place: Cursor,
) -> Result<Next<State>, NoMemory>
    ensures { IfOk result (λ r. Takes (left_step (T.Reduce function answer place)) r) }
{
    let split = split_cursor(place)?;
    let args = ProperList::two(alloc, answer, split.first)?;
    let called = function.share()?;
    let rest = split.rest;
    Ok(asks_call(AtValue::Reduce { function, rest }, called, args))
}

/// What the function answered. A reduced answer ends the reduction with its value.
#[tactic(auto, using(crate::proofs::Reductions::answer_reduced, crate::proofs::Reductions::answer_on))]
pub(crate) fn reduce_answer(
    alloc: Global,
    function: Proper,
    rest: Rest,
    answer: Proper,
) -> Result<Next<State>, NoMemory>
    ensures { IfOk result (λ r. Takes (left_value (V.Reduce function rest) (plain answer.value)) r) }
{
    match unwrapped(answer.value)? {
        Unwrapped::Reduced(value) => Ok(reduced(value, function, rest)),
        Unwrapped::Another(answer) => Ok(resume(alloc, AtSeq::Reduce { function, answer }, rest)?),
    }
}

fn reduced(value: Proper, function: Proper, rest: Rest) -> Next<State>
    ensures { Takes (give (plain value.value)) result }
{
    ends(value)
}

/// The value in a reduced one, or a value that isn't reduced.
#[tactic(auto, using(seq_values::proofs::WellFormedLemmas::reduced_in, seq_values::proofs::WellFormedLemmas::node_in))]
fn unwrapped(answer: Value) -> Result<Unwrapped, NoMemory>
    requires { IsTrue (is_well_formed answer) }
    ensures { IfOk result (λ u. IsUnwrapped u (plain answer)) }
{
    match answer {
        Value::Reduced { value, .. } => Ok(Unwrapped::Reduced(held(value)?)),
        Value::Nil => Ok(Unwrapped::Another(Proper { value: Value::Nil })),
        Value::Bool(truth) => Ok(Unwrapped::Another(Proper {
            value: Value::Bool(truth),
        })),
        Value::Int(number) => Ok(Unwrapped::Another(Proper {
            value: Value::Int(number),
        })),
        Value::Keyword(name) => Ok(Unwrapped::Another(Proper {
            value: Value::Keyword(name),
        })),
        Value::Text(text) => Ok(Unwrapped::Another(Proper {
            value: Value::Text(text),
        })),
        Value::Vector { depth, items } => Ok(Unwrapped::Another(Proper {
            value: Value::Vector { depth, items },
        })),
        Value::Function(function) => Ok(Unwrapped::Another(Proper {
            value: Value::Function(function),
        })),
        Value::Node(node) => Ok(Unwrapped::Another(of_node(node))),
        Value::Cell(id) => Ok(Unwrapped::Another(Proper {
            value: Value::Cell(id),
        })),
    }
}

fn held(value: Held) -> Result<Proper, NoMemory>
    requires { IsTrue (is_well_formed value) }
    ensures { IfOk result (λ v. v.value ≡ value) }
{
    let value = value.get().share()?;
    Ok(Proper { value })
}
