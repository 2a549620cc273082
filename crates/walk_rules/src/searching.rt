//! `doall`, `every?` and `some`.
ghost use Rattle.std.specs.Prelude.{◌≡◌, true, false, IfOk};
ghost use Rattle.lazy_rows.specs.Walks.{doall_rule, every_call, some_call};
ghost use Rattle.seq_plan.specs.Arguments.{of_value};
ghost use Rattle.seq_plan.specs.Cursors.{stands};
ghost use Rattle.seq_plan.specs.Nodes.{is_truthy as truthy};
ghost use Rattle.seq_plan.specs.Plan.{seq, give};
ghost use Rattle.seq_turns.specs.Seen.{seen, rested};
ghost use Rattle.seq_values.specs.Model as M;
ghost use Rattle.seq_values.specs.Plain.{plain, plains};
ghost use Rattle.walk_rules.specs.Left.{left_seq, left_step, left_value, searches, searched, search_call, Takes};
ghost use Rattle.walk_rules.specs.declared.state.AtSeq.TheVariants as Q;
ghost use Rattle.walk_rules.specs.declared.state.AtStep.TheVariants as T;
ghost use Rattle.walk_rules.specs.declared.state.AtValue.TheVariants as V;

use crate::arguments::{only, pair};
use crate::resuming::{resume, start};
use crate::state::{AtSeq, AtStep, AtValue, Quest, State};
use crate::ways::{asks_call, ends, ends_nil, ends_truth, fails, steps};
use seq_base::Thrown;
use seq_plan::Cursor;
use seq_turns::{Next, Proper, ProperList, Rest, Seen, is_truthy, split_cursor, step_cursor};
use seq_vector::NoMemory;
use std::alloc::Global;

/// `doall`
#[tactic(auto, using(crate::proofs::Beginning::of_only, crate::proofs::Beginning::of_others))]
pub(crate) fn begin_doall(alloc: Global, args: ProperList) -> Result<Next<State>, NoMemory>
    ensures { IfOk result (λ r. Takes (of_value doall_rule (plains args.items)) r) }
{
    match only(args)? {
        Some(whole) => Ok(doall_of(alloc, whole)?),
        None => Ok(fails(Thrown::Arity)),
    }
}

#[tactic(auto, using(crate::proofs::Searches::doall_begins))]
fn doall_of(alloc: Global, walked: Proper) -> Result<Next<State>, NoMemory>
    ensures { IfOk result (λ r. Takes (doall_rule (plain walked.value)) r) }
{
    let whole = walked.share()?;
    Ok(start(alloc, AtSeq::Doall { whole }, walked)?)
}

/// A round of the loop.
#[tactic(auto, using(crate::proofs::Searches::doall_ends, crate::proofs::Searches::doall_goes))]
pub(crate) fn doall_at(whole: Proper, what: Seen) -> Next<State>
    ensures { Takes (left_seq (Q.Doall whole) (seen what)) result }
{
    match what {
        Seen::Nil => ends(whole),
        Seen::At(place) => steps(AtStep::Doall { whole, place }),
    }
}

#[tactic(auto, using(crate::proofs::Searches::doall_steps))]
pub(crate) fn doall_step(
    alloc: Global,
    whole: Proper,
    place: Cursor,
) -> Result<Next<State>, NoMemory>
    ensures { IfOk result (λ r. Takes (left_step (T.Doall whole place)) r) }
{
    let rest = step_cursor(place)?;
    Ok(resume(alloc, AtSeq::Doall { whole }, rest)?)
}

/// `every?` and `some`: a function and a collection.
#[tactic(auto, using(crate::proofs::Searches::search_two, crate::proofs::Searches::search_others))]
pub(crate) fn begin_search(
    alloc: Global,
    quest: Quest,
    args: ProperList,
) -> Result<Next<State>, NoMemory>
    ensures { IfOk result (λ r. Takes (search_call quest (plains args.items)) r) }
{
    match pair(args)? {
        None => Ok(fails(Thrown::Arity)),
        Some((test, whole)) => Ok(start(alloc, AtSeq::Search { quest, test }, whole)?),
    }
}

/// A round of the loop.
#[tactic(auto, using(crate::proofs::Searches::search_ends, crate::proofs::Searches::search_goes))]
pub(crate) fn search_at(quest: Quest, test: Proper, what: Seen) -> Next<State>
    ensures { Takes (left_seq (Q.Search quest test) (seen what)) result }
{
    match what {
        Seen::Nil => undecided(quest, test),
        Seen::At(place) => steps(AtStep::Search { quest, test, place }),
    }
}

/// No element decided.
fn undecided(quest: Quest, test: Proper) -> Next<State>
    ensures { Takes (searched quest) result }
{
    match quest {
        Quest::Every => ends_truth(true),
        Quest::Any => ends_nil(),
    }
}

/// The test is asked of the first element.
pub(crate) fn search_step(
    alloc: Global,
    quest: Quest,
    test: Proper,
    place: Cursor,
) -> Result<Next<State>, NoMemory>
    ensures { IfOk result (λ r. Takes (left_step (T.Search quest test place)) r) }
{
    let split = split_cursor(place)?;
    let args = ProperList::one(alloc, split.first)?;
    let called = test.share()?;
    let rest = split.rest;
    Ok(asks_call(AtValue::Search { quest, test, rest }, called, args))
}

/// What the test answered.
pub(crate) fn search_answer(
    alloc: Global,
    quest: Quest,
    test: Proper,
    rest: Rest,
    answer: Proper,
) -> Result<Next<State>, NoMemory>
    ensures { IfOk result (λ r. Takes (left_value (V.Search quest test rest) (plain answer.value)) r) }
{
    match quest {
        Quest::Every => every_answer(alloc, test, rest, answer),
        Quest::Any => any_answer(alloc, test, rest, answer),
    }
}

/// `every?` ends at the first element of which it isn't so.
#[tactic(auto, using(crate::proofs::Searches::every_on, crate::proofs::Searches::every_ends))]
fn every_answer(
    alloc: Global,
    test: Proper,
    rest: Rest,
    answer: Proper,
) -> Result<Next<State>, NoMemory>
    ensures { IfOk result (λ r. Takes (left_value (V.Search Quest.Every test rest) (plain answer.value)) r) }
{
    if holds(answer) {
        let quest = Quest::Every;
        return Ok(resume(alloc, AtSeq::Search { quest, test }, rest)?);
    }
    Ok(ends_false(test, rest))
}

fn holds(answer: Proper) -> bool
    ensures { result ≡ truthy (plain answer.value) }
{
    is_truthy(&answer.value)
}

fn ends_false(test: Proper, rest: Rest) -> Next<State>
    ensures { Takes (give (M.bool false)) result }
{
    ends_truth(false)
}

/// `some` ends with the first answer that is true.
#[tactic(auto, using(crate::proofs::Searches::any_on, crate::proofs::Searches::any_ends))]
fn any_answer(
    alloc: Global,
    test: Proper,
    rest: Rest,
    answer: Proper,
) -> Result<Next<State>, NoMemory>
    ensures { IfOk result (λ r. Takes (left_value (V.Search Quest.Any test rest) (plain answer.value)) r) }
{
    if is_truthy(&answer.value) {
        return Ok(ends_with(answer, test, rest));
    }
    Ok(any_on(alloc, test, rest, answer)?)
}

fn ends_with(answer: Proper, test: Proper, rest: Rest) -> Next<State>
    ensures { Takes (give (plain answer.value)) result }
{
    ends(answer)
}

fn any_on(alloc: Global, test: Proper, rest: Rest, answer: Proper) -> Result<Next<State>, NoMemory>
    ensures { IfOk result (λ r. Takes (seq (rested rest) (λ t. searches Quest.Any (plain test.value) t)) r) }
{
    let quest = Quest::Any;
    Ok(resume(alloc, AtSeq::Search { quest, test }, rest)?)
}
