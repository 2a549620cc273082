//! The action `fold`: items are folded as one group, or as two halves of which a future folds the second.
//! Source: clojure.core.reducers' `foldvec`, https://clojure.org/reference/reducers
ghost use Rattle.std.specs.Prelude.{◌≡◌, ℕ, ◌≤◌, ◌<◌, ◌≤ℤ◌, ◌<ℤ◌, ◌/◌, pos, [], length, take, drop, true, IfOk, MatchOption};
ghost use Rattle.fold_rows.specs.Table.{fold_group};
ghost use Rattle.fold_rules.specs.Left.{after, folding, halved, left_part, reduced_to, running, second_half};
ghost use Rattle.fold_rules.specs.declared.state.AtPart.TheVariants as P;
ghost use Rattle.seq_plan.specs.Nodes.{make_term};
ghost use Rattle.seq_plan.specs.Plan.{call};
ghost use Rattle.seq_plan.specs.Stages.{enter_each, reduces};
ghost use Rattle.seq_plan.specs.WellFormed.{sights};
ghost use Rattle.seq_turns.specs.Turning.{Takes};
ghost use Rattle.seq_values.specs.Model as M;
ghost use Rattle.seq_values.specs.Plain.{plain, plains};
ghost use Rattle.seq_values.specs.WellFormedTerms.{are_fold_stages};
ghost use Rattle.seq_values.specs.declared.words.Kind.TheVariants as K;
ghost use Rattle.seq_values.specs.declared.words.Op.TheVariants as O;
ghost use Rattle.xf_stages.specs.Left.{stages_in, states_in};
ghost use Rattle.xf_stages.specs.Opening.{AreFresh};

use crate::state::{AtPart, AtValue, Fold, Half, Pending, State};
use crate::terms::future_term;
use reducer_values::{Items, split};
use seq_turns::{Next, Proper, ProperList, calls, makes};
use seq_values::{CellId, Kind};
use seq_vector::NoMemory;
use std::alloc::Global;
use xf_stages::Stages;

/// Two parts of items.
#[derive(Drop)]
struct Parts {
    first: Items,
    second: Items,
}

/// How many items a group has, at most as many as a vector has.
fn group_size(size: i64) -> u32
    requires { pos 0 <ℤ size }
    ensures some { 0 < result }
    ensures within { (n : ℕ) → n ≤ result → pos n ≤ℤ size }
    ensures above { (n : ℕ) → n ≤ 4294967295 → result < n → size <ℤ pos n }
{
    if size < 4294967295 {
        size as u32
    } else {
        4294967295
    }
}

/// Half of so many items, where they are more than a group.
fn half_of(fold: &Fold, items: &Items) -> Option<usize>
    ensures { MatchOption result (pos (length items.now.items) ≤ℤ fold.now.size) (λ half. (fold.now.size <ℤ pos (length items.now.items)) × (half ≡ length items.now.items / 2)) }
{
    let half = split(items.len() as u32, group_size(fold.size));
    match half {
        None => None,
        Some(half) => Some(half as usize),
    }
}

/// The items are folded, and the halves that wait go on with the answer.
#[tactic(auto, using(crate::proofs::Foldings::goes_group, crate::proofs::Foldings::goes_halves))]
pub(crate) fn folds(
    alloc: Global,
    fold: Fold,
    items: Items,
    pending: Pending,
) -> Result<Next<State>, NoMemory>
    ensures { IfOk result (λ r. Takes running (folding fold items.items (after pending)) r) }
{
    let half = half_of(&fold, &items);
    match half {
        None => {
            let next = group(alloc, fold, items, pending)?;
            Ok(next)
        }
        Some(half) => {
            let next = halves(alloc, fold, items, half, pending)?;
            Ok(next)
        }
    }
}

/// The stages with the states with which they begin.
#[tactic(auto, using(crate::proofs::Foldings::drop_nothing))]
fn fresh_stages(alloc: Global, stages: ProperList) -> Result<Stages, NoMemory>
    requires { are_fold_stages (sights (M.values (plains stages.items))) ≡ true }
    ensures stages { IfOk result (λ s. stages_in s ≡ plains stages.items) }
    ensures fresh { IfOk result AreFresh }
{
    let all = Stages::of_fold(alloc, &stages, 0)?;
    Ok(all)
}

/// A group: the combining function gives the first answer, from which the items are reduced through the stages.
#[tactic(auto, using(crate::proofs::Foldings::group_called, crate::proofs::Foldings::group_empty))]
fn group(alloc: Global, fold: Fold, items: Items, pending: Pending) -> Result<Next<State>, NoMemory>
    ensures { IfOk result (λ r. Takes running (fold_group (plain fold.combine.value) (plain fold.function.value) (plains fold.stages.items) (plains items.items) (after pending)) r) }
{
    if items.len() == 0 {
        return Ok(no_items(fold, items, pending));
    }
    let Fold {
        combine,
        function,
        stages,
        ..
    } = fold;
    let stages = fresh_stages(alloc, stages)?;
    Ok(group_first(stages, combine, function, items, pending))
}

/// The combining function is called for the first answer.
fn group_first(
    stages: Stages,
    combine: Proper,
    function: Proper,
    items: Items,
    pending: Pending,
) -> Next<State>
    ensures { Takes running (call (plain combine.value) [] (λ init. enter_each (stages_in stages) (states_in stages) (reduces (plain function.value) init) (M.vector (M.values (plains items.items))) (reduced_to pending))) result }
{
    let source = items.vector();
    calls(
        State::Value(AtValue::First {
            stages,
            function,
            source,
            pending,
        }),
        combine,
        ProperList::none(),
    )
}

/// No items: the first answer is that of the fold.
fn no_items(fold: Fold, items: Items, pending: Pending) -> Next<State>
    ensures { Takes running (call (plain fold.combine.value) [] (after pending)) result }
{
    let combine = fold.combine;
    calls(
        State::Value(AtValue::Answer(pending)),
        combine,
        ProperList::none(),
    )
}

/// The items before a place, and those from there on.
fn parted(alloc: Global, items: Items, at: usize) -> Result<Parts, NoMemory>
    requires { at ≤ length items.items }
    ensures first { IfOk result (λ p. p.first.items ≡ take at items.items) }
    ensures second { IfOk result (λ p. p.second.items ≡ drop at items.items) }
{
    let first = items.part(alloc, 0, at)?;
    let second = items.part(alloc, at, items.len() - at)?;
    Ok(Parts { first, second })
}

/// Two halves: the future of the second is made before the first is folded here.
fn halves(
    alloc: Global,
    fold: Fold,
    items: Items,
    half: usize,
    pending: Pending,
) -> Result<Next<State>, NoMemory>
    requires { half ≤ length items.items }
    ensures { IfOk result (λ r. Takes running (make_term K.Future O.Fold (second_half fold (drop half items.items)) (λ m. halved fold (take half items.items) pending m)) r) }
{
    let parts = parted(alloc, items, half)?;
    let Parts { first, second } = parts;
    let term = future_term(alloc, &fold, second)?;
    Ok(makes(
        State::Part(AtPart::Second {
            fold,
            items: first,
            pending,
        }),
        Kind::Future,
        term,
    ))
}

/// The future of the second half is made: the first half is folded here.
pub(crate) fn first_folds(
    alloc: Global,
    fold: Fold,
    items: Items,
    pending: Pending,
    cell: CellId,
) -> Result<Next<State>, NoMemory>
    ensures { IfOk result (λ r. Takes running (left_part (P.Second fold items pending) cell) r) }
{
    let combine = fold.combine.share()?;
    let pending = pending.and(Half { cell, combine })?;
    let next = folds(alloc, fold, items, pending)?;
    Ok(next)
}
