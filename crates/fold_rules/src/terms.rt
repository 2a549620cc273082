//! The term of a fold: how its work begins, and how the term of a second half is made.
ghost use Rattle.std.specs.Prelude.{◌≡◌, ◌≤◌, ◌+◌, ◌<ℤ◌, pos, [], ◌∷◌, ◌++◌, length, drop, true, IfOk, IsTrue};
ghost use Rattle.fold_rows.specs.Table.{fold_term};
ghost use Rattle.fold_rules.specs.Left.{running, second_half};
ghost use Rattle.fold_rules.specs.Terms.{is_vector, is_some_size};
ghost use Rattle.seq_plan.specs.WellFormed.{sights};
ghost use Rattle.seq_turns.specs.Turning.{Takes};
ghost use Rattle.seq_values.specs.Model as M;
ghost use Rattle.seq_values.specs.Plain.{plain, plains, plain_term};
ghost use Rattle.seq_values.specs.WellFormed.{is_well_formed};
ghost use Rattle.seq_values.specs.WellFormedTerms.{is_well_formed_term, takes};
ghost use Rattle.seq_values.specs.declared.words.Op.TheVariants as O;

use crate::arguments::{Four, without};
use crate::folding::folds;
use crate::state::{Fold, Pending, State, Work};
use reducer_values::Items;
use seq_turns::{Gathered, Next, Proper, ProperList, number_of};
use seq_values::{Op, Term, Value};
use seq_vector::NoMemory;
use std::alloc::Global;

/// The work of a future begins.
#[tactic(auto, using(seq_values::proofs::WellFormedLemmas::term_args, crate::proofs::FoldTerms::work_takes))]
pub(crate) fn work_begins(alloc: Global, work: Work) -> Result<Next<State>, NoMemory>
    ensures { IfOk result (λ r. Takes running (fold_term (plains work.term.args)) r) }
{
    let Work { term } = work;
    let args = ProperList { items: term.args };
    let next = fold_begins(alloc, &args)?;
    Ok(without(next, args))
}

/// The arguments before the stages.
#[tactic(auto, using(crate::proofs::FoldTerms::args_are))]
fn first_four(args: &ProperList) -> Result<Four, NoMemory>
    requires { 4 ≤ length args.now.items }
    ensures { IfOk result (λ x. args.now.items ≡ x.first.value ∷ x.second.value ∷ x.third.value ∷ x.fourth.value ∷ drop 4 args.now.items) }
{
    let first = args.at(0)?;
    let second = args.at(1)?;
    let third = args.at(2)?;
    let fourth = args.at(3)?;
    Ok(Four {
        first,
        second,
        third,
        fourth,
    })
}

/// The items, and what they are folded by.
fn fold_begins(alloc: Global, args: &ProperList) -> Result<Next<State>, NoMemory>
    requires { takes O.Fold (sights (M.values (plains args.now.items))) ≡ true }
    ensures { IfOk result (λ r. Takes running (fold_term (plains args.now.items)) r) }
{
    let first = first_four(args)?;
    let stages = behind(alloc, args, 4)?;
    let next = fold_on(alloc, first, stages)?;
    Ok(next)
}

/// The values of a list from a place on, shared.
#[tactic(auto, using(crate::proofs::FoldTerms::behind_well, crate::proofs::FoldTerms::behind_all, crate::proofs::FoldTerms::behind_few))]
fn behind(alloc: Global, args: &ProperList, at: usize) -> Result<ProperList, NoMemory>
    requires { at ≤ length args.now.items }
    ensures same { IfOk result (λ all. all.items ≡ drop at args.now.items) }
    ensures few { IfOk result (λ all. length all.items + at ≤ 4294967295) }
{
    match args.items.window(alloc, at, args.items.len() - at)? {
        Some(items) => Ok(ProperList { items }),
        None => unreachable!(),
    }
}

/// The items are folded.
fn fold_on(alloc: Global, first: Four, stages: ProperList) -> Result<Next<State>, NoMemory>
    requires fits { takes O.Fold (sights (M.values (plain first.first.value ∷ plain first.second.value ∷ plain first.third.value ∷ plain first.fourth.value ∷ plains stages.items))) ≡ true }
    requires few { length stages.items ≤ 4294967291 }
    ensures { IfOk result (λ r. Takes running (fold_term (plain first.first.value ∷ plain first.second.value ∷ plain first.third.value ∷ plain first.fourth.value ∷ plains stages.items)) r) }
{
    let Four {
        first: items,
        second: size,
        third: combine,
        fourth: function,
    } = first;
    let items = items_in(items.value);
    let size = size_in(size);
    let none = Pending::none(alloc);
    let fold = Fold {
        size,
        combine,
        function,
        stages,
    };
    let next = folds(alloc, fold, items, none)?;
    Ok(next)
}

/// The items of a vector.
#[tactic(auto, using(seq_turns::proofs::Seeing::plain_vector))]
fn items_in(value: Value) -> Items
    requires vector { is_vector (plain value) ≡ true }
    requires well { IsTrue (is_well_formed value) }
    ensures { plain value ≡ M.vector (M.values (plains result.items)) }
{
    match value {
        Value::Nil => unreachable!(),
        Value::Bool(_) => unreachable!(),
        Value::Int(_) => unreachable!(),
        Value::Keyword(_) => unreachable!(),
        Value::Text(_) => unreachable!(),
        Value::Vector { depth, items } => Items { depth, items },
        Value::Function(_) => unreachable!(),
        Value::Node(_) => unreachable!(),
        Value::Reduced { .. } => unreachable!(),
        Value::Cell(_) => unreachable!(),
    }
}

/// The size of a group.
fn size_in(value: Proper) -> i64
    requires { is_some_size (plain value.value) ≡ true }
    ensures same { plain value.value ≡ M.int result }
    ensures some { pos 0 <ℤ result }
{
    match number_of(&value.value) {
        Some(number) => number,
        None => unreachable!(),
    }
}

/// The arguments of a fold before its stages.
#[tactic(auto, using(crate::proofs::FoldTerms::four_gathered))]
fn before_stages(
    alloc: Global,
    items: Proper,
    size: Proper,
    combine: Proper,
    function: Proper,
) -> Result<Gathered, NoMemory>
    ensures { IfOk result (λ all. all.items.items ≡ items.value ∷ size.value ∷ combine.value ∷ function.value ∷ []) }
{
    let one = Gathered::none(alloc).and(items)?;
    let two = one.and(size)?;
    let three = two.and(combine)?;
    let four = three.and(function)?;
    Ok(four)
}

/// More values behind those that were gathered.
fn and_all(before: Gathered, more: &ProperList) -> Result<Gathered, NoMemory>
    requires { length before.items.items + length more.now.items ≤ 4294967295 }
    ensures { IfOk result (λ all. all.items.items ≡ before.items.items ++ more.now.items) }
{
    let mut all = before;
    let mut at = 0;
    while at < more.len() {
        let value = more.at(at)?;
        let grown = all.and(value)?;
        all = grown;
        at += 1;
    }
    Ok(all)
}

/// The arguments of a future that folds these items by the same.
#[tactic(auto, using(crate::proofs::FoldTerms::second_args))]
fn future_args(alloc: Global, fold: &Fold, items: Items) -> Result<ProperList, NoMemory>
    ensures { IfOk result (λ all. plains all.items ≡ second_half fold.now items.items) }
{
    let combine = fold.combine.share()?;
    let function = fold.function.share()?;
    let size = Proper::of_int(fold.size);
    let first = before_stages(alloc, items.vector(), size, combine, function)?;
    let all = and_all(first, &fold.stages)?;
    let args = all.listed(alloc)?;
    Ok(args)
}

/// The term of a future that folds these items by the same.
#[tactic(auto, using(crate::proofs::FoldTerms::second_well))]
pub(crate) fn future_term(alloc: Global, fold: &Fold, items: Items) -> Result<Term, NoMemory>
    ensures stands { IfOk result (λ t. plain_term t ≡ record { op = O.Fold; args = second_half fold.now items.items }) }
    ensures well { IfOk result (λ t. IsTrue (is_well_formed_term t)) }
{
    let args = future_args(alloc, fold, items)?;
    Ok(Term {
        op: Op::Fold,
        args: args.items,
    })
}
