//! The words that fold and reduce: how a call begins.
ghost use Rattle.std.specs.Prelude.{◌≡◌, ◌<ℤ◌, pos, length, [], ◌∷◌, IfOk, IsTrue};
ghost use Rattle.fold_rows.specs.Table.{fold_call, fold_in, fold_rule, items_of, bottom, reducer_stages};
ghost use Rattle.fold_rules.specs.Left.{running};
ghost use Rattle.fold_rules.specs.Words.{is_fold_word};
ghost use Rattle.reducer_values.specs.Layers.{IsFoldable};
ghost use Rattle.seq_base.specs.declared.thrown.Thrown.TheVariants.{BadType, Index};
ghost use Rattle.seq_plan.specs.Plan.{throw};
ghost use Rattle.seq_turns.specs.Arguments.{integer_of};
ghost use Rattle.seq_turns.specs.Turning.{Takes};
ghost use Rattle.seq_values.specs.Model as M;
ghost use Rattle.seq_values.specs.Plain.{plain, plains};
ghost use Rattle.seq_values.specs.declared.words.Builtin.TheVariants as B;

use crate::arguments::{Four, Three, Two, four_of, three_of, two_of, without};
use crate::folding::folds;
use crate::reducing::{reduces_all, reduces_from};
use crate::state::{Call, Fold, Pending, State};
use reducer_values::{Foldable, foldable_of};
use seq_base::Thrown;
use seq_turns::{Next, Proper, ProperList, number_of, throws};
use seq_values::{Builtin, word_value};
use seq_vector::NoMemory;
use std::alloc::Global;

/// How many items a group has where a call of `r/fold` doesn't say.
const GROUP: i64 = 512;

/// Whether a word folds or reduces. `into` does so where it has two arguments.
pub fn is_fold_word(word: Builtin) -> bool
    ensures { result ≡ is_fold_word word }
{
    match word {
        Builtin::Fold => true,
        Builtin::Reduce => true,
        Builtin::Into => true,
        _ => false,
    }
}

/// A call of a word begins.
pub(crate) fn call_begins(alloc: Global, call: Call) -> Result<Next<State>, NoMemory>
    ensures { IfOk result (λ r. Takes running (fold_call call.word (plains call.args)) r) }
{
    let Call { word, args } = call;
    let args = ProperList { items: args };
    let next = word_begins(alloc, word, &args)?;
    Ok(without(next, args))
}

fn word_begins(alloc: Global, word: Builtin, args: &ProperList) -> Result<Next<State>, NoMemory>
    requires { IsTrue (is_fold_word word) }
    ensures { IfOk result (λ r. Takes running (fold_call word (plains args.now.items)) r) }
{
    match word {
        Builtin::Fold => fold_begins(alloc, args),
        Builtin::Reduce => reduce_begins(alloc, args),
        Builtin::Into => into_begins(alloc, args),
        _ => unreachable!(),
    }
}

/// `reduce`
#[tactic(auto, using(crate::proofs::WordTurns::reduce_arity))]
fn reduce_begins(alloc: Global, args: &ProperList) -> Result<Next<State>, NoMemory>
    ensures { IfOk result (λ r. Takes running (fold_call B.Reduce (plains args.now.items)) r) }
{
    match args.len() {
        2 => reduce_called(alloc, args),
        3 => reduce_given(alloc, args),
        _ => Ok(throws(State::Over, Thrown::Arity)),
    }
}

/// `reduce` without a first answer, for which the function is called without arguments.
#[tactic(auto, using(crate::proofs::WordTurns::reduce_two))]
fn reduce_called(alloc: Global, args: &ProperList) -> Result<Next<State>, NoMemory>
    requires { length args.now.items ≡ 2 }
    ensures { IfOk result (λ r. Takes running (fold_call B.Reduce (plains args.now.items)) r) }
{
    let all = two_of(args)?;
    let Two {
        first: function,
        second: source,
    } = all;
    let called = function.share()?;
    let next = reduces_from(alloc, called, function, source)?;
    Ok(next)
}

/// `reduce` with a first answer.
#[tactic(auto, using(crate::proofs::WordTurns::reduce_three))]
fn reduce_given(alloc: Global, args: &ProperList) -> Result<Next<State>, NoMemory>
    requires { length args.now.items ≡ 3 }
    ensures { IfOk result (λ r. Takes running (fold_call B.Reduce (plains args.now.items)) r) }
{
    let all = three_of(args)?;
    let Three {
        first: function,
        second: answer,
        third: source,
    } = all;
    let next = reduces_all(alloc, function, answer, source)?;
    Ok(next)
}

/// `into`, which is `reduce` by `conj`.
#[tactic(auto, using(crate::proofs::WordTurns::into_two, crate::proofs::WordTurns::into_arity))]
fn into_begins(alloc: Global, args: &ProperList) -> Result<Next<State>, NoMemory>
    ensures { IfOk result (λ r. Takes running (fold_call B.Into (plains args.now.items)) r) }
{
    if args.len() != 2 {
        return Ok(throws(State::Over, Thrown::Arity));
    }
    let all = two_of(args)?;
    let Two {
        first: answer,
        second: source,
    } = all;
    let conj = Proper {
        value: word_value(Builtin::Conj),
    };
    let next = reduces_all(alloc, conj, answer, source)?;
    Ok(next)
}

/// `r/fold`
#[tactic(auto, using(crate::proofs::WordTurns::fold_arity))]
fn fold_begins(alloc: Global, args: &ProperList) -> Result<Next<State>, NoMemory>
    ensures { IfOk result (λ r. Takes running (fold_call B.Fold (plains args.now.items)) r) }
{
    match args.len() {
        2 => fold_alone(alloc, args),
        3 => fold_combining(alloc, args),
        4 => fold_sized(alloc, args),
        _ => Ok(throws(State::Over, Thrown::Arity)),
    }
}

/// `r/fold` whose function both combines and reduces.
#[tactic(auto, using(crate::proofs::WordTurns::fold_two))]
fn fold_alone(alloc: Global, args: &ProperList) -> Result<Next<State>, NoMemory>
    requires { length args.now.items ≡ 2 }
    ensures { IfOk result (λ r. Takes running (fold_call B.Fold (plains args.now.items)) r) }
{
    let all = two_of(args)?;
    let Two {
        first: function,
        second: source,
    } = all;
    let combine = function.share()?;
    let next = folds_in(alloc, GROUP, combine, function, source)?;
    Ok(next)
}

/// `r/fold` with a combining function.
#[tactic(auto, using(crate::proofs::WordTurns::fold_three))]
fn fold_combining(alloc: Global, args: &ProperList) -> Result<Next<State>, NoMemory>
    requires { length args.now.items ≡ 3 }
    ensures { IfOk result (λ r. Takes running (fold_call B.Fold (plains args.now.items)) r) }
{
    let all = three_of(args)?;
    let Three {
        first: combine,
        second: function,
        third: source,
    } = all;
    let next = folds_in(alloc, GROUP, combine, function, source)?;
    Ok(next)
}

/// `r/fold` with the size of a group.
#[tactic(auto, using(crate::proofs::WordTurns::fold_four))]
fn fold_sized(alloc: Global, args: &ProperList) -> Result<Next<State>, NoMemory>
    requires { length args.now.items ≡ 4 }
    ensures { IfOk result (λ r. Takes running (fold_call B.Fold (plains args.now.items)) r) }
{
    let all = four_of(args)?;
    let Four {
        first: size,
        second: combine,
        third: function,
        fourth: source,
    } = all;
    let next = folds_by(alloc, size, combine, function, source)?;
    Ok(next)
}

/// The size of a group is looked at.
#[tactic(auto, using(crate::proofs::WordTurns::size_none, crate::proofs::WordTurns::size_below, crate::proofs::WordTurns::size_some))]
fn folds_by(
    alloc: Global,
    size: Proper,
    combine: Proper,
    function: Proper,
    source: Proper,
) -> Result<Next<State>, NoMemory>
    ensures { IfOk result (λ r. Takes running (fold_in (plain size.value) (plain combine.value) (plain function.value) (plain source.value)) r) }
{
    let number = number_in(size);
    match number {
        None => Ok(refuses(Thrown::BadType, combine, function, source)),
        Some(number) => {
            if number < 1 {
                return Ok(refuses(Thrown::Index, combine, function, source));
            }
            let next = folds_in(alloc, number, combine, function, source)?;
            Ok(next)
        }
    }
}

/// The integer that a value is. The value is let go.
fn number_in(value: Proper) -> Option<i64>
    ensures { result ≡ integer_of (plain value.value) }
{
    number_of(&value.value)
}

/// Nothing is folded.
fn refuses(why: Thrown, combine: Proper, function: Proper, source: Proper) -> Next<State>
    ensures { Takes running (throw why) result }
{
    throws(State::Over, why)
}

/// A fold in groups of so many items.
#[tactic(auto, using(crate::proofs::WordTurns::whole_goes))]
fn folds_in(
    alloc: Global,
    size: i64,
    combine: Proper,
    function: Proper,
    source: Proper,
) -> Result<Next<State>, NoMemory>
    requires { pos 0 <ℤ size }
    ensures { IfOk result (λ r. Takes running (fold_rule size (plain combine.value) (plain function.value) (plain source.value)) r) }
{
    let found = foldable_of(alloc, &source)?;
    match found {
        None => {
            let next = reduces_from(alloc, combine, function, source)?;
            Ok(next)
        }
        Some(foldable) => {
            let next = folds_split(alloc, size, combine, function, source, foldable)?;
            Ok(next)
        }
    }
}

/// A fold of what may be split. The collection is let go.
#[tactic(auto, using(crate::proofs::WordTurns::foldable_fits, crate::proofs::WordTurns::split_goes))]
fn folds_split(
    alloc: Global,
    size: i64,
    combine: Proper,
    function: Proper,
    source: Proper,
    foldable: Foldable,
) -> Result<Next<State>, NoMemory>
    requires some { pos 0 <ℤ size }
    requires found { IsFoldable (plain source.value) foldable }
    ensures { IfOk result (λ r. Takes running (fold_rule size (plain combine.value) (plain function.value) (plain source.value)) r) }
{
    let Foldable { items, stages } = foldable;
    let none = Pending::none(alloc);
    let fold = Fold {
        size,
        combine,
        function,
        stages,
    };
    let next = folds(alloc, fold, items, none)?;
    Ok(next)
}
