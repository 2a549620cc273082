//! Which crate has the rule of a call of a word.
ghost use Rattle.std.specs.Prelude.{◌≡◌, ◌<◌, ◌≤◌, length, true, IsTrue};
ghost use Rattle.ahead_rows.specs.Table.{ahead_call};
ghost use Rattle.core_rows.specs.Table.{core_call};
ghost use Rattle.eval_rules.specs.Left.{left, wait_of, ends_in_reducer, IsPlain};
ghost use Rattle.fold_rows.specs.Table.{fold_call};
ghost use Rattle.fold_rules.specs.Words.{is_fold_word};
ghost use Rattle.lazy_rows.specs.Table.{walk_call};
ghost use Rattle.lazy_rules.specs.Words.{is_lazy_word};
ghost use Rattle.pull_rules.specs.Words.{is_stage_word};
ghost use Rattle.reducer_values.specs.Words.{is_reducer_word};
ghost use Rattle.seq_plan.specs.Plan.{begun};
ghost use Rattle.seq_table.specs.Table.{into_row, on_word, reduce_row};
ghost use Rattle.seq_turns.specs.Turning.{Fits};
ghost use Rattle.seq_values.specs.Plain.{plains};
ghost use Rattle.stage_rows.specs.Table.{stage_call};
ghost use Rattle.walk_rules.specs.Words.{is_walk_word};

use crate::state::{Reducer, State};
use lazy_rules::is_lazy_word;
use pull_rules::is_stage_word;
use reducer_values::{is_reducer, is_reducer_word};
use seq_turns::ProperList;
use seq_values::{Answer, Builtin};
use walk_rules::walks;

/// A word that walks a collection.
fn walk_word(word: Builtin, args: ProperList) -> State
    requires { is_walk_word word ≡ true }
    ensures left { left result begun ≡ walk_call word (plains args.items) }
    ensures waits { Fits (wait_of result) Answer.Begin }
{
    State::Walk(walk_rules::begin_word(word, args.items))
}

/// A word of a lazy operation.
fn lazy_word(word: Builtin, args: ProperList) -> State
    requires { IsTrue (is_lazy_word word) }
    ensures left { left result begun ≡ walk_call word (plains args.items) }
    ensures waits { Fits (wait_of result) Answer.Begin }
{
    State::Lazy(lazy_rules::begin_word(word, args.items))
}

/// A word that runs the stages of a transducer.
fn stage_word(word: Builtin, args: ProperList) -> State
    requires { IsTrue (is_stage_word word) }
    ensures left { left result begun ≡ stage_call word (plains args.items) }
    ensures waits { Fits (wait_of result) Answer.Begin }
{
    State::Stage(pull_rules::begin_word(word, args.items))
}

/// A word that folds or reduces.
fn fold_word(word: Builtin, args: ProperList) -> State
    requires { IsTrue (is_fold_word word) }
    ensures left { left result begun ≡ fold_call word (plains args.items) }
    ensures waits { Fits (wait_of result) Answer.Begin }
{
    State::Fold(fold_rules::begin_word(word, args.items))
}

/// A word that makes a reducer value.
fn reducer_word(word: Builtin, args: ProperList) -> State
    requires { IsTrue (is_reducer_word word) }
    ensures left { left result begun ≡ fold_call word (plains args.items) }
    ensures waits { Fits (wait_of result) Answer.Begin }
{
    State::Reducer(Reducer { word, args })
}

/// `pmap` or `seque`
fn ahead_word(processors: u32, word: Builtin, args: ProperList) -> State
    ensures left { left result begun ≡ ahead_call processors word (plains args.items) }
    ensures waits { Fits (wait_of result) Answer.Begin }
{
    State::Ahead(ahead_rules::begin_word(word, args.items, processors))
}

/// A word that forces nothing.
fn core_word(word: Builtin, args: ProperList) -> State
    ensures left { left result begun ≡ core_call word (plains args.items) }
    ensures waits { Fits (wait_of result) Answer.Begin }
{
    State::Core(core_rules::begin_word(word, args.items))
}

/// Whether the last argument is a reducer value.
#[tactic(auto, using(crate::proofs::Words::last_item))]
fn last_is_reducer(args: &ProperList) -> bool
    requires { 0 < length args.now.items }
    ensures { result ≡ ends_in_reducer (plains args.now.items) }
{
    match args.items.get(args.items.len() - 1) {
        Some(value) => is_reducer(value),
        None => unreachable!(),
    }
}

/// `reduce` of a reducer value, or of another collection.
#[tactic(auto, using(crate::proofs::Words::reduce_folds, crate::proofs::Words::reduce_walks))]
fn reduce_over(args: ProperList) -> State
    requires few { 2 ≤ length args.items }
    requires most { length args.items ≤ 3 }
    ensures left { left result begun ≡ reduce_row (plains args.items) }
    ensures waits { Fits (wait_of result) Answer.Begin }
{
    if last_is_reducer(&args) {
        return fold_word(Builtin::Reduce, args);
    }
    walk_word(Builtin::Reduce, args)
}

/// `reduce`
#[tactic(auto, using(crate::proofs::Words::reduce_other))]
fn reduce_word(args: ProperList) -> State
    ensures left { left result begun ≡ reduce_row (plains args.items) }
    ensures waits { Fits (wait_of result) Answer.Begin }
{
    let count = args.items.len();
    if count == 2 {
        return reduce_over(args);
    }
    if count == 3 {
        return reduce_over(args);
    }
    walk_word(Builtin::Reduce, args)
}

/// `into` without a transducer, of a reducer value or of another collection.
#[tactic(auto, using(crate::proofs::Words::into_folds, crate::proofs::Words::into_walks))]
fn into_over(args: ProperList) -> State
    requires { length args.items ≡ 2 }
    ensures left { left result begun ≡ into_row (plains args.items) }
    ensures waits { Fits (wait_of result) Answer.Begin }
{
    if last_is_reducer(&args) {
        return fold_word(Builtin::Into, args);
    }
    walk_word(Builtin::Into, args)
}

/// `into`
#[tactic(auto, using(crate::proofs::Words::into_stages, crate::proofs::Words::into_other))]
fn into_word(args: ProperList) -> State
    ensures left { left result begun ≡ into_row (plains args.items) }
    ensures waits { Fits (wait_of result) Answer.Begin }
{
    let count = args.items.len();
    if count == 2 {
        return into_over(args);
    }
    if count == 3 {
        return stage_word(Builtin::Into, args);
    }
    walk_word(Builtin::Into, args)
}

/// A word of one kind of rules, whatever its arguments are.
#[tactic(auto, using(crate::proofs::Words::is_lazy, crate::proofs::Words::makes_reducer, crate::proofs::Words::is_staged, crate::proofs::Words::is_walk, crate::proofs::Words::is_core))]
fn plain_word(processors: u32, word: Builtin, args: ProperList) -> State
    requires { IsPlain word }
    ensures left { left result begun ≡ on_word processors word (plains args.items) }
    ensures waits { Fits (wait_of result) Answer.Begin }
{
    if is_lazy_word(word) {
        return lazy_word(word, args);
    }
    if is_reducer_word(word) {
        return reducer_word(word, args);
    }
    if is_stage_word(word) {
        return stage_word(word, args);
    }
    if walks(word) {
        return walk_word(word, args);
    }
    core_word(word, args)
}

/// The rule of a call of a word.
pub(crate) fn word_called(processors: u32, word: Builtin, args: ProperList) -> State
    ensures left { left result begun ≡ on_word processors word (plains args.items) }
    ensures waits { Fits (wait_of result) Answer.Begin }
{
    match word {
        Builtin::Reduce => reduce_word(args),
        Builtin::Into => into_word(args),
        Builtin::Fold => fold_word(Builtin::Fold, args),
        Builtin::Pmap => ahead_word(processors, Builtin::Pmap, args),
        Builtin::Seque => ahead_word(processors, Builtin::Seque, args),
        _ => plain_word(processors, word, args),
    }
}
