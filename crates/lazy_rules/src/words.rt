//! The words of lazy operations: what a call makes, and gives.
ghost use Rattle.std.specs.Prelude.{◌≡◌, ◌≢◌, ℤ, true, map, length, [], ◌∷◌, List, Some, IfOk, IfSome, IsTrue};
ghost use Rattle.lazy_rules.specs.Arguments.{first_number};
ghost use Rattle.lazy_rules.specs.Left.{Takes};
ghost use Rattle.lazy_rules.specs.Words.{is_lazy_word};
ghost use Rattle.lazy_rows.specs.Calls.{give_stage, with_function, map_call, remove_call, with_count, partition_call, iterate_call, range_call, repeat_call, cycle_call};
ghost use Rattle.lazy_rows.specs.Table.{walk_call};
ghost use Rattle.seq_base.specs.declared.thrown.Thrown.TheVariants.{Arity, BadType, Index};
ghost use Rattle.seq_plan.specs.Lists.{lazily};
ghost use Rattle.seq_plan.specs.Nodes.{range_at};
ghost use Rattle.seq_plan.specs.Plan.{give, throw};
ghost use Rattle.seq_values.specs.Model as M;
ghost use Rattle.seq_values.specs.Plain.{plain, plains};
ghost use Rattle.seq_values.specs.Sight.{Sight, an_int};
ghost use Rattle.seq_values.specs.WellFormed.{binds, binds_stage, sight_of};
ghost use Rattle.seq_values.specs.WellFormedTerms.{takes};
ghost use Rattle.seq_values.specs.declared.words.Op.TheVariants as O;
ghost use Rattle.seq_values.specs.declared.words.Target.TheVariants as T;

use crate::arguments::{Counted, counted_of, only, pair_of};
use crate::made_terms::{first_then, pair_term, term_of};
use crate::state::{AtPart, Call, State};
use crate::ways::{gives, let_go, makes, throws};
use seq_base::Thrown;
use seq_turns::{Made, Next, Proper, ProperList, function_made, gives_function, number_of};
use seq_values::{Builtin, Node, Op, Target, Value, XfKind, word_value};
use seq_vector::NoMemory;
use std::alloc::Global;

/// Whether a word is one of a lazy operation, the transducer `cat` among them.
pub fn is_lazy_word(word: Builtin) -> bool
    ensures { result ≡ is_lazy_word word }
{
    match word {
        Builtin::Map => true,
        Builtin::Filter => true,
        Builtin::Keep => true,
        Builtin::Remove => true,
        Builtin::Take => true,
        Builtin::Drop => true,
        Builtin::TakeWhile => true,
        Builtin::DropWhile => true,
        Builtin::Concat => true,
        Builtin::Mapcat => true,
        Builtin::Iterate => true,
        Builtin::Range => true,
        Builtin::Repeat => true,
        Builtin::Cycle => true,
        Builtin::PartitionAll => true,
        Builtin::Cat => true,
        _ => false,
    }
}

/// A call of a word begins.
pub(crate) fn call_begins(alloc: Global, call: Call) -> Result<Next<State>, NoMemory>
    ensures { IfOk result (λ r. Takes (walk_call call.word (plains call.args)) r) }
{
    let Call { word, args } = call;
    word_begins(alloc, word, ProperList { items: args })
}

fn word_begins(alloc: Global, word: Builtin, args: ProperList) -> Result<Next<State>, NoMemory>
    requires { IsTrue (is_lazy_word word) }
    ensures { IfOk result (λ r. Takes (walk_call word (plains args.items)) r) }
{
    match word {
        Builtin::Map => Ok(map_call(args)),
        Builtin::Filter => Ok(function_call(Op::Filter, XfKind::Filter, args)),
        Builtin::Keep => Ok(function_call(Op::Keep, XfKind::Keep, args)),
        Builtin::Remove => remove_call(alloc, args),
        Builtin::Take => Ok(count_call(Op::Take, XfKind::Take, args)),
        Builtin::Drop => Ok(count_call(Op::Drop, XfKind::Drop, args)),
        Builtin::TakeWhile => Ok(function_call(Op::TakeWhile, XfKind::TakeWhile, args)),
        Builtin::DropWhile => Ok(function_call(Op::DropWhile, XfKind::DropWhile, args)),
        Builtin::Concat => Ok(makes_cell(Op::Concat, args)),
        Builtin::Mapcat => Ok(function_call(Op::Mapcat, XfKind::Mapcat, args)),
        Builtin::Iterate => iterate_call(args),
        Builtin::Range => range_call(alloc, args),
        Builtin::Repeat => repeat_call(alloc, args),
        Builtin::Cycle => cycle_call(alloc, args),
        Builtin::PartitionAll => Ok(partition_call(args)),
        Builtin::Cat => Ok(wrong_kind(args)),
        _ => unreachable!(),
    }
}

/// A number of arguments that the word doesn't take.
fn wrong_number(args: ProperList) -> Next<State>
    ensures { Takes (throw Arity) result }
{
    let_go(args);
    throws(Thrown::Arity)
}

/// An argument that isn't of the kind that the word takes.
fn wrong_kind(args: ProperList) -> Next<State>
    ensures { Takes (throw BadType) result }
{
    let_go(args);
    throws(Thrown::BadType)
}

/// Makes the part of an operation on the arguments, and gives its cell.
fn makes_cell(op: Op, args: ProperList) -> Next<State>
    requires { takes op (map sight_of args.items) ≡ true }
    ensures { Takes (lazily op (plains args.items)) result }
{
    let term = term_of(op, args);
    makes(AtPart::Cell, term)
}

/// Gives a transducer of one stage with the arguments bound to it.
fn gives_stage(kind: XfKind, args: ProperList) -> Next<State>
    requires { IsTrue (binds (T.Xf kind) (map sight_of args.items)) }
    ensures { Takes (give_stage kind (plains args.items)) result }
{
    gives_function(State::Over, Target::Xf(kind), args)
}

#[tactic(auto, using(crate::proofs::WordTurns::function_stage, crate::proofs::WordTurns::function_cell, crate::proofs::WordTurns::function_arity, crate::proofs::WordTurns::stage_binds, crate::proofs::WordTurns::cell_takes))]
/// `filter`, `keep`, `take-while`, `drop-while`, `mapcat`
fn function_call(op: Op, kind: XfKind, args: ProperList) -> Next<State>
    requires takes { (a b : Sight) → takes op (a ∷ b ∷ []) ≡ true }
    requires binds { (a : Sight) → binds_stage kind (a ∷ []) ≡ true }
    ensures { Takes (with_function op kind (plains args.items)) result }
{
    match args.len() {
        1 => gives_stage(kind, args),
        2 => makes_cell(op, args),
        _ => wrong_number(args),
    }
}

#[tactic(auto, using(crate::proofs::WordTurns::map_several, crate::proofs::WordTurns::map_other, crate::proofs::MadeTerms::takes_several))]
/// `map`
fn map_call(args: ProperList) -> Next<State>
    ensures { Takes (map_call (plains args.items)) result }
{
    match args.len() {
        3 => makes_cell(Op::MapN, args),
        4 => makes_cell(Op::MapN, args),
        5 => makes_cell(Op::MapN, args),
        _ => function_call(Op::Map, XfKind::Map, args),
    }
}

#[tactic(auto, using(crate::proofs::WordTurns::remove_stage, crate::proofs::WordTurns::remove_binds, crate::proofs::WordTurns::remove_arity))]
/// `remove`
fn remove_call(alloc: Global, args: ProperList) -> Result<Next<State>, NoMemory>
    ensures { IfOk result (λ r. Takes (remove_call (plains args.items)) r) }
{
    if args.len() == 1 {
        return Ok(gives_stage(XfKind::Remove, args));
    }
    let pair = pair_of(args)?;
    match pair {
        None => Ok(throws(Thrown::Arity)),
        Some(pair) => filter_not(alloc, pair),
    }
}

#[tactic(auto, using(crate::proofs::WordTurns::not_throws, crate::proofs::WordTurns::not_makes, crate::proofs::WordTurns::complement_binds))]
/// The elements of which the first isn't true.
fn filter_not(alloc: Global, pair: (Proper, Proper)) -> Result<Next<State>, NoMemory>
    ensures { IfOk result (λ r. Takes (remove_call (plain pair.0.value ∷ plain pair.1.value ∷ [])) r) }
{
    let (first, second) = pair;
    let bound = ProperList::one(alloc, first)?;
    match function_made(Target::Complement, bound) {
        Made::Thrown(why) => {
            let_go(second);
            Ok(throws(why))
        }
        Made::Value(function) => {
            let term = pair_term(alloc, Op::Filter, function, second)?;
            Ok(makes(AtPart::Cell, term))
        }
    }
}

/// The first argument, where it is an integer.
fn first_number(args: &ProperList) -> Option<i64>
    ensures same { result ≡ first_number (plains args.now.items) }
    ensures sight { (x : Value) (xs : List Value) → args.now.items ≡ x ∷ xs → IfSome result (λ n. sight_of x ≡ an_int n) }
{
    match args.items.get(0) {
        None => None,
        Some(value) => number_of(value),
    }
}

#[tactic(auto, using(crate::proofs::WordTurns::count_arity))]
/// `take`, `drop`
fn count_call(op: Op, kind: XfKind, args: ProperList) -> Next<State>
    requires takes { (n : ℤ) (a : Sight) → takes op (an_int n ∷ a ∷ []) ≡ true }
    requires binds { (n : ℤ) → binds_stage kind (an_int n ∷ []) ≡ true }
    ensures { Takes (with_count op kind (plains args.items)) result }
{
    match args.len() {
        1 => count_stage(op, kind, args),
        2 => count_cell(op, kind, args),
        _ => wrong_number(args),
    }
}

#[tactic(auto, using(crate::proofs::WordTurns::count_stage, crate::proofs::WordTurns::count_wrong_kind))]
fn count_stage(op: Op, kind: XfKind, args: ProperList) -> Next<State>
    requires one { length args.items ≡ 1 }
    requires binds { (n : ℤ) → binds_stage kind (an_int n ∷ []) ≡ true }
    ensures { Takes (with_count op kind (plains args.items)) result }
{
    let found = first_number(&args);
    match found {
        None => wrong_kind(args),
        Some(_number) => gives_stage(kind, args),
    }
}

#[tactic(auto, using(crate::proofs::WordTurns::count_cell, crate::proofs::WordTurns::count_wrong_kind))]
fn count_cell(op: Op, kind: XfKind, args: ProperList) -> Next<State>
    requires two { length args.items ≡ 2 }
    requires takes { (n : ℤ) (a : Sight) → takes op (an_int n ∷ a ∷ []) ≡ true }
    ensures { Takes (with_count op kind (plains args.items)) result }
{
    let found = first_number(&args);
    match found {
        None => wrong_kind(args),
        Some(_number) => makes_cell(op, args),
    }
}

#[tactic(auto, using(crate::proofs::WordTurns::parts_wrong_kind, crate::proofs::WordTurns::parts_arity))]
/// `partition-all`
fn partition_call(args: ProperList) -> Next<State>
    ensures { Takes (partition_call (plains args.items)) result }
{
    match args.len() {
        1 => match first_number(&args) {
            None => wrong_kind(args),
            Some(size) => partition_stage(size, args),
        },
        2 => match first_number(&args) {
            None => wrong_kind(args),
            Some(size) => partition_cell(size, args),
        },
        _ => wrong_number(args),
    }
}

/// A size that no group has.
fn wrong_size(args: ProperList) -> Next<State>
    ensures { Takes (throw Index) result }
{
    let_go(args);
    throws(Thrown::Index)
}

#[tactic(auto, using(crate::proofs::WordTurns::parts_wrong_size, crate::proofs::WordTurns::parts_stage, crate::proofs::WordTurns::size_binds))]
fn partition_stage(size: i64, args: ProperList) -> Next<State>
    requires one { length args.items ≡ 1 }
    requires size { first_number (plains args.items) ≡ Some size }
    requires sight { (x : Value) (xs : List Value) → args.items ≡ x ∷ xs → sight_of x ≡ an_int size }
    ensures { Takes (partition_call (plains args.items)) result }
{
    if size < 1 {
        wrong_size(args)
    } else {
        gives_stage(XfKind::PartitionAll, args)
    }
}

#[tactic(auto, using(crate::proofs::WordTurns::parts_wrong_size, crate::proofs::WordTurns::parts_cell, crate::proofs::WordTurns::size_takes))]
fn partition_cell(size: i64, args: ProperList) -> Next<State>
    requires two { length args.items ≡ 2 }
    requires size { first_number (plains args.items) ≡ Some size }
    requires sight { (x : Value) (xs : List Value) → args.items ≡ x ∷ xs → sight_of x ≡ an_int size }
    ensures { Takes (partition_call (plains args.items)) result }
{
    if size < 1 {
        wrong_size(args)
    } else {
        makes_cell(Op::Parts, args)
    }
}

#[tactic(auto, using(crate::proofs::WordTurns::iterate_arity, crate::proofs::WordTurns::iterate_first, crate::proofs::WordTurns::next_takes))]
/// `iterate`
fn iterate_call(args: ProperList) -> Result<Next<State>, NoMemory>
    ensures { IfOk result (λ r. Takes (iterate_call (plains args.items)) r) }
{
    if args.len() != 2 {
        return Ok(wrong_number(args));
    }
    let first = args.at(1)?;
    let term = term_of(Op::Next, args);
    Ok(first_then(first, term))
}

#[tactic(auto, using(crate::proofs::WordTurns::range_arity))]
/// `range`
fn range_call(alloc: Global, args: ProperList) -> Result<Next<State>, NoMemory>
    ensures { IfOk result (λ r. Takes (range_call (plains args.items)) r) }
{
    match args.len() {
        0 => {
            let_go(args);
            all_numbers(alloc)
        }
        1 => Ok(range_to(args)),
        2 => range_between(args),
        _ => Ok(wrong_number(args)),
    }
}

/// The numbers from 0 on, without end.
fn all_numbers(alloc: Global) -> Result<Next<State>, NoMemory>
    ensures { IfOk result (λ r. Takes (range_call []) r) }
{
    let inc = Proper {
        value: word_value(Builtin::Inc),
    };
    let term = pair_term(alloc, Op::Next, inc, Proper::of_int(0))?;
    Ok(first_then(Proper::of_int(0), term))
}

#[tactic(auto, using(crate::proofs::WordTurns::range_gives, crate::proofs::Taking::gives_same))]
/// The integers from the first up to the second, which is left out.
fn gives_range(from: i64, end: i64) -> Next<State>
    ensures { Takes (give (range_at from from end)) result }
{
    gives(Proper {
        value: Value::Node(Node::range(from, end)),
    })
}

#[tactic(auto, using(crate::proofs::WordTurns::range_wrong_end, crate::proofs::WordTurns::range_ends))]
fn range_to(args: ProperList) -> Next<State>
    requires { length args.items ≡ 1 }
    ensures { Takes (range_call (plains args.items)) result }
{
    match first_number(&args) {
        None => wrong_kind(args),
        Some(end) => {
            let_go(args);
            gives_range(0, end)
        }
    }
}

fn range_between(args: ProperList) -> Result<Next<State>, NoMemory>
    requires { length args.items ≡ 2 }
    ensures { IfOk result (λ r. Takes (range_call (plains args.items)) r) }
{
    let counted = counted_of(args)?;
    match counted {
        None => Ok(throws(Thrown::BadType)),
        Some(counted) => Ok(range_from(counted)),
    }
}

#[tactic(auto, using(crate::proofs::WordTurns::range_wrong_stop, crate::proofs::WordTurns::range_spans))]
fn range_from(counted: Counted) -> Next<State>
    ensures { Takes (range_call (M.int counted.count ∷ plain counted.source.value ∷ [])) result }
{
    let Counted { count, source } = counted;
    let end = number_of(&source.value);
    let_go(source);
    match end {
        None => throws(Thrown::BadType),
        Some(end) => gives_range(count, end),
    }
}

#[tactic(auto, using(crate::proofs::WordTurns::repeat_cell, crate::proofs::WordTurns::repeat_takes, crate::proofs::WordTurns::repeat_arity))]
/// `repeat`
fn repeat_call(alloc: Global, args: ProperList) -> Result<Next<State>, NoMemory>
    ensures { IfOk result (λ r. Takes (repeat_call (plains args.items)) r) }
{
    match args.len() {
        1 => Ok(makes_cell(Op::Repeat, args)),
        2 => repeat_some(alloc, args),
        _ => Ok(wrong_number(args)),
    }
}

fn repeat_some(alloc: Global, args: ProperList) -> Result<Next<State>, NoMemory>
    requires { length args.items ≡ 2 }
    ensures { IfOk result (λ r. Takes (repeat_call (plains args.items)) r) }
{
    let counted = counted_of(args)?;
    match counted {
        None => Ok(throws(Thrown::BadType)),
        Some(counted) => repeat_counted(alloc, counted),
    }
}

#[tactic(auto, using(crate::proofs::WordTurns::repeat_makes))]
/// The part that repeats the value is made first.
fn repeat_counted(alloc: Global, counted: Counted) -> Result<Next<State>, NoMemory>
    ensures { IfOk result (λ r. Takes (repeat_call (M.int counted.count ∷ plain counted.source.value ∷ [])) r) }
{
    let Counted { count, source } = counted;
    let args = ProperList::one(alloc, source)?;
    let term = term_of(Op::Repeat, args);
    Ok(makes(AtPart::TakeOf { count }, term))
}

#[tactic(auto, using(crate::proofs::WordTurns::cycle_arity, crate::proofs::WordTurns::cycle_makes))]
/// `cycle`
fn cycle_call(alloc: Global, args: ProperList) -> Result<Next<State>, NoMemory>
    ensures { IfOk result (λ r. Takes (cycle_call (plains args.items)) r) }
{
    let value = only(args)?;
    match value {
        None => Ok(throws(Thrown::Arity)),
        Some(whole) => {
            let round = whole.share()?;
            let term = pair_term(alloc, Op::Cycle, whole, round)?;
            Ok(makes(AtPart::Cell, term))
        }
    }
}
