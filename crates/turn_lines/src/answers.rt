//! How a small world answers: a function by its word, and a part by its number.
ghost use Rattle.std.specs.Prelude.{IfOk, IfSome};
ghost use Rattle.seq_turns.specs.Turning.{IsSeq};
ghost use Rattle.seq_values.specs.Plain.{plain};

use crate::arguments::{made, part_of, vector_of};
use seq_turns::{
    Proper, ProperList, Seen, Sought, first_before, is_truthy, number_of, seek, seen_value,
    vector_made,
};
use seq_values::{Builtin, CellId, FnValue, Target, Value};
use seq_vector::NoMemory;
use std::alloc::Global;

/// What the elements of a part are.
#[derive(Clone, Copy)]
pub enum Elements {
    /// Its own number and the next one; none from 90 on.
    Numbers,
    /// The parts of ten times its own number, and of the next one.
    Parts,
    /// The same where its number is odd, and none where it is even.
    OddParts,
    /// The part of ten times its number, before the part of the next one, where its number is odd; none where it is even.
    OddSingles,
}

/// The value of a part: the vector of its own number and the next one.
pub fn needed(alloc: Global, id: CellId) -> Result<Proper, NoMemory> {
    let number = id.number() as i64;
    vector_of(alloc, number, number + 2)
}

/// The vector of two parts.
fn two_parts(alloc: Global, first: u32) -> Result<Proper, NoMemory> {
    let next = first.saturating_add(1);
    let items = ProperList::two(alloc, part_of(first), part_of(next))?;
    made(vector_made(items))
}

/// A part before the next one.
fn part_before(alloc: Global, first: u32) -> Result<Proper, NoMemory> {
    match CellId::of(first.saturating_add(1)) {
        Some(next) => made(first_before(alloc, part_of(first), next)?),
        None => Ok(Proper::nil()),
    }
}

fn elements_of(alloc: Global, id: CellId, elements: Elements) -> Result<Proper, NoMemory> {
    let number = id.number();
    let first = number.saturating_mul(10);
    let is_odd = number & 1 == 1;
    match elements {
        Elements::Numbers if number < 90 => needed(alloc, id),
        Elements::Parts => two_parts(alloc, first),
        Elements::OddParts if is_odd => two_parts(alloc, first),
        Elements::OddSingles if is_odd => part_before(alloc, first),
        _ => Ok(Proper::nil()),
    }
}

/// What `seq` gives of a value that is there.
fn seq_of(alloc: Global, value: Proper) -> Result<Option<Proper>, NoMemory>
    ensures { IfOk result (λ x. IfSome x (λ v. IsSeq (plain v.value))) }
{
    match seek(value) {
        Sought::Now(what) => {
            let given = given_seq(alloc, what)?;
            Ok(Some(given))
        }
        Sought::Ask(_) => Ok(None),
    }
}

#[tactic(auto, using(crate::proofs::Seqs::seen_again))]
/// What `seq` gave, as a value.
fn given_seq(alloc: Global, what: Seen) -> Result<Proper, NoMemory>
    ensures { IfOk result (λ v. IsSeq (plain v.value)) }
{
    let value = seen_value(alloc, what)?;
    Ok(value)
}

/// The `seq` of a value that isn't there at once: that of a part's elements, and `None` for a value that has none.
pub fn sought(alloc: Global, value: &Value, elements: Elements) -> Result<Option<Proper>, NoMemory>
    ensures { IfOk result (λ x. IfSome x (λ v. IsSeq (plain v.value))) }
{
    match value {
        Value::Cell(id) => {
            let all = elements_of(alloc, *id, elements)?;
            seq_of(alloc, all)
        }
        _ => Ok(None),
    }
}

/// The number that an argument is, and 0 for another value.
fn number_at(args: &ProperList, at: usize) -> i64 {
    match args.items.get(at) {
        Some(value) => match number_of(value) {
            Some(number) => number,
            None => 0,
        },
        None => 0,
    }
}

/// What a word gives of its arguments: `inc`, `odd?`, `+` and `vector`; another one gives nil.
fn word_called(alloc: Global, word: Builtin, args: ProperList) -> Result<Proper, NoMemory> {
    let first = number_at(&args, 0);
    match word {
        Builtin::Inc => Ok(Proper::of_int(first.wrapping_add(1))),
        Builtin::IsOdd => Ok(Proper::of_truth(first & 1 == 1)),
        Builtin::Plus => Ok(Proper::of_int(first.wrapping_add(number_at(&args, 1)))),
        Builtin::Vector => made(vector_made(args)),
        _ => Ok(Proper::nil()),
    }
}

/// What the complement of a word gives.
fn complement_called(
    alloc: Global,
    bound: Option<&Value>,
    args: ProperList,
) -> Result<Proper, NoMemory> {
    match bound {
        Some(
            Value::Function(
                FnValue {
                    target: Target::Builtin(word),
                    ..
                },
            ),
        ) => {
            let answer = word_called(alloc, *word, args)?;
            Ok(Proper::of_truth(!is_truthy(&answer.value)))
        }
        _ => Ok(Proper::nil()),
    }
}

/// What a function gives. What is no function gives nil.
pub fn called(alloc: Global, function: &Value, args: ProperList) -> Result<Proper, NoMemory> {
    match function {
        Value::Function(FnValue { target, bound, .. }) => match target {
            Target::Builtin(word) => word_called(alloc, *word, args),
            Target::Complement => complement_called(alloc, bound.get(0), args),
            _ => Ok(Proper::nil()),
        },
        _ => Ok(Proper::nil()),
    }
}
