//! How a small world answers what stages ask.
use seq_turns::{Proper, ProperList, Seen, Sought, number_of, seek, vector_made};
use seq_values::{Builtin, FnValue, Target, Value};
use seq_vector::NoMemory;
use std::alloc::Global;
use value_samples::{Sample, value_made};

/// The word that a function is.
pub(crate) fn word_in(function: &Value) -> Option<Builtin> {
    match function {
        Value::Function(FnValue { target, .. }) => match target {
            Target::Builtin(word) => Some(*word),
            _ => None,
        },
        _ => None,
    }
}

/// The first argument, and nil where there is none.
fn first_of(args: &ProperList) -> Result<Proper, NoMemory> {
    match args.get(0)? {
        Some(value) => Ok(value),
        None => Ok(Proper::nil()),
    }
}

/// The number that the first argument is, and 0 for another value.
fn number_in(args: &ProperList) -> i64 {
    match args.items.get(0) {
        Some(value) => number_of(value).unwrap_or(0),
        None => 0,
    }
}

/// What a function gives: `inc`, `odd?`, `identity` and `vector`; another one gives nil.
pub(crate) fn answer_of(
    alloc: Global,
    function: &Value,
    args: ProperList,
) -> Result<Proper, NoMemory> {
    match word_in(function) {
        Some(Builtin::Inc) => Ok(Proper::of_int(number_in(&args).wrapping_add(1))),
        Some(Builtin::IsOdd) => Ok(Proper::of_truth(number_in(&args) & 1 == 1)),
        Some(Builtin::Identity) => first_of(&args),
        Some(Builtin::Vector) => Ok(value_made(vector_made(args))),
        _ => Ok(Proper::nil()),
    }
}

/// The elements of a part are the integers from 1 up to its number, and none from 10 on.
fn elements_of(alloc: Global, number: u32) -> Result<Proper, NoMemory> {
    if number > 9 {
        return Ok(Proper::nil());
    }
    Sample::Vector(number).value(alloc)
}

/// The seq of a value that isn't there at once, and `None` for what has none.
pub(crate) fn seq_of(alloc: Global, value: &Value) -> Result<Option<Seen>, NoMemory> {
    match value {
        Value::Cell(id) => {
            let elements = elements_of(alloc, id.number())?;
            Ok(seen_in(elements))
        }
        _ => Ok(None),
    }
}

fn seen_in(elements: Proper) -> Option<Seen> {
    match seek(elements) {
        Sought::Now(what) => Some(what),
        Sought::Ask(_) => None,
    }
}
