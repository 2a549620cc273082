//! What functions give in the world of these tests.
use seq_turns::{Proper, ProperList};
use seq_values::{Builtin, FnValue, Target, Value, depth_of, reduced};
use seq_vector::NoMemory;
use std::alloc::Global;
use turn_lines::called;

fn is_word(function: &Value, wanted: Builtin) -> bool {
    match function {
        Value::Function(
            FnValue {
                target: Target::Builtin(word),
                ..
            },
        ) => *word == wanted,
        _ => false,
    }
}

/// The last argument as an answer that ends a reduction, and nil where there is none.
fn ended(alloc: Global, args: ProperList) -> Result<Proper, NoMemory> {
    let count = args.len();
    if count == 0 {
        return Ok(Proper::nil());
    }
    let last = args.at(count - 1)?;
    ended_by(alloc, last)
}

fn ended_by(alloc: Global, last: Proper) -> Result<Proper, NoMemory> {
    if depth_of(&last.value) > 255 {
        return Err(NoMemory);
    }
    let value = reduced(alloc, last.value)?;
    Ok(Proper { value })
}

/// What a function gives: `reduced` ends with its last argument, `conj` gives the vector of its arguments, and others answer as they do for all rules.
pub(crate) fn answer_of(
    alloc: Global,
    function: Value,
    args: ProperList,
) -> Result<Proper, NoMemory> {
    if is_word(&function, Builtin::Reduced) {
        return ended(alloc, args);
    }
    if is_word(&function, Builtin::Conj) {
        return vector_of(alloc, args);
    }
    let answer = called(alloc, &function, args)?;
    Ok(answer)
}

fn vector_of(alloc: Global, args: ProperList) -> Result<Proper, NoMemory> {
    let vector = Proper {
        value: seq_values::word_value(Builtin::Vector),
    };
    let answer = called(alloc, &vector.value, args)?;
    Ok(answer)
}
