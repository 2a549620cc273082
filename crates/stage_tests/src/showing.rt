//! What stages do, as a line: `.` for an own step, `?` before a value whose seq they ask for, a function before its argument, `>` before an output, and `!` before an error. `;` ends what is through, after `done` where all is done.
use crate::world::word_in;
use seq_base::{Thrown, word_of};
use seq_turns::number_of;
use seq_values::{Builtin, Line, Value};
use seq_vector::{NoMemory, PVec};
use value_samples::show;

fn show_function(function: &Value, line: &mut Line) -> Result<(), NoMemory> {
    match word_in(function) {
        Some(Builtin::Inc) => line.append(b"inc"),
        Some(Builtin::IsOdd) => line.append(b"odd?"),
        Some(Builtin::Identity) => line.append(b"identity"),
        Some(Builtin::Vector) => line.append(b"vector"),
        _ => show(function, line),
    }
}

/// The values from a place on, a space before each.
pub(crate) fn show_all(items: &PVec<Value>, from: usize, line: &mut Line) -> Result<(), NoMemory> {
    for place in from..items.len() {
        line.push(b' ')?;
        if let Some(item) = items.get(place) {
            show(item, line)?;
        }
    }
    Ok(())
}

/// `inc(1) `
pub(crate) fn show_call(
    function: &Value,
    args: &PVec<Value>,
    line: &mut Line,
) -> Result<(), NoMemory> {
    show_function(function, line)?;
    line.push(b'(')?;
    if let Some(first) = args.get(0) {
        show(first, line)?;
    }
    show_all(args, 1, line)?;
    line.append(b") ")
}

pub(crate) fn show_asked(value: &Value, line: &mut Line) -> Result<(), NoMemory> {
    line.push(b'?')?;
    show(value, line)?;
    line.push(b' ')
}

/// An output, with `!` behind 7, whose answer is a reduced one.
pub(crate) fn show_output(item: &Value, line: &mut Line) -> Result<bool, NoMemory> {
    line.push(b'>')?;
    show(item, line)?;
    match number_of(item) {
        Some(7) => {
            line.append(b"! ")?;
            Ok(true)
        }
        _ => {
            line.push(b' ')?;
            Ok(false)
        }
    }
}

pub(crate) fn show_end(done: bool, line: &mut Line) -> Result<(), NoMemory> {
    if done {
        line.append(b"done")?;
    }
    line.append(b"; ")
}

pub(crate) fn show_thrown(why: Thrown, line: &mut Line) -> Result<(), NoMemory> {
    line.push(b'!')?;
    line.append(word_of(why))
}
