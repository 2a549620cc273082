//! The collections of rows.
use reducer_values::{is_reducer_word, reducer_call};
use seq_turns::{Gathered, Made, Proper, ProperList, vector_made};
use seq_values::{Builtin, CellId};
use seq_vector::NoMemory;
use std::alloc::Global;
use turn_lines::{Arg, values_of};

/// What a word of the reducers is given before the collection.
pub(crate) type Layer = (Builtin, Arg);

/// Where a row's collection comes from.
#[derive(Clone, Copy)]
pub(crate) enum Source {
    Int(i64),
    Part(u32),
    /// The integers from the first up to the second, which is left out, as a vector.
    Vector(i64, i64),
}

fn made(what: Made) -> Result<Proper, NoMemory> {
    match what {
        Made::Value(value) => Ok(value),
        Made::Thrown(_) => Err(NoMemory),
    }
}

/// No more than 1,000 integers.
fn many(alloc: Global, from: i64, end: i64) -> Result<Gathered, NoMemory> {
    let mut all = Gathered::none(alloc);
    for number in from..end {
        if all.len() >= 1000 {
            return Err(NoMemory);
        }
        all = all.and(Proper::of_int(number))?;
    }
    Ok(all)
}

fn vector_of(alloc: Global, from: i64, end: i64) -> Result<Proper, NoMemory> {
    let items = many(alloc, from, end)?.listed(alloc)?;
    made(vector_made(items))
}

fn first_of(values: ProperList) -> Result<Proper, NoMemory> {
    match values.get(0)? {
        Some(value) => Ok(value),
        None => Ok(Proper::nil()),
    }
}

fn source_of(alloc: Global, source: Source) -> Result<Proper, NoMemory> {
    match source {
        Source::Int(number) => Ok(Proper::of_int(number)),
        Source::Part(number) => Ok(match CellId::of(number) {
            Some(id) => Proper::of_part(id),
            None => Proper::nil(),
        }),
        Source::Vector(from, end) => vector_of(alloc, from, end),
    }
}

/// A reducer value over a collection.
fn layered(alloc: Global, layer: Layer, inner: Proper) -> Result<Proper, NoMemory> {
    let (word, arg) = layer;
    if !is_reducer_word(word) {
        return Err(NoMemory);
    }
    let given = first_of(values_of(alloc, &[arg])?)?;
    let args = ProperList::two(alloc, given, inner)?;
    made(reducer_call(word, args))
}

/// The collection under the layers, of which the first is the one nearest to it.
pub(crate) fn collection(
    alloc: Global,
    source: Source,
    layers: &[Layer],
) -> Result<Proper, NoMemory> {
    let mut here = source_of(alloc, source)?;
    for layer in layers {
        let next = layered(alloc, *layer, here)?;
        here = next;
    }
    Ok(here)
}
